//! A source and a sink over memory that never fail.
ghost use Rattle.std.specs.Prelude.{◌≡◌, ◌≤◌, ◌++◌, ◌+◌, [], length, take, drop, min, Some, Ok, IfOk};
ghost use Rattle.mf_io.specs.SureCalls.{SureSupplies, stored};

use crate::memory::copy_front;
use crate::sink::Sink;
use crate::source::{Failed, Source};
use std::alloc::{AllocError, Global};
use std::marker::Model;

/// A source over memory that never fails. Contracts see the bytes left.
#[derive(Drop)]
pub struct SureSource {
    bytes: Vec<u8>,
    start: usize,
}

impl Model for SureSource {
    ghost use Rattle.std.specs.Prelude.{ℕ, List, ◌≤◌, drop, vec_len};

    ghost Value = { List ℕ };

    ghost view = { λ s. drop s.start s.bytes.items };

    ghost invariant = { λ s. s.start ≤ vec_len s.bytes };
}

impl SureSource {
    /// A source of the bytes.
    pub fn new(bytes: Vec<u8>) -> Self
        ensures { result ≡ bytes.items }
    {
        SureSource { bytes, start: 0 }
    }
}

impl Source for SureSource {
    ghost use Rattle.std.specs.Prelude.{Some};
    ghost use Rattle.mf_io.specs.Causes.{Gave, HasCause};

    ghost left = { λ s. Some s };

    ghost faults = { λ s. 0 };

    /// Moves what fits. It never fails.
    fn read(&mut self, buffer: &mut [u8]) -> Result<usize, Failed>
        ensures fits { IfOk result (λ n. n ≤ length buffer.old) }
        ensures bytes { IfOk result (λ n.
            Gave (Some self.old) (Some self.new) (length buffer.old) n buffer.new) }
        ensures cause { HasCause 0 0 result }
        ensures ok { SureSupplies self.old self.new buffer.old buffer.new result }
    {
        let count = copy_front(&self.bytes[self.start..], buffer, usize::MAX);
        self.start += count;
        Ok(count)
    }
}

/// A sink over memory that never fails. Contracts see its room, and the bytes that it took as long as they have room.
#[derive(Drop)]
pub struct SureSink {
    bytes: Vec<u8>,
    room: usize,
    tells: bool,
}

impl Model for SureSink {
    ghost use Rattle.std.specs.Prelude.{◌≤◌, Some, None, vec_len, vec_capacity, if◌then◌else◌};
    ghost use Rattle.mf_io.specs.Sure.{SureStore};

    ghost Value = { SureStore };

    ghost view = { λ s. record {
      taken = if s.tells then Some s.bytes.items else None;
      room = s.room;
    } };

    ghost invariant = { λ s. (vec_len s.bytes ≤ s.room) × (s.room ≤ vec_capacity s.bytes) };
}

impl SureSink {
    /// A sink that knows the bytes that it took as long as they are at most `room`. It takes their memory now and none
    /// later.
    pub fn new(alloc: Global, room: usize) -> Result<Self, AllocError>
        ensures { IfOk result (λ s. s ≡ record { taken = Some []; room = room }) }
    {
        Ok(SureSink {
            bytes: Vec::with_capacity(alloc, room)?,
            room,
            tells: true,
        })
    }
}

impl Sink for SureSink {
    ghost use Rattle.mf_io.specs.Causes.{HasCause};
    ghost use Rattle.mf_io.specs.Outside.{Took};

    ghost taken = { λ s. s.taken };

    ghost faults = { λ s. 0 };

    /// Takes every piece whole. It never fails, and no longer knows its bytes once they have no room.
    fn write(&mut self, piece: &[u8]) -> Result<usize, Failed>
        ensures bytes { Took self.old.taken self.new.taken piece.now }
        ensures cause { HasCause 0 0 result }
        ensures ok { result ≡ Ok (length piece.now) }
        ensures stored { self.new ≡ stored self.old piece.now }
    {
        if self.tells && piece.len() <= self.room - self.bytes.len() {
            match self.bytes.extend_from_slice(piece) {
                Ok(()) => return Ok(piece.len()),
                Err(AllocError) => unreachable!(),
            }
        }
        self.tells = false;
        Ok(piece.len())
    }
}
