//! A source and a sink over memory, with limits and faults of the caller's choice.
ghost use Rattle.std.specs.Prelude.{◌≡◌, ◌<◌, ◌≤◌, ◌++◌, ◌⊎◌, ◌↔◌, [], ℕ, length, take, drop, min, IfOk, OnErr, IsTrue};
ghost use Rattle.std.specs.Result.{IsErr};
ghost use Rattle.mf_io.specs.Memory.{Supplies, Stores, Refuses, read_failed, write_failed};
ghost use Rattle.mf_io.specs.Calls.{fails_next};

use crate::calls::Calls;
use crate::sink::Sink;
use crate::source::{Failed, Source};
use std::alloc::{AllocError, Global};
use std::marker::Model;

/// Copies what fits, at most so many bytes, from the front of what is left to the front of the buffer, and returns how
/// many.
pub(crate) fn copy_front(left: &[u8], buffer: &mut [u8], most: usize) -> usize
    ensures count { result ≡ min (min most (length buffer.old)) (length left.now) }
    ensures bytes { buffer.new ≡ take result left.now ++ drop result buffer.old }
{
    let count = most.min(buffer.len()).min(left.len());
    buffer[..count].copy_from_slice(&left[..count]);
    count
}

/// A source over memory. Contracts see the bytes left and its calls.
#[derive(Drop)]
pub struct MemSource {
    bytes: Vec<u8>,
    start: usize,
    calls: Calls,
}

impl Model for MemSource {
    ghost use Rattle.std.specs.Prelude.{◌≤◌, drop, vec_len};
    ghost use Rattle.mf_io.specs.Held.{Supply};

    ghost Value = { Supply };

    ghost view = { λ s. record { left = drop s.start s.bytes.items; calls = s.calls } };

    ghost invariant = { λ s. (s.start ≤ vec_len s.bytes) × (1 ≤ s.calls.most) };
}

impl MemSource {
    /// A source of the bytes. A call moves at most `most` bytes. The calls of the numbers in `fails` fail; calls count from 1.
    pub fn new(bytes: Vec<u8>, most: usize, fails: Vec<u64>) -> Self
        requires { 1 ≤ most }
        ensures { result ≡ record {
          left = bytes.items;
          calls = record { most = most; fails = fails; made = 0; faults = 0 };
        } }
    {
        MemSource {
            bytes,
            start: 0,
            calls: Calls::new(most, fails),
        }
    }
}

impl Source for MemSource {
    ghost use Rattle.std.specs.Prelude.{Some};
    ghost use Rattle.mf_io.specs.Causes.{Gave, HasCause};

    ghost left = { λ s. Some s.left };

    ghost faults = { λ s. s.calls.faults };

    /// Moves the least of `most`, the length of the buffer, and what is left. It fails exactly at the numbers in `fails`.
    fn read(&mut self, buffer: &mut [u8]) -> Result<usize, Failed>
        ensures fits { IfOk result (λ n. n ≤ length buffer.old) }
        ensures bytes { IfOk result (λ n.
            Gave (Some self.old.left) (Some self.new.left) (length buffer.old) n buffer.new) }
        ensures cause { HasCause self.old.calls.faults self.new.calls.faults result }
        ensures failed { IsErr result ↔ IsTrue (fails_next self.old.calls) }
        ensures err { OnErr result ((self.new ≡ read_failed self.old) × (buffer.new ≡ buffer.old)) }
        ensures ok { IfOk result (λ n. Supplies self.old self.new buffer.old buffer.new n) }
    {
        if self.calls.next_fails() {
            return Err(self.calls.fail());
        }
        let count = copy_front(&self.bytes[self.start..], buffer, self.calls.most);
        self.start += count;
        Ok(count)
    }
}

/// A sink over memory. Contracts see the bytes that it took, how many it takes in all, and its calls.
#[derive(Drop)]
pub struct MemSink {
    bytes: Vec<u8>,
    room: usize,
    calls: Calls,
}

impl Model for MemSink {
    ghost use Rattle.std.specs.Prelude.{◌≤◌, vec_len, vec_capacity};
    ghost use Rattle.mf_io.specs.Held.{Store};

    ghost Value = { Store };

    ghost view = { λ s. record { taken = s.bytes.items; room = s.room; calls = s.calls } };

    ghost invariant = { λ s. (vec_len s.bytes ≤ s.room) × (s.room ≤ vec_capacity s.bytes)
        × (1 ≤ s.calls.most) };
}

impl MemSink {
    /// A sink with room for so many bytes, whose memory it takes now and none later. A call moves at most `most` bytes.
    /// The calls of the numbers in `fails` fail; calls count from 1.
    pub fn new(alloc: Global, room: usize, most: usize, fails: Vec<u64>) -> Result<Self, AllocError>
        requires { 1 ≤ most }
        ensures { IfOk result (λ s. s ≡ record {
          taken = [];
          room = room;
          calls = record { most = most; fails = fails; made = 0; faults = 0 };
        }) }
    {
        Ok(MemSink {
            bytes: Vec::with_capacity(alloc, room)?,
            room,
            calls: Calls::new(most, fails),
        })
    }

    /// The bytes that it took.
    pub fn taken(&self) -> &[u8]
        ensures { result.now ≡ self.now.taken }
    {
        self.bytes.as_slice()
    }
}

impl Sink for MemSink {
    ghost use Rattle.std.specs.Prelude.{Some};
    ghost use Rattle.mf_io.specs.Causes.{HasCause};
    ghost use Rattle.mf_io.specs.Outside.{Took};

    ghost taken = { λ s. Some s.taken };

    ghost faults = { λ s. s.calls.faults };

    /// Moves the least of `most`, the length of the piece, and what is free. It fails exactly at the numbers in `fails`, and
    /// for a piece that isn't empty where nothing is free.
    fn write(&mut self, piece: &[u8]) -> Result<usize, Failed>
        ensures fits { IfOk result (λ n. n ≤ length piece.now) }
        ensures some { IfOk result (λ n. 0 < length piece.now → 0 < n) }
        ensures bytes { IfOk result (λ n.
            Took (Some self.old.taken) (Some self.new.taken) (take n piece.now)) }
        ensures same { OnErr result (Took (Some self.old.taken) (Some self.new.taken) []) }
        ensures cause { HasCause self.old.calls.faults self.new.calls.faults result }
        ensures failed { IsErr result ↔ Refuses self.old piece.now }
        ensures err { OnErr result (self.new ≡ write_failed self.old) }
        ensures ok { IfOk result (λ n. Stores self.old self.new piece.now n) }
    {
        let free = self.room - self.bytes.len();
        if self.calls.next_fails() || (free == 0 && !piece.is_empty()) {
            return Err(self.calls.fail());
        }
        let count = self.calls.most.min(piece.len()).min(free);
        match self.bytes.extend_from_slice(&piece[..count]) {
            Ok(()) => Ok(count),
            Err(AllocError) => unreachable!(),
        }
    }
}
