//! Descriptors of processes, which contracts see as lists in the order of opening.
ghost use Rattle.std.specs.Prelude.{◌≡◌, ◌≤◌, ◌<◌, ◌+◌, [], length, IfOk};
ghost use Rattle.std.specs.Option.{option_copied};
ghost use Rattle.mf_names.specs.declared.limits.TheConstants.{MOST_DESCRIPTORS};
ghost use Rattle.mf_objects.specs.Descriptors as fds;

use crate::id::Id;
use mf_elem::LabelValue;
use mf_names::MOST_DESCRIPTORS;
use std::alloc::{AllocError, Global};
use std::marker::Model;

/// A descriptor: a file that a process has open.
#[derive(Clone, Copy)]
pub struct Fd {
    /// The number under which the process names it.
    pub number: u32,
    /// The open file.
    pub file: Id,
    /// Whether it is open for reading.
    pub read: bool,
    /// Whether it is open for writing.
    pub write: bool,
    /// What mac_biba had in its slot of the process's label when the file was opened; Unset where it
    /// wasn't booted.
    pub subject: LabelValue,
    /// The same of the file's label.
    pub object: LabelValue,
}

impl Fd {
    fn has_number(&self, number: u32) -> bool
        ensures { result ≡ fds.has_number number self.now }
    {
        self.number == number
    }

    fn is_on(&self, file: Id) -> bool
        ensures { result ≡ fds.is_on file self.now }
    {
        self.file.0 == file.0
    }
}

/// The descriptors of a process, with room for as many as it may have. Contracts see their list.
#[derive(Drop)]
pub struct Descriptors {
    items: Vec<Fd>,
}

impl Model for Descriptors {
    ghost use Rattle.std.specs.Prelude.{List, ◌≤◌, vec_len, vec_capacity};
    ghost use Rattle.mf_names.specs.declared.limits.TheConstants.{MOST_DESCRIPTORS};
    ghost use Rattle.mf_objects.specs.declared.descriptors.Fd.{Fd};

    ghost Value = { List Fd };

    ghost view = { λ a. a.items.items };

    ghost invariant = { λ a. (vec_len a.items ≤ MOST_DESCRIPTORS)
        × (MOST_DESCRIPTORS ≤ vec_capacity a.items) };
}

impl Descriptors {
    /// No descriptors. The room for all that may come is taken here, so that opening takes no memory.
    pub fn new(alloc: Global) -> Result<Descriptors, AllocError>
        ensures { IfOk result (λ descriptors. descriptors ≡ []) }
    {
        Ok(Descriptors {
            items: Vec::with_capacity(alloc, MOST_DESCRIPTORS as usize)?,
        })
    }

    /// How many they are.
    pub fn len(&self) -> u32
        ensures value { result ≡ length self.now }
        ensures most { length self.now ≤ MOST_DESCRIPTORS }
    {
        self.items.len() as u32
    }

    /// The descriptor of this number.
    pub fn find(&self, number: u32) -> Option<&Fd>
        ensures { option_copied result ≡ fds.fd_in self.now number }
    {
        self.items.iter().find(|fd| fd.has_number(number))
    }

    /// The lowest number that none of them has, and the number of all numbers where each is taken.
    pub fn lowest_free(&self) -> u32
        ensures { result ≡ fds.lowest_free self.now }
    {
        let mut number = 0;
        while number < MOST_DESCRIPTORS && self.find(number).is_some() {
            number += 1;
        }
        number
    }

    /// Adds a descriptor. There must be room, so that it takes no memory.
    pub fn push(&mut self, fd: Fd)
        requires { length self.old < MOST_DESCRIPTORS }
        ensures { self.new ≡ fds.opened fd self.old }
    {
        self.items.push_reserved(fd);
    }

    /// Removes the descriptor of this number, and counts what it removed.
    pub fn close(&mut self, number: u32) -> u32
        ensures value { self.new ≡ fds.closed number self.old }
        ensures count { length self.new + result ≡ length self.old }
    {
        let before = self.items.len();
        self.items.retain(|fd| !fd.has_number(number));
        (before - self.items.len()) as u32
    }

    /// Removes all descriptors on this file, and counts them.
    pub fn close_on(&mut self, file: Id) -> u32
        ensures value { self.new ≡ fds.closed_on file self.old }
        ensures count { length self.new + result ≡ length self.old }
    {
        let before = self.items.len();
        self.items.retain(|fd| !fd.is_on(file));
        (before - self.items.len()) as u32
    }
}
