//! What a process has open. Nothing else has descriptors.
ghost use Rattle.std.specs.Prelude.{◌≡◌, ◌+◌, ◌<◌, ◌≤◌, length, []};
ghost use Rattle.std.specs.Option.{option_copied};
ghost use Rattle.mf_names.specs.declared.limits.TheConstants.{MOST_DESCRIPTORS};
ghost use Rattle.mf_objects.specs.Index as index;
ghost use Rattle.mf_objects.specs.Descriptors as fds;

use super::EntityData;
use crate::descriptors::Fd;
use crate::id::Id;

impl EntityData {
    /// What a process has open under this number.
    pub fn fd(&self, number: u32) -> Option<&Fd>
        ensures { option_copied result ≡ fds.fd_in (fds.fds_of self.now) number }
    {
        match self {
            EntityData::Process(process) => process.fds.find(number),
            EntityData::Vnode(_) | EntityData::Pipe(_) | EntityData::Socket(_) => None,
        }
    }

    /// How many descriptors a process has.
    pub fn fd_count(&self) -> u32
        ensures value { result ≡ length (fds.fds_of self.now) }
        ensures most { length (fds.fds_of self.now) ≤ MOST_DESCRIPTORS }
    {
        match self {
            EntityData::Process(process) => process.fds.len(),
            EntityData::Vnode(_) | EntityData::Pipe(_) | EntityData::Socket(_) => 0,
        }
    }

    /// The lowest number under which a process has nothing open.
    pub fn lowest_free(&self) -> u32
        ensures { result ≡ fds.lowest_free (fds.fds_of self.now) }
    {
        match self {
            EntityData::Process(process) => process.fds.lowest_free(),
            EntityData::Vnode(_) | EntityData::Pipe(_) | EntityData::Socket(_) => first_number(),
        }
    }

    /// Adds a descriptor to those of a process that has room for it.
    pub fn open_fd(&mut self, fd: Fd)
        requires { length (fds.fds_of self.old) < MOST_DESCRIPTORS }
        ensures value { self.new ≡ fds.with_fds (fds.opened fd) self.old }
        ensures group { index.group_of self.new ≡ index.group_of self.old }
    {
        match self {
            EntityData::Process(process) => process.fds.push(fd),
            EntityData::Vnode(_) | EntityData::Pipe(_) | EntityData::Socket(_) => {}
        }
    }

    /// Closes what a process has open under this number, and counts it.
    pub fn close_fd(&mut self, number: u32) -> u32
        ensures value { self.new ≡ fds.with_fds (fds.closed number) self.old }
        ensures count { length (fds.fds_of self.new) + result ≡ length (fds.fds_of self.old) }
        ensures group { index.group_of self.new ≡ index.group_of self.old }
    {
        match self {
            EntityData::Process(process) => process.fds.close(number),
            EntityData::Vnode(_) | EntityData::Pipe(_) | EntityData::Socket(_) => 0,
        }
    }

    /// Closes what a process has open on this file, and counts it.
    pub fn close_on(&mut self, file: Id) -> u32
        ensures value { self.new ≡ fds.with_fds (fds.closed_on file) self.old }
        ensures count { length (fds.fds_of self.new) + result ≡ length (fds.fds_of self.old) }
        ensures group { index.group_of self.new ≡ index.group_of self.old }
    {
        match self {
            EntityData::Process(process) => process.fds.close_on(file),
            EntityData::Vnode(_) | EntityData::Pipe(_) | EntityData::Socket(_) => 0,
        }
    }
}

/// The lowest number where nothing is open.
fn first_number() -> u32
    ensures { result ≡ fds.lowest_free [] }
{
    0
}
