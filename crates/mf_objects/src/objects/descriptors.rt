//! Descriptors of processes: the files that they have open.
ghost use Rattle.std.specs.Prelude.{◌≡◌, ◌≤◌, ◌<◌, ◌+◌, ◌^◌, length, map, IsSome, IfSome};
ghost use Rattle.std.specs.Option.{option_copied};
ghost use Rattle.mf_names.specs.declared.limits.TheConstants.{MOST_DESCRIPTORS};
ghost use Rattle.mf_objects.specs.declared.descriptors.Fd.{Fd};
ghost use Rattle.mf_objects.specs.declared.entity.Entity.{Entity};
ghost use Rattle.mf_objects.specs.Live as live;
ghost use Rattle.mf_objects.specs.Lives.{is_regular, IsLive};
ghost use Rattle.mf_objects.specs.Changes as change;
ghost use Rattle.mf_objects.specs.Descriptors as fds;
ghost use Rattle.mf_objects.specs.Sound.{open_count};

use super::Objects;
use crate::descriptors::Fd;
use crate::entity::Entity;
use crate::id::Id;
use mf_elem::LabelValue;
use mf_names::MOST_DESCRIPTORS;

impl Objects {
    /// What a process has open under this number.
    pub fn fd(&self, p: Id, n: u32) -> Option<&Fd>
        requires { IsLive live.is_process self.now p }
        ensures value { option_copied result ≡ fds.fd_in (fds.fds_at self.now p) n }
        ensures file { IfSome result (λ fd. IsLive is_regular self.now fd.now.file) }
    {
        self.entity(p).what.fd(n)
    }

    /// How many descriptors a process has.
    pub fn fd_count(&self, p: Id) -> u32
        requires { IsLive live.is_process self.now p }
        ensures value { result ≡ length (fds.fds_at self.now p) }
        ensures most { result ≤ MOST_DESCRIPTORS }
    {
        self.entity(p).what.fd_count()
    }

    /// The lowest number under which a process has nothing open; MOST_DESCRIPTORS where each is taken.
    pub fn lowest_free(&self, p: Id) -> u32
        requires { IsLive live.is_process self.now p }
        ensures value { result ≡ fds.lowest_free (fds.fds_at self.now p) }
        ensures within { length (fds.fds_at self.now p) < MOST_DESCRIPTORS
            → result < MOST_DESCRIPTORS }
    {
        self.entity(p).what.lowest_free()
    }

    /// Opens a regular file in a process that has room for one more descriptor, under the lowest free
    /// number, which is the result. It takes no memory.
    pub fn open_fd(
        &mut self,
        p: Id,
        file: Id,
        read: bool,
        write: bool,
        subject: LabelValue,
        object: LabelValue,
    ) -> u32
        requires process { IsLive live.is_process self.old p }
        requires few { length (fds.fds_at self.old p) < MOST_DESCRIPTORS }
        requires file { IsLive is_regular self.old file }
        ensures number { result ≡ fds.lowest_free (fds.fds_at self.old p) }
        ensures within { result < MOST_DESCRIPTORS }
        ensures value { let fd : Fd = record {
          number = result;
          file = file;
          read = read;
          write = write;
          subject = subject;
          object = object;
        } in self.new
            ≡ change.with_change (change.with_what (fds.with_fds (fds.opened fd))) self.old p }
    {
        let number = self.lowest_free(p);
        let place = self.place(p);
        let entity = &mut self.entities[place];
        entity.what.open_fd(Fd {
            number,
            file,
            read,
            write,
            subject,
            object,
        });
        self.open_fds += 1;
        number
    }

    /// Closes what a process has open under this number.
    pub fn close_fd(&mut self, p: Id, n: u32)
        requires { IsSome (fds.fd_in (fds.fds_at self.old p) n) }
        ensures { self.new
            ≡ change.with_change (change.with_what (fds.with_fds (fds.closed n))) self.old p }
    {
        let place = self.place(p);
        let entity = &mut self.entities[place];
        self.open_fds -= entity.what.close_fd(n);
    }

    /// Closes all descriptors on a file. No process is looked at where none has anything open.
    pub(super) fn close_on(&mut self, file: Id)
        ensures { self.new ≡ fds.with_closed_on file self.old }
    {
        if self.open_fds > 0 {
            self.open_fds -= close_on(&mut self.entities, file);
        }
    }
}

/// Closes all descriptors on a file, and counts them.
fn close_on(entities: &mut [Entity], file: Id) -> u32
    requires { open_count entities.old < 2 ^ 32 }
    ensures value { entities.new ≡ map (λ (e : Entity). record e {
      what = fds.with_fds (fds.closed_on file) e.what;
    }) entities.old }
    ensures count { open_count entities.new + result ≡ open_count entities.old }
{
    let mut closed = 0;
    for entity in entities.iter_mut() {
        closed += entity.what.close_on(file);
    }
    closed
}
