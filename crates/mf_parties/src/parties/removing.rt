//! Parties that go, and what goes with them.
ghost use Rattle.std.specs.Prelude.{◌≡◌, ◌≢◌, not, filter, map};
ghost use Rattle.mf_objects.specs.Changes.{without, goes_with, with_what};
ghost use Rattle.mf_objects.specs.Descriptors as fds;
ghost use Rattle.mf_objects.specs.Live as live;
ghost use Rattle.mf_objects.specs.Lives.{IsLive};

use super::Parties;
use crate::party::Party;
use crate::party_id::PartyId;

impl Parties {
    /// Removes a file or a directory, and closes all descriptors on it.
    pub fn remove_vnode(&mut self, id: PartyId)
        requires { id.0 ≢ 0 }
        ensures { self.new ≡ fds.without_vnode id self.old }
    {
        close_on(&mut self.list, id);
        remove(&mut self.list, id);
    }

    /// Removes a process, and the pipes and sockets that it made.
    pub fn remove_process(&mut self, id: PartyId)
        requires { IsLive live.is_process self.old id }
        ensures { self.new ≡ without (goes_with id) self.old }
    {
        remove_with(&mut self.list, id);
    }
}

/// Closes what is open on a file, in all processes.
fn close_on(list: &mut [Party], file: PartyId)
    ensures { list.new ≡ map (with_what (fds.with_fds (fds.closed_on file))) list.old }
{
    for party in list.iter_mut() {
        party.close_on(file);
    }
}

fn remove(list: &mut Vec<Party>, id: PartyId)
    ensures { list.new.items ≡ filter (λ e. not (live.has_id id e)) list.old.items }
{
    list.retain(|party| !party.has_id(id));
}

fn remove_with(list: &mut Vec<Party>, id: PartyId)
    ensures { list.new.items ≡ filter (λ e. not (goes_with id e)) list.old.items }
{
    list.retain(|party| !party.goes_with(id));
}
