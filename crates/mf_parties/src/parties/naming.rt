//! Which party a name names.
ghost use Rattle.std.specs.Prelude.{◌≡◌, ◌≢◌, IfSome, find};
ghost use Rattle.mf_objects.specs.Live as live;
ghost use Rattle.mf_objects.specs.Lives.{is_vnode, is_directory, IsLive};
ghost use Rattle.mf_plan.specs.Names.{child_name};
ghost use Rattle.mf_plan.specs.Path.{root, entry_of};
ghost use Rattle.mf_plan.specs.Views.{entity_named, process_named};
ghost use Rattle.mf_parties.specs.Parties.{is_of};

use super::Parties;
use crate::party::Party;
use crate::party_id::PartyId;
use mf_item::Kind;

impl Parties {
    /// The root directory.
    pub fn root(&self) -> PartyId
        ensures value { result ≡ root }
        ensures directory { IsLive is_directory self.now result }
    {
        // Reading a field brings what is true of all parties into the proof.
        let _next = self.next;
        PartyId::new(0)
    }

    /// The process, the pipe or the socket of this name. Files have paths, and no names.
    pub fn named(&self, kind: Kind, name: &str) -> Option<PartyId>
        ensures value { result ≡ entity_named self.now kind name.now }
        ensures live { IfSome result (λ id. IsLive (is_of kind) self.now id) }
    {
        match kind {
            Kind::Process => self.first_named(Kind::Process, name),
            Kind::Pipe => self.first_named(Kind::Pipe, name),
            Kind::Socket => self.first_named(Kind::Socket, name),
            Kind::Vnode => None,
        }
    }

    /// The process that is the task's child of this name.
    pub fn child_named(&self, task: &str, child: &str) -> Option<PartyId>
        ensures value { result ≡ process_named self.now (child_name task.now child.now) }
        ensures live { IfSome result (λ id. IsLive live.is_process self.now id) }
    {
        // Reading a field brings what is true of all parties into the proof.
        let _next = self.next;
        first_child_process(&self.list, task, child)
    }

    /// The entry of this name in a directory.
    pub fn entry_of(&self, dir: PartyId, name: &str) -> Option<PartyId>
        ensures value { result ≡ entry_of self.now dir name.now }
        ensures live { IfSome result (λ id. IsLive is_vnode self.now id) }
        ensures below { IfSome result (λ id. id.0 ≢ 0) }
    {
        let _next = self.next;
        first_entry(&self.list, dir, name)
    }

    /// The first party of this kind and name.
    fn first_named(&self, kind: Kind, name: &str) -> Option<PartyId>
        ensures value { result ≡ live.id_of (live.live_named (is_of kind) self.now name.now) }
        ensures live { IfSome result (λ id. IsLive (is_of kind) self.now id) }
    {
        let _next = self.next;
        first_of(&self.list, kind, name)
    }
}

fn first_of(list: &[Party], kind: Kind, name: &str) -> Option<PartyId>
    ensures { result ≡ live.id_of (find (live.is_one_named (is_of kind) name.now) list.now) }
{
    let party = list.iter().find(|party| party.is_named(kind, name))?;
    Some(party.id)
}

fn first_entry(list: &[Party], dir: PartyId, name: &str) -> Option<PartyId>
    ensures { result
        ≡ live.id_of (find (live.is_one_named (live.is_entry dir) name.now) list.now) }
{
    let party = list.iter().find(|party| party.is_child(dir, name))?;
    Some(party.id)
}

fn first_child_process(list: &[Party], task: &str, child: &str) -> Option<PartyId>
    ensures { result ≡ live.id_of
        (find (live.is_one_named live.is_process (child_name task.now child.now)) list.now) }
{
    let party = list
        .iter()
        .find(|party| party.is_child_process(task, child))?;
    Some(party.id)
}
