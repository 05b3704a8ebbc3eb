//! The parties: one list by rising id.
ghost use Rattle.std.specs.Prelude.{◌≡◌, IfOk, length, true};
ghost use Rattle.std.specs.Option.{option_copied};
ghost use Rattle.mf_objects.specs.declared.limits.TheConstants.{ROOT_MODE};
ghost use Rattle.mf_objects.specs.Changes as change;
ghost use Rattle.mf_objects.specs.Live as live;

mod changing;
mod listing;
mod naming;
mod reading;
mod removing;

use crate::party::Party;
use crate::party_id::PartyId;
use crate::what::What;
use mf_cred::{DIRECTORY_MODE, FileView};
use mf_elem::{LabelValue, SLOTS};
use mf_names::Name;
use std::alloc::{AllocError, Global};
use std::marker::Model;

/// The live entities by rising id, and the number of the id that is given next.
#[derive(Drop)]
pub struct Parties {
    next: u32,
    list: Vec<Party>,
}

impl Model for Parties {
    ghost use Rattle.mf_objects.specs.Live.{Entities};
    ghost use Rattle.mf_parties.specs.Standing.{IsStanding};

    ghost Value = { Entities };

    ghost view = { λ a. record { next = a.next; live = a.list.items } };

    ghost invariant = { λ a. IsStanding (record { next = a.next; live = a.list.items }) };
}

impl Parties {
    /// The root directory alone, with these label values: of uid 0 and gid 0, with mode 755.
    pub fn with_root(alloc: Global, label: &[LabelValue; SLOTS]) -> Result<Parties, AllocError>
        ensures { IfOk result (λ parties. parties ≡ change.with_root label.now) }
    {
        let root = Party {
            id: PartyId::new(0),
            name: Name::from_str(alloc, "")?,
            label: *label,
            what: What::Vnode(None, root_file(), Vec::new(alloc)),
        };
        let mut list = Vec::new(alloc);
        list.push(root)?;
        Ok(Parties { next: 1, list })
    }

    /// How many live.
    pub fn len(&self) -> usize
        ensures { result ≡ length self.now.live }
    {
        self.list.len()
    }

    /// The party of an id.
    fn at(&self, id: PartyId) -> Option<&Party>
        ensures { option_copied result ≡ live.live_at self.now id }
    {
        self.list.iter().find(|party| party.has_id(id))
    }
}

/// The attributes of the root directory.
fn root_file() -> FileView
    ensures { result ≡ record { uid = 0; gid = 0; mode = ROOT_MODE; dir = true } }
{
    FileView {
        uid: 0,
        gid: 0,
        mode: DIRECTORY_MODE,
        dir: true,
    }
}
