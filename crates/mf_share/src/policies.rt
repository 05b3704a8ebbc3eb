//! The policies of a kernel that may change: the dynamic list, and the policies that aren't listed.
ghost use Rattle.std.specs.Prelude.{◌≡◌};

use crate::pass::Job;
use mf_list::{Catalogue, PolicyList};
use mf_policy::Policy;
use std::marker::{Model, PhantomData};

/// The dynamic list and the catalogue of the policies that aren't listed, for the script that `J` names. With the static
/// policies of that script each module is held once; those in the catalogue are in their initial state.
#[derive(Drop)]
pub struct Policies<P: Policy, J: Job> {
    pub(crate) list: PolicyList<P>,
    pub(crate) catalogue: Catalogue<P>,
    pub(crate) of: PhantomData<J>,
}

impl<P: Policy, J: Job> Model for Policies<P, J> {
    ghost use Rattle.std.specs.Prelude.{◌++◌};
    ghost use Rattle.mf_share.specs.Policies.{PoliciesView};
    ghost use Rattle.mf_core.specs.Policies.{AreHeld, static_of};

    ghost Value = { PoliciesView };

    ghost view = { λ a. record { list = a.list; catalogue = a.catalogue } };

    ghost invariant = { λ a. AreHeld (static_of J.script ++ a.list) a.catalogue };
}

impl<P: Policy, J: Job> Policies<P, J> {
    /// The dynamic list.
    pub fn list(&self) -> &PolicyList<P>
        ensures { result.now ≡ self.now.list }
    {
        &self.list
    }
}
