//! What is judged before policies come and go.
ghost use Rattle.std.specs.Prelude.{◌≡◌, OnOk, IfOk, true, ◌||◌, IfSome, is_some};
ghost use Rattle.mf_policy.specs.LoadFlags.{flags_of};
ghost use Rattle.mf_policy.specs.Modules as facts;
ghost use Rattle.mf_policy.specs.Loading.{load_fault};
ghost use Rattle.mf_policy.specs.Registration.{is_listed};
ghost use Rattle.mf_list.specs.Lists.{in_catalogue};
ghost use Rattle.mf_list.specs.Registration.{register_verdict, unregister_verdict};

use crate::catalogue::Catalogue;
use crate::faults::{RegisterFault, UnregisterFault};
use crate::listed::Listed;
use mf_elem::SLOTS;
use mf_errno::Module;
use mf_policy::{LoadFault, LoadFlags, Policy, Registration, registration_of};

/// What has to be known of a module to register it.
#[derive(Clone, Copy)]
struct LoadFacts {
    flags: LoadFlags,
    wants_slot: bool,
}

impl<'a, P: Policy> Listed<'a, P> {
    /// Decides a registration, and changes nothing.
    pub(crate) fn judge(
        &self,
        catalogue: &Catalogue<P>,
        given: u8,
        wanted: Module,
        booted: bool,
    ) -> Result<Registration, RegisterFault>
        ensures { result ≡ register_verdict wanted booted self.now catalogue.now given }
    {
        let Some(known) = self.facts_of(catalogue, wanted) else {
            return Err(RegisterFault::Unknown);
        };
        match self.load_fault(&known, booted, given, wanted) {
            Some(fault) => Err(RegisterFault::from(fault)),
            None => Ok(registration_of(wanted, booted, given)),
        }
    }

    /// Why the module of these facts can't be loaded.
    fn load_fault(
        &self,
        known: &LoadFacts,
        booted: bool,
        given: u8,
        wanted: Module,
    ) -> Option<LoadFault>
        requires flags { known.now.flags ≡ flags_of wanted }
        requires wants_slot { known.now.wants_slot ≡ facts.wants_slot wanted }
        ensures { result ≡ load_fault booted self.now given wanted }
    {
        if booted && known.flags.is_notlate() {
            return Some(LoadFault::NotLate);
        }
        if self.holds(wanted) {
            return Some(LoadFault::Exists);
        }
        if known.wants_slot && given as usize >= SLOTS {
            return Some(LoadFault::NoSlot);
        }
        None
    }

    /// The module's facts, where it is listed or in the catalogue.
    fn facts_of(&self, catalogue: &Catalogue<P>, wanted: Module) -> Option<LoadFacts>
        ensures variant { is_some result
            ≡ (is_listed wanted self.now || in_catalogue wanted catalogue.now) }
        ensures value { IfSome result
            (λ found. (found.flags ≡ flags_of wanted)
            × (found.wants_slot ≡ facts.wants_slot wanted)) }
    {
        match self.find(wanted) {
            Some(listed) => Some(LoadFacts {
                flags: listed.flags(),
                wants_slot: listed.wants_slot(),
            }),
            None => {
                let policy = catalogue.policy(wanted)?;
                Some(LoadFacts {
                    flags: policy.flags(),
                    wants_slot: policy.wants_slot(),
                })
            }
        }
    }

    /// Decides an unregistration, and changes nothing: the registration that ends.
    pub(crate) fn ending(&self, wanted: Module) -> Result<Registration, UnregisterFault>
        ensures verdict { result ≡ unregister_verdict wanted self.now }
        ensures of { IfOk result (λ r. r.«module» ≡ wanted) }
        ensures listed { OnOk result (is_listed wanted self.now ≡ true) }
        ensures unload_ok { OnOk result ((facts.facts_of wanted).unload_ok ≡ true) }
    {
        let Some(listed) = self.find(wanted) else {
            return Err(UnregisterFault::NotLoaded);
        };
        if !listed.flags().is_unloadok() {
            return Err(UnregisterFault::Pinned);
        }
        Ok(listed.registration())
    }
}
