//! The registrations at boot, and what is listed after them.
ghost use Rattle.std.specs.Prelude.{◌≡◌, ◌<◌, ◌↔◌, fold, IfOk, IsTrue, OnErr, OnOk};
ghost use Rattle.mf_elem.specs.declared.label.TheConstants.{SLOTS};
ghost use Rattle.mf_calls.specs.WellFormed.{AreBoots};
ghost use Rattle.mf_policy.specs.Modules as facts;
ghost use Rattle.mf_policy.specs.Registration as listing;
ghost use Rattle.mf_core.specs.Opening as spec;
ghost use Rattle.mf_audit.specs.Lines.{Agree};

use mf_calls::Script;
use mf_errno::Module;
use mf_policy::{Change, Registration, Spec, SpecList, registration_of, wants_slot};
use std::alloc::{AllocError, Global};

/// The registrations of these modules at boot, in their order, and how many label slots they take.
pub(crate) fn registrations(
    alloc: Global,
    modules: &[Module],
) -> Result<(Vec<Registration>, u8), AllocError>
    requires { AreBoots modules.now }
    ensures registrations { IfOk result (λ r. r.0.items ≡ spec.registrations_from 0 modules.now) }
    ensures given { IfOk result (λ r. r.1 ≡ fold listing.given_after 0 modules.now) }
{
    let mut registrations = Vec::new(alloc);
    let mut given = 0;
    for booted in modules {
        registrations.push(registration_of(*booted, false, given))?;
        given = given_after(given, *booted);
    }
    Ok((registrations, given))
}

/// How many label slots were given, after a registration of the module.
pub(crate) fn given_after(given: u8, registered: Module) -> u8
    requires { IsTrue (facts.wants_slot registered) → given < SLOTS }
    ensures { result ≡ listing.given_after given registered }
{
    if wants_slot(registered) {
        given + 1
    } else {
        given
    }
}

/// The policies that are listed at the end of boot, after the script's registrations and by its tunable.
pub(crate) fn listed_after(
    alloc: Global,
    script: &Script,
    registrations: &[Registration],
) -> Result<SpecList, AllocError>
    requires { registrations.now ≡ spec.boots_of script.now }
    ensures { IfOk result (λ listed. listed ≡ spec.booted_specs script.now) }
{
    let mut listed = SpecList::new(alloc);
    for registration in registrations {
        list_fresh(alloc, &mut listed, *registration)?;
    }
    let _answer = listed.change(alloc, Module::Biba, &Change::Revocation(script.revocation))?;
    Ok(listed)
}

/// Lists the policy that is registered so, in its initial state. If memory runs out, the list is unchanged.
pub(crate) fn list_fresh(
    alloc: Global,
    listed: &mut SpecList,
    registration: Registration,
) -> Result<(), AllocError>
    ensures ok { OnOk result (listed.new ≡ listing.with_registered listed.old registration) }
    ensures err { OnErr result (listed.new ≡ listed.old) }
{
    let fresh = Spec::fresh(alloc, registration.module)?;
    listed.list(registration, fresh)
}

/// How many registrations are the same in both, before the first that isn't.
pub(crate) fn agreeing(ours: &[Registration], theirs: &[Registration]) -> usize
    ensures { Agree ours.now theirs.now result }
{
    let most = ours.len().min(theirs.len());
    for place in 0..most {
        if !is_same(&ours[place], &theirs[place]) {
            return place;
        }
    }
    most
}

fn is_same(ours: &Registration, theirs: &Registration) -> bool
    ensures { IsTrue result ↔ (ours.now ≡ theirs.now) }
{
    ours.module.is(theirs.module) && ours.slot == theirs.slot && ours.fixed == theirs.fixed
}
