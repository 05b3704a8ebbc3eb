//! What changes of the policies, by loads, unloads and settings, make of the listed specs and of
//! the state.
ghost use Rattle.std.specs.Prelude.{◌≡◌, ◌<◌, IfOk, OnOk, OnErr, IsTrue};
ghost use Rattle.mf_elem.specs.declared.label.TheConstants.{SLOTS};
ghost use Rattle.mf_objects.specs.declared.id.Id.{Id};
ghost use Rattle.mf_policy.specs.Modules as facts;
ghost use Rattle.mf_policy.specs.Registration as listing;
ghost use Rattle.mf_perform.specs.Relisting.{effect_in, IsFormed};
ghost use Rattle.mf_perform.specs.Suits.{Suits};
ghost use Rattle.mf_perform.specs.Effect.{after};

use crate::relisting::Relisting;
use mf_errno::Module;
use mf_plan::State;
use mf_policy::{Registration, Spec, SpecList, registration_of, wants_slot};
use mf_slots::SlotNumbers;
use std::alloc::{AllocError, Global};

/// Registers the module in its initial state, before or after the end of boot: its policy is the
/// newest of the static or the dynamic list, and takes the next slot number where it wants one. If
/// memory runs out, nothing changes.
pub fn load(
    alloc: Global,
    specs: &mut SpecList,
    numbers: &mut SlotNumbers,
    booted: bool,
    wanted: Module,
) -> Result<(), AllocError>
    requires slots { IsTrue (facts.wants_slot wanted) → numbers.old < SLOTS }
    ensures specs { OnOk result (specs.new
        ≡ listing.with_registered specs.old (listing.registration_of wanted booted numbers.old)) }
    ensures numbers { OnOk result (numbers.new ≡ listing.given_after numbers.old wanted) }
    ensures err { OnErr result ((specs.new ≡ specs.old) × (numbers.new ≡ numbers.old)) }
{
    list_fresh(
        alloc,
        specs,
        registration_of(wanted, booted, numbers.given()),
    )?;
    take_slot(numbers, wanted);
    Ok(())
}

/// Lists a policy that is registered so, in its initial state. If memory runs out, the list is
/// unchanged.
fn list_fresh(
    alloc: Global,
    specs: &mut SpecList,
    registration: Registration,
) -> Result<(), AllocError>
    ensures ok { OnOk result (specs.new ≡ listing.with_registered specs.old registration) }
    ensures err { OnErr result (specs.new ≡ specs.old) }
{
    let fresh = Spec::fresh(alloc, registration.module)?;
    specs.list(registration, fresh)
}

/// Takes the next slot number for the module, where it wants one.
fn take_slot(numbers: &mut SlotNumbers, wanted: Module)
    requires { IsTrue (facts.wants_slot wanted) → numbers.old < SLOTS }
    ensures { numbers.new ≡ listing.given_after numbers.old wanted }
{
    if wants_slot(wanted) {
        let _number = numbers.take();
    }
}

/// The listed specs after a change of the policies, whoever makes it. They are made beside those of
/// the state, so that what else goes by the list can be changed before `put_listed`.
pub fn listed_after(
    alloc: Global,
    state: &State,
    relisting: &Relisting,
) -> Result<SpecList, AllocError>
    requires formed { IsFormed relisting.now }
    ensures { IfOk result (λ specs. (caller : Id)
        → specs ≡ (after state.now caller (effect_in relisting.now)).specs) }
{
    let mut specs = state.specs.copy(alloc)?;
    match relisting {
        Relisting::Load(wanted) => {
            let registration = registration_of(*wanted, state.booted, state.numbers.given());
            list_fresh(alloc, &mut specs, registration)?;
        }
        Relisting::Unload(wanted) => specs.unlist(*wanted),
        Relisting::Set(module, change) => {
            let _answer = specs.change(alloc, *module, change)?;
        }
    }
    Ok(specs)
}

/// Puts the specs that are listed after a change of the policies into the state, and takes a slot
/// number for a module that wants one. It takes no memory.
pub fn put_listed(state: &mut State, specs: SpecList, relisting: &Relisting)
    requires suits { Suits state.old (effect_in relisting.now) }
    requires specs { (caller : Id)
        → specs ≡ (after state.old caller (effect_in relisting.now)).specs }
    ensures { (caller : Id) → state.new ≡ after state.old caller (effect_in relisting.now) }
{
    state.specs = specs;
    if let Relisting::Load(wanted) = relisting {
        take_slot(&mut state.numbers, *wanted);
    }
}
