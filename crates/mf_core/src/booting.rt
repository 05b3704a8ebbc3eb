//! Registration at boot, and the setting that the script's tunable gives.
ghost use Rattle.std.specs.Prelude.{◌≡◌, ◌++◌, [], false, All, IfOk, OnOk, fold, map};
ghost use Rattle.mf_policy.specs.declared.settings.Change.TheVariants.{Revocation};
ghost use Rattle.mf_policy.specs.Modules.{module_of};
ghost use Rattle.mf_policy.specs.Registration.{with_registered};
ghost use Rattle.mf_list.specs.Once.{IsHeldOnce};
ghost use Rattle.mf_list.specs.Fresh.{IsFresh};
ghost use Rattle.mf_list.specs.Registration.{Registers, registration_of};
ghost use Rattle.mf_calls.specs.WellFormed.{AreBoots, IsWellFormed};
ghost use Rattle.mf_core.specs.Opening as spec;
ghost use Rattle.mf_core.specs.Opening.{booted_specs, boots_of};
ghost use Rattle.mf_core.specs.Policies.{AreOf, CanBoot, static_of};
ghost use Rattle.mf_core.specs.AllModules.{AreAllModules};

use crate::history::BootList;
use mf_calls::Script;
use mf_errno::Module;
use mf_list::{Catalogue, Fixed, PolicyList};
use mf_names::Listing;
use mf_policy::{Change, Policy, Registration};
use mf_slots::SlotNumbers;
use std::alloc::{AllocError, Global};

/// The registrations of the modules that the script boots, in its order, and the lists and the catalogue after them.
pub fn boot<P: Policy>(
    alloc: Global,
    script: &Script,
    policies: Vec<P>,
) -> Result<(BootList, Fixed<P>, PolicyList<P>, Catalogue<P>), AllocError>
    requires formed { IsWellFormed script.now }
    requires modules { AreAllModules (map (λ p. module_of (P.spec p)) policies.items) }
    requires fresh { All (λ p. IsFresh (P.spec p)) policies.items }
    ensures boots { IfOk result (λ r. r.0 ≡ boots_of script.now) }
    ensures policies { IfOk result (λ r. AreOf (booted_specs script.now) r.1 r.2 r.3) }
    ensures fixed { IfOk result (λ r. r.1 ≡ static_of script.now) }
{
    let (mut fixed, mut list, mut catalogue) = unlisted(alloc, policies)?;
    let boots = list_boots(alloc, script, &mut fixed, &mut list, &mut catalogue)?;
    Ok((boots, fixed, list, catalogue))
}

/// Registers the modules that the script boots, in its order, and sets mac_biba's policy as its tunable says.
fn list_boots<P: Policy>(
    alloc: Global,
    script: &Script,
    fixed: &mut Fixed<P>,
    list: &mut PolicyList<P>,
    catalogue: &mut Catalogue<P>,
) -> Result<BootList, AllocError>
    requires formed { IsWellFormed script.now }
    requires unlisted { AreOf [] fixed.old list.old catalogue.old }
    ensures boots { IfOk result (λ boots. boots ≡ boots_of script.now) }
    ensures policies { OnOk result
        (AreOf (booted_specs script.now) fixed.new list.new catalogue.new) }
    ensures fixed { OnOk result (fixed.new ≡ static_of script.now) }
{
    let boots = register_boots(alloc, &script.boots, fixed, list, catalogue)?;
    let _answer = fixed.set(alloc, Module::Biba, &tunable_of(script))?;
    fixed.are_pinned();
    list.may_leave();
    Ok(boots)
}

/// What the script's tunable changes of mac_biba's policy, where that is booted.
pub fn tunable_of(script: &Script) -> Change
    ensures { result ≡ Revocation script.now.revocation }
{
    Change::Revocation(script.revocation)
}

/// Empty lists, and a catalogue of these policies.
fn unlisted<P: Policy>(
    alloc: Global,
    modules: Vec<P>,
) -> Result<(Fixed<P>, PolicyList<P>, Catalogue<P>), AllocError>
    requires modules { AreAllModules (map (λ p. module_of (P.spec p)) modules.items) }
    requires fresh { All (λ p. IsFresh (P.spec p)) modules.items }
    ensures { IfOk result (λ r. AreOf [] r.0 r.1 r.2) }
{
    let fixed = Fixed::new(alloc)?;
    let list = PolicyList::new(alloc)?;
    let catalogue = Catalogue::new(modules)?;
    Ok((fixed, list, catalogue))
}

/// Registers these modules in order, and returns the registrations.
fn register_boots<P: Policy>(
    alloc: Global,
    modules: &Listing<Module>,
    fixed: &mut Fixed<P>,
    list: &mut PolicyList<P>,
    catalogue: &mut Catalogue<P>,
) -> Result<BootList, AllocError>
    requires boots { AreBoots modules.now }
    requires policies { AreOf [] fixed.old list.old catalogue.old }
    ensures boots { IfOk result (λ boots. boots ≡ spec.registrations_from 0 modules.now) }
    ensures policies { IfOk result
        (λ boots. AreOf (fold with_registered [] boots) fixed.new list.new catalogue.new) }
{
    let mut boots = Listing::new(alloc);
    let mut numbers = SlotNumbers::new();
    for booted in modules.as_slice() {
        let registration = register_boot(fixed, list, catalogue, &mut numbers, *booted);
        boots.push(registration)?;
    }
    Ok(boots)
}

/// Registers a module before the end of boot.
fn register_boot<P: Policy>(
    fixed: &mut Fixed<P>,
    list: &mut PolicyList<P>,
    catalogue: &mut Catalogue<P>,
    numbers: &mut SlotNumbers,
    booted: Module,
) -> Registration
    requires once { IsHeldOnce (fixed.old ++ list.old) catalogue.old }
    requires can { CanBoot booted (fixed.old ++ list.old) catalogue.old numbers.old }
    ensures registration { result ≡ registration_of booted false numbers.old }
    ensures moves { Registers result (fixed.old ++ list.old)
        (fixed.new ++ list.new) catalogue.old catalogue.new numbers.old numbers.new }
{
    match list.boot(fixed, catalogue, numbers, booted.name()) {
        Ok(registration) => registration,
        Err(_) => unreachable!(),
    }
}
