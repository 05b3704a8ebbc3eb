//! What a change of the policies does to the dynamic list and the catalogue.
ghost use Rattle.std.specs.Prelude.{◌≡◌, true, OnOk, OnErr};
ghost use Rattle.mf_objects.specs.declared.id.Id.{Id};
ghost use Rattle.mf_perform.specs.Effect.{after};
ghost use Rattle.mf_perform.specs.Relisting.{effect_in, IsFormed, SetsDynamic};
ghost use Rattle.mf_perform.specs.Suits.{Suits};
ghost use Rattle.mf_core.specs.Policies.{AreOf};

use mf_list::{Catalogue, Fixed, PolicyList};
use mf_perform::Relisting;
use mf_plan::State;
use mf_policy::{Policy, registration_of};
use std::alloc::{AllocError, Global};

/// Lists the module that is loaded, takes the one that is unloaded off the dynamic list, or changes the setting of a policy in it,
/// with no judgement. The change must be one that can be made in the state, after boot. A change of a setting may run out of
/// memory; then list and catalogue are unchanged.
pub fn relist<P: Policy>(
    alloc: Global,
    fixed: &Fixed<P>,
    list: &mut PolicyList<P>,
    catalogue: &mut Catalogue<P>,
    state: &State,
    relisting: &Relisting,
) -> Result<(), AllocError>
    requires formed { IsFormed relisting.now }
    requires dynamic { SetsDynamic relisting.now }
    requires suits { Suits state.now (effect_in relisting.now) }
    requires booted { state.now.booted ≡ true }
    requires policies { AreOf state.now.specs fixed.now list.old catalogue.old }
    ensures ok { OnOk result ((caller : Id)
        → AreOf (after state.now caller (effect_in relisting.now)).specs
        fixed.now list.new catalogue.new) }
    ensures err { OnErr result ((list.new ≡ list.old) × (catalogue.new ≡ catalogue.old)) }
{
    fixed.are_pinned();
    match relisting {
        Relisting::Load(wanted) => {
            let registration = registration_of(*wanted, state.booted, state.numbers.given());
            list.attach(fixed, catalogue, registration);
        }
        Relisting::Unload(wanted) => list.detach(fixed, catalogue, *wanted),
        Relisting::Set(module, change) => {
            let _answer = list.change(alloc, *module, change)?;
        }
    }
    Ok(())
}
