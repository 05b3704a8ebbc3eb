//! What the calls change that load and unload modules, or change a setting.
ghost use Rattle.std.specs.Prelude.{◌≡◌, ℕ, List, IfSome};
ghost use Rattle.mf_objects.specs.declared.id.Id.{Id};
ghost use Rattle.mf_calls.specs.WellFormed.{IsFormedCall};
ghost use Rattle.mf_plan.specs.Rows.{about_of};
ghost use Rattle.mf_perform.specs.Relisting as spec;

use mf_calls::Call;
use mf_errno::Module;
use mf_plan::{State, asked_change};
use mf_policy::Change;

/// What a call changes of the policies: a module is registered, is taken off the list, or has
/// another setting. Dynamic list, catalogue and state follow it one after another.
#[derive(Drop)]
pub enum Relisting {
    Load(Module),
    Unload(Module),
    Set(Module, Change),
}

/// What the call changes of the policies, where it may be done: then that is the effect of its row,
/// whoever makes it.
pub fn relisting_of(state: &State, call: &Call) -> Option<Relisting>
    requires formed { IsFormedCall call.now }
    ensures tells { spec.Tells state.now call.now result }
    ensures formed { IfSome result spec.IsFormed }
{
    told_by(state, call)
}

/// The change that the words of the call ask for in this state. The clause says of every call what
/// its place says, so a call that is new and changes the policies is refused here until it has its
/// line.
fn told_by(state: &State, call: &Call) -> Option<Relisting>
    requires formed { IsFormedCall call.now }
    ensures value { (task : List ℕ) → (me : Id)
        → result ≡ spec.relisting_at (about_of state.now task me call.now).place }
    ensures formed { IfSome result spec.IsFormed }
{
    match call {
        Call::Kldload(name) => {
            let wanted = Module::from_name(name.as_str())?;
            Some(Relisting::Load(wanted))
        }
        Call::Kldunload(name) => {
            let wanted = Module::from_name(name.as_str())?;
            Some(Relisting::Unload(wanted))
        }
        Call::Sysctl(..) | Call::UgidfwAdd(_) | Call::UgidfwSet(..) | Call::UgidfwRemove(_) => {
            let (module, change) = asked_change(state, call)?;
            Some(Relisting::Set(module, change))
        }
        _ => None,
    }
}
