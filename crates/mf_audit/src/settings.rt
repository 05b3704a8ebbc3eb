//! The rows of calls that change a setting of a policy.
ghost use Rattle.std.specs.Prelude.{◌≡◌, ℕ, List, None, IfSome, option_and_then, if◌then◌else◌};
ghost use Rattle.std.specs.Option.{option_map_or};
ghost use Rattle.mf_plan.specs.declared.reply.Payload.TheVariants as payload;
ghost use Rattle.mf_calls.specs.declared.script.Call.TheVariants as call;
ghost use Rattle.mf_plan.specs.Rows as rows;
ghost use Rattle.mf_plan.specs.Settings as spec;
ghost use Rattle.mf_policy.specs.IsChange.{IsChange};
ghost use Rattle.mf_policy.specs.Settings.{change_in};
ghost use Rattle.mf_policy.specs.Sysctls.{asked_of, sysctl_named, sysctl_row};
ghost use Rattle.mf_audit.specs.Changing.{changing_by};
ghost use Rattle.mf_audit.specs.Ends.{Goes};

use crate::done::{Done, Effect, Shown};
use crate::kernel::Kernel;
use mf_errno::{Errno, Module};
use mf_names::Word;
use mf_parties::PartyId;
use mf_policy::{Change, Sysctl};

/// A setting is changed, where the policy takes the change.
pub(crate) fn set<'c>(
    kernel: &Kernel,
    _me: PartyId,
    module: Module,
    change: Change,
) -> Result<Done<'c>, Errno>
    requires { IsChange change }
    ensures { (task : List ℕ) → (walk : _) → Goes kernel.now task _me
        (rows.set kernel.now payload.None («module», change)) walk walk result }
{
    match kernel.listed.answer_to(module, &change).errno {
        Errno::Success => Ok(Done::changes(Effect::Set(module, change))),
        errno => Err(errno),
    }
}

/// A rule about files is added, and its number is shown.
pub(crate) fn add<'c>(
    kernel: &Kernel,
    _me: PartyId,
    module: Module,
    change: Change,
) -> Result<Done<'c>, Errno>
    requires { IsChange change }
    ensures { (task : List ℕ) → (walk : _) → Goes kernel.now task _me
        (rows.set kernel.now
        (option_map_or payload.Rule (change_in «module» change kernel.now.specs).0.number
        payload.None) («module», change)) walk walk result }
{
    let answer = kernel.listed.answer_to(module, &change);
    match (answer.errno, answer.number) {
        (Errno::Success, Some(number)) => Ok(Done {
            shown: Shown::Rule(number),
            effect: Effect::Set(module, change),
        }),
        (Errno::Success, None) => Ok(Done::changes(Effect::Set(module, change))),
        (errno, _) => Err(errno),
    }
}

/// The module of the setting of that name.
fn owner_named(name: &str) -> Option<Module>
    ensures { result ≡ spec.owner_named name.now }
{
    Sysctl::from_name(name).map(Sysctl::owner)
}

/// Whether the name is that of a tunable of a listed module.
fn is_tunable(kernel: &Kernel, name: &str) -> bool
    ensures { result ≡ spec.is_tunable kernel.now.specs name.now }
{
    match Sysctl::from_name(name) {
        Some(setting) => setting.is_tunable() && kernel.listed.is_listed(setting.owner()),
        None => false,
    }
}

/// The change that a value asks of the setting of that name, which is no tunable.
fn asked_named(kernel: &Kernel, name: &str, value: &str) -> Option<Change>
    ensures value { result ≡ option_and_then (λ s. if (sysctl_row s).tunable then None
        else asked_of s kernel.now.specs value.now) (sysctl_named name.now) }
    ensures change { IfSome result IsChange }
{
    match Sysctl::from_name(name) {
        Some(setting) if !setting.is_tunable() => setting.asked_of(&kernel.listed, value),
        _ => None,
    }
}

/// Sets the setting of that name to the value.
pub(crate) fn sysctl<'c>(
    kernel: &Kernel,
    me: PartyId,
    name: &Word,
    value: &Word,
) -> Result<Done<'c>, Errno>
    ensures { (task : List ℕ) → (walk : _) → Goes kernel.now task me
        ((rows.about_of kernel.now task me (call.Sysctl name.now value.now)).whole) walk walk
        result }
{
    let name = name.as_str();
    let module = changing(kernel, me, is_tunable(kernel, name), owner_named(name))?;
    match asked_named(kernel, name, value.as_str()) {
        Some(change) => set(kernel, me, module, change),
        None => Err(Errno::Einval),
    }
}

/// The module whose setting is changed. Root alone changes one, and a tunable nobody.
pub(crate) fn changing(
    kernel: &Kernel,
    me: PartyId,
    tunable: bool,
    module: Option<Module>,
) -> Result<Module, Errno>
    ensures { result ≡ changing_by kernel.now me tunable «module» }
{
    if !kernel.parties.cred(me).is_root() || tunable {
        return Err(Errno::Eperm);
    }
    match module {
        Some(module) if kernel.listed.is_listed(module) => Ok(module),
        _ => Err(Errno::Enoent),
    }
}
