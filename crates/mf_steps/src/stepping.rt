//! The run of a script's steps.
ghost use Rattle.std.specs.Prelude.{◌≡◌, [], All, map, IfOk, string_bytes};
ghost use Rattle.mf_policy.specs.Modules.{module_of};
ghost use Rattle.mf_list.specs.Fresh.{IsFresh};
ghost use Rattle.mf_calls.specs.WellFormed.{IsWellFormed};
ghost use Rattle.mf_core.specs.AllModules.{AreAllModules};
ghost use Rattle.mf_steps.specs.Answers.{TakesSteps};
ghost use Rattle.mf_steps.specs.Outcome.{IsSteppedBy};
ghost use Rattle.mf_steps.specs.StepRun.{step_opening};
ghost use Rattle.mf_steps.specs.Stepper.{step_run};

use crate::stepper::Stepper;
use mf_calls::Script;
use mf_core::Core;
use mf_hist::print_history;
use mf_policy::Policy;
use std::alloc::{AllocError, Global};

/// How the steps of a script went.
#[derive(Drop)]
pub enum Stepped<'s> {
    /// Each was taken. The text is that of the run, and the core has its history.
    Taken { text: String, core: Core<'s> },
    /// The step of this number, from 1, is the first that names no task of the script or isn't in turn.
    Refused(u32),
}

/// Takes the steps of the script one after another, over these modules. `modules` has a policy of each module, once, in its
/// initial state.
pub fn run_steps<'s, P: Policy>(
    alloc: Global,
    script: &'s Script,
    modules: Vec<P>,
) -> Result<Stepped<'s>, AllocError>
    requires formed { IsWellFormed script.now }
    requires modules { AreAllModules (map (λ p. module_of (P.spec p)) modules.items) }
    requires fresh { All (λ p. IsFresh (P.spec p)) modules.items }
    ensures { IfOk result (IsSteppedBy script.now) }
{
    let mut stepper = Stepper::new(alloc, script, modules)?;
    let mut text = String::new(alloc);
    if let Some(number) = take_steps(alloc, script, &mut stepper, &mut text)? {
        return Ok(Stepped::Refused(number));
    }
    let core = stepper.into_core();
    Ok(Stepped::Taken { text, core })
}

/// Prints the history so far, and takes the steps one after another as far as they go. The result is the number of the
/// first that is refused, if one is.
fn take_steps<P: Policy>(
    alloc: Global,
    script: &Script,
    stepper: &mut Stepper<'_, P>,
    text: &mut String,
) -> Result<Option<u32>, AllocError>
    requires formed { IsWellFormed script.now }
    requires script { stepper.old.core.script ≡ script.now }
    requires opening { step_run stepper.old ≡ step_opening script.now }
    requires empty { string_bytes text.old ≡ [] }
    ensures script { stepper.new.core.script ≡ script.now }
    ensures steps { IfOk result (TakesSteps script.now (step_run stepper.new)
        (string_bytes text.new)) }
{
    print_history(script, stepper.core().history(), text)?;
    let steps = script.steps.as_slice();
    for (i, step) in steps.iter().enumerate() {
        if !stepper.step(alloc, step, text)? {
            return Ok(Some(i as u32 + 1));
        }
    }
    Ok(None)
}
