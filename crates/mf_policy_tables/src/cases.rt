//! Cases of lists: what is done with them, what they answer together, and what they answer where their settings are changed.
ghost use Rattle.std.specs.Prelude.{◌++◌};
ghost use Rattle.mf_policy.specs.IsChange.{IsChange};
ghost use Rattle.mf_list.specs.Once.{IsHeldOnce};

use crate::lists::{Act, Policies, all_five, are_listed, comes_of_all};
use crate::questions::{Question, answer_to};
use crate::settings::{Asked, change_of};
use mf_errno::{Errno, Module};
use mf_policy::{Change, Changed, Policy, Registration};
use std::alloc::{AllocError, Global};
use std::sync::atomic::AtomicU64;

/// What is asked, its errno, and who decides.
pub type Asking = (Question, Errno, Option<Module>);

/// A change of a module's setting, in the static list or else in the dynamic one, its errno, and what is then answered.
pub struct Setting {
    pub fixed: bool,
    pub module: Module,
    pub asked: Asked,
    pub errno: Errno,
    pub then: Asking,
}

/// What is done with the lists, what is then listed, how many slot numbers were given, what is answered, and what comes of changes.
pub struct Case {
    pub acts: &'static [Act],
    pub listed: &'static [Registration],
    pub given: u8,
    pub asked: &'static [Asking],
    pub set: &'static [Setting],
}

/// Whether that is answered.
fn is_answered<P: Policy>(policies: &Policies<P>, asking: &Asking) -> bool {
    let (question, errno, by) = asking;
    let answer = answer_to(&policies.walk(), question);
    answer.errno == *errno && answer.by == *by
}

/// Whether each is answered so.
fn are_answered<P: Policy>(policies: &Policies<P>, askings: &[Asking]) -> bool {
    let mut holds = true;
    for asking in askings {
        holds &= is_answered(policies, asking);
    }
    holds
}

/// Makes the change in the list of the setting.
fn make<P: Policy>(
    alloc: Global,
    policies: &mut Policies<P>,
    setting: &Setting,
    change: &Change,
) -> Result<Changed, AllocError>
    requires { IsChange change.now }
{
    if setting.fixed {
        policies.fixed.set(alloc, setting.module, change)
    } else {
        policies.list.change(alloc, setting.module, change)
    }
}

/// The answer to the change of the setting.
fn changed<P: Policy>(
    alloc: Global,
    policies: &mut Policies<P>,
    setting: &Setting,
) -> Result<Changed, AllocError> {
    make(alloc, policies, setting, &change_of(&setting.asked))
}

/// Whether that comes of the change.
fn is_set<P: Policy>(
    alloc: Global,
    policies: &mut Policies<P>,
    setting: &Setting,
) -> Result<bool, AllocError> {
    let answer = changed(alloc, policies, setting)?;
    Ok(answer.errno == setting.errno && is_answered(policies, &setting.then))
}

/// Whether that comes of each change.
fn are_set<P: Policy>(
    alloc: Global,
    policies: &mut Policies<P>,
    settings: &[Setting],
) -> Result<bool, AllocError> {
    for setting in settings {
        if !is_set(alloc, policies, setting)? {
            return Ok(false);
        }
    }
    Ok(true)
}

/// Whether all comes out as the case says.
fn comes_out_in<P: Policy>(
    alloc: Global,
    policies: &mut Policies<P>,
    resets: &AtomicU64,
    case: &Case,
) -> Result<bool, AllocError>
    requires { IsHeldOnce (policies.old.fixed ++ policies.old.list) policies.old.catalogue }
{
    let are_done = comes_of_all(policies, resets, case.acts);
    let are_listed = are_listed(alloc, policies, case.listed, case.given);
    let are_answered = are_answered(policies, case.asked);
    Ok(are_done && are_listed && are_answered && are_set(alloc, policies, case.set)?)
}

/// The same from lists and a catalogue that are made anew.
pub fn comes_out(alloc: Global, case: &Case) -> Result<bool, AllocError> {
    let resets = AtomicU64::new(0);
    let mut policies = all_five(alloc, &resets)?;
    comes_out_in(alloc, &mut policies, &resets, case)
}
