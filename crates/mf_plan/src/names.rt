//! Full names of processes, and the process that makes a call.
ghost use Rattle.std.specs.Prelude.{◌≡◌, IfSome};
ghost use Rattle.std.specs.Option.{option_copied};
ghost use Rattle.mf_objects.specs.Live.{is_process};
ghost use Rattle.mf_objects.specs.Lives.{IsLive};
ghost use Rattle.mf_calls.specs.WellFormed.{IsName};
ghost use Rattle.mf_plan.specs.Names as spec;
ghost use Rattle.mf_plan.specs.Views.{process_named};

use arrayvec::ArrayString;
use mf_objects::{Id, Objects};
use std::marker::Model;

/// The full name of a task's child: that of the task, a dot, and its own. It needs no allocator. Contracts see its
/// bytes.
#[derive(Drop)]
pub struct ChildName {
    text: ArrayString<65>,
}

impl Model for ChildName {
    ghost use Rattle.std.specs.Prelude.{List, ℕ};

    ghost Value = { List ℕ };

    ghost view = { λ a. a.text.bytes };
}

impl ChildName {
    /// The text of the name.
    pub fn as_str(&self) -> &str
        ensures { result.now ≡ self.now }
    {
        self.text.as_str()
    }
}

/// The full name of the child that the task gave that name.
pub fn child_name(task: &str, child: &str) -> ChildName
    requires task { IsName task.now }
    requires child { IsName child.now }
    ensures { result ≡ spec.child_name task.now child.now }
{
    let mut text = ArrayString::new();
    text.push_str(task);
    text.push_str(".");
    text.push_str(child);
    ChildName { text }
}

/// The live process that makes a call of the task, or of the task's child of that name.
pub fn caller_of(objects: &Objects, task: &str, child: Option<&str>) -> Option<Id>
    requires task { IsName task.now }
    requires child { IfSome (option_copied child) IsName }
    ensures value { result
        ≡ process_named objects.now (spec.caller_name task.now (option_copied child.entry)) }
    ensures live { IfSome result (λ id. IsLive is_process objects.now id) }
{
    match child {
        None => objects.process(task),
        Some(child) => objects.process(child_name(task, child).as_str()),
    }
}
