//! The plan of a call.
ghost use Rattle.std.specs.Prelude.{◌≡◌, ◌↔◌, IfSome, IsSome, IsTrue};
ghost use Rattle.std.specs.Option.{option_copied};
ghost use Rattle.mf_calls.specs.WellFormed.{IsFormedCall, IsName};
ghost use Rattle.mf_plan.specs.declared.plan.Tail.TheVariants.{Do};
ghost use Rattle.mf_objects.specs.Live.{live_at};
ghost use Rattle.mf_plan.specs.Found.{AreFound};
ghost use Rattle.mf_plan.specs.Names.{caller_name};
ghost use Rattle.mf_plan.specs.Outline as outlines;
ghost use Rattle.mf_plan.specs.OutlineOf.{IsOutlineOf};
ghost use Rattle.mf_plan.specs.Plan as spec;
ghost use Rattle.mf_plan.specs.Views.{process_named};

use crate::asking::ask_for;
use crate::last_label::LastLabel;
use crate::names::caller_of;
use crate::outline::Outline;
use crate::plan::{Plan, Tail};
use crate::state::State;
use mf_calls::Call;

/// The plan of a call of the task's own process, or of its child of that name. Where that process isn't live, the plan
/// has no check and ends with ESRCH.
pub fn plan_of(state: &State, task: &str, child: Option<&str>, call: &Call) -> Plan
    requires task { IsName task.now }
    requires child { IfSome (option_copied child) IsName }
    requires formed { IsFormedCall call.now }
    ensures { result ≡ spec.plan_of state.now task.now (option_copied child.entry) call.now }
{
    let mut plan = Plan::new();
    plan.make(state, task, child, call, &mut Outline::new());
    plan
}

impl Plan {
    /// Becomes the plan of a call, as `plan_of` makes it, and the outline that of the call. A plan is large, and so is an outline: both
    /// are made where they lie, and never moved.
    pub fn make(
        &mut self,
        state: &State,
        task: &str,
        child: Option<&str>,
        call: &Call,
        outline: &mut Outline,
    )
        requires task { IsName task.now }
        requires child { IfSome (option_copied child) IsName }
        requires formed { IsFormedCall call.now }
        ensures plan { self.new
            ≡ spec.plan_of state.now task.now (option_copied child.entry) call.now }
        ensures outline { IsOutlineOf state.now task.now (option_copied child.entry) call.now
            outline.new }
    {
        self.label.keep(call);
        outline.make(state, task, child, call, &self.label);
        self.fill(state, outline);
    }

    /// Whether this is the plan of the call in the present state. The outline becomes that of the call.
    pub fn is_of(
        &self,
        state: &State,
        task: &str,
        child: Option<&str>,
        call: &Call,
        outline: &mut Outline,
    ) -> bool
        requires task { IsName task.now }
        requires child { IfSome (option_copied child) IsName }
        requires formed { IsFormedCall call.now }
        ensures is { IsTrue result
            ↔ (self.now ≡ spec.plan_of state.now task.now (option_copied child.entry) call.now) }
        ensures outline { IsOutlineOf state.now task.now (option_copied child.entry) call.now
            outline.new }
    {
        outline.make(state, task, child, call, &self.label);
        self.is_outlined(state, outline)
    }
}

/// The outline of the plan of a call of the task's own process, or of its child of that name, as `Outline::make` makes it.
pub fn outline_of(
    state: &State,
    task: &str,
    child: Option<&str>,
    call: &Call,
    last: &LastLabel,
) -> Outline
    requires task { IsName task.now }
    requires child { IfSome (option_copied child) IsName }
    requires formed { IsFormedCall call.now }
    ensures { IsOutlineOf state.now task.now (option_copied child.entry) call.now result }
{
    let mut outline = Outline::new();
    outline.make(state, task, child, call, last);
    outline
}

impl Outline {
    /// Becomes the outline of the plan of a call of the task's own process, or of its child of that name: its checks with ids in
    /// the place of views. A label text that is the last one isn't read again. An outline that is made anew where it lies costs
    /// neither a copy nor the clearing of its room.
    pub fn make(
        &mut self,
        state: &State,
        task: &str,
        child: Option<&str>,
        call: &Call,
        last: &LastLabel,
    )
        requires task { IsName task.now }
        requires child { IfSome (option_copied child) IsName }
        requires formed { IsFormedCall call.now }
        ensures plan { outlines.outlined state.now.objects self.new
            ≡ spec.plan_in state.now
            (spec.call_row state.now task.now (option_copied child.entry) call.now) }
        ensures live { outlines.AreLive state.now.objects self.new.checks }
        ensures caller { self.new.found.caller
            ≡ process_named state.now.objects (caller_name task.now (option_copied child.entry)) }
        ensures lives { IfSome self.new.found.caller
            (λ id. IsSome (live_at state.now.objects id)) }
        ensures found { self.new.tail ≡ Do
            → AreFound state.now task.now (option_copied child.entry) call.now self.new.found }
    {
        self.begin(caller_of(&state.objects, task, child));
        if let Some(caller) = self.found.caller {
            let (checks, request) = (&mut self.checks, &mut self.found.request);
            match ask_for(state, task, caller, call, last, checks, request) {
                Ok(target) => {
                    self.found.target = target;
                    self.tail = Tail::Do;
                }
                Err(errno) => self.refuse(errno),
            }
        }
    }
}
