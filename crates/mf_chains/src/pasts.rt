//! What happens to the parties of each of some policies, along one walk through a history.
ghost use Rattle.std.specs.Prelude.{◌≡◌, ◌≤◌, ◌++◌, length, map, IfOk, OnOk};
ghost use Rattle.std.specs.List.{AllByRecursion};
ghost use Rattle.std.specs.Option.{option_copied};
ghost use Rattle.mf_calls.specs.WellFormed.{IsWellFormed};
ghost use Rattle.mf_plan.specs.Outline.{item_of};
ghost use Rattle.mf_plan.specs.declared.plan.TheConstants.{MOST_CHECKS};
ghost use Rattle.mf_core.specs.declared.history.Event.TheVariants as events;
ghost use Rattle.mf_core.specs.LegalHistory.{run_after, run_state_of, IsLegal, MayCome};
ghost use Rattle.mf_chains.specs.Happenings as happens;
ghost use Rattle.mf_chains.specs.Pasts as spec;

use crate::happened::{push_coming, push_moves, push_opening, push_relabelling};
use crate::happening::Occurrence;
use mf_calls::Script;
use mf_core::{Event, History, KeptReply, Run};
use mf_elem::Request;
use mf_flow::asked_of;
use mf_names::Listing;
use mf_objects::{Fd, Id, Objects};
use mf_perform::passed;
use mf_plan::{Check, LastLabel, Outline, State, descriptor_of_call};
use mf_policy::Registration;
use std::alloc::{AllocError, Global};

/// What happened to the parties of a policy, the oldest first.
#[derive(Drop)]
pub struct Past {
    pub registration: Registration,
    pub occurrences: Listing<Occurrence>,
}

impl Past {
    /// The entities of the opening state come.
    fn begin(&mut self, objects: &Objects) -> Result<(), AllocError>
        requires { spec.HasLabelSlot self.old }
        ensures { OnOk result (self.new ≡ spec.with_more
            (λ r. happens.opening_happenings r objects.now) self.old) }
    {
        push_opening(&self.registration, objects, &mut self.occurrences)
    }

    /// The checks of a call that passed move what they move.
    fn move_by(
        &mut self,
        state: &State,
        fd: Option<&Fd>,
        event: u32,
        checks: &[Check],
    ) -> Result<(), AllocError>
        requires slot { spec.HasLabelSlot self.old }
        requires few { length checks.now ≤ MOST_CHECKS }
        ensures { OnOk result (self.new ≡ spec.with_more (λ r. happens.moving_from r state.now
            (option_copied fd.entry) event 1 (map (item_of state.now.objects) checks.now))
            self.old) }
    {
        push_moves(
            &self.registration,
            state,
            fd,
            event,
            checks,
            &mut self.occurrences,
        )
    }

    /// Behind the checks of a call the entity of a number comes, where there is one, or one is relabelled.
    fn settle(
        &mut self,
        objects: &Objects,
        event: u32,
        maker: Option<Id>,
        next: u32,
        asked: &Option<(Id, Request)>,
    ) -> Result<(), AllocError>
        requires { spec.HasLabelSlot self.old }
        ensures { OnOk result (self.new ≡ spec.with_more
            (λ r. happens.coming_at r objects.now event maker next
            ++ happens.relabelling r objects.now event asked.now) self.old) }
    {
        let registration = &self.registration;
        let past = &mut self.occurrences;
        push_coming(registration, objects, event, maker, next, past)?;
        push_relabelling(registration, objects, event, asked, past)
    }
}

/// Nothing that happened yet, for each of these policies.
pub fn no_pasts(alloc: Global, booted: &[Registration]) -> Result<Vec<Past>, AllocError>
    ensures { IfOk result (λ pasts. pasts.items ≡ map spec.no_past booted.now) }
{
    let mut pasts = Vec::new(alloc);
    for registration in booted {
        pasts.push(Past {
            registration: *registration,
            occurrences: Listing::new(alloc),
        })?;
    }
    Ok(pasts)
}

/// Appends what happens to the parties of each policy over a legal history, and returns the run at its end.
pub fn happenings<'s>(
    alloc: Global,
    script: &'s Script,
    history: &History,
    pasts: &mut Vec<Past>,
) -> Result<Run<'s>, AllocError>
    requires formed { IsWellFormed script.now }
    requires legal { IsLegal script.now history.now }
    requires slots { AllByRecursion spec.HasLabelSlot pasts.old.items }
    ensures run { IfOk result (λ r. r.run ≡ run_state_of script.now history.now.events.list) }
    ensures pasts { OnOk result (pasts.new.items ≡ map (spec.with_more
        (λ r. happens.happenings_of script.now r history.now.events.list)) pasts.old.items) }
{
    let mut run = Run::new(alloc, script)?;
    begin_each(&run.state().objects, pasts)?;
    let mut last = LastLabel::new();
    let mut outline = Outline::new();
    for (place, event) in history.events.as_slice().iter().enumerate() {
        let number = place as u32 + 1;
        follow(
            alloc,
            script,
            &mut run,
            pasts,
            &mut last,
            &mut outline,
            number,
            event,
        )?;
    }
    Ok(run)
}

/// The entities of the opening state come, by each policy.
fn begin_each(objects: &Objects, pasts: &mut Vec<Past>) -> Result<(), AllocError>
    requires { AllByRecursion spec.HasLabelSlot pasts.old.items }
    ensures { OnOk result (pasts.new.items ≡ map (spec.with_more
        (λ r. happens.opening_happenings r objects.now)) pasts.old.items) }
{
    for place in 0..pasts.len() {
        pasts[place].begin(objects)?;
    }
    Ok(())
}

/// The state after an event that may come, and what happens in it by each policy.
fn follow(
    alloc: Global,
    script: &Script,
    run: &mut Run,
    pasts: &mut Vec<Past>,
    last: &mut LastLabel,
    outline: &mut Outline,
    number: u32,
    event: &Event,
) -> Result<(), AllocError>
    requires slots { AllByRecursion spec.HasLabelSlot pasts.old.items }
    requires script { run.old.script ≡ script.now }
    requires formed { IsWellFormed script.now }
    requires may { MayCome script.now run.old.run event.now }
    ensures run { OnOk result (run.new
        ≡ record { script = script.now; run = run_after script.now run.old.run event.now }) }
    ensures pasts { OnOk result (pasts.new.items ≡ map (spec.with_more
        (λ r. happens.happened_in script.now r run.old.run number event.now)) pasts.old.items) }
{
    match event {
        Event::Done(task, line_number, reply) => follow_call(
            alloc,
            script,
            run,
            pasts,
            last,
            outline,
            number,
            *task,
            *line_number,
            reply,
        ),
        Event::Enter(task) => {
            run.enter(*task);
            Ok(())
        }
        Event::Leave(task) => {
            run.leave(*task);
            Ok(())
        }
        Event::Changed(task, line_number, reply) => run.change(alloc, *task, *line_number, reply),
    }
}

/// The same for a call with that reply. The last label text isn't read again, and the outline is made where the one before lay.
fn follow_call(
    alloc: Global,
    script: &Script,
    run: &mut Run,
    pasts: &mut Vec<Past>,
    last: &mut LastLabel,
    outline: &mut Outline,
    event: u32,
    task: u32,
    line_number: u32,
    reply: &KeptReply,
) -> Result<(), AllocError>
    requires slots { AllByRecursion spec.HasLabelSlot pasts.old.items }
    requires script { run.old.script ≡ script.now }
    requires formed { IsWellFormed script.now }
    requires may { MayCome script.now run.old.run (events.Done task line_number reply.now) }
    ensures run { OnOk result (run.new ≡ record {
      script = script.now;
      run = run_after script.now run.old.run (events.Done task line_number reply.now);
    }) }
    ensures pasts { OnOk result (pasts.new.items ≡ map (spec.with_more
        (λ r. happens.happened_in script.now r run.old.run event
        (events.Done task line_number reply.now))) pasts.old.items) }
{
    let line = script.line_at(task, line_number - 1);
    let name = script.name_of(task);
    let state = run.state();
    let next = state.objects.next_id();
    last.keep(&line.call);
    let child = line.child_name();
    outline.make(state, name, child, &line.call, last);
    let lent = reply.lend();
    let said = lent.get();
    let checks = passed(said, outline.checks.as_slice());
    let fd = descriptor_of_call(state, name, child, &line.call);
    move_each(state, fd, event, checks, pasts)?;
    let asked = asked_of(said, outline);
    run.commit(alloc, task, line_number, outline, reply)?;
    let objects = &run.state().objects;
    settle_each(objects, event, outline.found.caller, next, &asked, pasts)
}

/// What checks that passed move, by each policy.
fn move_each(
    state: &State,
    fd: Option<&Fd>,
    event: u32,
    checks: &[Check],
    pasts: &mut Vec<Past>,
) -> Result<(), AllocError>
    requires slots { AllByRecursion spec.HasLabelSlot pasts.old.items }
    requires few { length checks.now ≤ MOST_CHECKS }
    ensures { OnOk result (pasts.new.items ≡ map (spec.with_more (λ r. happens.moving_from r
        state.now (option_copied fd.entry) event 1 (map (item_of state.now.objects) checks.now)))
        pasts.old.items) }
{
    for place in 0..pasts.len() {
        pasts[place].move_by(state, fd, event, checks)?;
    }
    Ok(())
}

/// What happens behind the checks of a call, by each policy.
fn settle_each(
    objects: &Objects,
    event: u32,
    maker: Option<Id>,
    next: u32,
    asked: &Option<(Id, Request)>,
    pasts: &mut Vec<Past>,
) -> Result<(), AllocError>
    requires { AllByRecursion spec.HasLabelSlot pasts.old.items }
    ensures { OnOk result (pasts.new.items ≡ map (spec.with_more
        (λ r. happens.coming_at r objects.now event maker next
        ++ happens.relabelling r objects.now event asked.now)) pasts.old.items) }
{
    for place in 0..pasts.len() {
        pasts[place].settle(objects, event, maker, next, asked)?;
    }
    Ok(())
}
