//! The sources after each event of a history, and after each call that is committed.
ghost use Rattle.std.specs.Prelude.{◌≡◌, ◌<◌, OnOk, find, map, option_map};
ghost use Rattle.std.specs.List.{AllByRecursion};
ghost use Rattle.std.specs.Option.{option_copied, option_zip};
ghost use Rattle.mf_elem.specs.declared.label.TheConstants.{SLOTS};
ghost use Rattle.mf_plan.specs.Outline.{item_of};
ghost use Rattle.mf_list.specs.Asked.{slot_of};
ghost use Rattle.mf_objects.specs.Lives.{is_from};
ghost use Rattle.mf_calls.specs.WellFormed.{IsFormedLine, IsName, IsWellFormed};
ghost use Rattle.mf_perform.specs.Passed.{passed};
ghost use Rattle.mf_core.specs.declared.history.Event.TheVariants as events;
ghost use Rattle.mf_core.specs.LegalHistory.{run_after, MayCome};
ghost use Rattle.mf_flow.specs.Rows as spec;
ghost use Rattle.mf_flow.specs.Transfers.{descriptor_of};

use crate::moving::move_all;
use crate::relabelling::give;
use crate::set_list::{SetList, sweep};
use mf_calls::{Line, Script};
use mf_core::{Event, KeptReply, Run};
use mf_elem::Elem;
use mf_objects::{Fd, Id, Objects};
use mf_perform::passed;
use mf_plan::{Check, Found, LastLabel, Outline, State, descriptor_of_call};
use mf_policy::{Registration, slot_label};
use std::alloc::{AllocError, Global};

/// The sources by a policy that was booted, along a history.
#[derive(Drop)]
pub struct Flow {
    pub registration: Registration,
    pub sets: SetList,
}

impl Flow {
    /// The policy's label slot.
    fn slot(&self) -> u8
        ensures { result ≡ slot_of self.now.registration }
    {
        self.registration.slot.unwrap_or(0)
    }
}

/// The last label text, which isn't read again where the next call has the same, and the last outline, whose room is used again.
#[derive(Drop)]
pub struct Workspace {
    last: LastLabel,
    outline: Outline,
}

impl Workspace {
    /// Nothing is kept yet.
    pub fn new() -> Workspace {
        Workspace {
            last: LastLabel::new(),
            outline: Outline::new(),
        }
    }
}

/// The state and the sources after an event that may come.
pub fn follow(
    alloc: Global,
    script: &Script,
    run: &mut Run,
    flows: &mut Vec<Flow>,
    space: &mut Workspace,
    event: &Event,
) -> Result<(), AllocError>
    requires slots { AllByRecursion spec.HasLabelSlot flows.old.items }
    requires script { run.old.script ≡ script.now }
    requires formed { IsWellFormed script.now }
    requires may { MayCome script.now run.old.run event.now }
    ensures run { OnOk result (run.new
        ≡ record { script = script.now; run = run_after script.now run.old.run event.now }) }
    ensures flows { OnOk result (spec.EachBecomes
        (λ f new. spec.IsKept (run_after script.now run.old.run event.now).state.objects
        (spec.flow_after_event script.now run.old.run event.now f) new)
        flows.old.items flows.new.items) }
{
    match event {
        Event::Done(task, number, reply) => {
            follow_call(alloc, script, run, flows, space, *task, *number, reply)
        }
        Event::Enter(task) => {
            run.enter(*task);
            Ok(())
        }
        Event::Leave(task) => {
            run.leave(*task);
            Ok(())
        }
        Event::Changed(task, number, reply) => run.change(alloc, *task, *number, reply),
    }
}

/// The same after a call that is done, or isn't, with that reply.
fn follow_call(
    alloc: Global,
    script: &Script,
    run: &mut Run,
    flows: &mut Vec<Flow>,
    space: &mut Workspace,
    task: u32,
    number: u32,
    reply: &KeptReply,
) -> Result<(), AllocError>
    requires slots { AllByRecursion spec.HasLabelSlot flows.old.items }
    requires script { run.old.script ≡ script.now }
    requires formed { IsWellFormed script.now }
    requires may { MayCome script.now run.old.run (events.Done task number reply.now) }
    ensures run { OnOk result (run.new ≡ record {
      script = script.now;
      run = run_after script.now run.old.run (events.Done task number reply.now);
    }) }
    ensures flows { OnOk result (spec.EachBecomes (λ f new. spec.IsKept
        (run_after script.now run.old.run (events.Done task number reply.now)).state.objects
        (spec.flow_after_event script.now run.old.run (events.Done task number reply.now) f) new)
        flows.old.items flows.new.items) }
{
    let line = script.line_at(task, number - 1);
    let name = script.name_of(task);
    let state = run.state();
    let next = state.objects.next_id();
    let child = line.child_name();
    space.last.keep(&line.call);
    space
        .outline
        .make(state, name, child, &line.call, &space.last);
    let outline = &space.outline;
    move_passed(alloc, state, name, line, outline, reply, flows)?;
    run.commit(alloc, task, number, outline, reply)?;
    let objects = &run.state().objects;
    settle_each(alloc, next, objects, &outline.found, reply.is_ok(), flows)
}

/// What the checks of a call that passed move, by each policy. A reply is wide: it is lent apart from what may fail.
pub(crate) fn move_passed(
    alloc: Global,
    state: &State,
    task: &str,
    line: &Line,
    outline: &Outline,
    reply: &KeptReply,
    flows: &mut Vec<Flow>,
) -> Result<(), AllocError>
    requires slots { AllByRecursion spec.HasLabelSlot flows.old.items }
    requires task { IsName task.now }
    requires line { IsFormedLine line.now }
    ensures { OnOk result (spec.EachBecomes (λ f new. new ≡ spec.flow_moved state.now
        (descriptor_of state.now task.now line.now)
        (map (item_of state.now.objects) (passed reply.now outline.now.checks)) f)
        flows.old.items flows.new.items) }
{
    let fd = descriptor_of_call(state, task, line.child_name(), &line.call);
    let lent = reply.lend();
    let said = lent.get();
    let checks = passed(said, outline.checks.as_slice());
    move_in_each(alloc, state, fd, checks, flows)
}

/// What checks that passed move, by each policy, of a call that goes through this descriptor, or through none.
fn move_in_each(
    alloc: Global,
    state: &State,
    fd: Option<&Fd>,
    checks: &[Check],
    flows: &mut Vec<Flow>,
) -> Result<(), AllocError>
    requires { AllByRecursion spec.HasLabelSlot flows.old.items }
    ensures { OnOk result (spec.EachBecomes (λ f new. new
        ≡ spec.flow_moved state.now (option_copied fd.entry)
        (map (item_of state.now.objects) checks.now) f) flows.old.items flows.new.items) }
{
    for place in 0..flows.len() {
        move_in(alloc, state, fd, checks, &mut flows[place])?;
    }
    Ok(())
}

fn move_in(
    alloc: Global,
    state: &State,
    fd: Option<&Fd>,
    checks: &[Check],
    flow: &mut Flow,
) -> Result<(), AllocError>
    requires { spec.HasLabelSlot flow.old }
    ensures { OnOk result (flow.new ≡ spec.flow_moved state.now (option_copied fd.entry)
        (map (item_of state.now.objects) checks.now) flow.old) }
{
    move_all(alloc, &flow.registration, state, fd, &mut flow.sets, checks)
}

/// What is left of a call, done or not, by each policy: the sources of an entity that came under this number, and of one that was
/// relabelled. Now and then those of entities that are gone are freed.
pub(crate) fn settle_each(
    alloc: Global,
    next: u32,
    objects: &Objects,
    found: &Found,
    is_done: bool,
    flows: &mut Vec<Flow>,
) -> Result<(), AllocError>
    requires { AllByRecursion spec.HasLabelSlot flows.old.items }
    ensures { OnOk result (spec.EachBecomes (λ f new. spec.IsKept objects.now
        (spec.flow_settled next objects.now found.now.caller
        (spec.where_done is_done (option_zip found.now.target found.now.request)) f) new)
        flows.old.items flows.new.items) }
{
    for place in 0..flows.len() {
        settle(alloc, next, objects, found, is_done, &mut flows[place])?;
    }
    Ok(())
}

fn settle(
    alloc: Global,
    next: u32,
    objects: &Objects,
    found: &Found,
    is_done: bool,
    flow: &mut Flow,
) -> Result<(), AllocError>
    requires { spec.HasLabelSlot flow.old }
    ensures { OnOk result (spec.IsKept objects.now
        (spec.flow_settled next objects.now found.now.caller
        (spec.where_done is_done (option_zip found.now.target found.now.request)) flow.old)
        flow.new) }
{
    let slot = flow.slot();
    create(alloc, slot, next, objects, found.caller, &mut flow.sets)?;
    let module = flow.registration.module;
    give(alloc, slot, module, objects, found, is_done, &mut flow.sets)?;
    sweep(alloc, objects, &mut flow.sets);
    Ok(())
}

/// The sources of an entity that came under this number, made by that process, where one came.
fn create(
    alloc: Global,
    slot: u8,
    next: u32,
    objects: &Objects,
    caller: Option<Id>,
    sets: &mut SetList,
) -> Result<(), AllocError>
    requires { slot < SLOTS }
    ensures { OnOk result (sets.new ≡ spec.rows_created slot next objects.now caller sets.old) }
{
    if next < objects.next_id() {
        sets.push(alloc, own_at(objects, slot, next), number_of(caller))?;
    }
    Ok(())
}

fn number_of(id: Option<Id>) -> Option<u32>
    ensures { result ≡ option_map (λ i. i.0) id }
{
    match id {
        None => None,
        Some(id) => Some(id.number()),
    }
}

/// The effective element of the first live entity from that number on.
pub fn own_at(objects: &Objects, slot: u8, next: u32) -> Option<Elem>
    requires { slot < SLOTS }
    ensures { result ≡ spec.element_first slot (find (is_from next) objects.now.live) }
{
    match objects.least_from(next) {
        None => None,
        Some(id) => slot_label(&objects.value(id, slot)).effective,
    }
}
