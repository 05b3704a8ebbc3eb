//! Why the calls of a history were denied, along one walk through it.
ghost use Rattle.std.specs.Prelude.{◌≡◌, ◌++◌, string_bytes, IsSome, OnOk, OnErr, Some};
ghost use Rattle.mf_text.specs.Appending.{Extends};
ghost use Rattle.mf_calls.specs.WellFormed.{IsWellFormed};
ghost use Rattle.mf_core.specs.LegalHistory.{next_line, next_number, next_reply, run_after, IsLegal, MayCome};
ghost use Rattle.mf_core.specs.NextFound.{IsNextOutline};
ghost use Rattle.mf_why.specs.Slots.{HaveLabelSlots};
ghost use Rattle.mf_why.specs.WhyText as spec;

use crate::calls::{is_planned, may_lower, push_call};
use crate::extent::Extent;
use crate::titles::place_of;
use mf_calls::Script;
use mf_core::{Event, History, KeptReply, Run};
use mf_plan::{LastLabel, Outline, Plan};
use std::alloc::{AllocError, Global};

/// Appends the lines of each event of a legal history, in its order: by its checks, where mac_lomac(4) lowered the caller; with
/// `Extent::All` the rules that allowed it; and why it was denied. A denial has a line for the check and one for each listed policy
/// that denied it, in the order in which policies are asked; what the framework itself refused has none. If memory runs out, the
/// text is unchanged.
pub fn add_why(
    alloc: Global,
    script: &Script,
    history: &History,
    extent: Extent,
    text: &mut String,
) -> Result<(), AllocError>
    requires formed { IsWellFormed script.now }
    requires legal { IsLegal script.now history.now }
    ensures ok { OnOk result (string_bytes text.new
        ≡ string_bytes text.old ++ spec.why_text extent script.now history.now) }
    ensures err { OnErr result (string_bytes text.new ≡ string_bytes text.old) }
{
    let length = text.len();
    let appended = push_events(alloc, script, history, extent, text);
    if appended.is_err() {
        text.truncate(length);
    }
    appended
}

/// The last plan and outline, whose room is used again, and the last label text, which isn't read again.
#[derive(Drop)]
struct Space {
    plan: Plan,
    outline: Outline,
    last: LastLabel,
}

fn push_events(
    alloc: Global,
    script: &Script,
    history: &History,
    extent: Extent,
    text: &mut String,
) -> Result<(), AllocError>
    requires formed { IsWellFormed script.now }
    requires legal { IsLegal script.now history.now }
    ensures ok { OnOk result (string_bytes text.new
        ≡ string_bytes text.old ++ spec.why_text extent script.now history.now) }
    ensures err { OnErr result (Extends (string_bytes text.old) (string_bytes text.new)) }
{
    let mut run = Run::new(alloc, script)?;
    let mut space = Space {
        plan: Plan::new(),
        outline: Outline::new(),
        last: LastLabel::new(),
    };
    let events = history.events.as_slice();
    for event in events {
        follow(alloc, script, &mut run, &mut space, extent, event, text)?;
    }
    Ok(())
}

/// The state after an event that may come, and the lines of the event.
fn follow(
    alloc: Global,
    script: &Script,
    run: &mut Run,
    space: &mut Space,
    extent: Extent,
    event: &Event,
    text: &mut String,
) -> Result<(), AllocError>
    requires slots { HaveLabelSlots run.old.run.state.specs }
    requires script { run.old.script ≡ script.now }
    requires formed { IsWellFormed script.now }
    requires may { MayCome script.now run.old.run event.now }
    ensures run { OnOk result (run.new
        ≡ record { script = script.now; run = run_after script.now run.old.run event.now }) }
    ensures ok { OnOk result (string_bytes text.new
        ≡ string_bytes text.old ++ spec.event_text extent script.now run.old.run event.now) }
    ensures err { OnErr result (Extends (string_bytes text.old) (string_bytes text.new)) }
{
    match event {
        Event::Enter(task) => {
            run.enter(*task);
            Ok(())
        }
        Event::Leave(task) => {
            run.leave(*task);
            Ok(())
        }
        Event::Done(task, number, reply) => {
            tell(
                alloc, script, run, space, extent, *task, *number, reply, text,
            )?;
            run.commit(alloc, *task, *number, &space.outline, reply)
        }
        Event::Changed(task, number, reply) => {
            tell(
                alloc, script, run, space, extent, *task, *number, reply, text,
            )?;
            run.change(alloc, *task, *number, reply)
        }
    }
}

/// The lines of the call of the task's next line, which has that number, and its outline. No plan is made where none is told.
fn tell(
    alloc: Global,
    script: &Script,
    run: &Run,
    space: &mut Space,
    extent: Extent,
    task: u32,
    number: u32,
    reply: &KeptReply,
    text: &mut String,
) -> Result<(), AllocError>
    requires slots { HaveLabelSlots run.now.run.state.specs }
    requires script { run.now.script ≡ script.now }
    requires formed { IsWellFormed script.now }
    requires number { number ≡ next_number run.now.run task }
    requires reply { next_reply script.now run.now.run task ≡ Some reply.now }
    ensures outline { OnOk result (IsNextOutline script.now run.now.run task space.new.outline) }
    ensures ok { OnOk result (string_bytes text.new ≡ string_bytes text.old
        ++ spec.next_text extent script.now run.now.run task number reply.now) }
    ensures err { OnErr result (Extends (string_bytes text.old) (string_bytes text.new)) }
{
    let state = run.state();
    let lent = reply.lend();
    let said = lent.get();
    let line = script.line_at(task, number - 1);
    if !is_planned(extent, said, &state.specs, &line.call) {
        make_outline(script, run, space, task, number);
        if !may_lower(&state.specs, space.outline.checks.as_slice()) {
            return Ok(());
        }
    }
    run.plan(task, &mut space.plan, &mut space.outline);
    let place = place_of(alloc, script.name_of(task), number)?;
    push_call(extent, state, place.as_str(), &space.plan, said, text)
}

/// The outline of the call of the task's next line, which has that number.
fn make_outline(script: &Script, run: &Run, space: &mut Space, task: u32, number: u32)
    requires script { run.now.script ≡ script.now }
    requires formed { IsWellFormed script.now }
    requires number { number ≡ next_number run.now.run task }
    requires line { IsSome (next_line script.now run.now.run.progress task) }
    ensures { IsNextOutline script.now run.now.run task space.new.outline }
{
    let line = script.line_at(task, number - 1);
    space.last.keep(&line.call);
    let (name, child) = (script.name_of(task), line.child_name());
    space
        .outline
        .make(run.state(), name, child, &line.call, &space.last);
}
