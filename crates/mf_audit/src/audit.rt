//! The audit of a history: whether it is one of the script, and else its first line that is wrong.
ghost use Rattle.std.specs.Prelude.{◌≡◌, ◌≤◌, length, IfOk};
ghost use Rattle.mf_calls.specs.WellFormed.{IsWellFormed};
ghost use Rattle.mf_audit.specs.Audit.{IsAudit};
ghost use Rattle.mf_audit.specs.Lines.{IsEventAudit};

use crate::boots::{agreeing, registrations};
use crate::player::Player;
use mf_calls::Script;
use mf_core::{Event, History};
use std::alloc::{AllocError, Global};

/// What an audit finds.
#[derive(Clone, Copy)]
pub enum Audit {
    /// The history is legal; it is complete where each task has done all its lines.
    Legal { complete: bool },
    /// No legal history goes on with this line, counted from 1. It may be a line that is lacking, behind the last.
    Wrong(u32),
}

/// Whether the history is a legal one of the script, and complete. Any history may be given, even one with more lines than a u32
/// counts: the first wrong line lies at most one behind a legal history.
pub fn audit_history(alloc: Global, script: &Script, history: &History) -> Result<Audit, AllocError>
    requires { IsWellFormed script.now }
    ensures { IfOk result (IsAudit script.now history.now) }
{
    let (boots, _given) = registrations(alloc, script.boots.as_slice())?;
    let agree = agreeing(boots.as_slice(), history.boots.as_slice());
    if agree < boots.len() || agree < history.boots.len() {
        return Ok(Audit::Wrong(agree as u32 + 1));
    }
    audit_events(alloc, script, agree as u32, history.events.as_slice())
}

/// The audit of the events behind so many registrations.
fn audit_events(
    alloc: Global,
    script: &Script,
    boots: u32,
    events: &[Event],
) -> Result<Audit, AllocError>
    requires formed { IsWellFormed script.now }
    requires few { boots ≤ 1000 }
    ensures { IfOk result (IsEventAudit script.now boots events.now) }
{
    let mut player = Player::new(alloc, script)?;
    let mut line = boots;
    for event in events {
        if !player.take(alloc, event)? {
            return Ok(Audit::Wrong(line + 1));
        }
        line += 1;
    }
    Ok(Audit::Legal {
        complete: player.is_complete(),
    })
}
