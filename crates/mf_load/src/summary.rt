//! The summary of a run of a generated load: how often each errno was replied.
ghost use Rattle.std.specs.Prelude.{◌≡◌, ◌++◌, IfOk, OnOk, string_bytes, count_by};
ghost use Rattle.std.specs.List.{flat_map};
ghost use Rattle.mf_errno.specs.Same.{is_same};
ghost use Rattle.mf_errno.specs.Names.{all_errors};
ghost use Rattle.mf_load.specs.Counts.{errno_of};
ghost use Rattle.mf_load.specs.Replied.{counted_text, errno_in, errnos_in, replied_text};
ghost use Rattle.mf_load.specs.Summary.{summary_text};

use mf_core::Event;
use mf_errno::Errno;
use mf_plan::Reply;
use std::alloc::{AllocError, Global};

/// The text of the summary: the line `gen N T`, then a line for each errno that is replied in these events, with its name and
/// how often.
#[tactic(auto, unfolding(crate::specs::Summary::summary_text))]
pub fn summary_text(
    alloc: Global,
    lines: u32,
    tasks: u32,
    events: &[Event],
) -> Result<String, AllocError>
    ensures { IfOk result (λ text. string_bytes text ≡ summary_text lines tasks events.now) }
{
    let mut text = format!(in alloc; "gen {lines} {tasks}\n")?;
    push_replies(alloc, events, &mut text)?;
    Ok(text)
}

/// Appends the line of each errno that is replied in these events. The errnos are taken out of the events once, and then
/// counted by themselves, since events are large.
fn push_replies(alloc: Global, events: &[Event], out: &mut String) -> Result<(), AllocError>
    ensures { OnOk result (string_bytes out.new
        ≡ string_bytes out.old ++ flat_map (replied_text events.now) all_errors) }
{
    let replied = replied(alloc, events)?;
    push_counts(Errno::all(), &replied, out)
}

/// The errnos of the replies among these events, in order.
fn replied(alloc: Global, events: &[Event]) -> Result<Vec<Errno>, AllocError>
    ensures { IfOk result (λ errnos. errnos.items ≡ errnos_in events.now) }
{
    let mut errnos = Vec::new(alloc);
    for event in events {
        push_errno(event, &mut errnos)?;
    }
    Ok(errnos)
}

/// Appends the errno of an event that is a reply.
fn push_errno(event: &Event, errnos: &mut Vec<Errno>) -> Result<(), AllocError>
    ensures { OnOk result (errnos.new.items ≡ errnos.old.items ++ errno_in event.now) }
{
    match event {
        Event::Done(_, _, reply) | Event::Changed(_, _, reply) => {
            errnos.push(errno_of(reply.lend().get()))?;
            Ok(())
        }
        Event::Enter(_) | Event::Leave(_) => Ok(()),
    }
}

/// Appends the line of each errno that was replied.
fn push_counts(errnos: &[Errno], replied: &[Errno], out: &mut String) -> Result<(), AllocError>
    ensures { OnOk result (string_bytes out.new
        ≡ string_bytes out.old ++ flat_map (counted_text replied.now) errnos.now) }
{
    for errno in errnos {
        push_count(*errno, replied, out)?;
    }
    Ok(())
}

/// Appends the line of an errno that was replied; nothing where it wasn't.
fn push_count(errno: Errno, replied: &[Errno], out: &mut String) -> Result<(), AllocError>
    ensures { OnOk result (string_bytes out.new
        ≡ string_bytes out.old ++ counted_text replied.now errno) }
{
    let count = count_of(errno, replied);
    if count == 0 {
        return Ok(());
    }
    write!(out, "{errno} {count}\n")
}

/// How often the errno was replied.
fn count_of(errno: Errno, replied: &[Errno]) -> usize
    ensures { result ≡ count_by (is_same errno) replied.now }
{
    replied
        .iter()
        .filter(|other| is_same(errno, **other))
        .count()
}

/// The errno of a reply, and success for one that is ok.
fn errno_of(reply: &Reply) -> Errno
    ensures { result ≡ errno_of reply.now }
{
    match reply {
        Reply::Ok(_) => Errno::Success,
        Reply::Denied { errno, .. } | Reply::Refused(errno) => *errno,
    }
}

fn is_same(errno: Errno, other: Errno) -> bool
    ensures { result ≡ is_same errno other }
{
    errno == other
}
