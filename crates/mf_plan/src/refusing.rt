//! What the framework tests, and how a call ends by a test.
ghost use Rattle.std.specs.Prelude.{◌≡◌, ◌≤◌, length, nat_le, if◌then◌else◌, IsSome, Err, Ok, Some};
ghost use Rattle.mf_objects.specs.Live.{live_at};
ghost use Rattle.mf_plan.specs.Views as view;

use mf_errno::Errno;
use mf_names::{CONTENT_LIMIT, SCRIPT_LIMIT};
use mf_objects::{Id, MOST_ENTITIES, Objects};

/// How a call about the entity ends, which is refused where the test says so.
pub(crate) fn refused_if(test: bool, errno: Errno, id: Id) -> Result<Option<Id>, Errno>
    ensures { result ≡ if test then Err errno else Ok (Some id) }
{
    if test { Err(errno) } else { Ok(Some(id)) }
}

/// Whether no entity can be made.
pub(crate) fn is_full(objects: &Objects) -> bool
    ensures { result ≡ nat_le MOST_ENTITIES (length objects.now.live) }
{
    objects.live() >= MOST_ENTITIES
}

/// Whether the text doesn't fit a file or pipe that holds at most so many bytes.
pub(crate) fn overfills(most: usize, objects: &Objects, text: &[u8], id: Id) -> bool
    requires live { IsSome (live_at objects.now id) }
    requires text { length text.now ≤ SCRIPT_LIMIT }
    ensures { result ≡ view.overfills most objects.now text.now id }
{
    objects.size(id) as usize + text.len() > most
}
