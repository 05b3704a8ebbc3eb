//! Why mac_seeotheruids(4) denies.
ghost use Rattle.std.specs.Prelude.{◌≡◌, slice_index_or};
ghost use Rattle.mf_policy.specs.Ports as ports;
ghost use Rattle.mf_answers.specs.Reasons as spec;

use crate::columns::is_on_process;
use crate::reasons::Reason;
use crate::views::attributes_of;
use mf_cred::{Cred, FileView};
use mf_item::Item;

/// Why by these settings of the policy a subject doesn't see the process that it does something to. All else passes.
pub fn users_reason(
    primarygroup: bool,
    specific: bool,
    gid: u32,
    suser: bool,
    item: &Item,
) -> Option<Reason>
    ensures { result ≡ spec.users_reason primarygroup specific gid suser item.now }
{
    if !is_on_process(item.op()) {
        return None;
    }
    let cred = &item.subject().cred;
    let process = attributes_of(item.object());
    if may_see(primarygroup, specific, gid, suser, cred, &process) {
        return None;
    }
    Some(Reason::Users {
        subject: cred.ruid,
        object: process.uid,
    })
}

/// Whether a subject sees a process: one of its own real uid; with the settings, one of its own primary group, any where it is in
/// the specific group, and any where it is root.
fn may_see(
    primarygroup: bool,
    specific: bool,
    gid: u32,
    suser: bool,
    subject: &Cred,
    process: &FileView,
) -> bool
    ensures { result ≡ ports.may_see primarygroup specific gid suser subject.now process.now }
{
    subject.ruid == process.uid
        || (primarygroup && primary_group(subject) == process.gid)
        || (specific && subject.in_group(gid))
        || (suser && subject.is_root())
}

/// The first of the groups.
fn primary_group(cred: &Cred) -> u32
    ensures { result ≡ slice_index_or cred.now.groups 0 0 }
{
    match cred.groups.as_slice().first() {
        Some(group) => *group,
        None => 0,
    }
}
