//! What calls ask of a label, and the checks of relabels.
ghost use Rattle.std.specs.Prelude.{◌≡◌, [], option_and_then, IfErr, IfOk, IsSome, OnOk, None, Some};
ghost use Rattle.mf_calls.specs.declared.script.Call.TheVariants as call;
ghost use Rattle.mf_errno.specs.declared.errno.Errno.TheVariants as errno;
ghost use Rattle.mf_item.specs.declared.view.Kind.TheVariants as kinds;
ghost use Rattle.mf_plan.specs.Checks.{on};
ghost use Rattle.mf_plan.specs.Ended.{end_for, ended_by, end_in};
ghost use Rattle.mf_plan.specs.Found.{target_at};
ghost use Rattle.mf_plan.specs.Outline as outline;
ghost use Rattle.mf_plan.specs.Relabels as spec;
ghost use Rattle.mf_plan.specs.Row as row;
ghost use Rattle.mf_plan.specs.Ways.{way_to};
ghost use Rattle.mf_plan.specs.Ways.Place.{Asking, File, Named};

use crate::files::on_file;
use crate::last_label::LastLabel;
use crate::named::on_named;
use crate::outline::{Checks, ask_alone};
use crate::state::State;
use mf_elem::Request;
use mf_errno::Errno;
use mf_item::{CheckOp, Kind};
use mf_labeltext::read_request;
use mf_names::{Name, Path, Word};
use mf_objects::Id;
use mf_policy::SpecList;

/// The check of a relabel of the caller itself, and what its text asks for.
pub(crate) fn relabel_caller(
    state: &State,
    caller: Id,
    label: &Word,
    last: &LastLabel,
    checks: &mut Checks,
    asked: &mut Option<Request>,
) -> Result<Option<Id>, Errno>
    requires empty { checks.old ≡ [] }
    requires unasked { asked.old ≡ None }
    requires asking { outline.IsAsking state.now.objects caller checks.old }
    ensures row { ended_by checks.new result ≡ end_for state.now caller (call.Setpmac label.now) }
    ensures target { IfOk result (λ target. target ≡ Some caller) }
    ensures request { IfOk result (λ target. asked.new
        ≡ spec.claimed_in state.now.specs kinds.Process label.now) }
    ensures asking { outline.IsAsking state.now.objects caller checks.new }
{
    claim(&state.specs, Kind::Process, label.as_str(), last, asked)?;
    ask_alone(&state.objects, caller, CheckOp::CredRelabel, checks);
    Ok(Some(caller))
}

/// The same of what is at the end of the path.
pub(crate) fn relabel_file(
    state: &State,
    caller: Id,
    label: &Word,
    path: &Path,
    last: &LastLabel,
    checks: &mut Checks,
    asked: &mut Option<Request>,
) -> Result<Option<Id>, Errno>
    requires empty { checks.old ≡ [] }
    requires unasked { asked.old ≡ None }
    requires asking { outline.IsAsking state.now.objects caller checks.old }
    ensures row { ended_by checks.new result
        ≡ end_for state.now caller (call.Setfmac label.now path.now) }
    ensures target { IfOk result (λ target. target ≡ target_at state.now caller (File path.now)) }
    ensures request { IfOk result (λ target. asked.new
        ≡ spec.claimed_in state.now.specs kinds.Vnode label.now) }
    ensures asking { outline.IsAsking state.now.objects caller checks.new }
{
    claim(&state.specs, Kind::Vnode, label.as_str(), last, asked)?;
    on_file(state, caller, CheckOp::VnodeRelabel, path, checks)
}

/// The same of the pipe or socket of a name.
pub(crate) fn relabel_named(
    state: &State,
    caller: Id,
    kind: Kind,
    op: CheckOp,
    label: &Word,
    name: &Name,
    last: &LastLabel,
    checks: &mut Checks,
    asked: &mut Option<Request>,
) -> Result<Option<Id>, Errno>
    requires empty { checks.old ≡ [] }
    requires unasked { asked.old ≡ None }
    requires asking { outline.IsAsking state.now.objects caller checks.old }
    ensures row { ended_by checks.new result ≡ end_in (row.through
        (way_to state.now caller (Asking kind label.now (Named kind name.now)))
        (row.relabel_by (on caller op))) }
    ensures target { IfOk result (λ target. target
        ≡ target_at state.now caller (Named kind name.now)) }
    ensures request { IfOk result (λ target. asked.new
        ≡ spec.claimed_in state.now.specs kind label.now) }
    ensures asking { outline.IsAsking state.now.objects caller checks.new }
{
    claim(&state.specs, kind, label.as_str(), last, asked)?;
    on_named(state, caller, kind, op, name, checks)
}

/// Puts down what the label text asks for an entity of that kind, before anything is looked up. EINVAL where it can't be read, or no
/// listed policy claims a part of it. Whether the request is refused is the policies' matter. A text that is the last one isn't read
/// again.
fn claim(
    specs: &SpecList,
    kind: Kind,
    text: &str,
    last: &LastLabel,
    asked: &mut Option<Request>,
) -> Result<(), Errno>
    requires { asked.old ≡ None }
    ensures asked { asked.new ≡ spec.claimed_in specs.now kind text.now }
    ensures ok { OnOk result (IsSome asked.new) }
    ensures err { IfErr result (λ error. (error ≡ errno.Einval) × (asked.new ≡ None)) }
{
    put_claimed(specs, kind, text, last, asked);
    if asked.is_none() {
        return Err(Errno::Einval);
    }
    Ok(())
}

/// Puts down what the label text asks for, where it can be read and is claimed for an entity of that kind.
fn put_claimed(
    specs: &SpecList,
    kind: Kind,
    text: &str,
    last: &LastLabel,
    asked: &mut Option<Request>,
)
    requires { asked.old ≡ None }
    ensures { asked.new ≡ spec.claimed_in specs.now kind text.now }
{
    match last.kept(text) {
        Some(read) => put_if_claimed(specs, kind, read, asked),
        None => put_read(specs, kind, text, asked),
    }
}

/// Puts down what a label text asks for that has to be read, where it is claimed for an entity of that kind.
fn put_read(specs: &SpecList, kind: Kind, text: &str, asked: &mut Option<Request>)
    requires { asked.old ≡ None }
    ensures { asked.new ≡ spec.claimed_in specs.now kind text.now }
{
    put_if_claimed(specs, kind, &read_request(text).ok(), asked)
}

/// Puts down what was read, where it is claimed for an entity of that kind.
fn put_if_claimed(specs: &SpecList, kind: Kind, read: &Option<Request>, asked: &mut Option<Request>)
    requires { asked.old ≡ None }
    ensures { asked.new ≡ option_and_then (spec.if_claimed specs.now kind) read.now }
{
    if let Some(request) = read {
        if specs.claims(kind, request) {
            *asked = *read;
        }
    }
}
