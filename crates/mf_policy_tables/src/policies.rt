//! The tables of modules and of operations, the rules for relabels, and the specs of policies.

ghost use Rattle.mf_policy.specs.IsChange.{IsChange};

use crate::asked::Level::{self, Equal, Grade, Low};
use crate::asked::{element, grade, holds, wants};
use mf_elem::{Elem, RangeLabel, Request};
use mf_errno::{Errno, Module};
use mf_item::{CheckOp, Kind};
use mf_policy::{
    Change, Changed, Movement, Registration, Spec, SpecList, Test, credential_relabel, flags_of,
    is_transfer, labels_kind, may_ask, object_relabel, row_of, wants_slot,
};
use std::alloc::{AllocError, Global};

fn a_debugger_learns_and_changes() -> bool {
    let row = row_of(CheckOp::ProcDebug);
    let is_both = row.test == Test::ObserveAndModify && row.movement == Movement::BothWays;
    is_both && !row.transfer && row_of(CheckOp::VnodeExec).letters == Some(18)
}

/// Operations, with whether each is a transfer through an open file.
const TRANSFERS: &[(CheckOp, bool)] = &[
    (CheckOp::VnodeRead, true),
    (CheckOp::VnodeWrite, true),
    (CheckOp::VnodeOpenRead, false),
    (CheckOp::VnodeOpenWrite, false),
    (CheckOp::PipeRead, false),
    (CheckOp::SocketDeliver, false),
];

fn transfers_go_through_an_open_file() -> bool {
    let mut holds = true;
    for (op, transfer) in TRANSFERS {
        holds &= is_transfer(*op) == *transfer;
    }
    holds
}

/// Whether policies have labels on entities of a kind.
const LABELS: &[(Module, Kind, bool)] = &[
    (Module::Biba, Kind::Vnode, true),
    (Module::Partition, Kind::Process, true),
    (Module::Partition, Kind::Vnode, false),
];

/// Whether the policy has labels so, and takes a request for a partition there alone where it is mac_partition.
fn labels(module: Module, kind: Kind, labels: bool) -> bool {
    let mut request = Request::none();
    request.partition = Some(7);
    let asks = module == Module::Biba || may_ask(module, kind, &request) == labels;
    asks && labels_kind(module, kind) == labels
}

fn files_have_no_partition() -> bool {
    let mut holds = true;
    for (module, kind, wanted) in LABELS {
        holds &= labels(*module, *kind, *wanted);
    }
    holds
}

#[test]
fn operations_and_modules(rt: HostRuntime) {
    wants(&rt, "a debugger", a_debugger_learns_and_changes());
    wants(&rt, "transfers", transfers_go_through_an_open_file());
    wants(&rt, "labels", files_have_no_partition());
    let is_static = wants_slot(Module::Mls) && flags_of(Module::Mls).is_notlate();
    wants(&rt, "mac_mls", is_static);
}

/// What a relabel asks for: an element, a range, both, or nothing.
enum Label {
    Element(Level),
    Range(u16, u16),
    Both(u16, u16, u16),
    Lowest,
    Nothing,
}

fn label_of(label: &Label) -> RangeLabel {
    match label {
        Label::Element(level) => RangeLabel::effective(element(level)),
        Label::Range(low, high) => RangeLabel {
            effective: None,
            range: Some((grade(*low), grade(*high))),
        },
        Label::Both(effective, low, high) => {
            RangeLabel::ranged(grade(*effective), grade(*low), grade(*high))
        }
        Label::Lowest => RangeLabel::ranged(Elem::Low, Elem::Low, Elem::Low),
        Label::Nothing => RangeLabel {
            effective: None,
            range: None,
        },
    }
}

/// What a subject of grade 10, with the range from 5 to 20, asks for itself, and the answers: the refusals have an order.
const CREDENTIALS: &[(Label, Errno)] = &[
    (Label::Both(4, 5, 20), Errno::Einval),
    (Label::Range(11, 20), Errno::Einval),
    (Label::Element(Grade(25)), Errno::Eperm),
    (Label::Both(10, 5, 30), Errno::Eperm),
    (Label::Element(Equal), Errno::Eperm),
    (Label::Both(12, 6, 18), Errno::Success),
    (Label::Nothing, Errno::Success),
];

fn order_of_relabel_refusals() -> bool {
    let subject = label_of(&Label::Both(10, 5, 20));
    let mut holds = true;
    for (asked, errno) in CREDENTIALS {
        holds &= credential_relabel(&subject, &label_of(asked)) == *errno;
    }
    holds
}

/// What a subject that is low alone asks for an object of an element, and the answers.
const OBJECTS: &[(Level, Label, Errno)] = &[
    (Low, Label::Element(Grade(7)), Errno::Eperm),
    (Grade(7), Label::Nothing, Errno::Eperm),
    (Low, Label::Lowest, Errno::Einval),
    (Low, Label::Element(Equal), Errno::Eperm),
    (Low, Label::Element(Low), Errno::Success),
];

fn relabels_of_an_object() -> bool {
    let lowest = label_of(&Label::Lowest);
    let mut holds = true;
    for (old, asked, errno) in OBJECTS {
        holds &= object_relabel(&lowest, &element(old), &label_of(asked)) == *errno;
    }
    holds
}

#[test]
fn refusals_of_relabels(rt: HostRuntime) {
    wants(&rt, "a credential", order_of_relabel_refusals());
    wants(&rt, "an object", relabels_of_an_object());
}

/// A module, with the answers to a change of mac_bsdextended's setting and of mac_biba's, and whether it tests transfers
/// after that; at first all do but mac_biba.
type Setting = (Module, Errno, Errno, bool);

const SETTINGS: &[Setting] = &[
    (Module::Biba, Errno::Enoent, Errno::Success, true),
    (Module::Mls, Errno::Enoent, Errno::Enoent, true),
    (Module::Lomac, Errno::Enoent, Errno::Enoent, true),
    (Module::Partition, Errno::Enoent, Errno::Enoent, true),
    (Module::Bsdextended, Errno::Success, Errno::Enoent, true),
    (Module::Priority, Errno::Enoent, Errno::Enoent, true),
    (Module::Seeotheruids, Errno::Enoent, Errno::Enoent, true),
    (Module::Portacl, Errno::Enoent, Errno::Enoent, true),
];

/// Whether a change is answered with that errno, and no number.
fn is_answered(alloc: Global, spec: &mut Spec, change: &Change, errno: Errno) -> bool
    requires { IsChange change.now }
{
    let number = None;
    spec.change(alloc, change) == Ok(Changed { errno, number })
}

/// Whether the changes are answered so, and whether transfers are tested so before and after them.
fn is_set(alloc: Global, spec: &mut Spec, errnos: (Errno, Errno), tests: (bool, bool)) -> bool {
    let is_so = spec.tests_transfers() == tests.0;
    let is_first = is_answered(alloc, spec, &Change::FirstMatch(false), errnos.0);
    let is_second = is_answered(alloc, spec, &Change::Revocation(true), errnos.1);
    is_so && is_first && is_second && spec.tests_transfers() == tests.1
}

/// Whether the spec is that of MLS, which has no settings.
fn is_mls(spec: &Spec) -> bool {
    spec.same(&Spec::Mls)
}

/// The same of the module's initial spec; that of MLS stays as it is.
fn is_set_anew(alloc: Global, setting: &Setting) -> Result<bool, AllocError> {
    let (module, first_match, revocation, after) = *setting;
    let mut spec = Spec::fresh(alloc, module)?;
    let tests = (module != Module::Biba, after);
    let is_set = is_set(alloc, &mut spec, (first_match, revocation), tests);
    Ok(is_set && is_mls(&spec) == (module == Module::Mls))
}

fn settings_of_modules(alloc: Global) -> bool {
    let mut is_so = true;
    for setting in SETTINGS {
        is_so &= holds(is_set_anew(alloc, setting));
    }
    is_so
}

/// The registration of Biba, at boot and first.
const BIBA: Registration = Registration {
    module: Module::Biba,
    slot: Some(0),
    fixed: true,
};

/// Puts a copy of the only spec in its place.
fn puts_copy(alloc: Global, list: &mut SpecList) -> bool {
    if list.len() != 1 {
        return false;
    }
    match list.spec(0).copy(alloc) {
        Ok(copy) => {
            list.put(0, copy);
            true
        }
        Err(AllocError) => false,
    }
}

/// Whether one policy is listed, Biba as it is when it is loaded.
fn is_first(list: &SpecList) -> bool {
    if list.len() != 1 {
        return false;
    }
    let is_fresh = list.spec(0).same(&Spec::Biba { revocation: false });
    is_fresh && list.registration(0) == BIBA
}

/// Whether Biba is found, and no other.
fn is_alone(list: &SpecList) -> bool {
    let is_found = list.find(Module::Biba) == Some(0)
        && list.slot_in(Module::Biba) == Some(0)
        && list.holder(0) == Some(Module::Biba)
        && list.spec_of(Module::Biba).is_some();
    let is_other = list.find(Module::Mls).is_some()
        || list.slot_in(Module::Mls).is_some()
        || list.holder(1).is_some()
        || list.spec_of(Module::Mls).is_some()
        || list.lomac_slot().is_some();
    is_found && !is_other
}

/// Lists Biba, and takes it away.
fn comes_and_goes(alloc: Global, list: &mut SpecList) -> bool {
    let is_listed = list.list(BIBA, Spec::Biba { revocation: false }).is_ok();
    let is_there = is_listed && puts_copy(alloc, list) && is_first(list) && is_alone(list);
    list.unlist(Module::Biba);
    is_there && list.is_empty() && !list.is_listed(Module::Biba)
}

fn specs_come_and_go(alloc: Global) -> bool {
    comes_and_goes(alloc, &mut SpecList::new(alloc))
}

#[test]
fn specs_and_their_settings(rt: HostRuntime) {
    wants(&rt, "settings", settings_of_modules(rt.alloc()));
    wants(&rt, "mac_biba", specs_come_and_go(rt.alloc()));
}
