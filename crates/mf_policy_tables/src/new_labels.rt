//! The labels of new entities.

use crate::asked::{grade, wants};
use mf_elem::{Elem, LabelValue, RangeLabel, Request, SLOTS};
use mf_errno::Module;
use mf_item::Kind;
use mf_policy::{Origin, Registration, Spec, SpecList, labels_kind, may_ask, new_label};
use std::alloc::Global;

/// The registration of MLS, at boot and second.
const MLS: Registration = Registration {
    module: Module::Mls,
    slot: Some(1),
    fixed: true,
};

/// The label of a process at boot, which has a range from low to high.
const WHOLE: LabelValue = LabelValue::Range(RangeLabel {
    effective: Some(Elem::Low),
    range: Some((Elem::Low, Elem::High)),
});

/// That of a file that it makes.
const LOW: LabelValue = LabelValue::Range(RangeLabel {
    effective: Some(Elem::Low),
    range: None,
});

/// Whether the label of a process at boot and that of a file that a child of such a process makes are so by MLS.
fn are_labelled_by_mls(list: &SpecList) -> bool {
    let boot = Origin::Boot(Request::none());
    let [_, process, _, _] = new_label(list, Kind::Process, &boot);
    let [unset, file, _, _] = new_label(list, Kind::Vnode, &Origin::Maker([process; SLOTS]));
    process.same(&WHOLE) && unset.same(&LabelValue::Unset) && file.same(&LOW)
}

fn mls_labels(alloc: Global) -> bool {
    let mut list = SpecList::new(alloc);
    list.list(MLS, Spec::Mls).is_ok() && are_labelled_by_mls(&list)
}

/// The registration of LOMAC, at boot and first.
const LOMAC: Registration = Registration {
    module: Module::Lomac,
    slot: Some(0),
    fixed: true,
};

/// Whether such an entity has this element by LOMAC, which labels entities of its kind.
fn is_labelled(list: &SpecList, kind: Kind, origin: &Origin, wanted: Elem) -> bool {
    let [value, _, _, unset] = new_label(list, kind, origin);
    let wanted = LabelValue::Range(RangeLabel::effective(wanted));
    let labels = labels_kind(Module::Lomac, kind) && may_ask(Module::Lomac, kind, &asks_five());
    value.same(&wanted) && unset.same(&LabelValue::Unset) && labels
}

/// The request for the grade 5.
fn asks_five() -> Request {
    let mut request = Request::none();
    request.lomac = Some(grade(5));
    request
}

/// Whether two entities of these kinds have this element.
fn are_labelled(list: &SpecList, kinds: (Kind, Kind), origin: &Origin, wanted: Elem) -> bool {
    is_labelled(list, kinds.0, origin, wanted) && is_labelled(list, kinds.1, origin, wanted)
}

/// Whether the labels of a process and of a file at boot, of a child, and of a pipe that a process makes are so by LOMAC.
fn are_labelled_by_lomac(list: &SpecList) -> bool {
    let at_boot = (Kind::Process, Kind::Vnode);
    let made = Origin::Maker([LabelValue::Range(RangeLabel::effective(grade(9))); SLOTS]);
    list.lomac_slot() == Some(0)
        && are_labelled(list, at_boot, &Origin::Boot(Request::none()), Elem::High)
        && are_labelled(list, at_boot, &Origin::Boot(asks_five()), grade(5))
        && are_labelled(list, (Kind::Process, Kind::Pipe), &made, grade(9))
}

fn lomac_labels(alloc: Global) -> bool {
    let mut list = SpecList::new(alloc);
    list.list(LOMAC, Spec::Lomac).is_ok() && are_labelled_by_lomac(&list)
}

#[test]
fn labels_of_new_entities(rt: HostRuntime) {
    wants(&rt, "mac_mls", mls_labels(rt.alloc()));
    wants(&rt, "mac_lomac", lomac_labels(rt.alloc()));
}
