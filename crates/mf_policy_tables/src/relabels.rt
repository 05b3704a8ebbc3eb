//! Requests to change labels: which of them are claimed, and the labels after them.

use crate::asked::{grade, wants};
use crate::growths::list;
use Value::{Alone, Number, Ranged, Unset};
use mf_elem::{LabelValue, RangeLabel, Request, SLOTS};
use mf_errno::Module;
use mf_item::Kind;
use mf_labeltext::read_request;
use mf_policy::{SpecList, relabelled, sets_value, value_after};
use std::alloc::Global;

/// A text for an entity of a kind, and whether the listed policies claim what it asks.
type Claim = (&'static str, Kind, bool);

/// Claims of Biba and mac_partition.
const CLAIMS: &[Claim] = &[
    ("biba/5(1-9),partition/7", Kind::Process, true),
    ("partition/none", Kind::Process, true),
    ("partition/7", Kind::Socket, false),
    ("partition/none", Kind::Vnode, false),
    ("biba/5(1-9)", Kind::Vnode, true),
    ("biba/5", Kind::Pipe, true),
    ("biba/5,mls/low", Kind::Process, false),
    ("biba/5,lomac/low", Kind::Process, false),
    ("biba/5,foo/low", Kind::Process, false),
];

/// Claims of Biba and LOMAC: it takes requests for every kind.
const CLAIMS_OF_LOMAC: &[Claim] = &[
    ("lomac/5,biba/7", Kind::Process, true),
    ("lomac/5,mls/7", Kind::Process, false),
    ("lomac/5,biba/7", Kind::Vnode, true),
    ("lomac/5,mls/7", Kind::Vnode, false),
    ("lomac/5,biba/7", Kind::Pipe, true),
    ("lomac/5,mls/7", Kind::Pipe, false),
    ("lomac/5,biba/7", Kind::Socket, true),
    ("lomac/5,mls/7", Kind::Socket, false),
];

/// Claims of Biba alone: an unlisted partition is not claimed.
const CLAIMS_OF_BIBA: &[Claim] = &[
    ("partition/none", Kind::Process, false),
    ("biba/5", Kind::Process, true),
];

/// Whether the listed policies claim what the text asks for an entity of that kind; None for what is no label text.
fn claims(listed: &SpecList, text: &str, kind: Kind) -> Option<bool> {
    match read_request(text) {
        Ok(request) => Some(listed.claims(kind, &request)),
        Err(_) => None,
    }
}

/// The text of the first claim that isn't so, or none.
fn wrong_claim(listed: &SpecList, rows: &[Claim]) -> Option<&'static str> {
    for (text, kind, claimed) in rows {
        if claims(listed, text, *kind) != Some(*claimed) {
            return Some(text);
        }
    }
    None
}

/// The value of a slot, as rows have it.
enum Value {
    Unset,
    Number(u32),
    /// A grade without a range.
    Alone(u16),
    /// A grade with the range from the second to the third.
    Ranged(u16, u16, u16),
}

fn value_of(value: &Value) -> LabelValue {
    match value {
        Unset => LabelValue::Unset,
        Number(number) => LabelValue::Number(*number),
        Alone(effective) => LabelValue::Range(RangeLabel::effective(grade(*effective))),
        Ranged(effective, low, high) => {
            LabelValue::Range(RangeLabel::ranged(grade(*effective), grade(*low), grade(*high)))
        }
    }
}

/// The value of a slot after what the request asks, by the policy that holds it.
fn value_in(listed: &SpecList, request: &Request, slot: u8, before: LabelValue) -> LabelValue {
    match listed.holder(slot) {
        Some(module) if sets_value(module, request) => value_after(module, request, &before),
        _ => before,
    }
}

/// The label after what the request asks, by the values of its slots.
fn values_in(
    listed: &SpecList,
    request: &Request,
    before: [LabelValue; SLOTS],
) -> [LabelValue; SLOTS] {
    let [first, second, third, fourth] = before;
    [
        value_in(listed, request, 0, first),
        value_in(listed, request, 1, second),
        value_in(listed, request, 2, third),
        value_in(listed, request, 3, fourth),
    ]
}

/// A label with these values in the first two slots, whose third slot nobody holds.
fn labelled(values: &[Value; 2]) -> [LabelValue; SLOTS] {
    let [first, second] = values;
    let (first, second) = (value_of(first), value_of(second));
    [first, second, LabelValue::Number(9), LabelValue::Unset]
}

/// Whether a label is so after what is asked, as a whole and in each slot.
fn becomes(
    listed: &SpecList,
    request: &Request,
    before: &[LabelValue; SLOTS],
    after: &[LabelValue; SLOTS],
) -> bool {
    relabelled(listed, request, before) == *after && values_in(listed, request, *before) == *after
}

/// A text, and the values of the first two slots before and after what it asks.
type Row = (&'static str, [Value; 2], [Value; 2]);

/// The text of the first relabel that isn't so, or none.
fn wrong_relabel(listed: &SpecList, rows: &[Row]) -> Option<&'static str> {
    for (text, before, after) in rows {
        let becomes = match read_request(text) {
            Ok(request) => becomes(listed, &request, &labelled(before), &labelled(after)),
            Err(_) => false,
        };
        if !becomes {
            return Some(text);
        }
    }
    None
}

/// Relabels of values of Biba and of mac_partition: what isn't asked stays, and an unset value is set.
const PARTITIONS: &[Row] = &[
    (
        "biba/7",
        [Ranged(10, 5, 20), Number(3)],
        [Ranged(7, 5, 20), Number(3)],
    ),
    (
        "biba/(6-18)",
        [Ranged(10, 5, 20), Number(3)],
        [Ranged(10, 6, 18), Number(3)],
    ),
    (
        "biba/7(6-18),partition/7",
        [Ranged(10, 5, 20), Number(3)],
        [Ranged(7, 6, 18), Number(7)],
    ),
    (
        "partition/none",
        [Ranged(10, 5, 20), Number(3)],
        [Ranged(10, 5, 20), Number(3)],
    ),
    (
        "mls/7(6-18)",
        [Ranged(10, 5, 20), Number(3)],
        [Ranged(10, 5, 20), Number(3)],
    ),
    ("partition/none", [Unset, Unset], [Unset, Unset]),
    ("partition/7", [Unset, Unset], [Unset, Number(7)]),
    ("biba/7", [Unset, Unset], [Alone(7), Unset]),
    ("mls/7", [Unset, Unset], [Unset, Unset]),
];

/// Relabels of values of Biba and of LOMAC, which has an element alone.
const ELEMENTS: &[Row] = &[
    (
        "lomac/7",
        [Ranged(10, 5, 20), Alone(9)],
        [Ranged(10, 5, 20), Alone(7)],
    ),
    (
        "lomac/7",
        [Ranged(10, 5, 20), Unset],
        [Ranged(10, 5, 20), Alone(7)],
    ),
    (
        "biba/7,partition/3",
        [Ranged(10, 5, 20), Alone(9)],
        [Ranged(7, 5, 20), Alone(9)],
    ),
    (
        "lomac/7,biba/6",
        [Ranged(10, 5, 20), Alone(9)],
        [Ranged(6, 5, 20), Alone(7)],
    ),
];

/// Whether the claims are so where Biba is listed alone, and these and the relabels where another module is listed too.
fn are_relabelled(
    alloc: Global,
    specs: &mut SpecList,
    other: Module,
    claims: &[Claim],
    relabels: &[Row],
) -> bool {
    let is_first = list(alloc, specs, Module::Biba, Some(0)).is_ok();
    let is_alone = wrong_claim(specs, CLAIMS_OF_BIBA).is_none();
    let is_second = list(alloc, specs, other, Some(1)).is_ok();
    let are_claimed = wrong_claim(specs, claims).is_none();
    is_first && is_alone && is_second && are_claimed && wrong_relabel(specs, relabels).is_none()
}

/// The same from an empty list on.
fn are_relabelled_beside(alloc: Global, other: Module, claims: &[Claim], relabels: &[Row]) -> bool {
    are_relabelled(alloc, &mut SpecList::new(alloc), other, claims, relabels)
}

#[test]
fn claims_and_relabels(rt: HostRuntime) {
    let partition = are_relabelled_beside(rt.alloc(), Module::Partition, CLAIMS, PARTITIONS);
    wants(&rt, "biba and partition", partition);
    let lomac = are_relabelled_beside(rt.alloc(), Module::Lomac, CLAIMS_OF_LOMAC, ELEMENTS);
    wants(&rt, "biba and lomac", lomac);
}
