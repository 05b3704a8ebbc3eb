//! Label texts: their faults, what they ask for, and the texts that are printed.

use crate::asked::{holds, wants};
use mf_elem::{Comps, Elem, LabelValue, RangeLabel, Request};
use mf_errno::Module;
use mf_labeltext::{LabelFault, policy_name, print_elem, print_label, read_request};
use std::alloc::{AllocError, Global};

/// Texts that are no labels, each with its first fault.
const FAULTS: &[(&str, LabelFault)] = &[
    ("biba/5,mls", LabelFault::NoSlash(7)),
    ("/x", LabelFault::NoSlash(0)),
    ("Biba/5", LabelFault::NoSlash(0)),
    ("biba/", LabelFault::BadValue(5)),
    ("biba/65536", LabelFault::BadValue(5)),
    ("biba/5:", LabelFault::BadValue(5)),
    ("biba/5:0", LabelFault::BadValue(5)),
    ("biba/5:1+257", LabelFault::BadValue(5)),
    ("biba/(1-2", LabelFault::BadValue(5)),
    ("biba/5,partition/2147483648", LabelFault::BadValue(17)),
    ("lomac/5:1", LabelFault::BadValue(6)),
    ("lomac/(1-2)", LabelFault::BadValue(6)),
    ("mls/2,lomac/", LabelFault::BadValue(12)),
    ("mls/é", LabelFault::BadValue(4)),
    ("biba/5,,mls/2", LabelFault::EmptyElement(7)),
    ("", LabelFault::EmptyElement(0)),
];

/// Texts, and the canonical text of what each asks for. The last six are from mac_biba(4), mac_mls(4) and mac_partition(4).
const CANONICAL: &[(&str, &str)] = &[
    (
        "biba/010:3+2+06(5:2+3-20:6+5+4+3+2)",
        "biba/10:2+3+6(5:2+3-20:2+3+4+5+6)",
    ),
    (
        "partition/00,mls/hi,biba/(lo-65535)",
        "biba/(low-65535),mls/high,partition/none",
    ),
    ("partition/1,lomac/hi,mls/5", "mls/5,lomac/high,partition/1"),
    ("lomac/010", "lomac/10"),
    ("foo/x", "-"),
    (
        "biba/10:2+3+6(5:2+3-20:2+3+4+5+6)",
        "biba/10:2+3+6(5:2+3-20:2+3+4+5+6)",
    ),
    ("biba/10(5-15)", "biba/10(5-15)"),
    ("biba/high(low-high)", "biba/high(low-high)"),
    ("biba/low(low-low)", "biba/low(low-low)"),
    (
        "mls/10:2+3+6(5:2+3-20:2+3+4+5+6)",
        "mls/10:2+3+6(5:2+3-20:2+3+4+5+6)",
    ),
    ("partition/1", "partition/1"),
];

/// Texts that ask for a policy that has no labels here.
const OTHERS: &[&str] = &["foo/x", "foo/", "foo//x", "foo/é"];

fn faults_and_their_places() -> bool {
    let mut holds = true;
    for (text, fault) in FAULTS {
        holds &= read_request(text) == Err(*fault);
    }
    holds
}

fn last_element_counts() -> bool {
    let mut wanted = Request::none();
    wanted.biba = Some(RangeLabel::effective(Elem::Equal));
    read_request("biba/1(0-9),biba/eq") == Ok(wanted)
}

fn other_policies() -> bool {
    let mut wanted = Request::none();
    wanted.other = true;
    let mut holds = true;
    for text in OTHERS {
        holds &= read_request(text) == Ok(wanted);
    }
    holds
}

/// The parts of a label that the request asks for.
fn parts_of(alloc: Global, request: &Request) -> Result<Vec<(Module, LabelValue)>, AllocError> {
    let mut parts = Vec::new(alloc);
    if let Some(label) = request.biba {
        parts.push((Module::Biba, LabelValue::Range(label)))?;
    }
    if let Some(label) = request.mls {
        parts.push((Module::Mls, LabelValue::Range(label)))?;
    }
    if let Some(element) = request.lomac {
        let label = RangeLabel::effective(element);
        parts.push((Module::Lomac, LabelValue::Range(label)))?;
    }
    if let Some(number) = request.partition {
        parts.push((Module::Partition, LabelValue::Number(number)))?;
    }
    Ok(parts)
}

/// The canonical text of what the text asks for.
fn canonical_of(alloc: Global, text: &str) -> Result<String, AllocError> {
    let mut out = String::new(alloc);
    if let Ok(request) = read_request(text) {
        let parts = parts_of(alloc, &request)?;
        print_label(alloc, parts.as_slice(), &mut out)?;
    }
    Ok(out)
}

fn canonical_labels(alloc: Global) -> Result<bool, AllocError> {
    for (text, canonical) in CANONICAL {
        if canonical_of(alloc, text)?.as_str() != *canonical {
            return Ok(false);
        }
    }
    Ok(true)
}

/// Appends an element to the text, which is "low,".
fn is_appended(out: &mut String) -> bool {
    let element = Elem::Grade(10, Comps::empty().with(256).with(2));
    print_elem(&element, out).is_ok() && out.as_str() == "low,10:2+256"
}

fn elements_are_appended(alloc: Global) -> Result<bool, AllocError> {
    let mut out = String::from_str(alloc, "low,")?;
    Ok(is_appended(&mut out))
}

#[test]
fn texts_of_labels(rt: HostRuntime) {
    wants(&rt, "faults", faults_and_their_places());
    wants(&rt, "the last", last_element_counts());
    wants(&rt, "other policies", other_policies());
    wants(&rt, "canonical labels", holds(canonical_labels(rt.alloc())));
    wants(&rt, "elements", holds(elements_are_appended(rt.alloc())));
    let are_named = policy_name(Module::Mls) == "mls" && policy_name(Module::Lomac) == "lomac";
    wants(&rt, "names", are_named);
}
