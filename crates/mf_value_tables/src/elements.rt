//! Compartments, elements of labels, and labels of Biba, MLS and LOMAC.

use crate::asked::wants;
use Level::{Equal, Grade, High, Low};
use mf_elem::{
    Comps, Elem, LAST_COMPARTMENT, RangeLabel, Request, dominates, has_equal, in_range, is_plain,
    is_valid, privileged, range_in_range, same_level,
};

fn first_and_last_compartment() -> bool {
    let none = Comps::empty();
    let ends = none.with(256).with(1);
    let has_both = ends.has(1) && ends.has(256) && !ends.has(2);
    let is_greater = ends.contains(&none) && !none.contains(&ends);
    has_both && is_greater && ends == none.with(1).with(256)
}

/// An element, by its compartments.
enum Level {
    Low,
    High,
    Equal,
    Grade(u16, &'static [u16]),
}

fn grade(grade: u16, comps: &[u16]) -> Elem {
    let mut set = Comps::empty();
    for n in comps {
        if 1 <= *n && *n <= LAST_COMPARTMENT {
            set = set.with(*n);
        }
    }
    Elem::Grade(grade, set)
}

fn element(level: &Level) -> Elem {
    match level {
        Low => Elem::Low,
        High => Elem::High,
        Equal => Elem::Equal,
        Grade(number, comps) => grade(*number, comps),
    }
}

/// Two elements, and whether the first dominates the second.
const DOMINANCE: &[(Level, Level, bool)] = &[
    (Low, Grade(0, &[]), false),
    (Grade(0, &[]), Low, true),
    (Grade(65535, &[]), High, false),
    (High, Grade(65535, &[1, 256]), true),
    (Low, Equal, true),
    (Equal, High, true),
    (Grade(5, &[1, 256]), Grade(5, &[256]), true),
    (Grade(5, &[256]), Grade(5, &[1, 256]), false),
    (Grade(5, &[1]), Grade(9, &[2]), false),
    (Grade(9, &[2]), Grade(5, &[1]), false),
];

fn dominance_cell_by_cell() -> bool {
    let mut holds = true;
    for (a, b, answer) in DOMINANCE {
        holds &= dominates(&element(a), &element(b)) == *answer;
    }
    holds
}

/// Elements, and whether each is one without compartments.
const PLAIN: &[(Level, bool)] = &[
    (Low, true),
    (High, true),
    (Equal, true),
    (Grade(0, &[]), true),
    (Grade(65535, &[]), true),
    (Grade(5, &[1]), false),
    (Grade(5, &[256]), false),
];

fn elements_without_compartments() -> bool {
    let mut holds = true;
    for (level, plain) in PLAIN {
        holds &= is_plain(&element(level)) == *plain;
    }
    holds
}

/// Two elements, and whether they are of one level.
const LEVELS: &[(Level, Level, bool)] = &[
    (Grade(5, &[1]), Grade(5, &[2]), false),
    (Grade(5, &[1]), Grade(9, &[2]), false),
    (Equal, Low, true),
];

fn same_levels() -> bool {
    let mut holds = true;
    for (a, b, answer) in LEVELS {
        holds &= same_level(&element(a), &element(b)) == *answer;
    }
    holds
}

#[test]
fn compartments_and_elements(rt: HostRuntime) {
    wants(&rt, "compartments", first_and_last_compartment());
    wants(&rt, "dominance", dominance_cell_by_cell());
    wants(&rt, "plain elements", elements_without_compartments());
    wants(&rt, "levels", same_levels());
}

/// The request for that grade.
fn asked(number: u16) -> Request {
    let mut request = Request::none();
    request.lomac = Some(grade(number, &[]));
    request
}

fn requests_that_differ_in_lomac() -> bool {
    let five = asked(5);
    let is_other = five.same(&asked(9)) || five.same(&Request::none());
    five.same(&five) && !is_other
}

fn label_of_mac_biba_4() -> bool {
    let low = grade(5, &[2, 3]);
    let high = grade(20, &[2, 3, 4, 5, 6]);
    let label = RangeLabel::ranged(grade(10, &[2, 3, 6]), low, high);
    let is_ranged = range_in_range(&low, &high, &Elem::Low, &Elem::High);
    let is_outside = !in_range(&grade(10, &[2, 7]), &low, &high);
    is_valid(&label) && !privileged(&label) && is_ranged && is_outside
}

fn exempt_labels() -> bool {
    let whole = RangeLabel::ranged(Elem::High, Elem::Low, Elem::High);
    let equal = RangeLabel::effective(Elem::Equal);
    let is_whole = privileged(&whole) && !has_equal(&whole);
    is_whole && has_equal(&equal) && whole.replaced_by(&Some(equal)).range == whole.range
}

#[test]
fn labels_and_requests(rt: HostRuntime) {
    wants(&rt, "requests", requests_that_differ_in_lomac());
    wants(&rt, "the label of mac_biba(4)", label_of_mac_biba_4());
    wants(&rt, "exempt labels", exempt_labels());
}
