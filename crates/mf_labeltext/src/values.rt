//! The values of label elements: elements with grades and compartments, ranges, and partition numbers.
ghost use Rattle.std.specs.Prelude.{◌≡◌, ◌≤◌, IfSome, IsTrue};
ghost use Rattle.mf_labeltext.specs.Reading.{number, comps_in, grade_in, elem_in, effective_in, range_in, label_in, plain_in, partition_in};

use crate::splitting::split_once;
use mf_elem::{Comps, Elem, LAST_COMPARTMENT, LAST_GRADE, LAST_PARTITION, RangeLabel, is_plain};
use mf_text::read_number;

#[tactic(auto, unfolding(crate::specs::Reading::number))]
fn read_grade_number(text: &str) -> Option<u16>
    ensures { result ≡ number 0 LAST_GRADE text.now }
{
    match read_number(text, 0, u32::from(LAST_GRADE)) {
        Ok(grade) => Some(grade as u16),
        Err(_) => None,
    }
}

#[tactic(auto, unfolding(crate::specs::Reading::number))]
fn read_compartment(text: &str) -> Option<u16>
    ensures value { result ≡ number 1 LAST_COMPARTMENT text.now }
    ensures within { IfSome result (λ n. (1 ≤ n) × (n ≤ LAST_COMPARTMENT)) }
{
    match read_number(text, 1, u32::from(LAST_COMPARTMENT)) {
        Ok(n) => Some(n as u16),
        Err(_) => None,
    }
}

/// The compartments of a list with a plus between each two.
#[tactic(auto, unfolding(crate::specs::Reading::comps_in))]
fn read_comps(text: &str) -> Option<Comps>
    ensures { result ≡ comps_in text.now }
{
    let mut comps = Comps::empty();
    let mut rest = text;
    while let Some((first, after)) = split_once(rest, '+') {
        comps = comps.with(read_compartment(first)?);
        rest = after;
    }
    Some(comps.with(read_compartment(rest)?))
}

#[tactic(auto, unfolding(crate::specs::Reading::grade_in))]
fn read_grade(text: &str) -> Option<Elem>
    ensures { result ≡ grade_in text.now }
{
    match split_once(text, ':') {
        None => Some(Elem::Grade(read_grade_number(text)?, Comps::empty())),
        Some((grade, comps)) => Some(Elem::Grade(read_grade_number(grade)?, read_comps(comps)?)),
    }
}

/// Whether the text begins as a grade does. No word for an element begins with a digit.
fn begins_with_digit(text: &str) -> bool
    ensures { IsTrue result → elem_in text.now ≡ grade_in text.now }
{
    match text.as_bytes().first() {
        Some(byte) => byte.is_ascii_digit(),
        None => false,
    }
}

fn read_elem(text: &str) -> Option<Elem>
    ensures { result ≡ elem_in text.now }
{
    // Most elements are grades, and so they are compared with no word.
    if begins_with_digit(text) {
        read_grade(text)
    } else {
        read_named_elem(text)
    }
}

#[tactic(auto, unfolding(crate::specs::Reading::elem_in))]
fn read_named_elem(text: &str) -> Option<Elem>
    ensures { result ≡ elem_in text.now }
{
    if text == "low" || text == "lo" {
        Some(Elem::Low)
    } else if text == "high" || text == "hi" {
        Some(Elem::High)
    } else if text == "equal" || text == "eq" {
        Some(Elem::Equal)
    } else {
        read_grade(text)
    }
}

/// The ends of a range. The text begins after its opening parenthesis.
#[tactic(auto, unfolding(crate::specs::Reading::range_in))]
fn read_range(text: &str) -> Option<(Elem, Elem)>
    ensures { result ≡ range_in text.now }
{
    let (low, rest) = split_once(text, '-')?;
    let (high, rest) = split_once(rest, ')')?;
    if !rest.is_empty() {
        return None;
    }
    Some((read_elem(low)?, read_elem(high)?))
}

fn read_effective(text: &str) -> Option<Option<Elem>>
    ensures { result ≡ effective_in text.now }
{
    if text.is_empty() {
        return Some(None);
    }
    Some(Some(read_elem(text)?))
}

/// The value of a Biba or MLS element.
#[tactic(auto, unfolding(crate::specs::Reading::label_in))]
pub fn read_label(text: &str) -> Option<RangeLabel>
    ensures { result ≡ label_in text.now }
{
    match split_once(text, '(') {
        None => Some(RangeLabel::effective(read_elem(text)?)),
        Some((effective, range)) => Some(RangeLabel {
            effective: read_effective(effective)?,
            range: Some(read_range(range)?),
        }),
    }
}

/// The value of a LOMAC element.
#[tactic(auto, unfolding(crate::specs::Reading::plain_in))]
pub fn read_plain(text: &str) -> Option<Elem>
    ensures { result ≡ plain_in text.now }
{
    let element = read_elem(text)?;
    if !is_plain(&element) {
        return None;
    }
    Some(element)
}

/// The value of a partition element.
#[tactic(auto, unfolding(crate::specs::Reading::partition_in, crate::specs::Reading::number))]
pub fn read_partition(text: &str) -> Option<u32>
    ensures { result ≡ partition_in text.now }
{
    if text == "none" {
        return Some(0);
    }
    read_number(text, 0, LAST_PARTITION).ok()
}
