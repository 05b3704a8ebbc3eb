//! Where checks that passed lowered their caller by mac_lomac(4).
ghost use Rattle.std.specs.Prelude.{◌≡◌, ◌++◌, codes, string_bytes, OnOk, OnErr};
ghost use Rattle.std.specs.Fmt.{decimal};
ghost use Rattle.std.specs.Option.{option_copied};
ghost use Rattle.mf_text.specs.Appending.{Extends};
ghost use Rattle.mf_labeltext.specs.Canonical.{elem_text};
ghost use Rattle.mf_why.specs.Lowerings as lowerings;
ghost use Rattle.mf_why.specs.Lines as spec;

use crate::titles::{push_head, push_last, push_number, push_subject};
use mf_elem::{Elem, dominates};
use mf_item::Item;
use mf_labeltext::print_elem;
use mf_objects::Objects;
use mf_policy::{element_in, lowers};
use std::alloc::AllocError;

/// The element that a subject of mac_lomac(4) had before a check, and the one that is left.
#[derive(Clone, Copy)]
pub struct Lowering {
    before: Elem,
    left: Elem,
}

/// The line of a check of that number which passed, where it lowered its subject.
pub fn push_lowered(
    objects: &Objects,
    place: &str,
    slot: u8,
    number: u32,
    item: &Item,
    text: &mut String,
) -> Result<(), AllocError>
    ensures ok { OnOk result (string_bytes text.new ≡ string_bytes text.old
        ++ spec.lowered_text objects.now place.now slot number item.now) }
    ensures err { OnErr result (Extends (string_bytes text.old) (string_bytes text.new)) }
{
    match lowering_of(slot, item) {
        None => Ok(()),
        Some(lowering) => push_lowering(objects, place, number, item, &lowering, text),
    }
}

fn push_lowering(
    objects: &Objects,
    place: &str,
    number: u32,
    item: &Item,
    lowering: &Lowering,
    text: &mut String,
) -> Result<(), AllocError>
    ensures ok { OnOk result (string_bytes text.new ≡ string_bytes text.old
        ++ spec.lowering_text objects.now place.now number item.now lowering.now) }
    ensures err { OnErr result (Extends (string_bytes text.old) (string_bytes text.new)) }
{
    push_head("lowered", place, text)?;
    push_lowered_subject(objects, number, item, text)?;
    push_elements(lowering, text)?;
    push_last(objects, item, text)
}

fn push_lowered_subject(
    objects: &Objects,
    number: u32,
    item: &Item,
    text: &mut String,
) -> Result<(), AllocError>
    ensures ok { OnOk result (string_bytes text.new ≡ string_bytes text.old
        ++ (decimal number ++ codes " " ++ spec.subject_title objects.now item.now ++ codes " ")) }
    ensures err { OnErr result (Extends (string_bytes text.old) (string_bytes text.new)) }
{
    push_number(number, text)?;
    push_subject(objects, item, text)
}

fn push_elements(lowering: &Lowering, text: &mut String) -> Result<(), AllocError>
    ensures ok { OnOk result (string_bytes text.new ≡ string_bytes text.old
        ++ (elem_text lowering.now.before ++ codes " " ++ elem_text lowering.now.left
        ++ codes " ")) }
    ensures err { OnErr result (Extends (string_bytes text.old) (string_bytes text.new)) }
{
    push_element(&lowering.before, text)?;
    push_element(&lowering.left, text)
}

fn push_element(element: &Elem, text: &mut String) -> Result<(), AllocError>
    ensures ok { OnOk result (string_bytes text.new
        ≡ string_bytes text.old ++ (elem_text element.now ++ codes " ")) }
    ensures err { OnErr result (Extends (string_bytes text.old) (string_bytes text.new)) }
{
    print_elem(element, text)?;
    text.push_str(" ")
}

/// How a check that passed lowers its subject: it observes an object whose element doesn't dominate its own.
fn lowering_of(slot: u8, item: &Item) -> Option<Lowering>
    ensures { result ≡ lowerings.lowering_of slot item.now }
{
    if !lowers(item.op()) {
        return None;
    }
    let value = item.subject().label.get(slot as usize)?;
    let seen = item.object()?.label.get(slot as usize)?;
    lowering_by(element_in(value), element_in(seen))
}

fn lowering_by(own: Option<&Elem>, seen: Option<&Elem>) -> Option<Lowering>
    ensures { result ≡ lowerings.lowering_by (option_copied own.entry) (option_copied seen.entry) }
{
    match (own, seen) {
        (Some(own), Some(seen)) if !dominates(seen, own) => Some(Lowering {
            before: *own,
            left: *seen,
        }),
        _ => None,
    }
}
