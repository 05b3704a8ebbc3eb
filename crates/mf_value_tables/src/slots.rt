//! Slot numbers, and labels in their zones.

use crate::asked::{holds, wants};
use mf_elem::LabelValue::{Number, Unset};
use mf_slots::{Label, SlotNumbers, Zones};
use std::alloc::{AllocError, Global};

/// The numbers that are given, until there are none.
const GIVEN: &[Option<u8>] = &[Some(0), Some(1), Some(2), Some(3), None];

fn slots_run_out() -> bool {
    let mut numbers = SlotNumbers::new();
    let mut holds = true;
    for wanted in GIVEN {
        holds &= numbers.take() == *wanted;
    }
    holds && numbers.given() == 4
}

/// Whether two labels keep their own values in the slot that both have.
fn makes_two(zones: &mut Zones) -> Result<bool, AllocError> {
    let first = zones.make_label(&[Number(1), Unset, Unset, Number(1)])?;
    let second = zones.make_label(&[Number(2), Number(2), Unset, Unset])?;
    let are_made = first.is_made(3) && !first.is_made(1);
    let (one, two) = (zones.value(&first, 0), zones.value(&second, 0));
    let held = [zones.held(0), zones.held(1), zones.held(2)];
    Ok(are_made && one == Number(1) && two == Number(2) && held == [2, 1, 0])
}

fn two_labels_share_a_zone(alloc: Global) -> Result<bool, AllocError> {
    let mut zones = Zones::new(alloc)?;
    makes_two(&mut zones)
}

/// Whether a slot is made, set and given up.
fn lives(zones: &mut Zones) -> Result<bool, AllocError> {
    let mut label = Label::new();
    zones.make(&mut label, 2, Number(1))?;
    zones.set(&label, 2, Number(2));
    let is_set = zones.value(&label, 2) == Number(2) && zones.held(2) == 1;
    zones.give_up(label);
    Ok(is_set && zones.held(2) == 0)
}

fn a_slot_through_its_life(alloc: Global) -> Result<bool, AllocError> {
    let mut zones = Zones::new(alloc)?;
    lives(&mut zones)
}

#[test]
fn slots_and_labels(rt: HostRuntime) {
    wants(&rt, "slots run out", slots_run_out());
    wants(
        &rt,
        "two labels",
        holds(two_labels_share_a_zone(rt.alloc())),
    );
    wants(&rt, "a slot", holds(a_slot_through_its_life(rt.alloc())));
}

/// Whether the label holds the first of the values that it is given, or those after a growth.
fn has_values(zones: &Zones, label: &Label, is_grown: bool) -> bool {
    if is_grown {
        zones.holds(label, &[Number(2), Number(2), Number(1), Unset])
    } else {
        zones.holds(label, &[Number(1), Number(2), Unset, Unset])
    }
}

/// Makes a second label, and gives the first a value more; where one is refused, the first holds what it held, and it is done once more.
fn grow_or_stay(zones: &mut Zones) -> Result<bool, AllocError> {
    let mut first = zones.make_label(&[Number(1), Number(2), Unset, Unset])?;
    let second = zones.make_label(&[Number(2), Unset, Unset, Number(1)]);
    let is_made = has_values(zones, &first, false);
    let growth = [Number(2), Unset, Number(1), Unset];
    let mut has_stayed = true;
    if zones.relabel(&mut first, &growth).is_err() {
        has_stayed = has_values(zones, &first, false);
        zones.relabel(&mut first, &growth)?;
    }
    let is_grown = has_values(zones, &first, true);
    let is_second = zones.holds(&second?, &[Number(2), Unset, Unset, Number(1)]);
    Ok(is_made && has_stayed && is_grown && is_second)
}

fn grow_and_stay(alloc: Global) -> Result<bool, AllocError> {
    let mut zones = Zones::new(alloc)?;
    grow_or_stay(&mut zones)
}

#[test]
fn labels_after_refused_growths(rt: HostRuntime) -> Result<(), AllocError> {
    let is_so = grow_and_stay(rt.alloc())?;
    wants(&rt, "labels", is_so);
    Ok(())
}
