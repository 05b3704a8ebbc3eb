//! Zones of label values over slabs, whose keys are the handles that labels hold.
ghost use Rattle.std.specs.Prelude.{◌≡◌, ◌≢◌, ◌<◌, ◌≤◌, ◌↔◌, [], ◌∷◌, Some, None, OnOk, OnErr, IfOk, IsOk, IsTrue, IsSome, replicate, option_copied, unwrap_or, ℕ};
ghost use Rattle.mf_elem.specs.declared.label.TheConstants.{SLOTS};
ghost use Rattle.slab.specs.Slab.{slab_len};
ghost use Rattle.mf_slots.specs.Zones.{IsHeld, IsIn, IsMadeAt, IsHeldAt, Makes, MakesLabel, SetsAt, Frees, GivesUp, handle, held_in, value_under, slot_value, value_for, label_values, given, given_to, Adds, Updates, Relabels, Rewrites, AreMade, IsMadeFor, HasRoomForOne, HasRoomToWrite, value_count};
ghost use Rattle.mf_slots.specs.declared.zones.TheConstants.{MOST_HELD};
ghost use Rattle.mf_elem.specs.declared.label.LabelValue.TheVariants.{Unset};

use mf_elem::{LabelValue, SLOTS};
use slab::Slab;
use std::alloc::{AllocError, Global};
use std::marker::Model;

/// The most values that a zone holds: as many as `held` can count. In a zone that holds them memory has run out.
pub const MOST_HELD: u32 = u32::MAX;

/// The zones, modelled on uma(9), from which label values come: one for each slot number.
#[derive(Drop)]
pub struct Zones {
    zones: Vec<Slab<LabelValue>>,
}

impl Model for Zones {
    ghost use Rattle.mf_elem.specs.declared.label.TheConstants.{SLOTS};
    ghost use Rattle.std.specs.Prelude.{◌≡◌, map, length};
    ghost use Rattle.mf_slots.specs.Zones.{Contents, NoneUnset, NoneOverfull};

    ghost Value = { Contents };

    ghost view = { λ a. map (λ zone. zone.slots) a.zones.items };

    ghost invariant = { λ a. let zones = map (λ zone. zone.slots) a.zones.items in
        (length a.zones.items ≡ SLOTS) × NoneUnset zones × NoneOverfull zones };
}

/// The label of an entity: for each slot that is made, the handle of its value in the zones.
#[derive(Drop)]
pub struct Label {
    handles: [Option<usize>; SLOTS],
}

impl Model for Label {
    ghost use Rattle.mf_elem.specs.declared.label.TheConstants.{SLOTS};
    ghost use Rattle.std.specs.Prelude.{◌≡◌, length};
    ghost use Rattle.mf_slots.specs.Zones.{Handles};

    ghost Value = { Handles };

    ghost view = { λ a. a.handles };

    ghost invariant = { λ a. length a.handles ≡ SLOTS };
}

impl Label {
    /// No slot is made: each is Unset.
    pub fn new() -> Label
        ensures { result ≡ replicate SLOTS None }
    {
        Label {
            handles: [None; SLOTS],
        }
    }

    /// Whether the slot is made.
    pub fn is_made(&self, slot: u8) -> bool
        requires { slot < SLOTS }
        ensures { IsTrue result ↔ IsSome (handle self.now slot) }
    {
        self.handles[slot as usize].is_some()
    }
}

impl Zones {
    /// Empty zones.
    pub fn new(alloc: Global) -> Result<Zones, AllocError>
        ensures { IfOk result (λ zones. zones ≡ replicate SLOTS []) }
    {
        let mut zones = Vec::with_capacity(alloc, SLOTS)?;
        zones.push(Slab::new(alloc))?;
        zones.push(Slab::new(alloc))?;
        zones.push(Slab::new(alloc))?;
        zones.push(Slab::new(alloc))?;
        Ok(Zones { zones })
    }

    /// Stores `value` in a slot of the label that is Unset. If memory runs out, nothing is changed.
    pub fn make(&mut self, label: &mut Label, slot: u8, value: LabelValue) -> Result<(), AllocError>
        requires slot { slot < SLOTS }
        requires unset { handle label.old slot ≡ None }
        requires value { value ≢ Unset }
        requires held { IsHeld self.old label.old }
        ensures ok { OnOk result (Makes self.old self.new label.old label.new slot value) }
        ensures err { OnErr result ((self.new ≡ self.old) × (label.new ≡ label.old)) }
    {
        let zone = &mut self.zones[slot as usize];
        let key = keep(zone, value)?;
        label.handles[slot as usize] = Some(key);
        Ok(())
    }

    /// Makes room for so many values more in the zone of each slot that the label has made.
    pub fn reserve(&mut self, label: &Label, more: usize) -> Result<(), AllocError>
        ensures { self.new ≡ self.old }
    {
        for slot in 0..SLOTS {
            let zone = &mut self.zones[slot];
            reserve_where(zone, label.handles[slot], more)?;
        }
        Ok(())
    }

    /// Makes a label with these values; a slot that is to be Unset isn't made. If memory runs out, nothing is changed.
    pub fn make_label(&mut self, values: &[LabelValue; SLOTS]) -> Result<Label, AllocError>
        ensures ok { IfOk result (λ label. MakesLabel self.old self.new label values.now) }
        ensures err { OnErr result (self.new ≡ self.old) }
    {
        let mut label = Label::new();
        self.relabel(&mut label, values)?;
        Ok(label)
    }

    /// Gives the slots of the label these values; Unset leaves a slot as it is. If memory runs out, nothing is changed. Slots
    /// that are made already take no memory.
    pub fn relabel(
        &mut self,
        label: &mut Label,
        values: &[LabelValue; SLOTS],
    ) -> Result<(), AllocError>
        requires { IsHeld self.old label.old }
        ensures ok { OnOk result (Relabels self.old self.new label.old label.new
            (given_to values.now (label_values self.old label.old))) }
        ensures made { AreMade label.old values.now → IsOk result }
        ensures err { OnErr result ((self.new ≡ self.old) × (label.new ≡ label.old)) }
    {
        for slot in 0..SLOTS {
            let zone = &mut self.zones[slot];
            make_room(zone, label.handles[slot], &values[slot])?;
        }
        for slot in 0..SLOTS {
            let zone = &mut self.zones[slot];
            label.handles[slot] = rewrite(zone, label.handles[slot], &values[slot]);
        }
        Ok(())
    }

    /// How many values lie in the zone of a slot.
    pub fn held(&self, slot: u8) -> u32
        requires { slot < SLOTS }
        ensures { result ≡ value_count self.now slot }
    {
        self.zones[slot as usize].len() as u32
    }

    /// Writes a slot that is made.
    pub fn set(&mut self, label: &Label, slot: u8, value: LabelValue)
        requires slot { slot < SLOTS }
        requires made { IsMadeAt self.old slot (handle label.now slot) }
        requires value { value ≢ Unset }
        ensures { SetsAt self.old self.new slot (handle label.now slot) value }
    {
        if let Some(key) = label.handles[slot as usize] {
            put(&mut self.zones[slot as usize], key, value);
        }
    }

    /// What a slot holds: Unset exactly where it isn't made.
    pub fn value(&self, label: &Label, slot: u8) -> LabelValue
        requires slot { slot < SLOTS }
        requires held { IsHeldAt self.now slot (handle label.now slot) }
        ensures value { result ≡ slot_value self.now label.now slot }
        ensures unset { (result ≡ Unset) ↔ (handle label.now slot ≡ None) }
    {
        match label.handles[slot as usize] {
            Some(key) => self.under(slot, key),
            None => LabelValue::Unset,
        }
    }

    /// What a slot holds, where it is made. It isn't copied.
    pub fn value_ref(&self, label: &Label, slot: u8) -> Option<&LabelValue>
        ensures value { unwrap_or (option_copied result) Unset
            ≡ slot_value self.now label.now slot }
        ensures set { option_copied result ≢ Some Unset }
        ensures slot { IsSome (option_copied result) → slot < SLOTS }
    {
        let key = (*label.handles.get(slot as usize)?)?;
        self.zones.get(slot as usize)?.get(key)
    }

    /// Whether these are the values of the label's slots, of which none is copied.
    pub fn holds(&self, label: &Label, values: &[LabelValue; SLOTS]) -> bool
        ensures { IsTrue result
            ↔ ((slot : ℕ) → slot < SLOTS
            → slot_value self.now label.now slot ≡ value_for values.now slot) }
    {
        for slot in 0..SLOTS {
            if !self.has_under(slot, label.handles[slot], &values[slot]) {
                return false;
            }
        }
        true
    }

    /// Whether the zone of a slot has this value under the key. Without a key the value is Unset.
    fn has_under(&self, slot: usize, key: Option<usize>, value: &LabelValue) -> bool
        requires { slot < SLOTS }
        ensures { IsTrue result ↔ (value_under self.now slot key ≡ value.now) }
    {
        match key {
            Some(key) => match self.zones[slot].get(key) {
                Some(found) => found.same(value),
                None => value.same(&LabelValue::Unset),
            },
            None => value.same(&LabelValue::Unset),
        }
    }

    /// Fills `values` with those of the label's slots. A value that stands there already isn't copied.
    pub fn fill(&self, label: &Label, values: &mut [LabelValue; SLOTS])
        ensures { (slot : ℕ) → slot < SLOTS
            → slot_value self.now label.now slot ≡ value_for values.new slot }
    {
        for slot in 0..SLOTS {
            self.fill_under(slot, label.handles[slot], &mut values[slot]);
        }
    }

    /// Fills `value` with what the zone of a slot has under the key, with Unset where it has nothing or there is no key.
    fn fill_under(&self, slot: usize, key: Option<usize>, value: &mut LabelValue)
        requires { slot < SLOTS }
        ensures { value_under self.now slot key ≡ value.new }
    {
        if self.has_under(slot, key, value) {
            return;
        }
        match key {
            Some(key) => match self.zones[slot].get(key) {
                Some(found) => *value = *found,
                None => *value = LabelValue::Unset,
            },
            None => *value = LabelValue::Unset,
        }
    }

    fn under(&self, slot: u8, key: usize) -> LabelValue
        requires { slot < SLOTS }
        ensures value { result ≡ value_under self.now slot (Some key) }
        ensures set { IsHeldAt self.now slot (Some key) → result ≢ Unset }
    {
        if let Some(found) = self.zones[slot as usize].get(key) {
            return *found;
        }
        LabelValue::Unset
    }

    /// Frees all values of the label.
    pub fn give_up(&mut self, label: Label)
        requires { IsHeld self.old label }
        ensures { GivesUp self.old self.new label }
    {
        let Label { handles } = label;
        for slot in 0..SLOTS {
            self.free(slot, handles[slot]);
        }
    }

    /// Frees the value under the key, if there is one.
    fn free(&mut self, slot: usize, key: Option<usize>)
        requires { slot < SLOTS }
        ensures { Frees self.old self.new slot key }
    {
        if let Some(key) = key {
            let zone = &mut self.zones[slot];
            let _ = zone.try_remove(key);
        }
    }
}

/// Makes room for so many values more, where there is a key.
fn reserve_where(
    zone: &mut Slab<LabelValue>,
    key: Option<usize>,
    more: usize,
) -> Result<(), AllocError>
    ensures { zone.new.slots ≡ zone.old.slots }
{
    match key {
        None => Ok(()),
        Some(_) => zone.reserve(more),
    }
}

/// Makes room for a value that has no key yet.
fn make_room(
    zone: &mut Slab<LabelValue>,
    key: Option<usize>,
    value: &LabelValue,
) -> Result<(), AllocError>
    ensures room { OnOk result (HasRoomToWrite zone.new key value.now) }
    ensures made { IsMadeFor key value.now → IsOk result }
    ensures same { zone.new.slots ≡ zone.old.slots }
{
    match (key, value) {
        (None, LabelValue::Range(_) | LabelValue::Number(_)) => reserve(zone),
        (Some(_), _) | (None, LabelValue::Unset) => Ok(()),
    }
}

/// Puts the value under its key, or a free one, and returns the key. Unset leaves what is there.
fn rewrite(zone: &mut Slab<LabelValue>, key: Option<usize>, value: &LabelValue) -> Option<usize>
    requires room { HasRoomToWrite zone.old key value.now }
    requires held { IsIn zone.old.slots key }
    requires set { held_in zone.old.slots key ≡ Unset → key ≡ None }
    ensures rewrites { Rewrites zone.old.slots zone.new.slots key result
        (given value.now (held_in zone.old.slots key)) }
    ensures most { slab_len zone.old ≤ MOST_HELD → slab_len zone.new ≤ MOST_HELD }
{
    match (key, value) {
        (_, LabelValue::Unset) => key,
        (None, LabelValue::Range(_) | LabelValue::Number(_)) => Some(add(zone, *value)),
        (Some(key), LabelValue::Range(_) | LabelValue::Number(_)) => {
            put(zone, key, *value);
            Some(key)
        }
    }
}

/// Writes the value under a key that has one.
fn put(zone: &mut Slab<LabelValue>, key: usize, value: LabelValue)
    requires { IsIn zone.old.slots (Some key) }
    ensures updates { Updates zone.old.slots zone.new.slots key (Some value) }
    ensures len { slab_len zone.new ≡ slab_len zone.old }
{
    if let Some(place) = zone.get_mut(key) {
        *place = value;
    }
}

/// Puts the value under a free key.
fn keep(zone: &mut Slab<LabelValue>, value: LabelValue) -> Result<usize, AllocError>
    ensures ok { IfOk result (λ key. Adds zone.old.slots zone.new.slots (Some key) value) }
    ensures most { OnOk result (slab_len zone.new ≤ MOST_HELD) }
    ensures err { OnErr result (zone.new.slots ≡ zone.old.slots) }
{
    reserve(zone)?;
    Ok(add(zone, value))
}

/// Makes room for one value more, which a full zone has not.
fn reserve(zone: &mut Slab<LabelValue>) -> Result<(), AllocError>
    ensures room { OnOk result (HasRoomForOne zone.new) }
    ensures same { zone.new.slots ≡ zone.old.slots }
{
    if zone.len() >= MOST_HELD as usize {
        return Err(AllocError);
    }
    zone.reserve(1)
}

/// Puts the value under a free key, for which there is room.
fn add(zone: &mut Slab<LabelValue>, value: LabelValue) -> usize
    requires { HasRoomForOne zone.old }
    ensures adds { Adds zone.old.slots zone.new.slots (Some result) value }
    ensures most { slab_len zone.new ≤ MOST_HELD }
{
    zone.insert_reserved(value)
}
