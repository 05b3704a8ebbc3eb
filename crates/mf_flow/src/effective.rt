//! The effective elements of entities.
ghost use Rattle.std.specs.Prelude.{◌≡◌, ◌<◌};
ghost use Rattle.mf_elem.specs.declared.label.TheConstants.{SLOTS};
ghost use Rattle.mf_flow.specs.Rows as rows;

use mf_elem::Elem;
use mf_objects::Objects;
use mf_policy::slot_label;

/// The effective element that the live entity of that number has in the slot; none where no such entity lives.
pub fn element_at(objects: &Objects, slot: u8, number: u32) -> Option<Elem>
    requires { slot < SLOTS }
    ensures { result ≡ rows.element_numbered slot objects.now number }
{
    let _live = objects.live();
    match objects.least_from(number) {
        Some(id) if id.number() == number => slot_label(&objects.value(id, slot)).effective,
        _ => None,
    }
}
