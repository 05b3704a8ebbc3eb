//! The label of an entity: at boot, at creation, and after a relabel.
ghost use Rattle.std.specs.Prelude.{◌≡◌, ◌≢◌, ◌<◌, true, false};
ghost use Rattle.mf_elem.specs.declared.label.LabelValue.{LabelValue};
ghost use Rattle.mf_elem.specs.declared.label.LabelValue.TheVariants.{Unset};
ghost use Rattle.mf_policy.specs.NewLabels as spec;
ghost use Rattle.mf_policy.specs.Relabelled as after;

use crate::lattice::slot_label;
use crate::modules::{Labelling, boot_value, facts_of, inherited, number_asked, range_asked};
use crate::spec_list::SpecList;
use mf_elem::{LabelValue, RangeLabel, Request, SLOTS};
use mf_errno::Module;
use mf_item::Kind;

/// Where a new entity comes from.
#[derive(Clone, Copy)]
pub enum Origin {
    /// The script, which asks this for it.
    Boot(Request),
    /// A process of this label.
    Maker([LabelValue; SLOTS]),
}

/// The label of a new entity of that kind, while these policies are listed.
pub fn new_label(listed: &SpecList, kind: Kind, origin: &Origin) -> [LabelValue; SLOTS]
    ensures { result ≡ spec.new_label listed.now kind origin.now }
{
    [
        new_value(listed, kind, origin, 0),
        new_value(listed, kind, origin, 1),
        new_value(listed, kind, origin, 2),
        new_value(listed, kind, origin, 3),
    ]
}

/// The value in a slot.
fn new_value(listed: &SpecList, kind: Kind, origin: &Origin, slot: u8) -> LabelValue
    requires { slot < SLOTS }
    ensures { result ≡ spec.new_value listed.now kind origin.now slot }
{
    match (listed.holder(slot), origin) {
        (None, _) => LabelValue::Unset,
        (Some(module), Origin::Boot(request)) => boot_value(module, kind, request),
        (Some(module), Origin::Maker(label)) => inherited(module, kind, &label[slot as usize]),
    }
}

/// The label of an entity after a relabel, while these policies are listed: each takes the parts that the request gives it, and
/// all else stays. This is the plain form, which a relabel meets slot by slot.
pub fn relabelled(
    listed: &SpecList,
    request: &Request,
    label: &[LabelValue; SLOTS],
) -> [LabelValue; SLOTS]
    ensures { result ≡ after.relabelled listed.now request.now label.now }
{
    [
        relabelled_value(listed, request, label, 0),
        relabelled_value(listed, request, label, 1),
        relabelled_value(listed, request, label, 2),
        relabelled_value(listed, request, label, 3),
    ]
}

/// The value in a slot after a relabel.
fn relabelled_value(
    listed: &SpecList,
    request: &Request,
    label: &[LabelValue; SLOTS],
    slot: u8,
) -> LabelValue
    requires { slot < SLOTS }
    ensures { result ≡ after.relabelled_value listed.now request.now label.now slot }
{
    let value = &label[slot as usize];
    match listed.holder(slot) {
        None => *value,
        Some(module) => value_after(module, request, value),
    }
}

/// Whether a relabel that asks for this sets the value of the module's slot. Partition 0 sets none.
pub fn sets_value(module: Module, request: &Request) -> bool
    ensures none { result ≡ false
        → (value : LabelValue) → after.value_after «module» request.now value ≡ value }
    ensures some { result ≡ true
        → (value : LabelValue) → after.value_after «module» request.now value ≢ Unset }
{
    range_asked(module, request).is_some() || matches!(number_asked(module, request), Some(1..))
}

/// The value that a relabel leaves in the module's slot, in the place of this one.
pub fn value_after(module: Module, request: &Request, value: &LabelValue) -> LabelValue
    ensures { result ≡ after.value_after «module» request.now value.now }
{
    match facts_of(module).labels {
        Labelling::Nothing => *value,
        Labelling::Ranges(..) | Labelling::Elements(_) => {
            range_after(&range_asked(module, request), value)
        }
        Labelling::Partitions => number_after(number_asked(module, request), value),
    }
}

/// The parts that are asked in place; of a value that is no such label they are all that there is.
fn range_after(asked: &Option<RangeLabel>, value: &LabelValue) -> LabelValue
    ensures { result ≡ after.range_after asked.now value.now }
{
    match asked {
        None => *value,
        Some(_) => LabelValue::Range(slot_label(value).replaced_by(asked)),
    }
}

fn number_after(asked: Option<u32>, value: &LabelValue) -> LabelValue
    ensures { result ≡ after.number_after asked value.now }
{
    match asked {
        None | Some(0) => *value,
        Some(number) => LabelValue::Number(number),
    }
}
