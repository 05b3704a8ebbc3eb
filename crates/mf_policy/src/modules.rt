//! What is true of each module whatever its settings: the table of modules.
ghost use Rattle.std.specs.Option.{option_map_or};
ghost use Rattle.std.specs.Prelude.{◌≡◌, true, is_none};
ghost use Rattle.mf_elem.specs.declared.label.LabelValue.TheVariants.{Number};
ghost use Rattle.mf_policy.specs.Modules as facts;

use mf_elem::{Elem, LabelValue, RangeLabel, Request, is_valid};
use mf_errno::Module;
use mf_item::Kind;

/// What is true of a module.
#[derive(Clone, Copy)]
pub struct Facts {
    /// Whether the module can't be loaded once boot has ended.
    pub not_late: bool,
    /// Whether the module may be unloaded.
    pub unload_ok: bool,
    /// What its labels are.
    pub labels: Labelling,
}

/// What the labels of a module are.
#[derive(Clone, Copy)]
pub enum Labelling {
    /// It labels nothing, and has no label slot.
    Nothing,
    /// It labels every entity by elements with ranges. At boot a process has the first label, another entity the second.
    Ranges(RangeLabel, RangeLabel),
    /// It labels every entity by an element without compartments, at boot by this one.
    Elements(Elem),
    /// It gives processes and sockets a partition's number.
    Partitions,
}

/// The facts of a module.
pub fn facts_of(module: Module) -> Facts
    ensures { result ≡ facts.facts_of «module» }
{
    match module {
        Module::Biba => Facts {
            not_late: true,
            unload_ok: false,
            labels: ranges_at(Elem::High),
        },
        Module::Mls => Facts {
            not_late: true,
            unload_ok: false,
            labels: ranges_at(Elem::Low),
        },
        Module::Lomac => Facts {
            not_late: true,
            unload_ok: false,
            labels: Labelling::Elements(Elem::High),
        },
        Module::Partition => Facts {
            not_late: false,
            unload_ok: true,
            labels: Labelling::Partitions,
        },
        Module::Bsdextended | Module::Priority | Module::Seeotheruids | Module::Portacl => Facts {
            not_late: false,
            unload_ok: true,
            labels: Labelling::Nothing,
        },
    }
}

/// The labels at boot of a policy with ranges, by its default element.
fn ranges_at(element: Elem) -> Labelling
    ensures { result ≡ facts.ranges_at element }
{
    Labelling::Ranges(
        RangeLabel::ranged(element, Elem::Low, Elem::High),
        RangeLabel::effective(element),
    )
}

/// The label that a request asks of a module whose labels have elements.
pub fn range_asked(module: Module, request: &Request) -> Option<RangeLabel>
    ensures { result ≡ facts.range_asked «module» request.now }
{
    match module {
        Module::Biba => request.biba,
        Module::Mls => request.mls,
        Module::Lomac => request.lomac.map(RangeLabel::effective),
        Module::Partition
        | Module::Bsdextended
        | Module::Priority
        | Module::Seeotheruids
        | Module::Portacl => None,
    }
}

/// The partition that a request asks of the module.
pub fn number_asked(module: Module, request: &Request) -> Option<u32>
    ensures { result ≡ facts.number_asked «module» request.now }
{
    match module {
        Module::Partition => request.partition,
        Module::Biba
        | Module::Mls
        | Module::Lomac
        | Module::Bsdextended
        | Module::Priority
        | Module::Seeotheruids
        | Module::Portacl => None,
    }
}

/// Whether the module labels entities, and so has a label slot.
pub fn wants_slot(module: Module) -> bool
    ensures { result ≡ facts.wants_slot «module» }
{
    match facts_of(module).labels {
        Labelling::Nothing => false,
        Labelling::Ranges(..) | Labelling::Elements(_) | Labelling::Partitions => true,
    }
}

/// Whether the module labels entities of that kind: mac_biba, mac_mls and mac_lomac label all, mac_partition processes and sockets,
/// and a module without a label slot none.
pub fn labels_kind(module: Module, kind: Kind) -> bool
    ensures { result ≡ facts.labels_kind «module» kind }
{
    match facts_of(module).labels {
        Labelling::Nothing => false,
        Labelling::Ranges(..) | Labelling::Elements(_) => true,
        Labelling::Partitions => matches!(kind, Kind::Process | Kind::Socket),
    }
}

/// Whether a request names the module's policy.
pub fn is_named(module: Module, request: &Request) -> bool
    ensures { result ≡ facts.is_named «module» request.now }
{
    range_asked(module, request).is_some() || number_asked(module, request).is_some()
}

/// Whether the module's policy takes what a request asks of it for an entity of that kind: it labels the kind, and a range
/// is a process's alone.
pub fn takes(module: Module, kind: Kind, request: &Request) -> bool
    ensures { result ≡ facts.takes «module» kind request.now }
{
    (labels_kind(module, kind) || !is_named(module, request))
        && (matches!(kind, Kind::Process) || has_no_range(&range_asked(module, request)))
}

fn has_no_range(asked: &Option<RangeLabel>) -> bool
    ensures { result ≡ option_map_or (λ asked. is_none asked.range) asked.now true }
{
    match asked {
        None => true,
        Some(label) => label.range.is_none(),
    }
}

/// What the module gives an entity of that kind at boot: what is asked of it, and its default for the rest.
pub fn boot_value(module: Module, kind: Kind, request: &Request) -> LabelValue
    ensures { result ≡ facts.boot_value «module» kind request.now }
{
    if !labels_kind(module, kind) {
        return LabelValue::Unset;
    }
    match facts_of(module).labels {
        Labelling::Nothing => LabelValue::Unset,
        Labelling::Ranges(process, other) => {
            let default = default_range(kind, process, other);
            LabelValue::Range(default.replaced_by(&range_asked(module, request)))
        }
        Labelling::Elements(element) => {
            let default = RangeLabel::effective(element);
            LabelValue::Range(default.replaced_by(&range_asked(module, request)))
        }
        Labelling::Partitions => LabelValue::Number(number_asked(module, request).unwrap_or(0)),
    }
}

fn default_range(kind: Kind, process: RangeLabel, other: RangeLabel) -> RangeLabel
    ensures { result ≡ facts.default_range kind process other }
{
    match kind {
        Kind::Process => process,
        Kind::Vnode | Kind::Pipe | Kind::Socket => other,
    }
}

/// What the module gives a created entity of that kind, where `value` is its maker's.
pub fn inherited(module: Module, kind: Kind, value: &LabelValue) -> LabelValue
    ensures { result ≡ facts.inherited «module» kind value.now }
{
    if !labels_kind(module, kind) {
        return LabelValue::Unset;
    }
    match facts_of(module).labels {
        Labelling::Nothing => LabelValue::Unset,
        Labelling::Ranges(..) | Labelling::Elements(_) => inherited_range(kind, value),
        Labelling::Partitions => inherited_partition(value),
    }
}

fn inherited_range(kind: Kind, value: &LabelValue) -> LabelValue
    ensures { result ≡ facts.inherited_range kind value.now }
{
    match (kind, value) {
        (Kind::Vnode | Kind::Pipe | Kind::Socket, LabelValue::Range(label)) => {
            LabelValue::Range(RangeLabel {
                effective: label.effective,
                range: None,
            })
        }
        _ => *value,
    }
}

fn inherited_partition(value: &LabelValue) -> LabelValue
    ensures { result ≡ Number (facts.partition_of value.now) }
{
    match value {
        LabelValue::Number(number) => LabelValue::Number(*number),
        LabelValue::Unset | LabelValue::Range(_) => LabelValue::Number(0),
    }
}

/// Whether a script may ask this of the module's policy for an entity of that kind: the policy takes it, and the label at
/// boot is valid.
pub fn may_ask(module: Module, kind: Kind, request: &Request) -> bool
    ensures { result ≡ facts.may_ask «module» kind request.now }
{
    takes(module, kind, request) && is_valid_value(&boot_value(module, kind, request))
}

fn is_valid_value(value: &LabelValue) -> bool
    ensures { result ≡ facts.is_valid_value value.now }
{
    match value {
        LabelValue::Range(label) => is_valid(label),
        LabelValue::Unset | LabelValue::Number(_) => true,
    }
}
