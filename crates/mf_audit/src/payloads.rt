//! Whether a payload of a history is what a call hands back.
ghost use Rattle.std.specs.Option.{option_copied, option_map_or};
ghost use Rattle.std.specs.Prelude.{◌≡◌, ◌↔◌, ◌∷◌, ◌++◌, ◌<◌, ◌≤◌, ◌+◌, [], length, map, slice_index_or, take, IfOk, IsTrue};
ghost use Rattle.mf_elem.specs.declared.label.TheConstants.{SLOTS};
ghost use Rattle.mf_objects.specs.Head.{head_of};
ghost use Rattle.mf_objects.specs.declared.limits.TheConstants.{HEAD_BYTES};
ghost use Rattle.mf_objects.specs.Live.{content_at, count_at, file_at, kind_at, label_at};
ghost use Rattle.mf_objects.specs.Titles.{names_at};
ghost use Rattle.mf_plan.specs.Payloads as spec;
ghost use Rattle.mf_plan.specs.declared.reply.Payload.TheVariants as payloads;
ghost use Rattle.mf_perform.specs.Found.{label_parts_of};
ghost use Rattle.mf_audit.specs.Ends.{payload_of};

use crate::done::Shown;
use crate::kernel::Kernel;
use mf_cred::ArrayVec;
use mf_elem::{LabelValue, SLOTS};
use mf_errno::Module;
use mf_item::Kind;
use mf_objects::HEAD_BYTES;
use mf_parties::{Parties, PartyId, Text};
use mf_plan::{LabelPart, Loaded, Payload};
use mf_policy::{Registration, SpecList, labels_kind};
use mf_rule::RuleList;
use std::alloc::{AllocError, Global};

/// Whether the payload is what is shown.
pub(crate) fn is_shown(
    alloc: Global,
    kernel: &Kernel,
    shown: Shown,
    given: &Payload,
) -> Result<bool, AllocError>
    ensures { IfOk result (λ is. IsTrue is ↔ (given.now ≡ payload_of kernel.now shown)) }
{
    let parties = &kernel.parties;
    let listed = &kernel.listed;
    match shown {
        Shown::Nothing => Ok(is_nothing(given)),
        Shown::Head(id) => Ok(is_head(given, parties.content(id))),
        Shown::Message(id) => Ok(is_message(given, parties.messages(id))),
        Shown::Names(id) => is_directory(alloc, given, parties, id),
        Shown::Label(id) => Ok(is_label(given, parties, listed, id)),
        Shown::Size(id) => Ok(is_size(given, parties.content(id).len())),
        Shown::Stat(id) => Ok(is_stat(given, parties, id)),
        Shown::Modules => Ok(is_modules(given, listed)),
        Shown::Rules => Ok(is_rules(given, listed.rules())),
        Shown::Rule(number) => Ok(is_rule(given, number)),
        Shown::Slot(slot) => Ok(is_slot(given, slot)),
        Shown::Fd(number) => Ok(is_fd(given, number)),
    }
}

fn is_nothing(given: &Payload) -> bool
    ensures { IsTrue result ↔ (given.now ≡ payloads.None) }
{
    matches!(given, Payload::None)
}

/// Whether it is the beginning of these bytes.
#[tactic(auto, unfolding(mf_objects::specs::Head::head_of))]
fn is_head(given: &Payload, bytes: &[u8]) -> bool
    ensures { IsTrue result ↔ (given.now ≡ payloads.Head (head_of bytes.now)) }
{
    match given {
        Payload::Head(head) => {
            head.len as usize == bytes.len() && is_beginning(head.first.as_slice(), bytes)
        }
        _ => false,
    }
}

/// Whether these are the first of the bytes, as many as a payload shows.
fn is_beginning(first: &[u8], bytes: &[u8]) -> bool
    ensures { IsTrue result ↔ (first.now ≡ take HEAD_BYTES bytes.now) }
{
    if bytes.len() <= HEAD_BYTES {
        same_bytes(first, bytes)
    } else {
        same_bytes(first, &bytes[..HEAD_BYTES])
    }
}

fn same_bytes(bytes: &[u8], others: &[u8]) -> bool
    ensures { IsTrue result ↔ (bytes.now ≡ others.now) }
{
    bytes == others
}

/// Whether it is the beginning of the oldest message.
fn is_message(given: &Payload, messages: &[Text]) -> bool
    ensures { IsTrue result ↔ (given.now
        ≡ payloads.Head (head_of (slice_index_or messages.now 0 []))) }
{
    match messages.first() {
        Some(text) => is_head(given, text.as_slice()),
        None => is_head(given, &[]),
    }
}

/// Whether it is what a directory holds; what is none hands nothing back.
fn is_directory(
    alloc: Global,
    given: &Payload,
    parties: &Parties,
    id: PartyId,
) -> Result<bool, AllocError>
    ensures { IfOk result (λ is. IsTrue is ↔ (given.now ≡ spec.names parties.now id)) }
{
    if parties.is_dir(id) {
        are_entries(alloc, given, parties, id)
    } else {
        Ok(is_nothing(given))
    }
}

/// Whether it is the number of the entries of a directory, and the first names of them.
fn are_entries(
    alloc: Global,
    given: &Payload,
    parties: &Parties,
    id: PartyId,
) -> Result<bool, AllocError>
    ensures { IfOk result (λ is. IsTrue is ↔ (given.now
        ≡ payloads.Names (count_at parties.now id) (names_at parties.now id))) }
{
    match given {
        Payload::Names { count, first } if *count as usize == parties.count(id) => {
            parties.is_listing(alloc, id, first.as_slice())
        }
        _ => Ok(false),
    }
}

/// Whether it is the label of a party.
fn is_label(given: &Payload, parties: &Parties, listed: &SpecList, id: PartyId) -> bool
    ensures { IsTrue result ↔ (given.now ≡ payloads.Label
        (spec.label_parts listed.now (kind_at parties.now id) (label_at parties.now id))) }
{
    match given {
        Payload::Label(parts) => {
            let others = label_parts(parties, listed, id);
            same_parts(parts.as_slice(), others.as_slice())
        }
        _ => false,
    }
}

/// The parts of its label, in the order of the modules.
fn label_parts(parties: &Parties, listed: &SpecList, id: PartyId) -> ArrayVec<LabelPart, SLOTS>
    ensures { result
        ≡ spec.label_parts listed.now (kind_at parties.now id) (label_at parties.now id) }
{
    let kind = parties.kind(id);
    let mut parts = ArrayVec::new();
    add_part(parties, listed, id, kind, Module::Biba, &mut parts);
    add_part(parties, listed, id, kind, Module::Mls, &mut parts);
    add_part(parties, listed, id, kind, Module::Lomac, &mut parts);
    add_part(parties, listed, id, kind, Module::Partition, &mut parts);
    parts
}

/// Adds what the label says of the module's policy, where that is listed and labels the kind.
fn add_part(
    parties: &Parties,
    listed: &SpecList,
    id: PartyId,
    kind: Kind,
    module: Module,
    parts: &mut ArrayVec<LabelPart, SLOTS>,
)
    requires { length parts.old < SLOTS }
    ensures parts { parts.new ≡ parts.old
        ++ label_parts_of listed.now kind (label_at parties.now id) («module» ∷ []) }
    ensures few { length parts.new ≤ length parts.old + 1 }
{
    if labels_kind(module, kind) {
        if let Some(part) = label_part(parties, listed, id, module) {
            parts.push(part);
        }
    }
}

fn label_part(
    parties: &Parties,
    listed: &SpecList,
    id: PartyId,
    module: Module,
) -> Option<LabelPart>
    ensures { result ≡ spec.label_part listed.now (label_at parties.now id) «module» }
{
    if !listed.is_listed(module) {
        return None;
    }
    let slot = listed.slot_in(module).unwrap_or(0);
    let value = shown_value(parties.value(id, slot));
    Some(LabelPart { module, value })
}

/// The value as a label shows it: an unset slot counts as no partition.
fn shown_value(value: LabelValue) -> LabelValue
    ensures { result ≡ spec.shown value }
{
    match value {
        LabelValue::Unset => LabelValue::Number(0),
        LabelValue::Range(_) | LabelValue::Number(_) => value,
    }
}

fn same_parts(parts: &[LabelPart], others: &[LabelPart]) -> bool
    ensures { IsTrue result ↔ (parts.now ≡ others.now) }
{
    parts.len() == others.len() && same_each(parts, others)
}

fn same_each(parts: &[LabelPart], others: &[LabelPart]) -> bool
    requires { length parts.now ≡ length others.now }
    ensures { IsTrue result ↔ (parts.now ≡ others.now) }
{
    for (number, part) in parts.iter().enumerate() {
        if !same_part(part, &others[number]) {
            return false;
        }
    }
    true
}

fn same_part(part: &LabelPart, other: &LabelPart) -> bool
    ensures { IsTrue result ↔ (part.now ≡ other.now) }
{
    part.module == other.module && part.value.same(&other.value)
}

fn is_size(given: &Payload, size: usize) -> bool
    ensures { IsTrue result ↔ (given.now ≡ payloads.Size size) }
{
    match given {
        Payload::Size(given) => *given as usize == size,
        _ => false,
    }
}

/// Whether it is the attributes and the size of a file.
fn is_stat(given: &Payload, parties: &Parties, id: PartyId) -> bool
    ensures { IsTrue result ↔ (given.now
        ≡ payloads.Stat (file_at parties.now id) (length (content_at parties.now id))) }
{
    match given {
        Payload::Stat(file, size) => {
            *file == parties.file(id) && *size as usize == parties.content(id).len()
        }
        _ => false,
    }
}

/// Whether it is the listed modules in walk order.
fn is_modules(given: &Payload, listed: &SpecList) -> bool
    ensures { IsTrue result ↔ (given.now ≡ payloads.Modules (map spec.loaded listed.now)) }
{
    match given {
        Payload::Modules(modules) => are_listed(modules.as_slice(), listed),
        _ => false,
    }
}

fn are_listed(modules: &[Loaded], listed: &SpecList) -> bool
    ensures { IsTrue result ↔ (modules.now ≡ map spec.loaded listed.now) }
{
    modules.len() == listed.len() && each_listed(modules, listed)
}

fn each_listed(modules: &[Loaded], listed: &SpecList) -> bool
    requires { length modules.now ≡ length listed.now }
    ensures { IsTrue result ↔ (modules.now ≡ map spec.loaded listed.now) }
{
    for (place, loaded) in modules.iter().enumerate() {
        if !is_registered(loaded, &listed.registration(place)) {
            return false;
        }
    }
    true
}

/// Whether the module was registered so.
fn is_registered(loaded: &Loaded, registration: &Registration) -> bool
    ensures { IsTrue result ↔ (loaded.now ≡ record {
      «module» = registration.now.«module»;
      slot = registration.now.slot;
    }) }
{
    loaded.module == registration.module && loaded.slot == registration.slot
}

/// Whether it is these rules about files, where there are some.
fn is_rules(given: &Payload, rules: Option<&RuleList>) -> bool
    ensures { IsTrue result ↔ (given.now
        ≡ option_map_or payloads.Rules (option_copied rules.entry) payloads.None) }
{
    match rules {
        Some(rules) => match given {
            Payload::Rules(given) => given.same(rules),
            _ => false,
        },
        None => is_nothing(given),
    }
}

fn is_rule(given: &Payload, number: u32) -> bool
    ensures { IsTrue result ↔ (given.now ≡ payloads.Rule number) }
{
    match given {
        Payload::Rule(given) => *given == number,
        _ => false,
    }
}

fn is_slot(given: &Payload, slot: Option<u8>) -> bool
    ensures { IsTrue result ↔ (given.now ≡ payloads.Slot slot) }
{
    match given {
        Payload::Slot(given) => *given == slot,
        _ => false,
    }
}

fn is_fd(given: &Payload, number: u32) -> bool
    ensures { IsTrue result ↔ (given.now ≡ payloads.Fd number) }
{
    match given {
        Payload::Fd(given) => *given == number,
        _ => false,
    }
}
