//! Printing elements and labels in their canonical text.
ghost use Rattle.std.specs.Prelude.{◌≡◌, ◌<◌, ◌∷◌, ◌++◌, map, string_bytes, IfOk, OnOk, OnErr};
ghost use Rattle.std.specs.Fmt.{decimal};
ghost use Rattle.std.specs.List.{join_with_byte};
ghost use Rattle.std.specs.Str.{byte};
ghost use Rattle.mf_text.specs.Appending.{Extends};
ghost use Rattle.mf_errno.specs.Names.{policy_text};
ghost use Rattle.mf_elem.specs.Comps.{rising};
ghost use Rattle.mf_elem.specs.declared.label.LabelValue.TheVariants.{Number};
ghost use Rattle.mf_labeltext.specs.Canonical.{comps_text, elem_text, range_text, label_text, value_text, element_text, parts_of, in_order, elements_text, canonical_label};
ghost use Rattle.mf_labeltext.specs.Commas.{comma_behind};
ghost use Rattle.mf_labeltext.specs.RoundTrip.{CanonicalTextSpellsItsParts};

use mf_elem::{Comps, Elem, LAST_COMPARTMENT, LabelValue, RangeLabel};
use mf_errno::Module;
use mf_text::print_number;
use std::alloc::{AllocError, Global};

/// Appends the canonical text of an element: the word `low`, `high` or `equal`, or the grade and its compartments,
/// rising and without leading zeros. If memory runs out, `out` is unchanged.
pub fn print_elem(element: &Elem, out: &mut String) -> Result<(), AllocError>
    ensures ok { OnOk result (string_bytes out.new
        ≡ string_bytes out.old ++ elem_text element.now) }
    ensures err { OnErr result (string_bytes out.new ≡ string_bytes out.old) }
{
    let length = out.len();
    let appended = push_elem(element, out);
    if appended.is_err() {
        out.truncate(length);
    }
    appended
}

/// Appends the canonical text of a label's parts: their elements in the order biba, mls, lomac, partition, whatever
/// their order here, or `-` for no part. A partition that is 0 or Unset is `none`. Parts of other policies, which label
/// nothing, have no text. If memory runs out, `out` is unchanged.
pub fn print_label(
    alloc: Global,
    parts: &[(Module, LabelValue)],
    out: &mut String,
) -> Result<(), AllocError>
    ensures ok { OnOk result (string_bytes out.new
        ≡ string_bytes out.old ++ canonical_label parts.now) }
    ensures err { OnErr result (string_bytes out.new ≡ string_bytes out.old) }
{
    let length = out.len();
    let appended = push_parts(alloc, parts, out);
    if appended.is_err() {
        out.truncate(length);
    }
    appended
}

#[tactic(auto, unfolding(crate::specs::Canonical::canonical_label))]
fn push_parts(
    alloc: Global,
    parts: &[(Module, LabelValue)],
    out: &mut String,
) -> Result<(), AllocError>
    ensures ok { OnOk result (string_bytes out.new
        ≡ string_bytes out.old ++ canonical_label parts.now) }
    ensures err { OnErr result (Extends (string_bytes out.old) (string_bytes out.new)) }
{
    let ordered = in_order(alloc, parts)?;
    if ordered.is_empty() {
        return out.push('-');
    }
    push_elements(ordered.as_slice(), out)
}

#[tactic(auto, unfolding(crate::specs::Canonical::in_order))]
fn in_order(
    alloc: Global,
    parts: &[(Module, LabelValue)],
) -> Result<Vec<(Module, LabelValue)>, AllocError>
    ensures { IfOk result (λ ordered. ordered.items ≡ in_order parts.now) }
{
    let mut ordered = Vec::new(alloc);
    push_parts_of(Module::Biba, parts, &mut ordered)?;
    push_parts_of(Module::Mls, parts, &mut ordered)?;
    push_parts_of(Module::Lomac, parts, &mut ordered)?;
    push_parts_of(Module::Partition, parts, &mut ordered)?;
    Ok(ordered)
}

fn push_parts_of(
    policy: Module,
    parts: &[(Module, LabelValue)],
    ordered: &mut Vec<(Module, LabelValue)>,
) -> Result<(), AllocError>
    ensures { OnOk result (ordered.new.items ≡ ordered.old.items ++ parts_of policy parts.now) }
{
    for part in parts {
        if policy.is(part.0) {
            ordered.push(*part)?;
        }
    }
    Ok(())
}

/// The elements of one or more parts, with a comma between each two.
fn push_elements(parts: &[(Module, LabelValue)], out: &mut String) -> Result<(), AllocError>
    ensures ok { OnOk result (string_bytes out.new
        ≡ string_bytes out.old ++ join_with_byte (byte ",") (map element_text parts.now)) }
    ensures err { OnErr result (Extends (string_bytes out.old) (string_bytes out.new)) }
{
    for (place, part) in parts.iter().enumerate() {
        push_next_element(place, part, out)?;
    }
    Ok(())
}

/// An element behind so many others.
fn push_next_element(
    elements: usize,
    part: &(Module, LabelValue),
    out: &mut String,
) -> Result<(), AllocError>
    ensures ok { OnOk result (string_bytes out.new
        ≡ string_bytes out.old ++ (comma_behind elements ++ element_text part.now)) }
    ensures err { OnErr result (Extends (string_bytes out.old) (string_bytes out.new)) }
{
    push_comma_behind(elements, out)?;
    push_element(part, out)
}

/// A comma, unless this is the first element.
fn push_comma_behind(elements: usize, out: &mut String) -> Result<(), AllocError>
    ensures ok { OnOk result (string_bytes out.new
        ≡ string_bytes out.old ++ comma_behind elements) }
    ensures err { OnErr result (Extends (string_bytes out.old) (string_bytes out.new)) }
{
    if elements == 0 {
        return Ok(());
    }
    out.push(',')
}

fn push_element(part: &(Module, LabelValue), out: &mut String) -> Result<(), AllocError>
    ensures ok { OnOk result (string_bytes out.new
        ≡ string_bytes out.old ++ element_text part.now) }
    ensures err { OnErr result (Extends (string_bytes out.old) (string_bytes out.new)) }
{
    let (policy, value) = part;
    out.push_str(policy_name(*policy))?;
    out.push('/')?;
    push_value(value, out)
}

/// The name of the policy in a label text.
pub fn policy_name(policy: Module) -> &'static str
    ensures { result.now ≡ policy_text policy }
{
    match policy {
        Module::Biba => "biba",
        Module::Mls => "mls",
        Module::Lomac => "lomac",
        Module::Partition => "partition",
        Module::Bsdextended => "bsdextended",
        Module::Priority => "priority",
        Module::Seeotheruids => "seeotheruids",
        Module::Portacl => "portacl",
    }
}

fn push_value(value: &LabelValue, out: &mut String) -> Result<(), AllocError>
    ensures ok { OnOk result (string_bytes out.new ≡ string_bytes out.old ++ value_text value.now) }
    ensures err { OnErr result (Extends (string_bytes out.old) (string_bytes out.new)) }
{
    match value {
        LabelValue::Unset => push_partition(0, out),
        LabelValue::Range(label) => push_label(label, out),
        LabelValue::Number(number) => push_partition(*number, out),
    }
}

fn push_partition(number: u32, out: &mut String) -> Result<(), AllocError>
    ensures ok { OnOk result (string_bytes out.new
        ≡ string_bytes out.old ++ value_text (Number number)) }
    ensures err { OnErr result (Extends (string_bytes out.old) (string_bytes out.new)) }
{
    if number == 0 {
        return out.push_str("none");
    }
    print_number(u64::from(number), out)
}

fn push_label(label: &RangeLabel, out: &mut String) -> Result<(), AllocError>
    ensures ok { OnOk result (string_bytes out.new ≡ string_bytes out.old ++ label_text label.now) }
    ensures err { OnErr result (Extends (string_bytes out.old) (string_bytes out.new)) }
{
    if let Some(effective) = &label.effective {
        push_elem(effective, out)?;
    }
    push_range(&label.range, out)
}

fn push_range(range: &Option<(Elem, Elem)>, out: &mut String) -> Result<(), AllocError>
    ensures ok { OnOk result (string_bytes out.new ≡ string_bytes out.old ++ range_text range.now) }
    ensures err { OnErr result (Extends (string_bytes out.old) (string_bytes out.new)) }
{
    let Some((low, high)) = range else {
        return Ok(());
    };
    out.push('(')?;
    push_ends(low, high, out)?;
    out.push(')')
}

fn push_ends(low: &Elem, high: &Elem, out: &mut String) -> Result<(), AllocError>
    ensures ok { OnOk result (string_bytes out.new
        ≡ string_bytes out.old ++ (elem_text low.now ++ byte "-" ∷ elem_text high.now)) }
    ensures err { OnErr result (Extends (string_bytes out.old) (string_bytes out.new)) }
{
    push_elem(low, out)?;
    out.push('-')?;
    push_elem(high, out)
}

fn push_elem(element: &Elem, out: &mut String) -> Result<(), AllocError>
    ensures ok { OnOk result (string_bytes out.new
        ≡ string_bytes out.old ++ elem_text element.now) }
    ensures err { OnErr result (Extends (string_bytes out.old) (string_bytes out.new)) }
{
    match element {
        Elem::Low => out.push_str("low"),
        Elem::High => out.push_str("high"),
        Elem::Equal => out.push_str("equal"),
        Elem::Grade(grade, comps) => {
            print_number(u64::from(*grade), out)?;
            push_comps(comps, out)
        }
    }
}

/// A colon and the compartments, rising, with a plus between each two.
fn push_comps(comps: &Comps, out: &mut String) -> Result<(), AllocError>
    ensures ok { OnOk result (string_bytes out.new
        ≡ string_bytes out.old ++ comps_text (rising comps.now)) }
    ensures err { OnErr result (Extends (string_bytes out.old) (string_bytes out.new)) }
{
    if comps.is_empty() {
        return Ok(());
    }
    let mut separator = ':';
    for place in 0..LAST_COMPARTMENT {
        let n = place + 1;
        if comps.has(n) {
            push_comp(separator, n, out)?;
            separator = '+';
        }
    }
    Ok(())
}

fn push_comp(separator: char, n: u16, out: &mut String) -> Result<(), AllocError>
    requires { separator < 128 }
    ensures ok { OnOk result (string_bytes out.new
        ≡ string_bytes out.old ++ separator ∷ decimal n) }
    ensures err { OnErr result (Extends (string_bytes out.old) (string_bytes out.new)) }
{
    out.push(separator)?;
    print_number(u64::from(n), out)
}

/// The canonical text of one or more parts of a label asks for just these parts, an Unset partition as 0.
pub fn canonical_text_spells_its_parts()
    ensures { CanonicalTextSpellsItsParts }
{}
