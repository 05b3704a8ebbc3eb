//! The words of a line, each behind a space.
ghost use Rattle.std.specs.Str.{byte};
ghost use Rattle.std.specs.Prelude.{◌≡◌, ◌<◌, ◌≤◌, ◌+◌, ◌∷◌, ◌++◌, length, OnOk, OnErr, option_map, string_bytes};
ghost use Rattle.std.specs.List.{flat_map};
ghost use Rattle.std.specs.Fmt.{decimal};
ghost use Rattle.mf_errno.specs.declared.module.Module.TheVariants.{Lomac};
ghost use Rattle.mf_elem.specs.Label.{element_alone};
ghost use Rattle.mf_text.specs.Appending.{Extends};
ghost use Rattle.mf_text.specs.Escape.{escaped};
ghost use Rattle.mf_rule.specs.Canonical.{rule_text};
ghost use Rattle.mf_spelling.specs.Spelling.{Label, path};
ghost use Rattle.mf_spelling.specs.Canonical.{groups_text, number_part, octal, parts_asked, piece_text, range_part};
ghost use Rattle.mf_spelling.specs.Printed.{Adds};

use mf_cred::ArrayVec;
use mf_elem::{Elem, LabelValue, RangeLabel, Request, SLOTS};
use mf_errno::Module;
use mf_labeltext::print_label;
use mf_names::Path;
use mf_rule::{Rule, print_rule};
use mf_text::{escape, print_number, print_octal};
use std::alloc::{AllocError, Global};

/// A policy's part of a label.
type Part = (Module, LabelValue);

pub fn push_word(word: &str, out: &mut String) -> Result<(), AllocError>
    ensures ok { OnOk result (Adds out.old out.new (byte " " ∷ word.now)) }
    ensures err { OnErr result (Extends (string_bytes out.old) (string_bytes out.new)) }
{
    out.push(' ')?;
    out.push_str(word)
}

pub fn push_number(number: u32, out: &mut String) -> Result<(), AllocError>
    ensures ok { OnOk result (Adds out.old out.new (byte " " ∷ decimal number)) }
    ensures err { OnErr result (Extends (string_bytes out.old) (string_bytes out.new)) }
{
    out.push(' ')?;
    print_number(u64::from(number), out)
}

/// A mode in octal digits.
pub fn push_mode(mode: u16, out: &mut String) -> Result<(), AllocError>
    ensures ok { OnOk result (Adds out.old out.new (byte " " ∷ octal mode)) }
    ensures err { OnErr result (Extends (string_bytes out.old) (string_bytes out.new)) }
{
    out.push(' ')?;
    print_octal(mode, out)
}

/// Bytes as a text with escapes.
pub fn push_text(bytes: &[u8], out: &mut String) -> Result<(), AllocError>
    ensures ok { OnOk result (Adds out.old out.new (byte " " ∷ escaped bytes.now)) }
    ensures err { OnErr result (Extends (string_bytes out.old) (string_bytes out.new)) }
{
    out.push(' ')?;
    escape(bytes, out)
}

/// The words of a rule.
pub fn push_rule(rule: &Rule, out: &mut String) -> Result<(), AllocError>
    ensures ok { OnOk result (Adds out.old out.new (byte " " ∷ rule_text rule.now)) }
    ensures err { OnErr result (Extends (string_bytes out.old) (string_bytes out.new)) }
{
    out.push(' ')?;
    print_rule(rule, out)
}

/// A setting and its value, with an equals sign between them.
pub fn push_setting(name: &str, value: &str, out: &mut String) -> Result<(), AllocError>
    ensures ok { OnOk result
        (Adds out.old out.new (byte " " ∷ (name.now ++ byte "=" ∷ value.now))) }
    ensures err { OnErr result (Extends (string_bytes out.old) (string_bytes out.new)) }
{
    push_word(name, out)?;
    out.push('=')?;
    out.push_str(value)
}

/// A path: a slash for the root, and else a slash before each component.
pub fn push_path(names: &Path, out: &mut String) -> Result<(), AllocError>
    ensures ok { OnOk result (Adds out.old out.new (byte " " ∷ piece_text (path names.now))) }
    ensures err { OnErr result (Extends (string_bytes out.old) (string_bytes out.new)) }
{
    if names.components().is_empty() {
        return out.push_str(" /");
    }
    out.push(' ')?;
    push_components(names, out)
}

fn push_components(path: &Path, out: &mut String) -> Result<(), AllocError>
    ensures ok { OnOk result (Adds out.old out.new (flat_map (λ name. byte "/" ∷ name) path.now)) }
    ensures err { OnErr result (Extends (string_bytes out.old) (string_bytes out.new)) }
{
    let mut names = path.components();
    while let Some(name) = names.next() {
        push_component(name, out)?;
    }
    Ok(())
}

fn push_component(name: &str, out: &mut String) -> Result<(), AllocError>
    ensures ok { OnOk result (Adds out.old out.new (byte "/" ∷ name.now)) }
    ensures err { OnErr result (Extends (string_bytes out.old) (string_bytes out.new)) }
{
    out.push('/')?;
    out.push_str(name)
}

/// Numbers with a comma between each two.
pub fn push_groups(groups: &[u32], out: &mut String) -> Result<(), AllocError>
    ensures ok { OnOk result (Adds out.old out.new (byte " " ∷ groups_text groups.now)) }
    ensures err { OnErr result (Extends (string_bytes out.old) (string_bytes out.new)) }
{
    let Some((first, more)) = groups.split_first() else {
        return out.push(' ');
    };
    push_number(*first, out)?;
    push_more_groups(more, out)
}

fn push_more_groups(groups: &[u32], out: &mut String) -> Result<(), AllocError>
    ensures ok { OnOk result
        (Adds out.old out.new (flat_map (λ next. byte "," ∷ decimal next) groups.now)) }
    ensures err { OnErr result (Extends (string_bytes out.old) (string_bytes out.new)) }
{
    for group in groups {
        push_next_group(*group, out)?;
    }
    Ok(())
}

fn push_next_group(group: u32, out: &mut String) -> Result<(), AllocError>
    ensures ok { OnOk result (Adds out.old out.new (byte "," ∷ decimal group)) }
    ensures err { OnErr result (Extends (string_bytes out.old) (string_bytes out.new)) }
{
    out.push(',')?;
    print_number(u64::from(group), out)
}

/// What is asked of a label, or `-` for nothing.
pub fn push_label(alloc: Global, request: &Request, out: &mut String) -> Result<(), AllocError>
    ensures ok { OnOk result (Adds out.old out.new (byte " " ∷ piece_text (Label request.now))) }
    ensures err { OnErr result (Extends (string_bytes out.old) (string_bytes out.new)) }
{
    let parts = parts_asked(request);
    out.push(' ')?;
    print_label(alloc, parts.as_slice(), out)
}

/// The parts of a label that are asked for, in the order of their modules.
pub fn parts_asked(request: &Request) -> ArrayVec<Part, SLOTS>
    ensures { result ≡ parts_asked request.now }
{
    let mut parts = ArrayVec::new();
    push_range(Module::Biba, &request.biba, &mut parts);
    push_range(Module::Mls, &request.mls, &mut parts);
    push_element(&request.lomac, &mut parts);
    push_partition(request.partition, &mut parts);
    parts
}

fn push_range(module: Module, asked: &Option<RangeLabel>, parts: &mut ArrayVec<Part, SLOTS>)
    requires { length parts.old < SLOTS }
    ensures parts { parts.new ≡ parts.old ++ range_part «module» asked.now }
    ensures few { length parts.new ≤ length parts.old + 1 }
{
    if let Some(label) = asked {
        parts.push((module, LabelValue::Range(*label)));
    }
}

fn push_element(asked: &Option<Elem>, parts: &mut ArrayVec<Part, SLOTS>)
    requires { length parts.old < SLOTS }
    ensures parts { parts.new ≡ parts.old ++ range_part Lomac (option_map element_alone asked.now) }
    ensures few { length parts.new ≤ length parts.old + 1 }
{
    if let Some(element) = asked {
        let label = RangeLabel::effective(*element);
        parts.push((Module::Lomac, LabelValue::Range(label)));
    }
}

fn push_partition(asked: Option<u32>, parts: &mut ArrayVec<Part, SLOTS>)
    requires { length parts.old < SLOTS }
    ensures { parts.new ≡ parts.old ++ number_part asked }
{
    if let Some(number) = asked {
        parts.push((Module::Partition, LabelValue::Number(number)));
    }
}
