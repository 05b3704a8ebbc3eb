//! The words of a reason.
ghost use Rattle.std.specs.Int.RustNames.{bit_and};
ghost use Rattle.std.specs.Prelude.{◌≡◌, ◌==◌, ◌++◌, [], if◌then◌else◌, codes, drop, string_bytes, OnOk, OnErr};
ghost use Rattle.std.specs.List.{flat_map};
ghost use Rattle.std.specs.Fmt.{decimal};
ghost use Rattle.mf_text.specs.Appending.{Extends};
ghost use Rattle.mf_labeltext.specs.Canonical.{elem_text};
ghost use Rattle.mf_rule.specs.Canonical as rules;
ghost use Rattle.mf_rule.specs.Words.{mode_letters};
ghost use Rattle.mf_why.specs.ReasonText as spec;

use itoa::Buffer;
use mf_answers::Reason;
use mf_elem::{Elem, RangeLabel};
use mf_labeltext::print_elem;
use mf_rule::{ADMINISTER, EXECUTE, READ, STAT, WRITE};
use std::alloc::AllocError;

/// The ends of a range, where there is one.
type Ends = Option<(Elem, Elem)>;

/// Appends the test that failed, and what it compares.
pub fn push_reason(reason: &Reason, text: &mut String) -> Result<(), AllocError>
    ensures ok { OnOk result (string_bytes text.new
        ≡ string_bytes text.old ++ spec.reason_text reason.now) }
    ensures err { OnErr result (Extends (string_bytes text.old) (string_bytes text.new)) }
{
    match reason {
        Reason::Observe {
            subject,
            object,
            ..
        } => push_elems("observe subject ", subject, " object ", object, text),
        Reason::Modify { subject, object } => {
            push_elems("modify subject ", subject, " object ", object, text)
        }
        Reason::Level { subject, object } => {
            push_elems("level subject ", subject, " object ", object, text)
        }
        Reason::LeavesOut { element, asked } => {
            push_bounds("fit element ", element, " asked ", asked, text)
        }
        Reason::RangeOutside { asked, own } => {
            push_ranges("range asked ", asked, " own ", own, text)
        }
        Reason::AskedOutside { asked, own } => {
            push_bounds("element asked ", asked, " own ", own, text)
        }
        Reason::PresentOutside { object, own } => {
            push_bounds("present object ", &Some(*object), " own ", own, text)
        }
        Reason::RangeOfObject { asked } => push_ends("plain asked ", asked, text),
        Reason::AsksEqual { own } => push_label("equal subject ", own, text),
        Reason::AskedAbove { subject, asked } => {
            push_elems("dominate subject ", subject, " asked ", asked, text)
        }
        Reason::PresentAbove { subject, object } => {
            push_elems("dominate subject ", subject, " object ", object, text)
        }
        Reason::EqualAbove { subject } => push_elem("equal subject ", subject, text),
        Reason::Unprivileged { own } => push_label("privileged subject ", own, text),
        Reason::Partitions {
            subject,
            object,
            ..
        } => push_numbers("partition subject ", *subject, " object ", *object, text),
        Reason::Joins { asked, uid } => push_numbers("join asked ", *asked, " uid ", *uid, text),
        Reason::Rule {
            number,
            wanted,
            given,
        } => push_rule(*number, *wanted, *given, text),
        Reason::Users { subject, object } => {
            push_numbers("user subject ", *subject, " object ", *object, text)
        }
        Reason::Port { tcp, port, uid } => push_port(*tcp, *port, *uid, text),
    }
}

fn push_elem(words: &str, element: &Elem, text: &mut String) -> Result<(), AllocError>
    ensures ok { OnOk result (string_bytes text.new
        ≡ string_bytes text.old ++ (words.now ++ elem_text element.now)) }
    ensures err { OnErr result (Extends (string_bytes text.old) (string_bytes text.new)) }
{
    text.push_str(words)?;
    print_elem(element, text)
}

fn push_elems(
    words: &str,
    element: &Elem,
    others: &str,
    other: &Elem,
    text: &mut String,
) -> Result<(), AllocError>
    ensures ok { OnOk result (string_bytes text.new ≡ string_bytes text.old
        ++ spec.elems_text words.now element.now others.now other.now) }
    ensures err { OnErr result (Extends (string_bytes text.old) (string_bytes text.new)) }
{
    push_elem(words, element, text)?;
    push_elem(others, other, text)
}

/// A range, or a dash.
fn push_ends(words: &str, ends: &Ends, text: &mut String) -> Result<(), AllocError>
    ensures ok { OnOk result (string_bytes text.new
        ≡ string_bytes text.old ++ (words.now ++ spec.ends_text ends.now)) }
    ensures err { OnErr result (Extends (string_bytes text.old) (string_bytes text.new)) }
{
    text.push_str(words)?;
    match ends {
        None => text.push_str("-"),
        Some((low, high)) => push_elems("", low, "-", high, text),
    }
}

fn push_ranges(
    words: &str,
    ends: &Ends,
    others: &str,
    other: &Ends,
    text: &mut String,
) -> Result<(), AllocError>
    ensures ok { OnOk result (string_bytes text.new ≡ string_bytes text.old
        ++ (words.now ++ spec.ends_text ends.now ++ (others.now ++ spec.ends_text other.now))) }
    ensures err { OnErr result (Extends (string_bytes text.old) (string_bytes text.new)) }
{
    push_ends(words, ends, text)?;
    push_ends(others, other, text)
}

/// An element, or a dash.
fn push_maybe(words: &str, element: &Option<Elem>, text: &mut String) -> Result<(), AllocError>
    ensures ok { OnOk result (string_bytes text.new
        ≡ string_bytes text.old ++ (words.now ++ spec.maybe_text element.now)) }
    ensures err { OnErr result (Extends (string_bytes text.old) (string_bytes text.new)) }
{
    text.push_str(words)?;
    match element {
        None => text.push_str("-"),
        Some(element) => print_elem(element, text),
    }
}

/// An element, and a range.
fn push_bounds(
    words: &str,
    element: &Option<Elem>,
    others: &str,
    ends: &Ends,
    text: &mut String,
) -> Result<(), AllocError>
    ensures ok { OnOk result (string_bytes text.new ≡ string_bytes text.old
        ++ spec.bounds_text words.now element.now others.now ends.now) }
    ensures err { OnErr result (Extends (string_bytes text.old) (string_bytes text.new)) }
{
    push_maybe(words, element, text)?;
    push_ends(others, ends, text)
}

/// The element and the range of a label.
fn push_label(words: &str, label: &RangeLabel, text: &mut String) -> Result<(), AllocError>
    ensures ok { OnOk result (string_bytes text.new ≡ string_bytes text.old
        ++ spec.bounds_text words.now label.now.effective (codes " own ") label.now.range) }
    ensures err { OnErr result (Extends (string_bytes text.old) (string_bytes text.new)) }
{
    push_maybe(words, &label.effective, text)?;
    push_ends(" own ", &label.range, text)
}

fn push_number(words: &str, number: u32, text: &mut String) -> Result<(), AllocError>
    ensures ok { OnOk result (string_bytes text.new
        ≡ string_bytes text.old ++ (words.now ++ decimal number)) }
    ensures err { OnErr result (Extends (string_bytes text.old) (string_bytes text.new)) }
{
    text.push_str(words)?;
    text.push_str(Buffer::new().format(number))
}

fn push_numbers(
    words: &str,
    number: u32,
    others: &str,
    other: u32,
    text: &mut String,
) -> Result<(), AllocError>
    ensures ok { OnOk result (string_bytes text.new ≡ string_bytes text.old
        ++ spec.numbers_text words.now number others.now other) }
    ensures err { OnErr result (Extends (string_bytes text.old) (string_bytes text.new)) }
{
    push_number(words, number, text)?;
    push_number(others, other, text)
}

fn push_port(tcp: bool, port: u16, uid: u32, text: &mut String) -> Result<(), AllocError>
    ensures ok { OnOk result (string_bytes text.new ≡ string_bytes text.old
        ++ (codes "port " ++ spec.protocol_text tcp ++ decimal port ++ (codes " uid " ++ decimal uid))) }
    ensures err { OnErr result (Extends (string_bytes text.old) (string_bytes text.new)) }
{
    text.push_str("port ")?;
    push_protocol(tcp, text)?;
    push_numbers("", port as u32, " uid ", uid, text)
}

/// The protocol of a port, with a blank behind it.
pub fn push_protocol(tcp: bool, text: &mut String) -> Result<(), AllocError>
    ensures ok { OnOk result (string_bytes text.new
        ≡ string_bytes text.old ++ spec.protocol_text tcp) }
    ensures err { OnErr result (Extends (string_bytes text.old) (string_bytes text.new)) }
{
    text.push_str(if tcp { "tcp " } else { "udp " })
}

/// A rule about files by its number, with the letters that are wanted, and those that it gives.
pub fn push_rule(number: u32, wanted: u8, given: u8, text: &mut String) -> Result<(), AllocError>
    ensures ok { OnOk result (string_bytes text.new
        ≡ string_bytes text.old ++ spec.rule_text number wanted given) }
    ensures err { OnErr result (Extends (string_bytes text.old) (string_bytes text.new)) }
{
    push_number("rule ", number, text)?;
    push_mode(" wants ", wanted, text)?;
    push_mode(" gives ", given, text)
}

fn push_mode(words: &str, bits: u8, text: &mut String) -> Result<(), AllocError>
    ensures ok { OnOk result (string_bytes text.new
        ≡ string_bytes text.old ++ (words.now ++ rules.letters_text mode_letters bits)) }
    ensures err { OnErr result (Extends (string_bytes text.old) (string_bytes text.new)) }
{
    text.push_str(words)?;
    push_letters(bits, text)
}

/// The letters of a mode in the order of a rule's text; `n` for none.
fn push_letters(bits: u8, text: &mut String) -> Result<(), AllocError>
    ensures ok { OnOk result (string_bytes text.new
        ≡ string_bytes text.old ++ rules.letters_text mode_letters bits) }
    ensures err { OnErr result (Extends (string_bytes text.old) (string_bytes text.new)) }
{
    if bits == 0 {
        return text.push_str("n");
    }
    push_letter(bits, ADMINISTER, "a", text)?;
    push_letter(bits, READ, "r", text)?;
    push_last_letters(bits, text)
}

fn push_last_letters(bits: u8, text: &mut String) -> Result<(), AllocError>
    ensures ok { OnOk result (string_bytes text.new ≡ string_bytes text.old
        ++ flat_map (rules.letter_text bits) (drop 3 mode_letters)) }
    ensures err { OnErr result (Extends (string_bytes text.old) (string_bytes text.new)) }
{
    push_letter(bits, STAT, "s", text)?;
    push_letter(bits, WRITE, "w", text)?;
    push_letter(bits, EXECUTE, "x", text)
}

fn push_letter(bits: u8, bit: u8, letter: &str, text: &mut String) -> Result<(), AllocError>
    ensures ok { OnOk result (string_bytes text.new ≡ string_bytes text.old
        ++ (if bit_and bits bit == 0 then [] else letter.now)) }
    ensures err { OnErr result (Extends (string_bytes text.old) (string_bytes text.new)) }
{
    if bits & bit == 0 {
        return Ok(());
    }
    text.push_str(letter)
}
