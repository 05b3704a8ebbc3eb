//! Printing rules in their canonical text.
ghost use Rattle.std.specs.Prelude.{◌≡◌, ◌++◌, string_bytes, codes, All, OnOk, OnErr};
ghost use Rattle.std.specs.List.{flat_map};
ghost use Rattle.mf_rule.specs.Words.{IsAsciiLetter, mode_letters};
ghost use Rattle.mf_text.specs.Appending.{Extends};
ghost use Rattle.mf_rule.specs.Canonical as spec;

use crate::rule::{IdTest, ObjectSide, Rule, Side, TypeTest};
use crate::values::{MODE_LETTERS, TYPE_LETTERS};
use mf_text::print_number;
use std::alloc::AllocError;

/// Appends the canonical text of a rule. If memory runs out, `out` is unchanged.
pub fn print_rule(rule: &Rule, out: &mut String) -> Result<(), AllocError>
    ensures ok { OnOk result (string_bytes out.new
        ≡ string_bytes out.old ++ spec.rule_text rule.now) }
    ensures err { OnErr result (string_bytes out.new ≡ string_bytes out.old) }
{
    let length = out.len();
    let appended = push_rule(rule, out);
    if appended.is_err() {
        out.truncate(length);
    }
    appended
}

#[tactic(auto, unfolding(crate::specs::Canonical::rule_text))]
fn push_rule(rule: &Rule, out: &mut String) -> Result<(), AllocError>
    ensures ok { OnOk result (string_bytes out.new
        ≡ string_bytes out.old ++ spec.rule_text rule.now) }
    ensures err { OnErr result (Extends (string_bytes out.old) (string_bytes out.new)) }
{
    push_subject_part(&rule.subject, out)?;
    push_object_part(&rule.object, out)?;
    push_mode_part(rule.mode, out)
}

fn push_subject_part(side: &Side, out: &mut String) -> Result<(), AllocError>
    ensures ok { OnOk result (string_bytes out.new
        ≡ string_bytes out.old ++ (codes "subject" ++ spec.side_text side.now)) }
    ensures err { OnErr result (Extends (string_bytes out.old) (string_bytes out.new)) }
{
    out.push_str("subject")?;
    push_side(side, out)
}

fn push_object_part(object: &ObjectSide, out: &mut String) -> Result<(), AllocError>
    ensures ok { OnOk result (string_bytes out.new
        ≡ string_bytes out.old ++ (codes " object" ++ spec.object_text object.now)) }
    ensures err { OnErr result (Extends (string_bytes out.old) (string_bytes out.new)) }
{
    out.push_str(" object")?;
    push_object(object, out)
}

fn push_mode_part(mode: u8, out: &mut String) -> Result<(), AllocError>
    ensures ok { OnOk result (string_bytes out.new
        ≡ string_bytes out.old ++ (codes " mode " ++ spec.letters_text mode_letters mode)) }
    ensures err { OnErr result (Extends (string_bytes out.old) (string_bytes out.new)) }
{
    out.push_str(" mode ")?;
    push_letters(&MODE_LETTERS, mode, out)
}

fn push_side(side: &Side, out: &mut String) -> Result<(), AllocError>
    ensures ok { OnOk result (string_bytes out.new
        ≡ string_bytes out.old ++ spec.side_text side.now) }
    ensures err { OnErr result (Extends (string_bytes out.old) (string_bytes out.new)) }
{
    push_not(side.not, out)?;
    push_id(" uid ", &side.uid, out)?;
    push_id(" gid ", &side.gid, out)
}

fn push_object(object: &ObjectSide, out: &mut String) -> Result<(), AllocError>
    ensures ok { OnOk result (string_bytes out.new
        ≡ string_bytes out.old ++ spec.object_text object.now) }
    ensures err { OnErr result (Extends (string_bytes out.old) (string_bytes out.new)) }
{
    push_side(&object.side, out)?;
    push_flags(object, out)?;
    push_types(&object.types, out)
}

fn push_flags(object: &ObjectSide, out: &mut String) -> Result<(), AllocError>
    ensures ok { OnOk result (string_bytes out.new
        ≡ string_bytes out.old ++ spec.flags_text object.now) }
    ensures err { OnErr result (Extends (string_bytes out.old) (string_bytes out.new)) }
{
    push_flag(" suid", object.suid, out)?;
    push_flag(" sgid", object.sgid, out)?;
    push_flag(" uid_of_subject", object.uid_of_subject, out)?;
    push_flag(" gid_of_subject", object.gid_of_subject, out)
}

fn push_not(not: bool, out: &mut String) -> Result<(), AllocError>
    ensures ok { OnOk result (string_bytes out.new ≡ string_bytes out.old ++ spec.not_text not) }
    ensures err { OnErr result (Extends (string_bytes out.old) (string_bytes out.new)) }
{
    if not { out.push_str(" not") } else { Ok(()) }
}

fn push_mark(not: bool, out: &mut String) -> Result<(), AllocError>
    ensures ok { OnOk result (string_bytes out.new ≡ string_bytes out.old ++ spec.mark_text not) }
    ensures err { OnErr result (Extends (string_bytes out.old) (string_bytes out.new)) }
{
    if not { out.push_str(" !") } else { Ok(()) }
}

/// A test of ids behind its name, which has a blank before and after it.
fn push_id(name: &str, test: &Option<IdTest>, out: &mut String) -> Result<(), AllocError>
    ensures ok { OnOk result (string_bytes out.new
        ≡ string_bytes out.old ++ spec.id_text name.now test.now) }
    ensures err { OnErr result (Extends (string_bytes out.old) (string_bytes out.new)) }
{
    let Some(test) = test else {
        return Ok(());
    };
    push_mark(test.not, out)?;
    out.push_str(name)?;
    push_range(test.least, test.greatest, out)
}

fn push_range(least: u32, greatest: u32, out: &mut String) -> Result<(), AllocError>
    ensures ok { OnOk result (string_bytes out.new
        ≡ string_bytes out.old ++ spec.id_range_text least greatest) }
    ensures err { OnErr result (Extends (string_bytes out.old) (string_bytes out.new)) }
{
    if least == greatest {
        return print_number(u64::from(least), out);
    }
    print_number(u64::from(least), out)?;
    out.push(':')?;
    print_number(u64::from(greatest), out)
}

/// A test without a value: its name, with a blank before it.
fn push_flag(name: &str, wanted: Option<bool>, out: &mut String) -> Result<(), AllocError>
    ensures ok { OnOk result (string_bytes out.new
        ≡ string_bytes out.old ++ spec.flag_text name.now wanted) }
    ensures err { OnErr result (Extends (string_bytes out.old) (string_bytes out.new)) }
{
    let Some(wanted) = wanted else {
        return Ok(());
    };
    push_mark(!wanted, out)?;
    out.push_str(name)
}

fn push_types(test: &Option<TypeTest>, out: &mut String) -> Result<(), AllocError>
    ensures ok { OnOk result (string_bytes out.new
        ≡ string_bytes out.old ++ spec.types_text test.now) }
    ensures err { OnErr result (Extends (string_bytes out.old) (string_bytes out.new)) }
{
    let Some(test) = test else {
        return Ok(());
    };
    push_mark(test.not, out)?;
    out.push_str(" type ")?;
    push_letters(&TYPE_LETTERS, test.types, out)
}

/// The letters of a table that stand for the bits.
fn push_letters(table: &[(u8, u8)], bits: u8, out: &mut String) -> Result<(), AllocError>
    requires { All IsAsciiLetter table.now }
    ensures ok { OnOk result (string_bytes out.new
        ≡ string_bytes out.old ++ spec.letters_text table.now bits) }
    ensures err { OnErr result (Extends (string_bytes out.old) (string_bytes out.new)) }
{
    let Some((whole, others)) = table.split_first() else {
        return Ok(());
    };
    if bits == whole.1 {
        return out.push(char::from(whole.0));
    }
    push_set_letters(others, bits, out)
}

/// The letters of which the bits are set.
fn push_set_letters(table: &[(u8, u8)], bits: u8, out: &mut String) -> Result<(), AllocError>
    requires { All IsAsciiLetter table.now }
    ensures ok { OnOk result (string_bytes out.new
        ≡ string_bytes out.old ++ flat_map (spec.letter_text bits) table.now) }
    ensures err { OnErr result (Extends (string_bytes out.old) (string_bytes out.new)) }
{
    for row in table {
        push_letter(*row, bits, out)?;
    }
    Ok(())
}

fn push_letter(row: (u8, u8), bits: u8, out: &mut String) -> Result<(), AllocError>
    requires { IsAsciiLetter row }
    ensures ok { OnOk result (string_bytes out.new
        ≡ string_bytes out.old ++ spec.letter_text bits row) }
    ensures err { OnErr result (Extends (string_bytes out.old) (string_bytes out.new)) }
{
    if bits & row.1 == 0 {
        return Ok(());
    }
    out.push(char::from(row.0))
}
