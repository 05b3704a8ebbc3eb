//! The lines of rules that allowed a check.
ghost use Rattle.std.specs.Prelude.{◌≡◌, ◌<◌, ◌++◌, codes, length, slice_index_or, string_bytes, OnOk, OnErr};
ghost use Rattle.std.specs.Fmt.{decimal};
ghost use Rattle.mf_errno.specs.Names.{module_text};
ghost use Rattle.mf_errno.specs.declared.module.Module.TheVariants as modules;
ghost use Rattle.mf_why.specs.ReasonText.{rule_text};
ghost use Rattle.mf_text.specs.Appending.{Extends};
ghost use Rattle.mf_policy.specs.Registration.{Entry};
ghost use Rattle.mf_why.specs.Lines as spec;

use crate::reasons::{push_protocol, push_rule};
use crate::titles::{push_head, push_number, push_word};
use itoa::Buffer;
use mf_answers::{Permit, permit_of};
use mf_errno::Module;
use mf_item::Item;
use mf_policy::SpecList;
use mf_rule::PortRule;
use std::alloc::AllocError;

/// A line for each listed policy by a rule of which a check of that number was allowed.
pub fn push_permits(
    listed: &SpecList,
    place: &str,
    number: u32,
    item: &Item,
    text: &mut String,
) -> Result<(), AllocError>
    ensures ok { OnOk result (string_bytes text.new
        ≡ string_bytes text.old ++ spec.permits_text listed.now place.now number item.now) }
    ensures err { OnErr result (Extends (string_bytes text.old) (string_bytes text.new)) }
{
    for policy in 0..listed.len() {
        push_permit_of(listed, policy, place, number, item, text)?;
    }
    Ok(())
}

/// The line of the listed policy of that number.
fn push_permit_of(
    listed: &SpecList,
    policy: usize,
    place: &str,
    number: u32,
    item: &Item,
    text: &mut String,
) -> Result<(), AllocError>
    requires { policy < length listed.now }
    ensures ok { (other : Entry) → OnOk result (string_bytes text.new ≡ string_bytes text.old
        ++ spec.permit_line place.now number item.now (slice_index_or listed.now policy other)) }
    ensures err { OnErr result (Extends (string_bytes text.old) (string_bytes text.new)) }
{
    match permit_of(listed.spec(policy), item) {
        None => Ok(()),
        Some(permit) => push_permit(place, number, &permit, text),
    }
}

fn push_permit(
    place: &str,
    number: u32,
    permit: &Permit,
    text: &mut String,
) -> Result<(), AllocError>
    ensures ok { OnOk result (string_bytes text.new
        ≡ string_bytes text.old ++ spec.let_line place.now number permit.now) }
    ensures err { OnErr result (Extends (string_bytes text.old) (string_bytes text.new)) }
{
    push_head("let", place, text)?;
    push_number(number, text)?;
    push_rule_of(permit, text)?;
    text.push_str("\n")
}

/// The rule, behind its module.
fn push_rule_of(permit: &Permit, text: &mut String) -> Result<(), AllocError>
    ensures ok { OnOk result (string_bytes text.new
        ≡ string_bytes text.old ++ spec.permit_text permit.now) }
    ensures err { OnErr result (Extends (string_bytes text.old) (string_bytes text.new)) }
{
    match permit {
        Permit::Rule {
            number,
            wanted,
            given,
        } => push_file_rule(*number, *wanted, *given, text),
        Permit::Port { place, rule } => push_place(Module::Portacl, *place, rule, text),
    }
}

fn push_file_rule(number: u32, wanted: u8, given: u8, text: &mut String) -> Result<(), AllocError>
    ensures ok { OnOk result (string_bytes text.new ≡ string_bytes text.old
        ++ (module_text modules.Bsdextended ++ codes " " ++ rule_text number wanted given)) }
    ensures err { OnErr result (Extends (string_bytes text.old) (string_bytes text.new)) }
{
    push_word(Module::Bsdextended.name(), text)?;
    push_rule(number, wanted, given, text)
}

fn push_place(
    module: Module,
    place: u32,
    rule: &PortRule,
    text: &mut String,
) -> Result<(), AllocError>
    ensures ok { OnOk result (string_bytes text.new ≡ string_bytes text.old
        ++ (module_text «module» ++ codes " place " ++ decimal place ++ codes " "
        ++ spec.port_rule_text rule.now)) }
    ensures err { OnErr result (Extends (string_bytes text.old) (string_bytes text.new)) }
{
    push_place_number(module, place, text)?;
    push_port_rule(rule, text)
}

fn push_place_number(module: Module, place: u32, text: &mut String) -> Result<(), AllocError>
    ensures ok { OnOk result (string_bytes text.new ≡ string_bytes text.old
        ++ (module_text «module» ++ codes " place " ++ decimal place ++ codes " ")) }
    ensures err { OnErr result (Extends (string_bytes text.old) (string_bytes text.new)) }
{
    text.push_str(module.name())?;
    push_counted(" place ", place, text)
}

/// A number behind these words, with a blank behind it.
fn push_counted(words: &str, number: u32, text: &mut String) -> Result<(), AllocError>
    ensures ok { OnOk result (string_bytes text.new
        ≡ string_bytes text.old ++ (words.now ++ (decimal number ++ codes " "))) }
    ensures err { OnErr result (Extends (string_bytes text.old) (string_bytes text.new)) }
{
    text.push_str(words)?;
    push_number(number, text)
}

/// Whom a rule about ports names, and the port.
fn push_port_rule(rule: &PortRule, text: &mut String) -> Result<(), AllocError>
    ensures ok { OnOk result (string_bytes text.new
        ≡ string_bytes text.old ++ spec.port_rule_text rule.now) }
    ensures err { OnErr result (Extends (string_bytes text.old) (string_bytes text.new)) }
{
    text.push_str(if rule.group { "gid " } else { "uid " })?;
    push_number(rule.id, text)?;
    push_protocol(rule.tcp, text)?;
    text.push_str(Buffer::new().format(rule.port))
}
