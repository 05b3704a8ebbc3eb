//! The lines of a check that was denied.
ghost use Rattle.std.specs.Prelude.{◌≡◌, ◌<◌, ◌≤◌, ◌++◌, codes, length, slice_index_or, string_bytes, OnOk, OnErr};
ghost use Rattle.std.specs.List.{flat_map, range_with_len};
ghost use Rattle.std.specs.Option.{option_map_or};
ghost use Rattle.std.specs.Fmt.{decimal};
ghost use Rattle.mf_errno.specs.Names.{error_text, module_text};
ghost use Rattle.mf_errno.specs.Privilege.{privilege_text};
ghost use Rattle.mf_item.specs.Operation.{operation_text};
ghost use Rattle.mf_why.specs.ReasonText.{reason_text};
ghost use Rattle.mf_text.specs.Appending.{Extends};
ghost use Rattle.mf_policy.specs.Registration.{Entry};
ghost use Rattle.mf_why.specs.Deniers.{denier, mark_of, other_reason, other_reasons};
ghost use Rattle.mf_why.specs.Slots.{HaveLabelSlots};
ghost use Rattle.mf_why.specs.Lines as spec;

use crate::deniers::Mark;
use crate::reasons::push_reason;
use crate::titles::{push_head, push_last, push_number, push_subject, push_word};
use itoa::Buffer;
use mf_answers::{Reason, reason, rule_reason};
use mf_errno::{Errno, Module, Priv};
use mf_item::{CheckOp, Item};
use mf_plan::State;
use mf_policy::{Spec, SpecList};
use mf_rule::{MAX_RULES, Rule};
use std::alloc::AllocError;

/// The line of a check of that number which was denied, and those of why.
pub fn push_denial(
    state: &State,
    place: &str,
    number: u8,
    by: Option<Module>,
    item: &Item,
    text: &mut String,
) -> Result<(), AllocError>
    requires { HaveLabelSlots state.now.specs }
    ensures ok { OnOk result (string_bytes text.new
        ≡ string_bytes text.old ++ spec.denial_text state.now place.now number by item.now) }
    ensures err { OnErr result (Extends (string_bytes text.old) (string_bytes text.new)) }
{
    push_denied(state, place, number, item, text)?;
    push_causes(&state.specs, place, by, item, text)
}

/// The line of the check.
fn push_denied(
    state: &State,
    place: &str,
    number: u8,
    item: &Item,
    text: &mut String,
) -> Result<(), AllocError>
    ensures ok { OnOk result (string_bytes text.new
        ≡ string_bytes text.old ++ spec.denied_line state.now.objects place.now number item.now) }
    ensures err { OnErr result (Extends (string_bytes text.old) (string_bytes text.new)) }
{
    push_head("denied", place, text)?;
    push_check(number, item.op(), text)?;
    push_subject(&state.objects, item, text)?;
    push_last(&state.objects, item, text)
}

fn push_check(number: u8, op: CheckOp, text: &mut String) -> Result<(), AllocError>
    ensures ok { OnOk result (string_bytes text.new ≡ string_bytes text.old
        ++ (decimal number ++ codes " " ++ operation_text op ++ codes " ")) }
    ensures err { OnErr result (Extends (string_bytes text.old) (string_bytes text.new)) }
{
    push_number(number as u32, text)?;
    push_word(op.name(), text)
}

/// Why: for a privilege nobody grants it, and else each policy that denies says so.
fn push_causes(
    listed: &SpecList,
    place: &str,
    by: Option<Module>,
    item: &Item,
    text: &mut String,
) -> Result<(), AllocError>
    requires { HaveLabelSlots listed.now }
    ensures ok { OnOk result (string_bytes text.new
        ≡ string_bytes text.old ++ spec.causes_text listed.now place.now by item.now) }
    ensures err { OnErr result (Extends (string_bytes text.old) (string_bytes text.new)) }
{
    match item.op() {
        CheckOp::Priv => push_privilege(place, item, text),
        _ => push_deniers(listed, place, by, item, text),
    }
}

fn push_privilege(place: &str, item: &Item, text: &mut String) -> Result<(), AllocError>
    ensures ok { OnOk result (string_bytes text.new
        ≡ string_bytes text.old ++ spec.privilege_line place.now item.now) }
    ensures err { OnErr result (Extends (string_bytes text.old) (string_bytes text.new)) }
{
    push_head("why", place, text)?;
    push_lack(item.privilege(), item.subject().cred.uid, text)?;
    text.push_str("\n")
}

/// That a subject of this effective uid lacks the privilege.
fn push_lack(privilege: Option<Priv>, uid: u32, text: &mut String) -> Result<(), AllocError>
    ensures ok { OnOk result (string_bytes text.new
        ≡ string_bytes text.old ++ spec.lack_text privilege uid) }
    ensures err { OnErr result (Extends (string_bytes text.old) (string_bytes text.new)) }
{
    push_lacking("- decides EPERM ", privilege, text)?;
    push_uid(uid, text)
}

/// The privilege, behind these words.
fn push_lacking(words: &str, privilege: Option<Priv>, text: &mut String) -> Result<(), AllocError>
    ensures ok { OnOk result (string_bytes text.new ≡ string_bytes text.old
        ++ (words.now ++ (codes "privilege "
        ++ option_map_or privilege_text privilege (codes "-")))) }
    ensures err { OnErr result (Extends (string_bytes text.old) (string_bytes text.new)) }
{
    text.push_str(words)?;
    push_privilege_name(privilege, text)
}

fn push_uid(uid: u32, text: &mut String) -> Result<(), AllocError>
    ensures ok { OnOk result (string_bytes text.new
        ≡ string_bytes text.old ++ (codes " uid " ++ decimal uid)) }
    ensures err { OnErr result (Extends (string_bytes text.old) (string_bytes text.new)) }
{
    text.push_str(" uid ")?;
    text.push_str(Buffer::new().format(uid))
}

fn push_privilege_name(privilege: Option<Priv>, text: &mut String) -> Result<(), AllocError>
    ensures ok { OnOk result (string_bytes text.new ≡ string_bytes text.old
        ++ (codes "privilege " ++ option_map_or privilege_text privilege (codes "-"))) }
    ensures err { OnErr result (Extends (string_bytes text.old) (string_bytes text.new)) }
{
    text.push_str("privilege ")?;
    text.push_str(name_of(privilege))
}

fn name_of(privilege: Option<Priv>) -> &'static str
    ensures { result.now ≡ option_map_or privilege_text privilege (codes "-") }
{
    match privilege {
        None => "-",
        Some(privilege) => privilege.name(),
    }
}

/// The lines of each listed policy that denies, in walk order.
fn push_deniers(
    listed: &SpecList,
    place: &str,
    by: Option<Module>,
    item: &Item,
    text: &mut String,
) -> Result<(), AllocError>
    requires { HaveLabelSlots listed.now }
    ensures ok { OnOk result (string_bytes text.new ≡ string_bytes text.old
        ++ flat_map (spec.denier_text place.now) (flat_map (denier by item.now) listed.now)) }
    ensures err { OnErr result (Extends (string_bytes text.old) (string_bytes text.new)) }
{
    for number in 0..listed.len() {
        push_denier(listed, number, place, by, item, text)?;
    }
    Ok(())
}

/// The lines of the listed policy of that number, where it denies.
fn push_denier(
    listed: &SpecList,
    number: usize,
    place: &str,
    by: Option<Module>,
    item: &Item,
    text: &mut String,
) -> Result<(), AllocError>
    requires slots { HaveLabelSlots listed.now }
    requires number { number < length listed.now }
    ensures ok { (other : Entry) → OnOk result (string_bytes text.new ≡ string_bytes text.old
        ++ flat_map (spec.denier_text place.now)
        (denier by item.now (slice_index_or listed.now number other))) }
    ensures err { OnErr result (Extends (string_bytes text.old) (string_bytes text.new)) }
{
    let registration = listed.registration(number);
    let means = listed.spec(number);
    match reason(means, registration.slot.unwrap_or(0), item) {
        None => Ok(()),
        Some(reason) => push_told(place, registration.module, by, means, item, &reason, text),
    }
}

/// The line of a policy that denies, and those of its other rules.
fn push_told(
    place: &str,
    module: Module,
    by: Option<Module>,
    means: &Spec,
    item: &Item,
    reason: &Reason,
    text: &mut String,
) -> Result<(), AllocError>
    ensures ok { OnOk result (string_bytes text.new ≡ string_bytes text.old
        ++ (spec.why_line place.now «module» (mark_of by «module») reason.now
        ++ flat_map (spec.other_text place.now «module»)
        (other_reasons means.now item.now reason.now))) }
    ensures err { OnErr result (Extends (string_bytes text.old) (string_bytes text.new)) }
{
    push_why(place, module, Mark::of(module, by), reason, text)?;
    push_others(place, module, means, item, reason, text)
}

fn push_why(
    place: &str,
    module: Module,
    mark: Mark,
    reason: &Reason,
    text: &mut String,
) -> Result<(), AllocError>
    ensures ok { OnOk result (string_bytes text.new ≡ string_bytes text.old
        ++ spec.why_line place.now «module» mark reason.now) }
    ensures err { OnErr result (Extends (string_bytes text.old) (string_bytes text.new)) }
{
    push_head("why", place, text)?;
    push_denying(module, mark, reason.errno(), text)?;
    push_reason_line(reason, text)
}

/// The policy, what it has to do with the reply, and its error.
fn push_denying(
    module: Module,
    mark: Mark,
    errno: Errno,
    text: &mut String,
) -> Result<(), AllocError>
    ensures ok { OnOk result (string_bytes text.new ≡ string_bytes text.old
        ++ (module_text «module» ++ codes " " ++ spec.mark_text mark ++ codes " "
        ++ error_text errno ++ codes " ")) }
    ensures err { OnErr result (Extends (string_bytes text.old) (string_bytes text.new)) }
{
    push_word(module.name(), text)?;
    push_word(mark.name(), text)?;
    push_word(errno.name(), text)
}

/// The reason, at the end of a line.
fn push_reason_line(reason: &Reason, text: &mut String) -> Result<(), AllocError>
    ensures ok { OnOk result (string_bytes text.new
        ≡ string_bytes text.old ++ (reason_text reason.now ++ codes "\n")) }
    ensures err { OnErr result (Extends (string_bytes text.old) (string_bytes text.new)) }
{
    push_reason(reason, text)?;
    text.push_str("\n")
}

/// Without first match, a line for each other rule of mac_bsdextended that denies by itself.
fn push_others(
    place: &str,
    module: Module,
    means: &Spec,
    item: &Item,
    reason: &Reason,
    text: &mut String,
) -> Result<(), AllocError>
    ensures ok { OnOk result (string_bytes text.new ≡ string_bytes text.old
        ++ flat_map (spec.other_text place.now «module»)
        (other_reasons means.now item.now reason.now)) }
    ensures err { OnErr result (Extends (string_bytes text.old) (string_bytes text.new)) }
{
    match (means, reason) {
        (
            Spec::Bsdextended {
                rules,
                first_match: false,
            },
            Reason::Rule { number, .. },
        ) => push_other_rules(place, module, rules.as_slice(), item, *number, text),
        _ => Ok(()),
    }
}

fn push_other_rules(
    place: &str,
    module: Module,
    rules: &[Option<Rule>],
    item: &Item,
    told: u32,
    text: &mut String,
) -> Result<(), AllocError>
    requires { length rules.now ≤ MAX_RULES }
    ensures ok { OnOk result (string_bytes text.new ≡ string_bytes text.old
        ++ flat_map (spec.other_text place.now «module»)
        (flat_map (other_reason rules.now item.now told) (range_with_len 0 (length rules.now)))) }
    ensures err { OnErr result (Extends (string_bytes text.old) (string_bytes text.new)) }
{
    for number in 0..rules.len() {
        push_other_rule(place, module, rules, item, told, number as u32, text)?;
    }
    Ok(())
}

fn push_other_rule(
    place: &str,
    module: Module,
    rules: &[Option<Rule>],
    item: &Item,
    told: u32,
    number: u32,
    text: &mut String,
) -> Result<(), AllocError>
    requires { number < length rules.now }
    ensures ok { OnOk result (string_bytes text.new ≡ string_bytes text.old
        ++ flat_map (spec.other_text place.now «module»)
        (other_reason rules.now item.now told number)) }
    ensures err { OnErr result (Extends (string_bytes text.old) (string_bytes text.new)) }
{
    if number == told {
        return Ok(());
    }
    match rule_reason(rules, number, item) {
        None => Ok(()),
        Some(reason) => push_other(place, module, &reason, text),
    }
}

fn push_other(
    place: &str,
    module: Module,
    reason: &Reason,
    text: &mut String,
) -> Result<(), AllocError>
    ensures ok { OnOk result (string_bytes text.new
        ≡ string_bytes text.old ++ spec.other_text place.now «module» reason.now) }
    ensures err { OnErr result (Extends (string_bytes text.old) (string_bytes text.new)) }
{
    push_head("also", place, text)?;
    push_word(module.name(), text)?;
    push_reason_line(reason, text)
}
