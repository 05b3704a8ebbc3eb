//! The lines of a script, one function for each kind.
ghost use Rattle.std.specs.Str.{byte};
ghost use Rattle.std.specs.Prelude.{◌≡◌, ◌∷◌, ◌++◌, true, OnOk, OnErr, codes, string_bytes};
ghost use Rattle.std.specs.Option.{option_copied};
ghost use Rattle.std.specs.Fmt.{decimal};
ghost use Rattle.mf_text.specs.Appending.{Extends};
ghost use Rattle.mf_spelling.specs.Spelling.{boot_pieces, file_pieces, line_pieces, step_pieces, step_word, task_pieces, text_pieces, tunable_pieces};
ghost use Rattle.mf_spelling.specs.Canonical.{line_text, octal, words_behind};
ghost use Rattle.mf_spelling.specs.Printed.{Adds, attribute_pieces, caller_text, credential_pieces, inside_pieces, kind_word, owner_pieces};

use crate::calls::push_call;
use crate::words::{
    push_groups, push_label, push_mode, push_number, push_path, push_setting, push_text, push_word,
};
use mf_calls::{FileLine, Line, Step, StepKind, Task, revocation_name};
use mf_cred::{Cred, FileView};
use mf_errno::Module;
use std::alloc::{AllocError, Global};

pub fn push_boot(module: Module, out: &mut String) -> Result<(), AllocError>
    ensures ok { OnOk result (Adds out.old out.new (line_text (boot_pieces «module»))) }
    ensures err { OnErr result (Extends (string_bytes out.old) (string_bytes out.new)) }
{
    out.push_str("boot")?;
    push_word(module.name(), out)?;
    out.push('\n')
}

/// The line that turns the tunable on.
pub fn push_tunable(out: &mut String) -> Result<(), AllocError>
    ensures ok { OnOk result (Adds out.old out.new (line_text (tunable_pieces true))) }
    ensures err { OnErr result (Extends (string_bytes out.old) (string_bytes out.new)) }
{
    out.push_str("tunable")?;
    push_setting(revocation_name(), "1", out)?;
    out.push('\n')
}

pub fn push_file(alloc: Global, file: &FileLine, out: &mut String) -> Result<(), AllocError>
    ensures ok { OnOk result (Adds out.old out.new (line_text (file_pieces file.now))) }
    ensures err { OnErr result (Extends (string_bytes out.old) (string_bytes out.new)) }
{
    out.push_str("file")?;
    push_path(&file.path, out)?;
    push_attributes(&file.file, out)?;
    push_inside(alloc, file, out)?;
    out.push('\n')
}

/// The label of a file and what it holds.
fn push_inside(alloc: Global, file: &FileLine, out: &mut String) -> Result<(), AllocError>
    ensures ok { OnOk result (Adds out.old out.new (words_behind (inside_pieces file.now))) }
    ensures err { OnErr result (Extends (string_bytes out.old) (string_bytes out.new)) }
{
    out.push_str(" label")?;
    push_label(alloc, &file.label, out)?;
    push_content(file.text.as_slice(), out)
}

/// The kind of a file, its owner, its group and its mode.
fn push_attributes(file: &FileView, out: &mut String) -> Result<(), AllocError>
    ensures ok { OnOk result (Adds out.old out.new (words_behind (attribute_pieces file.now))) }
    ensures err { OnErr result (Extends (string_bytes out.old) (string_bytes out.new)) }
{
    push_word(kind_name(file.dir), out)?;
    push_owner(file, out)?;
    push_permissions(file.mode, out)
}

fn push_permissions(mode: u16, out: &mut String) -> Result<(), AllocError>
    ensures ok { OnOk result (Adds out.old out.new (codes " mode " ++ octal mode)) }
    ensures err { OnErr result (Extends (string_bytes out.old) (string_bytes out.new)) }
{
    out.push_str(" mode")?;
    push_mode(mode, out)
}

fn push_owner(file: &FileView, out: &mut String) -> Result<(), AllocError>
    ensures ok { OnOk result (Adds out.old out.new (words_behind (owner_pieces file.now))) }
    ensures err { OnErr result (Extends (string_bytes out.old) (string_bytes out.new)) }
{
    push_field(" uid", file.uid, out)?;
    push_field(" gid", file.gid, out)
}

fn kind_name(dir: bool) -> &'static str
    ensures { result.now ≡ kind_word dir }
{
    if dir { "dir" } else { "reg" }
}

/// What a number is, and the number.
fn push_field(title: &str, number: u32, out: &mut String) -> Result<(), AllocError>
    ensures ok { OnOk result (Adds out.old out.new (title.now ++ byte " " ∷ decimal number)) }
    ensures err { OnErr result (Extends (string_bytes out.old) (string_bytes out.new)) }
{
    out.push_str(title)?;
    push_number(number, out)
}

/// What a file holds, where it holds some byte.
fn push_content(text: &[u8], out: &mut String) -> Result<(), AllocError>
    ensures ok { OnOk result (Adds out.old out.new (words_behind (text_pieces text.now))) }
    ensures err { OnErr result (Extends (string_bytes out.old) (string_bytes out.new)) }
{
    if text.is_empty() {
        return Ok(());
    }
    out.push_str(" text")?;
    push_text(text, out)
}

/// The first line of a task.
pub fn push_task(alloc: Global, task: &Task, out: &mut String) -> Result<(), AllocError>
    ensures ok { OnOk result (Adds out.old out.new (line_text (task_pieces task.now))) }
    ensures err { OnErr result (Extends (string_bytes out.old) (string_bytes out.new)) }
{
    out.push_str("task")?;
    push_word(task.name.as_str(), out)?;
    push_credential(&task.cred, out)?;
    out.push_str(" label")?;
    push_label(alloc, &task.label, out)?;
    out.push('\n')
}

fn push_credential(cred: &Cred, out: &mut String) -> Result<(), AllocError>
    ensures ok { OnOk result (Adds out.old out.new (words_behind (credential_pieces cred.now))) }
    ensures err { OnErr result (Extends (string_bytes out.old) (string_bytes out.new)) }
{
    push_field(" uid", cred.uid, out)?;
    out.push_str(" gid")?;
    push_groups(cred.groups.as_slice(), out)
}

/// A line of a task.
pub fn push_line(line: &Line, out: &mut String) -> Result<(), AllocError>
    ensures ok { OnOk result (Adds out.old out.new (line_text (line_pieces line.now))) }
    ensures err { OnErr result (Extends (string_bytes out.old) (string_bytes out.new)) }
{
    push_caller(line.child_name(), out)?;
    push_call(&line.call, out)?;
    out.push('\n')
}

/// The child that makes the call, where it isn't the task's own process.
fn push_caller(child: Option<&str>, out: &mut String) -> Result<(), AllocError>
    ensures ok { OnOk result (Adds out.old out.new (caller_text (option_copied child.entry))) }
    ensures err { OnErr result (Extends (string_bytes out.old) (string_bytes out.new)) }
{
    let Some(child) = child else {
        return Ok(());
    };
    out.push('@')?;
    out.push_str(child)?;
    out.push(' ')
}

pub fn push_step(step: &Step, out: &mut String) -> Result<(), AllocError>
    ensures ok { OnOk result (Adds out.old out.new (line_text (step_pieces step.now))) }
    ensures err { OnErr result (Extends (string_bytes out.old) (string_bytes out.new)) }
{
    out.push_str(step_name(step.kind))?;
    push_word(step.task.as_str(), out)?;
    out.push('\n')
}

fn step_name(kind: StepKind) -> &'static str
    ensures { result.now ≡ step_word kind }
{
    match kind {
        StepKind::Enter => "enter",
        StepKind::Plan => "plan",
        StepKind::Done => "done",
        StepKind::Leave => "leave",
        StepKind::Change => "change",
    }
}
