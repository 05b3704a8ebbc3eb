//! The words of each kind of line. What they ask for is judged afterwards.
#![tactic(auto, unfolding(crate::specs::Readers::and_then))]

ghost use Rattle.std.specs.Prelude.{◌≡◌};
ghost use Rattle.mf_script.specs.Gives.{Gives};
ghost use Rattle.mf_script.specs.Lines.{boot_words, tunable_words, file_content, file_view, file_words, cred_words, task_words, line_words, step_kind_of, step_words};

use crate::error::ScriptFault;
use crate::refusal::{Refusal, faulty};
use crate::{Words, calls, names, numbers, parts};
use mf_calls::{Boxed, Bytes, Line, Name, Path, SCRIPT_LIMIT, Step, StepKind, Word};
use mf_cred::{Cred, FileView};
use std::alloc::Global;

/// The words of a file line. Its label isn't read yet.
#[derive(Drop)]
pub struct FileWords {
    pub path: Path,
    pub file: FileView,
    pub label: Word,
    pub text: Bytes<SCRIPT_LIMIT>,
}

/// The words of a task line. Its label isn't read yet.
#[derive(Drop)]
pub struct TaskWords {
    pub name: Name,
    pub cred: Cred,
    pub label: Word,
}

/// The words behind `boot`: the name of a module.
#[tactic(auto, unfolding(crate::specs::Lines::boot_words, crate::specs::Readers::and_then))]
pub fn boot_words(alloc: Global, words: &mut Words) -> Result<Word, Refusal>
    ensures { Gives (λ name. name) result (boot_words words.old) }
{
    let name = parts::word(alloc, words)?;
    parts::at_end(words, name)
}

/// The words behind `tunable`: a name and its value.
#[tactic(auto, unfolding(crate::specs::Lines::tunable_words, crate::specs::Readers::and_then))]
pub fn tunable_words(alloc: Global, words: &mut Words) -> Result<(Word, Word), Refusal>
    ensures { Gives (λ sides. sides) result (tunable_words words.old) }
{
    let sides = parts::sides(alloc, words)?;
    parts::at_end(words, sides)
}

/// The text of a file line, where it has one. A directory has none.
#[tactic(auto, unfolding(crate::specs::Lines::file_content, crate::specs::Parts::field, crate::specs::Readers::and_then))]
fn file_content(alloc: Global, dir: bool, words: &mut Words) -> Result<Bytes<SCRIPT_LIMIT>, Refusal>
    ensures { Gives (λ text. (text, words.new)) result (file_content dir words.old) }
{
    match words.next() {
        None => Ok(Bytes::new(alloc)),
        Some(word) => {
            if word != "text" {
                return Err(faulty(if dir {
                    ScriptFault::Extra
                } else {
                    ScriptFault::UnknownWord
                }));
            }
            if dir {
                return Err(faulty(ScriptFault::UnknownWord));
            }
            let text = parts::text(alloc, words)?;
            Ok(text)
        }
    }
}

/// The attributes of a file: its kind, its owner, its group and its mode.
#[tactic(auto, unfolding(crate::specs::Lines::file_view, crate::specs::Readers::and_then))]
fn file_view(words: &mut Words) -> Result<FileView, Refusal>
    ensures { Gives (λ f. (f, words.new)) result (file_view words.old) }
{
    let dir = parts::is_directory(words)?;
    let uid = numbers::number_field(words, "uid")?;
    let gid = numbers::number_field(words, "gid")?;
    let mode = numbers::mode_field(words, "mode")?;
    Ok(FileView {
        uid,
        gid,
        mode,
        dir,
    })
}

/// The words behind `file`.
#[tactic(auto, unfolding(crate::specs::Lines::file_words, crate::specs::Readers::and_then))]
pub fn file_words(alloc: Global, words: &mut Words) -> Result<FileWords, Refusal>
    ensures { Gives (λ f. f) result (file_words words.old) }
{
    let path = names::path(alloc, words)?;
    let file = file_view(words)?;
    let label = parts::word_field(alloc, words, "label")?;
    let text = file_content(alloc, file.dir, words)?;
    let asked = FileWords {
        path,
        file,
        label,
        text,
    };
    parts::at_end(words, asked)
}

/// The credential of a task: its uid and its groups.
#[tactic(auto, unfolding(crate::specs::Lines::cred_words, crate::specs::Readers::and_then))]
fn cred_words(words: &mut Words) -> Result<Cred, Refusal>
    ensures { Gives (λ c. (c, words.new)) result (cred_words words.old) }
{
    let uid = numbers::number_field(words, "uid")?;
    let groups = numbers::groups_field(words, "gid")?;
    Ok(Cred {
        uid,
        ruid: uid,
        svuid: uid,
        groups,
    })
}

/// The words behind `task`.
#[tactic(auto, unfolding(crate::specs::Lines::task_words, crate::specs::Readers::and_then))]
pub fn task_words(alloc: Global, words: &mut Words) -> Result<TaskWords, Refusal>
    ensures { Gives (λ t. t) result (task_words words.old) }
{
    let name = names::name(alloc, words)?;
    let cred = cred_words(words)?;
    let label = parts::word_field(alloc, words, "label")?;
    parts::at_end(words, TaskWords { name, cred, label })
}

/// A line of a task, by its first word: a call, and the child that makes it where the line names one.
#[tactic(auto, unfolding(crate::specs::Lines::line_words, crate::specs::Readers::and_then))]
pub fn line_words(alloc: Global, first: &str, words: &mut Words) -> Result<Line, Refusal>
    ensures { Gives (λ l. l) result (line_words first.now words.old) }
{
    match names::behind(first, '@') {
        None => {
            let call = calls::call_named(alloc, first, words)?;
            Ok(Line { child: None, call })
        }
        Some(name) => {
            let child = Boxed::new(alloc, names::name_of(alloc, name)?)?;
            let call = calls::call_words(alloc, words)?;
            Ok(Line {
                child: Some(child),
                call,
            })
        }
    }
}

#[tactic(auto, unfolding(crate::specs::Lines::step_kind_of))]
fn step_kind_of(word: &str) -> Result<StepKind, Refusal>
    ensures { Gives (λ kind. kind) result (step_kind_of word.now) }
{
    match word {
        "enter" => Ok(StepKind::Enter),
        "plan" => Ok(StepKind::Plan),
        "done" => Ok(StepKind::Done),
        "leave" => Ok(StepKind::Leave),
        "change" => Ok(StepKind::Change),
        _ => Err(faulty(ScriptFault::UnknownWord)),
    }
}

/// A step, by its first word.
#[tactic(auto, unfolding(crate::specs::Lines::step_words, crate::specs::Readers::and_then))]
pub fn step_words(alloc: Global, first: &str, words: &mut Words) -> Result<Step, Refusal>
    ensures { Gives (λ step. step) result (step_words first.now words.old) }
{
    let kind = step_kind_of(first)?;
    let task = names::name(alloc, words)?;
    parts::at_end(words, Step { kind, task })
}
