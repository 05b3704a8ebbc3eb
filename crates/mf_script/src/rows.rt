//! Which line may stand where, and what it adds to the script.
#![tactic(auto, unfolding(crate::specs::Readers::and_then))]

ghost use Rattle.std.specs.Prelude.{◌≡◌, ◌++◌, ◌∷◌, [], ℕ, List, Ok, length, nat_lt};
ghost use Rattle.mf_calls.specs.declared.limits.TheConstants.{LINE_LIMIT};
ghost use Rattle.mf_calls.specs.declared.script.Script.{Script};
ghost use Rattle.mf_calls.specs.declared.script.Task.{Task};
ghost use Rattle.mf_script.specs.declared.error.ScriptFault.TheVariants.{TooMany};
ghost use Rattle.mf_script.specs.Readers.{Read, and_then, unless};
ghost use Rattle.mf_script.specs.Gives.{Gives};
ghost use Rattle.mf_script.specs.declared.rows.Place.TheVariants as places;
ghost use Rattle.mf_script.specs.Grammar.{Reading, booted_after, boot_in, tunable_in, file_in, task_in, line_in, step_in, nothing_behind, behind_tasks, behind_files, behind_tunable, behind_boots, in_steps, row_in, with_list, words_line};

use crate::error::ScriptFault;
use crate::refusal::{Refusal, faulty};
use crate::{Words, judging, lines, parts};
use mf_calls::{LINE_LIMIT, Line, Listing, STEP_LIMIT, Script, Task};
use mf_errno::Module;
use mf_words::is_comment;
use std::alloc::Global;
use std::mem;

/// Where the next line stands. Among tasks it is known how many of their lines list the rules.
#[derive(Drop)]
pub enum Place {
    /// Behind boot lines, or none.
    Boots,
    /// Behind the tunable.
    Tunable,
    /// Behind files.
    Files,
    /// Behind a task that has ended.
    Tasks(usize),
    /// Inside this task, behind its lines so far.
    Task(Task, usize),
    /// Inside the steps.
    Steps,
    /// Behind the steps.
    End,
}

/// The module behind `boot`, where it may be booted after these.
#[tactic(auto, unfolding(crate::specs::Grammar::booted_after, crate::specs::Readers::and_then))]
fn booted_after(alloc: Global, boots: &[Module], words: &mut Words) -> Result<Module, Refusal>
    ensures { Gives (λ m. m) result (booted_after boots.now words.old) }
{
    let name = lines::boot_words(alloc, words)?;
    judging::judged_boot(boots, name.as_str())
}

/// Takes the words behind `boot`.
#[tactic(auto, unfolding(crate::specs::Grammar::boot_in, crate::specs::Readers::and_then))]
fn boot_row(alloc: Global, script: &mut Script, words: &mut Words) -> Result<Place, Refusal>
    ensures { Gives (λ p. (script.new, p)) result (boot_in script.old words.old) }
{
    let booted = booted_after(alloc, script.boots.as_slice(), words)?;
    script.boots.push(booted)?;
    Ok(Place::Boots)
}

/// Takes the words behind `tunable`; `again` where an earlier line has set it.
#[tactic(auto, unfolding(crate::specs::Grammar::tunable_in, crate::specs::Readers::and_then))]
fn tunable_row(
    alloc: Global,
    script: &mut Script,
    again: bool,
    words: &mut Words,
) -> Result<Place, Refusal>
    ensures { Gives (λ p. (script.new, p)) result (tunable_in script.old again words.old) }
{
    let (name, value) = lines::tunable_words(alloc, words)?;
    let boots = script.boots.as_slice();
    script.revocation = judging::judged_tunable(boots, again, name.as_str(), value.as_str())?;
    Ok(Place::Tunable)
}

/// Takes the words behind `file`.
#[tactic(auto, unfolding(crate::specs::Grammar::file_in, crate::specs::Readers::and_then))]
fn file_row(alloc: Global, script: &mut Script, words: &mut Words) -> Result<Place, Refusal>
    ensures { Gives (λ p. (script.new, p)) result (file_in script.old words.old) }
{
    let asked = lines::file_words(alloc, words)?;
    let boots = script.boots.as_slice();
    let file = judging::judged_file(alloc, boots, script.files.as_slice(), asked)?;
    script.files.push(file)?;
    Ok(Place::Files)
}

/// Takes the words behind `task`.
#[tactic(auto, unfolding(crate::specs::Grammar::task_in, crate::specs::Readers::and_then))]
fn task_row(
    alloc: Global,
    script: &Script,
    lists: usize,
    words: &mut Words,
) -> Result<Place, Refusal>
    ensures { Gives (λ p. (script.now, p)) result (task_in script.now lists words.old) }
{
    let asked = lines::task_words(alloc, words)?;
    let boots = script.boots.as_slice();
    let task = judging::judged_task(alloc, boots, script.tasks.as_slice(), asked)?;
    Ok(Place::Task(task, lists))
}

/// How many lines list the rules, with this line, where the task has room for it.
fn lists_with(task: &Task, line: &Line, lists: usize) -> Result<usize, Refusal>
    ensures { Gives (λ n. n) result
        (and_then (unless TooMany (nat_lt (length task.now.lines) LINE_LIMIT))
        (λ u. with_list line.now.call lists)) }
{
    if task.lines.len() >= LINE_LIMIT {
        return Err(faulty(ScriptFault::TooMany));
    }
    judging::with_list(&line.call, lists)
}

/// Adds the item and sets the count, where the count isn't refused. A caller that hands its item on here owns none over a refusal.
fn push_counted<T: Drop>(
    list: &mut Listing<T>,
    item: T,
    count: &mut usize,
    counted: Result<usize, Refusal>,
) -> Result<(), Refusal>
    ensures { (read : Read ℕ) → Gives (λ n. n) counted read →
        Gives {Y = List T × ℕ} (λ u. (list.new, count.new)) result
        (and_then read (λ n. Ok (list.old ++ item ∷ [], n))) }
{
    *count = counted?;
    list.push(item)?;
    Ok(())
}

/// Takes a line of the task, by its first word.
#[tactic(auto, unfolding(crate::specs::Grammar::line_in, crate::specs::Readers::and_then))]
fn line_row(
    alloc: Global,
    task: &mut Task,
    lists: &mut usize,
    first: &str,
    words: &mut Words,
) -> Result<(), Refusal>
    ensures { (s : Script) → Gives (λ u. (s, places.Task task.new lists.new)) result
        (line_in s task.old lists.old first.now words.old) }
{
    let line = lines::line_words(alloc, first, words)?;
    let counted = lists_with(task, &line, *lists);
    push_counted(&mut task.lines, line, lists, counted)
}

/// Takes a step, by its first word.
#[tactic(auto, unfolding(crate::specs::Grammar::step_in, crate::specs::Readers::and_then))]
fn step_row(
    alloc: Global,
    script: &mut Script,
    first: &str,
    words: &mut Words,
) -> Result<Place, Refusal>
    ensures { Gives (λ p. (script.new, p)) result (step_in script.old first.now words.old) }
{
    let step = lines::step_words(alloc, first, words)?;
    if script.steps.len() >= STEP_LIMIT {
        return Err(faulty(ScriptFault::TooMany));
    }
    script.steps.push(step)?;
    Ok(Place::Steps)
}

/// Puts the task at this place behind those of the script.
fn close_task(script: &mut Script, place: &mut Place) -> Result<(), Refusal>
    ensures { (t : Task) (lists : ℕ) → place.old ≡ places.Task t lists →
        Gives {Y = Reading} (λ u. (script.new, place.new)) result
        (Ok (record (script.old) { tasks = script.old.tasks ++ t ∷ [] }, places.Tasks lists)) }
{
    if let Place::Task(task, lists) = mem::replace(place, Place::End) {
        script.tasks.push(task)?;
        *place = Place::Tasks(lists);
    }
    Ok(())
}

/// Ends the task at this place.
#[tactic(auto, unfolding(crate::specs::Grammar::nothing_behind, crate::specs::Readers::and_then))]
fn end_row(script: &mut Script, place: &mut Place, words: &mut Words) -> Result<(), Refusal>
    ensures { (t : Task) (lists : ℕ) → place.old ≡ places.Task t lists →
        Gives {Y = Reading} (λ u. (script.new, place.new)) result
        (nothing_behind
        (record (script.old) { tasks = script.old.tasks ++ t ∷ [] }, places.Tasks lists)
        words.old) }
{
    parts::no_more(words)?;
    close_task(script, place)
}

/// Takes a line of one word, behind which the next stands at this place.
#[tactic(auto, unfolding(crate::specs::Grammar::nothing_behind, crate::specs::Readers::and_then))]
fn nothing_behind(script: &Script, next: Place, words: &mut Words) -> Result<Place, Refusal>
    ensures { Gives (λ p. (script.now, p)) result (nothing_behind (script.now, next) words.old) }
{
    parts::at_end(words, next)
}

/// Takes a line behind tasks, by its first word.
#[tactic(auto, unfolding(crate::specs::Grammar::behind_tasks))]
fn behind_tasks(
    alloc: Global,
    script: &Script,
    lists: usize,
    first: &str,
    words: &mut Words,
) -> Result<Place, Refusal>
    ensures { Gives (λ p. (script.now, p)) result
        (behind_tasks script.now lists first.now words.old) }
{
    match first {
        "task" => task_row(alloc, script, lists, words),
        "steps" => nothing_behind(script, Place::Steps, words),
        _ => Err(faulty(ScriptFault::UnknownWord)),
    }
}

/// Takes a line behind files.
#[tactic(auto, unfolding(crate::specs::Grammar::behind_files))]
fn behind_files(
    alloc: Global,
    script: &mut Script,
    first: &str,
    words: &mut Words,
) -> Result<Place, Refusal>
    ensures { Gives (λ p. (script.new, p)) result (behind_files script.old first.now words.old) }
{
    if first == "file" {
        file_row(alloc, script, words)
    } else {
        behind_tasks(alloc, script, 0, first, words)
    }
}

/// Takes a line that may set the tunable; `again` where an earlier line has set it.
#[tactic(auto, unfolding(crate::specs::Grammar::behind_tunable))]
fn behind_tunable(
    alloc: Global,
    script: &mut Script,
    again: bool,
    first: &str,
    words: &mut Words,
) -> Result<Place, Refusal>
    ensures { Gives (λ p. (script.new, p)) result
        (behind_tunable script.old again first.now words.old) }
{
    if first == "tunable" {
        tunable_row(alloc, script, again, words)
    } else {
        behind_files(alloc, script, first, words)
    }
}

/// Takes a line behind boot lines.
#[tactic(auto, unfolding(crate::specs::Grammar::behind_boots))]
fn behind_boots(
    alloc: Global,
    script: &mut Script,
    first: &str,
    words: &mut Words,
) -> Result<Place, Refusal>
    ensures { Gives (λ p. (script.new, p)) result (behind_boots script.old first.now words.old) }
{
    if first == "boot" {
        boot_row(alloc, script, words)
    } else {
        behind_tunable(alloc, script, false, first, words)
    }
}

/// Takes a line inside the steps.
#[tactic(auto, unfolding(crate::specs::Grammar::in_steps))]
fn in_steps(
    alloc: Global,
    script: &mut Script,
    first: &str,
    words: &mut Words,
) -> Result<Place, Refusal>
    ensures { Gives (λ p. (script.new, p)) result (in_steps script.old first.now words.old) }
{
    if first == "end" {
        nothing_behind(script, Place::End, words)
    } else {
        step_row(alloc, script, first, words)
    }
}

/// Goes on to the next place, where there is one.
fn go_to<T: Drop>(place: &mut T, next: Result<T, Refusal>) -> Result<(), Refusal>
    ensures { (s : Script) (read : Read (Script × T)) → Gives (λ p. (s, p)) next read →
        Gives (λ u. (s, place.new)) result read }
{
    *place = next?;
    Ok(())
}

/// Takes a line at this place, by its first word, and goes on to the place of the next line. Most are lines inside a task, which leave
/// the place where it is: for them no place is made.
#[tactic(auto, unfolding(crate::specs::Grammar::row_in, crate::specs::Grammar::in_task))]
fn row(
    alloc: Global,
    script: &mut Script,
    place: &mut Place,
    first: &str,
    words: &mut Words,
) -> Result<(), Refusal>
    ensures { Gives (λ u. (script.new, place.new)) result
        (row_in script.old place.old first.now words.old) }
{
    if first != "end" {
        if let Place::Task(task, lists) = place {
            return line_row(alloc, task, lists, first, words);
        }
    }
    any_row(alloc, script, place, first, words)
}

/// The same of any line.
#[tactic(auto, unfolding(crate::specs::Grammar::row_in, crate::specs::Grammar::in_task))]
fn any_row(
    alloc: Global,
    script: &mut Script,
    place: &mut Place,
    first: &str,
    words: &mut Words,
) -> Result<(), Refusal>
    ensures { Gives (λ u. (script.new, place.new)) result
        (row_in script.old place.old first.now words.old) }
{
    match place {
        Place::Boots => go_to(place, behind_boots(alloc, script, first, words)),
        Place::Tunable => go_to(place, behind_tunable(alloc, script, true, first, words)),
        Place::Files => go_to(place, behind_files(alloc, script, first, words)),
        Place::Tasks(lists) => {
            let next = behind_tasks(alloc, script, *lists, first, words);
            go_to(place, next)
        }
        Place::Task(task, lists) => {
            if first == "end" {
                end_row(script, place, words)
            } else {
                line_row(alloc, task, lists, first, words)
            }
        }
        Place::Steps => go_to(place, in_steps(alloc, script, first, words)),
        Place::End => Err(faulty(ScriptFault::UnknownWord)),
    }
}

/// Takes a line's words at this place. A line without words says nothing, and neither does a comment.
#[tactic(auto, unfolding(crate::specs::Grammar::words_line))]
pub fn words_line(
    alloc: Global,
    script: &mut Script,
    place: &mut Place,
    words: &mut Words,
) -> Result<(), Refusal>
    ensures { Gives (λ u. (script.new, place.new)) result
        (words_line script.old place.old words.old) }
{
    match words.next() {
        None => Ok(()),
        Some(first) => {
            if is_comment(first) {
                Ok(())
            } else {
                row(alloc, script, place, first, words)
            }
        }
    }
}
