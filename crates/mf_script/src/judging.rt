//! What the words of a line ask for, judged.
#![tactic(auto, unfolding(crate::specs::Readers::and_then))]

ghost use Rattle.std.specs.Prelude.{◌≡◌, ◌≤◌, length, OnOk};
ghost use Rattle.std.specs.List.{list_any};
ghost use Rattle.mf_names.specs.declared.limits.TheConstants.{CONTENT_LIMIT};
ghost use Rattle.mf_calls.specs.Paths.{is_directory_at, has_directory};
ghost use Rattle.mf_script.specs.Gives.{Gives};
ghost use Rattle.mf_script.specs.Grammar.{judged_module, judged_boot, judged_tunable, requested, judged_request, has_path, file_label, judged_file, has_name, task_label, judged_task, with_list};

use crate::error::ScriptFault;
use crate::lines::{FileWords, TaskWords};
use crate::refusal::{Refusal, boot_refused, faulty};
use mf_calls::{
    BOOT_LIMIT, Bytes, CONTENT_LIMIT, Call, Components, FILE_LIMIT, FileLine, Listing, Name, Path,
    RULE_LIST_LIMIT, TASK_LIMIT, Task, are_same_paths, directory_of, is_booted, is_same_path,
    may_ask_for, revocation_name,
};
use mf_elem::Request;
use mf_errno::{Errno, Module};
use mf_item::Kind;
use mf_labeltext::read_request;
use mf_policy::switch;
use std::alloc::Global;

/// The module, where it may be booted after these.
#[tactic(auto, unfolding(crate::specs::Grammar::judged_module))]
fn judged_module(boots: &[Module], named: Module) -> Result<Module, Refusal>
    ensures { Gives (λ m. m) result (judged_module boots.now named) }
{
    if is_booted(boots, named) {
        Err(boot_refused(Errno::Eexist))
    } else {
        Ok(named)
    }
}

/// The module of that name, where it may be booted after these.
#[tactic(auto, unfolding(crate::specs::Grammar::judged_boot, crate::specs::Readers::and_then))]
pub fn judged_boot(boots: &[Module], name: &str) -> Result<Module, Refusal>
    ensures { Gives (λ m. m) result (judged_boot boots.now name.now) }
{
    if boots.len() >= BOOT_LIMIT {
        return Err(faulty(ScriptFault::TooMany));
    }
    match Module::from_name(name) {
        None => Err(boot_refused(Errno::Enoent)),
        Some(named) => judged_module(boots, named),
    }
}

/// What the tunable of that name is set to, where it may be set after these modules; `again` where an earlier line has set it.
#[tactic(auto, unfolding(crate::specs::Grammar::judged_tunable, crate::specs::Readers::and_then))]
pub fn judged_tunable(
    boots: &[Module],
    again: bool,
    name: &str,
    value: &str,
) -> Result<bool, Refusal>
    ensures { Gives (λ r. r) result (judged_tunable boots.now again (name.now, value.now)) }
{
    if name != revocation_name() || !is_booted(boots, Module::Biba) {
        return Err(boot_refused(Errno::Enoent));
    }
    let Some(revocation) = switch(value) else {
        return Err(boot_refused(Errno::Einval));
    };
    if again {
        return Err(faulty(ScriptFault::Duplicate));
    }
    Ok(revocation)
}

#[tactic(auto, unfolding(crate::specs::Grammar::requested))]
fn request_of(word: &str) -> Result<Request, Refusal>
    ensures { Gives (λ r. r) result (requested word.now) }
{
    if word == "-" {
        return Ok(Request::none());
    }
    match read_request(word) {
        Ok(request) => Ok(request),
        Err(_) => Err(faulty(ScriptFault::BadLabel)),
    }
}

/// What a script that boots these modules asks for an entity of that kind; `-` asks for nothing.
#[tactic(auto, unfolding(crate::specs::Grammar::judged_request, crate::specs::Readers::and_then))]
fn request_for(kind: Kind, boots: &[Module], word: &str) -> Result<Request, Refusal>
    ensures { Gives (λ r. r) result (judged_request kind boots.now word.now) }
{
    let request = request_of(word)?;
    if may_ask_for(kind, boots, &request) {
        Ok(request)
    } else {
        Err(faulty(ScriptFault::BadLabel))
    }
}

fn has_path(files: &[FileLine], path: &Path) -> bool
    ensures { result ≡ list_any (has_path path.now) files.now }
{
    files.iter().any(|file| are_same_paths(&file.path, path))
}

fn is_directory_at(file: &FileLine, path: &Components<'_>) -> bool
    ensures { result ≡ is_directory_at path.now file.now }
{
    file.file.dir && is_same_path(&file.path.components(), path)
}

fn lists_directory(files: &[FileLine], path: &Components<'_>) -> bool
    ensures { result ≡ list_any (is_directory_at path.now) files.now }
{
    files.iter().any(|file| is_directory_at(file, path))
}

/// Whether the path is the root, or that of a directory among these files.
fn has_directory(files: &[FileLine], path: &Components<'_>) -> bool
    ensures { result ≡ has_directory files.now path.now }
{
    path.is_empty() || lists_directory(files, path)
}

/// What the file's label asks for, where the file may stand after these.
#[tactic(auto, unfolding(crate::specs::Grammar::file_label, crate::specs::Readers::and_then))]
fn file_label(boots: &[Module], files: &[FileLine], words: &FileWords) -> Result<Request, Refusal>
    ensures label { Gives (λ r. r) result (file_label boots.now files.now words.now) }
    ensures fits { OnOk result (length words.now.text ≤ CONTENT_LIMIT) }
{
    if files.len() >= FILE_LIMIT || words.text.as_slice().len() > CONTENT_LIMIT {
        return Err(faulty(ScriptFault::TooMany));
    }
    if words.path.components().is_empty() || has_path(files, &words.path) {
        return Err(faulty(ScriptFault::Duplicate));
    }
    if !has_directory(files, &directory_of(&words.path)) {
        return Err(faulty(ScriptFault::BadPath));
    }
    let label = request_for(Kind::Vnode, boots, words.label.as_str())?;
    Ok(label)
}

/// The file that the words ask for, after these.
#[tactic(auto, unfolding(crate::specs::Grammar::judged_file, crate::specs::Readers::and_then))]
pub fn judged_file(
    alloc: Global,
    boots: &[Module],
    files: &[FileLine],
    words: FileWords,
) -> Result<FileLine, Refusal>
    ensures { Gives (λ f. f) result (judged_file boots.now files.now words) }
{
    let label = file_label(boots, files, &words)?;
    let text = Bytes::copy_of(alloc, words.text.as_slice())?;
    let FileWords { path, file, .. } = words;
    Ok(FileLine {
        path,
        file,
        label,
        text,
    })
}

fn has_name(tasks: &[Task], name: &Name) -> bool
    ensures { result ≡ list_any (has_name name.now) tasks.now }
{
    tasks.iter().any(|task| task.name.as_str() == name.as_str())
}

/// What the task's label asks for, where the task may stand after these.
#[tactic(auto, unfolding(crate::specs::Grammar::task_label, crate::specs::Readers::and_then))]
fn task_label(boots: &[Module], tasks: &[Task], words: &TaskWords) -> Result<Request, Refusal>
    ensures { Gives (λ r. r) result (task_label boots.now tasks.now words.now) }
{
    if tasks.len() >= TASK_LIMIT {
        return Err(faulty(ScriptFault::TooMany));
    }
    if has_name(tasks, &words.name) {
        return Err(faulty(ScriptFault::Duplicate));
    }
    request_for(Kind::Process, boots, words.label.as_str())
}

/// The task that the words ask for, after these. It has no lines yet.
#[tactic(auto, unfolding(crate::specs::Grammar::judged_task, crate::specs::Readers::and_then))]
pub fn judged_task(
    alloc: Global,
    boots: &[Module],
    tasks: &[Task],
    words: TaskWords,
) -> Result<Task, Refusal>
    ensures { Gives (λ t. t) result (judged_task boots.now tasks.now words) }
{
    let label = task_label(boots, tasks, &words)?;
    let TaskWords { name, cred, .. } = words;
    Ok(Task {
        name,
        cred,
        label,
        lines: Listing::new(alloc),
    })
}

/// How many lines list the rules, with this call.
#[tactic(auto, unfolding(crate::specs::Grammar::with_list, crate::specs::Readers::and_then))]
pub fn with_list(call: &Call, lists: usize) -> Result<usize, Refusal>
    ensures { Gives (λ n. n) result (with_list call.now lists) }
{
    if !call.lists_rules() {
        return Ok(lists);
    }
    if lists >= RULE_LIST_LIMIT {
        return Err(faulty(ScriptFault::TooMany));
    }
    Ok(lists + 1)
}
