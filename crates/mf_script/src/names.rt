//! Readers of names and paths.
#![tactic(auto, unfolding(crate::specs::Readers::and_then))]

ghost use Rattle.std.specs.Str.{byte};
ghost use Rattle.std.specs.Prelude.{◌≡◌, ◌≢◌, ◌&&◌, ◌<◌, nat_le, ◌∷◌, length, MatchOption, List, ℕ};
ghost use Rattle.std.specs.List.{list_all};
ghost use Rattle.mf_names.specs.declared.limits.TheConstants.{PATH_LIMIT};
ghost use Rattle.mf_labeltext.specs.Reading.{parts};
ghost use Rattle.mf_calls.specs.Names.{is_process_name, is_component};
ghost use Rattle.mf_script.specs.Gives.{Gives};
ghost use Rattle.mf_script.specs.Parts.{word_by, simple_name_of, process_of, components_of, behind_root, path_of};

use crate::Words;
use crate::error::ScriptFault;
use crate::parts::split_at;
use crate::refusal::{Refusal, faulty};
use mf_calls::{Name, PATH_LIMIT, Path, is_component, is_name};
use std::alloc::Global;

/// The name that the word spells.
#[tactic(auto, unfolding(crate::specs::Parts::simple_name_of, crate::specs::Readers::and_then))]
pub fn name_of(alloc: Global, word: &str) -> Result<Name, Refusal>
    ensures { Gives (λ n. n) result (simple_name_of word.now) }
{
    if !is_name(word) {
        return Err(faulty(ScriptFault::BadPath));
    }
    let name = Name::from_str(alloc, word)?;
    Ok(name)
}

/// A name of a task, a child, a pipe or a socket.
pub fn name(alloc: Global, words: &mut Words) -> Result<Name, Refusal>
    ensures { Gives (λ n. (n, words.new)) result (word_by simple_name_of words.old) }
{
    match words.next() {
        None => Err(faulty(ScriptFault::Missing)),
        Some(word) => name_of(alloc, word),
    }
}

/// The text after the first character, where that is `first`.
pub fn behind(word: &str, first: char) -> Option<&str>
    requires { first < 128 }
    ensures { MatchOption result ((rest : List ℕ) → word.now ≢ first ∷ rest)
        (λ rest. word.now ≡ first ∷ rest.now) }
{
    word.strip_prefix(first)
}

fn is_process_name(word: &str) -> bool
    ensures { result ≡ is_process_name word.now }
{
    match split_at(word, '.') {
        None => is_name(word),
        Some((task, child)) => match split_at(child, '.') {
            None => is_name(task) && is_name(child),
            Some(_) => false,
        },
    }
}

#[tactic(auto, unfolding(crate::specs::Parts::process_of, crate::specs::Readers::and_then))]
fn process_of(alloc: Global, word: &str) -> Result<Name, Refusal>
    ensures { Gives (λ n. n) result (process_of word.now) }
{
    if !is_process_name(word) {
        return Err(faulty(ScriptFault::BadPath));
    }
    let name = Name::from_str(alloc, word)?;
    Ok(name)
}

/// The full name of a process.
pub fn process(alloc: Global, words: &mut Words) -> Result<Name, Refusal>
    ensures { Gives (λ n. (n, words.new)) result (word_by process_of words.old) }
{
    match words.next() {
        None => Err(faulty(ScriptFault::Missing)),
        Some(word) => process_of(alloc, word),
    }
}

/// Whether these are components with a slash between each two, and not too many.
fn are_components(word: &str) -> bool
    ensures { result ≡ (nat_le (length (parts (byte "/") word.now)) PATH_LIMIT
        && list_all is_component (parts (byte "/") word.now)) }
{
    let mut rest = word;
    let mut depth = 1;
    while let Some((component, after)) = split_at(rest, '/') {
        if depth >= PATH_LIMIT || !is_component(component) {
            return false;
        }
        rest = after;
        depth += 1;
    }
    is_component(rest)
}

/// The path that the word spells; `behind` is what stands after its first slash. The word is copied whole, since it is what a path is
/// kept as.
fn components_of(alloc: Global, word: &str, behind: &str) -> Result<Path, Refusal>
    requires { word.now ≡ byte "/" ∷ behind.now }
    ensures { Gives (λ path. path) result (components_of behind.now) }
{
    if !are_components(behind) {
        return Err(faulty(ScriptFault::BadPath));
    }
    let path = Path::from_str(alloc, word)?;
    Ok(path)
}

/// The same, where nothing may stand after the slash.
#[tactic(auto, unfolding(crate::specs::Parts::behind_root))]
fn behind_root(alloc: Global, word: &str, behind: &str) -> Result<Path, Refusal>
    requires { word.now ≡ byte "/" ∷ behind.now }
    ensures { Gives (λ path. path) result (behind_root behind.now) }
{
    if behind.is_empty() {
        Ok(Path::root(alloc))
    } else {
        components_of(alloc, word, behind)
    }
}

#[tactic(auto, unfolding(crate::specs::Parts::path_of, crate::specs::Readers::and_then))]
fn path_of(alloc: Global, word: &str) -> Result<Path, Refusal>
    ensures { Gives (λ p. p) result (path_of word.now) }
{
    match behind(word, '/') {
        None => Err(faulty(ScriptFault::BadPath)),
        Some(behind) => {
            let path = behind_root(alloc, word, behind)?;
            Ok(path)
        }
    }
}

/// An absolute path.
pub fn path(alloc: Global, words: &mut Words) -> Result<Path, Refusal>
    ensures { Gives (λ p. (p, words.new)) result (word_by path_of words.old) }
{
    match words.next() {
        None => Err(faulty(ScriptFault::Missing)),
        Some(word) => path_of(alloc, word),
    }
}
