//! The calls of a task's lines.
#![tactic(auto, unfolding(crate::specs::Readers::and_then))]

ghost use Rattle.std.specs.Prelude.{◌≡◌, ◌==◌, nat_lt, if◌then◌else◌};
ghost use Rattle.mf_script.specs.Gives.{Gives};
ghost use Rattle.mf_calls.specs.declared.script.Call.TheVariants as call;
ghost use Rattle.mf_script.specs.Parts.{any_word, simple_name_of, path_of, mode_of, open_mode_of, descriptor_of, text_of, sides_of, protocol_of, port_of};
ghost use Rattle.mf_script.specs.Calls.{call_in, call_named, call_words, calls, with_length, add_rule, set_rule, ugidfw_calls, ugidfw, one, two, three};

use crate::error::ScriptFault;
use crate::refusal::{Refusal, faulty};
use crate::{Words, names, numbers, parts};
use mf_calls::{Boxed, Call};
use std::alloc::Global;

fn write(alloc: Global, words: &mut Words) -> Result<Call, Refusal>
    ensures { Gives (λ c. (c, words.new)) result (two path_of text_of call.Write words.old) }
{
    let path = names::path(alloc, words)?;
    let text = parts::text(alloc, words)?;
    Ok(Call::Write(path, text))
}

fn setfmac(alloc: Global, words: &mut Words) -> Result<Call, Refusal>
    ensures { Gives (λ c. (c, words.new)) result (two any_word path_of call.Setfmac words.old) }
{
    let label = parts::word(alloc, words)?;
    let path = names::path(alloc, words)?;
    Ok(Call::Setfmac(label, path))
}

/// The call that relabels a socket, or else a pipe.
fn relabel(alloc: Global, socket: bool, words: &mut Words) -> Result<Call, Refusal>
    ensures { Gives (λ c. (c, words.new)) result
        (two any_word simple_name_of (if socket then call.Setsockmac else call.Setpipemac)
        words.old) }
{
    let label = parts::word(alloc, words)?;
    let name = names::name(alloc, words)?;
    Ok(if socket {
        Call::Setsockmac(label, name)
    } else {
        Call::Setpipemac(label, name)
    })
}

fn chmod(alloc: Global, words: &mut Words) -> Result<Call, Refusal>
    ensures { Gives (λ c. (c, words.new)) result (two path_of mode_of call.Chmod words.old) }
{
    let path = names::path(alloc, words)?;
    let mode = numbers::mode(words)?;
    Ok(Call::Chmod(path, mode))
}

fn open(alloc: Global, words: &mut Words) -> Result<Call, Refusal>
    ensures { Gives (λ c. (c, words.new)) result
        (two path_of open_mode_of (λ path mode. call.OpenFd path mode.0 mode.1) words.old) }
{
    let path = names::path(alloc, words)?;
    let (read, write) = parts::open_mode(words)?;
    Ok(Call::OpenFd(path, read, write))
}

fn fwrite(alloc: Global, words: &mut Words) -> Result<Call, Refusal>
    ensures { Gives (λ c. (c, words.new)) result
        (two descriptor_of text_of call.Fwrite words.old) }
{
    let number = numbers::descriptor(words)?;
    let text = parts::text(alloc, words)?;
    Ok(Call::Fwrite(number, text))
}

fn pwrite(alloc: Global, words: &mut Words) -> Result<Call, Refusal>
    ensures { Gives (λ c. (c, words.new)) result
        (two simple_name_of text_of call.Pwrite words.old) }
{
    let name = names::name(alloc, words)?;
    let text = parts::text(alloc, words)?;
    Ok(Call::Pwrite(name, text))
}

fn send(alloc: Global, words: &mut Words) -> Result<Call, Refusal>
    ensures { Gives (λ c. (c, words.new)) result
        (three simple_name_of simple_name_of text_of call.Send words.old) }
{
    let from = names::name(alloc, words)?;
    let to = names::name(alloc, words)?;
    let to = Boxed::new(alloc, to)?;
    let text = parts::text(alloc, words)?;
    let text = Boxed::new(alloc, text)?;
    Ok(Call::Send(from, to, text))
}

fn bind(alloc: Global, words: &mut Words) -> Result<Call, Refusal>
    ensures { Gives (λ c. (c, words.new)) result
        (three simple_name_of protocol_of port_of call.Bind words.old) }
{
    let name = names::name(alloc, words)?;
    let tcp = parts::protocol(words)?;
    let port = numbers::port(words)?;
    Ok(Call::Bind(name, tcp, port))
}

fn sysctl(alloc: Global, words: &mut Words) -> Result<Call, Refusal>
    ensures { Gives (λ c. (c, words.new)) result
        (one sides_of (λ sides. call.Sysctl sides.0 sides.1) words.old) }
{
    let (name, value) = parts::sides(alloc, words)?;
    Ok(Call::Sysctl(name, value))
}

#[tactic(auto, unfolding(crate::specs::Calls::add_rule, crate::specs::Readers::and_then))]
fn add_rule(alloc: Global, words: &mut Words) -> Result<Call, Refusal>
    ensures { Gives (λ c. (c, words.new)) result (add_rule words.old) }
{
    let rule = parts::rule(alloc, words)?;
    Ok(Call::UgidfwAdd(Boxed::new(alloc, rule)?))
}

#[tactic(auto, unfolding(crate::specs::Calls::set_rule, crate::specs::Readers::and_then))]
fn set_rule(alloc: Global, words: &mut Words) -> Result<Call, Refusal>
    ensures { Gives (λ c. (c, words.new)) result (set_rule words.old) }
{
    let number = numbers::rule_number(words)?;
    let rule = parts::rule(alloc, words)?;
    Ok(Call::UgidfwSet(number, Boxed::new(alloc, rule)?))
}

/// What ugidfw(8) is to do, by the word behind it.
#[tactic(auto, unfolding(crate::specs::Calls::call_in, crate::specs::Readers::and_then))]
fn ugidfw_call(alloc: Global, name: &str, words: &mut Words) -> Result<Call, Refusal>
    ensures { Gives (λ c. (c, words.new)) result (call_in ugidfw_calls name.now words.old) }
{
    match name {
        "list" => Ok(Call::UgidfwList),
        "add" => add_rule(alloc, words),
        "set" => set_rule(alloc, words),
        "remove" => numbers::rule_number(words).map(Call::UgidfwRemove),
        _ => Err(faulty(ScriptFault::UnknownWord)),
    }
}

#[tactic(auto, unfolding(crate::specs::Calls::ugidfw))]
fn ugidfw(alloc: Global, words: &mut Words) -> Result<Call, Refusal>
    ensures { Gives (λ c. (c, words.new)) result (ugidfw words.old) }
{
    match words.next() {
        None => Err(faulty(ScriptFault::Missing)),
        Some(name) => ugidfw_call(alloc, name, words),
    }
}

/// The call of that name with the arguments that come next, where the name has four letters at most.
#[tactic(auto, unfolding(crate::specs::Calls::call_in, crate::specs::Readers::and_then))]
fn short_call(alloc: Global, name: &str, words: &mut Words) -> Result<Call, Refusal>
    ensures { Gives (λ c. (c, words.new)) result
        (call_in (with_length (λ n. nat_lt n 5) calls) name.now words.old) }
{
    match name {
        "read" => names::path(alloc, words).map(Call::Read),
        "stat" => names::path(alloc, words).map(Call::Stat),
        "exec" => names::path(alloc, words).map(Call::Exec),
        "open" => open(alloc, words),
        "see" => names::process(alloc, words).map(Call::See),
        "fork" => names::name(alloc, words).map(Call::Fork),
        "exit" => Ok(Call::Exit),
        "priv" => parts::privilege(words).map(Call::Priv),
        "pipe" => names::name(alloc, words).map(Call::Pipe),
        "send" => send(alloc, words),
        "recv" => names::name(alloc, words).map(Call::Recv),
        "bind" => bind(alloc, words),
        _ => Err(faulty(ScriptFault::UnknownWord)),
    }
}

/// The same where the name has five letters.
#[tactic(auto, unfolding(crate::specs::Calls::call_in, crate::specs::Readers::and_then))]
fn five_letter_call(alloc: Global, name: &str, words: &mut Words) -> Result<Call, Refusal>
    ensures { Gives (λ c. (c, words.new)) result
        (call_in (with_length (λ n. n == 5) calls) name.now words.old) }
{
    match name {
        "write" => write(alloc, words),
        "mkdir" => names::path(alloc, words).map(Call::Mkdir),
        "chmod" => chmod(alloc, words),
        "fread" => numbers::descriptor(words).map(Call::Fread),
        "close" => numbers::descriptor(words).map(Call::Close),
        "debug" => names::process(alloc, words).map(Call::Debug),
        "sched" => names::process(alloc, words).map(Call::Sched),
        "pread" => names::name(alloc, words).map(Call::Pread),
        "pstat" => names::name(alloc, words).map(Call::Pstat),
        _ => Err(faulty(ScriptFault::UnknownWord)),
    }
}

/// The same where it has six.
#[tactic(auto, unfolding(crate::specs::Calls::call_in, crate::specs::Readers::and_then))]
fn six_letter_call(alloc: Global, name: &str, words: &mut Words) -> Result<Call, Refusal>
    ensures { Gives (λ c. (c, words.new)) result
        (call_in (with_length (λ n. n == 6) calls) name.now words.old) }
{
    match name {
        "create" => names::path(alloc, words).map(Call::Create),
        "unlink" => names::path(alloc, words).map(Call::Unlink),
        "fwrite" => fwrite(alloc, words),
        "signal" => names::process(alloc, words).map(Call::Signal),
        "socket" => names::name(alloc, words).map(Call::Socket),
        "pwrite" => pwrite(alloc, words),
        "sysctl" => sysctl(alloc, words),
        "ugidfw" => ugidfw(alloc, words),
        _ => Err(faulty(ScriptFault::UnknownWord)),
    }
}

/// The same where it has more.
#[tactic(auto, unfolding(crate::specs::Calls::call_in, crate::specs::Readers::and_then))]
fn long_call(alloc: Global, name: &str, words: &mut Words) -> Result<Call, Refusal>
    ensures { Gives (λ c. (c, words.new)) result
        (call_in (with_length (λ n. nat_lt 6 n) calls) name.now words.old) }
{
    match name {
        "readdir" => names::path(alloc, words).map(Call::Readdir),
        "getfmac" => names::path(alloc, words).map(Call::Getfmac),
        "setfmac" => setfmac(alloc, words),
        "getpmac" => Ok(Call::Getpmac),
        "setpmac" => parts::word(alloc, words).map(Call::Setpmac),
        "setpipemac" => relabel(alloc, false, words),
        "seesock" => names::name(alloc, words).map(Call::Seesock),
        "setsockmac" => relabel(alloc, true, words),
        "kldstat" => Ok(Call::Kldstat),
        "kldload" => parts::word(alloc, words).map(Call::Kldload),
        "kldunload" => parts::word(alloc, words).map(Call::Kldunload),
        _ => Err(faulty(ScriptFault::UnknownWord)),
    }
}

/// The call of that name with the arguments that come next. It is compared with the names of its length alone, those of
/// files first, since they are the most.
fn call(alloc: Global, name: &str, words: &mut Words) -> Result<Call, Refusal>
    ensures { Gives (λ c. (c, words.new)) result (call_in calls name.now words.old) }
{
    match name.len() {
        0..=4 => short_call(alloc, name, words),
        5 => five_letter_call(alloc, name, words),
        6 => six_letter_call(alloc, name, words),
        _ => long_call(alloc, name, words),
    }
}

/// The call of that name with its arguments, after which the line must end.
#[tactic(auto, unfolding(crate::specs::Calls::call_named, crate::specs::Readers::and_then))]
#[inline(always)]
pub fn call_named(alloc: Global, name: &str, words: &mut Words) -> Result<Call, Refusal>
    ensures { Gives (λ c. c) result (call_named name.now words.old) }
{
    let call = call(alloc, name, words)?;
    parts::at_end(words, call)
}

/// A call with its arguments, after which the line must end.
#[tactic(auto, unfolding(crate::specs::Calls::call_words))]
pub fn call_words(alloc: Global, words: &mut Words) -> Result<Call, Refusal>
    ensures { Gives (λ c. c) result (call_words words.old) }
{
    match words.next() {
        None => Err(faulty(ScriptFault::Missing)),
        Some(name) => call_named(alloc, name, words),
    }
}
