//! The line of a call.
ghost use Rattle.std.specs.Prelude.{◌≡◌, ◌++◌, OnOk, OnErr, string_bytes};
ghost use Rattle.mf_text.specs.Appending.{Extends};
ghost use Rattle.mf_spelling.specs.Spelling.{call_pieces, open_mode, protocol};
ghost use Rattle.mf_spelling.specs.Canonical.{words_behind, words_text};
ghost use Rattle.mf_spelling.specs.Printed.{Adds, behind_first, first_alone, first_word};

use crate::words::{
    push_mode, push_number, push_path, push_rule, push_setting, push_text, push_word,
};
use mf_calls::Call;
use std::alloc::AllocError;

/// The words of a call.
pub fn push_call(call: &Call, out: &mut String) -> Result<(), AllocError>
    ensures ok { OnOk result (Adds out.old out.new (words_text (call_pieces call.now))) }
    ensures err { OnErr result (Extends (string_bytes out.old) (string_bytes out.new)) }
{
    out.push_str(call_name(call))?;
    push_arguments(call, out)
}

/// The first word of a call.
fn call_name(call: &Call) -> &'static str
    ensures { result.now ≡ first_word (call_pieces call.now) }
{
    match call {
        Call::Fork(_) => "fork",
        Call::Exit => "exit",
        Call::See(_) => "see",
        Call::Signal(_) => "signal",
        Call::Debug(_) => "debug",
        Call::Sched(_) => "sched",
        Call::Priv(_) => "priv",
        Call::Getpmac => "getpmac",
        Call::Setpmac(_) => "setpmac",
        Call::Exec(_) => "exec",
        Call::Create(_) => "create",
        Call::Mkdir(_) => "mkdir",
        Call::Read(_) => "read",
        Call::Write(..) => "write",
        Call::Stat(_) => "stat",
        Call::Getfmac(_) => "getfmac",
        Call::Setfmac(..) => "setfmac",
        Call::Readdir(_) => "readdir",
        Call::Chmod(..) => "chmod",
        Call::Unlink(_) => "unlink",
        Call::OpenFd(..) => "open",
        Call::Fread(_) => "fread",
        Call::Fwrite(..) => "fwrite",
        Call::Close(_) => "close",
        Call::Pipe(_) => "pipe",
        Call::Socket(_) => "socket",
        Call::Pread(_) => "pread",
        Call::Pwrite(..) => "pwrite",
        Call::Pstat(_) => "pstat",
        Call::Setpipemac(..) => "setpipemac",
        Call::Send(..) => "send",
        Call::Recv(_) => "recv",
        Call::Seesock(_) => "seesock",
        Call::Setsockmac(..) => "setsockmac",
        Call::Bind(..) => "bind",
        Call::Kldstat => "kldstat",
        Call::Kldload(_) => "kldload",
        Call::Kldunload(_) => "kldunload",
        Call::Sysctl(..) => "sysctl",
        Call::UgidfwList | Call::UgidfwAdd(_) | Call::UgidfwSet(..) | Call::UgidfwRemove(_) => {
            "ugidfw"
        }
    }
}

/// The words behind the first.
fn push_arguments(call: &Call, out: &mut String) -> Result<(), AllocError>
    ensures ok { OnOk result
        (Adds out.old out.new (words_behind (behind_first (call_pieces call.now)))) }
    ensures err { OnErr result (Extends (string_bytes out.old) (string_bytes out.new)) }
{
    push_second(call, out)?;
    push_further(call, out)
}

/// The word behind the first.
fn push_second(call: &Call, out: &mut String) -> Result<(), AllocError>
    ensures ok { OnOk result (Adds out.old out.new
        (words_behind (first_alone (behind_first (call_pieces call.now))))) }
    ensures err { OnErr result (Extends (string_bytes out.old) (string_bytes out.new)) }
{
    match call {
        Call::Exit | Call::Getpmac | Call::Kldstat => Ok(()),
        Call::Fork(name)
        | Call::See(name)
        | Call::Signal(name)
        | Call::Debug(name)
        | Call::Sched(name)
        | Call::Pipe(name)
        | Call::Socket(name)
        | Call::Pread(name)
        | Call::Pwrite(name, _)
        | Call::Pstat(name)
        | Call::Send(name, ..)
        | Call::Recv(name)
        | Call::Seesock(name)
        | Call::Bind(name, ..) => push_word(name.as_str(), out),
        Call::Setpmac(word)
        | Call::Setfmac(word, _)
        | Call::Setpipemac(word, _)
        | Call::Setsockmac(word, _)
        | Call::Kldload(word)
        | Call::Kldunload(word) => push_word(word.as_str(), out),
        Call::Exec(path)
        | Call::Create(path)
        | Call::Mkdir(path)
        | Call::Read(path)
        | Call::Write(path, _)
        | Call::Stat(path)
        | Call::Getfmac(path)
        | Call::Readdir(path)
        | Call::Chmod(path, _)
        | Call::Unlink(path)
        | Call::OpenFd(path, ..) => push_path(path, out),
        Call::Priv(privilege) => push_word(privilege.name(), out),
        Call::Fread(number) | Call::Fwrite(number, _) | Call::Close(number) => {
            push_number(*number, out)
        }
        Call::Sysctl(name, value) => push_setting(name.as_str(), value.as_str(), out),
        Call::UgidfwList => push_word("list", out),
        Call::UgidfwAdd(_) => push_word("add", out),
        Call::UgidfwSet(..) => push_word("set", out),
        Call::UgidfwRemove(_) => push_word("remove", out),
    }
}

/// The words behind the second, where there are some.
fn push_further(call: &Call, out: &mut String) -> Result<(), AllocError>
    ensures ok { OnOk result (Adds out.old out.new
        (words_behind (behind_first (behind_first (call_pieces call.now))))) }
    ensures err { OnErr result (Extends (string_bytes out.old) (string_bytes out.new)) }
{
    match call {
        Call::Write(_, text) | Call::Fwrite(_, text) | Call::Pwrite(_, text) => {
            push_text(text.as_slice(), out)
        }
        Call::Setfmac(_, path) => push_path(path, out),
        Call::Chmod(_, mode) => push_mode(*mode, out),
        Call::OpenFd(_, read, write) => push_word(open_mode(*read, *write), out),
        Call::Setpipemac(_, name) | Call::Setsockmac(_, name) => push_word(name.as_str(), out),
        Call::Send(_, to, text) => {
            push_word(to.get().as_str(), out)?;
            push_text(text.get().as_slice(), out)
        }
        Call::Bind(_, tcp, port) => {
            push_word(protocol(*tcp), out)?;
            push_number(u32::from(*port), out)
        }
        Call::UgidfwAdd(rule) => push_rule(rule.get(), out),
        Call::UgidfwSet(number, rule) => {
            push_number(*number, out)?;
            push_rule(rule.get(), out)
        }
        Call::UgidfwRemove(number) => push_number(*number, out),
        _ => Ok(()),
    }
}

/// How a file is opened: `r` for reading, `w` for writing.
fn open_mode(read: bool, write: bool) -> &'static str
    ensures { result.now ≡ open_mode read write }
{
    match (read, write) {
        (true, true) => "rw",
        (true, false) => "r",
        (false, true) => "w",
        (false, false) => "",
    }
}

/// The protocol of a port: TCP, or else UDP.
fn protocol(tcp: bool) -> &'static str
    ensures { result.now ≡ protocol tcp }
{
    if tcp { "tcp" } else { "udp" }
}
