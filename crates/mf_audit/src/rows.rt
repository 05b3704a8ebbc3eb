//! The table of calls: of each, the way to what it is about, and then its row there.
ghost use Rattle.std.specs.Prelude.{◌≡◌, ◌<◌, IsSome};
ghost use Rattle.mf_calls.specs.WellFormed.{IsFormedCall};
ghost use Rattle.mf_objects.specs.Live.{live_at};
ghost use Rattle.mf_plan.specs.Plan.{row_for};
ghost use Rattle.mf_audit.specs.Ends.{Goes};
ghost use Rattle.mf_audit.specs.Sorts.{sort_of};

mod about_channels;
mod about_files;
mod about_policies;
mod about_processes;

use crate::done::Done;
use crate::kernel::Kernel;
use crate::walk::Walk;
use about_channels::{on_pipe, on_socket};
use about_files::{change_file, on_descriptor, on_file};
use about_policies::{on_module, on_setting};
use about_processes::{make, on_itself, on_process};
use mf_calls::Call;
use mf_errno::Errno;
use mf_parties::PartyId;

/// What a call is about.
#[derive(Clone, Copy)]
pub enum Sort {
    /// A new entity.
    Making,
    /// The caller, or nothing.
    Itself,
    /// A process that is named.
    Process,
    /// A file or a directory at a path, which is used as it is.
    File,
    /// One that gets another label or mode, or goes.
    Change,
    Descriptor,
    Pipe,
    Socket,
    Module,
    Setting,
}

/// What a call is about.
fn sort_of(call: &Call) -> Sort
    ensures { result ≡ sort_of call.now }
{
    match call {
        Call::Fork(_) | Call::Pipe(_) | Call::Socket(_) => Sort::Making,
        Call::Create(_) | Call::Mkdir(_) => Sort::Making,
        Call::Exit | Call::Priv(_) | Call::Getpmac | Call::Setpmac(_) => Sort::Itself,
        Call::Kldstat => Sort::Itself,
        Call::See(_) | Call::Signal(_) | Call::Debug(_) | Call::Sched(_) => Sort::Process,
        Call::Exec(_) | Call::Read(_) | Call::Write(..) | Call::Stat(_) => Sort::File,
        Call::Getfmac(_) | Call::Readdir(_) | Call::OpenFd(..) => Sort::File,
        Call::Setfmac(..) | Call::Chmod(..) | Call::Unlink(_) => Sort::Change,
        Call::Fread(_) | Call::Fwrite(..) | Call::Close(_) => Sort::Descriptor,
        Call::Pread(_) | Call::Pwrite(..) | Call::Pstat(_) => Sort::Pipe,
        Call::Setpipemac(..) => Sort::Pipe,
        Call::Send(..) | Call::Recv(_) | Call::Seesock(_) => Sort::Socket,
        Call::Setsockmac(..) | Call::Bind(..) => Sort::Socket,
        Call::Kldload(_) | Call::Kldunload(_) => Sort::Module,
        Call::Sysctl(..) | Call::UgidfwList | Call::UgidfwAdd(_) => Sort::Setting,
        Call::UgidfwSet(..) | Call::UgidfwRemove(_) => Sort::Setting,
    }
}

/// Goes along the checks of a call of this process of the task, and says how it ends where none of them is denied.
pub(crate) fn row<'c>(
    kernel: &Kernel,
    walk: &mut Walk,
    task: &str,
    me: PartyId,
    call: &'c Call,
) -> Result<Done<'c>, Errno>
    requires few { walk.old.asked < 50 }
    requires caller { IsSome (live_at kernel.now.objects me) }
    requires formed { IsFormedCall call.now }
    ensures { Goes kernel.now task.now me (row_for kernel.now task.now call.now me) walk.old
        walk.new result }
{
    match sort_of(call) {
        Sort::Making => make(kernel, walk, task, me, call),
        Sort::Itself => on_itself(kernel, walk, task, me, call),
        Sort::Process => on_process(kernel, walk, task, me, call),
        Sort::File => on_file(kernel, walk, task, me, call),
        Sort::Change => change_file(kernel, walk, task, me, call),
        Sort::Descriptor => on_descriptor(kernel, walk, task, me, call),
        Sort::Pipe => on_pipe(kernel, walk, task, me, call),
        Sort::Socket => on_socket(kernel, walk, task, me, call),
        Sort::Module => on_module(kernel, walk, task, me, call),
        Sort::Setting => on_setting(kernel, task, me, call),
    }
}
