//! A script, as it was read.
ghost use Rattle.std.specs.Prelude.{◌≡◌, ◌<◌, length};
ghost use Rattle.std.specs.List.{position};
ghost use Rattle.std.specs.Option.{option_copied};
ghost use Rattle.std.specs.Str.{bytes_eq};

use crate::{Boxed, CONTENT_LIMIT, SCRIPT_LIMIT};
use mf_cred::{Cred, FileView};
use mf_elem::Request;
use mf_errno::{Module, Priv};
use mf_names::{Bytes, Listing, Name, Path, Word};
use mf_rule::Rule;

/// A call of a process. Processes are named by their full names: a task, or a task, a dot and the name that `fork` gave.
#[derive(Drop)]
pub enum Call {
    /// Makes a child process of this name under the task's.
    Fork(Name),
    /// Ends the process.
    Exit,
    /// Asks whether the process is visible, as p_cansee(9) does.
    See(Name),
    /// Asks whether the process may be signalled, as the kernel's `p_cansignal` does.
    Signal(Name),
    /// Asks whether the process may be debugged, as p_candebug(9) does.
    Debug(Name),
    /// Asks whether the scheduling of the process may be changed, as the kernel's `p_cansched` does.
    Sched(Name),
    /// Asks whether the process has the privilege, as priv_check(9) does.
    Priv(Priv),
    /// Shows the label of the process itself, as getpmac(8) does.
    Getpmac,
    /// Gives the process itself what the label text says, as mac_set_proc(3) does; setpmac(8) runs a command besides.
    Setpmac(Word),
    /// Asks whether the file may be executed. Nothing is run.
    Exec(Path),
    /// Makes an empty regular file.
    Create(Path),
    /// Makes an empty directory.
    Mkdir(Path),
    /// Reads the file.
    Read(Path),
    /// Appends the bytes to the file.
    Write(Path, Bytes<SCRIPT_LIMIT>),
    /// Reads the attributes of the file or directory.
    Stat(Path),
    /// Shows the label of the file or directory, as getfmac(8) does.
    Getfmac(Path),
    /// Gives the file or directory what the label text says, as setfmac(8) does.
    Setfmac(Word, Path),
    /// Lists the directory.
    Readdir(Path),
    /// Gives the file or directory these mode bits.
    Chmod(Path, u16),
    /// Removes the file, or the directory without entries.
    Unlink(Path),
    /// Opens the file under the lowest free number: for reading, for writing, or for both.
    OpenFd(Path, bool, bool),
    /// Reads the whole file that is open under the number.
    Fread(u32),
    /// Appends the bytes to the file that is open under the number.
    Fwrite(u32, Bytes<SCRIPT_LIMIT>),
    /// Closes the descriptor of the number.
    Close(u32),
    /// Makes a pipe.
    Pipe(Name),
    /// Makes a socket.
    Socket(Name),
    /// Takes all bytes out of the pipe.
    Pread(Name),
    /// Puts the bytes into the pipe.
    Pwrite(Name, Bytes<SCRIPT_LIMIT>),
    /// Reads how many bytes the pipe holds.
    Pstat(Name),
    /// Gives the pipe what the label text says, as mac_set_fd(3) does.
    Setpipemac(Word, Name),
    /// Sends the bytes as one message from the first socket to the second.
    Send(Name, Boxed<Name>, Boxed<Bytes<SCRIPT_LIMIT>>),
    /// Receives the oldest message of the socket.
    Recv(Name),
    /// Asks whether the socket is visible.
    Seesock(Name),
    /// Gives the socket what the label text says, as mac_set_fd(3) does.
    Setsockmac(Word, Name),
    /// Asks whether the socket may be bound to the port: of TCP, or else of UDP. The binding isn't kept.
    Bind(Name, bool, u16),
    /// Lists the loaded modules, as kldstat(8) does.
    Kldstat,
    /// Loads the module of that name, as kldload(8) does.
    Kldload(Word),
    /// Unloads the module of that name, as kldunload(8) does.
    Kldunload(Word),
    /// Gives the setting of that name that value, as sysctl(8) does.
    Sysctl(Word, Word),
    /// Lists the rules about files, as ugidfw(8) does.
    UgidfwList,
    /// Adds the rule under the lowest free number.
    UgidfwAdd(Boxed<Rule>),
    /// Puts the rule under the number, in place of the one that it may have.
    UgidfwSet(u32, Boxed<Rule>),
    /// Removes the rule of the number.
    UgidfwRemove(u32),
}

impl Call {
    ghost use Rattle.mf_calls.specs.Tasks.{is_change, lists_rules};

    /// Whether the call changes the list of policies or a policy's settings, and so isn't an entry.
    pub fn is_change(&self) -> bool
        ensures { result ≡ is_change self.now }
    {
        matches!(
            self,
            Call::Kldload(_)
                | Call::Kldunload(_)
                | Call::Sysctl(..)
                | Call::UgidfwAdd(_)
                | Call::UgidfwSet(..)
                | Call::UgidfwRemove(_)
        )
    }

    /// Whether the call lists the rules about files.
    pub fn lists_rules(&self) -> bool
        ensures { result ≡ lists_rules self.now }
    {
        matches!(self, Call::UgidfwList)
    }
}

/// A line of a task: a call of the task's own process, or of the child of that name.
#[derive(Drop)]
pub struct Line {
    pub child: Option<Boxed<Name>>,
    pub call: Call,
}

impl Line {
    /// The name of the child that makes the call, where it isn't the task's own process.
    pub fn child_name(&self) -> Option<&str>
        ensures { option_copied result ≡ self.now.child }
    {
        match &self.child {
            None => None,
            Some(name) => Some(name.get().as_str()),
        }
    }
}

/// A task: the name, the credential and the label request of its process, and its lines.
#[derive(Drop)]
pub struct Task {
    pub name: Name,
    pub cred: Cred,
    pub label: Request,
    pub lines: Listing<Line>,
}

/// A file that is there at boot: its path, its attributes, its label request, and what it holds.
#[derive(Drop)]
pub struct FileLine {
    pub path: Path,
    pub file: FileView,
    pub label: Request,
    pub text: Bytes<CONTENT_LIMIT>,
}

/// What a step does for its task's next call: it enters, makes the plan, commits or leaves, or makes a change.
#[derive(Clone, Copy, PartialEq, Eq)]
pub enum StepKind {
    Enter,
    Plan,
    Done,
    Leave,
    Change,
}

/// A step, and the name of the task that it is for. The script need not have that task.
#[derive(Drop)]
pub struct Step {
    pub kind: StepKind,
    pub task: Name,
}

/// A script: the modules in the order in which they are booted, whether mac_biba, where it is booted, tests each transfer through
/// a descriptor, the files, the tasks, and the steps, which fix the order of what the tasks do.
#[derive(Drop)]
pub struct Script {
    pub boots: Listing<Module>,
    pub revocation: bool,
    pub files: Listing<FileLine>,
    pub tasks: Listing<Task>,
    pub steps: Listing<Step>,
}

impl Script {
    ghost use Rattle.std.specs.Prelude.{slice_get, Some, ◌≤◌};
    ghost use Rattle.std.specs.List.{sum_by};
    ghost use Rattle.mf_calls.specs.declared.limits.TheConstants.{ALL_LINES_LIMIT};
    ghost use Rattle.mf_calls.specs.Tasks.{lines_of, name_of, task_named};
    ghost use Rattle.mf_calls.specs.WellFormed.{IsWellFormed, line_count};

    /// The name of the task of that number, from 0. No text where the script has no such task.
    pub fn name_of(&self, task: u32) -> &str
        ensures { result.now ≡ name_of self.now task }
    {
        match self.tasks.as_slice().get(task as usize) {
            None => "",
            Some(found) => found.name.as_str(),
        }
    }

    /// The number of the first task of that name, from 0.
    pub fn task_named(&self, name: &str) -> Option<usize>
        ensures { result ≡ task_named self.now name.now }
    {
        named(self.tasks.as_slice(), name)
    }

    /// The line of the task at index `lines`, from 0.
    pub fn line_at(&self, task: u32, lines: u32) -> &Line
        requires task { task < length self.now.tasks }
        requires line { lines < length (lines_of self.now task) }
        ensures { slice_get (lines_of self.now task) lines ≡ Some result.now }
    {
        let tasks = self.tasks.as_slice();
        let lines_of_task = tasks[task as usize].lines.as_slice();
        &lines_of_task[lines as usize]
    }

    /// The line of the task at index `lines`, from 0; None past the last line.
    pub fn next_line(&self, task: u32, lines: u32) -> Option<&Line>
        requires { task < length self.now.tasks }
        ensures { option_copied result ≡ slice_get (lines_of self.now task) lines }
    {
        let tasks = self.tasks.as_slice();
        tasks[task as usize].lines.as_slice().get(lines as usize)
    }

    /// The number of lines of all tasks together.
    pub fn line_count(&self) -> usize
        requires { IsWellFormed self.now }
        ensures value { result ≡ sum_by line_count self.now.tasks }
        ensures most { result ≤ ALL_LINES_LIMIT }
    {
        let mut count = 0;
        for task in self.tasks.as_slice() {
            count += task.lines.len();
        }
        count
    }
}

fn named(tasks: &[Task], name: &str) -> Option<usize>
    ensures { result ≡ position (λ task. bytes_eq task.name name.now) tasks.now }
{
    tasks.iter().position(|task| has_name(task, name))
}

fn has_name(task: &Task, name: &str) -> bool
    ensures { result ≡ bytes_eq task.now.name name.now }
{
    task.name.as_str() == name
}
