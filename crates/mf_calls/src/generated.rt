//! The script of a generated load: tasks that each work in a directory of their own, with lines that are drawn from a
//! sequence of numbers.
ghost use Rattle.std.specs.Prelude.{◌≡◌, ◌<◌, ◌≤◌, [], ◌∷◌, IfOk, codes};
ghost use Rattle.mf_errno.specs.declared.module.Module.TheVariants.{Biba};
ghost use Rattle.mf_names.specs.Paths.{HasNoSlash};
ghost use Rattle.mf_calls.specs.declared.limits.TheConstants.{LINE_LIMIT, TASK_LIMIT};
ghost use Rattle.mf_calls.specs.declared.script.Call.TheVariants as calls;
ghost use Rattle.mf_calls.specs.WellFormed.{IsWellFormed};
ghost use Rattle.mf_calls.specs.Generated.{next_in_sequence, drawn, call_of, load_lines, load_directory, load_file, load_files, load_cred, load_task, load_tasks, asked, plain_grade, task_grade, task_name, file_name, scratch_name, directory_path, path_under, generated};

use crate::script::{Call, FileLine, Line, Script, Task};
use crate::{DIRECTORY_MODE, FILE_MODE};
use mf_cred::{Cred, FileView};
use mf_elem::{Comps, Elem, RangeLabel, Request};
use mf_errno::Module;
use mf_names::{Bytes, Listing, Name, Path};
use std::alloc::{AllocError, Global};

/// The script of so many tasks with so many lines each. It boots mac_biba. Each task has a directory of its own and a file in
/// it; its lines read, write and list these, and make and remove up to four files beside.
#[tactic(auto, unfolding(crate::specs::Generated::generated))]
pub fn generate(alloc: Global, lines: u32, tasks: u32) -> Result<Script, AllocError>
    requires lines { lines ≤ LINE_LIMIT }
    requires tasks { tasks ≤ TASK_LIMIT }
    ensures value { IfOk result (λ s. s ≡ generated lines tasks) }
    ensures formed { IfOk result (λ s. IsWellFormed s) }
{
    let boots = load_boots(alloc)?;
    let files = load_files(alloc, tasks)?;
    let tasks = load_tasks(alloc, lines, tasks)?;
    Ok(Script {
        boots,
        revocation: false,
        files,
        tasks,
        steps: Listing::new(alloc),
    })
}

/// The modules: mac_biba alone.
fn load_boots(alloc: Global) -> Result<Listing<Module>, AllocError>
    ensures { IfOk result (λ boots. boots ≡ Biba ∷ []) }
{
    let mut boots = Listing::new(alloc);
    boots.push(Module::Biba)?;
    Ok(boots)
}

/// The directory and the file of each task.
fn load_files(alloc: Global, tasks: u32) -> Result<Listing<FileLine>, AllocError>
    ensures { IfOk result (λ files. files ≡ load_files tasks) }
{
    let mut files = Listing::new(alloc);
    for task in 0..tasks {
        let directory = load_directory(alloc, task)?;
        files.push(directory)?;
        let file = load_file(alloc, task)?;
        files.push(file)?;
    }
    Ok(files)
}

fn load_directory(alloc: Global, task: u32) -> Result<FileLine, AllocError>
    ensures { IfOk result (λ f. f ≡ load_directory task) }
{
    let path = directory_path(alloc, task)?;
    Ok(FileLine {
        path,
        file: FileView {
            uid: 0,
            gid: 0,
            mode: DIRECTORY_MODE,
            dir: true,
        },
        label: asked(Elem::Equal),
        text: Bytes::new(alloc),
    })
}

fn load_file(alloc: Global, task: u32) -> Result<FileLine, AllocError>
    ensures { IfOk result (λ f. f ≡ load_file task) }
{
    let path = file_path(alloc, task)?;
    Ok(FileLine {
        path,
        file: FileView {
            uid: 0,
            gid: 0,
            mode: FILE_MODE,
            dir: false,
        },
        label: asked(plain_grade(15)),
        text: Bytes::new(alloc),
    })
}

/// What the label text `biba/..` with this element asks for.
fn asked(element: Elem) -> Request
    ensures { result ≡ asked element }
{
    Request {
        biba: Some(RangeLabel {
            effective: Some(element),
            range: None,
        }),
        mls: None,
        lomac: None,
        partition: None,
        other: false,
    }
}

fn plain_grade(grade: u16) -> Elem
    ensures { result ≡ plain_grade grade }
{
    Elem::Grade(grade, Comps::empty())
}

/// The tasks, each with so many lines.
fn load_tasks(alloc: Global, lines: u32, tasks: u32) -> Result<Listing<Task>, AllocError>
    requires { tasks ≤ TASK_LIMIT }
    ensures { IfOk result (λ list. list ≡ load_tasks lines tasks) }
{
    let mut list = Listing::new(alloc);
    for task in 0..tasks {
        let next = load_task(alloc, lines, task)?;
        list.push(next)?;
    }
    Ok(list)
}

fn load_task(alloc: Global, lines: u32, task: u32) -> Result<Task, AllocError>
    requires { task < TASK_LIMIT }
    ensures { IfOk result (λ t. t ≡ load_task lines task) }
{
    let name = format!(in alloc; "t{task}")?;
    let lines = load_lines(alloc, task, lines)?;
    Ok(Task {
        name: Name::from_string(name),
        cred: Cred::default(),
        label: asked(plain_grade(task_grade(task))),
        lines,
    })
}

/// The grade of a task's process: below that of the task's file for an even task, and above it for an odd one.
fn task_grade(task: u32) -> u16
    ensures { result ≡ task_grade task }
{
    if task % 2 == 0 { 10 } else { 20 }
}

/// The lines of a task.
fn load_lines(alloc: Global, task: u32, count: u32) -> Result<Listing<Line>, AllocError>
    requires { task < TASK_LIMIT }
    ensures { IfOk result (λ lines. lines ≡ load_lines task count) }
{
    let mut lines = Listing::new(alloc);
    let mut number = u64::from(task) + 1;
    for _line in 0..count {
        number = next_in_sequence(number);
        let call = load_call(alloc, task, number)?;
        lines.push(Line { child: None, call })?;
    }
    Ok(lines)
}

/// The number after this one in the sequence.
fn next_in_sequence(number: u64) -> u64
    requires { number < 2147483648 }
    ensures value { result ≡ next_in_sequence number }
    ensures below { result < 2147483648 }
{
    (1103515245 * number + 12345) % 2147483648
}

/// The call that is drawn with the number.
#[tactic(auto, unfolding(crate::specs::Generated::drawn))]
fn load_call(alloc: Global, task: u32, number: u64) -> Result<Call, AllocError>
    requires { number < 2147483648 }
    ensures { IfOk result (λ call. call ≡ call_of task (drawn number)) }
{
    let drawn = number / 65536;
    let scratch = drawn / 6 % 4;
    match drawn % 6 {
        0 => load_write(alloc, task),
        1 => Ok(Call::Read(file_path(alloc, task)?)),
        2 => Ok(Call::Stat(file_path(alloc, task)?)),
        3 => Ok(Call::Readdir(directory_path(alloc, task)?)),
        4 => Ok(Call::Create(scratch_path(alloc, task, scratch)?)),
        _ => Ok(Call::Unlink(scratch_path(alloc, task, scratch)?)),
    }
}

/// The call that appends one letter to the task's file.
fn load_write(alloc: Global, task: u32) -> Result<Call, AllocError>
    ensures { IfOk result (λ call. call ≡ calls.Write (path_under task file_name) (codes "x")) }
{
    let path = file_path(alloc, task)?;
    let text = Bytes::copy_of(alloc, b"x")?;
    Ok(Call::Write(path, text))
}

/// The path of a task's directory.
fn directory_path(alloc: Global, task: u32) -> Result<Path, AllocError>
    ensures { IfOk result (λ path. path ≡ directory_path task) }
{
    let name = format!(in alloc; "d{task}")?;
    let mut path = Path::root(alloc);
    path.push(name.as_str())?;
    Ok(path)
}

/// The path of a file in a task's directory.
fn path_under(alloc: Global, task: u32, name: &str) -> Result<Path, AllocError>
    requires { HasNoSlash name.now }
    ensures { IfOk result (λ path. path ≡ path_under task name.now) }
{
    let mut path = directory_path(alloc, task)?;
    path.push(name)?;
    Ok(path)
}

/// The path of the file in a task's directory that is there at boot.
fn file_path(alloc: Global, task: u32) -> Result<Path, AllocError>
    ensures { IfOk result (λ path. path ≡ path_under task file_name) }
{
    path_under(alloc, task, "f")
}

/// The path of one of the files that a task makes and removes.
fn scratch_path(alloc: Global, task: u32, number: u64) -> Result<Path, AllocError>
    ensures { IfOk result (λ path. path ≡ path_under task (scratch_name number)) }
{
    let name = format!(in alloc; "g{number}")?;
    path_under(alloc, task, name.as_str())
}
