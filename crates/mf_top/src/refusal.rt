//! Why what is asked for isn't told: no history, no steps, no summary of a load, no `yes`, or no chains.
ghost use Rattle.std.specs.Prelude.{◌≡◌, ◌++◌, IfOk, OnOk, OnErr, string_bytes};
ghost use Rattle.std.specs.Cow.{cow_str_bytes};
ghost use Rattle.mf_top.specs.Answers.{errno_text, fault_text, refusal_status, refusal_text, TakesMemory};
ghost use Rattle.mf_top.specs.declared.refusal.Refusal.TheVariants as refusal;

use crate::read::ReadError;
use mf_errno::Errno;
use mf_script::{ScriptError, ScriptFault};
use std::alloc::{AllocError, Global};
use std::borrow::CowStr;

/// The status where memory ran out.
pub const NO_MEMORY: u8 = 9;

/// The line where memory ran out.
pub const NO_MEMORY_LINE: &str = "macsim: no memory\n";

/// Why no history, no text of steps, no summary, no `yes`, or no chains are written.
#[derive(Drop)]
pub enum Refusal {
    /// The words are none of the program's.
    Usage,
    /// The source's bytes are no script: the first faulty line, counted from 1, and its first fault, with an errno where a
    /// module can't be booted or a tunable can't be set.
    Script {
        line: u32,
        fault: ScriptFault,
        errno: Option<Errno>,
    },
    /// The step of this number, counted from 1, is the first that names no task of the script or isn't in turn.
    Step(u32),
    /// The text that is checked fails at this line, counted from 1: it isn't that of a run of its script.
    Fails(u32),
    /// What is checked doesn't begin with the line `script N` and so many bytes.
    Header,
    /// A read of the source failed.
    ReadFault,
    /// The source holds more than a script, or what is checked, may have.
    TooLong,
    /// Memory ran out.
    Memory,
    /// There are too many chains. The text is that of the run, which is told without them.
    TooManyChains(String),
}

impl Refusal {
    /// The program's exit status.
    pub fn status(&self) -> u8
        ensures { result ≡ refusal_status self.now }
    {
        match self {
            Refusal::Usage => 2,
            Refusal::Script { .. } => 3,
            Refusal::ReadFault => 4,
            Refusal::TooLong => 6,
            Refusal::Step(_) => 7,
            Refusal::Fails(_) => 8,
            Refusal::Memory => NO_MEMORY,
            Refusal::Header => 10,
            Refusal::TooManyChains(_) => 11,
        }
    }

    /// What is written instead of what was asked for: one line, and in front of it the text of the run where there are too many
    /// chains. Only that text and a line that has a number take memory.
    pub fn text(self, alloc: Global) -> Result<CowStr<'static>, AllocError>
        ensures text { IfOk result (λ text. cow_str_bytes text ≡ refusal_text self) }
        ensures memory { OnErr result (TakesMemory self) }
    {
        let text = match self {
            Refusal::Usage => CowStr::Borrowed("macsim: usage: run | step | gen N T\n"),
            Refusal::Script { line, fault, errno } => {
                CowStr::Owned(fault_text(alloc, line, fault, errno)?)
            }
            Refusal::Step(number) => {
                CowStr::Owned(format!(in alloc; "macsim: step {number} refused\n")?)
            }
            Refusal::Fails(line) => CowStr::Owned(format!(in alloc; "no {line}\n")?),
            Refusal::Header => CowStr::Borrowed("macsim: check header\n"),
            Refusal::ReadFault => CowStr::Borrowed("macsim: read fault\n"),
            Refusal::TooLong => CowStr::Borrowed("macsim: too long\n"),
            Refusal::Memory => CowStr::Borrowed(NO_MEMORY_LINE),
            Refusal::TooManyChains(mut text) => {
                text.push_str("macsim: too many chains\n")?;
                CowStr::Owned(text)
            }
        };
        Ok(text)
    }
}

/// The line of a script's fault.
fn fault_text(
    alloc: Global,
    line: u32,
    fault: ScriptFault,
    errno: Option<Errno>,
) -> Result<String, AllocError>
    ensures { IfOk result (λ text. string_bytes text ≡ fault_text line fault errno) }
{
    let number = fault.number();
    let mut text = format!(in alloc; "macsim: script line {line} fault {number} ")?;
    text.push_str(fault.name())?;
    push_errno(&mut text, errno)?;
    text.push_str("\n")?;
    Ok(text)
}

/// Appends a blank and the errno's name, where there is one.
fn push_errno(text: &mut String, errno: Option<Errno>) -> Result<(), AllocError>
    ensures { OnOk result (string_bytes text.new ≡ string_bytes text.old ++ errno_text errno) }
{
    if let Some(errno) = errno {
        text.push_str(" ")?;
        text.push_str(errno.name())?;
    }
    Ok(())
}

impl From<AllocError> for Refusal {
    ghost from_gives = { λ _ e. e ≡ refusal.Memory };

    fn from(_: AllocError) -> Self {
        Refusal::Memory
    }
}

impl From<ReadError> for Refusal {
    ghost use Rattle.mf_top.specs.Refusals.{read_refusal};
    ghost use Rattle.std.specs.Prelude.{◌≡◌};

    ghost from_gives = { λ e r. r ≡ read_refusal e };

    fn from(error: ReadError) -> Self {
        match error {
            ReadError::Failed => Refusal::ReadFault,
            ReadError::TooLong => Refusal::TooLong,
            ReadError::Memory => Refusal::Memory,
        }
    }
}

impl From<ScriptError> for Refusal {
    ghost use Rattle.mf_top.specs.Refusals.{script_refusal};
    ghost use Rattle.std.specs.Prelude.{◌≡◌};

    ghost from_gives = { λ e r. r ≡ script_refusal e };

    fn from(error: ScriptError) -> Self {
        match error {
            ScriptError::Fault { line, fault, errno } => Refusal::Script { line, fault, errno },
            ScriptError::Memory => Refusal::Memory,
        }
    }
}
