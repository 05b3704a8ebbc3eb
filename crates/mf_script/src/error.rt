//! Why a script is not read.
ghost use Rattle.std.specs.Prelude.{◌≡◌};
ghost use Rattle.mf_script.specs.declared.error.ScriptError.TheVariants.{Memory};
ghost use Rattle.mf_script.specs.Faults.{fault_number, fault_name};

use mf_errno::Errno;
use std::alloc::AllocError;
use thiserror::Error;

/// The faults of a script.
#[derive(Clone, Copy, Debug)]
pub enum ScriptFault {
    /// A byte that may not stand in a script.
    NotText,
    /// A word that may not stand there.
    UnknownWord,
    /// The line ends where a word is wanted.
    Missing,
    /// The line goes on where it should end.
    Extra,
    /// No number, or one outside its limits.
    BadNumber,
    /// No label text, or one that may not be asked for there.
    BadLabel,
    /// No rule of ugidfw(8).
    BadRule,
    /// No path or no name, or a file whose directory isn't there.
    BadPath,
    /// A path or a task's name of an earlier line, or a tunable that one has set.
    Duplicate,
    /// The script ends inside a task or inside the steps.
    NoEnd,
    /// More than the limit.
    TooMany,
    /// A module that can't be booted, or a tunable that can't be set.
    BootRefused,
    /// A text with a bad escape.
    BadText,
}

impl ScriptFault {
    /// The number of the fault.
    pub fn number(self) -> u32
        ensures { result ≡ fault_number self }
    {
        match self {
            ScriptFault::NotText => 1,
            ScriptFault::UnknownWord => 2,
            ScriptFault::Missing => 3,
            ScriptFault::Extra => 4,
            ScriptFault::BadNumber => 5,
            ScriptFault::BadLabel => 6,
            ScriptFault::BadRule => 7,
            ScriptFault::BadPath => 8,
            ScriptFault::Duplicate => 9,
            ScriptFault::NoEnd => 10,
            ScriptFault::TooMany => 11,
            ScriptFault::BootRefused => 12,
            ScriptFault::BadText => 13,
        }
    }

    /// The name of the fault.
    pub fn name(self) -> &'static str
        ensures { result.now ≡ fault_name self }
    {
        match self {
            ScriptFault::NotText => "NotText",
            ScriptFault::UnknownWord => "UnknownWord",
            ScriptFault::Missing => "Missing",
            ScriptFault::Extra => "Extra",
            ScriptFault::BadNumber => "BadNumber",
            ScriptFault::BadLabel => "BadLabel",
            ScriptFault::BadRule => "BadRule",
            ScriptFault::BadPath => "BadPath",
            ScriptFault::Duplicate => "Duplicate",
            ScriptFault::NoEnd => "NoEnd",
            ScriptFault::TooMany => "TooMany",
            ScriptFault::BootRefused => "BootRefused",
            ScriptFault::BadText => "BadText",
        }
    }
}

/// Why bytes are not read as a script.
#[derive(Clone, Copy, Debug, Error)]
pub enum ScriptError {
    /// The first faulty line, counted from 1, and its first fault, with an errno where a module can't be booted or a tunable
    /// can't be set.
    #[error("line {line}: {fault:?}")]
    Fault {
        line: u32,
        fault: ScriptFault,
        errno: Option<Errno>,
    },
    /// Memory ran out.
    #[error("no memory")]
    Memory,
}

impl From<AllocError> for ScriptError {
    ghost from_gives = { λ _ e. e ≡ Memory };

    fn from(_: AllocError) -> Self {
        ScriptError::Memory
    }
}
