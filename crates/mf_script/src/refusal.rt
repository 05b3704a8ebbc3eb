//! Why a line of a script is not read.
ghost use Rattle.std.specs.Prelude.{◌≡◌, Some, None};
ghost use Rattle.mf_script.specs.declared.refusal.Refusal.TheVariants as refusal;
ghost use Rattle.mf_script.specs.declared.error.ScriptFault.TheVariants.{BootRefused};

use crate::error::ScriptFault;
use mf_errno::Errno;
use std::alloc::{AllocError, AllocFailed};

/// The fault of a line, with an errno where a module can't be booted or a tunable can't be set.
#[derive(Clone, Copy)]
pub struct LineFault {
    pub fault: ScriptFault,
    pub errno: Option<Errno>,
}

/// Why a line is not read.
#[derive(Clone, Copy)]
pub enum Refusal {
    /// It has this fault.
    Faulty(LineFault),
    /// Memory ran out.
    Memory,
}

/// The refusal of a line with that fault.
pub fn faulty(fault: ScriptFault) -> Refusal
    ensures { result ≡ refusal.Faulty (record { fault = fault; errno = None }) }
{
    Refusal::Faulty(LineFault { fault, errno: None })
}

/// The refusal of a boot line, or of the tunable's, with that errno.
pub fn boot_refused(errno: Errno) -> Refusal
    ensures { result ≡ refusal.Faulty (record { fault = BootRefused; errno = Some errno }) }
{
    Refusal::Faulty(LineFault {
        fault: ScriptFault::BootRefused,
        errno: Some(errno),
    })
}

impl From<AllocError> for Refusal {
    ghost from_gives = { λ _ e. e ≡ refusal.Memory };

    fn from(_: AllocError) -> Self {
        Refusal::Memory
    }
}

impl<T: Drop> From<AllocFailed<T>> for Refusal {
    ghost from_gives = { λ _ e. e ≡ refusal.Memory };

    fn from(_: AllocFailed<T>) -> Self {
        Refusal::Memory
    }
}
