//! Why a module is not registered or unregistered.
ghost use Rattle.std.specs.Prelude.{◌≡◌};
ghost use Rattle.mf_list.specs.Faults.{register_errno, unregister_errno};

use mf_errno::Errno;
use mf_policy::{LoadFault, UnloadFault};
use thiserror::Error;

/// Why a module isn't registered: the first of these that applies.
#[derive(Clone, Copy, Debug, PartialEq, Eq, Error)]
pub enum RegisterFault {
    /// Neither the lists nor the catalogue have a module of that name.
    #[error("no such module")]
    Unknown,
    /// Boot has ended, and the module has the flag NOTLATE.
    #[error("the module can't be loaded after boot")]
    NotLate,
    /// The module is listed.
    #[error("the module is loaded")]
    Exists,
    /// The module wants a label slot, and all four numbers were given.
    #[error("no label slot is left")]
    NoSlot,
}

/// Why a module isn't unregistered: the first of these that applies.
#[derive(Clone, Copy, Debug, PartialEq, Eq, Error)]
pub enum UnregisterFault {
    /// No module of that name is listed.
    #[error("the module isn't loaded")]
    NotLoaded,
    /// The module lacks the flag UNLOADOK.
    #[error("the module can't be unloaded")]
    Pinned,
}

impl From<LoadFault> for RegisterFault {
    ghost use Rattle.std.specs.Prelude.{◌≡◌};
    ghost use Rattle.mf_list.specs.Registration.{register_fault};

    ghost from_gives = { λ fault refusal. refusal ≡ register_fault fault };

    fn from(fault: LoadFault) -> RegisterFault {
        match fault {
            LoadFault::NotLate => RegisterFault::NotLate,
            LoadFault::Exists => RegisterFault::Exists,
            LoadFault::NoSlot => RegisterFault::NoSlot,
        }
    }
}

impl From<UnloadFault> for UnregisterFault {
    ghost use Rattle.std.specs.Prelude.{◌≡◌};
    ghost use Rattle.mf_list.specs.Registration.{unregister_fault};

    ghost from_gives = { λ fault refusal. refusal ≡ unregister_fault fault };

    fn from(fault: UnloadFault) -> UnregisterFault {
        match fault {
            UnloadFault::NotLoaded => UnregisterFault::NotLoaded,
            UnloadFault::Pinned => UnregisterFault::Pinned,
        }
    }
}

impl RegisterFault {
    /// The errno with which a load is refused.
    pub fn errno(self) -> Errno
        ensures { result ≡ register_errno self }
    {
        match self {
            RegisterFault::Unknown => Errno::Enoent,
            RegisterFault::NotLate => LoadFault::NotLate.errno(),
            RegisterFault::Exists => LoadFault::Exists.errno(),
            RegisterFault::NoSlot => LoadFault::NoSlot.errno(),
        }
    }
}

impl UnregisterFault {
    /// The errno with which an unload is refused.
    pub fn errno(self) -> Errno
        ensures { result ≡ unregister_errno self }
    {
        match self {
            UnregisterFault::NotLoaded => UnloadFault::NotLoaded.errno(),
            UnregisterFault::Pinned => UnloadFault::Pinned.errno(),
        }
    }
}
