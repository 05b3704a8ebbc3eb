//! Which modules can be loaded and unloaded, and how a module is registered.
ghost use Rattle.std.specs.Prelude.{◌≡◌};
ghost use Rattle.mf_policy.specs.Loading as spec;
ghost use Rattle.mf_policy.specs.Modules as facts;
ghost use Rattle.mf_policy.specs.Registration as listing;

use crate::modules::{facts_of, wants_slot};
use crate::{Registration, SpecList};
use mf_elem::SLOTS;
use mf_errno::{Errno, Module};

/// Why a module can't be loaded: the first of these that applies.
#[derive(Clone, Copy)]
pub enum LoadFault {
    /// Boot has ended, and the module has the flag NOTLATE.
    NotLate,
    /// The module is listed.
    Exists,
    /// The module wants a label slot, and all numbers were given.
    NoSlot,
}

/// Why a module can't be unloaded: the first of these that applies.
#[derive(Clone, Copy)]
pub enum UnloadFault {
    /// The module isn't listed.
    NotLoaded,
    /// The module lacks the flag UNLOADOK.
    Pinned,
}

impl LoadFault {
    /// The errno with which kldload(2) is refused.
    pub fn errno(self) -> Errno
        ensures { result ≡ spec.load_errno self }
    {
        match self {
            LoadFault::NotLate => Errno::Ebusy,
            LoadFault::Exists => Errno::Eexist,
            LoadFault::NoSlot => Errno::Enomem,
        }
    }
}

impl UnloadFault {
    /// The errno with which kldunload(2) is refused.
    pub fn errno(self) -> Errno
        ensures { result ≡ spec.unload_errno self }
    {
        match self {
            UnloadFault::NotLoaded => Errno::Enoent,
            UnloadFault::Pinned => Errno::Ebusy,
        }
    }
}

/// Why the module can't be loaded where so many slot numbers were given. `booted` says whether boot has ended.
pub fn load_fault(booted: bool, listed: &SpecList, given: u8, module: Module) -> Option<LoadFault>
    ensures { result ≡ spec.load_fault booted listed.now given «module» }
{
    if booted && facts_of(module).not_late {
        return Some(LoadFault::NotLate);
    }
    if listed.is_listed(module) {
        return Some(LoadFault::Exists);
    }
    if wants_slot(module) && given as usize >= SLOTS {
        return Some(LoadFault::NoSlot);
    }
    None
}

/// Why the module can't be unloaded.
pub fn unload_fault(listed: &SpecList, module: Module) -> Option<UnloadFault>
    ensures { result ≡ spec.unload_fault listed.now «module» }
{
    if !listed.is_listed(module) {
        return Some(UnloadFault::NotLoaded);
    }
    if !facts_of(module).unload_ok {
        return Some(UnloadFault::Pinned);
    }
    None
}

/// How the module is registered where so many slot numbers were given. `booted` says whether boot has ended.
pub fn registration_of(module: Module, booted: bool, given: u8) -> Registration
    ensures { result ≡ listing.registration_of «module» booted given }
{
    Registration {
        module,
        slot: slot_for(module, given),
        fixed: !booted && !facts_of(module).unload_ok,
    }
}

fn slot_for(module: Module, given: u8) -> Option<u8>
    ensures { result ≡ listing.slot_for (facts.wants_slot «module») given }
{
    if wants_slot(module) {
        Some(given)
    } else {
        None
    }
}
