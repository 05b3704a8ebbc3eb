//! When a module may be loaded and unloaded.
ghost use Rattle.std.specs.Prelude.{⊤, ◌≡◌, [], ◌∷◌, codes};
ghost use Rattle.mf_policy.specs.LoadFlags.{flags_of, is_notlate, is_unloadok};

use crate::modules::facts_of;
use bitflags::{Flag, Flags, bitflag_items};
use mf_errno::Module;

/// The flags that a module is registered with, as the kernel's `MAC_POLICY_SET` takes them: NOTLATE, that it can't be loaded
/// once boot has ended, and UNLOADOK, that it may be unloaded.
#[derive(Clone, Copy)]
pub struct LoadFlags(u8);

bitflag_items! {
    impl LoadFlags: u8 {
        const NOTLATE = 1;
        const UNLOADOK = 2;
    }
}

impl Flags for LoadFlags {
    type Bits = u8;

    ghost exact = { ⊤ };

    ghost table = { (codes "NOTLATE", 1) ∷ (codes "UNLOADOK", 2) ∷ [] };

    ghost set_of = { λ flags. flags.0 };

    fn flags<'a>() -> &'a [Flag<LoadFlags>] {
        LoadFlags::FLAGS
    }

    fn bits(&self) -> u8 {
        self.0
    }

    fn from_bits_retain(bits: u8) -> LoadFlags {
        LoadFlags(bits)
    }
}

impl LoadFlags {
    /// Whether the module can't be loaded once boot has ended.
    pub fn is_notlate(self) -> bool
        ensures { result ≡ is_notlate self }
    {
        self.contains(LoadFlags::NOTLATE)
    }

    /// Whether the module may be unloaded.
    pub fn is_unloadok(self) -> bool
        ensures { result ≡ is_unloadok self }
    {
        self.contains(LoadFlags::UNLOADOK)
    }
}

/// The flags that the module is registered with.
pub fn flags_of(module: Module) -> LoadFlags
    ensures { result ≡ flags_of «module» }
{
    let facts = facts_of(module);
    match (facts.not_late, facts.unload_ok) {
        (true, true) => LoadFlags::all(),
        (true, false) => LoadFlags::NOTLATE,
        (false, true) => LoadFlags::UNLOADOK,
        (false, false) => LoadFlags::empty(),
    }
}
