//! How a listed policy is registered.
ghost use Rattle.std.specs.Prelude.{◌≡◌, None, false};

use mf_errno::Module;

/// The room that lists of what is listed have: no fewer than there are modules.
pub const MOST_LISTED: usize = 8;

/// How a policy is registered: its module, the number of its label slot, below `SLOTS`, where it has one, and whether it is
/// in the static list, which it can't leave.
#[derive(Clone, Copy, PartialEq, Eq)]
pub struct Registration {
    pub module: Module,
    pub slot: Option<u8>,
    pub fixed: bool,
}

impl Default for Registration {
    ghost use Rattle.mf_errno.specs.declared.module.Module.TheVariants as modules;

    ghost is_default = { λ value.
        value ≡ record { «module» = modules.Biba; slot = None; fixed = false } };

    fn default() -> Registration {
        Registration {
            module: Module::default(),
            slot: None,
            fixed: false,
        }
    }
}
