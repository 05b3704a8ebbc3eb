//! The state of the kernel, as the player has it.
use mf_parties::Parties;
use mf_policy::SpecList;
use std::marker::Model;

/// The state of the kernel after the end of boot: the live parties, the listed policies in walk order with their specs, and how
/// many label slots were given. Contracts see the framework's state.
#[derive(Drop)]
pub struct Kernel {
    pub(crate) parties: Parties,
    pub(crate) listed: SpecList,
    pub(crate) given: u8,
}

impl Model for Kernel {
    ghost use Rattle.std.specs.Prelude.{true};
    ghost use Rattle.mf_plan.specs.declared.state.State.{State};

    ghost Value = { State };

    ghost use Rattle.mf_audit.specs.Slotted.{AreSlotted};

    ghost view = { λ k. record {
      objects = k.parties;
      specs = k.listed;
      numbers = k.given;
      booted = true;
    } };

    ghost invariant = { λ k. AreSlotted k.listed };
}
