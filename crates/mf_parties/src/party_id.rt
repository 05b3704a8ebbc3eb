//! Ids of parties.
ghost use Rattle.std.specs.Prelude.{◌≡◌, ◌==◌};

use std::marker::Model;

/// The id of a party, which is that of the entity in the definitions.
#[derive(Clone, Copy)]
pub struct PartyId {
    number: u32,
}

impl Model for PartyId {
    ghost use Rattle.mf_objects.specs.declared.id.Id.{Id};

    ghost Value = { Id };

    ghost view = { λ p. record { 0 = p.number } };

    ghost inverse = { λ id. record { number = id.0 } };
}

impl PartyId {
    /// The id of this number.
    pub(crate) fn new(number: u32) -> PartyId
        ensures { result ≡ record { 0 = number } }
    {
        PartyId { number }
    }

    /// The number under which check items name the party.
    pub fn number(self) -> u32
        ensures { result ≡ self.0 }
    {
        self.number
    }

    /// Whether the two are one id.
    pub fn is(self, other: PartyId) -> bool
        ensures { result ≡ (self.0 == other.0) }
    {
        self.number == other.number
    }
}
