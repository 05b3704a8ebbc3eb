//! Ids of live entities.
ghost use Rattle.std.specs.Prelude.{◌≡◌};

/// The id of an entity. Ids are given from 0 on in the order of creation, and never again.
#[derive(Clone, Copy, PartialEq, Eq, Debug, Default)]
pub struct Id(pub(crate) u32);

impl Id {
    /// The number under which check items name the entity.
    pub fn number(self) -> u32
        ensures { result ≡ self.0 }
    {
        self.0
    }
}
