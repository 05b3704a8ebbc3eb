//! What happens to the parties of a policy.
use mf_elem::Elem;
use mf_objects::Id;

/// Something that happens to parties of a policy.
#[derive(Clone, Copy)]
pub enum Happening {
    /// The party is labelled, as it comes, at the opening or made by another, or by a relabel. From then on it has an element
    /// of its own; none where that is equal.
    Labelled {
        party: Id,
        own: Option<Elem>,
        maker: Option<Id>,
    },
    /// A check passed. Whether something comes to its subject from its object, and to the object from the subject.
    Moves {
        subject: Id,
        object: Id,
        to_subject: bool,
        to_object: bool,
    },
}

/// Something that happened, in an event, at a check, or behind all checks where that is 0.
#[derive(Clone, Copy)]
pub struct Occurrence {
    pub event: u32,
    pub item: u8,
    pub what: Happening,
}
