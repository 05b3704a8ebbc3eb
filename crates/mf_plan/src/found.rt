//! What a call is about.

use mf_elem::Request;
use mf_objects::Id;

/// The process that makes a call, and the entity that the call is about: of a free name its directory, of an entry of a directory
/// the entry, and of two sockets the second; and what it asks of a label. A plan is made by looking these up, and hands them on
/// to payload and effect.
#[derive(Clone, Copy)]
pub struct Found {
    pub caller: Option<Id>,
    pub target: Option<Id>,
    /// What a relabel asks for. It goes with the check of the relabel alone, and stands here once.
    pub request: Option<Request>,
}
