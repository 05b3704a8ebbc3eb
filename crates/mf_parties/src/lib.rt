//! The parties of a player, who goes through a history: the live entities once more, as one list with all their values in it. What
//! is read of them and how they change is said by the definitions alone; of the code that keeps the kernel's own entities nothing is
//! called.
#![tactic(auto)]

mod change;
mod parties;
mod party;
mod party_id;
mod text;
mod what;

pub use parties::Parties;
pub use party_id::PartyId;
pub use text::Text;
pub use what::{OpenFile, What};
