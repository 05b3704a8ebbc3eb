//! What calls do to information: what they show and change is covered by the movements of their checks, but for what is named,
//! and movements hand on sources.
#![tactic(auto)]

mod laws;

pub use laws::{
    changes_are_covered, done_hands_on, leads_hand_on, movements_hand_on, replies_are_covered,
    shows_are_covered, two_calls_hand_on,
};
