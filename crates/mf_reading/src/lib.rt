//! What texts tell: every legal history of a well-formed script can be read back from its text, and no two have the same
//! whole text.
#![tactic(auto)]

mod laws;

pub use laws::{
    legal_histories_are_read, replies_fit, sources_are_no_line, whole_text_tells_history,
};
