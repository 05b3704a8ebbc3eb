//! The policy of which processes one sees, that of mac_seeotheruids(4), and the policy of which ports one binds, that of
//! mac_portacl(4).
#![tactic(auto)]

mod portacl;
mod seeotheruids;

pub use portacl::Portacl;
pub use seeotheruids::Seeotheruids;
