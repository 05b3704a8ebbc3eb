//! The policy of rules about files, that of mac_bsdextended(4).
#![tactic(auto)]

mod bsdextended;

pub use bsdextended::Bsdextended;
