//! The confidentiality policy of mac_mls(4).
#![tactic(auto)]

mod mls;

pub use mls::Mls;
