//! The integrity policy of mac_biba(4).
#![tactic(auto)]

mod biba;

pub use biba::Biba;
