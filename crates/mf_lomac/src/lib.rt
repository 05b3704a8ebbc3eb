//! The low watermark integrity policy of mac_lomac(4).
#![tactic(auto)]

mod lomac;

pub use lomac::Lomac;
