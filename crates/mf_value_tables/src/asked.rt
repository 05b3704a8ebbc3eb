//! What all tables ask by.

use std::alloc::AllocError;
use std::process::Abort;

/// Wants what is said of this to hold.
pub fn wants(rt: &impl Abort, name: &str, holds: bool) {
    assert!(rt; holds, "{name}");
}

/// Whether it holds, and no memory ran out.
pub fn holds(found: Result<bool, AllocError>) -> bool {
    match found {
        Ok(holds) => holds,
        Err(AllocError) => false,
    }
}
