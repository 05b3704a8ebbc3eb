//! The limits of what is audited.

use mf_calls::{ALL_LINES_LIMIT, BOOT_LIMIT};

/// The most bytes of a script with its header and the text behind it.
pub const CHECK_LIMIT: usize = 16_777_216;

/// The most lines of a history: one for each registration at boot, and at most three for each line of a task.
pub(crate) const MOST_LINES: usize = BOOT_LIMIT + 3 * ALL_LINES_LIMIT;
