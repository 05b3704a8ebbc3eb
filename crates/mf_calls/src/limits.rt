//! The limits of a script.

use mf_policy::MOST_LISTED;

/// The most boot lines of a script: as many as policies can be listed.
pub const BOOT_LIMIT: usize = MOST_LISTED;

/// The most file lines of a script.
pub const FILE_LIMIT: usize = 256;

/// The most tasks of a script.
pub const TASK_LIMIT: usize = 16;

/// The most lines of a task.
pub const LINE_LIMIT: usize = 4096;

/// The most lines of all tasks together.
pub const ALL_LINES_LIMIT: usize = TASK_LIMIT * LINE_LIMIT;

/// The most steps of a script.
pub const STEP_LIMIT: usize = 65_536;

/// The most lines of all tasks together that list the rules.
pub const RULE_LIST_LIMIT: usize = 64;

/// The greatest mode of a file, as chmod(2) has it.
pub const MODE_LIMIT: u16 = 0o7777;

/// The greatest uid, and the greatest gid, as in sys/limits.h.
pub const UID_MAX: u32 = 4_294_967_295;
