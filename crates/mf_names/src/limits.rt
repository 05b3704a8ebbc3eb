//! The limits of names, paths and texts.

/// The most bytes of a name, and of a component of a path.
pub const NAME_LIMIT: usize = 32;

/// The most components of a path.
pub const PATH_LIMIT: usize = 8;

/// The most bytes of a file.
pub const CONTENT_LIMIT: usize = 65_536;

/// The most bytes of a script, and so of what one of its calls writes, and of a message.
pub const SCRIPT_LIMIT: usize = 1_048_576;

/// The most files that a process has open at once. Their descriptors are numbered from 0, and each number is below this one.
pub const MOST_DESCRIPTORS: u32 = 16;
