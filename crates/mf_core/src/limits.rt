//! The limits of a run.
use mf_calls::{FILE_LIMIT, LINE_LIMIT, TASK_LIMIT};

/// The most entities at the opening: the root, the files, and the processes of the tasks.
pub const MOST_AT_OPENING: usize = 1 + FILE_LIMIT + TASK_LIMIT;

/// The most events of a history: three for each line.
pub const MOST_EVENTS: usize = 3 * LINE_LIMIT * TASK_LIMIT;
