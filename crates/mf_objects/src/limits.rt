//! The limits of the live entities.
use mf_cred::DIRECTORY_MODE;

/// The most entities that live at once.
pub const MOST_ENTITIES: u32 = 1024;

/// Each id is below this number.
pub const ID_LIMIT: u32 = 4_294_967_295;

/// The most bytes that a pipe holds.
pub const PIPE_LIMIT: usize = 16_384;

/// The most messages that wait at a socket.
pub const MOST_MESSAGES: usize = 16;

/// The most names that a listing of a directory has.
pub const MOST_NAMES: usize = 16;

/// The most bytes that a head keeps.
pub const HEAD_BYTES: usize = 64;

/// The mode of the root directory.
pub const ROOT_MODE: u16 = DIRECTORY_MODE;
