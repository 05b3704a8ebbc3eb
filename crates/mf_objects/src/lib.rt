//! The live entities of the kernel: processes with the files that they have open, files and directories, pipes and sockets,
//! with their labels.
#![tactic(auto)]

mod descriptors;
mod entity;
mod head;
mod id;
mod index;
mod limits;
mod messages;
mod objects;

pub use descriptors::Fd;
pub use head::Head;
pub use id::Id;
pub use limits::{
    HEAD_BYTES, ID_LIMIT, MOST_ENTITIES, MOST_MESSAGES, MOST_NAMES, PIPE_LIMIT, ROOT_MODE,
};
pub use objects::Objects;
