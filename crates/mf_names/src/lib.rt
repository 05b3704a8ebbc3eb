//! Names, paths and texts of a limited length, and lists of them, which contracts see as lists.
#![tactic(auto)]

mod bytes;
mod limits;
mod listing;
mod name;
mod path;

pub use bytes::Bytes;
pub use limits::{CONTENT_LIMIT, MOST_DESCRIPTORS, NAME_LIMIT, PATH_LIMIT, SCRIPT_LIMIT};
pub use listing::Listing;
pub use name::{Name, NameList, Word};
pub use path::{Components, Path};
