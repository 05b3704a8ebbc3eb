//! Credentials of subjects and attributes of files, with the lists of fixed capacity that they are kept in.
#![tactic(auto)]

mod array_vec;
mod cred;

pub use array_vec::{ArrayVec, Duplicate};
pub use cred::{Cred, DIRECTORY_MODE, FILE_MODE, FileView, MOST_GROUPS};
