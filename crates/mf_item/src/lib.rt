//! What policies are asked: an operation, by a subject, on an object.
#![tactic(auto)]

mod item;
mod operation;
mod view;

pub use item::Item;
pub use operation::CheckOp;
pub use view::{Kind, Labels, ObjectView, SubjectView};
