//! The access matrix: what each live process may do to each live entity, as the listed policies answer.
#![tactic(auto)]

mod letters;
mod matrix;
mod pairs;
mod parties;
mod passing;
mod printing;

pub use matrix::{Matrix, Row, matrix_of};
pub use printing::print_matrix;
