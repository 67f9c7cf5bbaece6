//! A look into one path of a search. It tells the path's system, which is without the numerical fields that
//! the path changes, its boxes, and what becomes of it. Also the lists from which its closing steps come.
//! Begin with [`look_into`], which looks into a path from the basis of the path before its last letter;
//! [`push_lists`] gives the lists.
#![tactic(auto)]

mod code_paths;
mod histories;
mod looks;
mod number_paths;
mod problem;

pub use histories::{Bases, push_lists};
pub use looks::{Basis, Look, look_into};
pub use number_paths::system_along;
pub use problem::{Problem, field_count};
