//! Paths of the search for the least set of fields to change in a record. This crate says what becomes of each,
//! what it costs to find out, in which order they are taken, and what is found of the record. Begin with
//! `specs/Outcomes.antt`, which says what the search answers; [`outcome_laws`] says what that means for
//! the record. When a path is closed is said in `specs/States.antt`, and what that means by [`path_laws`].
#![tactic(auto)]

mod case;
mod laws;
mod levels;
mod making;
mod state;
mod step_list;
mod writing;

pub use case::case_known;
pub use laws::{outcome_laws, path_laws};
pub use levels::{Level, box_by, line_by};
pub use making::{Making, Written};
pub use state::PathState;
pub use writing::{parts_of, write_steps};
