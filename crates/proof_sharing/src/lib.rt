//! Proofs whose derived lines are written once, for all records: what makes a proof of version 2 of one of
//! version 1. Begin with [`share_lines`]; `specs/SharedProofs.antt` states the proof that it gives.
#![tactic(auto)]

mod kept_steps;
mod laws;
mod leaves;
mod line_step;
mod line_table;
mod put_steps;
mod rows;
mod share;

pub use laws::sharing_laws;
pub use share::share_lines;
