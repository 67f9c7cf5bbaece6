//! Worked calls on derivations and proof trees: what the checkers say of steps and of a tree that a file
//! has, as text. The program that runs files of such calls is `worked_calls`.
#![tactic(auto)]

mod derivations;
mod proofs_read;

pub use derivations::{path_of, steps_told, tree_told};
