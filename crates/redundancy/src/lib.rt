//! Redundant linear edits: [`prune`] finds the lines that follow from the others, and shows it by steps that
//! refute their negations. Begin with `specs/Verdicts.antt`, which says what becomes of each line; what the
//! steps of a dropped line prove stands in `derivation/specs/Refutations.antt`.
#![tactic(auto)]

mod base;
mod history;
mod proving;
mod pruning;
mod verdict;
mod walk;

pub use pruning::prune;
pub use verdict::{Verdict, Why};
