//! Reasons files, read back: which field of which record was changed and how, and which records were
//! left out and why. Begin with `specs/ReasonLines.antt`, which says what one line says, and
//! `specs/ReasonFiles.antt`; in the code with [`read_reasons`].
#![tactic(auto)]

mod entry;
mod fault;
mod header;
mod lines;
mod reading;
#[cfg(test)]
mod tests;
mod words;

pub use entry::{Cause, Change, How, LeftOut};
pub use fault::{LineFault, ReasonFault};
pub use reading::{Reasons, read_reasons};
