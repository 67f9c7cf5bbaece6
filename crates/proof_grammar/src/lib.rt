//! The grammar of proof files: what a proof holds ([`Proof`]), and the lines that spell it
//! (`specs/ProofLines.antt`). Also which proofs have a text (`specs/Limits.antt`, `specs/Sizes.antt`), and
//! where bytes leave the grammar (`specs/FirstFaults.antt`). Each text is that of one proof, and bytes
//! that are none have one first line that can't go on ([`one_reading`]). A reader takes [`Lines`] from the
//! bytes one after another, and [`Words`] from a line.
#![tactic(auto)]

mod fault;
mod heads;
mod laws;
mod lines;
mod numbers;
mod paths;
mod proof;
mod text;
mod words;

pub use fault::ProofFault;
pub use heads::{LeafHead, RowHead, RunLimits};
pub use laws::proof_laws;
pub use lines::{Lines, settle};
pub use numbers::{read_named_u32, read_named_u64};
pub use proof::Proof;
pub use text::one_reading;
pub use words::{Stop, Words};
