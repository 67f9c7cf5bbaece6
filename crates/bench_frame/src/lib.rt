//! What the programs that are timed share: why one tells nothing, the numbers in its words, and how it
//! ends. What a bench does is its own.
#![tactic(auto)]

mod fault;
mod leaving;
mod words;

pub use fault::Fault;
pub use leaving::{Ending, ending_of, leave};
pub use words::number_in;
