//! Where files come from and go to, and where lines are printed: traits for both, with one of each in
//! memory and one of the system. Also the words that the system hands to a program. Begin with [`Desk`]
//! and [`Printer`].
#![tactic(auto)]

mod calls;
mod count;
mod file;
mod memory;
mod page;
mod printer;
mod standard_output;
#[cfg(test)]
mod tests;
mod words;
mod writing;

pub use calls::{Desk, FetchError, StoreError};
pub use file::FileDesk;
pub use memory::{Call, Failure, MemoryDesk};
pub use page::MemoryPrinter;
pub use printer::{PrintFailed, Printer};
pub use standard_output::OutPrinter;
pub use words::{WordsFault, words_of};
