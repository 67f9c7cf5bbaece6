//! What every crate of the editor shares: the answer "no memory", a list that contracts see as a
//! list, and a counter of steps that costs nothing when the program runs.
#![tactic(auto)]

mod counter;
mod list;
mod memory;
#[cfg(test)]
mod tests;

pub use counter::Steps;
pub use list::Sequence;
pub use memory::OutOfMemory;
