//! Tickets for workers that run side by side: the numbers below a count, each drawn once, without a lock.
//! Begin with [`Tickets`].
#![tactic(auto)]

mod rule;
#[cfg(test)]
mod tests;
mod tickets;

pub use tickets::{Seat, Tickets};
