//! Tests over the books of donor claims: that of one thread, that which threads share, and a history
//! that somebody else wrote. They stand in a crate of their own, since a crate with tests is proved
//! twice.
#![tactic(auto)]

#[cfg(test)]
mod book;
#[cfg(test)]
mod replay;
#[cfg(test)]
mod shared_claims;
#[cfg(test)]
mod two_threads;
