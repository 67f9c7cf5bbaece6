//! Claims of donors: each row claims a donor once, and no donor is given more often than a limit allows.
//! What a row is answered after a history is defined in `specs/Claims.antt`, and a legal history in
//! `specs/Entries.antt`. Begin with [`Book`], the book of one thread. A [`SharedBook`] is one that threads
//! share, without a lock. [`first_illegal`] tells whether claims that somebody else wrote are a legal
//! history.
#![tactic(auto)]

mod book;
mod claim;
mod indexes;
mod replay;
mod rule;
mod shared;
mod words;

pub use book::Book;
pub use claim::{Claim, Entry, Won};
pub use replay::first_illegal;
pub use shared::{Pass, SharedBook};
