//! Deductive imputation: a field without a value is filled where the rules force its value, and no other
//! field is. Begin with [`fill`] and `specs/Forced.antt`, which says when a value is forced; what an answer
//! says of the record is the contract of [`fill_laws`].
#![tactic(auto)]

mod bad_fields;
mod field_test;
mod filled;
mod filling;
mod laws;
mod task;
mod test_line;

pub use filled::{Filled, Forced};
pub use filling::fill;
pub use laws::fill_laws;
