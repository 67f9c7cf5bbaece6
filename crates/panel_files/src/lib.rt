//! The two files of a panel: the records of this period, and the rows of the last one. These are joined to
//! the records by a key. Begin with `specs/LastFields.antt`, which says which fields stand in which file, and
//! `specs/Joined.antt`; in the code with [`last_set`] and [`last_rows`].
#![tactic(auto)]

mod copies;
mod fields;
mod keys;
mod rows;
mod surveys;
#[cfg(test)]
mod tests;

pub use fields::last_set;
pub use keys::last_rows;
pub use rows::{both_columns, both_values};
pub use surveys::{last_survey, own_survey};
