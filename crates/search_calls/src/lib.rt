//! Worked calls on the search for a record's least change, and on the values that its changed fields are
//! given: what each answers, as text. The program that runs files of such calls is `worked_calls`.
#![tactic(auto)]

mod outcomes;
mod values;

pub use outcomes::search_told;
pub use values::{values_from, values_told};
