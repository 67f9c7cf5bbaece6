//! The records of a sheet, edited. Each has the least set of fields to change, its donor, and the values
//! that these fields are given, or why there are none. Begin with [`edit_records`], which lets workers draw
//! the records side by side and then gives values. Who claims which donor is in `specs/Donations.antt`.
#![tactic(auto)]

mod edited;
mod records;
mod terms;

pub use edited::Edited;
pub use records::edit_records;
pub use terms::Terms;
