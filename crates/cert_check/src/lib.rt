//! The audit: whether a proof file and a released file are a valid release of rules and records. It is for
//! whoever trusts neither the program that wrote them nor its run. Begin with [`check_all`]; what a valid
//! release is stands in `specs/Releases.antt`, and what it shows in `specs/Shown.antt`.
#![tactic(auto)]

mod changed_fields;
mod check;
mod checking;
mod claim_form;
mod claimed_rows;
mod claims_check;
mod dropped;
mod fault;
mod head;
mod line_counts;
mod new_values;
mod places;
mod released_file;
mod released_row;
mod row_check;
mod rows_check;
mod said;
mod said_check;
mod same_texts;
mod sharing;
mod table;
mod tree_check;

pub use check::check_all;
pub use fault::{CheckFault, Why};
pub use sharing::sharing_laws;
