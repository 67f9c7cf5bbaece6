//! The commands `edit` and `classed`, over any desk and any printer: records are corrected at the least
//! weight, with values from donors. These are any clean records, or those of the record's own imputation
//! class. Begin with [`run_edit`], [`run_classed`], `specs/EditRun.antt` and `specs/ClassedRun.antt`.
#![tactic(auto)]

mod class_field;
mod edit_input;
mod edit_run;
mod laws;

pub use edit_run::{run_classed, run_edit};
pub use laws::edit_laws;
