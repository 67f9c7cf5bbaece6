//! A survey of businesses that are made up, for trials of the editor: its rule file, and record files of
//! any length. Each record file follows from a number to start from. Begin with [`rules_text`] and
//! [`records_text`]. The survey stands in `specs/SurveyMade.antt` and `specs/Kinds.antt`, what a row
//! says in `specs/Businesses.antt` and `specs/RecordFiles.antt`.
#![tactic(auto)]

mod answers;
mod business;
mod generator;
mod kinds;
mod lines;
mod records;
mod rules;
mod size;
#[cfg(test)]
mod tests;

pub use records::records_text;
pub use rules::rules_text;
