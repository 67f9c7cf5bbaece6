//! What is printed of the lines of a survey's rules: their numbers and texts, and what becomes of each.
//! Behind a dropped one stand the steps that show that it says nothing new. Begin with [`report`] and
//! `specs/Reports.antt`; the text of a line is in `specs/LineTexts.antt`.
#![tactic(auto)]

mod conditions;
mod lines;
mod reports;
mod sums;

pub use lines::line_text;
pub use reports::report;
