//! The normal form of edit rules: each rule as linear edits, which all hold exactly where the rule does.
//! Begin with [`normal_lines`]; the normal form is defined in `specs/NormalForm.antt`. That it says what
//! the rules say is the contract of [`normal_form_law`]; [`rule_edits`] makes the lines the survey's edits.
#![tactic(auto)]

mod edits;
mod meaning;
mod narrow;
mod normal;
mod rule_line;
mod rule_lines;
mod side;
mod survey_shape;

pub use edits::rule_edits;
pub use meaning::normal_form_law;
pub use normal::{lines_of_rules, normal_lines};
pub use rule_line::RuleLine;
