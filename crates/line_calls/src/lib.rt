//! Worked calls on the rules of a survey, on lines, derived systems and boxes: what each answers, as
//! text. All worked calls share from here the survey of a rule file, a record in one word, numbers, and
//! why a call is not made. The program that runs files of them is `worked_calls`.
#![tactic(auto)]

mod boxes;
mod fault;
mod lines;
mod numbers;
mod pruning;
mod records;
mod rules;
mod systems;
mod texts;

pub use boxes::{box_text, boxes_told};
pub use fault::CallFault;
pub use lines::{lines_told, negations_told, sums_told};
pub use numbers::{from_one, number_in, place_in};
pub use pruning::{dropped_told, prune_told};
pub use records::{row_of, row_text};
pub use rules::{bytes_in, edits_of, survey_in};
pub use systems::{pairs_told, system_told};
pub use texts::{Texts, name_of, only_line, told_line};
