//! Files of worked cases, in the form of cram: commands over files in memory, with the output that is to
//! come of each. Begin with [`run_program`], which runs files of cases and prints how many cases each
//! has, or how what came differs from what was to come. What a program's own commands do is said by its
//! [`Commands`]. The form of such a file is told in `docs/developing.md`.
#![tactic(auto)]

mod command;
mod commands;
mod difference;
mod fault;
mod files;
mod line_edits;
mod numbers;
mod program;
mod progress;
mod report;
mod spelling;
mod steps;
mod words;
mod workplace;

pub use commands::{Commands, Role};
pub use files::{Files, failure_lines, no_such_file};
pub use numbers::number_of;
pub use program::run_program;
pub use spelling::spelled_lines;
