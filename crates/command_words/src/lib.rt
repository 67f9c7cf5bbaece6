//! What the words of the command line ask for: a command, and its options with their values, as the crate
//! `clap` takes them. Begin with [`edit_asked`], [`classed_asked`], [`check_asked`], [`rules_asked`],
//! [`fill_asked`], [`panel_asked`], [`make_asked`] and [`page_asked`]; which words are which command
//! stands in `specs/Asked.antt`.
#![tactic(auto)]

mod check_words;
mod classed_words;
mod edit_words;
mod file_names;
mod fill_words;
mod make_words;
mod options;
mod page_words;
mod panel_words;
mod rules_words;

pub use check_words::{CheckWords, check_asked};
pub use classed_words::{ClassedWords, classed_asked};
pub use edit_words::{EditWords, edit_asked};
pub use fill_words::{FillWords, fill_asked};
pub use make_words::{MakeWords, make_asked};
pub use page_words::{PageWords, page_asked};
pub use panel_words::{PanelWords, panel_asked};
pub use rules_words::{RulesWords, rules_asked};
