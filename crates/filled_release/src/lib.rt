//! The file that the command `fill` writes, and a line that counts. The file has every record, with the
//! values that the rules force at fields without one. Begin with [`fill_sheet`] and
//! `specs/FilledFiles.antt`.
#![tactic(auto)]

mod counts;
mod filled_file;
mod filled_row;

pub use filled_file::{FilledFile, fill_sheet};
