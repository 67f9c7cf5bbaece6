//! What the runs of all commands share: how they end, why they are refused, and what is printed of that.
//! Files are fetched and read here, and stored, lines are printed, and the words of a program are had from
//! the system. A run is over any desk and any printer: what is seen of them, and what a refused run
//! leaves, is defined in `specs/Run.antt`.
#![tactic(auto)]

mod fault;
mod input;
mod reading;
mod refusal;
mod status;
mod storing;
mod telling;
mod words;

pub use fault::{AskedName, Fault, OUT_OF_MEMORY, RecordsFault, USAGE};
pub use input::fetch_input;
pub use reading::{
    MOST_BYTES, MOST_PROOF_BYTES, fetch_file, fetch_last, fetch_sheet, fetch_survey,
};
pub use refusal::Refusal;
pub use status::Status;
pub use storing::store_file;
pub use telling::{refuse, refuse_words, tell, tell_all};
pub use words::words_after_program_name;
