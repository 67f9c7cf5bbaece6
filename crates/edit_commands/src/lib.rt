//! The commands of the program, over any desk and any printer: what the words ask for, which is handed to
//! the crate of the command. Begin with [`fh_main`].
#![tactic(auto)]

mod asked;
mod run;

pub use run::fh_main;
