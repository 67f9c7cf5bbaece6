//! The command `check`, over any desk and any printer: an audit of what was released, whoever wrote it.
//! Begin with [`run_check`] and `specs/CheckRun.antt`.
#![tactic(auto)]

mod check_run;

pub use check_run::run_check;
