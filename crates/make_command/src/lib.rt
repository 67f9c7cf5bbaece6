//! The command `make`, over any desk and any printer: a survey that is made to try the others on. Begin
//! with [`run_make`] and `specs/MakeRun.antt`.
#![tactic(auto)]

mod make_run;

pub use make_run::run_make;
