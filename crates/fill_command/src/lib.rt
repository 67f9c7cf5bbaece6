//! The command `fill`, over any desk and any printer: fields without a value take the values that the rules
//! force. Begin with [`run_fill`] and `specs/FillRun.antt`.
#![tactic(auto)]

mod fill_run;

pub use fill_run::run_fill;
