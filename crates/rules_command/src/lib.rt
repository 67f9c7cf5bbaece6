//! The command `rules`, over any desk and any printer: which lines of a survey's rules follow from the
//! others. Begin with [`run_rules`] and `specs/RulesRun.antt`.
#![tactic(auto)]

mod rules_run;

pub use rules_run::run_rules;
