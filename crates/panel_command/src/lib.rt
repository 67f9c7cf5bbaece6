//! The command `panel`, over any desk and any printer: records are corrected, and their values of the last
//! period left alone. Begin with [`run_panel`] and `specs/PanelRun.antt`.
#![tactic(auto)]

mod keyed_rows;
mod panel_input;
mod panel_rows;
mod panel_run;

pub use panel_run::run_panel;
