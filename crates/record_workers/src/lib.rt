//! Workers that draw the records of a sheet side by side. Each searches a record and claims a donor for it,
//! before it draws the next. Begin with [`ready_workers`], which makes workers ready, and [`run_all`], which
//! lets them run; what one of them does is in `specs/Workers.antt`.
#![tactic(auto)]

mod gate;
mod gathered;
mod history;
mod parts;
mod ready;
mod shared;
mod source;
mod worker;

pub use gate::{Gate, NoGate};
pub use gathered::{Gathered, run_all};
pub use ready::ready_workers;
pub use shared::Shared;
pub use worker::Worker;
