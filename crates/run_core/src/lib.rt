//! The core of workers that run side by side: what they share, as a state that events change one after the
//! other. A worker draws a row number, publishes a derived system, or claims a donor, each in one step. What
//! a step answers and leaves is defined in `specs/Steps.antt`. Threads may take their steps in any order, and
//! [`core_laws`] says what holds after every order of them. Begin with [`CoreState`]. No thread is started
//! here.
#![tactic(auto)]

mod event;
mod laws;
mod state;
#[cfg(test)]
mod tests;
mod worker;

pub use event::{CoreEvent, CoreReply};
pub use laws::core_laws;
pub use state::CoreState;
