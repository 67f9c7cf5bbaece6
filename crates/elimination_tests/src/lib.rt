//! Tests of the pool of derived systems, its readers and threads that share it, and of states and steps
//! of paths that no rules lead to. No case can say as text what they try. They stand in a crate of their
//! own, since a crate with tests is proved twice.
#![tactic(auto)]

#[cfg(test)]
mod path_states;
#[cfg(test)]
mod reading;
#[cfg(test)]
mod shared_systems;
#[cfg(test)]
mod written_steps;
