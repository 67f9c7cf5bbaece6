//! Tests over surveys, rule files and record files: what the clauses mean on worked examples, and that memory
//! suffices for each call. They stand in a crate of their own, since a crate with tests is proved twice.
#![tactic(auto)]

#[cfg(test)]
mod rows;
#[cfg(test)]
mod rules;
#[cfg(test)]
mod sheets;
#[cfg(test)]
mod statements;
#[cfg(test)]
mod surveys;
