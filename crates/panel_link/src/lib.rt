//! Panel editing: a record of a respondent who answered before is edited against its own values of the last
//! period, which are never changed. Begin with [`link`] and `specs/LinkedCorrections.antt`. By which lines a
//! field keeps its value is in `specs/Pins.antt`, and what an answer says of the record in `specs/Laws.antt`.
#![tactic(auto)]

mod edits;
mod fixed;
mod keys;
mod laws;
mod linked;
mod linking;
mod pins;

pub use keys::key_column;
pub use laws::panel_laws;
pub use linked::Linked;
pub use linking::link;
