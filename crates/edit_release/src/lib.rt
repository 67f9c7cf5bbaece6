//! What an edit releases of the records of a sheet: the proof, the reasons file, the released file and the
//! summary lines. Begin with [`edit_sheet`]: what it gives is a valid release, as `cert_check` states it.
//! What its guarantee says of each record that is released, and what settles an edit, is told by
//! [`release_laws`].
#![tactic(auto)]

mod edit;
mod edited_sheet;
mod laws;
mod proof;
mod release;
mod texts;

pub use edit::edit_sheet;
pub use laws::release_laws;
pub use release::Release;
