//! What becomes of records of which something was found: the values that the changed fields are given, or
//! why there are none. Begin with [`give_all`], and with `specs/Ends.antt`, which says what becomes of a
//! record. What that says in terms of corrections is in `specs/Said.antt`, and that the donor settles it in
//! `specs/Laws.antt`.
#![tactic(auto)]

mod ends;
mod laws;
mod row_ends;

pub use ends::give_all;
pub use laws::end_laws;
