//! A walk along one path of the search. The paths that it extends are taken one after the other, from the
//! empty one on. The walk ends where one is closed, a number leaves the range, the work would pass a budget,
//! or the path itself is found open. Begin with [`walk_along`]; what its end tells is the contract of
//! [`walk_laws`].
#![tactic(auto)]

mod ends;
mod laws;
mod walk;
mod walk_end;

pub use laws::walk_laws;
pub use walk::{Walk, walk_along};
pub use walk_end::WalkEnd;
