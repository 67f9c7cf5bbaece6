//! Error localisation of one record: the set of fields of least weight whose values can be replaced so that
//! all edits hold (Fellegi and Holt 1976). It is found by a best-first search over paths, with a certificate that
//! none is lighter. Begin with [`localise`]: its answer is exactly the outcome of `edit_paths`, whatever
//! systems the source keeps.
#![tactic(auto)]

mod all_kept;
mod best_first;
mod certificates;
mod ends;
mod known;
mod task;

pub use best_first::localise;
