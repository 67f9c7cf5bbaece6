//! Derivations: lists of small steps that anyone can check one by one, and what they show. A step takes a
//! given line, combines two, or makes a box of forbidden codes, of a line that fails at a record or of
//! boxes. Begin with [`check_steps`]: it accepts a list exactly where each step is valid
//! (`specs/ValidSteps.antt`), and what the last step proves then follows (`specs/Shown.antt`). Steps that
//! refute the negation of a line show the line (`specs/Refutations.antt`).
#![tactic(auto)]

mod basis;
mod check;
mod code_field;
mod combining;
mod covering;
mod failing;
mod fault;
mod fixing;
mod given;
mod known;
mod listing;
mod proved;
mod refuting;
mod sharing;
mod step;

pub use check::check_steps;
pub use failing::fails_at_kept;
pub use fault::StepsFault;
pub use listing::line_list;
pub use proved::Proved;
pub use refuting::record_without_values;
pub use sharing::sharing_laws;
pub use step::Step;
