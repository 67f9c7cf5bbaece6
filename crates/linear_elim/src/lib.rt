//! Elimination of numerical fields from linear edits, by equalities or by Fourier and Motzkin: [`step`]
//! eliminates one field, [`fold_system`] a set of them. The definitions are in `specs/Steps.antt`,
//! `specs/Systems.antt` and `specs/Origins.antt`. The contracts say exactly which lines come out, or which
//! number first leaves the range; that the lines that come out hold at a point exactly where some values at
//! the eliminated fields make the given lines hold; that the eliminated fields stand in none of them; and
//! that each comes from the lines that its origin names.
#![tactic(auto)]

mod column;
mod combine;
mod elimination;
mod extension;
mod fault;
mod fields;
mod fold;
mod held;
mod pair_count;
mod step_lines;
mod substitution;
mod system;
mod systems;

pub use elimination::{reduced_step, step};
pub use extension::extend;
pub use fault::{StepFault, SystemFault};
pub use fields::last_field;
pub use fold::fold_system;
pub use held::Held;
pub use pair_count::pairs;
pub use system::System;
pub use systems::{Recompute, Systems};
