//! Values given to the changed fields of a record: imputation by back substitution. Begin with [`give`]; what
//! it gives is in `specs/Given.antt`.
#![tactic(auto)]

mod blank;
mod bound;
mod code;
mod final_test;
mod gift;
mod giving;
mod how;
mod imputation;
mod laws;
mod line_bounds;
mod number;
mod order;
mod path_set;
mod task;
mod value;

pub use gift::{Gift, GiveFault, How};
pub use imputation::give;
pub use laws::value_laws;
pub use path_set::changed_set;
