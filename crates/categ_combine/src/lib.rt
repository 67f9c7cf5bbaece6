//! Boxes of codes that a record's edits forbid, and the elimination of categorical fields from them.
//! Begin with [`boxes_of`], which makes the boxes of a record, [`fix`], which keeps a field's code, and
//! [`cat_step`], which changes it; their meaning is in `specs/FailingBoxes.antt`, `specs/Fixing.antt` and
//! `specs/Covers.antt`, and what the origins of their boxes name in `specs/Origins.antt`.
#![tactic(auto)]

mod box_from;
mod code_field;
mod cover;
mod covered;
mod failing;
mod fault;
mod fixing;
mod reduction;
mod spot;
mod step;

pub use box_from::{BoxFrom, BoxOrigin};
pub use covered::Covered;
pub use failing::boxes_of;
pub use fault::BoxFault;
pub use fixing::{fix, fix_apart};
pub use step::{cat_step, step_apart};
