//! The lines that one step of elimination takes, with the field that it eliminates, handed down as one
//! value.
ghost use Rattle.std.specs.Prelude.{◌≡◌, All};
ghost use Rattle.edit_line.specs.Domains.{domains};

use crate::column::Column;
use edit_line::Derived;

/// The lines that a step takes, all over one shape, and the column of the field that it eliminates from them.
#[derive(Clone, Copy)]
pub(crate) struct StepLines<'a> {
    pub(crate) column: Column,
    pub(crate) lines: &'a [Derived],
    pub ghost over: { All (λ t. t.line.shape ≡ domains column.shape) lines.now },
}
