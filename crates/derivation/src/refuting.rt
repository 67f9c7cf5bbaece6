//! What the refutation of a line's negation begins with, and what it ends in.
ghost use Rattle.std.specs.Prelude.{◌≡◌, IfOk, List};
ghost use Rattle.edit_model.specs.Rows.{IsRow};
ghost use Rattle.edit_line.specs.Shapes.{Domain};
ghost use Rattle.derivation.specs.Refutations.{is_absurd, no_values};
ghost use Rattle.derivation.specs.Shown.{IsOver};

use crate::proved::Proved;
use edit_line::is_false;
use edit_model::{Row, Survey, Value};
use foundation::OutOfMemory;
use std::alloc::Global;

/// The record of the survey without a value at any field. The check of a refutation asks for some
/// record, of which it keeps no field; it is given this one.
pub fn record_without_values(alloc: Global, survey: &Survey) -> Result<Row, OutOfMemory>
    ensures values { IfOk result (λ row. row ≡ no_values survey.now.fields) }
    ensures row { IfOk result (λ row. IsRow survey.now.fields row) }
{
    let values = vec![in alloc; Value::Bad; survey.fields().len()]?;
    Ok(Row::new(survey, values))
}

impl Proved {
    /// Whether this is what no point meets: a line for all codes that never holds, or the box of all codes.
    /// No memory.
    pub fn is_absurd(&self) -> bool
        ensures { (shape : List Domain) → IsOver shape self.now → result ≡ is_absurd shape self.now }
    {
        match self {
            Proved::Line(line) => line.is_full() && is_false(line),
            Proved::Box(code_box) => code_box.is_full(),
        }
    }
}
