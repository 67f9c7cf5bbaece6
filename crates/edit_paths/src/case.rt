//! That a survey, edits over its fields and a record are a case of the search, for callers whose proofs
//! need it.
ghost use Rattle.std.specs.Prelude.{◌≡◌, ◌≤◌, length};
ghost use Rattle.std.specs.Arc.{arc_value};
ghost use Rattle.edit_model.specs.Rows.{IsRow};
ghost use Rattle.edit_line.specs.Shapes.{shape_of};
ghost use Rattle.edit_paths.specs.Cases.{IsCase, case_of};

use edit_line::Edits;
use edit_model::{Row, Survey};
use std::sync::Arc;

/// The survey, the edits and the record are a case: the fields are in form, and the record and the edits
/// are over them. The survey has at most 64 fields. Nothing is computed. A caller calls it so that its
/// proof has both facts.
pub fn case_known(survey: &Survey, edits: &Arc<Edits>, row: &Row)
    requires row { IsRow survey.now.fields row.now }
    requires shape { (arc_value edits.now).shape ≡ shape_of survey.now.fields }
    ensures case { IsCase (case_of survey.now (arc_value edits.now) row.now) }
    ensures few { length survey.now.fields ≤ 64 }
{
    let _fields = survey.fields(); // read for what they say: the fields and the edits are in form
    let _lines = edits.reduced();
}
