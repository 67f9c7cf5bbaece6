//! The marks of the rows of a sheet.
ghost use Rattle.std.specs.Prelude.{◌≡◌, IfOk};
ghost use Rattle.std.specs.List.{AllByRecursion, flat_map};
ghost use Rattle.edit_model.specs.PlainNumbers.{HasPlainNumbers};
ghost use Rattle.edit_model.specs.Rows.{IsRow};
ghost use Rattle.donor_measure.specs.Buckets.{marks_of};
ghost use Rattle.donor_measure.specs.Yardsticks.{yardsticks_of};

use crate::index::push_marks;
use donor_measure::Yardsticks;
use edit_model::Survey;
use foundation::OutOfMemory;
use record_text::Sheet;
use std::alloc::Global;
use std::marker::Model;

/// The marks of all rows of a sheet, one row after the other, by which donors are told that are far away.
/// Each row has one mark for each field. The decks of one sheet share them.
#[derive(Drop)]
pub struct RowMarks {
    marks: Vec<u16>,
}

impl Model for RowMarks {
    ghost use Rattle.std.specs.Prelude.{ℕ, List};

    ghost Value = { List ℕ };

    ghost view = { λ m. m.marks.items };
}

impl RowMarks {
    /// The marks of the rows of a sheet of the survey, at all fields. They are right where the sheet's
    /// numbers are as small as the numerals of record files spell them (`HasPlainNumbers`).
    pub fn of(alloc: Global, survey: &Survey, sheet: &Sheet) -> Result<RowMarks, OutOfMemory>
        requires { AllByRecursion (IsRow survey.now.fields) sheet.now.rows }
        ensures { IfOk result (λ marks. AllByRecursion HasPlainNumbers sheet.now.rows
            → marks ≡ flat_map (marks_of (yardsticks_of survey.now.fields)) sheet.now.rows) }
    {
        let yardsticks = Yardsticks::of(survey);
        let mut marks = Vec::new(alloc);
        for row_no in 0..sheet.len() {
            push_marks(
                &mut marks,
                &yardsticks,
                yardsticks.count(),
                sheet.row(row_no),
            )?;
        }
        Ok(RowMarks { marks })
    }

    // The marks, one row after the other, each with one mark for each field.
    #[inline(always)]
    pub(crate) fn as_slice(&self) -> &[u16]
        ensures { result.now ≡ self.now }
    {
        self.marks.as_slice()
    }
}
