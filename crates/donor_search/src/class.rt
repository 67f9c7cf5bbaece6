//! Which rows are donors: the clean ones, or those of them that are in one imputation class. In contracts,
//! `donors_in` is the list of their numbers, in row order.
ghost use Rattle.std.specs.Prelude.{◌≡◌, ◌<◌, ◌++◌, length, All, IfOk, OnOk};
ghost use Rattle.std.specs.List.{AllByRecursion};
ghost use Rattle.std.specs.List.Sorted.{IsStrictlyIncreasing};
ghost use Rattle.edit_model.specs.Rows.{IsRow};
ghost use Rattle.donor_search.specs.Classes.{has_code};
ghost use Rattle.donor_search.specs.CleanRows.{IsCleanRow, row_at};
ghost use Rattle.donor_search.specs.Places.{place_if};
ghost use Rattle.donor_search.specs.inner.Donors.{donors_in, is_donor_in};

use edit_model::{Row, Survey, Value, is_clean};
use foundation::OutOfMemory;
use record_text::Sheet;
use std::alloc::Global;

/// An imputation class: the rows that have the code of the number `code` at the class field `field`.
#[derive(Clone, Copy)]
pub(crate) struct Class {
    pub field: u32,
    pub code: u8,
}

impl Class {
    // Whether the row has the class's code. No row has it where the class field is numerical or past the
    // last.
    fn has(self, row: &Row) -> bool
        ensures { result ≡ has_code self.field self.code row.now }
    {
        match row.values().get(self.field as usize) {
            Some(Value::Code(code)) => *code == self.code,
            _ => false,
        }
    }
}

/// The numbers of the sheet's clean rows, in rising order; where there is a class, of those in it alone.
pub(crate) fn donor_rows(
    alloc: Global,
    survey: &Survey,
    sheet: &Sheet,
    class: Option<Class>,
) -> Result<Vec<u32>, OutOfMemory>
    requires { AllByRecursion (IsRow survey.now.fields) sheet.now.rows }
    ensures donors { IfOk result (λ rows. rows.items ≡ donors_in survey.now sheet.now.rows class) }
    ensures clean { IfOk result (λ rows. All (IsCleanRow survey.now sheet.now.rows) rows.items) }
    ensures rising { IfOk result (λ rows. IsStrictlyIncreasing rows.items) }
{
    let mut rows = Vec::new(alloc);
    for row_no in 0..sheet.len() {
        push_donor(&mut rows, survey, sheet, class, row_no)?;
    }
    Ok(rows)
}

// Appends the row's number where the row is a donor.
fn push_donor(
    rows: &mut Vec<u32>,
    survey: &Survey,
    sheet: &Sheet,
    class: Option<Class>,
    row_no: u32,
) -> Result<(), OutOfMemory>
    requires row { row_no < length sheet.now.rows }
    requires fits { AllByRecursion (IsRow survey.now.fields) sheet.now.rows }
    ensures { OnOk result (rows.new.items
        ≡ rows.old.items ++ place_if (is_donor_in survey.now class (row_at sheet.now.rows row_no)) row_no) }
{
    if is_donor(survey, sheet.row(row_no), class) {
        rows.push(row_no)?;
    }
    Ok(())
}

// Whether the row is clean, and in the class where there is one. The class is asked for first, since that
// costs less.
fn is_donor(survey: &Survey, row: &Row, class: Option<Class>) -> bool
    requires { IsRow survey.now.fields row.now }
    ensures { result ≡ is_donor_in survey.now class row.now }
{
    match class {
        Some(class) => class.has(row) && is_clean(survey, row),
        None => is_clean(survey, row),
    }
}
