//! The columns in which the fields of a survey stand: those whose header text, without blanks at its ends,
//! is the field's name. Columns are numbered from 0.
//!
//! In contracts, `columns_of` lists the columns in which a name stands. `StandIn` says that each field
//! stands in the given column alone.
ghost use Rattle.std.specs.Prelude.{◌≡◌, ◌≢◌, ◌≤◌, ◌+◌, ◌∷◌, [], IfErr, IfOk, IfSome, ◌<◌, MatchOption, Some, drop, length};
ghost use Rattle.record_text.specs.Columns.{IsOneColumn, StandIn, columns_from, columns_of};
ghost use Rattle.record_text.specs.Faults.{column_fault, field_fault};
ghost use Rattle.record_text.specs.inner.NextColumns.{IsNextColumn};

use crate::fault::SheetFault;
use crate::texts::Texts;
use crate::trim::trimmed;
use edit_model::Field;
use std::alloc::Global;

/// The most columns that a header has.
pub(crate) const MOST_COLUMNS: usize = 256;

/// The column, from 0, of each field, in declared order. `header` has at most 256 texts. The fault is that
/// of the first field that stands in no column (`NoColumn`) or in several (`DoubleColumn`). Memory may also
/// be refused.
pub(crate) fn find_columns(
    alloc: Global,
    fields: &[Field],
    header: &Texts,
) -> Result<Vec<u32>, SheetFault>
    requires few_fields { length fields.now ≤ 64 }
    requires few_columns { length header.now ≤ 256 }
    ensures columns { IfOk result (λ columns. StandIn fields.now header.now columns.items) }
    ensures fault { IfErr result (λ e. e ≢ SheetFault.OutOfMemory → column_fault 0 fields.now header.now ≡ Some e) }
{
    let mut columns = Vec::with_capacity(alloc, fields.len())?;
    for (number, field) in fields.iter().enumerate() {
        let column = find_column(number as u32, field.name.as_bytes(), header)?;
        columns.push(column)?;
    }
    Ok(columns)
}

/// The one column, from 0, in which the field stands. Its number, from 0, is `field`, and its name `name`.
/// `NoColumn` where it stands in none, `DoubleColumn` where it stands in several.
fn find_column(field: u32, name: &[u8], header: &Texts) -> Result<u32, SheetFault>
    requires { length header.now ≤ 256 }
    ensures column { IfOk result (λ column. columns_of name.now header.now ≡ column ∷ []) }
    ensures fault { IfErr result (λ e. field_fault field (columns_of name.now header.now) ≡ Some e) }
{
    let Some(column) = next_column(0, name, header) else {
        return Err(SheetFault::NoColumn { field });
    };
    if next_column(column + 1, name, header).is_some() {
        return Err(SheetFault::DoubleColumn { field });
    }
    Ok(column as u32)
}

/// The one column, from 0, whose text, without blanks at its ends, is `name`. None where there is none, or
/// several. It is as `find_column`, but for names that are no field's, such as a panel's key. In the
/// contract, `IsOneColumn` says so. No memory.
pub(crate) fn one_column(name: &[u8], header: &Texts) -> Option<u32>
    requires { length header.now ≤ 256 }
    ensures { IsOneColumn name.now header.now result }
{
    let Some(column) = next_column(0, name, header) else {
        return None;
    };
    if next_column(column + 1, name, header).is_some() {
        return None;
    }
    Some(column as u32)
}

/// The first column from number `from` on in which the name stands, or None where none from there on has
/// it. In the contract, `IsNextColumn` says so.
fn next_column(from: usize, name: &[u8], header: &Texts) -> Option<usize>
    requires { from ≤ length header.now }
    ensures within { IfSome result (λ column. column < length header.now) }
    ensures columns { IsNextColumn result from name.now header.now }
{
    for column in from..header.len() {
        if trimmed(header.get(column)) == name {
            return Some(column);
        }
    }
    None
}
