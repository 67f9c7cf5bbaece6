//! Where the fields of a survey stand in the rows of a file. In contracts, `IsLayout` says that each field
//! has a column, which may be past the width of the rows. `AreFieldsIn` says that a list has the field of
//! each column.
ghost use Rattle.std.specs.Prelude.{◌≡◌, ◌<◌, IfOk, length, slice_index_or};
ghost use Rattle.edit_report.specs.Layouts.{field_in};
ghost use Rattle.edit_report.specs.inner.Columns.{AreFieldsIn};

use foundation::{OutOfMemory, Sequence};
use record_text::Sheet;
use std::alloc::Global;
use std::marker::Model;

/// Which field stands in which column of a file's rows, both ways: for each field its column, and for each
/// column its field.
#[derive(Drop)]
pub struct Layout {
    columns: Sequence<u32>,
    fields: Vec<Option<usize>>,
}

impl Model for Layout {
    ghost use Rattle.std.specs.Prelude.{length};
    ghost use Rattle.edit_report.specs.Layouts.{LayoutParts};
    ghost use Rattle.edit_report.specs.inner.Columns.{AreFieldsIn};

    ghost Value = { LayoutParts };

    ghost view = { λ l. record { width = length l.fields.items; columns = l.columns } };

    ghost invariant = { λ l. AreFieldsIn l.columns l.fields.items };
}

impl Layout {
    /// The layout of the rows of a sheet that was read.
    pub fn of_sheet(alloc: Global, sheet: &Sheet) -> Result<Layout, OutOfMemory>
        ensures width { IfOk result (λ layout. layout.width ≡ length sheet.now.header) }
        ensures columns { IfOk result (λ layout. layout.columns ≡ sheet.now.columns) }
    {
        let columns = Vec::from_slice(alloc, sheet.columns())?;
        Layout::of_columns(alloc, sheet.header().len(), columns)
    }

    /// The layout of rows of `width` columns, where `columns` has the column of each field. A field whose
    /// column is past the width does not stand in the rows.
    pub fn of_columns(alloc: Global, width: usize, columns: Vec<u32>) -> Result<Layout, OutOfMemory>
        ensures width { IfOk result (λ layout. layout.width ≡ width) }
        ensures columns { IfOk result (λ layout. layout.columns ≡ columns.items) }
    {
        let fields = fields_of(alloc, &columns, width)?;
        Ok(Layout {
            columns: Sequence::from_vec(columns),
            fields,
        })
    }

    /// The number of the field that stands in the column, both from 0; None for a further column. No memory.
    pub(crate) fn field_at(&self, column: usize) -> Option<usize>
        requires { column < self.now.width }
        ensures { result ≡ field_in self.now.columns column }
    {
        self.fields[column]
    }

    /// The column of the field of this number, from 0. It is past the width where the field does not stand
    /// in the rows. No memory.
    pub(crate) fn column(&self, field: u32) -> usize
        requires { field < length self.now.columns }
        ensures { result ≡ slice_index_or self.now.columns field 0 }
    {
        self.columns.as_slice()[field as usize] as usize
    }

    /// How many columns the rows have. No memory.
    pub(crate) fn width(&self) -> usize
        ensures { result ≡ self.now.width }
    {
        self.fields.len()
    }
}

// For each column of rows of this width, the number of the field that stands there, if one does. `columns`
// has the column of each field, in declared order.
fn fields_of(
    alloc: Global,
    columns: &[u32],
    width: usize,
) -> Result<Vec<Option<usize>>, OutOfMemory>
    ensures width { IfOk result (λ fields. length fields.items ≡ width) }
    ensures fields { IfOk result (λ fields. AreFieldsIn columns.now fields.items) }
{
    let mut fields = Vec::with_capacity(alloc, width)?;
    for column in 0..width {
        fields.push(field_at(columns, column))?;
    }
    Ok(fields)
}

// The number of the field whose column this is, where `columns` has the column of each field; None for a
// further column. Numbers and columns are from 0.
fn field_at(columns: &[u32], column: usize) -> Option<usize>
    ensures { result ≡ field_in columns.now column }
{
    columns.iter().position(|c| *c as usize == column)
}
