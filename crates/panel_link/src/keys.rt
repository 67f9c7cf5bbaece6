//! The column of the key, by which the rows of two files are joined.
ghost use Rattle.record_text.specs.Columns.{IsOneColumn};

use record_text::Sheet;

/// The column of the key, from 0: the one whose header text, without blanks at its ends, is `key`. By its texts
/// a record finds its row of the last period. None where no column has that name, or several have. No memory.
pub fn key_column(sheet: &Sheet, key: &[u8]) -> Option<u32>
    ensures { IsOneColumn key.now sheet.now.header result }
{
    sheet.column_named(key)
}
