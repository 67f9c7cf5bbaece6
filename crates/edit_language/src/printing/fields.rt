//! Declarations of fields, as they are printed.
ghost use Rattle.std.specs.Prelude.{◌≡◌, ◌++◌, OnOk};
ghost use Rattle.edit_language.specs.Printing.{field_line, kind_text, kind_word};

use super::codes::write_codes;
use super::sums::write_number;
use edit_model::{Field, Kind};
use foundation::OutOfMemory;

// Appends the field's declaration, as `number A weight 1 scale 1`, without a line feed. Its weight is
// always written, also 1, and so is the scale of a numerical field.
pub(super) fn write_field(text: &mut Vec<u8>, field: &Field) -> Result<(), OutOfMemory>
    ensures { OnOk result (text.new.items ≡ text.old.items ++ field_line field.now) }
{
    text.extend_from_slice(kind_word(&field.kind))?;
    text.extend_from_slice(field.name.as_bytes())?;
    text.extend_from_slice(b" weight ")?;
    write_number(text, u128::from(field.weight))?;
    write_kind(text, &field.kind)
}

// The word that begins the declaration of a field of this kind, with the blank behind it.
fn kind_word(kind: &Kind) -> &'static [u8]
    ensures { result.now ≡ kind_word kind.now }
{
    match kind {
        Kind::Number { .. } => b"number ",
        Kind::Code { .. } => b"code ",
    }
}

// Appends what stands behind a field's weight: ` scale 1` or the like of a numerical field, and ` in {x, y}`
// or the like of a categorical one.
fn write_kind(text: &mut Vec<u8>, kind: &Kind) -> Result<(), OutOfMemory>
    ensures { OnOk result (text.new.items ≡ text.old.items ++ kind_text kind.now) }
{
    match kind {
        Kind::Number { scale } => {
            text.extend_from_slice(b" scale ")?;
            write_number(text, u128::from(*scale))
        }
        Kind::Code { codes } => {
            text.extend_from_slice(b" in ")?;
            write_codes(text, codes.as_slice())
        }
    }
}
