//! Lists of codes, as they are printed between braces.
ghost use Rattle.std.specs.Prelude.{◌≡◌, ◌==◌, ◌++◌, Bool, List, [], codes, if◌then◌else◌, OnOk};
ghost use Rattle.std.specs.Int.{bit_at};
ghost use Rattle.edit_language.specs.Printing.{braced, codes_of_set};

use edit_model::Name;
use foundation::OutOfMemory;

// Appends all codes of the list, as `{x, y}`, for the declaration of a field.
pub(super) fn write_codes(text: &mut Vec<u8>, list: &[Name]) -> Result<(), OutOfMemory>
    ensures { OnOk result (text.new.items ≡ text.old.items ++ braced list.now) }
{
    text.push(b'{')?;
    for (i, code) in list.iter().enumerate() {
        write_code(text, i == 0, code)?;
    }
    text.push(b'}')?;
    Ok(())
}

// Appends those codes of a field's list that are in the set, as `{x, y}`, for a test. Bit c of the set stands
// for the code of number c.
pub(super) fn write_set(text: &mut Vec<u8>, list: &[Name], set: u64) -> Result<(), OutOfMemory>
    ensures { OnOk result (text.new.items ≡ text.old.items ++ braced (codes_of_set set 0 list.now)) }
{
    text.push(b'{')?;
    let mut first = true;
    for (i, code) in list.iter().enumerate() {
        if has_code(set, i) {
            write_code(text, first, code)?;
            first = false;
        }
    }
    text.push(b'}')?;
    Ok(())
}

// Appends a code, and a comma before it unless it is the first that is printed.
fn write_code(text: &mut Vec<u8>, first: bool, code: &Name) -> Result<(), OutOfMemory>
    ensures { OnOk result (text.new.items ≡ text.old.items ++ (if first then [] else codes ", ") ++ code.now) }
{
    if !first {
        text.extend_from_slice(b", ")?;
    }
    text.extend_from_slice(code.as_bytes())?;
    Ok(())
}

// Whether the set, as bits, has the code of this number. From 64 on it has none.
fn has_code(set: u64, code: usize) -> bool
    ensures { result ≡ (bit_at set code == 1) }
{
    code < 64 && (set >> code) & 1 == 1
}
