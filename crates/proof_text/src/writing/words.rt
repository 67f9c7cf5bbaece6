//! Words, appended each behind a space. What is numbered from 0 in memory is named from 1 on in the text.
//!
//! Where `begins` is promised, the text begins as before also where memory is refused, so that a caller
//! can cut it off there. In contracts, byte 32 is the space and 10 the line feed. `IsLong`, `IsShort` and
//! `IsWide` say that a number fits 64, 32 or 128 bits.
ghost use Rattle.std.specs.Prelude.{◌≡◌, ◌∷◌, ◌++◌, [], IfSome, OnOk};
ghost use Rattle.std.specs.Fmt.{decimal, signed_decimal};
ghost use Rattle.std.specs.Io.{StartsWith};
ghost use Rattle.std.specs.List.{AllByRecursion, flat_map};
ghost use Rattle.bound_cert.specs.Paths.{named, path_text};
ghost use Rattle.proof_grammar.specs.Limits.{IsLong, IsPlace, IsShort};
ghost use Rattle.proof_grammar.specs.ProofLines.{named_or_0, place_word};
ghost use Rattle.proof_grammar.specs.Sizes.{IsWide};

use bound_cert::Path;
use edit_line::Place;
use foundation::OutOfMemory;
use itoa::Buffer;

// Appends a space and the word.
fn write_word(text: &mut Vec<u8>, word: &[u8]) -> Result<(), OutOfMemory>
    ensures text { OnOk result (text.new.items ≡ text.old.items ++ 32 ∷ word.now) }
    ensures begins { StartsWith text.new.items text.old.items }
{
    text.push(b' ')?;
    text.extend_from_slice(word)?;
    Ok(())
}

/// Appends a space and a number in decimal.
pub(super) fn write_number(text: &mut Vec<u8>, number: u64) -> Result<(), OutOfMemory>
    ensures text { OnOk result (text.new.items ≡ text.old.items ++ 32 ∷ decimal number) }
    ensures sized { OnOk result (IsLong number) }
{
    let mut buffer = Buffer::new();
    write_word(text, buffer.format(number).as_bytes())
}

/// Appends a space and a number in decimal, with a minus where it is below 0.
pub(super) fn write_signed(text: &mut Vec<u8>, number: i128) -> Result<(), OutOfMemory>
    ensures text { OnOk result (text.new.items ≡ text.old.items ++ 32 ∷ signed_decimal number) }
    ensures sized { OnOk result (IsWide number) }
    ensures begins { StartsWith text.new.items text.old.items }
{
    let mut buffer = Buffer::new();
    write_word(text, buffer.format(number).as_bytes())
}

/// Appends a space, the count, and the line feed that ends the line.
pub(super) fn write_count(text: &mut Vec<u8>, count: usize) -> Result<(), OutOfMemory>
    ensures text { OnOk result (text.new.items ≡ text.old.items ++ (32 ∷ decimal count) ++ 10 ∷ []) }
    ensures sized { OnOk result (IsLong count) }
{
    write_number(text, count as u64)?;
    text.push(b'\n')?;
    Ok(())
}

/// Appends a space and the name of what has this `number`, from 0. The name is one more than the number,
/// in 128 bits, since 2^64 is a name.
pub(super) fn write_named(text: &mut Vec<u8>, number: u64) -> Result<(), OutOfMemory>
    ensures text { OnOk result (text.new.items ≡ text.old.items ++ 32 ∷ named number) }
    ensures sized { OnOk result (IsLong number) }
    ensures begins { StartsWith text.new.items text.old.items }
{
    let mut buffer = Buffer::new();
    write_word(text, buffer.format(number as u128 + 1).as_bytes())
}

/// Appends a space and the name of what has this `number`, from 0, or the word 0 where there is none.
pub(super) fn write_named_or_0(text: &mut Vec<u8>, number: Option<u32>) -> Result<(), OutOfMemory>
    ensures text { OnOk result (text.new.items ≡ text.old.items ++ 32 ∷ named_or_0 number) }
    ensures sized { OnOk result (IfSome number IsShort) }
{
    match number {
        None => write_word(text, b"0"),
        Some(number) => write_named(text, number as u64),
    }
}

/// Appends the names of what has these numbers, each behind a space.
pub(super) fn write_all_named(text: &mut Vec<u8>, numbers: &[u64]) -> Result<(), OutOfMemory>
    ensures text { OnOk result (text.new.items ≡ text.old.items ++ flat_map (λ n. 32 ∷ named n) numbers.now) }
    ensures sized { OnOk result (AllByRecursion IsLong numbers.now) }
    ensures begins { StartsWith text.new.items text.old.items }
{
    for number in numbers {
        write_named(text, *number)?;
    }
    Ok(())
}

/// Appends a space and the name of the field at which a number of a line stands, or 0 for its constant.
pub(super) fn write_place(text: &mut Vec<u8>, place: Place) -> Result<(), OutOfMemory>
    ensures text { OnOk result (text.new.items ≡ text.old.items ++ 32 ∷ place_word place) }
    ensures sized { OnOk result (IsPlace place) }
{
    match place {
        Place::Constant => write_word(text, b"0"),
        Place::Field(field) => write_named(text, field as u64),
    }
}

/// Appends a space and the letters of a path: K for a kept field, C for a changed one. It is `-` for the
/// path of no fields.
pub(super) fn write_path(text: &mut Vec<u8>, path: &Path) -> Result<(), OutOfMemory>
    ensures { OnOk result (text.new.items ≡ text.old.items ++ 32 ∷ path_text path.now) }
{
    text.push(b' ')?;
    path.write(text)
}
