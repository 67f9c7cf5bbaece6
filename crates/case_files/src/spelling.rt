//! Bytes as a file of cases spells them, line by line. A line of printable ASCII stands as it is, unless
//! it ends in ` (esc)` or ` (no-eol)`. In any other each byte that is not printable is `\xNN` and a
//! backslash is doubled, and ` (esc)` stands behind it. A last line without a line feed has ` (no-eol)`
//! behind all that.

ghost use Rattle.std.specs.Prelude.{◌≡◌, ◌<◌, ◌++◌, IfOk, OnOk};
ghost use Rattle.std.specs.List.{list_all};
ghost use Rattle.case_files.specs.Spelling.{byte_spelling, is_plain, is_printable, line_spelling};

use crate::fault::{Kind, PartFault};
use foundation::OutOfMemory;
use std::alloc::Global;

// What stands behind a line that is escaped.
const ESCAPED: &[u8] = b" (esc)";

// What stands behind a last line that has no line feed.
const UNENDED: &[u8] = b" (no-eol)";

// The digits of base 16.
const DIGITS: &[u8; 16] = b"0123456789abcdef";

/// The lines of these bytes, each as a file of cases spells it, to be compared with what was to come. Where
/// there are no bytes, there is no line.
pub fn spelled_lines(alloc: Global, bytes: &[u8]) -> Result<Vec<Vec<u8>>, OutOfMemory> {
    let mut lines = Vec::new(alloc);
    for line in bytes.split_inclusive(|byte| *byte == b'\n') {
        let spelled = match line.strip_suffix(b"\n") {
            Some(text) => spelled_line(alloc, text, true)?,
            None => spelled_line(alloc, line, false)?,
        };
        lines.push(spelled)?;
    }
    Ok(lines)
}

// The spelling of one line, given without its line feed; `ended` says whether one stands behind it.
fn spelled_line(alloc: Global, line: &[u8], ended: bool) -> Result<Vec<u8>, OutOfMemory>
    ensures { IfOk result (λ text. text.items ≡ line_spelling line.now ended) }
{
    let mut text = Vec::new(alloc);
    if is_plain(line) {
        text.extend_from_slice(line)?;
    } else {
        for byte in line {
            spell_byte(&mut text, *byte)?;
        }
        text.extend_from_slice(ESCAPED)?;
    }
    if !ended {
        text.extend_from_slice(UNENDED)?;
    }
    Ok(text)
}

// Whether a line stands as it is. All of it has to be printable. It must not end in ` (esc)` or
// ` (no-eol)`, which would be read as a part of the spelling.
fn is_plain(line: &[u8]) -> bool
    ensures { result ≡ is_plain line.now }
{
    if line.ends_with(ESCAPED) || line.ends_with(UNENDED) {
        return false;
    }
    are_printable(line)
}

// Whether all bytes of a line are printable, as `is_printable` says.
fn are_printable(line: &[u8]) -> bool
    ensures { result ≡ list_all is_printable line.now }
{
    line.iter().all(|byte| is_printable(*byte))
}

// Whether the byte is printable: a letter, digit or sign of ASCII, or a space.
fn is_printable(byte: u8) -> bool
    ensures { result ≡ is_printable byte }
{
    byte == b' ' || byte.is_ascii_graphic()
}

// Appends a byte of a line that is escaped: a doubled backslash, the byte itself, or `\xNN`.
fn spell_byte(text: &mut Vec<u8>, byte: u8) -> Result<(), OutOfMemory>
    ensures { OnOk result (text.new.items ≡ text.old.items ++ byte_spelling byte) }
{
    if byte == b'\\' {
        text.extend_from_slice(b"\\\\")?;
    } else if is_printable(byte) {
        text.push(byte)?;
    } else {
        text.extend_from_slice(b"\\x")?;
        text.push(DIGITS[byte as usize / 16])?;
        text.push(DIGITS[byte as usize % 16])?;
    }
    Ok(())
}

/// Reads a line as a file of cases spells it, `line`, and appends its bytes to `bytes`, with its line
/// feed where it has one. The answer says whether it has. `Kind::Spelling` where the spelling has a byte
/// that is not printable, or an escape that is not in form.
pub fn read_line(bytes: &mut Vec<u8>, line: &[u8]) -> Result<bool, PartFault> {
    let (line, ended) = match line.strip_suffix(UNENDED) {
        Some(line) => (line, false),
        None => (line, true),
    };
    match line.strip_suffix(ESCAPED) {
        Some(line) => read_escaped(bytes, line)?,
        None if are_printable(line) => bytes.extend_from_slice(line)?,
        None => return Err(PartFault::from(Kind::Spelling)),
    }
    if ended {
        bytes.push(b'\n')?;
    }
    Ok(ended)
}

/// Appends the bytes of an escaped text: `\n` in it is a line feed, `\\` a backslash, and `\xNN` any
/// byte. `Kind::Spelling` where anything else stands behind a backslash, or a byte is not printable.
/// Each turn of the loop takes at least one byte, so that all are read.
pub fn read_escaped(bytes: &mut Vec<u8>, text: &[u8]) -> Result<(), PartFault> {
    let mut rest = text;
    for _ in 0..text.len() {
        let behind = match rest {
            [] => return Ok(()),
            [b'\\', b'\\', behind @ ..] => {
                bytes.push(b'\\')?;
                behind
            }
            [b'\\', b'n', behind @ ..] => {
                bytes.push(b'\n')?;
                behind
            }
            [b'\\', b'x', high, low, behind @ ..] => {
                bytes.push(byte_of(*high, *low)?)?;
                behind
            }
            [byte, behind @ ..] if is_printable(*byte) && *byte != b'\\' => {
                bytes.push(*byte)?;
                behind
            }
            _ => return Err(PartFault::from(Kind::Spelling)),
        };
        rest = behind;
    }
    Ok(())
}

// The byte of two digits of base 16, of which `high` is the first. `Kind::Spelling` where one is no such
// digit.
fn byte_of(high: u8, low: u8) -> Result<u8, Kind> {
    Ok(digit_of(high)? * 16 + digit_of(low)?)
}

// The number of a digit of base 16. Letters are small: capitals are no digits here. `Kind::Spelling` for
// any other byte.
fn digit_of(digit: u8) -> Result<u8, Kind>
    ensures { IfOk result (λ number. number < 16) }
{
    match digit {
        b'0'..=b'9' => Ok(digit - b'0'),
        b'a'..=b'f' => Ok(digit - b'a' + 10),
        _ => Err(Kind::Spelling),
    }
}
