//! The texts of a line, one by one: each is known by its one spelling, or not at all.
ghost use Rattle.std.specs.Prelude.{◌≡◌, ◌≢◌, ◌<◌, ◌^◌, ℕ, IfNone, IfSome};
ghost use Rattle.std.specs.Fmt.{decimal};
ghost use Rattle.std.specs.Str.{bytes_eq};
ghost use Rattle.reason_lines.specs.ReasonLines.{cause_named, donor_named, how_named, record_named};

use crate::entry::{Cause, How};
use itoa::Buffer;

/// The record, from 0, whose number from 1 the text is, of the first `rows` records. None where the text
/// is no number as it is printed, or that of no such record.
pub(crate) fn record_named(rows: u32, text: &[u8]) -> Option<u32>
    ensures { result ≡ record_named rows text.now }
{
    let number = number_of(text)?;
    if number == 0 {
        return None;
    }
    if number > rows {
        return None;
    }
    Some(number - 1)
}

// The number of 32 bits that is printed as this text, and None where none is. The number that is read is
// printed again and compared, since `parse` also takes a plus sign and zeros in front.
fn number_of(text: &[u8]) -> Option<u32>
    ensures some { IfSome result (λ n. text.now ≡ decimal n) }
    ensures none { IfNone result ((n : ℕ) → n < 2 ^ 32 → text.now ≢ decimal n) }
{
    let Ok(text) = str::from_utf8(text) else {
        return None;
    };
    let Ok(number) = text.parse::<u32>() else {
        return None;
    };
    let mut buffer = Buffer::new();
    if buffer.format(number) == text {
        Some(number)
    } else {
        None
    }
}

/// How a value was found, by the detail's word. None for any other text.
pub(crate) fn how_named(text: &[u8]) -> Option<How>
    ensures { result ≡ how_named text.now }
{
    if is_word(text, b"donor") {
        Some(How::Donor)
    } else if is_word(text, b"nearest") {
        Some(How::Nearest)
    } else if is_word(text, b"default") {
        Some(How::Default)
    } else {
        None
    }
}

/// Why a record was left out, by the cause's word. None for any other text.
pub(crate) fn cause_named(text: &[u8]) -> Option<Cause>
    ensures { result ≡ cause_named text.now }
{
    if is_word(text, b"budget") {
        Some(Cause::Budget)
    } else if is_word(text, b"overflow") {
        Some(Cause::Overflow)
    } else if is_word(text, b"contradictory") {
        Some(Cause::Contradictory)
    } else if is_word(text, b"nolast") {
        Some(Cause::NoLast)
    } else if is_word(text, b"nocorrection") {
        Some(Cause::NoCorrection)
    } else {
        None
    }
}

// Whether the text is this word.
fn is_word(text: &[u8], word: &[u8]) -> bool
    ensures { result ≡ bytes_eq text.now word.now }
{
    text == word
}

/// The donor of the record `record_no`, as a text of the donor's column says it. `Some(None)` is no
/// donor, where the text is empty. None is a faulty text: it names no record of the first `rows`, or the
/// record itself.
pub(crate) fn donor_named(rows: u32, record_no: u32, text: &[u8]) -> Option<Option<u32>>
    ensures { result ≡ donor_named rows record_no text.now }
{
    if text.is_empty() {
        return Some(None);
    }
    let donor = record_named(rows, text)?;
    if donor == record_no {
        return None;
    }
    Some(Some(donor))
}
