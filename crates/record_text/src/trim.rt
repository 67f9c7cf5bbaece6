//! What is taken off a text before it is compared or read. Blanks, which are spaces and tabs, go at both
//! ends of a name or a value. Byte order marks go in front of a file, and of the first text of its header.
ghost use Rattle.std.specs.Prelude.{◌≡◌, if◌then◌else◌};
ghost use Rattle.csv.specs.Reading.{strip_bom};
ghost use Rattle.record_text.specs.Trimming.{is_blank, trimmed, without_end, without_front, without_marks};

/// The byte order mark, U+FEFF in UTF-8.
const BYTE_ORDER_MARK: [u8; 3] = [0xEF, 0xBB, 0xBF];

/// The text without spaces and tabs at both ends. No memory.
pub fn trimmed(text: &[u8]) -> &[u8]
    ensures { result.now ≡ trimmed text.now }
{
    without_end(without_front(text))
}

/// The text without the blanks at its front, which may be all of it.
fn without_front(text: &[u8]) -> &[u8]
    ensures { result.now ≡ without_front text.now }
{
    let mut rest = text;
    while let Some((first, tail)) = rest.split_first() {
        if !is_blank(*first) {
            return rest;
        }
        rest = tail;
    }
    rest
}

/// The text without the blanks at its end, which may be all of it.
fn without_end(text: &[u8]) -> &[u8]
    ensures { result.now ≡ without_end text.now }
{
    let mut rest = text;
    while let Some((last, front)) = rest.split_last() {
        if !is_blank(*last) {
            return rest;
        }
        rest = front;
    }
    rest
}

/// Whether the byte is a space or a tab.
fn is_blank(byte: u8) -> bool
    ensures { result ≡ is_blank byte }
{
    byte == b' ' || byte == b'\t'
}

/// The bytes of a file without one byte order mark in front, where one is there. csv takes off one more
/// when it opens them.
pub(crate) fn without_mark(bytes: &[u8]) -> &[u8]
    ensures { result.now ≡ strip_bom bytes.now }
{
    match bytes.strip_prefix(&BYTE_ORDER_MARK) {
        Some(rest) => rest,
        None => bytes,
    }
}

/// A text of the header, as a column's name. The first text is without the byte order marks in front of it,
/// however many. Those are the marks that stood inside quotes, and the third and later ones of the file.
pub(crate) fn header_text(is_first: bool, text: &[u8]) -> &[u8]
    ensures { result.now ≡ (if is_first then without_marks text.now else text.now) }
{
    if is_first { without_marks(text) } else { text }
}

/// The text without the byte order marks at its front, however many.
fn without_marks(text: &[u8]) -> &[u8]
    ensures { result.now ≡ without_marks text.now }
{
    let mut rest = text;
    while let Some(behind) = rest.strip_prefix(&BYTE_ORDER_MARK) {
        rest = behind;
    }
    rest
}
