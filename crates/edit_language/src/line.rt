//! The lines of a rule text, and what of a line is read: all but its comment and a carriage return at its
//! end.
//!
//! In contracts, byte 10 is a line feed and byte 35 is `#`.
ghost use Rattle.std.specs.Prelude.{◌≡◌, ◌==◌, ◌<◌, IfNone, IfSome, length, position};
ghost use Rattle.std.specs.List.{after_first, before_first, list_any, position_or_len};
ghost use Rattle.edit_language.specs.Lines.{is_bad_byte, read_part, without_mark, without_return};

/// The text without the UTF-8 byte order mark at its front, where one is there. Only one is taken off.
pub(crate) fn without_mark(bytes: &[u8]) -> &[u8]
    ensures { result.now ≡ without_mark bytes.now }
{
    if bytes.starts_with(b"\xEF\xBB\xBF") {
        &bytes[3..]
    } else {
        bytes
    }
}

// The first place of the byte, from 0, or None where the text doesn't have it.
fn place_of(text: &[u8], byte: u8) -> Option<usize>
    ensures { result ≡ position (λ b. b == byte) text.now }
{
    text.iter().position(|b| *b == byte)
}

/// The line before the first line feed, and the text after it. None where the text has no line feed, so
/// that all of it is the last line.
pub(crate) fn first_line(text: &[u8]) -> Option<(&[u8], &[u8])>
    ensures line { IfSome result (λ parts. parts.0.now ≡ before_first (λ b. b == 10) text.now) }
    ensures rest { IfSome result (λ parts. parts.1.now ≡ after_first (λ b. b == 10) text.now) }
    ensures ended { IfSome result (λ parts. position_or_len (λ b. b == 10) text.now < length text.now) }
    ensures none { IfNone result (position_or_len (λ b. b == 10) text.now ≡ length text.now) }
{
    match place_of(text, b'\n') {
        Some(place) => Some((&text[..place], &text[place + 1..])),
        None => None,
    }
}

// The line without a carriage return at its end, where one is there. Only one is taken off.
fn without_return(line: &[u8]) -> &[u8]
    ensures { result.now ≡ without_return line.now }
{
    match line.strip_suffix(b"\r") {
        Some(front) => front,
        None => line,
    }
}

// What stands before the comment, which begins at the first `#`; all where there is none.
fn before_comment(line: &[u8]) -> &[u8]
    ensures { result.now ≡ before_first (λ b. b == 35) line.now }
{
    match place_of(line, b'#') {
        Some(place) => &line[..place],
        None => line,
    }
}

/// What of a line is read as a statement: the line without the carriage return at its end, and without its
/// comment.
pub(crate) fn part_to_read(line: &[u8]) -> &[u8]
    ensures { result.now ≡ read_part line.now }
{
    before_comment(without_return(line))
}

// Whether the byte is neither printable ASCII, from 32 to 126, nor a tab.
fn is_bad_byte(byte: u8) -> bool
    ensures { result ≡ is_bad_byte byte }
{
    !((32 <= byte && byte <= 126) || byte == b'\t')
}

/// Whether some byte of the text is neither a printable ASCII byte nor a tab. Such a byte is a fault outside
/// of comments, so the text is one from which the comment was cut off.
pub(crate) fn has_bad_byte(text: &[u8]) -> bool
    ensures { result ≡ list_any is_bad_byte text.now }
{
    text.iter().any(|b| is_bad_byte(*b))
}
