//! The header of a reasons file, and the comparison of texts by which it and the lines behind it are known.
ghost use Rattle.std.specs.Prelude.{◌↔◌, ◌≡◌, ◌<◌, IsTrue, length};
ghost use Rattle.std.specs.Str.{bytes_eq};
ghost use Rattle.reason_lines.specs.ReasonFiles.{reasons_header};
ghost use Rattle.reason_lines.specs.ReasonLines.{text_in};

use record_text::Texts;

/// Whether these are the texts of a reasons file's header: the names of its 7 columns, and no more.
pub(crate) fn is_header(texts: &Texts) -> bool
    ensures { IsTrue result ↔ (texts.now ≡ reasons_header) }
{
    texts.len() == 7
        && has_text(texts, 0, b"record")
        && has_text(texts, 1, b"cause")
        && has_text(texts, 2, b"field")
        && has_text(texts, 3, b"before")
        && has_text(texts, 4, b"after")
        && has_text(texts, 5, b"donor")
        && has_text(texts, 6, b"detail")
}

/// Whether the text in a column, from 0, is `text`.
pub(crate) fn has_text(texts: &Texts, column: usize, text: &[u8]) -> bool
    requires { column < length texts.now }
    ensures { result ≡ bytes_eq (text_in texts.now column) text.now }
{
    texts.get(column) == text
}
