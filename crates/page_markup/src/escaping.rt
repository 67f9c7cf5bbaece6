//! Texts that stand in a page as they are read, whatever their bytes are. Bytes with a meaning in markup
//! are escaped, and those that can't be shown are replaced. In contracts, `escaped` is what is written
//! for a text, and `escaped_byte` what is written for one of its bytes.
ghost use Rattle.std.specs.Prelude.{◌≡◌, [], ◌∷◌, ◌++◌, OnOk, if◌then◌else◌};
ghost use Rattle.std.specs.Str.{is_utf8};
ghost use Rattle.page_markup.specs.Escapes.{escaped, escaped_byte, is_lost};

use foundation::OutOfMemory;

/// U+FFFD, the character that stands for what can't be shown.
const REPLACEMENT: &[u8] = &[0xEF, 0xBF, 0xBD];

/// Appends a text as it is written in a page. The bytes `&`, `<`, `>`, `"` and `'` are written as
/// entities, such as `&amp;`. U+FFFD stands for each byte past ASCII of a text that is not UTF-8, and for
/// each control character but tab and line feed. Refused memory may leave a part of it appended.
#[tactic(auto, unfolding(crate::specs::Escapes::escaped))]
pub(crate) fn push_escaped(text: &mut Vec<u8>, words: &[u8]) -> Result<(), OutOfMemory>
    ensures { OnOk result (text.new.items ≡ text.old.items ++ escaped words.now) }
{
    let readable = is_utf8(words);
    for byte in words {
        push_byte(text, readable, *byte)?;
    }
    Ok(())
}

// Appends a byte of a text as it is written in a page. It is an entity where the byte has a meaning in
// markup; else it is as `push_plain` has it. `readable` says whether the whole text is UTF-8.
fn push_byte(text: &mut Vec<u8>, readable: bool, byte: u8) -> Result<(), OutOfMemory>
    ensures { OnOk result (text.new.items ≡ text.old.items ++ escaped_byte readable byte) }
{
    match byte {
        b'&' => text.extend_from_slice(b"&amp;")?,
        b'<' => text.extend_from_slice(b"&lt;")?,
        b'>' => text.extend_from_slice(b"&gt;")?,
        b'"' => text.extend_from_slice(b"&quot;")?,
        b'\'' => text.extend_from_slice(b"&#39;")?,
        _ => push_plain(text, readable, byte)?,
    }
    Ok(())
}

// Appends a byte that means nothing in markup, or U+FFFD where it can't be shown. `readable` says whether
// the text is UTF-8.
fn push_plain(text: &mut Vec<u8>, readable: bool, byte: u8) -> Result<(), OutOfMemory>
    ensures { OnOk result (text.new.items ≡ text.old.items ++ (if is_lost readable byte then 239 ∷ 191 ∷ 189 ∷ [] else byte ∷ [])) }
{
    if is_lost(readable, byte) {
        text.extend_from_slice(REPLACEMENT)?;
    } else {
        text.push(byte)?;
    }
    Ok(())
}

// Whether a byte can't be shown, and is replaced. That is a control character but tab and line feed, and
// a byte past ASCII of a text that is not UTF-8. `readable` says whether it is. No memory.
fn is_lost(readable: bool, byte: u8) -> bool
    ensures { result ≡ is_lost readable byte }
{
    match byte {
        b'\t' | b'\n' => false,
        0..32 | 127 => true,
        32..127 => false,
        128..=255 => !readable,
    }
}

// Whether a text is UTF-8. No memory.
fn is_utf8(words: &[u8]) -> bool
    ensures { result ≡ is_utf8 words.now }
{
    match str::from_utf8(words) {
        Ok(_) => true,
        Err(_) => false,
    }
}
