//! What is written of an element: its start, its attributes and its end. Each call appends to `text`;
//! where memory is refused, a part of it may be appended. In contracts, `given` has the attributes of a
//! call, each with the bytes of its value (`value_words`). `start_text`, `end_text`, `void_text` and
//! `attribute_text` are what is written.
ghost use Rattle.std.specs.Prelude.{◌≡◌, ◌++◌, OnOk};
ghost use Rattle.std.specs.List.{flat_map};
ghost use Rattle.page_markup.specs.Escapes.{escaped};
ghost use Rattle.page_markup.specs.OpenPages.{given, value_words};
ghost use Rattle.page_markup.specs.Trees.{attribute_text, end_text, start_text, void_text};

use crate::attribute::{Attribute, Value};
use crate::escaping::push_escaped;
use crate::tag::{Tag, VoidTag};
use foundation::OutOfMemory;
use itoa::Buffer;

/// Appends the start of an element that may hold others, with its attributes, such as
/// `<p class="note">`.
pub(crate) fn push_start(
    text: &mut Vec<u8>,
    tag: Tag,
    attributes: &[(Attribute, Value)],
) -> Result<(), OutOfMemory>
    ensures { OnOk result (text.new.items ≡ text.old.items ++ start_text tag (given attributes.now)) }
{
    text.push(b'<')?;
    text.extend_from_slice(tag.name())?;
    push_attributes(text, attributes)?;
    text.push(b'>')?;
    Ok(())
}

/// Appends the end of an element that may hold others, such as `</p>`.
pub(crate) fn push_end(text: &mut Vec<u8>, tag: Tag) -> Result<(), OutOfMemory>
    ensures { OnOk result (text.new.items ≡ text.old.items ++ end_text tag) }
{
    text.extend_from_slice(b"</")?;
    text.extend_from_slice(tag.name())?;
    text.push(b'>')?;
    Ok(())
}

/// Appends a whole element of a kind that never holds anything, with its attributes, such as
/// `<line x1="0" />`.
pub(crate) fn push_void(
    text: &mut Vec<u8>,
    tag: VoidTag,
    attributes: &[(Attribute, Value)],
) -> Result<(), OutOfMemory>
    ensures { OnOk result (text.new.items ≡ text.old.items ++ void_text tag (given attributes.now)) }
{
    text.push(b'<')?;
    text.extend_from_slice(tag.name())?;
    push_attributes(text, attributes)?;
    text.extend_from_slice(b" />")?;
    Ok(())
}

/// Appends an attribute with its value in quotation marks, behind a space, such as ` class="note"`. No byte
/// of the value ends the quotation, since the value is escaped.
pub(crate) fn push_attribute(
    text: &mut Vec<u8>,
    name: Attribute,
    value: Value,
) -> Result<(), OutOfMemory>
    ensures { OnOk result (text.new.items ≡ text.old.items ++ attribute_text (name, value_words value.entry)) }
{
    text.push(b' ')?;
    text.extend_from_slice(name.name())?;
    text.extend_from_slice(b"=\"")?;
    push_value(text, value)?;
    text.push(b'"')?;
    Ok(())
}

// Appends the attributes of an element, in the order in which they are given.
fn push_attributes(text: &mut Vec<u8>, attributes: &[(Attribute, Value)]) -> Result<(), OutOfMemory>
    ensures { OnOk result (text.new.items ≡ text.old.items ++ flat_map attribute_text (given attributes.now)) }
{
    for attribute in attributes {
        push_attribute(text, attribute.0, attribute.1)?;
    }
    Ok(())
}

// Appends the value of an attribute as it stands between its quotation marks: words escaped, and a number
// in decimal digits.
fn push_value(text: &mut Vec<u8>, value: Value) -> Result<(), OutOfMemory>
    ensures { OnOk result (text.new.items ≡ text.old.items ++ escaped (value_words value.entry)) }
{
    match value {
        Value::Words(words) => push_escaped(text, words),
        Value::Number(number) => push_escaped(text, Buffer::new().format(number).as_bytes()),
    }
}
