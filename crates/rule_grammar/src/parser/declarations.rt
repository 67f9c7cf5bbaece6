//! Declarations of fields, read off the tokens, as `number A weight 2 scale 100` and `code B in {x, y}`.
//!
//! In contracts `number_at` and its like are what the grammar reads at the front of the tokens. `Parses`
//! says that the call answers just that and leaves the tokens behind it, or answers `Unreadable` where
//! that is nothing. `Reads` says the same of a call without memory, which answers None instead.
ghost use Rattle.rule_grammar.specs.inner.Parsing.{Parses, Reads, code_field_at, number_at, option_at};

use crate::cursor::Cursor;
use crate::parser::fault::Fault;
use crate::parser::lists::read_in_list;
use crate::parser::marks::{take_name, take_numeral, take_word};
use crate::statement::Declaration;
use crate::token::{Keyword, Numeral};
use std::alloc::Global;

/// Reads a part that may be left out: the keyword `word`, and the numeral behind it. `Some(None)` where
/// another token comes next: the part is left out. None where the keyword comes next without a numeral
/// behind it.
fn read_optional_numeral(cursor: &mut Cursor, word: Keyword) -> Option<Option<Numeral>>
    ensures { Reads (option_at word cursor.old) cursor.new result }
{
    if take_word(cursor, word) {
        let number = take_numeral(cursor)?;
        return Some(Some(number));
    }
    Some(None)
}

/// Reads the declaration of a numerical field, from behind the word `number`: its name, and its weight and
/// its scale, where they are written. None where the tokens don't begin with one.
pub(crate) fn read_number_field(cursor: &mut Cursor) -> Option<Declaration>
    ensures { Reads (number_at cursor.old) cursor.new result }
{
    let name = take_name(cursor)?;
    let weight = read_optional_numeral(cursor, Keyword::Weight)?;
    let scale = read_optional_numeral(cursor, Keyword::Scale)?;
    Some(Declaration::Number {
        name,
        weight,
        scale,
    })
}

/// Reads the declaration of a categorical field, from behind the word `code`: its name, its weight, if one
/// is written, and its list of codes. `Unreadable` where the tokens don't begin with one.
pub(crate) fn read_code_field(alloc: Global, cursor: &mut Cursor) -> Result<Declaration, Fault>
    ensures { Parses (code_field_at cursor.old) cursor.new result }
{
    let name = take_name(cursor).ok_or(Fault::Unreadable)?;
    let weight = read_optional_numeral(cursor, Keyword::Weight).ok_or(Fault::Unreadable)?;
    let list = read_in_list(alloc, cursor)?;
    Ok(Declaration::Code { name, weight, list })
}
