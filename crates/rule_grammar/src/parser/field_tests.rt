//! Tests, read off the tokens. One that begins with a name may be of codes or of sums, so the name is taken
//! first, and the next token tells.
//!
//! In contracts `test_at` and its like are what the grammar reads at the front of the tokens. `Parses`
//! says that the call answers just that and leaves the tokens behind it, or answers `Unreadable` where
//! that is nothing.
ghost use Rattle.rule_grammar.specs.inner.Parsing.{Parses, codes_after, compared_at, sums_after, test_after, test_at};

use crate::cursor::Cursor;
use crate::parser::fault::Fault;
use crate::parser::lists::read_in_list;
use crate::parser::marks::{has_name, has_word, take_compare, take_name, take_word};
use crate::parser::sums::{read_rest_of_sum, read_sum};
use crate::statement::{SumText, TermText, TestText};
use crate::token::Keyword;
use edit_model::Name;
use std::alloc::Global;

/// Reads the comparison and the right sum of a test whose `left` sum is taken already. `Unreadable` where
/// one of them is not there.
fn read_comparison(alloc: Global, cursor: &mut Cursor, left: SumText) -> Result<TestText, Fault>
    ensures { Parses (compared_at left cursor.old) cursor.new result }
{
    let compare = take_compare(cursor).ok_or(Fault::Unreadable)?;
    let right = read_sum(alloc, cursor)?;
    Ok(TestText::Sums {
        left,
        compare,
        right,
    })
}

/// Reads the rest of a test of two sums that begins with this field's name, which is taken already. The
/// name is the first term of the left sum.
fn read_sums_test(alloc: Global, cursor: &mut Cursor, field: Name) -> Result<TestText, Fault>
    ensures { Parses (sums_after field cursor.old) cursor.new result }
{
    let left = read_rest_of_sum(alloc, cursor, None, TermText::Field(field))?;
    read_comparison(alloc, cursor, left)
}

/// Reads `in` and the list of a test of codes. The name of its field is taken already, and so is the `not`
/// before `in` where `negated` says that one stands there.
fn read_codes_test(
    alloc: Global,
    cursor: &mut Cursor,
    field: Name,
    negated: bool,
) -> Result<TestText, Fault>
    ensures { Parses (codes_after field negated cursor.old) cursor.new result }
{
    let list = read_in_list(alloc, cursor)?;
    Ok(TestText::Codes {
        field,
        negated,
        list,
    })
}

/// Reads the rest of a test that begins with this field's name, which is taken already. It is a test of
/// codes where `not` or `in` comes next, and else of sums.
fn read_rest_of_test(alloc: Global, cursor: &mut Cursor, field: Name) -> Result<TestText, Fault>
    ensures { Parses (test_after field cursor.old) cursor.new result }
{
    if take_word(cursor, Keyword::Not) {
        return read_codes_test(alloc, cursor, field, true);
    }
    if has_word(cursor, Keyword::In) {
        return read_codes_test(alloc, cursor, field, false);
    }
    read_sums_test(alloc, cursor, field)
}

/// Reads a test, of codes or of two sums. `Unreadable` where the tokens begin with neither.
pub(crate) fn read_test(alloc: Global, cursor: &mut Cursor) -> Result<TestText, Fault>
    ensures { Parses (test_at cursor.old) cursor.new result }
{
    if has_name(cursor) {
        let field = take_name(cursor).ok_or(Fault::Unreadable)?;
        return read_rest_of_test(alloc, cursor, field);
    }
    let left = read_sum(alloc, cursor)?;
    read_comparison(alloc, cursor, left)
}
