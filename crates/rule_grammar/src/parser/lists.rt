//! Lists of codes, as `in {x, y}`, read off the tokens.
//!
//! In contracts `list_at` and its like are what the grammar reads at the front of the tokens. `Parses`
//! says that the call answers just that and leaves the tokens behind it, or answers `Unreadable` where
//! that is nothing. `Reads` says the same of a call without memory, which answers None instead.
ghost use Rattle.rule_grammar.specs.inner.Parsing.{Parses, Reads, codes_at, comma_code_at, in_list_at, is_comma, list_at, many_at};

use crate::cursor::Cursor;
use crate::parser::fault::Fault;
use crate::parser::marks::{has_comma, take_code, take_word};
use crate::statement::CodeList;
use crate::token::{Keyword, Token};
use edit_model::Name;
use foundation::Sequence;
use std::alloc::Global;

/// Reads a comma and the code behind it. None where another token comes next, or no code is behind the
/// comma.
fn read_comma_code(cursor: &mut Cursor) -> Option<Name>
    ensures { Reads (comma_code_at cursor.old) cursor.new result }
{
    match cursor.take() {
        Some(Token::Comma) => take_code(cursor),
        _ => None,
    }
}

/// Reads codes, each behind a comma, as long as a comma comes next. A comma without a code is unreadable.
#[tactic(auto, using(crate::proofs::ManyLaws::many_turns, crate::proofs::ListLaws::comma_code_shortens))]
fn read_comma_codes(alloc: Global, cursor: &mut Cursor) -> Result<Sequence<Name>, Fault>
    ensures { Parses (many_at is_comma comma_code_at cursor.old) cursor.new result }
{
    let mut codes = Vec::new(alloc);
    while has_comma(cursor) {
        let next = read_comma_code(cursor).ok_or(Fault::Unreadable)?;
        codes.push(next)?;
    }
    Ok(Sequence::from_vec(codes))
}

/// Reads the further codes of a list and the brace that closes it. `first`, the first code, is taken
/// already, with the brace before it. `Unreadable` where no such brace follows.
fn read_rest_of_list(alloc: Global, cursor: &mut Cursor, first: Name) -> Result<CodeList, Fault>
    ensures { Parses (codes_at first cursor.old) cursor.new result }
{
    let rest = read_comma_codes(alloc, cursor)?;
    match cursor.take() {
        Some(Token::Close) => Ok(CodeList { first, rest }),
        _ => Err(Fault::Unreadable),
    }
}

/// Reads a list of at least one code, with its braces. `Unreadable` where the tokens don't begin with one.
fn read_list(alloc: Global, cursor: &mut Cursor) -> Result<CodeList, Fault>
    ensures { Parses (list_at cursor.old) cursor.new result }
{
    let Some(Token::Open) = cursor.take() else {
        return Err(Fault::Unreadable);
    };
    let first = take_code(cursor).ok_or(Fault::Unreadable)?;
    read_rest_of_list(alloc, cursor, first)
}

/// Reads `in` and the list of codes behind it. `Unreadable` where the tokens don't begin so.
pub(crate) fn read_in_list(alloc: Global, cursor: &mut Cursor) -> Result<CodeList, Fault>
    ensures { Parses (in_list_at cursor.old) cursor.new result }
{
    if !take_word(cursor, Keyword::In) {
        return Err(Fault::Unreadable);
    }
    read_list(alloc, cursor)
}
