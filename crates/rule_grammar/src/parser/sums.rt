//! Sums of terms, as `2 A - B + 3`, read off the tokens.
//!
//! In contracts `sum_at` and its like are what the grammar reads at the front of the tokens. `Parses` says
//! that the call answers just that and leaves the tokens behind it, or answers `Unreadable` where that is
//! nothing. `Reads` says the same of a call without memory, which answers None instead.
ghost use Rattle.std.specs.Prelude.{Some, None};
ghost use Rattle.rule_grammar.specs.inner.Parsing.{Parses, Reads, factor_at, many_at, is_sign, signed_term_at, sum_after, sum_at, term_at};

use crate::cursor::Cursor;
use crate::parser::fault::Fault;
use crate::parser::marks::{has_sign, take_name, take_sign};
use crate::statement::{SignedTerm, SumText, TermText};
use crate::token::{Numeral, Sign, Token};
use foundation::Sequence;
use std::alloc::Global;

/// Reads the rest of a term that begins with the numeral `number`, which is taken already. It is a product
/// where `*` or a name comes next, and else a constant. None where no name is behind a `*`.
fn read_rest_of_term(cursor: &mut Cursor, number: Numeral) -> Option<TermText>
    ensures { Reads (factor_at number cursor.old) cursor.new result }
{
    let times = match cursor.front() {
        Some(Token::Times) => true,
        Some(Token::Name(_)) => false,
        _ => return Some(TermText::Constant(number)),
    };
    if times {
        cursor.take();
    }
    let field = take_name(cursor)?;
    Some(TermText::Product {
        factor: number,
        times,
        field,
    })
}

/// Reads a term without its sign. None where neither a name nor a numeral comes next, or no name is behind
/// a `*`.
fn read_term(cursor: &mut Cursor) -> Option<TermText>
    ensures { Reads (term_at cursor.old) cursor.new result }
{
    match cursor.take() {
        Some(Token::Name(field)) => Some(TermText::Field(field)),
        Some(Token::Numeral(number)) => read_rest_of_term(cursor, number),
        _ => None,
    }
}

/// Reads a sign and the term behind it. None where no sign comes next, or no term is behind it.
fn read_signed_term(cursor: &mut Cursor) -> Option<SignedTerm>
    ensures { Reads (signed_term_at cursor.old) cursor.new result }
{
    let sign = take_sign(cursor)?;
    let term = read_term(cursor)?;
    Some(SignedTerm { sign, term })
}

/// Reads signed terms, as long as a sign comes next. A sign without a term is unreadable.
#[tactic(auto, using(crate::proofs::ManyLaws::many_turns, crate::proofs::SumLaws::signed_term_shortens))]
fn read_signed_terms(alloc: Global, cursor: &mut Cursor) -> Result<Sequence<SignedTerm>, Fault>
    ensures { Parses (many_at is_sign signed_term_at cursor.old) cursor.new result }
{
    let mut terms = Vec::new(alloc);
    while has_sign(cursor) {
        let next = read_signed_term(cursor).ok_or(Fault::Unreadable)?;
        terms.push(next)?;
    }
    Ok(Sequence::from_vec(terms))
}

/// Reads the further terms of a sum, of which there may be none. Its first term is taken already, and so is
/// the sign before it, if there is one. `Unreadable` where a sign has no term behind it.
pub(crate) fn read_rest_of_sum(
    alloc: Global,
    cursor: &mut Cursor,
    sign: Option<Sign>,
    first: TermText,
) -> Result<SumText, Fault>
    ensures { Parses (sum_after sign first cursor.old) cursor.new result }
{
    let rest = read_signed_terms(alloc, cursor)?;
    Ok(SumText { sign, first, rest })
}

/// Reads a sum: a term, with a sign in front or not, and further terms with their signs. `Unreadable` where
/// no term comes first, or a sign has none behind it.
pub(crate) fn read_sum(alloc: Global, cursor: &mut Cursor) -> Result<SumText, Fault>
    ensures { Parses (sum_at cursor.old) cursor.new result }
{
    let sign = if has_sign(cursor) {
        take_sign(cursor)
    } else {
        None
    };
    let first = read_term(cursor).ok_or(Fault::Unreadable)?;
    read_rest_of_sum(alloc, cursor, sign, first)
}
