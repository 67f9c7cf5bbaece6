//! Statements, read off the tokens. The first token tells which kind it is: `number` and `code` begin
//! declarations, and all else is a rule.
//!
//! In contracts `statement_at` is what the grammar reads at the front of the tokens. `Parses` says that
//! the call answers just that and leaves the tokens behind it, or answers `Unreadable` where that is
//! nothing.
ghost use Rattle.rule_grammar.specs.inner.Parsing.{Parses, statement_at};

use crate::cursor::Cursor;
use crate::parser::conditions::read_rule;
use crate::parser::declarations::{read_code_field, read_number_field};
use crate::parser::fault::Fault;
use crate::parser::marks::take_word;
use crate::statement::Statement;
use crate::token::Keyword;
use std::alloc::Global;

/// Reads a statement at the front of the tokens. `Unreadable` where they don't begin with one; tokens may
/// be left behind it.
pub(crate) fn read_statement(alloc: Global, cursor: &mut Cursor) -> Result<Statement, Fault>
    ensures { Parses (statement_at cursor.old) cursor.new result }
{
    if take_word(cursor, Keyword::Number) {
        let declaration = read_number_field(cursor).ok_or(Fault::Unreadable)?;
        return Ok(Statement::Declaration(declaration));
    }
    if take_word(cursor, Keyword::Code) {
        let declaration = read_code_field(alloc, cursor)?;
        return Ok(Statement::Declaration(declaration));
    }
    let rule = read_rule(alloc, cursor)?;
    Ok(Statement::Rule(rule))
}
