//! The text of a line, read: it is empty, or a statement, or neither. In contracts, `AreLongestTokens` takes
//! first whether the text begins inside braces; that of a line does not.
ghost use Rattle.std.specs.Prelude.{IfOk, OnOk, false};
ghost use Rattle.rule_grammar.specs.LineTexts.{IsLineText};
ghost use Rattle.rule_grammar.specs.Spellings.{AreLongestTokens};
ghost use Rattle.rule_grammar.specs.Tokens.{tokens_of};

use crate::cursor::Cursor;
use crate::parser::{Fault, is_over, read_statement};
use crate::statement::Statement;
use foundation::OutOfMemory;
use std::alloc::Global;

/// What the text of a line is.
#[derive(Drop)]
pub enum LineText {
    /// Blanks alone, or no byte.
    Empty,
    /// A declaration or a rule.
    Says(Statement),
    /// Something that is no statement.
    Unreadable,
}

/// Reads the text of a line, of which the caller has cut off the comment. `Unreadable` where it is no
/// statement, or tokens are left behind one. Each token of the text, from left to right, is the longest
/// that can be read there. Refused for want of memory alone.
#[tactic(auto, using(crate::proofs::LineLaws::line_answers, crate::proofs::LongestTokens::tokens_are_longest))]
pub fn read_line(alloc: Global, text: &[u8]) -> Result<LineText, OutOfMemory>
    ensures text { IfOk result (λ line. IsLineText text.now line) }
    ensures longest { OnOk result (AreLongestTokens false text.now (tokens_of text.now)) }
{
    let mut cursor = Cursor::new(text);
    if is_over(&cursor) {
        return Ok(LineText::Empty);
    }
    let says = match read_statement(alloc, &mut cursor) {
        Ok(says) => says,
        Err(Fault::Unreadable) => return Ok(LineText::Unreadable),
        Err(Fault::OutOfMemory) => return Err(OutOfMemory),
    };
    if !is_over(&cursor) {
        return Ok(LineText::Unreadable);
    }
    Ok(LineText::Says(says))
}
