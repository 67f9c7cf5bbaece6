//! The grammar of the rule language: how a line's text falls into tokens, and which tokens a statement
//! has. [`read_line`] reads one line. The tokens of a text are in `specs/Tokens.antt`, those of a
//! statement in `specs/Statements.antt`; the two together are the whole grammar.
#![tactic(auto)]

mod cursor;
mod line;
mod parser;
mod statement;
mod token;

pub use line::{LineText, read_line};
pub use statement::{
    CodeList, Declaration, RuleText, SignedTerm, Statement, SumText, TermText, TestText,
};
pub use token::{Keyword, Numeral, Sign, Token};
