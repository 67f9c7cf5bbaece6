//! Tokens: the smallest pieces of a line, which the cursor gives and the parser takes.
use edit_model::{Compare, Name};

/// A word of the language, which names no field.
#[derive(Clone, Copy)]
pub enum Keyword {
    Number,
    Code,
    Weight,
    Scale,
    In,
    Not,
    If,
    And,
    Then,
}

/// A numeral: digits, or digits, a point and digits.
#[derive(Clone, Copy)]
pub enum Numeral {
    /// The whole number, at most 10^15, that the digits spell.
    Whole(u64),
    /// A numeral that no place of the language takes: it has a point, or is above 10^15.
    OutOfRange,
}

/// The sign in front of a term.
#[derive(Clone, Copy)]
pub enum Sign {
    Plus,
    Minus,
}

/// The smallest pieces of a line.
#[derive(Drop)]
pub enum Token {
    Keyword(Keyword),
    /// The name of a field: a letter and then letters, digits and `_`, and no keyword.
    Name(Name),
    Numeral(Numeral),
    /// A code, inside braces.
    Code(Name),
    Sign(Sign),
    Compare(Compare),
    /// `*`
    Times,
    /// `{`
    Open,
    /// `,`
    Comma,
    /// `}`
    Close,
    /// A byte that begins no other token. It stands in no statement.
    Stray,
}
