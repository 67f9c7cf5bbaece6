//! What a line says, as it is written: each choice that the grammar leaves to the writer is kept.
use crate::token::{Numeral, Sign};
use edit_model::{Compare, Name};
use foundation::Sequence;

/// One term of a sum: `2 A` or `2 * A`, `A`, or `2`. Its sign stands outside of it.
#[derive(Drop)]
pub enum TermText {
    /// A factor and a field, with a `*` between them or not.
    Product {
        factor: Numeral,
        times: bool,
        field: Name,
    },
    Field(Name),
    Constant(Numeral),
}

/// A sign and a term.
#[derive(Drop)]
pub struct SignedTerm {
    pub sign: Sign,
    pub term: TermText,
}

/// A sum: a term, with a sign in front or not, and further terms with their signs.
#[derive(Drop)]
pub struct SumText {
    pub sign: Option<Sign>,
    pub first: TermText,
    pub rest: Sequence<SignedTerm>,
}

/// The codes between two braces, at least one.
#[derive(Drop)]
pub struct CodeList {
    pub first: Name,
    pub rest: Sequence<Name>,
}

/// A test: `A in {x, y}`, `A not in {x}`, or two sums with a comparison between them.
#[derive(Drop)]
pub enum TestText {
    Codes {
        field: Name,
        negated: bool,
        list: CodeList,
    },
    Sums {
        left: SumText,
        compare: Compare,
        right: SumText,
    },
}

/// A rule: its conditions between `if` and `then`, or none, and its conclusion.
#[derive(Drop)]
pub struct RuleText {
    pub conditions: Sequence<TestText>,
    pub conclusion: TestText,
}

/// The declaration of a field. A weight or a scale that is not written is None.
#[derive(Drop)]
pub enum Declaration {
    Number {
        name: Name,
        weight: Option<Numeral>,
        scale: Option<Numeral>,
    },
    Code {
        name: Name,
        weight: Option<Numeral>,
        list: CodeList,
    },
}

/// What one line says.
#[derive(Drop)]
pub enum Statement {
    Declaration(Declaration),
    Rule(RuleText),
}
