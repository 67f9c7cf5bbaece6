//! Edit rules as a survey keeps them: conditions and a conclusion, each of which tests a sum of numbers or
//! a code.
use foundation::Sequence;

/// How a sum is compared with 0: at least 0, above 0, at most 0, below 0, or equal to 0.
#[derive(Clone, Copy)]
pub enum Compare {
    Ge,
    Gt,
    Le,
    Lt,
    Eq,
}

/// A factor, not 0 and at most 10^9 in absolute value, of the field with this number, from 0.
#[derive(Clone, Copy)]
pub struct Term {
    pub field: u32,
    pub factor: i64,
}

/// The test that the sum of factor * value, and the constant, compares with 0. Terms are in field order;
/// the constant is at most 10^15 in absolute value.
#[derive(Drop)]
pub struct Linear {
    pub terms: Sequence<Term>,
    pub constant: i64,
    pub compare: Compare,
}

/// One test of a rule.
#[derive(Drop)]
pub enum Test {
    Number(Linear),
    /// The field's code is one of the set; or it is none of them where the test is negated. Bit c of the
    /// set stands for the code of number c, from 0.
    Codes {
        field: u32,
        negated: bool,
        codes: u64,
    },
}

/// An edit: IF all conditions are true THEN the conclusion is.
#[derive(Drop)]
pub struct Rule {
    pub conditions: Sequence<Test>,
    pub conclusion: Test,
}
