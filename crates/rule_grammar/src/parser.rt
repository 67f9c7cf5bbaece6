//! Reads a statement off the tokens of a line, one production of the grammar after another. A production is
//! a part of a statement that the grammar names, such as a sum, a test or a list. A call `read_..` reads a
//! production, and a call `take_..` takes a single token.
mod conditions;
mod declarations;
mod fault;
mod field_tests;
mod lists;
mod marks;
mod statements;
mod sums;

pub(crate) use fault::Fault;
pub(crate) use marks::is_over;
pub(crate) use statements::read_statement;
