//! Rules, read off the tokens: `if`, a test, further tests behind `and`, `then` and a test; or a test
//! alone. What is read is taken off the cursor, and `Unreadable` is answered where the tokens don't begin
//! so.
//!
//! In contracts `rule_at` and its like are what the grammar reads at the front of the tokens. `Parses`
//! says that the call answers just that and leaves the tokens behind it, or answers `Unreadable` where
//! that is nothing.
ghost use Rattle.std.specs.Prelude.{◌∷◌};
ghost use Rattle.rule_grammar.specs.inner.Parsing.{Parses, and_test_at, and_tests_at, conditional_at, rule_at, then_at};

use crate::cursor::Cursor;
use crate::parser::fault::Fault;
use crate::parser::field_tests::read_test;
use crate::parser::marks::{has_word, take_word};
use crate::statement::{RuleText, TestText};
use crate::token::Keyword;
use foundation::Sequence;
use std::alloc::Global;

/// Reads `and` and the test behind it, which is one more condition of a rule.
fn read_and_test(alloc: Global, cursor: &mut Cursor) -> Result<TestText, Fault>
    ensures { Parses (and_test_at cursor.old) cursor.new result }
{
    if !take_word(cursor, Keyword::And) {
        return Err(Fault::Unreadable);
    }
    read_test(alloc, cursor)
}

/// Reads the further conditions of a rule, each with its `and`, as long as an `and` comes next. It answers
/// all conditions: `first`, which is read already, and these.
#[tactic(auto, using(crate::proofs::ManyLaws::many_turns, crate::proofs::TestLaws::and_test_shortens))]
fn read_and_tests(
    alloc: Global,
    cursor: &mut Cursor,
    first: TestText,
) -> Result<Sequence<TestText>, Fault>
    ensures { Parses (and_tests_at first cursor.old) cursor.new result }
{
    let mut tests = Vec::new(alloc);
    tests.push(first)?;
    while has_word(cursor, Keyword::And) {
        tests.push(read_and_test(alloc, cursor)?)?;
    }
    Ok(Sequence::from_vec(tests))
}

/// Reads `then` and the test that follows from the conditions, which are read already.
fn read_conclusion(
    alloc: Global,
    cursor: &mut Cursor,
    conditions: Sequence<TestText>,
) -> Result<RuleText, Fault>
    ensures { Parses (then_at conditions cursor.old) cursor.new result }
{
    if !take_word(cursor, Keyword::Then) {
        return Err(Fault::Unreadable);
    }
    let conclusion = read_test(alloc, cursor)?;
    Ok(RuleText {
        conditions,
        conclusion,
    })
}

/// Reads a rule with conditions, from behind its `if`.
fn read_conditional(alloc: Global, cursor: &mut Cursor) -> Result<RuleText, Fault>
    ensures { Parses (conditional_at cursor.old) cursor.new result }
{
    let first = read_test(alloc, cursor)?;
    let conditions = read_and_tests(alloc, cursor, first)?;
    read_conclusion(alloc, cursor, conditions)
}

/// Reads a rule: with conditions where it begins with `if`, and else a test alone.
pub(crate) fn read_rule(alloc: Global, cursor: &mut Cursor) -> Result<RuleText, Fault>
    ensures { Parses (rule_at cursor.old) cursor.new result }
{
    if take_word(cursor, Keyword::If) {
        return read_conditional(alloc, cursor);
    }
    let conclusion = read_test(alloc, cursor)?;
    Ok(RuleText {
        conditions: Sequence::from_vec(Vec::new(alloc)),
        conclusion,
    })
}
