//! Lines of rule files as statements: a declaration, a rule, nothing, or no statement at all.

use rule_grammar::{LineText, Statement, read_line};
use std::alloc::Global;
use std::process::Abort;
use std::test::Fail;

/// What a line of this text is, in one word: nothing, a declaration, a rule, or unreadable. Refused for want
/// of memory alone.
fn word_for(alloc: Global, text: &str) -> Result<&'static str, Fail> {
    match read_line(alloc, text.as_bytes())? {
        LineText::Empty => Ok("nothing"),
        LineText::Says(Statement::Declaration(_)) => Ok("declaration"),
        LineText::Says(Statement::Rule(_)) => Ok("rule"),
        LineText::Unreadable => Ok("unreadable"),
    }
}

/// Reads each line of the table, and compares what it is with the word behind it. The test ends at the first
/// that differs.
fn compare_lines(rt: &impl Abort, alloc: Global, cases: &[(&str, &str)]) -> Result<(), Fail> {
    for (text, word) in cases {
        assert_eq!(rt; word_for(alloc, text)?, *word, "at {text:?}");
    }
    Ok(())
}

// Lines with what each is, of both kinds of declaration and of rules, and near misses of these.
#[test]
fn a_line_is_a_statement_or_unreadable(rt: HostRuntime) -> Result<(), Fail> {
    compare_lines(
        &rt,
        rt.alloc(),
        &[
            (" \t ", "nothing"),
            ("number A weight 2 scale 10", "declaration"),
            ("number A scale 10 weight 2", "unreadable"),
            ("code B weight 1 in{number,2.5, -}", "declaration"),
            ("code B in {x,}", "unreadable"),
            ("code B in {}", "unreadable"),
            ("2A+3-B<=-4", "rule"),
            ("A + + B >= 0", "unreadable"),
            ("A == 0", "unreadable"),
            ("A not in {x, y}", "rule"),
            ("if A in {x} and B not in {y,z} then C > 1", "rule"),
            ("if A in {x} then B = 0 and C = 0", "unreadable"),
            ("number in {x}", "unreadable"),
            (
                "number abcdefghijklmnopqrstuvwxyz012345scale 2",
                "declaration",
            ),
            ("abcdefghijklmnopqrstuvwxyz0123456 = 0", "unreadable"),
        ],
    )
}

// A sum of many terms is read as a rule: the parser reads terms in a loop, so that the stack is not used up.
#[test]
fn a_sum_of_100_000_terms_is_read(rt: HostRuntime) -> Result<(), Fail> {
    let mut text = String::new(rt.alloc());
    for _ in 0..100_000 {
        text.push_str("+2B")?;
    }
    text.push_str(">=0")?;
    assert_eq!(rt; word_for(rt.alloc(), text.as_str())?, "rule");
    Ok(())
}
