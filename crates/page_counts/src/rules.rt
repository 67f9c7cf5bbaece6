//! How many records break each rule, and at how many it can't be tried.
ghost use Rattle.std.specs.Prelude.{◌≡◌, ◌+◌, ◌<◌, ◌≤◌, IfOk, length, map, replicate, take};
ghost use Rattle.page_counts.specs.Rules.{no_count, rule_count};

use crate::trial::answer_at;
use edit_model::{Rule, Survey};
use foundation::OutOfMemory;
use record_text::Sheet;
use std::alloc::Global;

/// How many records break a rule, and at how many it can't be tried (`untried`): a value is missing that the
/// rule reads, or a number leaves the range.
#[derive(Clone, Copy)]
pub struct RuleCount {
    pub broken: usize,
    pub untried: usize,
}

/// For each rule, in declared order, how many of the sheet's records break it, and at how many it can't
/// be tried. Each rule is tried at each record.
pub fn rule_counts(
    alloc: Global,
    survey: &Survey,
    sheet: &Sheet,
) -> Result<Vec<RuleCount>, OutOfMemory>
    ensures { IfOk result (λ counts. counts.items ≡ map (rule_count sheet.now.rows) survey.now.rules) }
{
    let rules = survey.rules();
    let mut counts = no_counts(alloc, rules.len())?;
    for row_no in 0..sheet.len() {
        count_row(&mut counts, rules, sheet, row_no);
    }
    Ok(counts)
}

// The counts of as many rules as `rules` says, before any record is counted: all are 0.
fn no_counts(alloc: Global, rules: usize) -> Result<Vec<RuleCount>, OutOfMemory>
    ensures { IfOk result (λ counts. counts.items ≡ replicate rules no_count) }
{
    let none = RuleCount {
        broken: 0,
        untried: 0,
    };
    Ok(vec![in alloc; none; rules]?)
}

// Counts the row `row_no` for each rule, where `counts` has the counts of the rows before it.
fn count_row(counts: &mut Vec<RuleCount>, rules: &[Rule], sheet: &Sheet, row_no: u32)
    requires row { row_no < length sheet.now.rows }
    requires counted { counts.old.items ≡ map (rule_count (take row_no sheet.now.rows)) rules.now }
    ensures { counts.new.items ≡ map (rule_count (take (row_no + 1) sheet.now.rows)) rules.now }
{
    for (i, rule) in rules.iter().enumerate() {
        counts[i] = with_row(counts[i], rule, sheet, row_no);
    }
}

// The counts of a rule with the row `row_no`, from 0, where `count` has those of the rows before it.
fn with_row(count: RuleCount, rule: &Rule, sheet: &Sheet, row_no: u32) -> RuleCount
    requires row { row_no < length sheet.now.rows }
    requires counted { count ≡ rule_count (take row_no sheet.now.rows) rule.now }
    ensures { result ≡ rule_count (take (row_no + 1) sheet.now.rows) rule.now }
{
    match answer_at(rule, sheet.row(row_no)) {
        Some(true) => count,
        Some(false) => RuleCount {
            broken: count.broken + 1,
            untried: count.untried,
        },
        None => RuleCount {
            broken: count.broken,
            untried: count.untried + 1,
        },
    }
}
