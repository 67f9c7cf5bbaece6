//! Worked calls on redundant lines: which lines of rules follow from the others, and by which steps.

use crate::fault::CallFault;
use crate::texts::Texts;
use edit_model::Survey;
use edit_normal::lines_of_rules;
use redundancy::prune;
use rule_report::report;
use std::alloc::Global;

/// What becomes of each line of the rules, and the steps behind those that are dropped, as [`report`]
/// tells them. No line is tried with more work than the budget. Want of memory is the only fault.
pub fn dropped_told(alloc: Global, survey: &Survey, budget: u64) -> Result<Texts, CallFault> {
    let lines = lines_of_rules(alloc, survey)?;
    let verdicts = prune(alloc, survey, &lines, budget)?;
    Ok(report(alloc, survey, &lines, &verdicts)?)
}

/// What becomes of each line of the rules, as [`dropped_told`] tells it, but without the steps, which
/// begin with two spaces there. Want of memory is the only fault.
pub fn prune_told(alloc: Global, survey: &Survey, budget: u64) -> Result<Texts, CallFault> {
    let mut texts = Vec::new(alloc);
    for text in dropped_told(alloc, survey, budget)? {
        if !text.starts_with(b"  ") {
            texts.push(text)?;
        }
    }
    Ok(texts)
}
