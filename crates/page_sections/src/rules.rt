//! The section on how many records broke each rule. In contracts, `added` says what content is put last in
//! the page's innermost open element, and `bar_parts` is what definitions see of a bar.
ghost use Rattle.std.specs.Prelude.{◌≡◌, ◌++◌, IfOk, OnOk, map, slice_get};
ghost use Rattle.page_markup.specs.OpenPages.{added};
ghost use Rattle.page_sections.specs.RuleSection.{break_parts, rule_bar, rule_label, rule_section, rule_words};
ghost use Rattle.page_sections.specs.Sections.{bar_parts};

use crate::own_bar::{OwnBar, push_own_bars};
use crate::section::open_section;
use edit_language::rule_text;
use edit_model::Survey;
use foundation::OutOfMemory;
use page_counts::{Amount, RuleCount};
use page_figures::Figure;
use page_markup::PageWriter;
use release_figures::ReleaseFigures;
use std::alloc::Global;

const FIGURE: Figure = Figure {
    id: 3,
    title: b"Records that broke each rule",
    description: b"A bar for each rule, that which most records broke first: how many broke it, and at how many it was not tried.",
    subject: b"rule",
};

const NOTE: &[u8] =
    b"A rule is not tried at a record without a value in a field that the rule reads, or where a number leaves 128 bits. \
      All records count as they came.";

const SERIES: &[&[u8]] = &[b"broken", b"not tried"];

/// Adds the section on how many records broke each rule.
pub(crate) fn push_rules(
    alloc: Global,
    page: &mut PageWriter,
    survey: &Survey,
    figures: &ReleaseFigures,
) -> Result<(), OutOfMemory>
    ensures { OnOk result (page.new ≡ added (rule_section survey.now figures.now) page.old) }
{
    let amounts = figures.rules_by_breaks.as_slice();
    let bars = rule_bars(alloc, survey, figures.rules.as_slice(), amounts)?;
    open_section(page, b"Rules", NOTE)?;
    push_own_bars(alloc, page, &FIGURE, SERIES, &bars)?;
    page.close()
}

// A bar for each of these amounts, in their order: an amount has the number of a rule and how many records
// broke it. `counts` has the counts of each rule, in declared order.
fn rule_bars(
    alloc: Global,
    survey: &Survey,
    counts: &[RuleCount],
    amounts: &[Amount],
) -> Result<Vec<OwnBar>, OutOfMemory>
    ensures { IfOk result (λ bars. map bar_parts bars.items ≡ map (rule_bar survey.now counts.now) amounts.now) }
{
    let mut bars = Vec::new(alloc);
    for amount in amounts {
        bars.push(rule_bar(alloc, survey, counts, *amount)?)?;
    }
    Ok(bars)
}

// The bar of the rule whose number the amount has: the rule, how many records broke it, and at how many
// it was not tried.
fn rule_bar(
    alloc: Global,
    survey: &Survey,
    counts: &[RuleCount],
    amount: Amount,
) -> Result<OwnBar, OutOfMemory>
    ensures { IfOk result (λ bar. bar_parts bar ≡ rule_bar survey.now counts.now amount) }
{
    Ok(OwnBar {
        label: rule_label(alloc, survey, amount.number)?,
        parts: break_parts(alloc, counts, amount.number as usize)?,
    })
}

// The number of a rule, from 1, and the rule, such as `2: Costs >= 0`. `number` is from 0.
fn rule_label(alloc: Global, survey: &Survey, number: u32) -> Result<Vec<u8>, OutOfMemory>
    ensures { IfOk result (λ label. label.items ≡ rule_label survey.now number) }
{
    let from_one = u64::from(number) + 1;
    let mut label = format!(in alloc; "{from_one}: ")?.into_bytes();
    let words = rule_words(alloc, survey, number as usize)?;
    label.extend_from_slice(&words)?;
    Ok(label)
}

// The rule of this number, from 0, as it stands in the rule file; no byte where there is none.
fn rule_words(alloc: Global, survey: &Survey, number: usize) -> Result<Vec<u8>, OutOfMemory>
    ensures { IfOk result (λ words. words.items ≡ rule_words survey.now.fields (slice_get survey.now.rules number)) }
{
    match survey.rules().get(number) {
        Some(rule) => rule_text(alloc, survey.fields(), rule),
        None => Ok(Vec::new(alloc)),
    }
}

// How many records broke the rule of this number, from 0, and at how many it could not be tried. No
// parts where there is no such rule.
fn break_parts(alloc: Global, counts: &[RuleCount], number: usize) -> Result<Vec<u64>, OutOfMemory>
    ensures { IfOk result (λ parts. parts.items ≡ break_parts (slice_get counts.now number)) }
{
    match counts.get(number) {
        Some(count) => Ok(vec![in alloc; count.broken as u64, count.untried as u64]?),
        None => Ok(Vec::new(alloc)),
    }
}
