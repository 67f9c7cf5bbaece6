//! The summary lines that a run prints: `records N clean N changed N unresolved N weight N`, and
//! `claims N given N`. In contracts, `IsEnd` says that the values given are those of the path that was found.
ghost use Rattle.std.specs.Prelude.{◌≡◌, ◌≤◌, IfOk, if◌then◌else◌, length, map, not};
ghost use Rattle.std.specs.List.{AllByRecursion, filter, sum_by};
ghost use Rattle.bound_cert.specs.Paths.{path_weight};
ghost use Rattle.bound_cert.specs.Trees.{all_kept};
ghost use Rattle.edit_report.specs.Ends.{IsEnd, path_found};
ghost use Rattle.edit_report.specs.Summaries.{claims_of, is_changed, keeps_all, has_donor, is_unresolved, summary_lines, summary_of, summary_words, weight_of};

use crate::changed::{keeps_every_field, path_found};
use crate::end::RowEnd;
use bound_cert::Outcome;
use donor_book::Entry;
use edit_model::Survey;
use foundation::OutOfMemory;
use std::alloc::Global;

/// Two lines without their line feeds. The first tells how many records there are, how many of them are
/// clean, changed and not resolved, and the weights of the changes together. The second tells how many
/// claims of donors the history has, and how many of them were given one.
pub fn summary_text(
    alloc: Global,
    survey: &Survey,
    ends: &[RowEnd],
    history: &[Entry],
) -> Result<[Vec<u8>; 2], OutOfMemory>
    requires { AllByRecursion (IsEnd survey.now.fields) ends.now }
    ensures { IfOk result (λ lines. map (λ line. line.items) lines ≡ summary_lines survey.now ends.now history.now) }
{
    Ok([
        records_line(alloc, survey, ends)?,
        claims_line(alloc, history)?,
    ])
}

// The line of the claims: how many there are, and how many of them were given a donor.
fn claims_line(alloc: Global, history: &[Entry]) -> Result<Vec<u8>, OutOfMemory>
    ensures { IfOk result (λ text. text.items ≡ claims_of history.now) }
{
    let claims = history.len();
    let given = history.iter().filter(|entry| is_given(entry)).count();
    Ok(format!(in alloc; "claims {claims} given {given}")?.into_bytes())
}

// Whether the claim was given a donor. No memory.
fn is_given(entry: &Entry) -> bool
    ensures { result ≡ has_donor entry.now }
{
    entry.reply.is_some()
}

// The line of the records: how many there are and how many of each kind, and what the changes weigh
// together.
fn records_line(alloc: Global, survey: &Survey, ends: &[RowEnd]) -> Result<Vec<u8>, OutOfMemory>
    requires { AllByRecursion (IsEnd survey.now.fields) ends.now }
    ensures { IfOk result (λ text. text.items ≡ summary_of survey.now ends.now) }
{
    let clean = ends.iter().filter(|end| is_clean(end)).count();
    let changed = ends.iter().filter(|end| is_changed(end)).count();
    let unresolved = ends.iter().filter(|end| end.gift.is_none()).count();
    let weight = weight_of_changes(survey, ends);
    summary_line(alloc, ends.len(), clean, changed, unresolved, weight)
}

/// The text of the line of the records, without its line feed, from its five numbers: how many records there
/// are, and how many of them are clean, changed and unresolved. The weight is that of all changes together.
pub fn summary_line(
    alloc: Global,
    records: usize,
    clean: usize,
    changed: usize,
    unresolved: usize,
    weight: u128,
) -> Result<Vec<u8>, OutOfMemory>
    ensures { IfOk result (λ text. text.items ≡ summary_words records clean changed unresolved weight) }
{
    Ok(format!(in alloc;
        "records {records} clean {clean} changed {changed} unresolved {unresolved} weight {weight}"
    )?.into_bytes())
}

// The sum of the weights of the changes, over the records that were given other values. No memory.
fn weight_of_changes(survey: &Survey, ends: &[RowEnd]) -> u128
    requires { AllByRecursion (IsEnd survey.now.fields) ends.now }
    ensures { result ≡ sum_by (weight_of survey.now.fields) (filter is_changed ends.now) }
{
    let mut weight = 0;
    for end in ends {
        weight += u128::from(changed_weight(survey, end));
    }
    weight
}

// What the record's change weighs; 0 where it was given no values, or keeps all its own. No memory.
fn changed_weight(survey: &Survey, end: &RowEnd) -> u64
    requires { IsEnd survey.now.fields end.now }
    ensures { result ≡ (if is_changed end.now then weight_of survey.now.fields end.now else 0) }
{
    match &end.gift {
        None => 0,
        Some(_) => path_weight(survey, &end.proof.outcome),
    }
}

// What the path at which a search ended weighs: the sum of the weights of the fields that it changes. It is
// 0 where it keeps all fields, or there is none. No memory.
fn path_weight(survey: &Survey, outcome: &Outcome) -> u64
    requires { length (path_found outcome.now) ≤ length survey.now.fields }
    ensures { result ≡ (if not (all_kept (path_found outcome.now)) then path_weight survey.now.fields (path_found outcome.now) else 0) }
{
    if keeps_every_field(path_found(outcome)) {
        return 0;
    }
    match outcome {
        Outcome::Change { path, .. } => path.weight(survey),
        Outcome::Budget { path, .. } => path.weight(survey),
        Outcome::Overflow { path, .. } => path.weight(survey),
        Outcome::Contradictory { .. } => 0,
    }
}

// Whether the record was given values and keeps all its own. No memory.
fn is_clean(end: &RowEnd) -> bool
    ensures { result ≡ keeps_all end.now }
{
    end.gift.is_some() && keeps_every_field(path_found(&end.proof.outcome))
}

// Whether the record was given values, and its path changes some field. No memory.
fn is_changed(end: &RowEnd) -> bool
    ensures { result ≡ is_changed end.now }
{
    end.gift.is_some() && !keeps_every_field(path_found(&end.proof.outcome))
}
