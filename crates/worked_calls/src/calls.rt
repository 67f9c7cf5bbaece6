//! The worked calls, by the words of their commands: which words ask for which call, and that its answer
//! is the output of the command.

use crate::ranking::{Asked, measured_told, rank_told};
use case_files::{Commands, Files, Role, failure_lines};
use foundation::OutOfMemory;
use line_calls::{
    CallFault, Texts, boxes_told, bytes_in, dropped_told, lines_told, negations_told, number_in,
    pairs_told, place_in, prune_told, row_of, sums_told, survey_in, system_told,
};
use proof_calls::{steps_told, tree_told};
use search_calls::{search_told, values_from, values_told};
use std::alloc::Global;
use std::sync::Wait;
use std::thread::Threads;

/// The calls of the crates below the program. Nothing is kept from one to the next.
#[derive(Drop)]
pub struct Calls;

impl Commands for Calls {
    // The commands of this program at the beginning of a file: nothing is kept from one call to the next.
    fn start(_alloc: Global) -> Self {
        Calls
    }

    // Each call is a case of its own. Its name alone is looked at: a call with wrong words says so in
    // its output. None where no call has the name.
    fn role_of(words: &[&str]) -> Option<Role> {
        match words.first() {
            Some(word) if is_call(word) => Some(Role::Begins),
            _ => None,
        }
    }

    // Makes the call of these words, and gives its answer as lines. Its fault is told as the output of a
    // command that fails, with the status 1; `Err` is for want of memory alone.
    fn perform<R: Threads + Wait + Sync>(
        &mut self,
        _rt: &R,
        alloc: Global,
        files: &mut Files,
        words: &[&str],
    ) -> Result<Vec<Vec<u8>>, OutOfMemory> {
        match call_told(alloc, files, words) {
            Ok(texts) => Ok(texts),
            Err(CallFault::OutOfMemory) => Err(OutOfMemory),
            Err(fault) => failure_lines(alloc, format!(in alloc; "{fault}")?, 1),
        }
    }
}

// Whether one of the calls has this name, so that a command that begins with it is one of this program's.
fn is_call(word: &str) -> bool {
    matches!(
        word,
        "lines"
            | "negations"
            | "sums"
            | "system"
            | "pairs"
            | "prune"
            | "dropped"
            | "boxes"
            | "steps"
            | "tree"
            | "search"
            | "values"
            | "rank"
            | "measured"
    )
}

// The lines that the call of these words answers. The first word is its name, and the next ones are the
// files or the record that it is made on. `CallFault::Words` where its name stands alone, or it takes
// other words; else the faults are those of the call.
fn call_told(alloc: Global, files: &Files, words: &[&str]) -> Result<Texts, CallFault> {
    match words {
        [name @ ("rank" | "measured"), rules, records, others @ ..] => {
            donors_told(alloc, files, name, rules, records, others)
        }
        [name, rules, others @ ..] if is_of_rules(name) => {
            rules_told(alloc, files, name, rules, others)
        }
        [name, rules, record, others @ ..] => {
            record_told(alloc, files, name, rules, record, others)
        }
        _ => Err(CallFault::Words),
    }
}

// Whether the call of this name takes a rule file and no record. All others but `rank` and `measured`,
// which take a record file, take a rule file and one record.
fn is_of_rules(name: &str) -> bool {
    matches!(
        name,
        "lines" | "negations" | "system" | "pairs" | "prune" | "dropped"
    )
}

// The lines that the call `name` answers on the rule file of the name `rules`; `others` are the words
// behind these two. `CallFault::Words` where the call takes others; else the faults are those of the
// call.
fn rules_told(
    alloc: Global,
    files: &Files,
    name: &str,
    rules: &str,
    others: &[&str],
) -> Result<Texts, CallFault> {
    let survey = survey_in(alloc, files, rules)?;
    match (name, others) {
        ("lines", []) => lines_told(alloc, &survey),
        ("negations", []) => negations_told(alloc, &survey),
        ("system", fields) => system_told(alloc, &survey, fields),
        ("pairs", [fields @ .., last]) => pairs_told(alloc, &survey, fields, last),
        ("prune", [budget]) => prune_told(alloc, &survey, number_in(budget)?),
        ("dropped", [budget]) => dropped_told(alloc, &survey, number_in(budget)?),
        _ => Err(CallFault::Words),
    }
}

// The lines that the call `name` answers on the rule file of the name `rules` and one record, which the
// word `record` spells. `others` are the words behind these three. `CallFault::Words` where there is no
// such call, or it takes others; else the faults are those of the call.
fn record_told(
    alloc: Global,
    files: &Files,
    name: &str,
    rules: &str,
    record: &str,
    others: &[&str],
) -> Result<Texts, CallFault> {
    let survey = survey_in(alloc, files, rules)?;
    let row = row_of(alloc, &survey, record)?;
    match (name, others) {
        ("sums", []) => sums_told(alloc, &survey, &row),
        ("boxes", words) => boxes_told(alloc, &survey, &row, words),
        ("steps", [path, steps, without @ ..]) => {
            steps_told(alloc, &survey, &row, path, bytes_in(files, steps)?, without)
        }
        ("tree", [tree]) => tree_told(alloc, &survey, &row, bytes_in(files, tree)?),
        ("search", [budget]) => search_told(alloc, &survey, &row, number_in(budget)?),
        ("values", []) => values_told(alloc, &survey, &row, None),
        ("values", [donor]) => values_from(alloc, &survey, &row, donor),
        _ => Err(CallFault::Words),
    }
}

// The lines that the call `name`, `rank` or `measured`, answers on the rule file and the record file of the
// names `rules` and `records`. `others` are the words behind these three. `CallFault::Words` where the call
// takes others; else the faults are those of the call.
fn donors_told(
    alloc: Global,
    files: &Files,
    name: &str,
    rules: &str,
    records: &str,
    others: &[&str],
) -> Result<Texts, CallFault> {
    let survey = survey_in(alloc, files, rules)?;
    let records = bytes_in(files, records)?;
    match (name, others) {
        ("rank", [path, row, near, class @ ..]) => {
            rank_told(alloc, &survey, records, asked_by(path, row, near, class)?)
        }
        ("measured", [path, row, near, most, class @ ..]) => {
            let asked = asked_by(path, row, near, class)?;
            measured_told(alloc, &survey, records, asked, number_in(most)?)
        }
        _ => Err(CallFault::Words),
    }
}

// What the words of `rank` or `measured` ask for. `path` has letters, and `row` is the number of a
// record, from 1; in the answer it is from 0. `near` is how many donors are ranked at most. `class` has
// the name of a class field, or nothing. `CallFault::Words` where it has more words or a word is no
// number, and `CallFault::Number` for the record 0.
fn asked_by<'a>(
    path: &'a str,
    row: &str,
    near: &str,
    class: &[&'a str],
) -> Result<Asked<'a>, CallFault> {
    let class_field = match class {
        [] => None,
        [field] => Some(*field),
        _ => return Err(CallFault::Words),
    };
    Ok(Asked {
        path,
        row_no: place_in(row)? as u64,
        near: number_in(near)?,
        class_field,
    })
}
