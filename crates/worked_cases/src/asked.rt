//! What the words of a command line ask for, as one line. Worked cases show it, so that the reading of
//! words is tested without a run. Each helper but two looks for one command. It answers an empty text
//! where the words are not this command's, so that only one of them tells something.

use command_words::{
    EditWords, check_asked, classed_asked, edit_asked, fill_asked, make_asked, page_asked,
    panel_asked, rules_asked,
};
use foundation::OutOfMemory;
use std::alloc::Global;

/// The line that tells what the words of a command line ask for, with its line feed. It has the command,
/// its files and names in the order of its options, and then its numbers. It is `nothing` where the words
/// ask for no command. Where they asked for two, both would be told.
pub fn asked_line(alloc: Global, words: &[String]) -> Result<Vec<u8>, OutOfMemory> {
    let mut line = Vec::new(alloc);
    for told in [
        edit_told(alloc, words)?,
        classed_told(alloc, words)?,
        check_told(alloc, words)?,
        rules_told(alloc, words)?,
        fill_told(alloc, words)?,
        panel_told(alloc, words)?,
        make_told(alloc, words)?,
        page_told(alloc, words)?,
    ] {
        line.extend_from_slice(told.as_bytes())?;
    }
    if line.is_empty() {
        line.extend_from_slice(b"nothing")?;
    }
    line.push(b'\n')?;
    Ok(line)
}

// The command `edit`, as the words ask for it, with its five files and its four numbers. The text is empty
// where they don't ask for it.
fn edit_told(alloc: Global, words: &[String]) -> Result<String, OutOfMemory> {
    let Some(asked) = edit_asked(alloc, words)? else {
        return Ok(String::new(alloc));
    };
    let (files, numbers) = (files_told(alloc, &asked)?, numbers_told(alloc, &asked)?);
    Ok(format!(in alloc; "edit {files} {numbers}")?)
}

// The command `classed`, an edit by classes, as the words ask for it: its five files, the name of its class
// field and its four numbers. The text is empty where they don't ask for it.
fn classed_told(alloc: Global, words: &[String]) -> Result<String, OutOfMemory> {
    let Some(asked) = classed_asked(alloc, words)? else {
        return Ok(String::new(alloc));
    };
    let class = asked.class;
    let (files, numbers) = (
        files_told(alloc, &asked.edit)?,
        numbers_told(alloc, &asked.edit)?,
    );
    Ok(format!(in alloc; "classed {files} {class} {numbers}")?)
}

// The names of the five files of an edit, in the order of its options, with spaces between.
fn files_told(alloc: Global, asked: &EditWords) -> Result<String, OutOfMemory> {
    let (rules, records, released) = (asked.rules, asked.records, asked.released);
    let (reasons, proof) = (asked.reasons, asked.proof);
    Ok(format!(in alloc; "{rules} {records} {released} {reasons} {proof}")?)
}

// The four numbers of an edit, with spaces between: its workers, its budget, the limit of a donor, and how
// many donors a record ranks.
fn numbers_told(alloc: Global, asked: &EditWords) -> Result<String, OutOfMemory> {
    let (workers, budget) = (asked.workers, asked.budget);
    let (limit, near) = (asked.limit, asked.near);
    Ok(format!(in alloc; "{workers} {budget} {limit} {near}")?)
}

// The command `check`, as the words ask for it, with its four files. The text is empty where they don't ask
// for it.
fn check_told(alloc: Global, words: &[String]) -> Result<String, OutOfMemory> {
    let Some(asked) = check_asked(alloc, words)? else {
        return Ok(String::new(alloc));
    };
    let (rules, records) = (asked.rules, asked.records);
    let (released, proof) = (asked.released, asked.proof);
    Ok(format!(in alloc; "check {rules} {records} {released} {proof}")?)
}

// The command `rules`, as the words ask for it, with its file. The text is empty where they don't ask for
// it.
fn rules_told(alloc: Global, words: &[String]) -> Result<String, OutOfMemory> {
    let Some(asked) = rules_asked(alloc, words)? else {
        return Ok(String::new(alloc));
    };
    let rules = asked.rules;
    Ok(format!(in alloc; "rules {rules}")?)
}

// The command `fill`, as the words ask for it, with its three files and its budget. The text is empty where
// they don't ask for it.
fn fill_told(alloc: Global, words: &[String]) -> Result<String, OutOfMemory> {
    let Some(asked) = fill_asked(alloc, words)? else {
        return Ok(String::new(alloc));
    };
    let (rules, records) = (asked.rules, asked.records);
    let (released, budget) = (asked.released, asked.budget);
    Ok(format!(in alloc; "fill {rules} {records} {released} {budget}")?)
}

// The command `panel`, the edit of a panel, as the words ask for it, with its six files, its key and its
// budget. The text is empty where they don't ask for it.
fn panel_told(alloc: Global, words: &[String]) -> Result<String, OutOfMemory> {
    let Some(asked) = panel_asked(alloc, words)? else {
        return Ok(String::new(alloc));
    };
    let (rules, records, last) = (asked.rules, asked.records, asked.last);
    let (released, reasons, proof) = (asked.released, asked.reasons, asked.proof);
    let (key, budget) = (asked.key, asked.budget);
    Ok(format!(in alloc;
        "panel {rules} {records} {last} {released} {reasons} {proof} {key} {budget}"
    )?)
}

// The command `make`, which makes a survey, as the words ask for it. It has two files, the number `start`
// that the records follow from, and how many rows there are. The text is empty where they don't ask for
// it.
fn make_told(alloc: Global, words: &[String]) -> Result<String, OutOfMemory> {
    let Some(asked) = make_asked(alloc, words)? else {
        return Ok(String::new(alloc));
    };
    let (rules, records) = (asked.rules, asked.records);
    let (start, rows) = (asked.start, asked.rows);
    Ok(format!(in alloc; "make {rules} {records} {start} {rows}")?)
}

// The command `page`, as the words ask for it, with its five files. It is a command of another program. The
// text is empty where they don't ask for it.
fn page_told(alloc: Global, words: &[String]) -> Result<String, OutOfMemory> {
    let Some(asked) = page_asked(alloc, words)? else {
        return Ok(String::new(alloc));
    };
    let (rules, records, released) = (asked.rules, asked.records, asked.released);
    let (reasons, page) = (asked.reasons, asked.page);
    Ok(format!(in alloc; "page {rules} {records} {released} {reasons} {page}")?)
}
