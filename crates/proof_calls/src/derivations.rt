//! Worked calls on derivations and proof trees over the lines of rules: what their checkers say of those
//! in a file. In contracts, `IsRow` says that a record has for each field a value of its kind, or none.
ghost use Rattle.std.specs.Prelude.{◌≡◌, IfOk, length};
ghost use Rattle.edit_model.specs.Rows.{IsRow};

use crate::proofs_read::{steps_of, tree_of};
use bound_cert::{CertFault, Path, check_cert};
use derivation::{Proved, StepsFault, check_steps};
use edit_model::{Row, Survey};
use edit_normal::lines_of_rules;
use line_calls::{CallFault, Texts, box_text, from_one, only_line, place_in, told_line};
use std::alloc::Global;

/// What the steps of a file prove of a record, or the number, from 1, of the first that is not valid.
/// `path` says which fields are kept, and `steps` are the bytes of the file. The steps may build on all
/// lines of the rules but those whose numbers are `without`. The faults are those of `steps_of`,
/// `all_but` and `path_of`, and `CallFault::Path` where the path is longer than there are fields.
pub fn steps_told(
    alloc: Global,
    survey: &Survey,
    row: &Row,
    path: &str,
    steps: &[u8],
    without: &[&str],
) -> Result<Texts, CallFault>
    requires { IsRow survey.now.fields row.now }
{
    let steps = steps_of(alloc, steps)?;
    let given = lines_of_rules(alloc, survey)?;
    let usable = all_but(alloc, given.len(), without)?;
    let path = path_of(alloc, path)?;
    if path.letters().len() > survey.fields().len() {
        return Err(CallFault::Path);
    }
    let kept = path.kept_set(survey, row);
    match check_steps(alloc, survey, &given, &usable, row, kept, steps.as_slice()) {
        Ok(proved) => only_line(alloc, proved_text(alloc, survey, &proved)?),
        Err(StepsFault::Bad { place }) => {
            let number = from_one(place);
            only_line(alloc, format!(in alloc; "no step {number}")?.into_bytes())
        }
        Err(StepsFault::OutOfMemory) => Err(CallFault::OutOfMemory),
    }
}

// What steps prove, as text: that a line holds, or that no codes may all stand in a box.
fn proved_text(alloc: Global, survey: &Survey, proved: &Proved) -> Result<Vec<u8>, CallFault> {
    match proved {
        Proved::Line(line) => told_line(alloc, survey, String::from_str(alloc, "line ")?, line),
        Proved::Box(code_box) => {
            let mut text = String::from_str(alloc, "box ")?.into_bytes();
            text.extend_from_slice(&box_text(alloc, survey, code_box.sets())?)?;
            Ok(text)
        }
    }
}

/// The path of these letters: K for kept, C for changed; `-` adds nothing, so that it is the empty path.
/// `CallFault::Path` for any other letter.
pub fn path_of(alloc: Global, text: &str) -> Result<Path, CallFault> {
    let mut letters = Vec::new(alloc);
    for byte in text.as_bytes() {
        match *byte {
            b'K' => letters.push(false)?,
            b'C' => letters.push(true)?,
            b'-' => {}
            _ => return Err(CallFault::Path),
        }
    }
    Ok(Path::new(letters))
}

// For each of `count` lines whether it is usable: all are but those whose numbers, from 1, are
// `without`. A number past the last line is passed over. The faults are those of `place_in`.
fn all_but(alloc: Global, count: usize, without: &[&str]) -> Result<Vec<bool>, CallFault>
    ensures { IfOk result (λ usable. length usable.items ≡ count) }
{
    let places = places_of(alloc, without)?;
    let mut usable = Vec::new(alloc);
    for i in 0..count {
        usable.push(!has(&places, i))?;
    }
    Ok(usable)
}

// The places, from 0, of the lines that these numbers, from 1, name. The faults are those of
// `place_in`.
fn places_of(alloc: Global, numbers: &[&str]) -> Result<Vec<usize>, CallFault> {
    let mut places = Vec::new(alloc);
    for number in numbers {
        places.push(place_in(number)?)?;
    }
    Ok(places)
}

// Whether the place is one of these, so that its line is left out.
fn has(places: &[usize], place: usize) -> bool {
    places.contains(&place)
}

/// What the checker says of the tree of a file for a record. That is `valid`, or the number of the first
/// leaf that is not, with that of its step, if one is to blame. What the tree is to show, a weight or
/// that there is no correction, stands in its own head. `CallFault::Steps` where the file has no
/// reading.
pub fn tree_told(alloc: Global, survey: &Survey, row: &Row, tree: &[u8]) -> Result<Texts, CallFault>
    requires { IsRow survey.now.fields row.now }
{
    let (cert, weight) = tree_of(alloc, tree)?;
    let given = lines_of_rules(alloc, survey)?;
    let usable = all_but(alloc, given.len(), &[])?;
    let text = match check_cert(alloc, survey, &given, &usable, row, &cert, weight) {
        Ok(()) => String::from_str(alloc, "valid")?,
        Err(CertFault::Bad { leaf, step: None }) => {
            let leaf = from_one(leaf);
            format!(in alloc; "no leaf {leaf}")?
        }
        Err(
            CertFault::Bad {
                leaf,
                step: Some(step),
            },
        ) => {
            let leaf = from_one(leaf);
            let step = from_one(step);
            format!(in alloc; "no leaf {leaf} step {step}")?
        }
        Err(CertFault::OutOfMemory) => return Err(CallFault::OutOfMemory),
    };
    only_line(alloc, text.into_bytes())
}
