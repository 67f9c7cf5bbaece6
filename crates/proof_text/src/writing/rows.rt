//! The lines of a record, appended: its head, which says what was found of it, and the leaves of its tree.
//!
//! `shared` is the number of the lines of the rules, behind which those of a table are numbered. It is None
//! where the file has no table.
//!
//! In contracts, `IsSizedRow` and its like say that each number of the text fits its type, and each list
//! is counted by 64 bits.
ghost use Rattle.std.specs.Prelude.{◌≡◌, ◌++◌, OnOk};
ghost use Rattle.proof_grammar.specs.Limits.{IsEvent, IsGift, IsLong};
ghost use Rattle.proof_grammar.specs.ProofLines.{change_lines_in, event_line, line_text, lines_text, row_lines_in};
ghost use Rattle.proof_grammar.specs.Sizes.{AreSizedLeaves, IsSizedChange, IsSizedRow};
ghost use Rattle.proof_text.specs.inner.Texts.{gift_text};

use super::leaves::write_leaves;
use super::words::{write_named, write_number, write_path, write_place};
use bound_cert::{Cert, Event, GiftFault, Outcome, Path, RowProof};
use foundation::OutOfMemory;

/// Appends the lines of a row: its head, and its leaves where it has a tree.
pub(super) fn write_row(
    text: &mut Vec<u8>,
    shared: Option<u64>,
    row: &RowProof,
) -> Result<(), OutOfMemory>
    ensures text { OnOk result (text.new.items ≡ text.old.items ++ lines_text (row_lines_in shared row.now)) }
    ensures sized { OnOk result (IsSizedRow row.now) }
{
    match &row.outcome {
        Outcome::Change { path, weight, cert } => match &row.gift {
            None => write_change(text, shared, path, *weight, cert),
            Some(fault) => write_gift(text, shared, path, *weight, fault, cert),
        },
        Outcome::Budget { path, work } => {
            text.extend_from_slice(b"budget")?;
            write_path(text, path)?;
            write_number(text, *work)?;
            text.push(b'\n')?;
            Ok(())
        }
        Outcome::Overflow { path, event } => write_event(text, path, event),
        Outcome::Contradictory { cert } => {
            text.extend_from_slice(b"contradictory")?;
            write_leaves(text, shared, cert.leaves.as_slice())
        }
    }
}

// Appends the lines of a change whose values were all given. One of weight 0 is a clean record, written as
// `clean` alone: its path and its one leaf say nothing.
fn write_change(
    text: &mut Vec<u8>,
    shared: Option<u64>,
    path: &Path,
    weight: u64,
    cert: &Cert,
) -> Result<(), OutOfMemory>
    ensures text { OnOk result (text.new.items ≡ text.old.items ++ lines_text (change_lines_in shared path.now weight cert.now.leaves)) }
    ensures sized { OnOk result (IsSizedChange weight cert.now.leaves) }
{
    if weight == 0 {
        text.extend_from_slice(b"clean\n")?;
        return Ok(());
    }
    text.extend_from_slice(b"change")?;
    write_number(text, weight)?;
    write_path(text, path)?;
    write_leaves(text, shared, cert.leaves.as_slice())
}

// Appends the lines of a change without values: `fault` says which number left the range while they were
// given.
fn write_gift(
    text: &mut Vec<u8>,
    shared: Option<u64>,
    path: &Path,
    weight: u64,
    fault: &GiftFault,
    cert: &Cert,
) -> Result<(), OutOfMemory>
    ensures text { OnOk result (text.new.items ≡ text.old.items ++ gift_text shared path.now weight fault.now cert.now.leaves) }
    ensures sized { OnOk result (IsLong weight × IsGift fault.now × AreSizedLeaves cert.now.leaves) }
{
    text.extend_from_slice(b"gift")?;
    write_number(text, weight)?;
    write_path(text, path)?;
    match fault {
        GiftFault::Bound { field, line } => {
            write_named(text, *field as u64)?;
            write_named(text, *line)?;
        }
        GiftFault::Test { rule } => {
            text.extend_from_slice(b" 0")?;
            write_named(text, *rule as u64)?;
        }
    }
    write_leaves(text, shared, cert.leaves.as_slice())
}

// Appends the line of a search that ended at this path, where a number left the range. It begins with
// `step` where two lines were combined, and with `test` where a line was tested.
fn write_event(text: &mut Vec<u8>, path: &Path, event: &Event) -> Result<(), OutOfMemory>
    ensures text { OnOk result (text.new.items ≡ text.old.items ++ line_text (event_line path.now event.now)) }
    ensures sized { OnOk result (IsEvent event.now) }
{
    match event {
        Event::Step {
            first,
            second,
            place,
        } => {
            text.extend_from_slice(b"step")?;
            write_path(text, path)?;
            write_named(text, *first)?;
            write_named(text, *second)?;
            write_place(text, *place)?;
        }
        Event::Test { line, field } => {
            text.extend_from_slice(b"test")?;
            write_path(text, path)?;
            write_named(text, *line)?;
            write_named(text, *field as u64)?;
        }
    }
    text.push(b'\n')?;
    Ok(())
}
