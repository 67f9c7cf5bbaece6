//! Changes of a file by its lines, as `sed` makes them.

use crate::fault::{Kind, PartFault};
use crate::numbers::number_of;
use crate::spelling::read_escaped;
use foundation::OutOfMemory;
use std::alloc::Global;

/// What becomes of a line.
#[derive(Drop)]
pub enum Change {
    /// The text stands in its place.
    Replace { text: Vec<u8> },
    /// It is left out.
    Delete,
    /// The text stands behind it.
    Append { text: Vec<u8> },
}

/// A change of the line of this number, from 1. A text may stand behind line 0, before the first.
#[derive(Drop)]
pub struct LineEdit {
    line: u64,
    change: Change,
}

impl LineEdit {
    /// The change that a script of `sed` asks for: `Nc\TEXT`, `Nd` or `Na\TEXT`, with a text as
    /// [`read_escaped`] reads it. They replace a line, leave it out, or put the text behind it. N is from
    /// 1, and for `a` from 0. `Kind::Command` where the script has another form, and `Kind::Spelling`
    /// where its text is out of form.
    pub fn read(alloc: Global, script: &str) -> Result<LineEdit, PartFault> {
        let Some((head, text)) = script.split_once('\\') else {
            let Some(line) = script.strip_suffix('d') else {
                return Err(PartFault::from(Kind::Command));
            };
            return Ok(LineEdit {
                line: line_number(line, 1)?,
                change: Change::Delete,
            });
        };
        let text = unescaped_line(alloc, text)?;
        if let Some(line) = head.strip_suffix('c') {
            return Ok(LineEdit {
                line: line_number(line, 1)?,
                change: Change::Replace { text },
            });
        }
        let Some(line) = head.strip_suffix('a') else {
            return Err(PartFault::from(Kind::Command));
        };
        Ok(LineEdit {
            line: line_number(line, 0)?,
            change: Change::Append { text },
        })
    }

    /// The number of the line that is changed, from 1, or 0 for the beginning of the file.
    pub fn line(&self) -> u64 {
        self.line
    }
}

// The number of a line that the text writes. `Kind::Command` where it is no number, or is below `least`,
// the first line that the change may name.
fn line_number(text: &str, least: u64) -> Result<u64, Kind> {
    match number_of(text) {
        Some(number) if number >= least => Ok(number),
        _ => Err(Kind::Command),
    }
}

// The bytes of the escaped text of a script, with a line feed behind them, so that they are whole lines.
// `Kind::Spelling` where the text is out of form.
fn unescaped_line(alloc: Global, text: &str) -> Result<Vec<u8>, PartFault> {
    let mut bytes = Vec::new(alloc);
    read_escaped(&mut bytes, text.as_bytes())?;
    bytes.push(b'\n')?;
    Ok(bytes)
}

/// How many lines these bytes have. A last one without a line feed counts; no bytes have no line.
pub fn line_count(bytes: &[u8]) -> u64 {
    bytes.split_inclusive(|byte| *byte == b'\n').count() as u64
}

/// The bytes with all these changes of their lines made. Lines have the numbers that they have before any
/// change. Of two changes that leave out or take the place of one line, the first holds. Texts behind one
/// line all stand there, in order. A change of a line that is not there does nothing.
pub fn change_lines(
    alloc: Global,
    bytes: &[u8],
    edits: &[LineEdit],
) -> Result<Vec<u8>, OutOfMemory> {
    let mut new = Vec::new(alloc);
    append_texts(&mut new, edits, 0)?;
    for (index, line) in bytes.split_inclusive(|byte| *byte == b'\n').enumerate() {
        let number = (index as u64).saturating_add(1);
        match edits
            .iter()
            .find(|edit| edit.line == number && edit.removes_line())
        {
            None => new.extend_from_slice(line)?,
            Some(edit) => new.extend_from_slice(edit.text())?,
        }
        append_texts(&mut new, edits, number)?;
    }
    Ok(new)
}

// Appends the texts that the changes put behind the line of this number, each on lines of its own. The
// number 0 is for those before the first line.
fn append_texts(new: &mut Vec<u8>, edits: &[LineEdit], number: u64) -> Result<(), OutOfMemory> {
    for edit in edits {
        if let Change::Append { text } = &edit.change
            && edit.line == number
        {
            end_line(new)?;
            new.extend_from_slice(text)?;
        }
    }
    Ok(())
}

// Appends a line feed where the last line has none, so that what comes next is a line of its own.
fn end_line(new: &mut Vec<u8>) -> Result<(), OutOfMemory> {
    match new.last() {
        None | Some(b'\n') => {}
        Some(_) => new.push(b'\n')?,
    }
    Ok(())
}

impl LineEdit {
    // Whether the line itself goes: it is left out, or another text stands in its place.
    fn removes_line(&self) -> bool {
        !matches!(self.change, Change::Append { .. })
    }

    // The text that the change gives, which is empty where it leaves a line out.
    fn text(&self) -> &[u8] {
        match &self.change {
            Change::Replace { text } | Change::Append { text } => text.as_slice(),
            Change::Delete => b"",
        }
    }
}
