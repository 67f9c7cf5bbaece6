//! A file of cases, read line by line: its commands, each with the output that is to come of it. A step is
//! one such command. Each call named `take_` reads one line, and answers what the next line may be.

use crate::command::Command;
use crate::commands::Commands;
use crate::fault::{FormFault, Kind, PartFault};
use crate::spelling::read_line;
use crate::words::words_of;
use std::alloc::Global;

/// A command of a file of cases, with the output that is to come of it.
#[derive(Drop)]
pub struct Step<'a> {
    /// The number of the line that it stands in, from 1.
    pub number: u64,
    /// The command as it stands there.
    pub text: &'a str,
    /// The command.
    pub command: Command<'a>,
    /// The lines of its output, in the spelling of the form.
    pub expected: Vec<&'a [u8]>,
}

/// What the next line of a file of cases may be, by the lines before it.
#[derive(Clone, Copy)]
enum Place {
    /// Commentary or a command; output would be of no command.
    Apart,
    /// Commentary, a command, or output of the last command.
    Behind,
    /// A line of the file that the last command writes, or the end of it.
    Within,
    /// The end of the file that the last command writes.
    AtEnd,
}

/// Reads the bytes of a file of cases: its commands, in order, each with its output. Those beside the
/// commands of files are `C`'s. The first line that is not in form is told by its number, from 1. Where a
/// `cat >NAME <<EOF` has no end, the last line of the file is told.
pub fn steps_of<'a, C: Commands>(
    alloc: Global,
    bytes: &'a [u8],
) -> Result<Vec<Step<'a>>, FormFault> {
    let mut steps = Vec::new(alloc);
    let mut place = Place::Apart;
    let mut last = 0;
    for (index, line) in bytes.split(|byte| *byte == b'\n').enumerate() {
        last = (index as u64).saturating_add(1);
        place = take_line::<C>(alloc, &mut steps, place, last, line).map_err(|fault| fault.at(
            last,
        ))?;
    }
    match place {
        Place::Apart | Place::Behind => Ok(steps),
        Place::Within | Place::AtEnd => Err(PartFault::from(Kind::NoEnd).at(last)),
    }
}

// Reads the line of this number, from 1, into `steps`, and says what the next line may be. `place` says
// what this one may be. Outside of the lines of a file that a command writes, one that begins with `  $ `
// is a command. Another one with two spaces in front is output, and the rest is commentary. The faults
// are those of reading these.
fn take_line<'a, C: Commands>(
    alloc: Global,
    steps: &mut Vec<Step<'a>>,
    place: Place,
    number: u64,
    line: &'a [u8],
) -> Result<Place, PartFault> {
    if matches!(place, Place::Within | Place::AtEnd) {
        return take_text(steps, place, line);
    }
    if let Some(command) = line.strip_prefix(b"  $ ") {
        return take_command::<C>(alloc, steps, number, command);
    }
    match line.strip_prefix(b"  ") {
        None => Ok(Place::Apart),
        Some(output) => take_output(steps, place, output),
    }
}

// Reads a command, which stands in the line of this number, and puts it last, with no output yet. Behind
// `cat >NAME <<EOF` the lines of the file have to follow. `Kind::NoText` where the command is no UTF-8;
// else the faults are those of `words_of` and of `Command::of`.
fn take_command<'a, C: Commands>(
    alloc: Global,
    steps: &mut Vec<Step<'a>>,
    number: u64,
    command: &'a [u8],
) -> Result<Place, PartFault> {
    let Ok(text) = str::from_utf8(command) else {
        return Err(PartFault::from(Kind::NoText));
    };
    let words = words_of(alloc, text)?;
    let command = Command::of::<C>(alloc, &words)?;
    let place = match &command {
        Command::Write { .. } => Place::Within,
        _ => Place::Behind,
    };
    steps.push(Step {
        number,
        text,
        command,
        expected: Vec::new(alloc),
    })?;
    Ok(place)
}

// Reads a line of the file that the last command writes, or the end of it. Behind a line without a line
// feed (`AtEnd`) only the end may stand. `Kind::NoEnd` where another line stands there, or one that does
// not begin with `  > ` (an empty one may be `  >`). `Kind::Spelling` where its bytes are not spelled in
// form.
fn take_text(steps: &mut Vec<Step>, place: Place, line: &[u8]) -> Result<Place, PartFault> {
    let Some(behind) = line.strip_prefix(b"  >") else {
        return Err(PartFault::from(Kind::NoEnd));
    };
    let text = match behind.strip_prefix(b" ") {
        Some(text) => text,
        None if behind.is_empty() => behind,
        None => return Err(PartFault::from(Kind::NoEnd)),
    };
    if text == b"EOF".as_slice() {
        return Ok(Place::Behind);
    }
    if place == Place::AtEnd {
        return Err(PartFault::from(Kind::NoEnd));
    }
    let Some(step) = steps.last_mut() else {
        return Err(PartFault::from(Kind::Output));
    };
    let Command::Write { bytes, .. } = &mut step.command else {
        return Err(PartFault::from(Kind::Output));
    };
    if read_line(bytes, text)? {
        Ok(Place::Within)
    } else {
        Ok(Place::AtEnd)
    }
}

// Reads a line of the output that is to come of the last command. `Kind::Output` where commentary stands
// between them (`place` is `Apart`), or there is no command.
fn take_output<'a>(
    steps: &mut Vec<Step<'a>>,
    place: Place,
    output: &'a [u8],
) -> Result<Place, PartFault> {
    if place == Place::Apart {
        return Err(PartFault::from(Kind::Output));
    }
    let Some(step) = steps.last_mut() else {
        return Err(PartFault::from(Kind::Output));
    };
    step.expected.push(output)?;
    Ok(Place::Behind)
}
