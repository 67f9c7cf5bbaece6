//! Whether what came of a command, its output, is what was to come, as the file of cases has it, and how
//! both differ. All lines are as a file of cases spells them.
ghost use Rattle.std.specs.Prelude.{◌≡◌, map};
ghost use Rattle.case_files.specs.Comparison.{are_same};

use foundation::OutOfMemory;
use std::alloc::Global;

/// Whether the lines that came are those that were expected, all of them and in the same order.
pub fn is_same(expected: &[&[u8]], came: &[Vec<u8>]) -> bool
    ensures { result ≡ are_same (map (λ line. line.now) expected.now) (map (λ line. line.items) came.now) }
{
    if expected.len() != came.len() {
        return false;
    }
    for i in 0..expected.len() {
        if expected[i] != came[i].as_slice() {
            return false;
        }
    }
    true
}

/// How the lines that came differ from those that were to come, as lines to be printed, without line
/// feeds. Equal lines at both ends are left out. Of the others, those that were to come stand first,
/// with `-` in front, and then those that came, with `+`.
pub fn difference(
    alloc: Global,
    expected: &[&[u8]],
    came: &[Vec<u8>],
) -> Result<Vec<Vec<u8>>, OutOfMemory> {
    let head = expected
        .iter()
        .zip(came)
        .take_while(|(expected, came)| **expected == came.as_slice())
        .count();
    let expected = &expected[head.min(expected.len())..];
    let came = &came[head.min(came.len())..];
    let tail = expected
        .iter()
        .rev()
        .zip(came.iter().rev())
        .take_while(|(expected, came)| **expected == came.as_slice())
        .count();
    let mut lines = Vec::new(alloc);
    for line in &expected[..expected.len().saturating_sub(tail)] {
        lines.push(marked_line(alloc, b'-', line)?)?;
    }
    for line in &came[..came.len().saturating_sub(tail)] {
        lines.push(marked_line(alloc, b'+', line)?)?;
    }
    Ok(lines)
}

// The line with the byte `mark` in front of it: `-` for one that was to come, `+` for one that came.
fn marked_line(alloc: Global, mark: u8, line: &[u8]) -> Result<Vec<u8>, OutOfMemory> {
    let mut text = Vec::new(alloc);
    text.push(mark)?;
    text.extend_from_slice(line)?;
    Ok(text)
}
