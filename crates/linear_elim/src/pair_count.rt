//! How many pairs of lines one step of elimination combines, counted before the step is taken: the work
//! that it asks for. A line bounds the field from below where its factor there is above 0, and from
//! above where it is below 0. Places are those in the list that the step takes, from 0.
ghost use Rattle.std.specs.Prelude.{◌≡◌, ◌≤◌, length};
ghost use Rattle.edit_line.specs.Reductions.{lines_of};
ghost use Rattle.edit_line.specs.Domains.{domains};
ghost use Rattle.linear_elim.specs.Steps.{OneShape, is_opposite, made, pairs_count, row_count, rows_count, substituted_count};

use crate::column::Column;
use crate::step_lines::StepLines;
use crate::substitution::{first_equality, is_substituted};
use edit_line::{Derived, Line, all_meet};

/// The number of pairs of lines that the step at the field combines. Where an equality has the field,
/// the first such equality makes a pair with each other line that has it. Else a pair is a line that
/// bounds the field from below and one that bounds it from above, where all their sets meet. A list
/// without lines has none. The lines are over one survey's fields. No memory.
pub fn pairs(lines: &[Derived], field: u32) -> u128
    requires { OneShape lines.now }
    ensures exact { result ≡ pairs_count lines.now field }
    ensures made { result ≡ length (made (lines_of lines.now) field) }
{
    let Some(head) = lines.first() else {
        return 0;
    };
    let column = Column::of(head.line.shape(), field);
    let given = StepLines { column, lines };
    match first_equality(&given) {
        Some(place) => substitutions(&given, place) as u128,
        None => opposite_pairs(&given),
    }
}

// The number of lines into which the equality at the place `equality` is substituted: those in which
// the field stands, but itself.
fn substitutions(given: &StepLines, equality: usize) -> usize
    ensures { result ≡ substituted_count given.now.column.field equality 0 given.now.lines.now }
{
    let mut count = 0;
    for (place, t) in given.lines.iter().enumerate() {
        count += usize::from(is_substituted(&given.column, equality, place, &t.line));
    }
    count
}

// The number of opposite pairs: of lines that bound the field from below and from above, and whose sets all
// meet.
fn opposite_pairs(given: &StepLines) -> u128
    ensures { result ≡ rows_count given.now.column.field given.now.lines.now given.now.lines.now }
{
    let mut pairs = 0;
    for s in given.lines {
        pairs += row_pairs(given, s) as u128;
    }
    pairs
}

// The number of lines that are opposite to the line `s`: the pairs that it makes. It is 0 where `s`
// does not bound the field from below.
fn row_pairs(given: &StepLines, s: &Derived) -> usize
    requires s_over { s.now.line.shape ≡ domains given.now.column.shape }
    ensures count { result ≡ row_count given.now.column.field given.now.lines.now s.now }
    ensures few { result ≤ length given.now.lines.now }
{
    if !given.column.is_lower(&s.line) {
        return 0;
    }
    let mut count = 0;
    for t in given.lines {
        count += usize::from(is_opposite(&given.column, &s.line, &t.line));
    }
    count
}

/// Whether the line `t` makes an opposite pair with `s`, which elimination combines. `t` has to bound
/// the column's field from above, and each of its sets has to meet that of `s`. The caller knows that
/// `s` bounds the field from below. No memory.
pub(crate) fn is_opposite(column: &Column, s: &Line, t: &Line) -> bool
    requires s_over { s.now.shape ≡ domains column.now.shape }
    requires t_over { t.now.shape ≡ domains column.now.shape }
    ensures { result ≡ is_opposite column.now.field s.now t.now }
{
    column.is_upper(t) && all_meet(s.sets(), t.sets())
}
