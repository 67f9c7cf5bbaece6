//! One field as elimination looks at it: where its factor stands in the lines, and how a line bounds it.
//! Below, a line's factors stand for the numerical fields, in declared order.
ghost use Rattle.std.specs.Prelude.{◌≡◌, ◌≤◌, length, map};
ghost use Rattle.fraction128.specs.Range.{InRange};
ghost use Rattle.edit_line.specs.Lines.{factor};
ghost use Rattle.edit_line.specs.Places.{place_named};
ghost use Rattle.edit_line.specs.Domains.{domains};
ghost use Rattle.edit_line.specs.Shapes.{domain_with, number_fields, place_in};
ghost use Rattle.linear_elim.specs.Combinations.{determines, is_flat, is_lower, is_upper};

use edit_line::{Line, Place, Shape};

/// A numerical field of a survey's shape, with its place among the numerical fields.
#[derive(Clone, Copy)]
pub(crate) struct Column {
    pub(crate) shape: Shape,
    pub(crate) field: u32,
    place: usize,
    pub ghost at: { place ≡ place_in (number_fields (domains shape)) field },
}

impl Column {
    /// The column of the field of this number, from 0. Where it is not numerical, no line has a factor
    /// at its place, and each counts as 0. No memory.
    pub(crate) fn of(shape: Shape, field: u32) -> Column
        ensures shape { result.shape ≡ shape }
        ensures field { result.field ≡ field }
    {
        Column {
            shape,
            field,
            place: place_in(shape.code_counts(), field),
        }
    }

    /// The line's factor at the field, 0 where that is not numerical. No memory.
    pub(crate) fn factor(&self, line: &Line) -> i128
        requires { line.now.shape ≡ domains self.now.shape }
        ensures value { result ≡ factor line.now self.now.field }
        ensures in_range { InRange result }
    {
        match line.factors().get(self.place) {
            Some(factor) => *factor,
            None => 0,
        }
    }

    /// Whether the line bounds the field from below: its factor there is above 0. No memory.
    pub(crate) fn is_lower(&self, line: &Line) -> bool
        requires { line.now.shape ≡ domains self.now.shape }
        ensures { result ≡ is_lower self.now.field line.now }
    {
        self.factor(line) > 0
    }

    /// Whether the line bounds the field from above: its factor there is below 0. No memory.
    pub(crate) fn is_upper(&self, line: &Line) -> bool
        requires { line.now.shape ≡ domains self.now.shape }
        ensures { result ≡ is_upper self.now.field line.now }
    {
        self.factor(line) < 0
    }

    /// Whether the field does not stand in the line: its factor there is 0. Such a line needs no
    /// elimination. No memory.
    pub(crate) fn is_flat(&self, line: &Line) -> bool
        requires { line.now.shape ≡ domains self.now.shape }
        ensures { result ≡ is_flat self.now.field line.now }
    {
        self.factor(line) == 0
    }

    /// Whether the line is an equality in which the field stands, so that it tells the field's value by
    /// those of the others. No memory.
    pub(crate) fn determines(&self, line: &Line) -> bool
        requires { line.now.shape ≡ domains self.now.shape }
        ensures { result ≡ determines self.now.field line.now }
    {
        line.relation().is_equal() && !self.is_flat(line)
    }

    /// The name of a place, from 0, among a line's factors and the constant behind them: the field of
    /// the factor, or the constant. By it an overflow is told. No memory.
    pub(crate) fn place_at(&self, place: usize) -> Place
        ensures { result ≡ place_named (number_fields (domains self.now.shape)) place }
    {
        place_at(self.shape.code_counts(), place)
    }
}

// The name of a place among the factors and the constant behind them. `counts` has the number of codes
// of each field. Factors stand beside the numerical fields, which have 0 codes.
fn place_at(counts: &[u8], place: usize) -> Place
    requires { length counts.now ≤ 64 }
    ensures { result ≡ place_named (number_fields (map domain_with counts.now)) place }
{
    let mut left = place;
    for (i, count) in counts.iter().enumerate() {
        if *count == 0 {
            if left == 0 {
                return Place::Field(i as u32);
            }
            left -= 1;
        }
    }
    Place::Constant
}

// The place of the field among the numerical fields, from 0; their number where it is none of them.
// `counts` has the number of codes of each field, which is 0 for a numerical one.
fn place_in(counts: &[u8], field: u32) -> usize
    requires { length counts.now ≤ 64 }
    ensures { result ≡ place_in (number_fields (map domain_with counts.now)) field }
{
    let mut place = 0;
    for (i, count) in counts.iter().enumerate() {
        if *count == 0 {
            if i as u32 == field {
                return place;
            }
            place += 1;
        }
    }
    place
}
