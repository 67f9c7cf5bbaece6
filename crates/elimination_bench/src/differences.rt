//! The generated edits that the bench eliminates fields from, and the survey that they are over.
ghost use Rattle.std.specs.Prelude.{◌≡◌, ◌<◌, ◌≤◌, ◌%◌, ◌+◌, ◌++◌, [], ◌∷◌, IfOk, IsTrue, OnOk, codes};
ghost use Rattle.edit_line.specs.EditSets.{edits_of};
ghost use Rattle.edit_line.specs.Domains.{domains};
ghost use Rattle.edit_line.specs.Shapes.{Categorical, Numerical, domain_of, shape_of};
ghost use Rattle.edit_model.specs.Surveys.{IsField, is_letter};
ghost use Rattle.elimination_bench.specs.inner.Differences.{count_of, difference, difference_line, differences, lower_field, next_draw, numbers_of, set_of, shape_with, upper_field};

use edit_line::{Edits, Line, Relation, Shape};
use edit_model::{Field, Kind, Name, Survey};
use foundation::{OutOfMemory, Sequence};
use std::alloc::Global;

/// Names of numerical fields, each of one letter. `G` is left for the field of codes.
const LETTERS: &[u8; 32] = b"abcdefghijklmnopqrstuvwxyzABCDEF";

/// The first number that is drawn.
const FIRST_DRAW: u32 = 1;

/// A generated system of edits. For each ordered pair of numerical fields x and y it has
/// `x - y + c >= 0`, with a drawn number c from 0 to 999: `n (n - 1)` lines over n fields. When a field
/// is eliminated, each of its n - 1 lower lines is combined with each of its n - 1 upper ones. Of these
/// pairs n - 1 give trivial lines, and of two lines on the same two fields the tighter stays. So a
/// system of the same form over n - 1 fields is left, where no set of codes stands in a line.
#[derive(Clone, Copy)]
pub enum Differences {
    /// Over 32 fields, whatever the code.
    Plain,
    /// Over 20 fields, each line for some of 8 codes, which are drawn.
    Coded,
}

impl Differences {
    /// How many numerical fields there are. Behind them comes one field of 8 codes.
    pub fn numbers(self) -> usize
        ensures { result ≡ numbers_of self }
    {
        match self {
            Differences::Plain => 32,
            Differences::Coded => 20,
        }
    }

    /// The edits, generated from `FIRST_DRAW`: the same ones at each run. Each is numbered by its place,
    /// from 0.
    pub fn edits(self, alloc: Global) -> Result<Edits, OutOfMemory>
        ensures { IfOk result (λ edits. edits ≡ edits_of (shape_with (numbers_of self)) (differences self (count_of self))) }
    {
        let numbers = self.numbers();
        let survey = survey_of(alloc, numbers)?;
        let shape = Shape::of(&survey);
        let mut lines = Vec::new(alloc);
        let mut draw = FIRST_DRAW;
        for place in 0..numbers * (numbers - 1) {
            lines.push((place as u32, self.line(alloc, shape, place, draw)?))?;
            draw = next_draw(draw);
        }
        Edits::new(alloc, &survey, lines)
    }

    // The line at `place` in the list, from 0. `draw` is the number that is drawn for it, from which its
    // constant and its set of codes come.
    fn line(self, alloc: Global, shape: Shape, place: usize, draw: u32) -> Result<Line, OutOfMemory>
        requires shape { domains shape ≡ shape_with (numbers_of self) }
        requires place { place < count_of self }
        ensures { IfOk result (λ line. line ≡ difference_line self place draw) }
    {
        let numbers = self.numbers();
        let lower = lower_field(numbers, place);
        let upper = upper_field(numbers, place);
        let factors = difference(alloc, numbers, lower, upper)?;
        let mut sets = Vec::new(alloc);
        sets.push(self.code_set(draw))?;
        let constant = i128::from(draw % 1000);
        Ok(Line::over(shape, sets, factors, constant, Relation::AtLeast))
    }

    // The set of codes, as bits, of a line for which this number is drawn. It is whole (255) for
    // `Plain`, and for `Coded` never empty.
    fn code_set(self, draw: u32) -> u64
        ensures { result ≡ set_of self draw }
    {
        match self {
            Differences::Plain => 255,
            Differences::Coded => 1 + u64::from(draw % 255),
        }
    }
}

// The number that is drawn after this one, by a linear congruence. It stays below 65537.
fn next_draw(draw: u32) -> u32
    requires { draw < 65537 }
    ensures next { result ≡ next_draw draw }
    ensures below { result < 65537 }
{
    (75 * draw + 74) % 65537
}

// The number, from 0, of the field that the line at `place` bounds from below. Each of the `numbers`
// fields has `numbers - 1` lines in turn.
fn lower_field(numbers: usize, place: usize) -> usize
    requires { 2 ≤ numbers }
    ensures { result ≡ lower_field numbers place }
{
    place / (numbers - 1)
}

// The number, from 0, of the field that the line at `place` bounds from above: each field in turn but
// its lower one.
fn upper_field(numbers: usize, place: usize) -> usize
    requires { 2 ≤ numbers }
    ensures { result ≡ upper_field numbers place }
{
    let other = place % (numbers - 1);
    if other < lower_field(numbers, place) {
        other
    } else {
        other + 1
    }
}

// The factors, one for each of `numbers` fields, of the difference of the fields `i` and `j`, which are
// numbered from 0. They are 1 for `i`, -1 for `j`, and 0 elsewhere.
fn difference(alloc: Global, numbers: usize, i: usize, j: usize) -> Result<Vec<i128>, OutOfMemory>
    requires i { i < numbers }
    requires j { j < numbers }
    ensures { IfOk result (λ factors. factors.items ≡ difference numbers i j) }
{
    let mut factors = vec![in alloc; 0; numbers]?;
    factors[i] = 1;
    factors[j] = -1;
    Ok(factors)
}

/// A survey of `numbers` numerical fields and, behind them, a field of 8 codes. It has no rules.
pub fn survey_of(alloc: Global, numbers: usize) -> Result<Survey, OutOfMemory>
    requires { numbers ≤ 32 }
    ensures { IfOk result (λ survey. shape_of survey.fields ≡ shape_with numbers) }
{
    let mut fields = Vec::new(alloc);
    for i in 0..numbers {
        fields.push(number_field(LETTERS[i]))?;
    }
    fields.push(code_field(alloc)?)?;
    Survey::of(alloc, fields, Vec::new(alloc))
}

// The numerical field with this letter for its name.
fn number_field(letter: u8) -> Field
    requires { IsTrue (is_letter letter) }
    ensures domain { domain_of result.kind ≡ Numerical }
    ensures name { result.name ≡ letter ∷ [] }
    ensures form { IsField result }
{
    Field {
        name: name_of(letter),
        weight: 1,
        kind: Kind::Number { scale: 1 },
    }
}

// The field `G` of the codes a to h.
fn code_field(alloc: Global) -> Result<Field, OutOfMemory>
    ensures domain { IfOk result (λ field. domain_of field.kind ≡ Categorical 8) }
    ensures name { IfOk result (λ field. field.name ≡ codes "G") }
    ensures form { IfOk result (λ field. IsField field) }
{
    let codes = vec![in alloc;
        name_of(b'a'),
        name_of(b'b'),
        name_of(b'c'),
        name_of(b'd'),
        name_of(b'e'),
        name_of(b'f'),
        name_of(b'g'),
        name_of(b'h'),
    ]?;
    Ok(Field {
        name: name_of(b'G'),
        weight: 1,
        kind: Kind::Code {
            codes: Sequence::from_vec(codes),
        },
    })
}

// The name that is this one letter, which is in form as a name.
fn name_of(letter: u8) -> Name
    ensures { result ≡ letter ∷ [] }
{
    match Name::new(&[letter]) {
        Some(name) => name,
        None => unreachable!(),
    }
}
