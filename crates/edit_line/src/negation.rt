//! The negation of a line that is no equality, as lines: whether a rule follows from others is tried by
//! adding its negation to them.
ghost use Rattle.std.specs.Prelude.{◌≡◌, ◌≢◌, ◌<◌, ◌↔◌, ◌++◌, All, IfOk, OnOk, length, map, neg_ℤ, slice_index_or};
ghost use Rattle.edit_line.specs.inner.OutsideLines.{outside_line};
ghost use Rattle.fraction128.specs.Range.{InRange};
ghost use Rattle.edit_model.specs.Points.{Point};
ghost use Rattle.edit_line.specs.Lines.{AllHold, IsLine, LineHolds};
ghost use Rattle.edit_line.specs.Negations.{contrary, negation_of, never};
ghost use Rattle.edit_line.specs.Sets.{AreSets};
ghost use Rattle.edit_line.specs.declared.relation.Relation.TheVariants.{Equal};
ghost use Rattle.edit_line.specs.Shapes.{HasCodes, whole_sets};

use crate::line::Line;
use crate::relation::Relation;
use foundation::OutOfMemory;
use std::alloc::Global;

impl Line {
    /// The negation of a line that is no equality, as lines. By the first, the negative of the sum is
    /// above 0, or at least 0 where the line's sum has to be above it. By the others, one for each set
    /// that is not whole, the field has no code outside the set. At a point with codes of their fields
    /// these all hold exactly where the line does not.
    pub fn negation(&self, alloc: Global) -> Result<Vec<Line>, OutOfMemory>
        requires { self.now.relation ≢ Equal }
        ensures exact { IfOk result (λ negation. negation.items ≡ negation_of self.now) }
        ensures lines { IfOk result (λ negation. All IsLine negation.items) }
        ensures contrary { IfOk result (λ negation. (p : Point)
            → HasCodes 0 self.now.shape p → AllHold negation.items p ↔ (¬ LineHolds self.now p)) }
    {
        let wholes = self.shape().whole_sets(alloc)?;
        let sets = self.sets();
        let mut negation = Vec::new(alloc);
        negation.push(contrary_line(alloc, self, &wholes)?)?;
        for (place, set) in sets.iter().enumerate() {
            push_never(alloc, &mut negation, self, &wholes, place, *set)?;
        }
        Ok(negation)
    }
}

// The first line of a negation, which speaks of numbers, for all codes: the negative of the given
// line's sum is above 0. It is only at least 0 where the given line asks for a sum above 0. `wholes`
// are the sets of all codes.
fn contrary_line(alloc: Global, line: &Line, wholes: &[u64]) -> Result<Line, OutOfMemory>
    requires { wholes.now ≡ whole_sets line.now.shape }
    ensures { IfOk result (λ other. other ≡ contrary line.now) }
{
    let _fit = line.sets(); // read for what it says
    let sets = Vec::from_slice(alloc, wholes)?;
    let factors = negatives(alloc, line.factors())?;
    Ok(Line::over(
        line.shape(),
        sets,
        factors,
        negative(line.constant()),
        line.relation().contrary_relation(),
    ))
}

// The negative of each number.
fn negatives(alloc: Global, numbers: &[i128]) -> Result<Vec<i128>, OutOfMemory>
    requires { All InRange numbers.now }
    ensures { IfOk result (λ others. others.items ≡ map neg_ℤ numbers.now) }
{
    let mut others = Vec::with_capacity(alloc, numbers.len())?;
    for number in numbers {
        others.push(negative(*number))?;
    }
    Ok(others)
}

// The negative of a number in range, which is in range too.
fn negative(number: i128) -> i128
    requires { InRange number }
    ensures value { result ≡ neg_ℤ number }
    ensures in_range { InRange result }
{
    -number
}

// Appends the line that says that the code of the field at the place is never outside its set `set`.
// Where the set is whole it appends none. The place is that among the categorical fields, from 0.
// `wholes` are the sets of all codes.
fn push_never(
    alloc: Global,
    negation: &mut Vec<Line>,
    line: &Line,
    wholes: &[u64],
    place: usize,
    set: u64,
) -> Result<(), OutOfMemory>
    requires wholes { wholes.now ≡ whole_sets line.now.shape }
    requires place { place < length line.now.sets }
    requires set { set ≡ slice_index_or line.now.sets place 0 }
    ensures { OnOk result (negation.new.items
        ≡ negation.old.items ++ outside_line line.now.shape place set (slice_index_or wholes.now place 0)) }
{
    let _fit = line.sets(); // read for what it says
    let whole = wholes[place];
    if set != whole {
        let mut sets = Vec::from_slice(alloc, wholes)?;
        sets[place] = whole ^ set;
        negation.push(never_line(alloc, line, sets)?)?;
    }
    Ok(())
}

// The line that says that the codes are never in all of `sets`. Where they are, it asks that -1 is at
// least 0, which never holds. It is over the shape of `line`.
fn never_line(alloc: Global, line: &Line, sets: Vec<u64>) -> Result<Line, OutOfMemory>
    requires { AreSets sets.items (whole_sets line.now.shape) }
    ensures { IfOk result (λ other. other ≡ never line.now.shape sets.items) }
{
    let factors = vec![in alloc; 0; line.factors().len()]?;
    Ok(Line::over(line.shape(), sets, factors, -1, Relation::AtLeast))
}
