//! One step of elimination: from a list of lines those that are left without one numerical field. A
//! line bounds the field from below where its factor there is above 0, and from above where it is below
//! 0. Two lines are opposite where one does this from below and one from above, and all their sets
//! meet. A line without the field is flat. Places are those in the list that the step takes, from 0.
//!
//! In contracts, `Answers` says that a call gives the lines that the definition has, or tells its first
//! overflow. `TakesIn` says that it takes these lines in among the kept ones. Memory may always be
//! refused. The counts, such as `pairs_count`, are of pairs of lines that are combined, and `OneShape`
//! says that lines are over one survey's fields.
ghost use Rattle.std.specs.Prelude.{◌≡◌, ◌+◌, ◌++◌, ◌≤◌, ◌<◌, [], ◌∷◌, All, OnOk, IfOk, List, true, false, if◌then◌else◌, IfErr, IfSome};
ghost use Rattle.std.specs.List.{fold, slice_get};
ghost use Rattle.edit_line.specs.Combinations.{all_meet};
ghost use Rattle.edit_line.specs.Lines.{HaveShape};
ghost use Rattle.edit_line.specs.Reductions.{AreOwn, lines_of, reduce_derived, with_derived};
ghost use Rattle.edit_line.specs.Domains.{domains};
ghost use Rattle.edit_line.specs.Shapes.{Domain, IsNumerical};
ghost use Rattle.linear_elim.specs.Answers.{Answers};
ghost use Rattle.linear_elim.specs.Combinations.{combine_result, is_flat, is_lower, is_upper};
ghost use Rattle.linear_elim.specs.Origins.{AllComeFrom};
ghost use Rattle.linear_elim.specs.Overflows.{AllPairsFit, IsFirstOverflow};
ghost use Rattle.linear_elim.specs.PointChanges.{LiftedAt};
ghost use Rattle.linear_elim.specs.Steps.{OneShape, collect, flat_from, is_opposite, made_result, opposites, paired};
ghost use Rattle.linear_elim.specs.Steps.{pairs_count, row_count, row_result, rows_count, step_result};
ghost use Rattle.linear_elim.specs.Told.{told_step};
ghost use Rattle.linear_elim.specs.inner.Taken.{TakesIn};
ghost use Rattle.linear_elim.specs.inner.Uppers.{found_count, found_result, pairs_with, places_from};

use crate::column::Column;
use crate::combine::combine;
use crate::fault::StepFault;
use crate::pair_count::is_opposite;
use crate::step_lines::StepLines;
use crate::substitution::{first_equality, take_substitutions};
use edit_line::{Derived, Kept, Line, Origin};
use foundation::{OutOfMemory, Steps};
use std::alloc::Global;
use std::marker::Brand;
use std::sync::ledger::{Blank, Ledger};

/// A line of the given list, and its place there, from 0.
#[derive(Clone, Copy)]
pub(crate) struct Placed<'a> {
    pub(crate) place: usize,
    pub(crate) derived: &'a Derived,
}

/// The lines that a step has kept so far, and a line over the same shape in which it writes the next.
#[derive(Drop)]
pub(crate) struct Work {
    pub(crate) kept: Kept,
    pub(crate) line: Line,
}

/// One step of elimination (Handbook of Statistical Data Editing and Imputation, on error localisation for
/// mixed data). It gives the lines without the field, and then what is made of the others, all reduced.
/// Where an equality has the field, the first such is substituted into each other line that has it. Else,
/// after Fourier and Motzkin, each that bounds it from below is combined with each that bounds it from
/// above, where all sets meet. The lines are over one survey's fields.
///
/// It overflows exactly where a number of a combination is out of range. The fault names the places of the
/// first such pair, an equality first, and the first such number there.
pub fn step(alloc: Global, lines: &[Derived], field: u32) -> Result<Vec<Derived>, StepFault>
    requires { OneShape lines.now }
    ensures exact { Answers (λ v. v.items) told_step result (step_result lines.now field) }
    ensures over { IfOk result (λ v. (shape : List Domain)
        → HaveShape shape (lines_of lines.now) → HaveShape shape (lines_of v.items)) }
    ensures lifts { IfOk result (λ v. (shape : List Domain)
        → HaveShape shape (lines_of lines.now) → IsNumerical shape field → LiftedAt field lines.now v.items) }
    ensures fits { IfOk result (λ v. AllPairsFit lines.now field) }
    ensures overflow { IfErr result (λ fault. IfSome (told_step fault) (λ o. IsFirstOverflow lines.now field o)) }
    ensures origins { IfOk result (λ v. (shape : List Domain) → HaveShape shape (lines_of lines.now) → AllComeFrom lines.now v.items) }
{
    step_from::<Brand>(alloc, lines, field, Blank::new(1))
}

// The step with a counter of its own, which nobody reads. `blank` is one of the ledger `L` (`name`,
// `parts`), from which the counter starts.
fn step_from<L: Ledger>(
    alloc: Global,
    lines: &[Derived],
    field: u32,
    blank: Blank,
) -> Result<Vec<Derived>, StepFault>
    requires name { blank.name ≡ L.name }
    requires parts { blank.parts ≡ L.parts }
    requires counts { 0 < blank.parts }
    requires one_shape { OneShape lines.now }
    ensures exact { Answers (λ v. v.items) told_step result (step_result lines.now field) }
{
    let mut steps = Steps::<L>::start(blank);
    counted_step(alloc, lines, field, &mut steps)
}

// The step over any lines, reduced or not, which [`step`] takes. In `steps`, one is counted for each
// pair of lines that is combined. An empty list has no shape, and gives no lines.
fn counted_step<L: Ledger>(
    alloc: Global,
    lines: &[Derived],
    field: u32,
    steps: &mut Steps<L>,
) -> Result<Vec<Derived>, StepFault>
    requires { OneShape lines.now }
    ensures exact { Answers (λ v. v.items) told_step result (step_result lines.now field) }
{
    let Some(head) = lines.first() else {
        return Ok(Vec::new(alloc));
    };
    let column = Column::of(head.line.shape(), field);
    let given = StepLines { column, lines };
    let flat = flat_lines(alloc, &given)?;
    finish_step(alloc, &given, flat, steps)
}

/// The same step over reduced lines, of which none says what another says. It answers as [`step`] does,
/// and counts one step for each pair that is combined. The lines without the field are not compared with
/// one another, since a part of a reduced list is reduced.
pub fn reduced_step<L: Ledger>(
    alloc: Global,
    lines: &[Derived],
    field: u32,
    steps: &mut Steps<L>,
) -> Result<Vec<Derived>, StepFault>
    requires shape { OneShape lines.now }
    requires own { AreOwn (lines_of lines.now) }
    ensures exact { Answers (λ v. v.items) told_step result (step_result lines.now field) }
    ensures counted { OnOk result (steps.new ≡ steps.old + pairs_count lines.now field) }
    ensures few { steps.new ≤ steps.old + pairs_count lines.now field }
    ensures counts { steps.old ≤ steps.new }
{
    let Some(head) = lines.first() else {
        return Ok(Vec::new(alloc));
    };
    let column = Column::of(head.line.shape(), field);
    let given = StepLines { column, lines };
    let flat = own_flat_lines(alloc, &given)?;
    finish_step(alloc, &given, flat, steps)
}

// What [`step`] answers, from the lines without the field, `flat`: those that the elimination makes are taken
// in among them. One is taken in as soon as it is made, so that no memory is taken for one that another
// line subsumes. `steps` rises by one for each pair that is combined.
fn finish_step<L: Ledger>(
    alloc: Global,
    given: &StepLines,
    flat: Kept,
    steps: &mut Steps<L>,
) -> Result<Vec<Derived>, StepFault>
    requires flat { flat ≡ reduce_derived (flat_from given.now.column.field 0 given.now.lines.now) }
    ensures exact { Answers (λ v. v.items) told_step result (step_result given.now.lines.now given.now.column.field) }
    ensures counted { OnOk result (steps.new ≡ steps.old + pairs_count given.now.lines.now given.now.column.field) }
    ensures few { steps.new ≤ steps.old + pairs_count given.now.lines.now given.now.column.field }
    ensures counts { steps.old ≤ steps.new }
{
    let Some(head) = given.lines.first() else {
        return Ok(flat.into_lines());
    };
    let mut work = Work {
        kept: flat,
        line: head.line.copy(alloc)?,
    };
    take_made(alloc, given, &mut work, steps)?;
    Ok(work.kept.into_lines())
}

// Takes in the lines that the step makes: where an equality has the field, its substitutions; else the
// combinations of opposite lines. Each is written into the line of the work, which is reused.
fn take_made<L: Ledger>(
    alloc: Global,
    given: &StepLines,
    work: &mut Work,
    steps: &mut Steps<L>,
) -> Result<(), StepFault>
    requires work_over { work.old.line.shape ≡ domains given.now.column.shape }
    ensures exact { TakesIn told_step work.old.kept work.new.kept result (made_result given.now.lines.now given.now.column.field) }
    ensures counted { OnOk result (steps.new ≡ steps.old + pairs_count given.now.lines.now given.now.column.field) }
    ensures few { steps.new ≤ steps.old + pairs_count given.now.lines.now given.now.column.field }
    ensures counts { steps.old ≤ steps.new }
{
    match first_equality(given) {
        Some(place) => take_substitutions(alloc, given, place, work, steps),
        None => take_combinations(alloc, given, work, steps),
    }
}

// Takes in the combinations of opposite lines, where no equality has the field: each line that bounds it
// from below with each that bounds it from above and meets its sets.
fn take_combinations<L: Ledger>(
    alloc: Global,
    given: &StepLines,
    work: &mut Work,
    steps: &mut Steps<L>,
) -> Result<(), StepFault>
    requires work_over { work.old.line.shape ≡ domains given.now.column.shape }
    ensures exact { TakesIn told_step work.old.kept work.new.kept result
        (collect (row_result given.now.column.field given.now.lines.now) 0 given.now.lines.now) }
    ensures counted { OnOk result (steps.new ≡ steps.old + rows_count given.now.column.field given.now.lines.now given.now.lines.now) }
    ensures few { steps.new ≤ steps.old + rows_count given.now.column.field given.now.lines.now given.now.lines.now }
    ensures counts { steps.old ≤ steps.new }
{
    let uppers = upper_places(alloc, given)?;
    for (place, derived) in given.lines.iter().enumerate() {
        let s = Placed { place, derived };
        take_line(alloc, given, &uppers, s, work, steps)?;
    }
    Ok(())
}

// The lines without the field, in order, from a reduced list, each with its place there as its origin.
// They are reduced as that list is, so they are not compared.
fn own_flat_lines(alloc: Global, given: &StepLines) -> Result<Kept, OutOfMemory>
    requires own { AreOwn (lines_of given.now.lines.now) }
    ensures { IfOk result (λ flat. flat ≡ reduce_derived (flat_from given.now.column.field 0 given.now.lines.now)) }
{
    let mut flat = Kept::new(alloc);
    for (i, s) in given.lines.iter().enumerate() {
        push_flat(alloc, &given.column, i, s, &mut flat)?;
    }
    Ok(flat)
}

// Puts a copy of the line `s`, which stands at place `i`, last in `flat`, if the field does not stand in
// it.
fn push_flat(
    alloc: Global,
    column: &Column,
    i: usize,
    s: &Derived,
    flat: &mut Kept,
) -> Result<(), OutOfMemory>
    requires { s.now.line.shape ≡ domains column.now.shape }
    ensures { OnOk result (flat.new ≡ flat.old ++ flat_from column.now.field i (s.now ∷ [])) }
{
    if column.is_flat(&s.line) {
        flat.push(Derived {
            line: s.line.copy(alloc)?,
            origin: Origin::Same(i as u64),
        })?;
    }
    Ok(())
}

// The lines without the field, in order, from any list, each with its place there as its origin. They
// are reduced here.
fn flat_lines(alloc: Global, given: &StepLines) -> Result<Kept, OutOfMemory>
    ensures { IfOk result (λ flat. flat ≡ reduce_derived (flat_from given.now.column.field 0 given.now.lines.now)) }
{
    let mut flat = Kept::new(alloc);
    for (i, s) in given.lines.iter().enumerate() {
        take_flat(alloc, &given.column, i, s, &mut flat)?;
    }
    Ok(flat)
}

// Takes a copy of the line `s`, which stands at place `i`, into `flat`, if the field does not stand in it.
// It is dropped where a kept line subsumes it.
fn take_flat(
    alloc: Global,
    column: &Column,
    i: usize,
    s: &Derived,
    flat: &mut Kept,
) -> Result<(), OutOfMemory>
    requires { s.now.line.shape ≡ domains column.now.shape }
    ensures { OnOk result (flat.new ≡ fold with_derived flat.old (flat_from column.now.field i (s.now ∷ []))) }
{
    if column.is_flat(&s.line) {
        flat.take_copy(alloc, &s.line, Origin::Same(i as u64))?;
    }
    Ok(())
}

// The places, from 0, of the lines that bound the field from above, in order. A line that bounds it
// from below is combined with some of these, and no others are looked at for it.
fn upper_places(alloc: Global, given: &StepLines) -> Result<Vec<usize>, OutOfMemory>
    ensures { IfOk result (λ uppers. uppers.items ≡ places_from (is_upper given.now.column.field) 0 given.now.lines.now) }
{
    let mut uppers = Vec::new(alloc);
    for (i, t) in given.lines.iter().enumerate() {
        push_upper(&given.column, i, t, &mut uppers)?;
    }
    Ok(uppers)
}

// Puts the place `i` last, if the line there, `t`, bounds the field from above.
fn push_upper(
    column: &Column,
    i: usize,
    t: &Derived,
    uppers: &mut Vec<usize>,
) -> Result<(), OutOfMemory>
    requires { t.now.line.shape ≡ domains column.now.shape }
    ensures { OnOk result (uppers.new.items ≡ uppers.old.items ++ places_from (is_upper column.now.field) i (t.now ∷ [])) }
{
    if column.is_upper(&t.line) {
        uppers.push(i)?;
    }
    Ok(())
}

// Takes in the combinations of the line `s` with those that are opposite to it, if it bounds the field
// from below. `uppers` has the places of the lines that bound it from above. Each combination is written
// into the line of the work.
fn take_line<L: Ledger>(
    alloc: Global,
    given: &StepLines,
    uppers: &[usize],
    s: Placed,
    work: &mut Work,
    steps: &mut Steps<L>,
) -> Result<(), StepFault>
    requires s_over { s.derived.now.line.shape ≡ domains given.now.column.shape }
    requires uppers { uppers.now ≡ places_from (is_upper given.now.column.field) 0 given.now.lines.now }
    requires work_over { work.old.line.shape ≡ domains given.now.column.shape }
    ensures exact { TakesIn told_step work.old.kept work.new.kept result
        (row_result given.now.column.field given.now.lines.now s.entry.place s.entry.derived.now) }
    ensures counted { OnOk result (steps.new ≡ steps.old + row_count given.now.column.field given.now.lines.now s.entry.derived.now) }
    ensures few { steps.new ≤ steps.old + row_count given.now.column.field given.now.lines.now s.entry.derived.now }
    ensures counts { steps.old ≤ steps.new }
    ensures over { work.new.line.shape ≡ work.old.line.shape }
{
    if given.column.is_lower(&s.derived.line) {
        take_opposites(alloc, given, uppers, s, work, steps)
    } else {
        Ok(())
    }
}

// Takes in the combinations of the line `s`, which bounds the field from below, with those that are
// opposite to it. Only the lines that bound the field from above, at the places `uppers`, are looked at.
fn take_opposites<L: Ledger>(
    alloc: Global,
    given: &StepLines,
    uppers: &[usize],
    s: Placed,
    work: &mut Work,
    steps: &mut Steps<L>,
) -> Result<(), StepFault>
    requires lower { is_lower given.now.column.field s.derived.now.line ≡ true }
    requires s_over { s.derived.now.line.shape ≡ domains given.now.column.shape }
    requires uppers { uppers.now ≡ places_from (is_upper given.now.column.field) 0 given.now.lines.now }
    requires work_over { work.old.line.shape ≡ domains given.now.column.shape }
    ensures exact { TakesIn told_step work.old.kept work.new.kept result
        (collect (pairs_with given.now.column.field s.entry) 0 given.now.lines.now) }
    ensures counted { OnOk result (steps.new ≡ steps.old + opposites given.now.column.field s.entry.derived.now given.now.lines.now) }
    ensures few { steps.new ≤ steps.old + opposites given.now.column.field s.entry.derived.now given.now.lines.now }
    ensures counts { steps.old ≤ steps.new }
    ensures over { work.new.line.shape ≡ work.old.line.shape }
{
    for place in uppers {
        take_at(alloc, given, *place, s, work, steps)?;
    }
    Ok(())
}

// Takes in the combination of the line `s`, which bounds the field from below, and the line at the
// place, if that is opposite. Where no line has the place, nothing is done.
fn take_at<L: Ledger>(
    alloc: Global,
    given: &StepLines,
    place: usize,
    s: Placed,
    work: &mut Work,
    steps: &mut Steps<L>,
) -> Result<(), StepFault>
    requires lower { is_lower given.now.column.field s.derived.now.line ≡ true }
    requires s_over { s.derived.now.line.shape ≡ domains given.now.column.shape }
    requires work_over { work.old.line.shape ≡ domains given.now.column.shape }
    ensures exact { TakesIn told_step work.old.kept work.new.kept result
        (found_result (pairs_with given.now.column.field s.entry) place (slice_get given.now.lines.now place)) }
    ensures counted { steps.new
        ≡ steps.old + found_count (is_opposite given.now.column.field s.entry.derived.now.line) (slice_get given.now.lines.now place) }
    ensures over { work.new.line.shape ≡ work.old.line.shape }
{
    match given.lines.get(place) {
        None => Ok(()),
        Some(derived) => {
            let t = Placed { place, derived };
            take_pair(alloc, &given.column, s, t, work, steps)
        }
    }
}

// Takes in the combination of the line `s`, which bounds the field from below, and the line `t`, if that is
// opposite to it. Only then one step is counted.
fn take_pair<L: Ledger>(
    alloc: Global,
    column: &Column,
    s: Placed,
    t: Placed,
    work: &mut Work,
    steps: &mut Steps<L>,
) -> Result<(), StepFault>
    requires lower { is_lower column.now.field s.derived.now.line ≡ true }
    requires s_over { s.derived.now.line.shape ≡ domains column.now.shape }
    requires t_over { t.derived.now.line.shape ≡ domains column.now.shape }
    requires work_over { work.old.line.shape ≡ domains column.now.shape }
    ensures exact { TakesIn told_step work.old.kept work.new.kept result
        (pairs_with column.now.field s.entry t.entry.place t.entry.derived.now) }
    ensures counted { steps.new
        ≡ steps.old + (if is_opposite column.now.field s.entry.derived.now.line t.entry.derived.now.line then 1 else 0) }
    ensures over { work.new.line.shape ≡ work.old.line.shape }
{
    if !is_opposite(column, &s.derived.line, &t.derived.line) {
        return Ok(());
    }
    steps.tick();
    take_combination(alloc, column, s, t, work)
}

/// Takes in the combination of two lines, in both of which the field stands. It is written into the line
/// of the work. Overflow names both lines' places, and the first number out of range.
pub(crate) fn take_combination(
    alloc: Global,
    column: &Column,
    s: Placed,
    t: Placed,
    work: &mut Work,
) -> Result<(), StepFault>
    requires s_over { s.derived.now.line.shape ≡ domains column.now.shape }
    requires t_over { t.derived.now.line.shape ≡ domains column.now.shape }
    requires work_over { work.old.line.shape ≡ domains column.now.shape }
    requires s_stands { is_flat column.now.field s.derived.now.line ≡ false }
    requires t_stands { is_flat column.now.field t.derived.now.line ≡ false }
    requires meet { all_meet s.derived.now.line.sets t.derived.now.line.sets ≡ true }
    ensures exact { TakesIn told_step work.old.kept work.new.kept result
        (paired s.entry.derived.now.line.shape s.entry.place t.entry.place
        (combine_result s.entry.derived.now.line t.entry.derived.now.line column.now.field)) }
    ensures over { work.new.line.shape ≡ work.old.line.shape }
{
    let (first, second) = (s.place as u64, t.place as u64);
    match combine(&mut work.line, column, &s.derived.line, &t.derived.line) {
        Ok(by) => {
            work.kept
                .take_copy(alloc, &work.line, by.origin(first, second))?;
            Ok(())
        }
        Err(place) => Err(StepFault::Overflow {
            first,
            second,
            place: column.place_at(place),
        }),
    }
}
