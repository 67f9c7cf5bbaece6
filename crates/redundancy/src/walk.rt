//! The walk that tries one line. It begins with the line's negation and the lines that are left. From these
//! it eliminates the numerical fields in declared order, and then the categorical ones. It ends where
//! something absurd is left, or no field is, or the budget is passed, or a number leaves the range. Absurd is
//! a line for all codes that no numbers meet, or a box of all codes. In this file `wholes` has the set of all
//! codes of each categorical field. In contracts, `number_walk`, `box_walk` and `all_code_walk` are the
//! verdict of the walk from these lines or boxes on. `number_end` and `IsCodeEnd` tell the verdict of one
//! turn, if that ends the walk.
ghost use Rattle.std.specs.Prelude.{◌≡◌, ◌≤◌, ◌<◌, ◌+◌, [], All, IfNone, IfOk, None, Ok};
ghost use Rattle.edit_model.specs.Rows.{IsRow};
ghost use Rattle.edit_line.specs.Lines.{HaveShape};
ghost use Rattle.edit_line.specs.Reductions.{AreOwn, lines_of, reduce_derived};
ghost use Rattle.edit_line.specs.Shapes.{shape_of, whole_sets};
ghost use Rattle.linear_elim.specs.Answers.{Answers};
ghost use Rattle.linear_elim.specs.Steps.{OneShape, step_result};
ghost use Rattle.linear_elim.specs.Told.{told_step};
ghost use Rattle.categ_combine.specs.BoxLists.{AreBoxesOver, HaveCodeField};
ghost use Rattle.edit_paths.specs.Histories.{steps_to, with_boxes, with_lines};
ghost use Rattle.redundancy.specs.declared.verdict.Verdict.TheVariants.{Dropped};
ghost use Rattle.redundancy.specs.inner.Turns.{AddsWork, AreCovered, IsCodeEnd, all_code_walk, box_walk, closing_box, closing_line, ended_by, lines_verdict, number_end, number_walk, number_work};

use crate::history::History;
use crate::proving::write_steps;
use crate::verdict::{Verdict, Why};
use categ_combine::{BoxFault, BoxFrom, Covered, boxes_of, cat_step};
use edit_line::{Derived, Shape, is_false, reduce};
use edit_model::{Row, Survey};
use foundation::{OutOfMemory, Steps};
use linear_elim::{StepFault, pairs, reduced_step};
use std::alloc::Global;
use std::marker::Brand;
use std::sync::ledger::{Blank, Ledger};

// The walk over the numerical fields: the lines that are left, how they were made, and the work so far.
#[derive(Drop)]
struct NumberWalk {
    lines: Vec<Derived>,
    history: History,
    spent: u64,
}

// The walk over the categorical fields: the boxes that are left, how they were made, and the work so far.
#[derive(Drop)]
struct CodeWalk {
    boxes: Vec<BoxFrom>,
    history: History,
    spent: u64,
}

/// The verdict on a line, by a walk from `base`: the lines that are left and those of its negation. An
/// absurd line or box drops the line, a number out of range or the budget keeps it. Where all fields are
/// gone and nothing is absurd, the line is needed. `row` is the record without values. The walk's first
/// work is 1, so a budget of 0 is passed at once.
pub(crate) fn verdict_of(
    alloc: Global,
    survey: &Survey,
    row: &Row,
    base: Vec<Derived>,
    budget: u64,
) -> Result<Verdict, OutOfMemory>
    requires row { IsRow survey.now.fields row.now }
    requires over { HaveShape (shape_of survey.now.fields) (lines_of base.items) }
    ensures { IfOk result (λ verdict. verdict ≡ lines_verdict (shape_of survey.now.fields) row.now budget (reduce_derived base.items)) }
{
    if budget == 0 {
        return Ok(Verdict::Kept(Why::Budget));
    }
    let wholes = Shape::of(survey).whole_sets(alloc)?;
    let mut walk = first_walk(alloc, base)?;
    for field in survey.numbers() {
        if let Some(verdict) = number_turn(alloc, &wholes, &mut walk, *field, budget)? {
            return Ok(verdict);
        }
    }
    boxes_verdict(alloc, survey, row, &wholes, walk, budget)
}

// The walk before any field is eliminated: the lines of the base, reduced, and the work of 1, which each walk
// begins with.
fn first_walk(alloc: Global, base: Vec<Derived>) -> Result<NumberWalk, OutOfMemory>
    ensures lines { IfOk result (λ walk. walk.lines.items ≡ reduce_derived base.items) }
    ensures history { IfOk result (λ walk. walk.history ≡ with_lines [] (reduce_derived base.items)) }
    ensures spent { IfOk result (λ walk. walk.spent ≡ 1) }
{
    let lines = reduce(alloc, base)?;
    let mut history = History::new(alloc);
    history.add_lines(alloc, &lines)?;
    Ok(NumberWalk {
        lines,
        history,
        spent: 1,
    })
}

// One turn of the walk: the field is eliminated from its lines, for a work of 1 and the pairs combined. It
// answers a verdict where a line is absurd, the work would pass the budget, or a number leaves the range.
// Else it answers None, and the walk has the next lines.
fn number_turn(
    alloc: Global,
    wholes: &[u64],
    walk: &mut NumberWalk,
    field: u32,
    budget: u64,
) -> Result<Option<Verdict>, OutOfMemory>
    requires shape { OneShape walk.old.lines.items }
    requires own { AreOwn (lines_of walk.old.lines.items) }
    requires spent { walk.old.spent ≤ budget }
    ensures ended { IfOk result (λ told. told ≡ number_end wholes.now budget walk.old.spent walk.old.history walk.old.lines.items field) }
    ensures lines { IfOk result (λ told. IfNone told (step_result walk.old.lines.items field ≡ Ok walk.new.lines.items)) }
    ensures history { IfOk result (λ told. IfNone told (walk.new.history ≡ with_lines walk.old.history walk.new.lines.items)) }
    ensures spent { IfOk result (λ told. IfNone told (walk.new.spent ≡ walk.old.spent + number_work walk.old.lines.items field)) }
    ensures few { IfOk result (λ told. IfNone told (walk.new.spent ≤ budget)) }
{
    if let Some(place) = closing_line(wholes, &walk.lines) {
        return Ok(Some(dropping_verdict(alloc, &walk.history, place)?));
    }
    let pairs = pairs(&walk.lines, field);
    if pairs >= u128::from(budget - walk.spent) {
        return Ok(Some(Verdict::Kept(Why::Budget)));
    }
    match next_lines::<Brand>(alloc, &walk.lines, field, Blank::new(1)) {
        Ok(lines) => {
            walk.history.add_lines(alloc, &lines)?;
            walk.lines = lines;
            walk.spent += 1 + pairs as u64;
            Ok(None)
        }
        Err(StepFault::Overflow { .. }) => Ok(Some(Verdict::Kept(Why::Overflow))),
        Err(StepFault::OutOfMemory) => Err(OutOfMemory),
    }
}

// The lines without the field, or the overflow of the step that eliminates it. The lines of the walk are
// reduced, as each list that a step makes, so the faster step for reduced lines serves. `blank` begins a
// counter of steps, which nobody reads.
fn next_lines<L: Ledger>(
    alloc: Global,
    lines: &[Derived],
    field: u32,
    blank: Blank,
) -> Result<Vec<Derived>, StepFault>
    requires name { blank.name ≡ L.name }
    requires parts { blank.parts ≡ L.parts }
    requires counts { 0 < blank.parts }
    requires shape { OneShape lines.now }
    requires own { AreOwn (lines_of lines.now) }
    ensures exact { Answers (λ v. v.items) told_step result (step_result lines.now field) }
{
    let mut steps = Steps::<L>::start(blank);
    reduced_step(alloc, lines, field, &mut steps)
}

// The place of the first line that is absurd: it asks something whatever the codes are, and no numbers meet
// it. None where there is none.
fn closing_line(wholes: &[u64], lines: &[Derived]) -> Option<usize>
    ensures { result ≡ closing_line wholes.now lines.now }
{
    lines.iter().position(|derived| derived.line.sets() == wholes && is_false(&derived.line))
}

// The verdict of the walk from where all numerical fields are eliminated. Lines without numbers are left,
// and boxes are made of those that fail. A sum that leaves the range keeps the line.
fn boxes_verdict(
    alloc: Global,
    survey: &Survey,
    row: &Row,
    wholes: &[u64],
    walk: NumberWalk,
    budget: u64,
) -> Result<Verdict, OutOfMemory>
    requires over { All (λ derived. derived.line.shape ≡ shape_of survey.now.fields) walk.lines.items }
    requires row { IsRow survey.now.fields row.now }
    requires wholes { wholes.now ≡ whole_sets (shape_of survey.now.fields) }
    requires spent { walk.spent ≤ budget }
    ensures { IfOk result (λ v. v ≡ number_walk (shape_of survey.now.fields) row.now budget walk.spent walk.history walk.lines.items []) }
{
    match boxes_of(alloc, survey, &walk.lines, row) {
        Ok(boxes) => verdict_with_boxes(alloc, survey, wholes, walk, boxes, budget),
        Err(BoxFault::Overflow { .. }) => Ok(Verdict::Kept(Why::Overflow)),
        Err(BoxFault::OutOfMemory) => Err(OutOfMemory),
    }
}

// The verdict of the walk from these boxes on, which are those of its lines. An absurd line ends it before
// any box is looked at.
fn verdict_with_boxes(
    alloc: Global,
    survey: &Survey,
    wholes: &[u64],
    walk: NumberWalk,
    boxes: Vec<BoxFrom>,
    budget: u64,
) -> Result<Verdict, OutOfMemory>
    requires wholes { wholes.now ≡ whole_sets (shape_of survey.now.fields) }
    requires over { AreBoxesOver (shape_of survey.now.fields) boxes.items }
    requires spent { walk.spent ≤ budget }
    ensures { IfOk result (λ v. v
        ≡ box_walk (shape_of survey.now.fields) budget walk.spent walk.history walk.lines.items (Ok boxes.items)) }
{
    if let Some(place) = closing_line(wholes, &walk.lines) {
        return dropping_verdict(alloc, &walk.history, place);
    }
    let mut history = walk.history;
    history.add_boxes(alloc, 0, &boxes)?;
    let walk = CodeWalk {
        boxes,
        history,
        spent: walk.spent,
    };
    codes_verdict(alloc, survey, wholes, walk, budget)
}

// The verdict of the walk over the categorical fields, in declared order, from its boxes on. Where no turn ends
// it, nothing absurd is left, and the line is needed.
fn codes_verdict(
    alloc: Global,
    survey: &Survey,
    wholes: &[u64],
    mut walk: CodeWalk,
    budget: u64,
) -> Result<Verdict, OutOfMemory>
    requires wholes { wholes.now ≡ whole_sets (shape_of survey.now.fields) }
    requires over { AreBoxesOver (shape_of survey.now.fields) walk.boxes.items }
    requires spent { walk.spent ≤ budget }
    ensures { IfOk result (λ verdict. verdict
        ≡ all_code_walk (shape_of survey.now.fields) budget walk.spent walk.history walk.boxes.items) }
{
    let _well_formed = survey.fields(); // read for what it says: each categorical field has a code
    for field in survey.codes() {
        if let Some(verdict) = code_turn(alloc, wholes, &mut walk, *field, budget)? {
            return Ok(verdict);
        }
    }
    Ok(Verdict::Kept(Why::Needed))
}

// One turn of the walk: the field is eliminated from its boxes, for a work of 1 and the pairs looked at. It
// answers a verdict where that would pass the budget, or leaves a box of all codes. Else it answers None,
// and the walk has the next boxes.
fn code_turn(
    alloc: Global,
    wholes: &[u64],
    walk: &mut CodeWalk,
    field: u32,
    budget: u64,
) -> Result<Option<Verdict>, OutOfMemory>
    requires field { HaveCodeField walk.old.boxes.items field }
    requires spent { walk.old.spent ≤ budget }
    ensures ended { IfOk result (λ told. IsCodeEnd wholes.now budget walk.old.spent walk.old.history walk.old.boxes.items field told) }
    ensures boxes { IfOk result (λ told. IfNone told (AreCovered walk.old.boxes.items field walk.new.boxes.items)) }
    ensures history { IfOk result (λ told. IfNone told (walk.new.history ≡ with_boxes walk.old.history field walk.new.boxes.items)) }
    ensures spent { IfOk result (λ told. IfNone told (AddsWork walk.old.boxes.items field walk.old.spent walk.new.spent)) }
    ensures few { IfOk result (λ told. IfNone told (walk.new.spent ≤ budget)) }
{
    if walk.spent == budget {
        return Ok(Some(Verdict::Kept(Why::Budget)));
    }
    match cat_step(alloc, &walk.boxes, field, budget - walk.spent - 1)? {
        Covered::Passed => Ok(Some(Verdict::Kept(Why::Budget))),
        Covered::Done { boxes, pairs } => {
            walk.boxes = boxes.into_vec();
            walk.history.add_boxes(alloc, field, &walk.boxes)?;
            walk.spent += 1 + pairs;
            closed_by_box(alloc, wholes, walk)
        }
    }
}

// The verdict that drops the line, if a box of all codes is left in the walk; else None, and the walk goes on.
fn closed_by_box(
    alloc: Global,
    wholes: &[u64],
    walk: &CodeWalk,
) -> Result<Option<Verdict>, OutOfMemory>
    ensures { IfOk result (λ told. told ≡ ended_by walk.now.history (closing_box wholes.now walk.now.boxes.items) None) }
{
    match closing_box(wholes, &walk.boxes) {
        Some(place) => Ok(Some(dropping_verdict(alloc, &walk.history, place)?)),
        None => Ok(None),
    }
}

// The place of the first box that has all codes of each field, so that all codes are forbidden. None where
// there is none.
fn closing_box(wholes: &[u64], boxes: &[BoxFrom]) -> Option<usize>
    ensures { result ≡ closing_box wholes.now boxes.now }
{
    boxes.iter().position(|b| b.sets() == wholes)
}

// The verdict that drops the line that is tried. It comes with the steps that prove the absurd line or box at
// this place of the last list.
fn dropping_verdict(alloc: Global, history: &History, place: usize) -> Result<Verdict, OutOfMemory>
    ensures { IfOk result (λ verdict. verdict ≡ Dropped (steps_to history.now place)) }
{
    Ok(Verdict::Dropped(write_steps(alloc, history, place as u64)?))
}
