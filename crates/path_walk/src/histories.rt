//! The lists from which the system and the boxes of a path are derived, letter by letter. A letter says of
//! one field whether it is kept (false) or changed (true).
//!
//! Below, `source` gives derived systems, and `steps` counts the pairs of lines combined for them. In
//! contracts, `serves` has the edits whose systems it gives, and `keeps` the sets of fields whose systems
//! it keeps. `HasLists` says that the lists lead to the path's system or boxes, and `HasListsBefore` to
//! those of the path before its last letter. `HasMore` says that lists were only put behind,
//! `IsKnownBasis` that a basis, if there is one, is the path's, and `IsProblem` that a problem's parts
//! fit.
ghost use Rattle.std.specs.Prelude.{◌≡◌, ◌≤◌, ◌<◌, [], ℕ, All, IfOk, OnOk, length, true};
ghost use Rattle.std.specs.Arc.{arc_value};
ghost use Rattle.std.specs.Option.{option_copied};
ghost use Rattle.edit_model.specs.RowPoints.{code_in};
ghost use Rattle.edit_model.specs.Rows.{value_of};
ghost use Rattle.edit_line.specs.CodeFields.{TakesCodes, size_of};
ghost use Rattle.edit_line.specs.EditSets.{EditsParts};
ghost use Rattle.edit_line.specs.Shapes.{shape_of};
ghost use Rattle.categ_combine.specs.Apart.{LieApart};
ghost use Rattle.categ_combine.specs.BoxLists.{AreBoxesOver};
ghost use Rattle.categ_combine.specs.FailingBoxes.{failing_from};
ghost use Rattle.linear_elim.specs.Answers.{Answers};
ghost use Rattle.linear_elim.specs.Told.{told_system};
ghost use Rattle.edit_paths.specs.Levels.{history_of};
ghost use Rattle.edit_paths.specs.PathHistories.{line_history};
ghost use Rattle.edit_paths.specs.Paths.{before_last, field_count, last_field, number_count};
ghost use Rattle.edit_paths.specs.States.{boxes_along, first_boxes, or_empty};
ghost use Rattle.path_walk.specs.Bases.{IsKnownBasis, path_system, shared_lines};
ghost use Rattle.path_walk.specs.Lists.{HasBoxLists, HasLists, HasListsBefore, HasMore, boxes_in};
ghost use Rattle.path_walk.specs.Problems.{IsProblem, case_in, edits_in};
ghost use Rattle.path_walk.specs.inner.Histories.{AddsSystem, boxes_by};

use crate::looks::Basis;
use crate::number_paths::{in_arc, share, system_along};
use crate::problem::{Problem, number_count};
use categ_combine::{BoxFault, BoxFrom, Covered, boxes_of, fix_apart, step_apart};
use edit_line::Derived;
use edit_paths::Level;
use foundation::{OutOfMemory, Sequence, Steps};
use linear_elim::{Held, SystemFault, Systems};
use std::alloc::Global;
use std::sync::Arc;
use std::sync::ledger::Ledger;

/// The bases of a path (`own`) and of the path before its last letter (`parent`), where these were kept.
/// What was not kept is made again.
#[derive(Clone, Copy)]
pub struct Bases<'a> {
    pub own: Option<&'a Basis>,
    pub parent: Option<&'a Basis>,
}

/// The letters of a path, and its basis, if that was kept.
#[derive(Clone, Copy)]
struct KnownPath<'a> {
    letters: &'a [bool],
    basis: Option<&'a Basis>,
}

/// Appends the lists that the path has more than the path before its last letter, whose lists are in `levels`.
/// These are the lines of its system where that letter changes a numerical field, and the boxes after its
/// field where that is categorical. Before the first such boxes the record's boxes stand; the empty path has
/// the lines of the edits. A system for which a number leaves the range gives no list.
pub fn push_lists<S: Systems, L: Ledger>(
    alloc: Global,
    source: &mut S,
    problem: &Problem,
    letters: &[bool],
    bases: Bases,
    levels: &mut Vec<Level>,
    steps: &mut Steps<L>,
) -> Result<(), OutOfMemory>
    requires problem { IsProblem problem.now }
    requires served { S.serves source.old (edits_in problem.now) }
    requires fit { length letters.now ≤ field_count (case_in problem.now) }
    requires own { IsKnownBasis (case_in problem.now) letters.now (option_copied bases.own) }
    requires parent { IsKnownBasis (case_in problem.now) (before_last letters.now) (option_copied bases.parent) }
    requires before { HasListsBefore (case_in problem.now) letters.now levels.old.items }
    ensures lists { OnOk result (HasLists (case_in problem.now) letters.now levels.new.items) }
    ensures grown { OnOk result (HasMore levels.old.items levels.new.items) }
    ensures serves { (e : EditsParts) → S.serves source.old e → S.serves source.new e }
    ensures keeps { (f : ℕ) → S.keeps source.old f ≡ true → S.keeps source.new f ≡ true }
    ensures counts { steps.old ≤ steps.new }
{
    let path = KnownPath {
        letters,
        basis: bases.own,
    };
    if letters.len() <= number_count(problem) {
        push_lines(alloc, source, problem, path, levels, steps)?;
        return Ok(());
    }
    if letters.len() - 1 == number_count(problem) {
        let before = KnownPath {
            letters: &letters[..letters.len() - 1],
            basis: bases.parent,
        };
        push_first_boxes(alloc, source, problem, before, levels, steps)?;
    }
    push_boxes(alloc, problem, path, levels)?;
    Ok(())
}

// Appends the lines of the system of a path that says something of numerical fields alone. Where it keeps
// its last field, it appends nothing: its system is that of the path before, whose lines stand there.
fn push_lines<S: Systems, L: Ledger>(
    alloc: Global,
    source: &mut S,
    problem: &Problem,
    path: KnownPath,
    levels: &mut Vec<Level>,
    steps: &mut Steps<L>,
) -> Result<(), OutOfMemory>
    requires problem { IsProblem problem.now }
    requires served { S.serves source.old (edits_in problem.now) }
    requires basis { IsKnownBasis (case_in problem.now) path.letters.now (option_copied path.basis) }
    requires few { length path.letters.now ≤ number_count (case_in problem.now) }
    requires before { HasListsBefore (case_in problem.now) path.letters.now levels.old.items }
    ensures history { OnOk result (history_of levels.new.items ≡ line_history (case_in problem.now) path.entry.letters.now) }
    ensures grown { OnOk result (HasMore levels.old.items levels.new.items) }
    ensures serves { (e : EditsParts) → S.serves source.old e → S.serves source.new e }
    ensures keeps { (f : ℕ) → S.keeps source.old f ≡ true → S.keeps source.new f ≡ true }
    ensures counts { steps.old ≤ steps.new }
{
    let letters = path.letters;
    if !letters.is_empty() && !letters[letters.len() - 1] {
        return Ok(());
    }
    push_system(alloc, source, problem, path, levels, steps)?;
    Ok(())
}

// Appends the lines of the path's system as one list, or nothing where a number leaves the range.
fn push_system<S: Systems, L: Ledger>(
    alloc: Global,
    source: &mut S,
    problem: &Problem,
    path: KnownPath,
    levels: &mut Vec<Level>,
    steps: &mut Steps<L>,
) -> Result<(), OutOfMemory>
    requires problem { IsProblem problem.now }
    requires served { S.serves source.old (edits_in problem.now) }
    requires basis { IsKnownBasis (case_in problem.now) path.letters.now (option_copied path.basis) }
    ensures history { OnOk result (AddsSystem (case_in problem.now) path.entry.letters.now levels.old.items levels.new.items) }
    ensures grown { OnOk result (HasMore levels.old.items levels.new.items) }
    ensures serves { (e : EditsParts) → S.serves source.old e → S.serves source.new e }
    ensures keeps { (f : ℕ) → S.keeps source.old f ≡ true → S.keeps source.new f ≡ true }
    ensures counts { steps.old ≤ steps.new }
{
    match own_system(alloc, source, problem, path, steps) {
        Ok(system) => {
            levels.push(Level::Lines(system))?;
            Ok(())
        }
        Err(SystemFault::Overflow { .. }) => Ok(()),
        Err(SystemFault::OutOfMemory) => Err(OutOfMemory),
    }
}

// The path's system, to be shared: its basis, where that was kept and has lines, or else as the source
// gives it. An overflow where a number leaves the range.
fn own_system<S: Systems, L: Ledger>(
    alloc: Global,
    source: &mut S,
    problem: &Problem,
    path: KnownPath,
    steps: &mut Steps<L>,
) -> Result<Arc<Held>, SystemFault>
    requires problem { IsProblem problem.now }
    requires served { S.serves source.old (edits_in problem.now) }
    requires basis { IsKnownBasis (case_in problem.now) path.letters.now (option_copied path.basis) }
    ensures exact { Answers shared_lines told_system result (path_system (case_in problem.now) path.entry.letters.now) }
    ensures serves { (e : EditsParts) → S.serves source.old e → S.serves source.new e }
    ensures keeps { (f : ℕ) → S.keeps source.old f ≡ true → S.keeps source.new f ≡ true }
    ensures counts { steps.old ≤ steps.new }
{
    if let Some(Basis::Lines(system)) = path.basis {
        return Ok(share(system)?);
    }
    match system_along(alloc, source, problem, path.letters, steps) {
        Ok(held) => Ok(in_arc(alloc, held)?),
        Err(fault) => Err(fault),
    }
}

// Appends the record's boxes, those of the lines that fail at it. The path `before` says something of all
// numerical fields and of no other.
fn push_first_boxes<S: Systems, L: Ledger>(
    alloc: Global,
    source: &mut S,
    problem: &Problem,
    before: KnownPath,
    levels: &mut Vec<Level>,
    steps: &mut Steps<L>,
) -> Result<(), OutOfMemory>
    requires problem { IsProblem problem.now }
    requires served { S.serves source.old (edits_in problem.now) }
    requires basis { IsKnownBasis (case_in problem.now) before.letters.now (option_copied before.basis) }
    requires numbers { length before.letters.now ≡ number_count (case_in problem.now) }
    requires history { history_of levels.old.items ≡ line_history (case_in problem.now) before.letters.now }
    ensures boxes { OnOk result (HasBoxLists (case_in problem.now) before.entry.letters.now levels.new.items) }
    ensures grown { OnOk result (HasMore levels.old.items levels.new.items) }
    ensures serves { (e : EditsParts) → S.serves source.old e → S.serves source.new e }
    ensures keeps { (f : ℕ) → S.keeps source.old f ≡ true → S.keeps source.new f ≡ true }
    ensures counts { steps.old ≤ steps.new }
{
    let boxes = record_boxes(alloc, source, problem, before, steps)?;
    levels.push(Level::Boxes { field: 0, boxes })?;
    Ok(())
}

// The record's boxes, to be shared, where the path of these letters says something of numerical fields
// alone. They are the path's basis, if that was kept and has boxes, or else made of its system. There are
// none where a number leaves the range.
fn record_boxes<S: Systems, L: Ledger>(
    alloc: Global,
    source: &mut S,
    problem: &Problem,
    path: KnownPath,
    steps: &mut Steps<L>,
) -> Result<Arc<Sequence<BoxFrom>>, OutOfMemory>
    requires problem { IsProblem problem.now }
    requires served { S.serves source.old (edits_in problem.now) }
    requires few { length path.letters.now ≤ number_count (case_in problem.now) }
    requires basis { IsKnownBasis (case_in problem.now) path.letters.now (option_copied path.basis) }
    ensures boxes { IfOk result (λ boxes. arc_value boxes ≡ boxes_along (case_in problem.now) path.entry.letters.now) }
    ensures serves { (e : EditsParts) → S.serves source.old e → S.serves source.new e }
    ensures keeps { (f : ℕ) → S.keeps source.old f ≡ true → S.keeps source.new f ≡ true }
    ensures counts { steps.old ≤ steps.new }
{
    if let Some(Basis::Boxes(boxes)) = path.basis {
        return Ok(Arc::try_clone(boxes)?);
    }
    let boxes = first_boxes(alloc, source, problem, path.letters, steps)?;
    Ok(Arc::new(alloc, boxes)?)
}

// Appends the boxes after the path's last field, which is categorical. The last list has those of the path
// before.
fn push_boxes(
    alloc: Global,
    problem: &Problem,
    path: KnownPath,
    levels: &mut Vec<Level>,
) -> Result<(), OutOfMemory>
    requires problem { IsProblem problem.now }
    requires many { number_count (case_in problem.now) < length path.letters.now }
    requires fit { length path.letters.now ≤ field_count (case_in problem.now) }
    requires basis { IsKnownBasis (case_in problem.now) path.letters.now (option_copied path.basis) }
    requires before { HasBoxLists (case_in problem.now) (before_last path.letters.now) levels.old.items }
    ensures boxes { OnOk result (HasBoxLists (case_in problem.now) path.entry.letters.now levels.new.items) }
    ensures grown { OnOk result (HasMore levels.old.items levels.new.items) }
{
    let last = path.letters.len() - 1;
    let field = problem.survey.path_field(last as u32);
    let boxes = path_boxes(alloc, problem, path, last_boxes(levels), field)?;
    levels.push(Level::Boxes { field, boxes })?;
    Ok(())
}

// The path's boxes, to be shared: its basis, where that was kept, or else made of `before`. These are the
// boxes of the path before its last letter. `field` is that of the last letter, and categorical.
fn path_boxes(
    alloc: Global,
    problem: &Problem,
    path: KnownPath,
    before: &[BoxFrom],
    field: u32,
) -> Result<Arc<Sequence<BoxFrom>>, OutOfMemory>
    requires problem { IsProblem problem.now }
    requires many { number_count (case_in problem.now) < length path.letters.now }
    requires fit { length path.letters.now ≤ field_count (case_in problem.now) }
    requires basis { IsKnownBasis (case_in problem.now) path.letters.now (option_copied path.basis) }
    requires before { before.now ≡ boxes_along (case_in problem.now) (before_last path.letters.now) }
    requires field { field ≡ last_field (case_in problem.now) path.letters.now }
    requires within { field < field_count (case_in problem.now) }
    ensures boxes { IfOk result (λ boxes. arc_value boxes ≡ boxes_along (case_in problem.now) path.entry.letters.now) }
{
    if let Some(Basis::Boxes(boxes)) = path.basis {
        return Ok(Arc::try_clone(boxes)?);
    }
    let letters = path.letters;
    let boxes = boxes_after(alloc, problem, before, field, letters[letters.len() - 1])?;
    Ok(Arc::new(alloc, boxes)?)
}

// The boxes of the last list, which are those of the path before the last letter. None where that list has
// lines, or where there is no list.
fn last_boxes(levels: &[Level]) -> &[BoxFrom]
    ensures { result.now ≡ boxes_in levels.now }
{
    match levels.split_last() {
        Some((Level::Boxes { boxes, .. }, _)) => boxes.as_slice(),
        Some((Level::Lines(_), _)) | None => &[],
    }
}

// The record's boxes, made of the system of the path of these letters; none where a number leaves the
// range.
fn first_boxes<S: Systems, L: Ledger>(
    alloc: Global,
    source: &mut S,
    problem: &Problem,
    letters: &[bool],
    steps: &mut Steps<L>,
) -> Result<Sequence<BoxFrom>, OutOfMemory>
    requires problem { IsProblem problem.now }
    requires served { S.serves source.old (edits_in problem.now) }
    ensures boxes { IfOk result (λ boxes. boxes ≡ first_boxes (case_in problem.now) letters.now) }
    ensures serves { (e : EditsParts) → S.serves source.old e → S.serves source.new e }
    ensures keeps { (f : ℕ) → S.keeps source.old f ≡ true → S.keeps source.new f ≡ true }
    ensures counts { steps.old ≤ steps.new }
{
    match system_along(alloc, source, problem, letters, steps) {
        Ok(held) => boxes_of_lines(alloc, problem, held.system().lines()),
        Err(SystemFault::Overflow { .. }) => Ok(Sequence::from_vec(Vec::new(alloc))),
        Err(SystemFault::OutOfMemory) => Err(OutOfMemory),
    }
}

// The boxes of those of the lines that fail at the record; none at all where a number leaves the range.
fn boxes_of_lines(
    alloc: Global,
    problem: &Problem,
    lines: &[Derived],
) -> Result<Sequence<BoxFrom>, OutOfMemory>
    requires problem { IsProblem problem.now }
    requires shape { All (λ derived. derived.line.shape ≡ shape_of (case_in problem.now).survey.fields) lines.now }
    ensures boxes { IfOk result (λ boxes. boxes ≡ or_empty (failing_from 0 lines.now (case_in problem.now).row [])) }
{
    match boxes_of(alloc, problem.survey, lines, problem.row) {
        Ok(boxes) => Ok(Sequence::from_vec(boxes)),
        Err(BoxFault::Overflow { .. }) => Ok(Sequence::from_vec(Vec::new(alloc))),
        Err(BoxFault::OutOfMemory) => Err(OutOfMemory),
    }
}

// The boxes after one more categorical field: combined where it is changed, else fixed at the record's
// code. A changed field has no more than `u64::MAX` pairs, as they were counted when its path was taken. So
// `Passed` does not come, and is answered as want of memory.
fn boxes_after(
    alloc: Global,
    problem: &Problem,
    before: &[BoxFrom],
    field: u32,
    changed: bool,
) -> Result<Sequence<BoxFrom>, OutOfMemory>
    requires problem { IsProblem problem.now }
    requires over { AreBoxesOver (shape_of (case_in problem.now).survey.fields) before.now }
    requires apart { LieApart before.now }
    requires takes { TakesCodes (shape_of (case_in problem.now).survey.fields) field }
    requires within { field < field_count (case_in problem.now) }
    ensures boxes { IfOk result (λ boxes. boxes ≡ boxes_by (case_in problem.now) changed before.now field) }
{
    if changed {
        return match step_apart(alloc, before, field, u64::MAX)? {
            Covered::Done { boxes, .. } => Ok(boxes),
            Covered::Passed => Err(OutOfMemory),
        };
    }
    let boxes = fix_apart(alloc, before, field, code_at(problem, field))?;
    Ok(Sequence::from_vec(boxes))
}

// The record's code at the categorical field: at it boxes are fixed where a path keeps the field. It is 0 where
// the record has none.
fn code_at(problem: &Problem, field: u32) -> u8
    requires problem { IsProblem problem.now }
    requires takes { TakesCodes (shape_of (case_in problem.now).survey.fields) field }
    requires within { field < field_count (case_in problem.now) }
    ensures code { result ≡ code_in (value_of (case_in problem.now).row field) }
    ensures known { result < size_of (shape_of (case_in problem.now).survey.fields) field }
{
    problem.row.value(field).code_number()
}
