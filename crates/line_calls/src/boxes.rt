//! Worked calls on boxes: those of a record, and what is left of them when a field keeps a code or is
//! eliminated. In contracts, `LieApart` says that none of the boxes lies inside another. `IsRow` says
//! that the record has for each field a value of its kind, or none.
ghost use Rattle.std.specs.Prelude.{◌≡◌, ◌<◌, All, IfOk, IfSome, true};
ghost use Rattle.edit_line.specs.CodeFields.{size_of};
ghost use Rattle.edit_line.specs.Domains.{domains};
ghost use Rattle.edit_line.specs.Shapes.{shape_of};
ghost use Rattle.edit_model.specs.Rows.{IsRow};
ghost use Rattle.categ_combine.specs.Apart.{LieApart};
ghost use Rattle.categ_combine.specs.BoxLists.{AreBoxesOver, HaveCode, HaveCodeField};

use crate::fault::CallFault;
use crate::numbers::{from_one, number_in, place_in};
use crate::rules::{code_of, field_of};
use crate::texts::{Texts, name_of, only_line};
use categ_combine::{
    BoxFault, BoxFrom, BoxOrigin, Covered, boxes_of, cat_step, fix, fix_apart, step_apart,
};
use edit_language::conditions_text;
use edit_line::{Derived, Line, Origin, Shape};
use edit_model::{Row, Survey, Test};
use edit_normal::normal_lines;
use foundation::{OutOfMemory, Sequence};
use std::alloc::Global;

// Boxes, whether it is known that they lie apart, and how many pairs the last elimination looked at,
// where the last change was one. Boxes that lie apart (none inside another) may be treated by faster
// calls, which require it.
#[derive(Drop)]
struct Boxes {
    list: Vec<BoxFrom>,
    are_apart: bool,
    pairs: Option<u64>,
}

/// The boxes of the lines that fail at the record, in order, after the changes that the words ask for. A
/// change has three words. By `fix FIELD CODE` the field keeps the code. By `cover FIELD MOST` the field
/// is eliminated, looking at `MOST` pairs at most. By `pick I J` only the boxes of these numbers stay,
/// which may be one box twice. Where a number leaves the range, the line and the field are told. The
/// faults are those of `change_boxes`.
pub fn boxes_told(
    alloc: Global,
    survey: &Survey,
    row: &Row,
    words: &[&str],
) -> Result<Texts, CallFault>
    requires { IsRow survey.now.fields row.now }
{
    let lines = derived_lines(alloc, survey)?;
    match boxes_of(alloc, survey, &lines, row) {
        Ok(list) => {
            let boxes = Boxes {
                list,
                are_apart: true,
                pairs: None,
            };
            changed_told(alloc, survey, boxes, words)
        }
        Err(BoxFault::Overflow { line, field }) => {
            let number = from_one(line);
            let mut text = format!(in alloc; "overflow in line {number} at ")?.into_bytes();
            text.extend_from_slice(name_of(survey, field)?)?;
            only_line(alloc, text)
        }
        Err(BoxFault::OutOfMemory) => Err(CallFault::OutOfMemory),
    }
}

// The lines of the rules, each with the number of its rule, from 0, as its origin. The fault of
// `line_over` never comes: these lines are over the survey's fields.
fn derived_lines(alloc: Global, survey: &Survey) -> Result<Vec<Derived>, CallFault>
    ensures { IfOk result (λ lines. All (λ d. d.line.shape ≡ shape_of survey.now.fields) lines.items) }
{
    let shape = Shape::of(survey);
    let mut lines = Vec::new(alloc);
    for made in &normal_lines(alloc, survey)? {
        lines.push(Derived {
            line: line_over(alloc, shape, &made.line)?,
            origin: Origin::Base(u64::from(made.rule)),
        })?;
    }
    Ok(lines)
}

// A copy of the line, which is refused where it is over other fields than `shape`'s (`CallFault::Shape`).
fn line_over(alloc: Global, shape: Shape, line: &Line) -> Result<Line, CallFault>
    ensures { IfOk result (λ copy. copy.shape ≡ domains shape) }
{
    if line.shape() != shape {
        return Err(CallFault::Shape);
    }
    Ok(line.copy(alloc)?)
}

// What is told of the boxes `first` after the changes that the words ask for, three words each. It is
// `passed` where a cover would look at too many pairs. The faults are those of `change_boxes`.
fn changed_told(
    alloc: Global,
    survey: &Survey,
    first: Boxes,
    words: &[&str],
) -> Result<Texts, CallFault>
    requires { first.are_apart ≡ true → LieApart first.list.items }
{
    let mut boxes = first;
    for change in words.chunks(3) {
        let Some(next) = change_boxes(alloc, survey, &boxes, change)? else {
            return only_line(alloc, b"passed".to_vec(alloc)?);
        };
        boxes = next;
    }
    box_texts(alloc, survey, &boxes)
}

// The boxes after the change of these three words, or None where it is a cover that would look at too
// many pairs. `CallFault::Words` where the words are no change. `CallFault::Field` where there is no
// such field or code, and `CallFault::Number` where there is no such box.
fn change_boxes(
    alloc: Global,
    survey: &Survey,
    boxes: &Boxes,
    words: &[&str],
) -> Result<Option<Boxes>, CallFault>
    requires { boxes.now.are_apart ≡ true → LieApart boxes.now.list.items }
    ensures { IfOk result (λ next. IfSome next (λ b. b.are_apart ≡ true → LieApart b.list.items)) }
{
    match words {
        ["fix", field, code] => fix_change(alloc, survey, boxes, field_of(survey, field)?, code),
        ["cover", field, most] => {
            cover_change(
                alloc,
                survey,
                boxes,
                field_of(survey, field)?,
                number_in(most)?,
            )
        }
        ["pick", first, second] => pick_change(alloc, boxes, place_in(first)?, place_in(second)?),
        _ => Err(CallFault::Words),
    }
}

// The boxes at the places `first` and `second`, from 0. It is never None, which other changes may
// answer. `CallFault::Number` where there is no such box. It is not known that the two lie apart, so
// the slower calls treat them next.
fn pick_change(
    alloc: Global,
    boxes: &Boxes,
    first: usize,
    second: usize,
) -> Result<Option<Boxes>, CallFault>
    ensures { IfOk result (λ next. IfSome next (λ b. b.are_apart ≡ true → LieApart b.list.items)) }
{
    let (Some(first), Some(second)) = (boxes.list.get(first), boxes.list.get(second)) else {
        return Err(CallFault::Number);
    };
    let mut list = Vec::new(alloc);
    list.push(first.copy(alloc)?)?;
    list.push(second.copy(alloc)?)?;
    Ok(Some(Boxes {
        list,
        are_apart: false,
        pairs: None,
    }))
}

// The boxes that are left when the field keeps the code of this name. It is never None, which other
// changes may answer. They lie apart, whether the boxes before did or not. `CallFault::Field` where the
// field has no such code.
fn fix_change(
    alloc: Global,
    survey: &Survey,
    boxes: &Boxes,
    field: u32,
    name: &str,
) -> Result<Option<Boxes>, CallFault>
    requires { boxes.now.are_apart ≡ true → LieApart boxes.now.list.items }
    ensures { IfOk result (λ next. IfSome next (λ b. b.are_apart ≡ true → LieApart b.list.items)) }
{
    let shape = Shape::of(survey);
    let Some(declared) = survey.fields().get(field as usize) else {
        return Err(CallFault::Field);
    };
    let code = code_of(declared, name)?;
    if !has_code(&shape, field, code) || !are_over(shape, &boxes.list) {
        return Err(CallFault::Field);
    }
    Ok(Some(Boxes {
        list: fix_boxes(alloc, boxes, field, code)?,
        are_apart: true,
        pairs: None,
    }))
}

// What is left of the boxes where the field keeps the code. It is found by the faster call where it is
// known that they lie apart. `HaveCode` says that the boxes are over fields of which this one has the
// code.
fn fix_boxes(
    alloc: Global,
    boxes: &Boxes,
    field: u32,
    code: u8,
) -> Result<Vec<BoxFrom>, OutOfMemory>
    requires code { HaveCode boxes.now.list.items field code }
    requires apart { boxes.now.are_apart ≡ true → LieApart boxes.now.list.items }
    ensures { IfOk result (λ left. LieApart left.items) }
{
    if boxes.are_apart {
        fix_apart(alloc, &boxes.list, field, code)
    } else {
        fix(alloc, &boxes.list, field, code)
    }
}

// The boxes that are left when the field is eliminated, and how many pairs that looked at. None where
// it would look at more than `most` pairs. `CallFault::Field` where the field is numerical, since it
// has no code 0.
fn cover_change(
    alloc: Global,
    survey: &Survey,
    boxes: &Boxes,
    field: u32,
    most: u64,
) -> Result<Option<Boxes>, CallFault>
    requires { boxes.now.are_apart ≡ true → LieApart boxes.now.list.items }
    ensures { IfOk result (λ next. IfSome next (λ b. b.are_apart ≡ true → LieApart b.list.items)) }
{
    let shape = Shape::of(survey);
    if !has_code(&shape, field, 0) || !are_over(shape, &boxes.list) {
        return Err(CallFault::Field);
    }
    match cover_boxes(alloc, boxes, field, most)? {
        Covered::Done { boxes, pairs } => Ok(Some(Boxes {
            list: boxes.into_vec(),
            are_apart: false,
            pairs: Some(pairs),
        })),
        Covered::Passed => Ok(None),
    }
}

// What the elimination of the field from the boxes gives, by the faster call where it is known that
// they lie apart. It is `Covered::Passed` where it would look at more than `most` pairs.
// `HaveCodeField` says that the boxes are over fields of which this one is categorical.
fn cover_boxes(alloc: Global, boxes: &Boxes, field: u32, most: u64) -> Result<Covered, OutOfMemory>
    requires field { HaveCodeField boxes.now.list.items field }
    requires apart { boxes.now.are_apart ≡ true → LieApart boxes.now.list.items }
{
    if boxes.are_apart {
        step_apart(alloc, &boxes.list, field, most)
    } else {
        cat_step(alloc, &boxes.list, field, most)
    }
}

// Whether the field has the code of this number, from 0. A numerical field has none, so that code 0
// tells whether a field is categorical.
fn has_code(shape: &Shape, field: u32, code: u8) -> bool
    ensures { result ≡ true → code < size_of (domains shape.now) field }
{
    code < shape.size_of(field)
}

// Whether all boxes are over these fields, as those of the survey's own lines are. The calls on boxes
// require it.
fn are_over(shape: Shape, boxes: &[BoxFrom]) -> bool
    ensures { result ≡ true → AreBoxesOver (domains shape) boxes.now }
{
    for i in 0..boxes.len() {
        if boxes[i].shape() != shape {
            return false;
        }
    }
    true
}

// What is told of the boxes: a line of text for each, behind where it comes from. Then comes the number
// of pairs, where the last change was an elimination.
fn box_texts(alloc: Global, survey: &Survey, boxes: &Boxes) -> Result<Texts, CallFault> {
    let mut texts = Vec::new(alloc);
    for each in &boxes.list {
        let mut text = origin_text(alloc, &each.origin)?.into_bytes();
        text.extend_from_slice(&box_text(alloc, survey, each.sets())?)?;
        texts.push(text)?;
    }
    if let Some(pairs) = boxes.pairs {
        texts.push(format!(in alloc; "{pairs} pairs")?.into_bytes())?;
    }
    Ok(texts)
}

// Where a box comes from, and a colon, such as `line 3: `. It is a line that fails, a box before the
// last change that stayed or was fixed, or the boxes of a cover. Numbers are from 1.
fn origin_text(alloc: Global, origin: &BoxOrigin) -> Result<String, CallFault> {
    match origin {
        BoxOrigin::Failing(place) => head_text(alloc, "line", *place),
        BoxOrigin::Unchanged(place) => head_text(alloc, "same", *place),
        BoxOrigin::Fixed(place) => head_text(alloc, "fixed", *place),
        BoxOrigin::Cover(parts) => cover_text(alloc, parts),
    }
}

// The word, the number from 1 of the place `place`, and a colon: `line 3: `.
fn head_text(alloc: Global, word: &str, place: u64) -> Result<String, CallFault> {
    let number = from_one(place);
    Ok(format!(in alloc; "{word} {number}: ")?)
}

// The word `cover`, the numbers, from 1, of the boxes that the cover is made of, and a colon.
fn cover_text(alloc: Global, parts: &Sequence<u64>) -> Result<String, CallFault> {
    let mut text = String::from_str(alloc, "cover")?;
    for part in parts.as_slice() {
        let number = from_one(*part);
        text.push_str(format!(in alloc; " {number}")?.as_str())?;
    }
    text.push_str(": ")?;
    Ok(text)
}

/// What a box of these sets says, as a rule: that codes in them never stand together, such as
/// `if Size in {small} then never`. A set that is whole asks nothing and is left out. `sets` has one set
/// for each categorical field, in order. Want of memory is the only fault.
pub fn box_text(alloc: Global, survey: &Survey, sets: &[u64]) -> Result<Vec<u8>, CallFault> {
    let wholes = Shape::of(survey).whole_sets(alloc)?;
    let mut tests = Vec::new(alloc);
    for ((field, set), whole) in survey.codes().iter().zip(sets).zip(&wholes) {
        if set != whole {
            tests.push(Test::Codes {
                field: *field,
                negated: false,
                codes: *set,
            })?;
        }
    }
    let mut text = conditions_text(alloc, survey.fields(), &tests)?;
    text.extend_from_slice(b"never")?;
    Ok(text)
}
