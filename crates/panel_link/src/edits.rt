//! The edits by which a record of a panel is searched. They are the lines of the survey's rules, and
//! behind them the pins of the record's values at the fixed fields.
ghost use Rattle.std.specs.Prelude.{◌≡◌, ◌<◌, ◌≤◌, ◌^◌, ◌++◌, [], IfOk, OnOk, if◌then◌else◌, length, map};
ghost use Rattle.std.specs.Arc.{arc_value};
ghost use Rattle.edit_line.specs.Shapes.{shape_of};
ghost use Rattle.edit_model.specs.FieldSets.{has_number};
ghost use Rattle.edit_model.specs.Rows.{IsRow, value_of};
ghost use Rattle.edit_normal.specs.RuleEdits.{placed_from};
ghost use Rattle.edit_normal.specs.RuleLines.{normal_lines_of};
ghost use Rattle.panel_link.specs.Pins.{linked_edits, linked_lines};
ghost use Rattle.panel_link.specs.inner.PinLines.{pin_of};

use crate::pins::{push_line, push_pin};
use edit_line::{Edits, Line};
use edit_model::{FieldSet, Row, Survey};
use edit_normal::RuleLine;
use foundation::OutOfMemory;
use std::alloc::Global;
use std::sync::Arc;

/// The edits of the lines of the survey's rules, and of the pins of the record's values at the fixed
/// fields. The lines come first, and the pins in path order. Each line's number is its place, from 0.
/// `lines` are the lines of the rules.
pub(crate) fn linked_edits(
    alloc: Global,
    survey: &Survey,
    lines: &[RuleLine],
    row: &Row,
    fixed: FieldSet,
) -> Result<Arc<Edits>, OutOfMemory>
    requires row { IsRow survey.now.fields row.now }
    requires lines { map (λ l. l.line) lines.now ≡ normal_lines_of survey.now }
    ensures { IfOk result (λ edits. arc_value edits ≡ linked_edits survey.now row.now fixed) }
{
    let _fields = survey.fields(); // read for what it says: they are in form
    let mut all = numbered_lines(alloc, lines)?;
    push_pins(alloc, survey, row, fixed, &mut all)?;
    Ok(Arc::new(alloc, Edits::new(alloc, survey, all)?)?)
}

// Copies of the lines of the rules, in order, each with its place, from 0, as its number. Behind them the pins
// are put.
fn numbered_lines(alloc: Global, lines: &[RuleLine]) -> Result<Vec<(u32, Line)>, OutOfMemory>
    requires { length lines.now ≤ 1000 }
    ensures { IfOk result (λ placed. placed.items ≡ placed_from 0 (map (λ l. l.line) lines.now)) }
{
    let mut placed = Vec::with_capacity(alloc, lines.len())?;
    for rule_line in lines {
        push_line(&mut placed, rule_line.line.copy(alloc)?)?;
    }
    Ok(placed)
}

// Puts the pins of the record's values at the fixed fields behind the lines of the rules, in path order.
// Each is numbered by its place among all `lines`.
fn push_pins(
    alloc: Global,
    survey: &Survey,
    row: &Row,
    fixed: FieldSet,
    lines: &mut Vec<(u32, Line)>,
) -> Result<(), OutOfMemory>
    requires row { IsRow survey.now.fields row.now }
    requires few { length (normal_lines_of survey.now) ≤ 1000 }
    requires lines { lines.old.items ≡ placed_from 0 (normal_lines_of survey.now) }
    ensures { OnOk result (lines.new.items ≡ placed_from 0 (linked_lines survey.now row.now fixed)) }
{
    for place in 0..survey.fields().len() as u32 {
        push_if_fixed(alloc, survey, row, fixed, survey.path_field(place), lines)?;
    }
    Ok(())
}

// Puts the pin of the record's value at this one field behind `lines`, numbered by its place, from 0. It
// changes nothing where the field is not fixed, or has no pin.
fn push_if_fixed(
    alloc: Global,
    survey: &Survey,
    row: &Row,
    fixed: FieldSet,
    field: u32,
    lines: &mut Vec<(u32, Line)>,
) -> Result<(), OutOfMemory>
    requires row { IsRow survey.now.fields row.now }
    requires field { field < length survey.now.fields }
    requires few { length lines.old.items < 2 ^ 32 }
    ensures { OnOk result (lines.new.items ≡ lines.old.items ++ placed_from (length lines.old.items)
        (if has_number fixed field then pin_of (shape_of survey.now.fields) field (value_of row.now field) else [])) }
{
    let _fields = survey.fields(); // read for what it says: there are at most 64
    if fixed.has(field) {
        push_pin(alloc, survey, row, field, lines)?;
    }
    Ok(())
}
