//! The boxes of a record: what its lines forbid of codes, given its numbers. Elimination of categorical
//! fields begins with them. In contracts, `failing_from` has these boxes, or the first line and field at
//! which a sum leaves the range. `SayTheLines` says that codes avoid the boxes exactly where the lines
//! hold.
ghost use Rattle.std.specs.Prelude.{◌≡◌, [], All, Err, IfOk, Ok, OnOk, ℕ};
ghost use Rattle.edit_model.specs.Rows.{IsRow};
ghost use Rattle.edit_line.specs.Reductions.{lines_of};
ghost use Rattle.edit_line.specs.Shapes.{shape_of};
ghost use Rattle.categ_combine.specs.Apart.{LieApart};
ghost use Rattle.categ_combine.specs.BoxLists.{AreBoxesOver, sets_of};
ghost use Rattle.categ_combine.specs.FailingBoxes.{SayTheLines, failing_boxes, failing_from, line_fault, taken};
ghost use Rattle.categ_combine.specs.Origins.{AllCome, ComesFromLine};
ghost use Rattle.categ_combine.specs.declared.fault.BoxFault.TheVariants.{Overflow};

use crate::box_from::{BoxFrom, BoxOrigin};
use crate::fault::BoxFault;
use crate::reduction::take_in;
use edit_line::{CodeBox, Derived, Line, fails};
use edit_model::{Row, Survey};
use foundation::OutOfMemory;
use std::alloc::Global;

/// The boxes of codes that the lines forbid at the record: the sets of the lines that fail there, in order,
/// without those that lie inside another. Each has the place of its line as its origin. A field that is Bad
/// adds nothing to a line's sum. Overflow exactly where a line's sum leaves the range, at the first line of
/// which it does and at the first field. At a point with the record's values at the fields that stand in
/// the lines, these all hold exactly where the codes avoid the boxes.
pub fn boxes_of(
    alloc: Global,
    survey: &Survey,
    lines: &[Derived],
    row: &Row,
) -> Result<Vec<BoxFrom>, BoxFault>
    requires shape { All (λ derived. derived.line.shape ≡ shape_of survey.now.fields) lines.now }
    requires row { IsRow survey.now.fields row.now }
    ensures exact { IfOk result (λ boxes. failing_from 0 lines.now row.now [] ≡ Ok boxes.items) }
    ensures over { IfOk result (λ boxes. AreBoxesOver (shape_of survey.now.fields) boxes.items) }
    ensures sets { IfOk result (λ boxes. failing_boxes (lines_of lines.now) row.now ≡ Ok (sets_of boxes.items)) }
    ensures overflow { (line field : ℕ) → result ≡ Err (Overflow line field)
        → failing_from 0 lines.now row.now [] ≡ Err (line_fault line field) }
    ensures overflow_sets { (line field : ℕ) → result ≡ Err (Overflow line field)
        → failing_boxes (lines_of lines.now) row.now ≡ Err (line_fault line field) }
    ensures origins { IfOk result (λ boxes. AllCome (ComesFromLine lines.now row.now) boxes.items) }
    ensures forbid { IfOk result (λ boxes. SayTheLines (shape_of survey.now.fields) lines.now row.now boxes.items) }
    ensures apart { IfOk result (λ boxes. LieApart boxes.items) }
{
    let mut kept = Vec::new(alloc);
    for (i, derived) in lines.iter().enumerate() {
        match fails(survey, &derived.line, row) {
            Ok(failed) => take_line(alloc, &mut kept, i as u64, &derived.line, failed)?,
            Err(overflow) => {
                return Err(BoxFault::Overflow {
                    line: i as u64,
                    field: overflow.field,
                });
            }
        }
    }
    Ok(kept)
}

// Takes the sets of the line at the place, from 0, into the kept boxes, if its linear part failed at
// the record. Codes that are all in them are then forbidden. If it did not fail, nothing is done.
fn take_line(
    alloc: Global,
    kept: &mut Vec<BoxFrom>,
    place: u64,
    line: &Line,
    failed: bool,
) -> Result<(), OutOfMemory>
    ensures { OnOk result (kept.new.items ≡ taken kept.old.items place line.now failed) }
{
    if !failed {
        return Ok(());
    }
    let sets = Vec::from_slice(alloc, line.sets())?;
    let code_box = CodeBox::over(line.shape(), sets);
    take_in(
        kept,
        BoxFrom {
            code_box,
            origin: BoxOrigin::Failing(place),
        },
    )
}
