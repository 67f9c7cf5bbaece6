//! A test of the steps that are written for a path's last box, where two boxes come from one line. A level is a
//! list of lines or boxes that was derived from the level before it. A step is named by its place, from 0.
ghost use Rattle.std.specs.Prelude.{◌≡◌, ◌<◌, ◌∷◌, [], IfOk};
ghost use Rattle.std.specs.Arc.{arc_value};
ghost use Rattle.edit_line.specs.Shapes.{Numerical, domain_of, shape_of};

use categ_combine::{BoxFrom, BoxOrigin};
use derivation::Step;
use edit_line::{CodeBox, Edits, Line, Relation, Shape};
use edit_model::{Field, FieldSet, Kind, Name, Survey};
use edit_paths::{Level, write_steps};
use foundation::{Sequence, Steps};
use linear_elim::{Held, Recompute, Systems};
use std::alloc::Global;
use std::marker::Brand;
use std::sync::Arc;
use std::sync::ledger::{Blank, Ledger};
use std::test::Fail;

// A survey of one numerical field, Costs, and no rule. A want of memory ends the test.
fn survey_of_one(alloc: Global) -> Result<Survey, Fail>
    ensures { IfOk result (λ survey. shape_of survey.fields ≡ Numerical ∷ []) }
{
    let fields = vec![in alloc;
        Field {
            name: Name::new(b"Costs").ok_or("a name")?,
            weight: 1,
            kind: Kind::Number { scale: 1 },
        },
    ]?;
    Ok(
        Survey::new(alloc, fields, Vec::new(alloc))
            .ok()
            .ok_or("a survey")?,
    )
}

// The edits of one line alone, numbered `number`: the survey's one field is not below 0.
fn edits_of_one_line(alloc: Global, survey: &Survey, number: u32) -> Result<Arc<Edits>, Fail>
    requires { shape_of survey.now.fields ≡ Numerical ∷ [] }
    ensures { IfOk result (λ edits. (arc_value edits).shape ≡ Numerical ∷ []) }
{
    let line = Line::new(
        survey,
        Vec::new(alloc),
        vec![in alloc; 1]?,
        0,
        Relation::AtLeast,
    );
    let edits = Edits::new(alloc, survey, vec![in alloc; (number, line)]?)
        .ok()
        .ok_or("edits")?;
    Ok(Arc::new(alloc, edits)?)
}

// The derived system of the edits that elimination starts from: no field is gone, and the lines are reduced.
// `blank` starts a counter of steps, which nobody reads. It is one of the ledger `L`: it has its name and its
// number of parts.
fn start_system<L: Ledger>(alloc: Global, edits: &Arc<Edits>, blank: Blank) -> Result<Held, Fail>
    requires name { blank.name ≡ L.name }
    requires parts { blank.parts ≡ L.parts }
    requires counts { 0 < blank.parts }
{
    let mut steps = Steps::<L>::start(blank);
    Ok(
        Recompute
            .system(alloc, edits, FieldSet::empty(), &mut steps)
            .ok()
            .ok_or("a system")?,
    )
}

// The derived system of the edits that elimination starts from. The blank for its counter of steps is made
// here, so that a test needs none.
fn start_system_uncounted(alloc: Global, edits: &Arc<Edits>) -> Result<Held, Fail> {
    start_system::<Brand>(alloc, edits, Blank::new(1))
}

// The level of boxes of these origins, made when this field was treated. The survey has no categorical field, so
// the boxes have no sets: only how they were made counts.
fn box_level(
    alloc: Global,
    survey: &Survey,
    field: u32,
    origins: Vec<BoxOrigin>,
) -> Result<Level, Fail>
    requires { shape_of survey.now.fields ≡ Numerical ∷ [] }
{
    let mut boxes = Vec::new(alloc);
    for origin in origins {
        let code_box = CodeBox::over(Shape::of(survey), Vec::new(alloc));
        boxes.push(BoxFrom { code_box, origin })?;
    }
    Ok(Level::Boxes {
        field,
        boxes: Arc::new(alloc, Sequence::from_vec(boxes))?,
    })
}

// The levels of the test's path, from the first on. They are a line, and two boxes of it. Then come a box fixed
// at a field and a cover of both boxes, and last that cover unchanged.
fn test_levels(alloc: Global, survey: &Survey) -> Result<Vec<Level>, Fail>
    requires { shape_of survey.now.fields ≡ Numerical ∷ [] }
{
    let given = start_system_uncounted(alloc, &edits_of_one_line(alloc, survey, 7)?)?;
    let failing = vec![in alloc; BoxOrigin::Failing(0), BoxOrigin::Failing(0)]?;
    let parts = Sequence::from_vec(vec![in alloc; 1, 0, 1]?);
    let cover = vec![in alloc; BoxOrigin::Fixed(0), BoxOrigin::Cover(parts)]?;
    let unchanged = vec![in alloc; BoxOrigin::Unchanged(1)]?;
    Ok(vec![in alloc;
        Level::Lines(Arc::new(alloc, given)?),
        box_level(alloc, survey, 0, failing)?,
        box_level(alloc, survey, 1, cover)?,
        box_level(alloc, survey, 2, unchanged)?,
    ]?)
}

// Two boxes come from one failing line. Its edit, number 7, is given once. The cover names the two boxes by the
// places of their steps, in the order of its parts.
#[test]
fn a_line_that_two_boxes_come_from_is_given_once(rt: HostRuntime) -> Result<(), Fail> {
    let alloc = rt.alloc();
    let survey = survey_of_one(alloc)?;
    let steps = write_steps(alloc, &test_levels(alloc, &survey)?, 0)?;
    let is_as_expected = match steps.as_slice() {
        [
            Step::Given(7),
            Step::Fail(0),
            Step::Fail(0),
            Step::Cover { field: 1, parts },
        ] => { parts.as_slice() == [1, 2, 1].as_slice() }
        _ => false,
    };
    assert!(rt; is_as_expected);
    Ok(())
}
