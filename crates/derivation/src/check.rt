//! The check of a derivation, step by step, and what its last step proves. In contracts, `AreValidSteps`
//! says that all steps are valid and what the last proves; `IsFirstInvalid` names the first that is not.
//! `IsShown` says what such a proof shows, and `premises_over` has what steps may build on. `IsBasis` says
//! that a basis's parts fit.
ghost use Rattle.std.specs.Prelude.{◌≡◌, ◌<◌, ◌⊎◌, Err, IfOk, Ok, [], length, map, ℕ};
ghost use Rattle.edit_model.specs.Rows.{IsRow};
ghost use Rattle.edit_line.specs.Lines.{AreOver};
ghost use Rattle.edit_line.specs.Shapes.{shape_of};
ghost use Rattle.derivation.specs.declared.fault.StepsFault.TheVariants.{Bad};
ghost use Rattle.derivation.specs.inner.Bases.{IsBasis, premises, shape_in};
ghost use Rattle.derivation.specs.inner.Meanings.{AllOver, meaning, meant};
ghost use Rattle.derivation.specs.Premises.{HasKept, premises_over};
ghost use Rattle.derivation.specs.Shown.{IsOver, IsShown};
ghost use Rattle.derivation.specs.ValidSteps.{AreValidSteps, IsFirstInvalid, last_proved, proved_by, proved_from};

use crate::basis::Basis;
use crate::combining::{Multipliers, combine_step};
use crate::covering::cover_step;
use crate::failing::fail_step;
use crate::fault::StepsFault;
use crate::fixing::fix_step;
use crate::given::given_step;
use crate::known::Known;
use crate::proved::Proved;
use crate::step::Step;
use edit_line::Line;
use edit_model::{FieldSet, Row, Survey};
use foundation::OutOfMemory;
use std::alloc::Global;

/// What the last of the steps proves, exactly where there is one and each is valid. A step may name the
/// usable of the given lines, which are over the survey's fields, and what earlier steps proved. The
/// record has values at the `kept` fields. Bad names the first step that is not valid, and place 0 where
/// there are no steps.
///
/// A line that is proved follows from the usable lines. A box that is proved forbids its codes to each
/// point that meets these lines and has the record's values at the kept fields. Each step takes time in
/// proportion to its own size.
pub fn check_steps(
    alloc: Global,
    survey: &Survey,
    given: &[Line],
    usable: &[bool],
    row: &Row,
    kept: FieldSet,
    steps: &[Step],
) -> Result<Proved, StepsFault>
    requires lists { length given.now ≡ length usable.now }
    requires over { AreOver (shape_of survey.now.fields) given.now }
    requires row { IsRow survey.now.fields row.now }
    requires kept { HasKept row.now kept }
    ensures proved { IfOk result (λ proved. AreValidSteps (premises_over survey.now given.now usable.now row.now kept) steps.now proved) }
    ensures bad { (place : ℕ) → result ≡ Err (Bad place)
        → IsFirstInvalid (premises_over survey.now given.now usable.now row.now kept) steps.now place }
    ensures named { (place : ℕ) → result ≡ Err (Bad place) → ((steps.now ≡ []) × (place ≡ 0)) ⊎ (place < length steps.now) }
    ensures shown { IfOk result (λ proved. IsShown (premises_over survey.now given.now usable.now row.now kept) proved) }
    ensures over { IfOk result (λ proved. IsOver (shape_of survey.now.fields) proved) }
{
    let basis = Basis {
        survey,
        given,
        usable,
        row,
        kept,
    };
    match known_of(alloc, &basis, steps) {
        Ok(known) => last_known(alloc, known),
        Err(fault) => Err(fault),
    }
}

// What the last step proved, which is what the whole list proves. Bad at place 0 where there is no
// step.
fn last_known(alloc: Global, mut known: Vec<Known>) -> Result<Proved, StepsFault>
    ensures proved { IfOk result (λ proved. last_proved (Ok (map meaning known.entry.items)) ≡ Ok proved) }
    ensures bad { (place : ℕ) → result ≡ Err (Bad place) → last_proved (Ok (map meaning known.entry.items)) ≡ Err place }
{
    match known.pop() {
        None => Err(StepsFault::Bad { place: 0 }),
        Some(last) => Ok(last.into_proved(alloc)?),
    }
}

// What each of the steps proves, in order, or Bad with the place, from 0, of the first that is not
// valid.
fn known_of<'a>(
    alloc: Global,
    basis: &Basis<'a>,
    steps: &[Step],
) -> Result<Vec<Known<'a>>, StepsFault>
    requires { IsBasis basis.now }
    ensures proved { IfOk result (λ known. proved_from (premises basis.now) [] steps.now ≡ Ok (map meaning known.items)) }
    ensures bad { (place : ℕ) → result ≡ Err (Bad place) → proved_from (premises basis.now) [] steps.now ≡ Err place }
{
    let mut known = Vec::with_capacity(alloc, steps.len())?;
    for step in steps {
        let Some(made) = take_step(alloc, basis, &known, step)? else {
            return Err(StepsFault::Bad {
                place: known.len() as u64,
            });
        };
        known.push(made)?;
    }
    Ok(known)
}

// What the step proves, a line or a box, from what the earlier steps proved, which `known` has. None
// where it is not valid.
fn take_step<'a>(
    alloc: Global,
    basis: &Basis<'a>,
    known: &[Known<'a>],
    step: &Step,
) -> Result<Option<Known<'a>>, OutOfMemory>
    requires basis { IsBasis basis.now }
    requires over { AllOver (shape_in basis.now) known.now }
    ensures { IfOk result (λ made. meant made ≡ proved_by (premises basis.now) (map meaning known.now) step.now) }
{
    match step {
        Step::Given(place) => Ok(given_step(basis, *place)),
        Step::Combine { a, m, b, n, g } => {
            let by = Multipliers {
                first: *m,
                second: *n,
                divisor: *g,
            };
            combine_step(alloc, basis, known, *a, *b, by)
        }
        Step::Fail(a) => fail_step(alloc, basis, known, *a),
        Step::Cover { field, parts } => cover_step(alloc, basis, known, *field, parts.as_slice()),
        Step::Fix { field, part } => fix_step(alloc, basis, known, *field, *part),
    }
}
