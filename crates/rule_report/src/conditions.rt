//! The sets of a line as conditions of a rule, for the text of a line.
ghost use Rattle.std.specs.Prelude.{◌≡◌, ◌++◌, ◌∷◌, [], ◌==◌, IfOk, OnOk, false, if◌then◌else◌, length};
ghost use Rattle.edit_model.specs.declared.rule.Test.TheVariants as test;
ghost use Rattle.edit_line.specs.Shapes.{code_fields, shape_of, whole_sets};
ghost use Rattle.rule_report.specs.LineTexts.{conditions_of};

use edit_line::Line;
use edit_model::{Survey, Test};
use foundation::OutOfMemory;
use std::alloc::Global;

/// The conditions of a line: for each categorical field whose set is not whole, that its code is in the
/// set. A whole set asks nothing.
pub(crate) fn conditions_of(
    alloc: Global,
    survey: &Survey,
    line: &Line,
) -> Result<Vec<Test>, OutOfMemory>
    requires { line.now.shape ≡ shape_of survey.now.fields }
    ensures { IfOk result (λ tests. tests.items ≡ conditions_of (code_fields line.now.shape) line.now.sets (whole_sets line.now.shape)) }
{
    let wholes = line.shape().whole_sets(alloc)?;
    tests_of(alloc, survey.codes(), line.sets(), &wholes)
}

// The conditions of these fields, from the set of each (`sets`) and the set of all its codes (`wholes`),
// place by place.
fn tests_of(
    alloc: Global,
    fields: &[u32],
    sets: &[u64],
    wholes: &[u64],
) -> Result<Vec<Test>, OutOfMemory>
    requires sets { length sets.now ≡ length fields.now }
    requires wholes { length wholes.now ≡ length fields.now }
    ensures { IfOk result (λ tests. tests.items ≡ conditions_of fields.now sets.now wholes.now) }
{
    let mut tests = Vec::new(alloc);
    for (place, field) in fields.iter().enumerate() {
        push_test(&mut tests, *field, sets[place], wholes[place])?;
    }
    Ok(tests)
}

// Puts behind the others the condition that the field's code is in `set`. Nothing is put where the set is
// `whole`, the set of all codes of the field, since that asks nothing.
fn push_test(tests: &mut Vec<Test>, field: u32, set: u64, whole: u64) -> Result<(), OutOfMemory>
    ensures { OnOk result (tests.new.items ≡ tests.old.items ++ (if set == whole then [] else test.Codes field false set ∷ [])) }
{
    if set != whole {
        tests.push(Test::Codes {
            field,
            negated: false,
            codes: set,
        })?;
    }
    Ok(())
}
