//! The checking of the certificate, and the line of text that tells its verdict. The survey, the line
//! and the record that it is about are made here. In contracts, `IsVerdict` says that the text tells the
//! truth: the leaves are those of a valid tree, or where they are first at fault.
ghost use Rattle.std.specs.Prelude.{◌≡◌, ◌+◌, ◌≤◌, ◌<◌, ◌∷◌, [], IfOk, IsTrue, None, length, string_bytes};
ghost use Rattle.edit_line.specs.Lines.{AreOver};
ghost use Rattle.edit_line.specs.Shapes.{shape_of};
ghost use Rattle.edit_model.specs.Parts.{survey_of};
ghost use Rattle.edit_model.specs.Rows.{IsRow};
ghost use Rattle.edit_model.specs.Surveys.{IsField, is_letter};
ghost use Rattle.bound_cert.specs.ValidTrees.{tree_case};
ghost use Rattle.certificate_bench.specs.inner.Cases.{case_of, false_line, field_count, field_named, fields_of, unknown_row};
ghost use Rattle.certificate_bench.specs.inner.Certificates.{leaves_of};
ghost use Rattle.certificate_bench.specs.inner.Texts.{step_number};
ghost use Rattle.certificate_bench.specs.inner.Told.{IsVerdict};

use crate::certificate::Plan;
use bound_cert::{Cert, CertFault, check_cert};
use edit_line::{Line, Relation};
use edit_model::{Field, Kind, Name, Row, Survey, Value};
use foundation::OutOfMemory;
use std::alloc::Global;

/// The verdict on the certificate that is asked for, as a line of text with its line feed. The survey
/// has a numerical field for each letter of the paths, one at least; of the record nothing is known. The
/// line `-1 >= 0` is usable. The certificate is said to show that there is no correction.
pub fn plan_text(alloc: Global, plan: Plan) -> Result<String, OutOfMemory>
    requires { plan.depth ≤ 20 }
    ensures { IfOk result (λ text. IsVerdict (case_of plan.depth) (leaves_of plan) (string_bytes text)) }
{
    let count = field_count(plan.depth);
    let survey = survey_of(alloc, count)?;
    let given = vec![in alloc; false_line(alloc, &survey, count)?]?;
    let usable = vec![in alloc; true]?;
    let row = unknown_row(alloc, &survey, count)?;
    let cert = plan.cert(alloc)?;
    verdict_text(alloc, &survey, &given, &usable, &row, &cert)
}

// A line of text, with its line feed, that is the checker's verdict on a certificate that there is no
// correction. It has how many leaves are accepted, or the number, from 1, of the refused leaf. The step
// behind that is from 1, too, or 0 where the leaf itself is to blame.
fn verdict_text(
    alloc: Global,
    survey: &Survey,
    given: &[Line],
    usable: &[bool],
    row: &Row,
    cert: &Cert,
) -> Result<String, OutOfMemory>
    requires lists { length given.now ≡ length usable.now }
    requires over { AreOver (shape_of survey.now.fields) given.now }
    requires row { IsRow survey.now.fields row.now }
    ensures { IfOk result (λ text. IsVerdict (tree_case survey.now given.now usable.now row.now None) cert.now.leaves (string_bytes text)) }
{
    match check_cert(alloc, survey, given, usable, row, cert, None) {
        Ok(()) => {
            let count = cert.leaves.len();
            Ok(format!(in alloc; "accepted {count} leaves\n")?)
        }
        Err(CertFault::Bad { leaf, step }) => {
            let leaf = u128::from(leaf) + 1;
            let step = step_number(step);
            Ok(format!(in alloc; "refused leaf {leaf} step {step}\n")?)
        }
        Err(CertFault::OutOfMemory) => Err(OutOfMemory),
    }
}

// The number of the step, from 1, or 0 where no step is named.
fn step_number(step: Option<u64>) -> u128
    ensures { result ≡ step_number step }
{
    match step {
        None => 0,
        Some(place) => u128::from(place) + 1,
    }
}

// How many fields the survey has for a tree of this depth: as many as its paths have letters, and one
// where they have none.
fn field_count(depth: u32) -> usize
    requires { depth ≤ 20 }
    ensures count { result ≡ field_count depth }
    ensures few { result ≤ 20 }
{
    if depth == 0 { 1 } else { depth as usize }
}

// A survey of `count` numerical fields, named by the letters from `a` on, without rules.
fn survey_of(alloc: Global, count: usize) -> Result<Survey, OutOfMemory>
    requires { count ≤ 20 }
    ensures { IfOk result (λ survey. survey ≡ survey_of (fields_of count) []) }
{
    let mut fields = Vec::new(alloc);
    for i in 0..count {
        fields.push(field_named(b'a' + i as u8))?;
    }
    Survey::of(alloc, fields, Vec::new(alloc))
}

// The numerical field with this letter for its name.
fn field_named(letter: u8) -> Field
    requires { IsTrue (is_letter letter) }
    ensures field { result ≡ field_named letter }
    ensures form { IsField result }
{
    match Name::new(&[letter]) {
        Some(name) => Field {
            name,
            weight: 1,
            kind: Kind::Number { scale: 1 },
        },
        None => unreachable!(),
    }
}

// The line `-1 >= 0` over the `count` fields of the survey, which no point meets.
fn false_line(alloc: Global, survey: &Survey, count: usize) -> Result<Line, OutOfMemory>
    requires { survey.now.fields ≡ fields_of count }
    ensures { IfOk result (λ line. line ≡ false_line count) }
{
    let factors = vec![in alloc; 0; count]?;
    Ok(Line::new(survey, Vec::new(alloc), factors, -1, Relation::AtLeast))
}

// A record without a value at any of the `count` fields of the survey.
fn unknown_row(alloc: Global, survey: &Survey, count: usize) -> Result<Row, OutOfMemory>
    requires { survey.now.fields ≡ fields_of count }
    ensures row { IfOk result (λ row. IsRow survey.now.fields row) }
    ensures unknown { IfOk result (λ row. row ≡ unknown_row count) }
{
    let values = vec![in alloc; Value::Bad; count]?;
    Ok(Row::new(survey, values))
}
