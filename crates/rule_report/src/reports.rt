//! The lines of a report on rules. Each line of the rules has its number, its verdict and its text, and
//! behind a dropped one stand its steps.
ghost use Rattle.std.specs.Prelude.{◌≡◌, ◌++◌, ◌∷◌, IfOk, OnOk, codes, map};
ghost use Rattle.edit_line.specs.Lines.{AreOver};
ghost use Rattle.edit_line.specs.Shapes.{shape_of};
ghost use Rattle.rule_report.specs.Reports.{head_text, step_text, reports_from, texts_of, verdict_text};
ghost use Rattle.rule_report.specs.inner.Written.{texts_in};

use crate::lines::line_text;
use derivation::Step;
use edit_line::Line;
use edit_model::Survey;
use foundation::OutOfMemory;
use itoa::Buffer;
use proof_text::write_step;
use redundancy::{Verdict, Why};
use std::alloc::Global;

/// What is printed of lines over the survey's fields and the verdicts on them, of which each is on the
/// line at its place. For each line that is its number, from 1, what becomes of it, and its text. Behind
/// a dropped one stand the steps that refute its negation. Each text is one line without its line feed.
/// Where one list is shorter, the rest of the other is left out.
pub fn report(
    alloc: Global,
    survey: &Survey,
    lines: &[Line],
    verdicts: &[Verdict],
) -> Result<Vec<Vec<u8>>, OutOfMemory>
    requires over { AreOver (shape_of survey.now.fields) lines.now }
    ensures texts { IfOk result (λ texts. map (λ t. t.items) texts.items ≡ reports_from survey.now.fields 1 lines.now verdicts.now) }
{
    let mut texts = Vec::new(alloc);
    for place in 0..lines.len().min(verdicts.len()) {
        let (line, verdict) = (&lines[place], &verdicts[place]);
        push_texts(alloc, &mut texts, survey, place + 1, line, verdict)?;
    }
    Ok(texts)
}

// Puts the texts of one line of the rules behind the others: its head, and the steps of a dropped one.
// `number` is the line's, from 1.
fn push_texts(
    alloc: Global,
    texts: &mut Vec<Vec<u8>>,
    survey: &Survey,
    number: usize,
    line: &Line,
    verdict: &Verdict,
) -> Result<(), OutOfMemory>
    requires { line.now.shape ≡ shape_of survey.now.fields }
    ensures { OnOk result (texts_in texts.new.items ≡ texts_in texts.old.items ++ texts_of survey.now.fields number line.now verdict.now) }
{
    texts.push(head_text(alloc, survey, number, line, verdict)?)?;
    match verdict {
        Verdict::Kept(_) => Ok(()),
        Verdict::Dropped(steps) => push_steps(alloc, texts, steps.as_slice()),
    }
}

// The head of a line, such as `3 dropped Staff - 9 >= 0`: its number, from 1, what becomes of it, and
// its text.
fn head_text(
    alloc: Global,
    survey: &Survey,
    number: usize,
    line: &Line,
    verdict: &Verdict,
) -> Result<Vec<u8>, OutOfMemory>
    requires { line.now.shape ≡ shape_of survey.now.fields }
    ensures { IfOk result (λ text. text.items ≡ head_text survey.now.fields number line.now verdict.now) }
{
    let mut text = Vec::new(alloc);
    let mut buffer = Buffer::new();
    text.extend_from_slice(buffer.format(number).as_bytes())?;
    text.push(b' ')?;
    text.extend_from_slice(verdict_text(verdict))?;
    text.push(b' ')?;
    text.extend_from_slice(&line_text(alloc, survey, line)?)?;
    Ok(text)
}

// The words for what becomes of a line, and for a line that is kept, why.
fn verdict_text(verdict: &Verdict) -> &'static [u8]
    ensures { result.now ≡ verdict_text verdict.now }
{
    match verdict {
        Verdict::Kept(Why::Needed) => b"kept needed",
        Verdict::Kept(Why::Budget) => b"kept budget",
        Verdict::Kept(Why::Overflow) => b"kept overflow",
        Verdict::Kept(Why::Equality) => b"kept equality",
        Verdict::Dropped(_) => b"dropped",
    }
}

// Puts the texts of the steps behind the others, one for each step.
fn push_steps(alloc: Global, texts: &mut Vec<Vec<u8>>, steps: &[Step]) -> Result<(), OutOfMemory>
    ensures { OnOk result (texts_in texts.new.items ≡ texts_in texts.old.items ++ map step_text steps.now) }
{
    for step in steps {
        texts.push(step_text(alloc, step)?)?;
    }
    Ok(())
}

// The text of a step, as in a proof file, behind two spaces, which set it off from the lines.
fn step_text(alloc: Global, step: &Step) -> Result<Vec<u8>, OutOfMemory>
    ensures { IfOk result (λ text. text.items ≡ step_text step.now) }
{
    let mut text = Vec::new(alloc);
    text.extend_from_slice(b"  ")?;
    write_step(&mut text, step)?;
    Ok(text)
}
