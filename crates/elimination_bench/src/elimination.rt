//! What is done with generated edits: numerical fields are eliminated from them, and what is left is
//! counted. Each call makes the text that the program prints. `differences` says which edits are
//! generated, and the definition `numbers_of` how many numerical fields they have. `IsTold` says that
//! the text, or the overflow, is that of the definition; want of memory may always come.
ghost use Rattle.std.specs.Prelude.{◌≡◌, ◌<◌, ◌≤◌, ◌++◌, [], ◌∷◌, ℕ, Ok, Err, IfOk, IfErr, string_bytes, true};
ghost use Rattle.std.specs.Arc.{arc_value};
ghost use Rattle.edit_model.specs.FieldSets.{has_number};
ghost use Rattle.linear_elim.specs.Answers.{Answers};
ghost use Rattle.linear_elim.specs.Steps.{OneShape, step_result};
ghost use Rattle.linear_elim.specs.Systems.{AreNumerical, system_at};
ghost use Rattle.linear_elim.specs.Told.{told_system};
ghost use Rattle.elimination_bench.specs.inner.Differences.{numbers_of};
ghost use Rattle.elimination_bench.specs.inner.Folds.{fold_answer, pairs_answer, step_line, steps_answer};
ghost use Rattle.elimination_bench.specs.inner.Texts.{IsTold, step_fault_of, system_fault_of};

use crate::differences::Differences;
use bench_frame::Fault;
use edit_line::{Derived, Edits};
use edit_model::FieldSet;
use foundation::Steps;
use linear_elim::{StepFault, System, SystemFault, fold_system, pairs, step};
use std::alloc::Global;
use std::marker::Brand;
use std::sync::Arc;
use std::sync::ledger::{Blank, Ledger};

/// How many edits there are, and how many lines are left without the first `count` fields, as a line of
/// text with its line feed. `Fault::Overflow` where a number of a combination leaves the range.
pub fn fold_text(alloc: Global, differences: Differences, count: u32) -> Result<String, Fault>
    requires { count ≤ numbers_of differences }
    ensures { IsTold result (fold_answer differences count) }
{
    let edits = Arc::new(alloc, differences.edits(alloc)?)?;
    let system = match system_of(alloc, &edits, first_fields(count)) {
        Ok(system) => system,
        Err(fault) => return Err(system_fault(fault)),
    };
    let given = edits.lines().len();
    let left = system.lines().len();
    Ok(format!(in alloc; "fields {count} edits {given} lines {left}\n")?)
}

/// How many pairs are combined and how many lines are left, a line of text for each of the first `count`
/// fields. These are eliminated one after the other from the edits that `differences` generates, each of
/// which bounds the difference of two fields. `Fault::Overflow` where a number of a combination leaves
/// the range.
pub fn pairs_text(alloc: Global, differences: Differences, count: u32) -> Result<String, Fault>
    requires some { 1 ≤ count }
    requires few { count ≤ numbers_of differences }
    ensures { IsTold result (pairs_answer differences count) }
{
    let edits = differences.edits(alloc)?;
    let mut text = String::new(alloc);
    let mut lines = take_step(alloc, edits.reduced(), 0, &mut text)?;
    for field in 1..count {
        lines = take_step(alloc, &lines, field, &mut text)?;
    }
    Ok(text)
}

// The lines that are left of these when the field is eliminated. A line of text is appended that says
// how many, and how many pairs are combined. `Fault::Overflow` where a number of a combination leaves
// the range. `OneShape` says that all lines are over the same fields.
fn take_step(
    alloc: Global,
    lines: &[Derived],
    field: u32,
    text: &mut String,
) -> Result<Vec<Derived>, Fault>
    requires { OneShape lines.now }
    ensures step { IfOk result (λ next. step_result lines.now field ≡ Ok next.items) }
    ensures text { IfOk result (λ next. string_bytes text.new ≡ string_bytes text.old ++ step_line lines.now field next.items) }
    ensures fault { IfErr result (λ fault. IsTold (Err fault) (steps_answer lines.now (field ∷ []))) }
{
    let pairs = pairs(lines, field);
    let next = step(alloc, lines, field).map_err(step_fault)?;
    let left = next.len();
    text.push_str(format!(in alloc; "field {field} pairs {pairs} lines {left}\n")?.as_str())?;
    Ok(next)
}

// The fault that the bench tells where a system is not made. Either a number left the range, wherever
// it was, or memory was refused.
fn system_fault(fault: SystemFault) -> Fault
    ensures { result ≡ system_fault_of fault }
{
    match fault {
        SystemFault::Overflow { .. } => Fault::Overflow,
        SystemFault::OutOfMemory => Fault::OutOfMemory,
    }
}

// The fault that the bench tells where a step is not made. Either a number left the range, wherever it
// was, or memory was refused.
fn step_fault(fault: StepFault) -> Fault
    ensures { result ≡ step_fault_of fault }
{
    match fault {
        StepFault::Overflow { .. } => Fault::Overflow,
        StepFault::OutOfMemory => Fault::OutOfMemory,
    }
}

/// The system of the edits without these fields, made from the edits by eliminating one field after the
/// other. `Answers` says that its lines are those of the definition, or the fault is the first overflow
/// of it, or want of memory.
pub fn system_of(alloc: Global, edits: &Arc<Edits>, fields: FieldSet) -> Result<System, SystemFault>
    requires { AreNumerical (arc_value edits.now).shape fields }
    ensures edits { IfOk result (λ system. system.edits ≡ arc_value edits.now) }
    ensures fields { IfOk result (λ system. system.fields ≡ fields) }
    ensures exact { Answers (λ system. system.lines) told_system result (system_at (arc_value edits.now) fields) }
{
    counted_system::<Brand>(alloc, edits, fields, Blank::new(1))
}

// The system of the edits without these fields. The fault is its first overflow, or want of memory.
// `blank` is one of the ledger `L` (`name`, `parts`), and starts a counter of steps for this call, which
// nobody reads.
fn counted_system<L: Ledger>(
    alloc: Global,
    edits: &Arc<Edits>,
    fields: FieldSet,
    blank: Blank,
) -> Result<System, SystemFault>
    requires name { blank.name ≡ L.name }
    requires parts { blank.parts ≡ L.parts }
    requires counts { 0 < blank.parts }
    requires numerical { AreNumerical (arc_value edits.now).shape fields }
    ensures edits { IfOk result (λ system. system.edits ≡ arc_value edits.now) }
    ensures fields { IfOk result (λ system. system.fields ≡ fields) }
    ensures exact { Answers (λ system. system.lines) told_system result (system_at (arc_value edits.now) fields) }
{
    let mut steps = Steps::<L>::start(blank);
    fold_system(alloc, edits, fields, &mut steps)
}

// The set of the first `count` fields, whose numbers are 0 to `count - 1`: those that `fold`
// eliminates.
fn first_fields(count: u32) -> FieldSet
    requires { count ≤ 64 }
    ensures only { (f : ℕ) → has_number result f ≡ true → f < count }
    ensures all { (f : ℕ) → f < count → has_number result f ≡ true }
{
    let mut set = FieldSet::empty();
    for field in 0..count {
        set = set.with(field);
    }
    set
}
