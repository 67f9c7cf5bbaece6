//! The lines that the walk of a line's negation begins with. In contracts, `base_lines` is lines with their
//! numbers as origins, and `negation_lines` the lines that are left with those of the negation.
ghost use Rattle.std.specs.Prelude.{◌≡◌, ◌≢◌, ◌≤◌, ◌^◌, ◌++◌, ◌∷◌, [], All, IfOk, OnOk, if◌then◌else◌, length};
ghost use Rattle.edit_line.specs.EditSets.{base_lines};
ghost use Rattle.edit_line.specs.Lines.{IsLine};
ghost use Rattle.edit_line.specs.declared.relation.Relation.TheVariants.{Equal};
ghost use Rattle.edit_line.specs.Reductions.{lines_of};
ghost use Rattle.redundancy.specs.Verdicts.{negation_lines, usable_from};

use edit_line::{Derived, Line, Origin};
use foundation::OutOfMemory;
use std::alloc::Global;

/// The lines of which `left` says that they are left, each with its place among `lines` as its origin, and
/// then the negation of `line`. The negation's lines are numbered from the count of all `lines` on. `line`
/// is no equality.
pub(crate) fn base_of(
    alloc: Global,
    lines: &[Line],
    left: &[bool],
    line: &Line,
) -> Result<Vec<Derived>, OutOfMemory>
    requires count { length left.now ≡ length lines.now }
    requires not_equal { line.now.relation ≢ Equal }
    ensures base { IfOk result (λ base. base.items ≡ base_lines (negation_lines lines.now left.now line.now)) }
    ensures lines { IfOk result (λ base. All IsLine (lines_of base.items)) }
{
    let negation = line.negation(alloc)?;
    let all = vec![in alloc; true; negation.len()]?;
    let mut base = Vec::new(alloc);
    push_usable(alloc, &mut base, 0, lines, left)?;
    push_usable(alloc, &mut base, lines.len() as u64, &negation, &all)?;
    Ok(base)
}

// Appends to the base those of the lines of which `usable` says so, one flag for each. The origin of a line is
// its place among these lines, counted from `first` on.
fn push_usable(
    alloc: Global,
    base: &mut Vec<Derived>,
    first: u64,
    lines: &[Line],
    usable: &[bool],
) -> Result<(), OutOfMemory>
    requires count { length usable.now ≡ length lines.now }
    requires first { first ≤ 2 ^ 63 }
    requires lines { All IsLine (lines_of base.old.items) }
    ensures base { OnOk result (base.new.items ≡ base.old.items ++ base_lines (usable_from first lines.now usable.now)) }
    ensures lines { All IsLine (lines_of base.new.items) }
{
    for (i, line) in lines.iter().enumerate() {
        push_if_usable(alloc, base, usable[i], first + i as u64, line)?;
    }
    Ok(())
}

// Appends the line with this number as its origin, where `usable` is true; else it appends nothing.
fn push_if_usable(
    alloc: Global,
    base: &mut Vec<Derived>,
    usable: bool,
    number: u64,
    line: &Line,
) -> Result<(), OutOfMemory>
    requires { All IsLine (lines_of base.old.items) }
    ensures base { OnOk result (base.new.items ≡ base.old.items ++ base_lines (if usable then (number, line.now) ∷ [] else [])) }
    ensures lines { All IsLine (lines_of base.new.items) }
{
    if usable {
        base.push(Derived {
            line: line.copy(alloc)?,
            origin: Origin::Base(number),
        })?;
    }
    Ok(())
}
