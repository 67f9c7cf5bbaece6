//! The reduction of a list of lines: what elimination begins with.
ghost use Rattle.std.specs.Prelude.{◌≡◌, ◌↔◌, All, IfOk};
ghost use Rattle.edit_model.specs.Points.{Point};
ghost use Rattle.edit_line.specs.Lines.{AllHold, HaveOneShape};
ghost use Rattle.edit_line.specs.Reductions.{IsCovered, lines_of, reduce_derived};

use crate::derived::Derived;
use crate::kept::Kept;
use foundation::OutOfMemory;
use std::alloc::Global;

/// The lines, in order, without those that say nothing of their own. A line is dropped if it always holds,
/// or if an earlier kept line subsumes it. Else the kept lines that it subsumes are dropped, and it comes
/// last. A dropped line always holds or follows from one that stays. So what is left says the same, of
/// lines over one survey's fields.
pub fn reduce(alloc: Global, lines: Vec<Derived>) -> Result<Vec<Derived>, OutOfMemory>
    ensures exact { IfOk result (λ kept. kept.items ≡ reduce_derived lines.items) }
    ensures dropped { IfOk result (λ kept. HaveOneShape (lines_of lines.items)
        → All (λ line. IsCovered (lines_of kept.items) line) (lines_of lines.items)) }
    ensures same { IfOk result (λ kept. (p : Point)
        → HaveOneShape (lines_of lines.items)
        → AllHold (lines_of kept.items) p ↔ AllHold (lines_of lines.items) p) }
{
    let mut kept = Kept::new(alloc);
    for line in lines {
        kept.take(line)?;
    }
    Ok(kept.into_lines())
}
