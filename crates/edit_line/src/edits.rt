//! The edits that records are searched by: numbered lines over a survey's fields, and with them the list
//! from which elimination begins. In contracts, `AreEdits` says that the lines are over the survey's
//! fields and their numbers rise. `IsReducedOf` says that the list beside them is these lines, reduced.
ghost use Rattle.std.specs.Prelude.{◌≡◌, All, IfOk};
ghost use Rattle.edit_line.specs.EditSets.{AreEdits, IsReducedOf, base_lines, edits_of};
ghost use Rattle.edit_line.specs.Lines.{IsLine};
ghost use Rattle.edit_line.specs.Reductions.{lines_of, reduce_derived};
ghost use Rattle.edit_line.specs.Domains.{domains};
ghost use Rattle.edit_line.specs.Shapes.{shape_of};

use crate::derived::{Derived, Origin};
use crate::line::Line;
use crate::reduction::reduce;
use crate::shape::Shape;
use edit_model::Survey;
use foundation::OutOfMemory;
use std::alloc::Global;
use std::marker::Model;

/// Numbered lines over a survey's fields, and the lines that elimination begins with, which are these
/// reduced. Each number is greater than those before it.
#[derive(Drop)]
pub struct Edits {
    shape: Shape,
    lines: Vec<(u32, Line)>,
    reduced: Vec<Derived>,
}

impl Model for Edits {
    ghost use Rattle.edit_line.specs.EditSets.{EditsParts, IsReducedOf, edits_of};
    ghost use Rattle.edit_line.specs.Domains.{domains};

    ghost Value = { EditsParts };

    ghost view = { λ e. edits_of (domains e.shape) e.lines.items };

    ghost invariant = { λ e. IsReducedOf (domains e.shape) e.lines.items e.reduced.items };
}

impl Edits {
    /// The edits of these lines over the survey's fields, each with its number. The numbers rise, but may
    /// leave some out.
    pub fn new(
        alloc: Global,
        survey: &Survey,
        lines: Vec<(u32, Line)>,
    ) -> Result<Edits, OutOfMemory>
        requires { AreEdits (shape_of survey.now.fields) lines.items }
        ensures { IfOk result (λ edits. edits ≡ edits_of (shape_of survey.now.fields) lines.items) }
    {
        let reduced = reduce(alloc, base_lines(alloc, &lines)?)?;
        Ok(Edits {
            shape: Shape::of(survey),
            lines,
            reduced,
        })
    }

    /// The lines with their numbers, in order. No memory.
    pub fn lines(&self) -> &[(u32, Line)]
        ensures lines { result.now ≡ self.now.lines }
        ensures fit { AreEdits self.now.shape self.now.lines }
    {
        self.lines.as_slice()
    }

    /// The shape of the survey. No memory.
    pub fn shape(&self) -> Shape
        ensures { domains result ≡ self.now.shape }
    {
        self.shape
    }

    /// The lines of the edits, reduced: without those that always hold or that another subsumes. The origin
    /// of each is the number of its edit. No memory.
    pub fn reduced(&self) -> &[Derived]
        ensures exact { result.now ≡ reduce_derived (base_lines self.now.lines) }
        ensures lines { All IsLine (lines_of result.now) }
        ensures kept { IsReducedOf self.now.shape self.now.lines result.now }
    {
        self.reduced.as_slice()
    }
}

// Copies of the lines, each with its number as its origin, before they are reduced.
fn base_lines(alloc: Global, lines: &[(u32, Line)]) -> Result<Vec<Derived>, OutOfMemory>
    ensures base { IfOk result (λ base. base.items ≡ base_lines lines.now) }
    ensures lines { IfOk result (λ base. All IsLine (lines_of base.items)) }
{
    let mut base = Vec::new(alloc);
    for (number, line) in lines {
        base.push(Derived {
            line: line.copy(alloc)?,
            origin: Origin::Base(u64::from(*number)),
        })?;
    }
    Ok(base)
}
