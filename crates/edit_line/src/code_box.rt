//! Boxes of codes: a set of codes for each categorical field. Elsewhere in the editor a box is forbidden:
//! the codes of a record must not all be in it.
ghost use Rattle.std.specs.Prelude.{◌≡◌, ◌↔◌, IfOk, true};
ghost use Rattle.edit_line.specs.Boxes.{IsBox, are_whole, box_of};
ghost use Rattle.edit_line.specs.Sets.{AreSets, are_subsets};
ghost use Rattle.edit_line.specs.Domains.{domains};
ghost use Rattle.edit_line.specs.Shapes.{shape_of, whole_sets};

use crate::code_sets::{are_inside, are_whole, first_not_whole, is_outside_at};
use crate::shape::Shape;
use edit_model::Survey;
use foundation::OutOfMemory;
use std::alloc::Global;
use std::marker::Model;

/// A box of codes: a set, as bits, for each categorical field in declared order. No set is empty or has
/// a code that the field has not.
#[derive(Drop)]
pub struct CodeBox {
    sets: Vec<u64>,
    shape: Shape,
    /// The place at which a comparison looks first: that of the first set without all codes. Any other
    /// would do.
    probe: usize,
}

impl Model for CodeBox {
    ghost use Rattle.edit_line.specs.Boxes.{BoxParts, IsBox, box_of};
    ghost use Rattle.edit_line.specs.Domains.{domains};

    ghost Value = { BoxParts };

    ghost view = { λ b. box_of (domains b.shape) b.sets.items };

    ghost invariant = { λ b. IsBox (box_of (domains b.shape) b.sets.items) };
}

impl CodeBox {
    /// The box of these sets, one for each categorical field of the survey. None is empty or has a code
    /// that its field has not. No memory.
    pub fn new(survey: &Survey, sets: Vec<u64>) -> CodeBox
        requires { IsBox (box_of (shape_of survey.now.fields) sets.items) }
        ensures { result ≡ box_of (shape_of survey.now.fields) sets.items }
    {
        CodeBox::over(Shape::of(survey), sets)
    }

    /// The box of these sets, one for each categorical field of this shape. None is empty or has a code
    /// that its field has not. No memory.
    pub fn over(shape: Shape, sets: Vec<u64>) -> CodeBox
        requires { IsBox (box_of (domains shape) sets.items) }
        ensures { result ≡ box_of (domains shape) sets.items }
    {
        let probe = first_not_whole(shape, &sets);
        CodeBox { sets, shape, probe }
    }

    /// The set of codes, as bits, of each categorical field, in declared order. No memory.
    pub fn sets(&self) -> &[u64]
        ensures sets { result.now ≡ self.now.sets }
        ensures fit { AreSets self.now.sets (whole_sets self.now.shape) }
    {
        self.sets.as_slice()
    }

    /// Whether each of these sets lies inside the box's set for the same field: then the box forbids
    /// all that they would. The probe place is looked at first, which tells most that do not. No
    /// memory.
    pub fn has_inside(&self, sets: &[u64]) -> bool
        ensures { result ≡ are_subsets sets.now self.now.sets }
    {
        !is_outside_at(sets, self.sets(), self.probe) && are_inside(sets, self.sets())
    }

    /// Whether each set has all codes of its field, so that the codes of every point are in the box. No
    /// memory.
    pub fn is_full(&self) -> bool
        ensures exact { result ≡ are_whole self.now.shape self.now.sets }
        ensures whole { result ≡ true ↔ self.now.sets ≡ whole_sets self.now.shape }
    {
        are_whole(self.shape(), self.sets())
    }

    /// The shape of the survey. No memory.
    pub fn shape(&self) -> Shape
        ensures { domains result ≡ self.now.shape }
    {
        self.shape
    }

    /// An equal box.
    pub fn copy(&self, alloc: Global) -> Result<CodeBox, OutOfMemory>
        ensures { IfOk result (λ copy. copy ≡ self.now) }
    {
        let sets = Vec::from_slice(alloc, self.sets.as_slice())?;
        Ok(CodeBox {
            sets,
            shape: self.shape,
            probe: self.probe,
        })
    }
}
