//! How the lines and the boxes of a walk were made, list by list. The steps of a refutation are written
//! from it. In contracts, `with_lines` and `with_boxes` are a history with one list more in front.
ghost use Rattle.std.specs.Prelude.{◌≡◌, [], OnOk};
ghost use Rattle.edit_paths.specs.Histories.{with_boxes, with_lines};

use categ_combine::BoxFrom;
use edit_line::Derived;
use edit_paths::{Making, box_by, line_by};
use foundation::{OutOfMemory, Sequence};
use std::alloc::Global;
use std::marker::Model;

/// How the elements of derived lists were made, the last list first. Each list is derived from the one
/// before it.
#[derive(Drop)]
pub(crate) struct History {
    lists: Vec<Sequence<Making>>,
}

impl Model for History {
    ghost use Rattle.edit_paths.specs.Histories.{History as Lists};

    ghost Value = { Lists };

    ghost view = { λ h. h.lists.items };
}

impl History {
    /// The history of no list, with which a walk begins. No memory.
    pub(crate) fn new(alloc: Global) -> History
        ensures { result ≡ [] }
    {
        History {
            lists: Vec::new(alloc),
        }
    }

    /// The lists, the last one first. No memory.
    pub(crate) fn lists(&self) -> &[Sequence<Making>]
        ensures { result.now ≡ self.now }
    {
        self.lists.as_slice()
    }

    /// Adds a list of derived lines, each with how its origin says that it was made of lines of the last
    /// list. The first list that is added has the lines that the walk begins with.
    pub(crate) fn add_lines(&mut self, alloc: Global, lines: &[Derived]) -> Result<(), OutOfMemory>
        ensures { OnOk result (self.new ≡ with_lines self.old lines.now) }
    {
        let mut list = Vec::with_capacity(alloc, lines.len())?;
        for derived in lines {
            list.push(line_by(derived.origin))?;
        }
        self.lists.insert(0, Sequence::from_vec(list))?;
        Ok(())
    }

    /// Adds the list of the boxes that are left when `field` is eliminated, which were made of the last
    /// list. The first boxes are made of lines and of no field; they are added with field 0.
    pub(crate) fn add_boxes(
        &mut self,
        alloc: Global,
        field: u32,
        boxes: &[BoxFrom],
    ) -> Result<(), OutOfMemory>
        ensures { OnOk result (self.new ≡ with_boxes self.old field boxes.now) }
    {
        let mut list = Vec::with_capacity(alloc, boxes.len())?;
        for b in boxes {
            list.push(box_by(alloc, field, &b.origin)?)?;
        }
        self.lists.insert(0, Sequence::from_vec(list))?;
        Ok(())
    }
}
