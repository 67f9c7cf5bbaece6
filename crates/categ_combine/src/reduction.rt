//! Lists of boxes without those that lie inside another, which forbid nothing of their own. Below, `kept`
//! is such a list, as it grows.
ghost use Rattle.std.specs.Prelude.{◌≡◌, ◌++◌, [], ◌∷◌, not, OnOk};
ghost use Rattle.std.specs.List.{filter, list_any};
ghost use Rattle.edit_line.specs.Sets.{are_subsets};
ghost use Rattle.categ_combine.specs.BoxLists.{with_from};

use crate::box_from::BoxFrom;
use foundation::OutOfMemory;

/// Appends the box and removes the kept ones that lie inside it. Where it lies inside a kept one, it
/// forbids nothing of its own, and nothing is done.
pub(crate) fn take_in(kept: &mut Vec<BoxFrom>, new: BoxFrom) -> Result<(), OutOfMemory>
    ensures { OnOk result (kept.new.items ≡ with_from kept.old.items new) }
{
    if lie_inside(new.sets(), kept) {
        return Ok(());
    }
    replace_inside(kept, new)
}

/// Whether the sets lie inside those of a kept box, so that a box of them would forbid nothing of its
/// own.
pub(crate) fn lie_inside(sets: &[u64], kept: &[BoxFrom]) -> bool
    ensures { result ≡ list_any (λ b. are_subsets sets.now b.code_box.sets) kept.now }
{
    kept.iter().any(|b| b.code_box.has_inside(sets))
}

/// Appends the box, and removes the kept ones that lie inside it. Whether it lies inside a kept one is
/// not asked: the caller has asked it.
pub(crate) fn replace_inside(kept: &mut Vec<BoxFrom>, new: BoxFrom) -> Result<(), OutOfMemory>
    ensures { OnOk result (kept.new.items
        ≡ filter (λ b. not (are_subsets b.code_box.sets new.code_box.sets)) kept.old.items ++ new ∷ []) }
{
    remove_inside(kept, &new);
    kept.push(new)?;
    Ok(())
}

// Removes the kept boxes that lie inside `new`; the others stay in order.
fn remove_inside(kept: &mut Vec<BoxFrom>, new: &BoxFrom)
    ensures { kept.new.items ≡ filter (λ b. not (are_subsets b.code_box.sets new.now.code_box.sets)) kept.old.items }
{
    kept.retain(|b| !new.code_box.has_inside(b.sets()));
}
