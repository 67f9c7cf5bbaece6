//! The order of the leaves of a full tree: by it a tree is seen to be full, leaf by leaf. A path has false
//! for a kept field and true for a changed one. In a full tree each path is a leaf, or goes on both with
//! its next field kept and with it changed.
ghost use Rattle.std.specs.Prelude.{◌≡◌, ◌&&◌, ◌<◌, if◌then◌else◌, length, nat_le, option_map, true};
ghost use Rattle.bound_cert.specs.Trees.{all_changed, all_kept};
ghost use Rattle.bound_cert.specs.inner.Tasks.{path_before};
ghost use Rattle.bound_cert.specs.Trees.{comes_next, may_stand};

use crate::cert::Leaf;

/// Whether the path keeps all its fields, as the empty path does. No memory.
pub(crate) fn keeps_all(path: &[bool]) -> bool
    ensures { result ≡ all_kept path.now }
{
    path.iter().all(|changed| !*changed)
}

/// Whether the path changes all its fields, as the empty path does. No memory.
pub(crate) fn changes_all(path: &[bool]) -> bool
    ensures { result ≡ all_changed path.now }
{
    path.iter().all(|changed| *changed)
}

/// Whether the second path comes right after the first in a full tree. They are alike up to a field that
/// the first keeps and the second changes. Behind it the first changes all its fields, and the second keeps
/// all its own. So it is false where one path is the beginning of the other. No memory.
pub(crate) fn comes_next(first: &[bool], second: &[bool]) -> bool
    ensures { result ≡ comes_next first.now second.now }
{
    for i in 0..first.len() {
        if i >= second.len() {
            return false;
        }
        if first[i] != second[i] {
            return !first[i] && ends_and_begins(&first[i + 1..], &second[i + 1..]);
        }
    }
    false
}

// Whether the first path changes all its fields, and the second keeps all its own. They are what is left of
// two leaf paths behind the field where they part: there one tree ends, and the next begins.
fn ends_and_begins(first: &[bool], second: &[bool]) -> bool
    ensures { result ≡ (all_changed first.now && all_kept second.now) }
{
    changes_all(first) && keeps_all(second)
}

/// Whether the path may stand right behind the path before. The first of all, for which `before` is None,
/// keeps all its fields. No memory.
pub(crate) fn may_stand(before: Option<&[bool]>, path: &[bool]) -> bool
    ensures { result ≡ may_stand (option_map (λ b. b.now) before.entry) path.now }
{
    match before {
        None => keeps_all(path),
        Some(before) => comes_next(before, path),
    }
}

/// The path of the leaf before the one at this place, None for the first leaf. No memory.
pub(crate) fn path_before(leaves: &[Leaf], place: usize) -> Option<&[bool]>
    requires { place < length leaves.now }
    ensures { option_map (λ b. b.now) result ≡ path_before leaves.now place }
{
    if place == 0 {
        None
    } else {
        Some(leaves[place - 1].path.letters())
    }
}
