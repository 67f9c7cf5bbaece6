//! Sets of codes, as bits: a list has a set for each categorical field, in declared order. A numerical
//! field has none, and takes up no place.
ghost use Rattle.std.specs.Prelude.{◌≡◌, ◌≤◌, IfNone, IfOk, IfSome, false, length, true};
ghost use Rattle.edit_line.specs.inner.WholePlaces.{IsNotWhole, IsWholeUpTo};
ghost use Rattle.edit_model.specs.Points.{has_code};
ghost use Rattle.edit_line.specs.Boxes.{are_whole};
ghost use Rattle.edit_line.specs.Combinations.{all_meet, in_both};
ghost use Rattle.edit_line.specs.Sets.{are_subsets, none_is_empty};
ghost use Rattle.edit_line.specs.Domains.{domains};

use crate::shape::{Shape, whole_set};
use foundation::OutOfMemory;
use std::alloc::Global;

/// Whether each set of the second list has inside it the set at its place in the first. Where the first
/// list is shorter, they are not inside; where it is longer, its further sets are not looked at. No
/// memory.
pub fn are_inside(first: &[u64], second: &[u64]) -> bool
    ensures { result ≡ are_subsets first.now second.now }
{
    if first.len() < second.len() {
        return false;
    }
    for i in 0..second.len() {
        if first[i] & second[i] != first[i] {
            return false;
        }
    }
    true
}

/// Whether the first list's set at the place has a code that the second's there has not. Then the first
/// sets are not all inside the second. False where one of the lists has no set there. No memory.
pub(crate) fn is_outside_at(first: &[u64], second: &[u64], place: usize) -> bool
    ensures { result ≡ true → are_subsets first.now second.now ≡ false }
{
    place < first.len() && place < second.len() && first[place] & second[place] != first[place]
}

/// The place of the first set that has not all codes of its field, or one past the last where each has
/// them. A comparison of sets looks there first. No memory.
pub(crate) fn first_not_whole(shape: Shape, sets: &[u64]) -> usize {
    let mut place = 0;
    for count in shape.code_counts() {
        match next_if_whole(sets, place, *count) {
            Some(next) => place = next,
            None => return place,
        }
    }
    place
}

/// Whether for each field some code is in both its sets: the one of the first list and the one of the
/// second. No memory.
pub fn all_meet(first: &[u64], second: &[u64]) -> bool
    requires { length first.now ≡ length second.now }
    ensures { result ≡ all_meet first.now second.now }
{
    for i in 0..first.len() {
        if first[i] & second[i] == 0 {
            return false;
        }
    }
    true
}

/// The codes that are in both lists' sets, field by field. A set may come out empty. Both lists are
/// over the same fields.
pub fn meets(alloc: Global, first: &[u64], second: &[u64]) -> Result<Vec<u64>, OutOfMemory>
    requires { length first.now ≡ length second.now }
    ensures { IfOk result (λ sets. sets.items ≡ in_both first.now second.now) }
{
    let mut sets = Vec::from_slice(alloc, first)?;
    narrow(&mut sets, second);
    Ok(sets)
}

/// Leaves in the sets only the codes that are also in the others, field by field. A set may come out
/// empty. Both lists are over the same fields. No memory.
pub fn narrow(sets: &mut Vec<u64>, others: &[u64])
    requires { length others.now ≡ length sets.old.items }
    ensures { sets.new.items ≡ in_both sets.old.items others.now }
{
    for i in 0..others.len() {
        sets[i] &= others[i];
    }
}

/// Whether no set is empty: then some codes, one for each field, are all in their sets. No memory.
pub fn has_codes(sets: &[u64]) -> bool
    ensures { result ≡ none_is_empty sets.now }
{
    sets.iter().all(|set| *set != 0)
}

/// Whether the set, as bits, has the code; no set has one past 63. No memory.
pub fn has_code(set: u64, code: u8) -> bool
    ensures { result ≡ has_code set code }
{
    code < 64 && (set >> code) & 1 == 1
}

/// Whether each set has all codes of its field. No memory.
pub(crate) fn are_whole(shape: Shape, sets: &[u64]) -> bool
    ensures { result ≡ are_whole (domains shape) sets.now }
{
    let mut place = 0;
    for count in shape.code_counts() {
        match next_if_whole(sets, place, *count) {
            Some(next) => place = next,
            None => return false,
        }
    }
    place >= sets.len()
}

// The place of the next field's set, where the set at this place is that of all `count` codes of a
// field. None where it is not. A numerical field, which has 0 codes, has no set, so the place stays.
fn next_if_whole(sets: &[u64], place: usize, count: u8) -> Option<usize>
    requires { count ≤ 64 }
    ensures some { IfSome result (λ next. IsWholeUpTo sets.now place count next) }
    ensures none { IfNone result (IsNotWhole sets.now place count) }
{
    if count == 0 {
        return Some(place);
    }
    if place < sets.len() && sets[place] == whole_set(count) {
        Some(place + 1)
    } else {
        None
    }
}
