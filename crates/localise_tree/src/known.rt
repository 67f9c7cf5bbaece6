//! The paths that were taken in a search, found by their letters: false for a kept field, true for a
//! changed one.
ghost use Rattle.std.specs.Prelude.{◌≡◌, ◌≤◌, false, IfNone, IfOk, IfSome, length};
ghost use Rattle.std.specs.List.{AllByRecursion};
ghost use Rattle.edit_paths.specs.Certificates.{has_path};
ghost use Rattle.localise_tree.specs.inner.Knowns.{ArePlaces, IsFound, IsKnown, letters_number};
ghost use Rattle.localise_tree.specs.inner.Takens.{taken_paths};

use crate::best_first::Taken;
use foundation::OutOfMemory;
use std::alloc::Global;
use std::collections::BTreeMap;

/// Paths that were taken, and the place of each among them. The places are found by the paths' letters,
/// read as one number.
#[derive(Drop)]
pub(crate) struct Known<'a> {
    pub(crate) taken: &'a [Taken],
    pub(crate) places: BTreeMap<u128, usize>,
}

/// The map from each taken path to its place in `taken`, from 0. A path stands there as its letters, read as
/// one number (`letters_number`).
pub(crate) fn places_of(
    alloc: Global,
    taken: &[Taken],
) -> Result<BTreeMap<u128, usize>, OutOfMemory>
    requires { AllByRecursion (λ t. length t.path ≤ 64) taken.now }
    ensures { IfOk result (ArePlaces (taken_paths taken.now)) }
{
    let mut places = BTreeMap::new(alloc);
    for (place, one) in taken.iter().enumerate() {
        let number = letters_number(one.path.letters());
        places.insert(number, place)?;
    }
    Ok(places)
}

/// What is known of the path of these letters, if it was taken; None where it was not. No memory.
pub(crate) fn taken_path<'a>(known: &Known<'a>, letters: &Vec<bool>) -> Option<&'a Taken>
    requires known { IsKnown known.now }
    requires short { length letters.now.items ≤ 64 }
    ensures some { IfSome result (λ one. IsFound known.now.taken.now letters.now.items one.now) }
    ensures none { IfNone result (has_path (taken_paths known.now.taken.now) letters.now.items ≡ false) }
{
    match known.places.get(&letters_number(letters)).copied() {
        Some(place) => Some(&known.taken[place]),
        None => None,
    }
}

// The letters as one number: a bit for each, the first one lowest, and a 1 above them. So no two paths have one
// number, also where one begins the other. No memory.
fn letters_number(letters: &[bool]) -> u128
    requires { length letters.now ≤ 64 }
    ensures { result ≡ letters_number letters.now }
{
    let mut number = 1;
    let mut left = letters.len();
    while left > 0 {
        left -= 1;
        number = 2 * number + u128::from(letters[left]);
    }
    number
}
