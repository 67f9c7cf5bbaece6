//! The nearest donors that were found so far, in order: by distance, then by number. In this file `near` is
//! how many are asked for at most. In contracts, `placed` is a list with one more put before the first that
//! it comes before. `IsClosedAt` says that no donor at this distance or farther has a place among them.
//! `Reaches` says that some candidate is at least this far, and `IsOpenOrReaches` that, or that fewer are
//! found than are asked for.
ghost use Rattle.std.specs.Prelude.{◌≡◌, ◌+◌, ◌<◌, ◌≤◌, true, false, length, take, IfNone, IfSome, OnOk};
ghost use Rattle.std.specs.List.{position, position_or_len};
ghost use Rattle.donor_search.specs.Rankings.{IsInOrder, placed};
ghost use Rattle.donor_search.specs.inner.Candidates.{IsClosedAt, IsOpenOrReaches, Reaches, is_before};

use foundation::OutOfMemory;

/// A donor with its distance from the record for which donors are ranked.
#[derive(Clone, Copy)]
pub(crate) struct Candidate {
    pub distance: u64,
    pub donor: u32,
}

impl Candidate {
    /// Whether this candidate is nearer than the other, or is as near and has the lesser donor's number.
    fn is_before(self, other: &Candidate) -> bool
        ensures { result ≡ is_before self other.now }
    {
        self.distance < other.distance
            || (self.distance == other.distance && self.donor < other.donor)
    }
}

/// Puts the candidate at its place among the nearest, of which no more than `near` stay. Where `near` others
/// come before it, it is left out.
pub(crate) fn insert_candidate(
    nearest: &mut Vec<Candidate>,
    candidate: Candidate,
    near: usize,
) -> Result<(), OutOfMemory>
    requires { length nearest.old.items ≤ near }
    ensures { OnOk result (nearest.new.items ≡ take near (placed is_before candidate nearest.old.items)) }
{
    let place = place_of(nearest, candidate);
    if place < near {
        nearest.insert(place, candidate)?;
        nearest.truncate(near);
    }
    Ok(())
}

/// The distance of the last of the nearest, where there are `near` of them; a donor that is farther has no
/// place among them. None where there are fewer, or where `near` is 0.
pub(crate) fn farthest(nearest: &[Candidate], near: usize) -> Option<u64>
    requires few { length nearest.now ≤ near }
    requires order { IsInOrder is_before nearest.now }
    ensures closed { IfSome result (λ most. IsClosedAt near (most + 1) nearest.now) }
    ensures reached { IfSome result (λ most. Reaches most nearest.now) }
    ensures none { IfNone result (1 ≤ near → length nearest.now < near) }
{
    if nearest.len() < near {
        return None;
    }
    match nearest.last() {
        Some(last) => Some(last.distance),
        None => None,
    }
}

/// Whether no donor at a distance of at least `gap` has a place among the nearest. There are `near` of them
/// then, and the last is nearer than that. False where fewer were found, or `near` is 0.
pub(crate) fn is_closed_at(nearest: &[Candidate], near: usize, gap: u64) -> bool
    requires few { length nearest.now ≤ near }
    requires order { IsInOrder is_before nearest.now }
    ensures closed { result ≡ true → IsClosedAt near gap nearest.now }
    ensures reaches { result ≡ false → IsOpenOrReaches near gap nearest.now }
{
    match farthest(nearest, near) {
        Some(most) => most < gap,
        None => false,
    }
}

// The place of the first of the nearest that the candidate comes before, or the end where it comes before
// none.
fn place_of(nearest: &[Candidate], candidate: Candidate) -> usize
    ensures place { result ≡ position_or_len (is_before candidate) nearest.now }
    ensures bound { result ≤ length nearest.now }
{
    match first_behind(nearest, candidate) {
        Some(place) => place,
        None => nearest.len(),
    }
}

// The place of the first of the nearest that the candidate comes before; None where it comes before none.
fn first_behind(nearest: &[Candidate], candidate: Candidate) -> Option<usize>
    ensures { result ≡ position (is_before candidate) nearest.now }
{
    nearest.iter().position(|other| candidate.is_before(other))
}
