//! The ranking of donors for a record. In contracts, `Measures` says that the closure answers the distance
//! of two values. `HasMeasurable` and `IsRankable` say that a record and a donor can be measured, `AreRanked`
//! that candidates are those of the ranking. `most_asked`, or `most_in` of a search, counts the donors whose
//! bucket gap is at most the distance of the last of a full ranking. Of another ranking it is all. `AreFirst`
//! says that no other donor is nearer than one of the ranking.
ghost use Rattle.std.specs.Prelude.{◌≡◌, ◌+◌, ◌≤◌, All, IfOk, length, map, nat_eq};
ghost use Rattle.std.specs.List.{Contains, IsDistinct};
ghost use Rattle.donor_measure.specs.Measures.{HasMeasurable, Measures};
ghost use Rattle.donor_search.specs.Asked.{index_field, most_asked};
ghost use Rattle.donor_search.specs.CleanRows.{IsRankable};
ghost use Rattle.donor_search.specs.Decks.{IsDeckOf};
ghost use Rattle.donor_search.specs.Rankings.{AreFirst, IsInOrder, nearer_to, ranking_of};
ghost use Rattle.donor_search.specs.declared.candidate.Candidate.{Candidate as AnyCandidate};
ghost use Rattle.donor_search.specs.inner.Profiles.{IsProfile};
ghost use Rattle.donor_search.specs.inner.Searches.{AreRanked, IsSearch, most_in, yardsticks_in};

use crate::axis::first_axis;
use crate::candidate::Candidate;
use crate::deck::Deck;
use crate::profile::Profile;
use crate::search::{Search, marks_at, rank};
use crate::walk::walk;
use donor_measure::Measure;
use edit_model::{FieldSet, Row, Value};
use foundation::{OutOfMemory, Steps};
use record_text::Sheet;
use std::alloc::Global;
use std::sync::ledger::Ledger;

/// The donors for a record: the first `near` of the deck by distance over the kept fields, then by number,
/// none of them twice; all where the deck has fewer. They are rows of the sheet. They and the record have
/// codes or numbers at the kept fields, numbers with numerators below 10^21 and denominators of at most
/// 10^6. One step is counted for each donor that is measured, which are `most_asked` at most.
pub fn ranking<F: Fn(u32, &Value, &Value) -> u64, L: Ledger>(
    alloc: Global,
    deck: &Deck,
    sheet: &Sheet,
    measure: &Measure<F>,
    row: &Row,
    kept: FieldSet,
    near: u32,
    steps: &mut Steps<L>,
) -> Result<Vec<u32>, OutOfMemory>
    requires measures { Measures F.Fn measure.now.closure measure.now.yardsticks }
    requires row { HasMeasurable measure.now.yardsticks kept row.now }
    requires donors { All (IsRankable measure.now.yardsticks sheet.now.rows kept) deck.now.donors }
    requires deck { IsDeckOf measure.now.yardsticks sheet.now.rows deck.now }
    ensures ranking { IfOk result (λ ranking. ranking.items
        ≡ ranking_of measure.now.yardsticks sheet.now.rows deck.now.donors row.now kept near) }
    ensures order { IfOk result (λ ranking. IsInOrder (nearer_to measure.now.yardsticks sheet.now.rows row.now kept) ranking.items) }
    ensures few { IfOk result (λ ranking. length ranking.items ≤ near) }
    ensures among { IfOk result (λ ranking. All (Contains deck.now.donors) ranking.items) }
    ensures once { IfOk result (λ ranking. IsDistinct nat_eq ranking.items) }
    ensures nearest { IfOk result (λ ranking. AreFirst
        (nearer_to measure.now.yardsticks sheet.now.rows row.now kept) ranking.items deck.now.donors) }
    ensures steps { IfOk result (λ ranking. steps.new ≤ steps.old
        + most_asked measure.now.yardsticks sheet.now.rows deck.now.donors row.now kept near
        (index_field measure.now.yardsticks kept) ranking.items) }
    ensures most { steps.new ≤ steps.old + length deck.now.donors }
{
    let search = Search {
        deck,
        sheet,
        measure,
        row,
        kept,
        near: near as usize,
    };
    let nearest = nearest_of(alloc, &search, steps)?;
    donors_of(alloc, &nearest)
}

// The nearest donors, found by a walk along the buckets of the first kept numerical field. Where no such
// field is kept, each donor of the deck is looked at in turn.
fn nearest_of<F: Fn(u32, &Value, &Value) -> u64, L: Ledger>(
    alloc: Global,
    search: &Search<F>,
    steps: &mut Steps<L>,
) -> Result<Vec<Candidate>, OutOfMemory>
    requires { IsSearch F.Fn search.now }
    ensures ranked { IfOk result (λ nearest. AreRanked search.now nearest.items) }
    ensures steps { IfOk result (λ nearest. steps.new ≤ steps.old + most_in search.now) }
    ensures most { steps.new ≤ steps.old + length search.now.deck.now.donors }
{
    let yardsticks = &search.measure.yardsticks;
    let profile = Profile::of(yardsticks, search.row, search.kept);
    match first_axis(yardsticks, search.kept) {
        Some(axis) => walk(alloc, search, axis, &profile, steps),
        None => scan(alloc, search, &profile, steps),
    }
}

// The nearest donors, where each of the deck is looked at in turn. `profile` has the record's marks
// (`IsProfile`), by which donors that are too far are told before they are measured.
fn scan<F: Fn(u32, &Value, &Value) -> u64, L: Ledger>(
    alloc: Global,
    search: &Search<F>,
    profile: &Profile,
    steps: &mut Steps<L>,
) -> Result<Vec<Candidate>, OutOfMemory>
    requires search { IsSearch F.Fn search.now }
    requires profile { IsProfile (yardsticks_in search.now) search.now.kept search.now.row.now profile.now }
    ensures ranked { IfOk result (λ nearest. AreRanked search.now nearest.items) }
    ensures most { steps.new ≤ steps.old + length search.now.deck.now.donors }
{
    let mut nearest = Vec::new(alloc);
    for donor in search.deck.rows() {
        let marks = marks_at(search, *donor);
        rank(&mut nearest, *donor, marks, search, profile, steps)?;
    }
    Ok(nearest)
}

// The numbers of the donors, in the order of the candidates.
fn donors_of(alloc: Global, nearest: &[Candidate]) -> Result<Vec<u32>, OutOfMemory>
    ensures { IfOk result (λ donors. donors.items ≡ map (λ (c : AnyCandidate). c.donor) nearest.now) }
{
    let mut donors = Vec::with_capacity(alloc, nearest.len())?;
    for candidate in nearest {
        donors.push(candidate.donor)?;
    }
    Ok(donors)
}
