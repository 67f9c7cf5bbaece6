//! Whether claims of donors are in form: whether the record may claim, and whether it ranks few enough
//! clean records, each once. Whether each claim is given the right donor is looked at elsewhere.
//!
//! In contracts, `OfCleanFlags clean` says that something holds for each survey and records whose clean
//! ones `clean` tells. `AreCleanFlags` says that the flags tell which records are clean. `Decides` says
//! that the answer is true exactly where the claim holds.
ghost use Rattle.std.specs.Prelude.{◌≡◌, ◌≤◌, IfOk, IsSomeAnd, false, true, length, nat_eq, slice_get, slice_index_or};
ghost use Rattle.std.specs.Bool.{Decides};
ghost use Rattle.std.specs.List.{AllByRecursion, IsDistinct, list_all};
ghost use Rattle.edit_model.specs.Rows.{IsRow};
ghost use Rattle.bound_cert.specs.Claims.{claims_donor};
ghost use Rattle.cert_check.specs.Claims.{IsClaim};
ghost use Rattle.cert_check.specs.inner.ClaimChecks.{AreCleanFlags, IsFormedCount, OfCleanFlags};

use crate::places::claims_donor;
use donor_book::Entry;
use edit_model::{Survey, is_clean};
use foundation::OutOfMemory;
use proof_text::{ProofFile, RowPlace};
use record_text::Sheet;
use std::alloc::Global;

/// For each record of the file whether it is clean, so that it may be a donor.
pub(crate) fn clean_flags(
    alloc: Global,
    survey: &Survey,
    records: &Sheet,
) -> Result<Vec<bool>, OutOfMemory>
    requires { AllByRecursion (IsRow survey.now.fields) records.now.rows }
    ensures { IfOk result (λ flags. AreCleanFlags survey.now records.now.rows flags.items) }
{
    let mut flags = Vec::with_capacity(alloc, records.len() as usize)?;
    for row_no in 0..records.len() {
        flags.push(is_clean(survey, records.row(row_no)))?;
    }
    Ok(flags)
}

/// How many claims stand before the first that is not in form; the number of all where each is. `clean`
/// says of each record whether it is clean. No memory.
pub(crate) fn formed_count(said: &ProofFile, clean: &[bool]) -> usize
    ensures most { result ≤ length said.now.claims }
    ensures count { OfCleanFlags clean.now (λ survey rows. IsFormedCount survey rows said.now result) }
{
    let claims = said.claims();
    for (place, claim) in claims.iter().enumerate() {
        if !is_claim(said, clean, claim) {
            return place;
        }
    }
    claims.len()
}

// Whether a claim is in form: its record claims a donor, and ranks clean records alone, each once, and no
// more than may be ranked. The length is looked at first, so that no long ranking is searched.
fn is_claim(said: &ProofFile, clean: &[bool], claim: &Entry) -> bool
    ensures { OfCleanFlags clean.now (λ survey rows. Decides result (IsClaim survey rows said.now claim.now)) }
{
    let ranking = claim.ranking.as_slice();
    row_claims(said.rows(), claim.row_no)
        && (ranking.len() <= said.near() as usize
            && (are_distinct(ranking) && are_clean(clean, ranking)))
}

// Whether there is a record of the number `row_no`, from 0, and it claims a donor. `saids` has, for each
// record, the place where the proof speaks of it.
fn row_claims(saids: &[RowPlace], row_no: u32) -> bool
    ensures { Decides result (IsSomeAnd (slice_get saids.now row_no) (λ said. claims_donor said.outcome ≡ true)) }
{
    match saids.get(row_no as usize) {
        Some(place) => claims_donor(place),
        None => false,
    }
}

// Whether no donor stands twice in the ranking. The time is quadratic in its length, which is at most 64.
fn are_distinct(ranking: &[u32]) -> bool
    ensures { Decides result (IsDistinct nat_eq ranking.now) }
{
    for (place, donor) in ranking.iter().enumerate() {
        if ranking[..place].contains(donor) {
            return false;
        }
    }
    true
}

// Whether each donor of the ranking is the number of a record that is there, and is clean.
fn are_clean(clean: &[bool], ranking: &[u32]) -> bool
    ensures { result ≡ list_all (λ donor. slice_index_or clean.now donor false) ranking.now }
{
    ranking.iter().all(|donor| is_donor(clean, *donor))
}

// Whether there is a record of the number `donor`, from 0, and it is clean: then it may be a donor.
fn is_donor(clean: &[bool], donor: u32) -> bool
    ensures { result ≡ slice_index_or clean.now donor false }
{
    let place = donor as usize;
    place < clean.len() && clean[place]
}
