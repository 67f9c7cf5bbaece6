//! Whether the claims of donors in a proof are right: in form, and each given the donor that the claims
//! before it leave. There has to be one for each record that claims.
//!
//! In contracts `FindsClaims` and `FindsClaim` say that the claims are right, or that the answer is their
//! first fault. `IsCounted` says that 64 bits count the lines of the proof.
ghost use Rattle.std.specs.Prelude.{◌≡◌, IfOk, length};
ghost use Rattle.std.specs.List.{AllByRecursion};
ghost use Rattle.edit_model.specs.Rows.{IsRow};
ghost use Rattle.cert_check.specs.inner.ClaimChecks.{FindsClaim, FindsClaims};
ghost use Rattle.cert_check.specs.inner.Counts.{IsCounted};

use crate::claim_form::{clean_flags, formed_count};
use crate::claimed_rows::all_claim;
use crate::line_counts::claims_line;
use donor_book::first_illegal;
use edit_model::Survey;
use foundation::OutOfMemory;
use proof_text::ProofFile;
use record_text::Sheet;
use std::alloc::Global;

/// The line in the proof of the first fault of the claims, or None where they are right. It is that of the
/// first wrong claim. Where none is wrong, but some record that claims a donor has no claim, it is the
/// line that counts the claims.
pub(crate) fn claims_fault(
    alloc: Global,
    survey: &Survey,
    records: &Sheet,
    said: &ProofFile,
) -> Result<Option<u64>, OutOfMemory>
    requires rows { AllByRecursion (IsRow survey.now.fields) records.now.rows }
    requires one_each { length said.now.rows ≡ length records.now.rows }
    requires counted { IsCounted said.now }
    ensures { IfOk result (FindsClaims survey.now records.now.rows said.now) }
{
    if let Some(place) = wrong_claim(alloc, survey, records, said)? {
        return Ok(Some(claims_line(alloc, said)? + 1 + place as u64));
    }
    if all_claim(alloc, said)? {
        Ok(None)
    } else {
        Ok(Some(claims_line(alloc, said)?))
    }
}

// The place, from 0, of the first claim that is wrong, or None. A claim before the first that is not in
// form is wrong where those before leave its record another donor, or it claimed already. Where none of
// these is wrong, the first that is not in form is.
fn wrong_claim(
    alloc: Global,
    survey: &Survey,
    records: &Sheet,
    said: &ProofFile,
) -> Result<Option<usize>, OutOfMemory>
    requires rows { AllByRecursion (IsRow survey.now.fields) records.now.rows }
    requires one_each { length said.now.rows ≡ length records.now.rows }
    ensures { IfOk result (FindsClaim survey.now records.now.rows said.now) }
{
    let claims = said.claims();
    if claims.is_empty() {
        return Ok(None);
    }
    let clean = clean_flags(alloc, survey, records)?;
    let formed = formed_count(said, &clean);
    let count = records.len();
    match first_illegal(alloc, &claims[..formed], said.limit(), count, count)? {
        Some(place) => Ok(Some(place)),
        None if formed < claims.len() => Ok(Some(formed)),
        None => Ok(None),
    }
}
