//! The proof of an edit, made of its verdicts, ends and claims. In contracts, `proof_telling` is that proof,
//! `shared_proof` is it with each line that several trees derive written once, and `proof_text` the bytes of
//! a proof. `IsSized` says that each of its numbers fits into its field. `said` and `said_of` are what the
//! proof says of a record, and `refutation_by` is what it says of a line of the rules.
ghost use Rattle.std.specs.Prelude.{◌≡◌, [], IfOk, None, map};
ghost use Rattle.bound_cert.specs.declared.outcome.Outcome.TheVariants.{Change};
ghost use Rattle.proof_grammar.specs.ProofLines.{proof_text};
ghost use Rattle.proof_grammar.specs.Sizes.{IsSized};
ghost use Rattle.proof_sharing.specs.SharedProofs.{shared_proof};
ghost use Rattle.edit_release.specs.Edits.{proof_telling, refutation_by, said, said_of};

use crate::edited_sheet::EditedSheet;
use bound_cert::{Cert, Outcome, Path, RowProof};
use derivation::Step;
use donor_book::Entry;
use edit_report::RowEnd;
use foundation::{OutOfMemory, Sequence};
use proof_sharing::share_lines;
use proof_text::{Proof, write_proof};
use record_editing::Terms;
use redundancy::Verdict;
use std::alloc::Global;

/// The proof file of an edited sheet: the bytes of its proof on these terms, in which a line that several
/// trees derive is written once.
pub(crate) fn proof_file(
    alloc: Global,
    edited: EditedSheet,
    verdicts: Vec<Verdict>,
    terms: Terms,
) -> Result<Vec<u8>, OutOfMemory>
    ensures text { IfOk result (λ text. text.items
        ≡ proof_text (shared_proof (proof_telling verdicts.items terms edited.ends.items edited.history.items))) }
    ensures sized { IfOk result (λ text.
        IsSized (shared_proof (proof_telling verdicts.items terms edited.ends.items edited.history.items))) }
{
    let (ends, history) = edited.into_told();
    let proof = proof_of(alloc, verdicts, terms, ends, history)?;
    let proof = share_lines(alloc, proof)?;
    write_proof(alloc, &proof)
}

// The proof of an edit on these terms. It tells the verdicts on the lines of the rules, the ends of the
// records, and the history of claims. It is of version 1: each tree derives its own lines, and its table
// is empty.
fn proof_of(
    alloc: Global,
    verdicts: Vec<Verdict>,
    terms: Terms,
    ends: Vec<RowEnd>,
    history: Vec<Entry>,
) -> Result<Proof, OutOfMemory>
    ensures { IfOk result (λ proof. proof ≡ proof_telling verdicts.items terms ends.items history.items) }
{
    let verdicts = refutations_of(alloc, verdicts)?;
    let rows = row_proofs_of(alloc, ends)?;
    Ok(Proof {
        version: 1,
        limit: terms.limit,
        near: terms.near,
        budget: terms.budget,
        verdicts: Sequence::from_vec(verdicts),
        table: Sequence::from_vec(Vec::new(alloc)),
        rows: Sequence::from_vec(rows),
        claims: Sequence::from_vec(history),
    })
}

// What the proof says of each line of the rules, in order: the steps that refute its negation where it was
// dropped, and None where it is kept.
fn refutations_of(
    alloc: Global,
    verdicts: Vec<Verdict>,
) -> Result<Vec<Option<Sequence<Step>>>, OutOfMemory>
    ensures { IfOk result (λ said. said.items ≡ map refutation_by verdicts.items) }
{
    Ok(verdicts.into_iter().map(refutation_by).collect(alloc)?)
}

// What the proof says of a line of the rules with this verdict: the steps that refute its negation, if it was
// dropped. None where it is kept.
fn refutation_by(verdict: Verdict) -> Option<Sequence<Step>>
    ensures { result ≡ refutation_by verdict }
{
    match verdict {
        Verdict::Kept(_) => None,
        Verdict::Dropped(steps) => Some(steps),
    }
}

// What the proof says of each record, in row order.
fn row_proofs_of(alloc: Global, ends: Vec<RowEnd>) -> Result<Vec<RowProof>, OutOfMemory>
    ensures { IfOk result (λ rows. rows.items ≡ map said ends.items) }
{
    Ok(
        ends.into_iter()
            .map(|end| row_proof_of(alloc, end.proof))
            .collect(alloc)?,
    )
}

// What the proof says of a record that ended so. The path of a clean record, whose change weighs nothing, is
// made the empty one, as proof files have it. Any other record is left as it is.
fn row_proof_of(alloc: Global, proof: RowProof) -> RowProof
    ensures { result ≡ said_of proof.outcome proof.gift }
{
    match (proof.outcome, proof.gift) {
        (
            Outcome::Change {
                weight: 0,
                cert,
                ..
            },
            None,
        ) => clean_row_proof(alloc, cert),
        (outcome, gift) => RowProof { outcome, gift },
    }
}

// What the proof says of a clean record: a change of no fields, with the empty path and this tree.
fn clean_row_proof(alloc: Global, cert: Cert) -> RowProof
    ensures outcome { result.outcome ≡ Change [] 0 cert }
    ensures gift { result.gift ≡ None }
{
    let path = Path::new(Vec::new(alloc));
    RowProof {
        outcome: Outcome::Change {
            path,
            weight: 0,
            cert,
        },
        gift: None,
    }
}
