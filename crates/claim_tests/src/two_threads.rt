//! Claims in a book that two threads share: of two rows that want one donor, and of one row that claims
//! twice.
ghost use Rattle.std.specs.Prelude.{◌≡◌, ◌<◌, ◌≤◌, [], ◌∷◌, length, IfOk};
ghost use Rattle.std.specs.List.{All};

use donor_book::{Claim, Pass, SharedBook, Won};
use foundation::OutOfMemory;
use std::alloc::Global;
use std::test::Fail;
use std::thread::{Threads, join};

// Claims the one donor, number 0, for the row `row_no`, from this pass of the book, and gives back the
// pass with the answer.
fn claim_first(book: &SharedBook, mut pass: Pass, row_no: u32) -> (Pass, Claim)
    requires book { pass.book ≡ book.now }
    requires row { row_no < book.now.terms.rows }
    requires donor { 0 < book.now.terms.donors }
    ensures { result.0.book ≡ pass.book }
{
    let answer = book.claim(&mut pass, row_no, &[0]);
    (pass, answer)
}

// The list of these two passes, with which the book is closed.
fn pair(alloc: Global, one: Pass, two: Pass) -> Result<Vec<Pass>, OutOfMemory>
    ensures { IfOk result (λ v. v.items ≡ one ∷ two ∷ []) }
{
    let mut both = Vec::with_capacity(alloc, 2)?;
    both.push_reserved(one);
    both.push_reserved(two);
    Ok(both)
}

// Two threads claim the one donor, which is given at most once, for the rows `first` and `second`. The book
// has two rows. The answer has the history, and what each thread was answered.
fn claim_by_two<R: Threads + Sync>(
    rt: &R,
    alloc: Global,
    first: u32,
    second: u32,
) -> Result<(Vec<Won>, Claim, Claim), OutOfMemory>
    requires { (first < 2) × (second < 2) }
{
    let (book, mut passes) = SharedBook::share(alloc, 1, 1, 2, 2)?;
    let (Some(one), Some(two)) = (passes.pop(), passes.pop()) else {
        unreachable!()
    };
    let shared = &book;
    let ((one, a), (two, b)) = join(
        rt,
        move || -> (Pass, Claim)
            requires { (one.book ≡ shared.now) × (first < shared.now.terms.rows) × (0 < shared.now.terms.donors) }
            ensures { result.0.book ≡ shared.entry.now }
        { claim_first(shared, one, first) },
        move || -> (Pass, Claim)
            requires { (two.book ≡ shared.now) × (second < shared.now.terms.rows) × (0 < shared.now.terms.donors) }
            ensures { result.0.book ≡ shared.entry.now }
        { claim_first(shared, two, second) },
    );
    Ok((book.close(pair(alloc, one, two)?), a, b))
}

// One row is given the donor and the other nobody, whichever thread comes first.
#[test]
fn two_rows_share_one_donor(rt: HostRuntime) -> Result<(), Fail> {
    let (history, a, b) = claim_by_two(&rt, rt.alloc(), 0, 1)?;
    assert!(rt; history.len() == 2);
    assert!(rt; history[0].reply == Some(0) && history[1].reply.is_none());
    assert!(rt;
        (a == Claim::Given(0) && b == Claim::Nobody) || (b == Claim::Given(0) && a == Claim::Nobody)
    );
    Ok(())
}

// One thread's claim is answered, and the other's is told what the row had.
#[test]
fn one_row_claims_once(rt: HostRuntime) -> Result<(), Fail> {
    let (history, a, b) = claim_by_two(&rt, rt.alloc(), 0, 0)?;
    assert!(rt; history.len() == 1);
    assert!(rt;
        (a == Claim::Given(0) && b == Claim::Had(Some(0)))
            || (b == Claim::Given(0) && a == Claim::Had(Some(0)))
    );
    Ok(())
}
