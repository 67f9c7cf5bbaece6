//! The books of all classes, which threads share. A claim goes to the book of the row's class, in the
//! numbers of that class, and its answer comes back in the file's.
//!
//! In contracts, `pass_in` has what a pass has of one class, as a pass of that class's book. `EachClass`
//! says something of each class, and `IsFreshPass` that a pass has seen and claimed nothing in any.
//! `IsAnswered`, `IsWhole` and `IsSound` are those of `donor_book`. `fresh_pass` is a pass that has
//! claimed nothing, `with_class` one with a class more, and `first_classes` one of the first classes
//! alone. `last_class` is the number of a pass's last class, from 0.
ghost use Rattle.std.specs.Prelude.{◌≡◌, ◌≢◌, ℕ, ◌+◌, ◌++◌, ◌<◌, ◌≤◌, ◌^◌, List, [], ◌∷◌, IfOk, OnOk, length, map};
ghost use Rattle.std.specs.List.{All};
ghost use Rattle.std.specs.Arc.{arc_value};
ghost use Rattle.foundation.specs.Limits.{most_near};
ghost use Rattle.donor_book.specs.declared.claim.Entry.{Entry};
ghost use Rattle.donor_book.specs.Passes.{ArePlaced, BookName, IsAnswered, IsSound, IsWhole};
ghost use Rattle.class_books.specs.ClassPasses.{ClassPassState, EachClass, IsFreshPass, book_terms, class_at, pass_in, passes_in, state_in};
ghost use Rattle.class_books.specs.Classes.{IsOfClass, IsWonIn};
ghost use Rattle.class_books.specs.Histories.{AreCollectedInClasses, history_in};
ghost use Rattle.class_books.specs.inner.Hands.{IsNext, IsOfLast, RanksOwn, first_classes, fresh_pass, last_class, with_class};
ghost use Rattle.class_books.specs.inner.Numbers.{state_with};

use crate::classes::Classes;
use crate::pass::ClassPass;
use donor_book::{Claim, Pass, SharedBook, Won};
use foundation::OutOfMemory;
use std::alloc::Global;
use std::marker::Model;
use std::sync::Arc;

/// A book of claims for each class of rows, which threads share, without a lock. A row claims donors of its
/// own class. Each thread claims from a [`ClassPass`] of its own.
#[derive(Drop)]
pub struct SharedClasses {
    classes: Arc<Classes>,
    books: Vec<SharedBook>,
    histories: Vec<Vec<Won>>,
}

impl Model for SharedClasses {
    ghost use Rattle.std.specs.Arc.{arc_value};
    ghost use Rattle.class_books.specs.ClassPasses.{ClassesName};
    ghost use Rattle.class_books.specs.inner.Hands.{SharesClasses, name_of};

    ghost Value = { ClassesName };

    ghost view = { λ s. name_of (arc_value s.classes) s.books.items };

    ghost invariant = { λ s.
        SharesClasses (arc_value s.classes) s.books.items s.histories.items s.histories.cap };
}

impl SharedClasses {
    /// A book for each of `classes` classes, in which a donor is given at most `limit` times, and `passes`
    /// passes over them all. `class_of` has the class of each row, below `classes`; a row claims, and is a
    /// donor, in its class alone. Nobody has claimed. All memory is taken here.
    pub fn share(
        alloc: Global,
        class_of: Vec<u32>,
        classes: u32,
        limit: u32,
        passes: u32,
    ) -> Result<(SharedClasses, Vec<ClassPass>), OutOfMemory>
        requires passes { 0 < passes }
        requires rows { length class_of.items + 1 < 2 ^ 32 }
        requires classes { All (λ class. class < classes) class_of.items }
        ensures terms { IfOk result (λ r. r.0.terms ≡ record {
          class_of = class_of.items;
          classes = classes;
          limit = limit;
          passes = passes;
        }) }
        ensures passes { IfOk result (λ r. length r.1.items ≡ passes) }
        ensures fresh { IfOk result (λ r. All (IsFreshPass r.0) r.1.items) }
    {
        let tables = Classes::of(alloc, class_of, classes, limit, passes)?;
        let tables = Arc::new(alloc, tables)?;
        let mut all = passes_of(alloc, &tables, passes)?;
        let mut books = Vec::with_capacity(alloc, classes as usize)?;
        for class in 0..classes {
            let rows = tables.rows_of(class as usize).len() as u32;
            let (book, passes) = SharedBook::share(alloc, rows, limit, rows, passes)?;
            deal(alloc, &mut all, passes)?;
            books.push_reserved(book);
        }
        let histories = Vec::with_capacity(alloc, classes as usize)?;
        let shared = SharedClasses {
            classes: tables,
            books,
            histories,
        };
        Ok((shared, all))
    }

    /// Claims a donor for a row in the book of its class, as `SharedBook::claim` does. The donors of the
    /// ranking are at most 64 rows of that class. No memory, no waiting.
    pub fn claim(&self, pass: &mut ClassPass, row_no: u32, ranking: &[u32]) -> Claim
        requires classes { pass.old.classes ≡ self.now }
        requires row { row_no < length self.now.terms.class_of }
        requires few { length ranking.now ≤ most_near }
        requires donors { All (IsOfClass self.now.terms.class_of (class_at self.now row_no)) ranking.now }
        ensures classes { pass.new.classes ≡ pass.old.classes }
        ensures others { (class : ℕ) → class ≢ class_at self.now row_no
            → pass_in class pass.new ≡ pass_in class pass.old }
        ensures placed { let state = state_in (class_at self.now row_no) pass.new in
            ArePlaced state.seen state.mine }
        ensures answered { let class = class_at self.now row_no in
            IsAnswered (pass_in class pass.old) row_no ranking.now result (pass_in class pass.new) }
    {
        let class = self.classes.class_of(row_no);
        let numbers = self.classes.numbers_of(ranking);
        let hand = &mut pass.hands[class];
        let answer = hand.claim(
            &self.books[class],
            self.classes.number_of(row_no),
            &numbers[..ranking.len()],
        );
        self.classes.claim_in_file(class, answer)
    }

    /// The history of each class, in the order of the classes, once all passes are handed back. Each is
    /// legal, and made of the claims of the passes in that class. One after the other they are one legal
    /// history. No memory, no waiting.
    pub fn close(self, passes: Vec<ClassPass>) -> Vec<Vec<Won>>
        requires classes { All (λ pass. pass.classes ≡ self) passes.items }
        requires all { length passes.items ≡ self.terms.passes }
        ensures histories { length result.items ≡ self.terms.classes }
        ensures whole { let histories = map (λ h. h.items) result.items in
            EachClass self (λ class.
            IsWhole self.terms.limit (passes_in class passes.items) (history_in class histories)) }
        ensures sound { let histories = map (λ h. h.items) result.items in
            EachClass self (λ class. IsSound (book_terms self.terms) (history_in class histories)) }
        ensures of_class { let histories = map (λ h. h.items) result.items in
            EachClass self (λ class. All (IsWonIn self.terms.class_of class) (history_in class histories)) }
        ensures legal { let histories = map (λ h. h.items) result.items in
            (claims : List (List Entry)) × AreCollectedInClasses self passes.items histories claims }
    {
        let SharedClasses {
            classes,
            mut books,
            mut histories,
        } = self;
        let mut passes = passes;
        let Some(mut last) = passes.pop() else {
            unreachable!()
        };
        while let Some(book) = books.pop() {
            let history = book.close(gather(&mut passes, &mut last));
            histories.push_reserved(classes.history_in_file(books.len(), history));
        }
        histories.reverse();
        histories
    }
}

// A list of `count` passes of the classes, one for each worker, which have no pass of a book yet. `deal`
// gives them these.
fn passes_of(
    alloc: Global,
    classes: &Arc<Classes>,
    count: u32,
) -> Result<Vec<ClassPass>, OutOfMemory>
    ensures as_many { IfOk result (λ all. length all.items ≡ count) }
    ensures fresh { IfOk result (λ all.
        All (λ pass. pass ≡ fresh_pass (arc_value classes.now) []) all.items) }
{
    let mut all = Vec::with_capacity(alloc, count as usize)?;
    for _ in 0..count {
        all.push_reserved(ClassPass::of(alloc, Arc::try_clone(classes)?));
    }
    Ok(all)
}

// Gives each of `all`, the passes of the classes, one of `passes`, the passes of the next class's book.
// There are as many of both. Which one gets which is all the same: no pass has claimed.
fn deal(alloc: Global, all: &mut Vec<ClassPass>, passes: Vec<Pass>) -> Result<(), OutOfMemory>
    requires as_many { length passes.items ≡ length all.old.items }
    requires next { All (λ class_pass. All (IsNext class_pass) passes.items) all.old.items }
    ensures as_many { OnOk result (length all.new.items ≡ length all.old.items) }
    ensures dealt { OnOk result ((old : ClassPassState) (book : BookName)
        → All (λ pass. pass ≡ old) all.old.items → All (λ pass. pass.book ≡ book) passes.items
        → All (λ pass. pass ≡ with_class old book) all.new.items) }
{
    let mut passes = passes;
    for class_pass in all.iter_mut() {
        let Some(pass) = passes.pop() else {
            unreachable!()
        };
        class_pass.add(alloc, pass)?;
    }
    Ok(())
}

// All passes of the last class's book, for it to be closed with. They are taken out of `others`, in order,
// and then of `last`, which together are all passes of the classes. They come in the room that `last` has
// for them, so that no memory is taken.
fn gather(others: &mut Vec<ClassPass>, last: &mut ClassPass) -> Vec<Pass>
    requires some { 0 < length last.old.classes.books }
    requires same { All (λ pass. pass.classes ≡ last.old.classes) others.old.items }
    requires all { length others.old.items + 1 ≡ last.old.classes.terms.passes }
    ensures others { others.new.items ≡ map (first_classes (last_class last.old)) others.old.items }
    ensures last { last.new ≡ first_classes (last_class last.old) last.old }
    ensures gathered { map (state_with last.old.classes.terms.class_of (last_class last.old)) result.items
        ≡ map (state_in (last_class last.old)) (others.old.items ++ last.old ∷ []) }
    ensures of_last { All (IsOfLast last.old.classes) result.items }
    ensures ranks { All RanksOwn result.items }
{
    let (pass, mut room) = last.take_last().into_parts();
    for other in others.iter_mut() {
        let (pass, _room) = other.take_last().into_parts();
        room.push_reserved(pass);
    }
    room.push_reserved(pass);
    room
}
