//! The pass of a worker over all classes: one pass of each class's book. Contracts see it with the numbers
//! that rows and donors have in the whole file.
ghost use Rattle.std.specs.Prelude.{◌≡◌, ◌<◌, [], OnOk, length};
ghost use Rattle.std.specs.Arc.{arc_value};
ghost use Rattle.class_books.specs.ClassPasses.{state_in};
ghost use Rattle.class_books.specs.inner.Hands.{IsNext, IsOfLast, class_pass_of, first_classes, last_class, with_class};
ghost use Rattle.class_books.specs.inner.Numbers.{state_with};

use crate::classes::Classes;
use crate::hand::Hand;
use donor_book::Pass;
use foundation::OutOfMemory;
use std::alloc::Global;
use std::marker::Model;
use std::sync::Arc;

/// A place at shared classes, from which one worker claims at a time: a pass of the book of each class. It
/// may be sent to another thread.
#[derive(Drop)]
pub struct ClassPass {
    pub(crate) classes: Arc<Classes>,
    pub(crate) hands: Vec<Hand>,
}

impl Model for ClassPass {
    ghost use Rattle.std.specs.Arc.{arc_value};
    ghost use Rattle.class_books.specs.ClassPasses.{ClassPassState};
    ghost use Rattle.class_books.specs.inner.Hands.{AreOfTerms, books_of, class_pass_of};

    ghost Value = { ClassPassState };

    ghost view = { λ p. class_pass_of (arc_value p.classes) p.hands.items };

    ghost invariant = { λ p. AreOfTerms (arc_value p.classes) (books_of p.hands.items) };
}

impl ClassPass {
    /// A pass of the classes that has no pass of a book yet; `add` takes these in, class by class. No
    /// memory.
    pub fn of(alloc: Global, classes: Arc<Classes>) -> ClassPass
        ensures { result ≡ class_pass_of (arc_value classes) [] }
    {
        ClassPass {
            classes,
            hands: Vec::new(alloc),
        }
    }

    /// Takes in a pass of the book of the next class, in the order of the classes. That pass has seen and
    /// claimed nothing (`IsNext`).
    pub fn add(&mut self, alloc: Global, pass: Pass) -> Result<(), OutOfMemory>
        requires { IsNext self.old pass }
        ensures { OnOk result (self.new ≡ with_class self.old pass.book) }
    {
        let passes = self.classes.passes();
        self.hands.push(Hand::of(alloc, pass, passes)?)?;
        Ok(())
    }

    /// Takes out and answers what the pass has of the last class. There has to be a class; the pass is then
    /// one of the classes before it alone. Books are closed from the last class on. No memory.
    pub fn take_last(&mut self) -> Hand
        requires { 0 < length self.old.classes.books }
        ensures rest { self.new ≡ first_classes (last_class self.old) self.old }
        ensures last { IsOfLast self.old.classes result }
        ensures state { state_with self.old.classes.terms.class_of (last_class self.old) result ≡ state_in (last_class self.old) self.old }
    {
        let Some(hand) = self.hands.pop() else {
            unreachable!()
        };
        hand
    }
}
