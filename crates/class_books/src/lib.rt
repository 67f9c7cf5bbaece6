//! Claims of donors by classes of rows: a row claims donors of its own class alone, and each class has a
//! book of claims of its own. What a claim is answered, and when a history is legal, is defined in
//! `donor_book`. Rows, donors and claims of one class are in `specs/Classes.antt`, and what passes see in
//! `specs/ClassPasses.antt`. Begin with [`SharedClasses`], which threads share, without a lock.
//! [`class_laws`] says that the histories of the classes, one after the other, are one legal history.
#![tactic(auto)]

mod classes;
mod hand;
mod laws;
mod pass;
mod shared;

pub use laws::class_laws;
pub use pass::ClassPass;
pub use shared::SharedClasses;
