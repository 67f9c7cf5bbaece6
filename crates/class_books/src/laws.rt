//! The law of class histories, as a call that does nothing.
ghost use Rattle.class_books.specs.Histories.{JoinedLaw};

/// Legal histories of the classes, one after the other, are one legal history, since no donor is in two
/// classes. The call does nothing; its contract is the law, for the proofs of callers.
pub fn class_laws()
    ensures { JoinedLaw }
{}
