//! That a donor settles what becomes of a record, as a law that computes nothing. A proof that needs it
//! calls the function.
ghost use Rattle.record_ends.specs.Laws.{OneEndLaw};

/// One law; nothing is computed. A record has one end for a donor, among the same records, by the same edits
/// and within the same budget. So its outcome is one, and so are its values, or the fault at which the giving
/// of values stops.
pub fn end_laws()
    ensures one { OneEndLaw }
{}
