//! What the files of a run say of all records together, as laws that compute nothing. A proof that needs
//! them calls the function.
ghost use Rattle.edit_report.specs.Laws.{ChangedCountLaw, CleanLaw, ReleasedCountLaw, UnresolvedLaw};

/// Four laws; nothing is computed. The released file has one row for each record that was given values. A
/// clean record is released as it was read, and has no line in the reasons file. One with values has a line
/// there for each changed field; one without has no row, and one line.
pub fn report_laws()
    ensures released { ReleasedCountLaw }
    ensures clean { CleanLaw }
    ensures changed { ChangedCountLaw }
    ensures unresolved { UnresolvedLaw }
{}
