//! What the guarantee of a release says, as laws that compute nothing. A proof that needs them calls the
//! function.
ghost use Rattle.edit_release.specs.Laws.{OneEditLaw, ReleasedLaw};

/// Two laws; nothing is computed. Where the guarantee holds, each record that is released is a record of the
/// survey and a correction of least weight. The survey, the sheet, the terms and the claims of donors settle
/// what becomes of each record, and all that an edit writes and prints.
pub fn release_laws()
    ensures released { ReleasedLaw }
    ensures one { OneEditLaw }
{}
