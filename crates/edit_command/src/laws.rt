//! What follows from the definitions of an edit, stated as a call that computes nothing.
ghost use Rattle.edit_command.specs.Laws.{OneMadeLaw, WholeLaw};

/// Two laws of edits; nothing is computed, and no code calls it. An edit releases every record where some
/// point is consistent, each record's budget is enough, and no number leaves 128 bits. Two edits of the
/// same files and words, with the same claims of donors, end with one status, and write and print the
/// same.
pub fn edit_laws()
    ensures whole { WholeLaw }
    ensures one { OneMadeLaw }
{}
