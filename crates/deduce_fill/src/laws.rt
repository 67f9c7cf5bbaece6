//! What tests and answers of filling say, as laws that compute nothing. A proof that needs them calls the
//! function.
ghost use Rattle.deduce_fill.specs.Laws.{FilledLaw, OneAnswerLaw, TestLineLaw};

/// Three laws, for the proof of `fill`, which calls this; nothing is computed. A point has a value at
/// a field exactly where none of the lines that test this value holds. An answer fills just the values that
/// are forced, blocks only a record without a completion, and its steps show it. A record has one answer
/// within a budget.
pub fn fill_laws()
    ensures lines { TestLineLaw }
    ensures filled { FilledLaw }
    ensures one { OneAnswerLaw }
{}
