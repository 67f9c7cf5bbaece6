//! What follows from the definitions of pins and of answers, as laws that compute nothing. A pin is a line
//! by which a fixed field keeps its value.
ghost use Rattle.panel_link.specs.Laws.{LinkedLaw, OneAnswerLaw, PinLaw};

/// Three laws, for the proof of `link`, which calls this; nothing is computed. Where all fixed fields have
/// values, lines and pins hold at a point exactly where it is a correction that leaves these fields alone.
/// What an answer says of these corrections is so, and its certificate is a valid tree. A record has one
/// answer within a budget.
pub fn panel_laws()
    ensures pins { PinLaw }
    ensures linked { LinkedLaw }
    ensures one { OneAnswerLaw }
{}
