//! What the numbers that are allowed at a field are, as laws that compute nothing. The contract of the call
//! states what is proved.
ghost use Rattle.back_subst.specs.Laws.{EndLaw, IntervalLaw, TakenLaw};

/// Three laws of the numbers allowed at a field, beside the values kept or given before; nothing is computed.
/// Where some correction has those, the numbers are an interval that is not empty, with fractions as ends.
/// Its lower end is the greatest fraction that none of them is below, its upper one the least that none is
/// above. The number that is given is one of them, and it is the target exactly where that is.
pub fn value_laws()
    ensures interval { IntervalLaw }
    ensures ends { EndLaw }
    ensures taken { TakenLaw }
{}
