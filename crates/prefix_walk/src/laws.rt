//! What a walk tells, as laws that compute nothing. The contract of the call states what is proved.
ghost use Rattle.prefix_walk.specs.Laws.{ClosedWalkLaw, ClosingStepsLaw, OpenEndLaw, OpenWalkLaw};

/// Four laws of a walk; nothing is computed. Where it ends closed, no point at which the edits hold has the
/// record's values at all fields that the path keeps. For a path that says something of all fields the steps
/// show that, where the kept ones have values. Where such a path is found open, some such point has those
/// values. The work of a path found open, and of each that it extends, is within the budget.
pub fn walk_laws()
    ensures closed { ClosedWalkLaw }
    ensures open { OpenWalkLaw }
    ensures within { OpenEndLaw }
    ensures steps { ClosingStepsLaw }
{}
