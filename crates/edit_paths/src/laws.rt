//! Laws of paths and of outcomes, as calls that compute nothing: what the definitions of this crate tell of
//! a record and its corrections. No program calls them: their contracts state what is proved.
ghost use Rattle.std.specs.Prelude.{ℕ};
ghost use Rattle.edit_paths.specs.Answers.{Certifies, ChoosesFirst, FindsChange, IsBudgetEnough, NoneMeets, ShowsContradiction};
ghost use Rattle.edit_paths.specs.Cases.{SearchCase, IsCase};
ghost use Rattle.edit_paths.specs.Laws.{ClosedPathLaw, LeastLaw, OpenPathLaw, OrderLaw, ReachedLaw, StepOverflowLaw, TestOverflowLaw, WalkLaw};
ghost use Rattle.edit_paths.specs.Outcomes.{outcome_of};

/// Laws of paths; nothing is computed. Where a path is closed, no point that meets the edits has the
/// record's values at the fields that it keeps. A path of all fields, in range, is open exactly where some
/// such point differs from the record only at the fields that it changes. A path is reached exactly where
/// all that it extends are open. A best-first walk takes the reached paths by weight, and then letter by
/// letter. An overflow names two lines whose combination leaves the range, or a line whose sum does.
pub fn path_laws()
    ensures closed_path { ClosedPathLaw }
    ensures open_path { OpenPathLaw }
    ensures reached { ReachedLaw }
    ensures order { OrderLaw }
    ensures walk { WalkLaw }
    ensures step_overflow { StepOverflowLaw }
    ensures test_overflow { TestOverflowLaw }
{}

/// Laws of outcomes; nothing is computed. A change is the lightest at which the edits hold, and of equal ones
/// the first letter by letter. Where they hold just at the corrections, it is a least change (Fellegi and
/// Holt 1976). At no point do the edits of a contradictory record hold. With a budget of the total work, a
/// change is found where there is one and no number leaves the range. The certificates are valid trees.
pub fn outcome_laws()
    ensures change { (c : SearchCase) (budget : ℕ) → IsCase c → ChoosesFirst c (outcome_of c budget) }
    ensures least { LeastLaw }
    ensures contradiction { (c : SearchCase) (budget : ℕ) → IsCase c → NoneMeets c (outcome_of c budget) }
    ensures budget { (c : SearchCase) (budget : ℕ) → IsBudgetEnough c budget (outcome_of c budget) }
    ensures found { (c : SearchCase) (budget : ℕ) → IsCase c → FindsChange c budget (outcome_of c budget) }
    ensures change_tree { (c : SearchCase) (budget : ℕ) → IsCase c → Certifies c (outcome_of c budget) }
    ensures contradiction_tree { (c : SearchCase) (budget : ℕ) → IsCase c → ShowsContradiction c (outcome_of c budget) }
{}
