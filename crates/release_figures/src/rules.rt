//! The order of the rules by how many records broke them. In contracts, `AreSorted` says that amounts are all
//! these sizes with their numbers, the greatest first.
ghost use Rattle.std.specs.Prelude.{◌≡◌, IfOk, length, map};
ghost use Rattle.page_counts.specs.declared.rules.RuleCount.{RuleCount as AnyCount};
ghost use Rattle.release_figures.specs.Figures.{AreSorted};

use crate::numbered::sorted_sizes;
use edit_model::Survey;
use foundation::OutOfMemory;
use page_counts::{Amount, RuleCount};
use std::alloc::Global;

/// The numbers of the rules, from 0, each with how many records broke it. That which most broke comes first,
/// and of equal ones the earlier. `counts` has the counts of each rule, in declared order.
pub(crate) fn rules_by_breaks(
    alloc: Global,
    survey: &Survey,
    counts: &[RuleCount],
) -> Result<Vec<Amount>, OutOfMemory>
    requires { length counts.now ≡ length survey.now.rules }
    ensures { IfOk result (λ amounts. AreSorted (map (λ (count : AnyCount). count.broken) counts.now) amounts.items) }
{
    let mut broken = Vec::with_capacity(alloc, survey.rules().len())?;
    for count in counts {
        broken.push(count.broken as u128)?;
    }
    sorted_sizes(alloc, &broken)
}
