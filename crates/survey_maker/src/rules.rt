//! The rule file of the survey that is made. It is the same for all record files.
ghost use Rattle.std.specs.Prelude.{◌≡◌, IfOk};
ghost use Rattle.edit_language.specs.Printing.{printed};
ghost use Rattle.survey_maker.specs.SurveyMade.{survey_made};

use foundation::OutOfMemory;
use std::alloc::Global;

/// The survey as the rule language prints it: its fields, and then its rules.
const RULES: &[u8] = b"number Turnover weight 2 scale 1000
number Goods weight 1 scale 1000
number Bought weight 1 scale 1000
number Wages weight 1 scale 1000
number Social weight 1 scale 1000
number Other weight 1 scale 1000
number Costs weight 2 scale 1000
number Profit weight 1 scale 1000
number Staff weight 1 scale 1000
number Full weight 1 scale 1000
number Part weight 1 scale 1000
number Invest weight 1 scale 1000
code Activity weight 1 in {farm, industry, trade, service}
code Size weight 1 in {micro, small, medium, large}
code Region weight 1 in {north, south, east, west}
code Form weight 1 in {sole, company, public}
Turnover >= 0
Goods >= 0
Bought >= 0
Wages >= 0
Social >= 0
Other >= 0
Costs >= 0
Staff >= 0
Full >= 0
Part >= 0
Invest >= 0
Goods + Bought + Wages + Social + Other - Costs = 0
Turnover - Costs - Profit = 0
-6 Turnover + 10 Profit <= 0
5 Turnover + 10 Profit >= 0
-Staff + Full + Part = 0
-Wages + Social <= 0
-2 Turnover + Invest <= 0
Wages - 5 Full >= 0
Wages - 100 Staff <= 0
if Size in {micro} then Staff - 9 <= 0
if Size in {small} then Staff - 10 >= 0
if Size in {small} then Staff - 49 <= 0
if Size in {medium} then Staff - 50 >= 0
if Size in {medium} then Staff - 249 <= 0
if Size in {large} then Staff - 250 >= 0
if Form in {sole} then Size in {micro, small}
if Activity in {farm} then Form not in {public}
if Size in {large} then Form not in {sole}
if Invest - 1000000 > 0 then Size not in {micro}
";

/// The rule file of the survey, as the rule language prints it: a copy of `RULES` in memory of its own.
pub fn rules_text(alloc: Global) -> Result<Vec<u8>, OutOfMemory>
    ensures { IfOk result (λ text. text.items ≡ printed survey_made) }
{
    Ok(Vec::from_slice(alloc, RULES)?)
}
