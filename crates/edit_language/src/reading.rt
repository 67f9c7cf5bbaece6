//! Rule texts are read here, line by line, into the survey that they declare.
//!
//! In contracts, `IsRuleText` says that the lines of the text declare this survey, and `IsFaultOf` that
//! the fault is the text's first.
ghost use Rattle.std.specs.Prelude.{◌≡◌, ◌<◌, ◌^◌, IfErr, IfOk, length};
ghost use Rattle.edit_model.specs.Parts.{SurveyParts};
ghost use Rattle.edit_model.specs.Surveys.{IsWellFormed};
ghost use Rattle.edit_language.specs.Grammar.{IsRuleText};
ghost use Rattle.edit_language.specs.Reading.{IsFaultOf, IsNoRuleText, IsOnlyFaultOf};

use crate::draft::Draft;
use crate::fault::RulesFault;
use crate::line::{first_line, without_mark};
use edit_model::Survey;
use std::alloc::Global;

/// The survey that a rule text of fewer than 2^32 bytes declares, so that the number of each line fits 32
/// bits. `At` exactly where the bytes are no rule text: it tells the first line with a fault, from 1, and
/// its least kind of fault.
pub fn read_rules(alloc: Global, bytes: &[u8]) -> Result<Survey, RulesFault>
    requires { length bytes.now < 2 ^ 32 }
    ensures survey { IfOk result (λ survey. IsRuleText bytes.now survey) }
    ensures only { IfOk result (λ survey. (other : SurveyParts) → IsRuleText bytes.now other → other ≡ survey) }
    ensures well_formed { IfOk result (λ survey. IsWellFormed survey) }
    ensures fault { IfErr result (λ fault. IsFaultOf bytes.now fault) }
    ensures first { IfErr result (λ fault. IsOnlyFaultOf bytes.now fault) }
    ensures unread { IfErr result (λ fault. IsNoRuleText bytes.now fault) }
{
    let mut draft = Draft::new(alloc);
    let mut rest = without_mark(bytes);
    let mut number = 0;
    while let Some((line, after)) = first_line(rest) {
        number += 1;
        draft.take_line(alloc, line, number)?;
        rest = after;
    }
    draft.take_last_line(alloc, rest, number)?;
    let survey = draft.into_survey(alloc)?;
    Ok(survey)
}
