//! The law of the normal form, as a call that does nothing. No code calls it: it states what the
//! definition means.
ghost use Rattle.edit_model.specs.Parts.{SurveyParts};
ghost use Rattle.edit_model.specs.Surveys.{IsWellFormed};
ghost use Rattle.edit_normal.specs.RuleLines.{SayAllRules, normal_lines_of};

/// The normal form says what the rules say: at a point with codes of their fields, all normal lines of a
/// well-formed survey hold exactly where all its rules do. The call does nothing; its contract is the law.
pub fn normal_form_law()
    ensures same { (survey : SurveyParts) → IsWellFormed survey → SayAllRules survey (normal_lines_of survey) }
{}
