//! Sets of codes narrowed by a test on codes, as each condition of a rule narrows where its lines ask
//! something. Below, `fields` is the survey's shape, and `sets` has a set for each categorical field. In
//! contracts, `AreWithin` says that no set has a code that its field has not.
ghost use Rattle.std.specs.Prelude.{◌≡◌, not, true};
ghost use Rattle.edit_line.specs.inner.SetBounds.{AreWithin};
ghost use Rattle.edit_line.specs.Shapes.{code_fields, has_field, whole_sets};
ghost use Rattle.edit_normal.specs.NormalForm.{narrowed};

use crate::survey_shape::SurveyShape;

/// Leaves in the field's set only the codes that meet the test. These are those of `codes`, as bits, or
/// the field's others where the test is negated. The field is categorical. The set may come out empty.
pub(crate) fn narrow(
    fields: &SurveyShape,
    sets: &mut Vec<u64>,
    field: u32,
    negated: bool,
    codes: u64,
)
    requires field { has_field (code_fields fields.now) field ≡ true }
    requires within { AreWithin sets.old.items (whole_sets fields.now) }
    ensures sets { sets.new.items ≡ narrowed fields.now sets.old.items field negated codes }
    ensures within { AreWithin sets.new.items (whole_sets fields.now) }
{
    let place = fields.place(field);
    let wholes = fields.wholes();
    let wanted = if negated {
        wholes[place] ^ codes
    } else {
        codes
    };
    sets[place] &= wanted;
}

/// Leaves in the field's set only the codes that do not meet the test: there a conclusion fails. The
/// field is categorical. The set may come out empty.
pub(crate) fn narrow_where_false(
    fields: &SurveyShape,
    sets: &mut Vec<u64>,
    field: u32,
    negated: bool,
    codes: u64,
)
    requires field { has_field (code_fields fields.now) field ≡ true }
    requires within { AreWithin sets.old.items (whole_sets fields.now) }
    ensures sets { sets.new.items ≡ narrowed fields.now sets.old.items field (not negated) codes }
    ensures within { AreWithin sets.new.items (whole_sets fields.now) }
{
    narrow(fields, sets, field, !negated, codes);
}
