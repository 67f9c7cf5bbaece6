//! Which fields stand in a line, and which codes it takes.
ghost use Rattle.std.specs.Prelude.{◌≡◌, ◌↔◌, ◌<◌, All, length, map, pos, true};
ghost use Rattle.edit_model.specs.FieldSets.{has_number};
ghost use Rattle.edit_model.specs.RowPoints.{code_in};
ghost use Rattle.edit_model.specs.Rows.{IsRow, value_of};
ghost use Rattle.edit_line.specs.Boxes.{are_whole};
ghost use Rattle.edit_line.specs.CodeFields.{codes_in};
ghost use Rattle.edit_line.specs.Lines.{factor};
ghost use Rattle.edit_line.specs.Sets.{are_codes_in};
ghost use Rattle.edit_line.specs.Shapes.{beside, number_fields, shape_of, whole_sets};
ghost use Rattle.edit_line.specs.Sums.{stands_only};

use crate::code_sets::{are_whole, has_code};
use crate::line::Line;
use edit_model::{FieldSet, Row, Survey};

impl Line {
    /// The line's factor at the field of this number, 0 where that is not numerical. No memory.
    pub fn factor_at(&self, survey: &Survey, field: u32) -> i128
        requires { self.now.shape ≡ shape_of survey.now.fields }
        ensures { result ≡ factor self.now field }
    {
        factor_beside(survey.numbers(), self.factors(), field)
    }

    /// Whether only fields of the set stand in the line: each other numerical field has the factor 0. No
    /// memory.
    pub fn stands_only_in(&self, survey: &Survey, fields: FieldSet) -> bool
        requires { self.now.shape ≡ shape_of survey.now.fields }
        ensures { result ≡ stands_only (has_number fields) (number_fields self.now.shape) self.now.factors }
    {
        let _fields = survey.fields(); // read for what it says: there are at most 64
        stands_only(fields, survey.numbers(), self.factors())
    }

    /// Whether each of the record's codes is in its set. Where the record's value is Bad, the field's
    /// first code is looked at. No memory.
    pub fn admits_codes_of(&self, survey: &Survey, row: &Row) -> bool
        requires shape { self.now.shape ≡ shape_of survey.now.fields }
        requires row { IsRow survey.now.fields row.now }
        ensures { result ≡ are_codes_in self.now.sets (codes_in self.now.shape row.now) }
    {
        admits_codes(self.sets(), survey.codes(), row)
    }

    /// Whether each set has all codes of its field: the line speaks of numbers alone. No memory.
    pub fn is_full(&self) -> bool
        ensures exact { result ≡ are_whole self.now.shape self.now.sets }
        ensures whole { result ≡ true ↔ self.now.sets ≡ whole_sets self.now.shape }
    {
        are_whole(self.shape(), self.sets())
    }
}

// The factor at the field's place among these fields, 0 where it is none of them. `factors` has one factor
// for each of `fields`.
fn factor_beside(fields: &[u32], factors: &[i128], field: u32) -> i128
    requires { length factors.now ≡ length fields.now }
    ensures { result ≡ beside (pos 0) fields.now factors.now field }
{
    for (place, number) in fields.iter().enumerate() {
        if *number == field {
            return factors[place];
        }
    }
    0
}

// Whether each field whose factor is not 0 is in the set. `factors` has one factor for each of `fields`.
fn stands_only(set: FieldSet, fields: &[u32], factors: &[i128]) -> bool
    requires count { length factors.now ≡ length fields.now }
    requires few { All (λ f. f < 64) fields.now }
    ensures { result ≡ stands_only (has_number set) fields.now factors.now }
{
    for (place, field) in fields.iter().enumerate() {
        if factors[place] != 0 && !set.has(*field) {
            return false;
        }
    }
    true
}

// Whether each of the record's codes at the fields is in its set. A value that is no code counts as code
// 0. `sets` has one set for each of `fields`.
fn admits_codes(sets: &[u64], fields: &[u32], row: &Row) -> bool
    requires count { length sets.now ≡ length fields.now }
    requires within { All (λ f. f < length row.now) fields.now }
    ensures { result ≡ are_codes_in sets.now (map (λ f. code_in (value_of row.now f)) fields.now) }
{
    for (place, field) in fields.iter().enumerate() {
        if !has_code(sets[place], row.value(*field).code_number()) {
            return false;
        }
    }
    true
}
