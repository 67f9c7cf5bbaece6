//! The survey: its fields and rules, which are well formed once it is made, and what is looked up in them
//! for each record.
ghost use Rattle.std.specs.Prelude.{◌≡◌, ◌≢◌, ◌<◌, All, IfNone, IfOk, IfSome, IsSomeAnd, length, position, slice_get, slice_index_or};
ghost use Rattle.std.specs.Str.{bytes_eq};
ghost use Rattle.edit_model.specs.Corrections.{code_fields, number_fields, path_order};
ghost use Rattle.edit_model.specs.Parts.{SurveyParts, survey_of};
ghost use Rattle.edit_model.specs.Surveys.{IsWellFormed};

use crate::check::is_well_formed;
use crate::fault::SurveyFault;
use crate::field::Field;
use crate::index::field_numbers;
use crate::rule::Rule;
use foundation::OutOfMemory;
use std::alloc::Global;
use std::marker::Model;

/// A questionnaire's fields and the edit rules over them, in declared order. It is well formed. Beside
/// them stand the numbers of the numerical and of the categorical fields.
#[derive(Drop)]
pub struct Survey {
    fields: Vec<Field>,
    rules: Vec<Rule>,
    numbers: Vec<u32>,
    categories: Vec<u32>,
}

impl Model for Survey {
    ghost use Rattle.edit_model.specs.inner.Indexes.{IsKept};
    ghost use Rattle.edit_model.specs.Parts.{SurveyParts, survey_of};

    ghost Value = { SurveyParts };

    ghost view = { λ s. survey_of s.fields.items s.rules.items };

    ghost invariant = { λ s. IsKept (survey_of s.fields.items s.rules.items) s.numbers.items s.categories.items };
}

impl Survey {
    /// The survey of these fields and rules, or Malformed where they are not well formed. They are well
    /// formed where there are at most 64 fields and 500 rules, names differ, and each field and rule keeps
    /// its limits. Memory may also be refused.
    pub fn new(alloc: Global, fields: Vec<Field>, rules: Vec<Rule>) -> Result<Survey, SurveyFault>
        ensures ok { IfOk result (λ survey. (survey ≡ survey_of fields.items rules.items) × IsWellFormed survey) }
        ensures malformed { result ≡ Err SurveyFault.Malformed → ¬ IsWellFormed (survey_of fields.items rules.items) }
    {
        if !is_well_formed(alloc, &fields, &rules)? {
            return Err(SurveyFault::Malformed);
        }
        Ok(Survey::of(alloc, fields, rules)?)
    }

    /// The survey of these fields and rules, which the caller knows to be well formed, as the reader of a
    /// rule text does. They are not tested again.
    pub fn of(alloc: Global, fields: Vec<Field>, rules: Vec<Rule>) -> Result<Survey, OutOfMemory>
        requires { IsWellFormed (survey_of fields.items rules.items) }
        ensures { IfOk result (λ survey. survey ≡ survey_of fields.items rules.items) }
    {
        let declared = fields.as_slice();
        let numbers = field_numbers(alloc, declared, true)?;
        let categories = field_numbers(alloc, declared, false)?;
        Ok(Survey {
            fields,
            rules,
            numbers,
            categories,
        })
    }

    /// The fields, in declared order. No memory.
    pub fn fields(&self) -> &[Field]
        ensures fields { result.now ≡ self.now.fields }
        ensures well_formed { IsWellFormed self.now }
    {
        self.fields.as_slice()
    }

    /// The rules, in declared order. No memory.
    pub fn rules(&self) -> &[Rule]
        ensures rules { result.now ≡ self.now.rules }
        ensures well_formed { IsWellFormed self.now }
    {
        self.rules.as_slice()
    }

    /// The number of the field with this name, from 0, or None where there is none. No memory.
    pub fn find(&self, name: &[u8]) -> Option<u32>
        ensures found { IfSome result (λ i. IsSomeAnd (slice_get self.now.fields i) (λ f. f.name ≡ name.now)) }
        ensures none { IfNone result (All (λ f. f.name ≢ name.now) self.now.fields) }
    {
        match place_of(&self.fields, name) {
            Some(place) => Some(place as u32),
            None => None,
        }
    }

    /// The numbers of the numerical fields, in declared order. No memory.
    pub fn numbers(&self) -> &[u32]
        ensures { result.now ≡ number_fields self.now.fields }
    {
        self.numbers.as_slice()
    }

    /// The numbers of the categorical fields, in declared order. No memory.
    pub fn codes(&self) -> &[u32]
        ensures { result.now ≡ code_fields self.now.fields }
    {
        self.categories.as_slice()
    }

    /// The number of the field at a place, from 0, in path order: the numerical fields as declared, and
    /// then the categorical ones. No memory.
    pub fn path_field(&self, place: u32) -> u32
        requires { place < length self.now.fields }
        ensures field { result ≡ slice_index_or (path_order self.now.fields) place 0 }
        ensures within { result < length self.now.fields }
    {
        let place = place as usize;
        let numbers = self.numbers();
        if place < numbers.len() {
            numbers[place]
        } else {
            self.codes()[place - numbers.len()]
        }
    }
}

// The place, from 0, of the first of these fields that has the name; None where none has it.
fn place_of(fields: &[Field], name: &[u8]) -> Option<usize>
    ensures { result ≡ position (λ f. bytes_eq name.now f.name) fields.now }
{
    fields
        .iter()
        .position(|field| name == field.name.as_bytes())
}
