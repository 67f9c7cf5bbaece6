//! A record of a survey, as all of the editor sees it: a list of values. That these fit the survey is asked
//! of whoever makes or changes one.
ghost use Rattle.std.specs.Prelude.{◌≡◌, ◌<◌, List, length, slice_get, slice_set, IfOk, IsSomeAnd};
ghost use Rattle.edit_model.specs.Rows.{IsOfKind, IsRow, value_of};

use crate::survey::Survey;
use crate::value::Value;
use foundation::OutOfMemory;
use std::alloc::Global;
use std::marker::Model;

/// A record of a survey: one value for each field, in declared order.
#[derive(Drop)]
pub struct Row {
    values: Vec<Value>,
}

impl Model for Row {
    ghost use Rattle.std.specs.Prelude.{List};
    ghost use Rattle.edit_model.specs.declared.value.Value as value;

    ghost Value = { List value.Value };

    ghost view = { λ r. r.values.items };
}

impl Row {
    /// The record of these values: one for each field of the survey, of the field's kind or Bad. The survey
    /// is an argument for contracts alone. No memory.
    pub fn new(survey: &Survey, values: Vec<Value>) -> Row
        requires { IsRow survey.now.fields values.items }
        ensures { result ≡ values.items }
    {
        let _ = survey;
        Row { values }
    }

    /// The value at the field of this number, from 0. No memory.
    pub fn value(&self, field: u32) -> &Value
        requires { field < length self.now }
        ensures { result.now ≡ value_of self.now field }
    {
        &self.values[field as usize]
    }

    /// All values, in declared order. No memory.
    pub fn values(&self) -> &[Value]
        ensures { result.now ≡ self.now }
    {
        self.values.as_slice()
    }

    /// Puts a value at the field of this number: one of the field's kind, or Bad. The survey is an argument
    /// for contracts alone. No memory.
    pub fn set(&mut self, survey: &Survey, field: u32, value: Value)
        requires row { IsRow survey.now.fields self.old }
        requires kind { IsSomeAnd (slice_get survey.now.fields field) (λ f. IsOfKind f.kind value) }
        ensures set { self.new ≡ slice_set self.old field value }
        ensures row { IsRow survey.now.fields self.new }
    {
        let _ = survey;
        self.values[field as usize] = value;
    }

    /// A copy of the record, with the same values, in memory of its own.
    pub fn copy(&self, alloc: Global) -> Result<Row, OutOfMemory>
        ensures { IfOk result (λ row. row ≡ self.now) }
    {
        let values = Vec::from_slice(alloc, self.values.as_slice())?;
        Ok(Row { values })
    }
}
