//! The donors of a sheet, by imputation classes. A class with donors has the number of its code at the
//! class field; without such a field, class 0 has all donors. The last class has the number behind these.
//! In contracts, `AreDecksOf` says that the decks are those of the classes. They are right where all numbers
//! of the sheet are plain (`HasPlainNumbers`).
ghost use Rattle.std.specs.Prelude.{◌≡◌, ◌+◌, ◌<◌, ◌≤◌, IfOk, IfSome, Some, None, length, map};
ghost use Rattle.std.specs.List.{All, AllByRecursion};
ghost use Rattle.foundation.specs.Limits.{most_codes, most_fields};
ghost use Rattle.edit_model.specs.PlainNumbers.{HasPlainNumbers};
ghost use Rattle.edit_model.specs.Rows.{IsRow};
ghost use Rattle.record_pieces.specs.Classes.{class_kept, class_read, code_count, codes_of_kind};
ghost use Rattle.record_pieces.specs.Rests.{AreDecksOf};

use donor_search::{Deck, RowMarks};
use edit_model::{FieldSet, Kind, Row, Survey, Value};
use foundation::OutOfMemory;
use record_text::Sheet;
use std::alloc::Global;
use std::sync::Arc;

/// The donors of a sheet by imputation classes. Each code of the class field has a deck, in their order.
/// Where there is no such field, one deck has all clean records. Behind them is the last class,
/// which has no donors: of the records that have no code at the class field, or change it.
#[derive(Drop)]
pub struct Decks {
    pub class_field: Option<u32>,
    pub of_class: Vec<Deck>,
}

impl Decks {
    /// The decks of a sheet of the survey: one for each code of the class field, or one where there is no
    /// such field. It is a field of the survey; a numerical one has no codes, so that no deck is made.
    pub fn new(
        alloc: Global,
        survey: &Survey,
        sheet: &Sheet,
        class_field: Option<u32>,
    ) -> Result<Decks, OutOfMemory>
        requires rows { AllByRecursion (IsRow survey.now.fields) sheet.now.rows }
        requires field { IfSome class_field (λ field. field < length survey.now.fields) }
        ensures class_field { IfOk result (λ decks. decks.class_field ≡ class_field) }
        ensures decks { IfOk result (λ decks. AllByRecursion HasPlainNumbers sheet.now.rows
            → AreDecksOf survey.now sheet.now.rows class_field decks.of_class.items) }
    {
        let of_class = match class_field {
            Some(field) => decks_by(alloc, survey, sheet, field)?,
            None => deck_of_all(alloc, survey, sheet)?,
        };
        Ok(Decks {
            class_field,
            of_class,
        })
    }

    /// The number of the last class, which is the count of the decks. No memory.
    pub fn last(&self) -> u32
        requires { length self.now.of_class.items ≤ most_codes }
        ensures { result ≡ length self.now.of_class.items }
    {
        self.of_class.len() as u32
    }

    /// The class of a record as it was read: the number of its code at the class field, or the last class
    /// without one. It is 0 where there is no class field. No memory.
    pub fn class_read(&self, row: &Row) -> u32
        requires { length self.now.of_class.items ≤ most_codes }
        ensures { result ≡ class_read (length self.now.of_class.items) self.now.class_field row.now }
    {
        let Some(field) = self.class_field else {
            return 0;
        };
        match row.values().get(field as usize) {
            Some(Value::Code(code)) => u32::from(*code),
            _ => self.last(),
        }
    }

    /// The class of a record that keeps these fields: as it was read, or the last class where it changes
    /// the class field. No memory.
    pub fn class_kept(&self, row: &Row, kept: FieldSet) -> u32
        requires few { length self.now.of_class.items ≤ most_codes }
        requires field { IfSome self.now.class_field (λ field. field < most_fields) }
        ensures { result ≡ class_kept (length self.now.of_class.items) self.now.class_field row.now kept }
    {
        match self.class_field {
            Some(field) if !kept.has(field) => self.last(),
            _ => self.class_read(row),
        }
    }

    /// The class of each row of a sheet as it was read, in order.
    pub fn classes_read(&self, alloc: Global, sheet: &Sheet) -> Result<Vec<u32>, OutOfMemory>
        requires { length self.now.of_class.items ≤ most_codes }
        ensures { IfOk result (λ classes. classes.items
            ≡ map (class_read (length self.now.of_class.items) self.now.class_field) sheet.now.rows) }
    {
        let mut classes = Vec::with_capacity(alloc, sheet.len() as usize)?;
        for row_no in 0..sheet.len() {
            classes.push(self.class_read(sheet.row(row_no)))?;
        }
        Ok(classes)
    }
}

// The one deck of all clean rows, for a sheet without a class field.
fn deck_of_all(alloc: Global, survey: &Survey, sheet: &Sheet) -> Result<Vec<Deck>, OutOfMemory>
    requires { AllByRecursion (IsRow survey.now.fields) sheet.now.rows }
    ensures { IfOk result (λ decks. AllByRecursion HasPlainNumbers sheet.now.rows
        → AreDecksOf survey.now sheet.now.rows None decks.items) }
{
    let mut decks = Vec::new(alloc);
    decks.push(Deck::new(alloc, survey, sheet)?)?;
    Ok(decks)
}

// The decks by a class field: for each of its codes, in their order, one of the clean rows with this code.
// They share the marks of the rows. There is none where the field is numerical.
fn decks_by(
    alloc: Global,
    survey: &Survey,
    sheet: &Sheet,
    field: u32,
) -> Result<Vec<Deck>, OutOfMemory>
    requires rows { AllByRecursion (IsRow survey.now.fields) sheet.now.rows }
    requires field { field < length survey.now.fields }
    ensures { IfOk result (λ decks. AllByRecursion HasPlainNumbers sheet.now.rows
        → AreDecksOf survey.now sheet.now.rows (Some field) decks.items) }
{
    let marks = Arc::new(alloc, RowMarks::of(alloc, survey, sheet)?)?;
    let mut decks = Vec::new(alloc);
    for code in 0..code_count(survey, field) {
        decks.push(Deck::of_class(alloc, survey, sheet, &marks, field, code)?)?;
    }
    Ok(decks)
}

// How many codes the field has, none where it is numerical.
fn code_count(survey: &Survey, field: u32) -> u8
    requires { field < length survey.now.fields }
    ensures count { result ≡ code_count survey.now.fields field }
    ensures few { result ≤ most_codes }
    ensures small { field < most_fields }
{
    codes_of_kind(&survey.fields()[field as usize].kind)
}

// How many codes a field of this kind has, none where it is numerical.
fn codes_of_kind(kind: &Kind) -> u8
    requires { codes_of_kind kind.now ≤ most_codes }
    ensures { result ≡ codes_of_kind kind.now }
{
    match kind {
        Kind::Number { .. } => 0,
        Kind::Code { codes } => codes.len() as u8,
    }
}
