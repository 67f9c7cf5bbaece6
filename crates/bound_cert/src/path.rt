//! Paths of the search, as values and as the letters of a proof file: K for a kept field, C for a changed one.
ghost use Rattle.std.specs.Prelude.{◌≡◌, ◌≤◌, ◌++◌, OnOk, length, map};
ghost use Rattle.std.specs.Io.{StartsWith};
ghost use Rattle.edit_model.specs.Rows.{IsRow};
ghost use Rattle.derivation.specs.Premises.{HasKept};
ghost use Rattle.bound_cert.specs.Paths.{keeps_bad, kept_set, letter, path_text, path_weight};

use crate::path_fields::{keeps_bad, kept_set, path_weight};
use edit_model::{FieldSet, Row, Survey};
use foundation::OutOfMemory;
use std::marker::Model;

/// A path: it says of the first fields in path order, numerical before categorical, whether each is kept
/// (false) or changed (true).
#[derive(Drop)]
pub struct Path {
    letters: Vec<bool>,
}

impl Model for Path {
    ghost use Rattle.std.specs.Prelude.{Bool, List};

    ghost Value = { List Bool };

    ghost view = { λ p. p.letters.items };
}

impl Path {
    /// The path of these letters: false for a kept field and true for a changed one, in path order. No
    /// memory.
    pub fn new(letters: Vec<bool>) -> Path
        ensures { result ≡ letters.items }
    {
        Path { letters }
    }

    /// The letters: false for a kept field and true for a changed one, in path order. No memory.
    pub fn letters(&self) -> &[bool]
        ensures { result.now ≡ self.now }
    {
        self.letters.as_slice()
    }

    /// The sum of the weights of the fields that the path changes. No memory.
    pub fn weight(&self, survey: &Survey) -> u64
        requires { length self.now ≤ length survey.now.fields }
        ensures { result ≡ path_weight survey.now.fields self.now }
    {
        path_weight(survey, self.letters())
    }

    /// Whether the path keeps a field at which the record has no value, so that no correction is along it.
    /// No memory.
    pub fn keeps_bad(&self, survey: &Survey, row: &Row) -> bool
        requires short { length self.now ≤ length survey.now.fields }
        requires row { IsRow survey.now.fields row.now }
        ensures { result ≡ keeps_bad survey.now.fields row.now self.now }
    {
        keeps_bad(survey, row, self.letters())
    }

    /// The set of the fields that the path keeps and at which the record has a value. No memory.
    pub fn kept_set(&self, survey: &Survey, row: &Row) -> FieldSet
        requires short { length self.now ≤ length survey.now.fields }
        requires row { IsRow survey.now.fields row.now }
        ensures set { result ≡ kept_set survey.now.fields row.now self.now }
        ensures held { HasKept row.now result }
    {
        kept_set(survey, row, self.letters())
    }

    /// Appends the path's letters, K for a kept field and C for a changed one, or `-` where it has none.
    /// Where memory is refused, some of them may stand behind what stood before.
    pub fn write(&self, text: &mut Vec<u8>) -> Result<(), OutOfMemory>
        ensures text { OnOk result (text.new.items ≡ text.old.items ++ path_text self.now) }
        ensures begins { StartsWith text.new.items text.old.items }
    {
        if self.letters().is_empty() {
            text.push(b'-')?;
            return Ok(());
        }
        write_letters(text, self.letters())
    }
}

// Appends the letters of a proof file, K or C, one for each field of the path. Where memory is refused, some
// of them may stand there.
fn write_letters(text: &mut Vec<u8>, letters: &[bool]) -> Result<(), OutOfMemory>
    ensures text { OnOk result (text.new.items ≡ text.old.items ++ map letter letters.now) }
    ensures begins { StartsWith text.new.items text.old.items }
{
    for changed in letters {
        text.push(letter(*changed))?;
    }
    Ok(())
}

// The byte of a field's letter in a proof file: C where it is changed, K where it is kept.
fn letter(changed: bool) -> u8
    ensures { result ≡ letter changed }
{
    if changed { b'C' } else { b'K' }
}
