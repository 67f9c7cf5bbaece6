//! The shape of a survey, which is all that elimination and boxes know of it.
ghost use Rattle.std.specs.Prelude.{◌≡◌, ◌≤◌, ◌-◌, ◌^◌, ◌++◌, [], ◌∷◌, All, IfOk, OnOk, length, map};
ghost use Rattle.edit_line.specs.inner.CodeCounts.{code_count};
ghost use Rattle.edit_line.specs.CodeFields.{size_of};
ghost use Rattle.edit_line.specs.Shapes.{domain_with, domains_of, shape_of, whole_sets};

use edit_model::{Kind, Survey};
use foundation::OutOfMemory;
use std::alloc::Global;

/// A survey's shape: for each field its kind and, where it is categorical, its number of codes. It takes
/// no memory. Contracts see `domains shape`.
#[derive(Clone, Copy, PartialEq, Eq)]
pub struct Shape {
    count: usize,
    codes: [u8; 64],
    pub ghost few: { count ≤ 64 },
    pub ghost few_codes: { All (λ k. k ≤ 64) codes },
}

impl Shape {
    /// The shape of the survey. No memory.
    pub fn of(survey: &Survey) -> Shape
        ensures { domains_of result.count result.codes ≡ shape_of survey.now.fields }
    {
        let mut codes = [0; 64];
        let fields = survey.fields();
        for (i, field) in fields.iter().enumerate() {
            codes[i] = code_count(&field.kind);
        }
        Shape {
            count: fields.len(),
            codes,
        }
    }

    /// The number of codes of each field, in declared order; 0 where the field is numerical. No memory.
    pub fn code_counts(&self) -> &[u8]
        ensures domains { map domain_with result.now ≡ domains_of self.now.count self.now.codes }
        ensures few { length result.now ≤ 64 }
        ensures few_codes { All (λ k. k ≤ 64) result.now }
    {
        &self.codes[..self.count]
    }

    /// How many codes the field has, 0 where it is numerical or no field of the survey. No memory.
    pub fn size_of(&self, field: u32) -> u8
        ensures size { result ≡ size_of (domains_of self.now.count self.now.codes) field }
        ensures few { result ≤ 64 }
    {
        let counts = self.code_counts();
        let place = field as usize;
        if place < counts.len() {
            counts[place]
        } else {
            0
        }
    }

    /// The set of all codes, as bits, of each categorical field, in declared order.
    pub fn whole_sets(&self, alloc: Global) -> Result<Vec<u64>, OutOfMemory>
        ensures { IfOk result (λ sets. sets.items ≡ whole_sets (domains_of self.now.count self.now.codes)) }
    {
        let mut sets = Vec::new(alloc);
        for count in self.code_counts() {
            push_whole(&mut sets, *count)?;
        }
        Ok(sets)
    }
}

// Puts the set of a field's `count` codes last. A numerical field, which has 0 codes, has no set.
fn push_whole(sets: &mut Vec<u64>, count: u8) -> Result<(), OutOfMemory>
    requires { count ≤ 64 }
    ensures { OnOk result (sets.new.items ≡ sets.old.items ++ whole_sets (domain_with count ∷ [])) }
{
    if count > 0 {
        sets.push(whole_set(count))?;
    }
    Ok(())
}

/// The set, as bits, of the first `count` codes, which are all codes of a field with so many. No memory.
pub fn whole_set(count: u8) -> u64
    requires { count ≤ 64 }
    ensures { result ≡ 2 ^ count - 1 }
{
    if count < 64 {
        (1 << count) - 1
    } else {
        u64::MAX
    }
}

// The number of codes of a field of this kind, 0 where it is numerical.
fn code_count(kind: &Kind) -> u8
    requires { code_count kind.now ≤ 64 }
    ensures { result ≡ code_count kind.now }
{
    match kind {
        Kind::Number { .. } => 0,
        Kind::Code { codes } => codes.len() as u8,
    }
}
