//! Sets of fields of a survey, which has at most 64, as the bits of one number. Fields are named by their
//! numbers, from 0 in declared order.
ghost use Rattle.std.specs.Prelude.{◌≡◌, ◌≢◌, ℕ, ◌<◌, true, false};
ghost use Rattle.edit_model.specs.FieldSets.{has_number, with_number, without_number};

use std::marker::Model;

/// A set of field numbers below 64.
#[derive(Clone, Copy)]
pub struct FieldSet {
    bits: u64,
}

impl Model for FieldSet {
    ghost use Rattle.std.specs.Prelude.{ℕ};

    ghost Value = { ℕ };

    ghost view = { λ s. s.bits };

    ghost inverse = { λ n. record { bits = n } };
}

impl FieldSet {
    /// The set without fields.
    pub fn empty() -> FieldSet
        ensures set { result ≡ 0 }
        ensures none { (f : ℕ) → has_number result f ≡ false }
    {
        FieldSet { bits: 0 }
    }

    /// The set and this field, which may be in the set already.
    pub fn with(self, field: u32) -> FieldSet
        requires { field < 64 }
        ensures set { result ≡ with_number self field }
        ensures has { has_number result field ≡ true }
        ensures others { (f : ℕ) → f ≢ field → has_number result f ≡ has_number self f }
    {
        FieldSet {
            bits: self.bits | (1 << field),
        }
    }

    /// The set but for this field, which need not be in the set.
    pub fn without(self, field: u32) -> FieldSet
        requires { field < 64 }
        ensures set { result ≡ without_number self field }
        ensures out { has_number result field ≡ false }
        ensures others { (f : ℕ) → f ≢ field → has_number result f ≡ has_number self f }
    {
        FieldSet {
            bits: self.bits & !(1 << field),
        }
    }

    /// Whether the set has the field.
    pub fn has(self, field: u32) -> bool
        requires { field < 64 }
        ensures { result ≡ has_number self field }
    {
        (self.bits >> field) & 1 == 1
    }

    /// The set as a number, which has the bit of each of its fields: sets can be ordered and looked up by it.
    pub fn bits(self) -> u64
        ensures { result ≡ self }
    {
        self.bits
    }
}
