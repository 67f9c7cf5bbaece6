//! What a record holds at a field: a code, a number, or no value.
ghost use Rattle.std.specs.Prelude.{◌≡◌};
ghost use Rattle.edit_model.specs.RowPoints.{code_in};
ghost use Rattle.edit_model.specs.Rows.{is_bad};

use fraction128::Fraction;

/// What a record holds in a field.
#[derive(Clone, Copy, Debug, PartialEq, Eq)]
pub enum Value {
    /// The number of one of the field's codes, from 0.
    Code(u8),
    /// A number, exactly.
    Number(Fraction),
    /// Missing or faulty: every correction changes it.
    Bad,
}

impl Value {
    /// Whether there is no value. No memory.
    pub fn is_bad(&self) -> bool
        ensures { result ≡ is_bad self.now }
    {
        matches!(self, Value::Bad)
    }

    /// The number of the code that the value is. It is 0 where the value is no code, so a missing code
    /// counts as the first one. No memory.
    pub fn code_number(&self) -> u8
        ensures { result ≡ code_in self.now }
    {
        match self {
            Value::Code(code) => *code,
            Value::Number(_) | Value::Bad => 0,
        }
    }
}
