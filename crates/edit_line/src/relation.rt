//! What a line asks of its sum, and what becomes of that where lines are multiplied, added or negated.
ghost use Rattle.std.specs.Prelude.{◌≡◌};
ghost use Rattle.edit_line.specs.Combinations.{joined, may_multiply};
ghost use Rattle.edit_line.specs.Equality.{same_relation};
ghost use Rattle.edit_line.specs.Lines.{is_equal};
ghost use Rattle.edit_line.specs.Negations.{contrary_relation};
ghost use Rattle.edit_line.specs.Subsumption.{implies, is_enough};

/// What a line asks of its sum.
#[derive(Clone, Copy)]
pub enum Relation {
    /// The sum is at least 0.
    AtLeast,
    /// The sum is above 0.
    Above,
    /// The sum is 0.
    Equal,
}

impl Relation {
    /// Whether the sum is to be 0. No memory.
    pub fn is_equal(self) -> bool
        ensures { result ≡ is_equal self }
    {
        matches!(self, Relation::Equal)
    }

    /// Whether a number, such as a line's sum, is as the relation asks: at least 0, above 0, or 0. No
    /// memory.
    pub(crate) fn is_enough(self, number: i128) -> bool
        ensures { result ≡ is_enough self number }
    {
        match self {
            Relation::AtLeast => number >= 0,
            Relation::Above => number > 0,
            Relation::Equal => number == 0,
        }
    }

    /// Whether the other relation holds of each number of which this one holds. No memory.
    pub(crate) fn implies(self, other: Relation) -> bool
        ensures { result ≡ implies self other }
    {
        match other {
            Relation::AtLeast => true,
            Relation::Above => matches!(self, Relation::Above),
            Relation::Equal => matches!(self, Relation::Equal),
        }
    }

    /// Whether a line with this relation may be multiplied by the number. It must be above 0; for an
    /// equality it may be any but 0 that is in range, as -2^127 is not. No memory.
    pub fn may_multiply(self, number: i128) -> bool
        ensures { result ≡ may_multiply self number }
    {
        match self {
            Relation::AtLeast | Relation::Above => number > 0,
            Relation::Equal => number != 0 && number != i128::MIN,
        }
    }

    /// What is asked of the sum of two lines with these relations. It has to be 0 where both lines ask
    /// for 0, and above 0 where one of them asks for that. Else it has to be at least 0. No memory.
    pub(crate) fn sum_relation(self, other: Relation) -> Relation
        ensures { result ≡ joined self other }
    {
        match self {
            Relation::Equal => other,
            Relation::Above => Relation::Above,
            Relation::AtLeast => match other {
                Relation::Above => Relation::Above,
                Relation::AtLeast | Relation::Equal => Relation::AtLeast,
            },
        }
    }

    /// The relation that the negative of a number meets exactly where the number does not meet this
    /// one. `Equal` has none, since the negative may be above or below 0. It stays `Equal`, and no
    /// equality is negated by it. No memory.
    pub(crate) fn contrary_relation(self) -> Relation
        ensures { result ≡ contrary_relation self }
    {
        match self {
            Relation::AtLeast => Relation::Above,
            Relation::Above => Relation::AtLeast,
            Relation::Equal => Relation::Equal,
        }
    }

    /// Whether both are the same relation. No memory.
    pub(crate) fn same(self, other: Relation) -> bool
        ensures { result ≡ same_relation self other }
    {
        match self {
            Relation::AtLeast => matches!(other, Relation::AtLeast),
            Relation::Above => matches!(other, Relation::Above),
            Relation::Equal => matches!(other, Relation::Equal),
        }
    }
}
