//! The figures of a release: all that its page says.
use foundation::Sequence;
use fraction128::Fraction;
use page_counts::{Amount, Bins, CodeCounts, FieldCount, RecordCounts, RuleCount, SizeCount};

/// All that the page of a release says, counted.
#[derive(Drop)]
pub struct ReleaseFigures {
    /// How many records were clean, changed, and left out by each cause.
    pub records: RecordCounts,
    /// The numbers of the records that were released: row k of the released file is the k-th of them.
    pub released: Sequence<u32>,
    /// For each field, in declared order, how often it was changed.
    pub fields: Sequence<FieldCount>,
    /// The numbers of the fields, from 0, with how often each was changed, that with the most changes first.
    pub fields_by_changes: Sequence<Amount>,
    /// For each rule, in declared order, how many records broke it as they came, and at how many it
    /// could not be tried.
    pub rules: Sequence<RuleCount>,
    /// The numbers of the rules, from 0, with how many records broke each, that which most broke first.
    pub rules_by_breaks: Sequence<Amount>,
    /// How many changed records have each weight, by rising weight.
    pub weights: Sequence<SizeCount>,
    /// The records whose changes weigh most, at most twenty, the heaviest first.
    pub greatest: Sequence<Amount>,
    /// For each number of records that some donor gave to, by rising number, how many donors gave to so
    /// many.
    pub gifts: Sequence<SizeCount>,
    /// For each field, in declared order, its values in the released records, before and after.
    pub values: Sequence<FieldValues>,
}

/// The values of a field before and after.
#[derive(Drop)]
pub enum FieldValues {
    /// Those of a numerical field.
    Numbers {
        numbers: NumberValues,
    },
    /// Those of a categorical field.
    Codes {
        before: CodeCounts,
        after: CodeCounts,
    },
}

/// A numerical field's values before and after, over the same bins; no bins where there is no number.
#[derive(Drop)]
pub struct NumberValues {
    pub bins: Option<Bins>,
    pub before: NumberFigures,
    pub after: NumberFigures,
}

/// What is counted of a numerical field's values.
#[derive(Drop)]
pub struct NumberFigures {
    /// How many values each bin has.
    pub counts: Sequence<usize>,
    /// How many numbers are in no bin.
    pub beyond: usize,
    /// How many values are none.
    pub none: usize,
    /// The sum of the numbers, None where a number on the way to it left 128 bits.
    pub sum: Option<Fraction>,
}
