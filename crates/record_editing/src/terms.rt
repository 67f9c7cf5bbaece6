//! What is asked of an edit beside its records: how much work is done, who are donors, and how often.

/// On what terms records are edited.
#[derive(Clone, Copy)]
pub struct Terms {
    /// The most work of the search in one record: the paths and pairs that may be looked at.
    pub budget: u64,
    /// How often a donor gives its values at most.
    pub limit: u32,
    /// How many donors a record ranks at most.
    pub near: u32,
    /// The field by whose codes records are in imputation classes, if they are: a record takes values from
    /// donors of its own class.
    pub class_field: Option<u32>,
}
