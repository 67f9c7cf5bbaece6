//! How often each code of a categorical field stands in some rows.
ghost use Rattle.std.specs.Prelude.{◌≡◌, IfOk, count_by};
ghost use Rattle.edit_model.specs.Rows.{is_bad};
ghost use Rattle.page_counts.specs.Columns.{code_counts, is_code};

use crate::columns::bad_count;
use edit_model::Value;
use foundation::{OutOfMemory, Sequence};
use std::alloc::Global;

/// How many values each code has, in the order of the codes, and how many values are missing (`none`).
#[derive(Drop)]
pub struct CodeCounts {
    pub by_code: Sequence<usize>,
    pub none: usize,
}

/// For each of the first `codes` codes how many of the values are that code, and how many values are
/// missing (Bad). A number, or a later code, is counted nowhere.
pub fn code_counts(alloc: Global, values: &[Value], codes: u32) -> Result<CodeCounts, OutOfMemory>
    ensures by_code { IfOk result (λ counts. counts.by_code ≡ code_counts codes values.now) }
    ensures none { IfOk result (λ counts. counts.none ≡ count_by is_bad values.now) }
{
    let mut by_code = Vec::with_capacity(alloc, codes as usize)?;
    for code in 0..codes {
        by_code.push(code_count(values, code))?;
    }
    Ok(CodeCounts {
        by_code: Sequence::from_vec(by_code),
        none: bad_count(values),
    })
}

// How many of the values are the code of this number, from 0.
fn code_count(values: &[Value], code: u32) -> usize
    ensures { result ≡ count_by (is_code code) values.now }
{
    values.iter().filter(|value| is_code(value, code)).count()
}

// Whether the value is the code of this number, from 0. A number or a missing value is none.
fn is_code(value: &Value, code: u32) -> bool
    ensures { result ≡ is_code code value.now }
{
    match value {
        Value::Code(c) => u32::from(*c) == code,
        Value::Number(_) | Value::Bad => false,
    }
}
