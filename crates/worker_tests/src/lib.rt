//! Tests over records that workers edit side by side, and nothing else.
#![tactic(auto)]

#[cfg(test)]
mod side_by_side;
