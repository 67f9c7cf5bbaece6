//! What a step of a derivation can prove: a line, or that codes are forbidden.
use edit_line::{CodeBox, Line};

/// What a step proves.
#[derive(Drop)]
pub enum Proved {
    /// That the line holds.
    Line(Line),
    /// That no codes may all stand in the box.
    Box(CodeBox),
}
