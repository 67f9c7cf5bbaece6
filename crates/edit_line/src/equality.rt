//! Whether lines, and whole edits, are equal.
ghost use Rattle.std.specs.Prelude.{◌≡◌, ◌↔◌, ℕ, length, true};
ghost use Rattle.std.specs.Cmp.Lexicographic.{pointwise};
ghost use Rattle.edit_line.specs.Equality.{same_edits, same_line, same_numbered, same_shape};
ghost use Rattle.edit_line.specs.Domains.{domains};

use crate::edits::Edits;
use crate::line::Line;
use crate::shape::Shape;

impl Edits {
    /// Whether both are equal: the same lines, with the same numbers, over the same fields. No memory.
    pub fn same(&self, other: &Edits) -> bool
        ensures exact { result ≡ same_edits self.now other.now }
        ensures equal { result ≡ true ↔ self.now ≡ other.now }
    {
        same_contents(self, other)
    }
}

// What `Edits::same` answers: whether the fields and the numbered lines of both are equal.
fn same_contents(a: &Edits, b: &Edits) -> bool
    ensures { result ≡ same_edits a.now b.now }
{
    same_shape(a.shape(), b.shape()) && same_lines(a.lines(), b.lines())
}

impl Line {
    /// Whether both lines are equal: the same sets and numbers, and the same relation, over the same
    /// fields. No memory.
    pub fn same(&self, other: &Line) -> bool
        ensures exact { result ≡ same_line self.now other.now }
        ensures equal { result ≡ true ↔ self.now ≡ other.now }
    {
        same_parts(self, other)
    }
}

// What `Line::same` answers: whether all parts of two lines are equal.
fn same_parts(a: &Line, b: &Line) -> bool
    ensures { result ≡ same_line a.now b.now }
{
    same_shape(a.shape(), b.shape())
        && a.sets() == b.sets()
        && a.factors() == b.factors()
        && a.constant() == b.constant()
        && a.relation().same(b.relation())
}

// Whether two lists have equal lines with equal numbers, place by place.
fn same_lines(first: &[(u32, Line)], second: &[(u32, Line)]) -> bool
    ensures { result ≡ pointwise same_numbered first.now second.now }
{
    if first.len() != second.len() {
        return false;
    }
    for i in 0..first.len() {
        if !same_numbered(&first[i], &second[i]) {
            return false;
        }
    }
    true
}

// Whether two numbered lines are equal.
fn same_numbered(first: &(u32, Line), second: &(u32, Line)) -> bool
    ensures { result ≡ same_numbered first.now second.now }
{
    first.0 == second.0 && same_parts(&first.1, &second.1)
}

// Whether both shapes have the same fields: each of the same kind, with as many codes.
fn same_shape(first: Shape, second: Shape) -> bool
    ensures { result ≡ same_shape (domains first) (domains second) }
{
    first.code_counts() == second.code_counts()
}
