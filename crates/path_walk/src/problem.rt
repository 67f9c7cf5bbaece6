//! The problem that a search solves, the error localisation of one record, and how many fields a path says
//! something of. A path is a list of letters, one for each of the first fields in path order: false keeps
//! the field, true changes it. In contracts, `IsProblem` says that the parts of a problem fit each other,
//! and `case_in` has its survey, edits and record.
ghost use Rattle.std.specs.Prelude.{◌≡◌, ◌<◌, ◌≤◌, ◌==◌, ◌&&◌, ◌||◌, ℕ, false, slice_index_or};
ghost use Rattle.edit_model.specs.FieldSets.{has_number, set_of};
ghost use Rattle.edit_line.specs.Shapes.{shape_of};
ghost use Rattle.linear_elim.specs.Systems.{AreNumerical, chosen_fields};
ghost use Rattle.edit_paths.specs.Paths.{changed_numbers, field_count, number_count};
ghost use Rattle.path_walk.specs.Problems.{IsProblem, case_in};

use edit_line::Edits;
use edit_model::{FieldSet, Row, Survey};
use std::sync::Arc;

/// The error localisation of one record: its survey, the edits that it is searched by, and the record. With
/// them stands the set of all codes of each categorical field, in declared order.
#[derive(Clone, Copy)]
pub struct Problem<'a> {
    pub survey: &'a Survey,
    pub edits: &'a Arc<Edits>,
    pub row: &'a Row,
    pub wholes: &'a [u64],
}

/// How many fields are numerical. No memory.
pub(crate) fn number_count(problem: &Problem) -> usize
    requires { IsProblem problem.now }
    ensures count { result ≡ number_count (case_in problem.now) }
    ensures fit { result ≤ field_count (case_in problem.now) }
{
    problem.survey.numbers().len()
}

/// How many fields there are. No memory.
pub fn field_count(problem: &Problem) -> usize
    requires { IsProblem problem.now }
    ensures { result ≡ field_count (case_in problem.now) }
{
    problem.survey.fields().len()
}

/// The set of the numerical fields that the path of these letters changes. Those that it does not reach are
/// not in it. No memory.
pub(crate) fn changed_numbers(problem: &Problem, letters: &[bool]) -> FieldSet
    requires { IsProblem problem.now }
    ensures set { result ≡ set_of (changed_numbers (case_in problem.now) letters.now) }
    ensures chosen { chosen_fields (shape_of problem.now.survey.now.fields) result ≡ changed_numbers (case_in problem.now) letters.now }
    ensures numerical { AreNumerical (shape_of problem.now.survey.now.fields) result }
{
    let mut set = FieldSet::empty();
    for (place, field) in problem.survey.numbers().iter().enumerate() {
        set = with_changed(set, *field, is_changed(letters, place));
    }
    set
}

// The set with this field added where `changed` is true, and else as it was.
fn with_changed(set: FieldSet, field: u32, changed: bool) -> FieldSet
    requires { field < 64 }
    ensures { (f : ℕ) → has_number result f ≡ (has_number set f || ((field == f) && changed)) }
{
    if changed { set.with(field) } else { set }
}

// Whether the path has a letter at this place of path order, from 0, and the letter says changed.
fn is_changed(letters: &[bool], place: usize) -> bool
    ensures { result ≡ slice_index_or letters.now place false }
{
    place < letters.len() && letters[place]
}
