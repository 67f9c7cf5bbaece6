//! The walk along one path of a record's search. A path is a list of letters, true for a changed field and
//! false for a kept one. In contracts, `IsWalk` says that record, edits and path are of one survey. `serves`
//! has the edits whose systems a source gives, and `keeps` the sets of fields whose systems it keeps.
ghost use Rattle.std.specs.Prelude.{◌≡◌, ◌≤◌, ◌==◌, [], ℕ, IfOk, None, Some, if◌then◌else◌, length, true};
ghost use Rattle.std.specs.Option.{option_copied};
ghost use Rattle.edit_line.specs.EditSets.{EditsParts};
ghost use Rattle.edit_paths.specs.Paths.{field_count};
ghost use Rattle.path_walk.specs.Bases.{IsBasisBefore};
ghost use Rattle.path_walk.specs.KeptFields.{KeepsChanged};
ghost use Rattle.path_walk.specs.Problems.{IsProblem, case_in, edits_in};
ghost use Rattle.prefix_walk.specs.PathWalks.{walk_along};
ghost use Rattle.prefix_walk.specs.Walks.{IsWalk, walk_case, walk_edits};

use crate::ends::{closed_by, stop_by};
use crate::walk_end::WalkEnd;
use bound_cert::Path;
use edit_line::Edits;
use edit_model::{Row, Survey};
use edit_paths::case_known;
use foundation::{OutOfMemory, Steps};
use linear_elim::{SystemFault, Systems};
use path_walk::{Bases, Basis, Problem, look_into, push_lists, system_along};
use std::alloc::Global;
use std::sync::Arc;
use std::sync::ledger::Ledger;

/// A walk to be taken along a path of a record, over the edits of its survey. `budget` is the most work, of
/// which `spent` was done before.
#[derive(Clone, Copy)]
pub struct Walk<'a> {
    pub survey: &'a Survey,
    pub edits: &'a Arc<Edits>,
    pub row: &'a Row,
    pub path: &'a [bool],
    pub budget: u64,
    pub spent: u64,
}

/// What the walk ends in. The paths that its path extends are taken, the empty one first, and at last the
/// path itself. The first that is closed, for which a number leaves the range, or with which the work would
/// pass the budget ends it.
pub fn walk_along<S: Systems, L: Ledger>(
    alloc: Global,
    source: &mut S,
    walk: &Walk,
    steps: &mut Steps<L>,
) -> Result<WalkEnd, OutOfMemory>
    requires walk { IsWalk walk.now }
    requires served { S.serves source.old (walk_edits walk.now) }
    ensures exact { IfOk result (λ end. end ≡ walk_along (walk_case walk.now) walk.now.path.now walk.now.budget walk.now.spent) }
    ensures serves { (e : EditsParts) → S.serves source.old e → S.serves source.new e }
    ensures keeps { (f : ℕ) → S.keeps source.old f ≡ true → S.keeps source.new f ≡ true }
    ensures counts { steps.old ≤ steps.new }
{
    case_known(walk.survey, walk.edits, walk.row);
    let wholes = walk.edits.shape().whole_sets(alloc)?;
    let problem = Problem {
        survey: walk.survey,
        edits: walk.edits,
        row: walk.row,
        wholes: &wholes,
    };
    take_paths(alloc, source, &problem, walk, steps)
}

// Takes the paths that the walk's path extends, and then that path, one after the other; the first that
// ends the walk is the answer. `problem` is the walk's record with its edits. `levels` collects the derived
// lists from which the steps of a closed path are written.
fn take_paths<S: Systems, L: Ledger>(
    alloc: Global,
    source: &mut S,
    problem: &Problem,
    walk: &Walk,
    steps: &mut Steps<L>,
) -> Result<WalkEnd, OutOfMemory>
    requires problem { IsProblem problem.now }
    requires fit { length walk.now.path.now ≤ field_count (case_in problem.now) }
    requires within { walk.now.spent ≤ walk.now.budget }
    requires served { S.serves source.old (edits_in problem.now) }
    ensures exact { IfOk result (λ end. end ≡ walk_along (case_in problem.now) walk.now.path.now walk.now.budget walk.now.spent) }
    ensures serves { (e : EditsParts) → S.serves source.old e → S.serves source.new e }
    ensures keeps { (f : ℕ) → S.keeps source.old f ≡ true → S.keeps source.new f ≡ true }
    ensures counts { steps.old ≤ steps.new }
{
    let mut work = walk.spent;
    let mut before = first_basis(alloc, source, problem, steps)?;
    let mut levels = Vec::new(alloc);
    for count in 0..walk.path.len() + 1 {
        let prefix = Path::new(Vec::from_slice(alloc, &walk.path[..count])?);
        let most = walk.budget - work;
        let Some(look) = look_into(alloc, source, problem, &prefix, &before, most, steps)? else {
            return Ok(WalkEnd::Budget { work });
        };
        work += look.work;
        if let Some(end) = stop_by(alloc, look.state, work) {
            return Ok(end);
        }
        let letters = prefix.letters();
        let bases = bases_of(letters, &look.basis, &before);
        push_lists(alloc, source, problem, letters, bases, &mut levels, steps)?;
        if let Some(end) = closed_by(alloc, look.state, &levels, work)? {
            return Ok(end);
        }
        before = look.basis;
    }
    Ok(WalkEnd::Open { work })
}

// The basis from which the empty path is looked into: the lines of the edits, as the source gives them.
fn first_basis<S: Systems, L: Ledger>(
    alloc: Global,
    source: &mut S,
    problem: &Problem,
    steps: &mut Steps<L>,
) -> Result<Basis, OutOfMemory>
    requires problem { IsProblem problem.now }
    requires served { S.serves source.old (edits_in problem.now) }
    ensures basis { IfOk result (λ before. IsBasisBefore (case_in problem.now) [] before) }
    ensures kept { IfOk result (λ before. KeepsChanged (S.keeps source.new) (case_in problem.now) []) }
    ensures serves { (e : EditsParts) → S.serves source.old e → S.serves source.new e }
    ensures keeps { (f : ℕ) → S.keeps source.old f ≡ true → S.keeps source.new f ≡ true }
    ensures counts { steps.old ≤ steps.new }
{
    match system_along(alloc, source, problem, &[], steps) {
        Ok(held) => Ok(Basis::Lines(Arc::new(alloc, held)?)),
        // no field is eliminated, so no number leaves the range
        Err(SystemFault::Overflow { .. } | SystemFault::OutOfMemory) => Err(OutOfMemory),
    }
}

// The bases of the path of these letters, from which its lists are made: its own, and that of the path before
// its last letter. The empty path has no path before it.
fn bases_of<'a>(letters: &[bool], own: &'a Basis, before: &'a Basis) -> Bases<'a>
    ensures own { option_copied result.own ≡ Some own.now }
    ensures parent { option_copied result.parent ≡ (if length letters.now == 0 then None else Some before.now) }
{
    let parent = if letters.is_empty() {
        None
    } else {
        Some(before)
    };
    Bases {
        own: Some(own),
        parent,
    }
}
