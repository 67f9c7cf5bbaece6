//! A list of lines that stays reduced as lines are taken in: elimination puts each line that it makes in
//! here. A key is 64 bits made of a line's factors, by which most lines are told apart without comparing
//! them.
//!
//! In contracts, `with_derived` has the kept lines after one more is taken in. `NoneOver` says that lines
//! before a place need not be asked whether they subsume the given one. `NoneUnder` says that the given
//! one subsumes none of them.
//! `left_from` has the lines before a place, and of the others those that the given one does not subsume.
ghost use Rattle.std.specs.Prelude.{◌≡◌, ◌<◌, ◌-◌, ◌++◌, [], ◌∷◌, length, not, take, OnErr, OnOk};
ghost use Rattle.std.specs.List.{filter, list_any};
ghost use Rattle.std.specs.Vec.{vec_capacity, vec_len};
ghost use Rattle.edit_line.specs.inner.Keys.{NoneOver, NoneUnder, key_of, keys_of, left_from};
ghost use Rattle.edit_line.specs.Reductions.{derived_from, with_derived};
ghost use Rattle.edit_line.specs.Subsumption as subsumption;

use crate::derived::{Derived, Origin};
use crate::key::{key_of, may_concern, subsumes_keyed};
use crate::line::Line;
use crate::subsumption::is_trivial;
use foundation::OutOfMemory;
use std::alloc::Global;
use std::marker::Model;

/// Lines that are kept, in order, as more are taken in. Beside each stands the key of its factors, so that
/// lines are compared only where these agree.
#[derive(Drop)]
pub struct Kept {
    lines: Vec<Derived>,
    keys: Vec<u64>,
}

impl Model for Kept {
    ghost use Rattle.std.specs.Prelude.{◌≡◌, List};
    ghost use Rattle.edit_line.specs.inner.Keys.{keys_of};
    ghost use Rattle.edit_line.specs.declared.derived.Derived as declared;

    ghost Value = { List declared.Derived };

    ghost view = { λ k. k.lines.items };

    ghost invariant = { λ k. k.keys.items ≡ keys_of k.lines.items };
}

impl Kept {
    /// The list without lines. No memory.
    pub fn new(alloc: Global) -> Kept
        ensures { result ≡ [] }
    {
        Kept {
            lines: Vec::new(alloc),
            keys: Vec::new(alloc),
        }
    }

    /// The lines, in the order in which they came in. No memory.
    pub fn into_lines(self) -> Vec<Derived>
        ensures { result.items ≡ self }
    {
        self.lines
    }

    /// Takes the line in. It is dropped where it always holds, or where a kept line subsumes it. Else
    /// the kept lines that it subsumes are dropped, and it comes last. After a refusal the kept lines
    /// are as before.
    pub fn take(&mut self, new: Derived) -> Result<(), OutOfMemory>
        ensures taken { OnOk result (self.new ≡ with_derived self.old new) }
        ensures refused { OnErr result (self.new ≡ self.old) }
    {
        let key = key_of(new.line.factors());
        if is_trivial(&new.line) {
            return Ok(());
        }
        let first = first_agreeing(&self.lines, &self.keys, &new.line, key);
        if is_subsumed(&self.lines, &self.keys, &new.line, key, first) {
            return Ok(());
        }
        self.replace_subsumed(new, key, first)
    }

    /// Takes in an equal line with this origin, as `take` does. No copy is made of a line that is dropped.
    /// After a refusal the kept lines are as before.
    pub fn take_copy(
        &mut self,
        alloc: Global,
        line: &Line,
        origin: Origin,
    ) -> Result<(), OutOfMemory>
        ensures taken { OnOk result (self.new ≡ with_derived self.old (derived_from line.now origin)) }
        ensures refused { OnErr result (self.new ≡ self.old) }
    {
        let key = key_of(line.factors());
        if is_trivial(line) {
            return Ok(());
        }
        let first = first_agreeing(&self.lines, &self.keys, line, key);
        if is_subsumed(&self.lines, &self.keys, line, key, first) {
            return Ok(());
        }
        let line = line.copy(alloc)?;
        self.replace_subsumed(Derived { line, origin }, key, first)
    }

    /// Puts the line last, and compares it with none: for a line that is known to say something of its
    /// own beside the kept ones. After a refusal the kept lines are as before.
    pub fn push(&mut self, new: Derived) -> Result<(), OutOfMemory>
        ensures pushed { OnOk result (self.new ≡ self.old ++ new ∷ []) }
        ensures refused { OnErr result (self.new ≡ self.old) }
    {
        let key = key_of(new.line.factors());
        self.keys.reserve(1)?;
        self.lines.reserve(1)?;
        self.lines.push_reserved(new);
        self.keys.push_reserved(key);
        Ok(())
    }

    // Puts the line last, and removes the lines that it subsumes, of which none stands before the place
    // `first`. Its own place is reserved before one is removed, so that a refusal leaves the kept lines as
    // before.
    fn replace_subsumed(&mut self, new: Derived, key: u64, first: usize) -> Result<(), OutOfMemory>
        requires key { key ≡ key_of new.line.factors }
        requires first { NoneUnder first new.line self.old }
        ensures replaced { OnOk result (self.new ≡ filter (λ b. not (subsumption.subsumes new.line b.line)) self.old ++ new ∷ []) }
        ensures refused { OnErr result (self.new ≡ self.old) }
    {
        self.keys.reserve(1)?;
        self.lines.reserve(1)?;
        remove_subsumed(&mut self.lines, &mut self.keys, &new.line, key, first);
        self.lines.push_reserved(new);
        self.keys.push_reserved(key);
        Ok(())
    }
}

// The place of the first line that, by its key, may subsume the given line or be subsumed by it. Where
// there is none it is the number of the lines. The lines before it need not be compared.
fn first_agreeing(lines: &[Derived], keys: &[u64], line: &Line, key: u64) -> usize
    requires keyed { keys.now ≡ keys_of lines.now }
    requires key { key ≡ key_of line.now.factors }
    ensures over { NoneOver result line.now lines.now }
    ensures under { NoneUnder result line.now lines.now }
{
    for i in 0..lines.len() {
        if may_concern(&lines[i].line, keys[i], line, key) {
            return i;
        }
    }
    lines.len()
}

// Whether one of the lines, whose keys are `keys`, subsumes the given line, whose key is `key`. Lines before the
// place `first` need not be asked (`NoneOver`), so the search begins there.
fn is_subsumed(lines: &[Derived], keys: &[u64], line: &Line, key: u64, first: usize) -> bool
    requires keyed { keys.now ≡ keys_of lines.now }
    requires key { key ≡ key_of line.now.factors }
    requires first { NoneOver first line.now lines.now }
    ensures { result ≡ list_any (λ a. subsumption.subsumes a.line line.now) lines.now }
{
    for i in first..lines.len() {
        if subsumes_keyed(&lines[i].line, keys[i], line, key) {
            return true;
        }
    }
    false
}

// Removes the lines that the given line subsumes, and their keys. None stands before the place `first`.
// Room for one more stays, since the caller has reserved it.
fn remove_subsumed(
    lines: &mut Vec<Derived>,
    keys: &mut Vec<u64>,
    line: &Line,
    key: u64,
    first: usize,
)
    requires keyed { keys.old.items ≡ keys_of lines.old.items }
    requires key { key ≡ key_of line.now.factors }
    requires first { NoneUnder first line.now lines.old.items }
    ensures lines { lines.new.items ≡ filter (λ b. not (subsumption.subsumes line.now b.line)) lines.old.items }
    ensures keyed { keys.new.items ≡ keys_of lines.new.items }
    ensures room { vec_len lines.old < vec_capacity lines.old → vec_len lines.new < vec_capacity lines.new }
    ensures key_room { vec_len keys.old < vec_capacity keys.old → vec_len keys.new < vec_capacity keys.new }
{
    let mut place = first;
    while place < lines.len() {
        place = remove_at(lines, keys, line, key, place);
    }
}

// Removes the line at the place, and its key, if the given line subsumes it. The answer is the place of
// the next line to look at; each call leaves one line less to look at. Room for one more stays.
fn remove_at(
    lines: &mut Vec<Derived>,
    keys: &mut Vec<u64>,
    line: &Line,
    key: u64,
    place: usize,
) -> usize
    requires keyed { keys.old.items ≡ keys_of lines.old.items }
    requires key { key ≡ key_of line.now.factors }
    requires place { place < length lines.old.items }
    ensures lines { left_from result line.now lines.new.items ≡ left_from place line.now lines.old.items }
    ensures keyed { keys.new.items ≡ keys_of lines.new.items }
    ensures room { vec_len lines.old < vec_capacity lines.old → vec_len lines.new < vec_capacity lines.new }
    ensures key_room { vec_len keys.old < vec_capacity keys.old → vec_len keys.new < vec_capacity keys.new }
    ensures nearer { length lines.new.items - result < length lines.old.items - place }
{
    if subsumes_keyed(line, key, &lines[place].line, keys[place]) {
        lines.remove(place);
        keys.remove(place);
        place
    } else {
        place + 1
    }
}
