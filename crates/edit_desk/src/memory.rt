//! A desk in memory, for tests and worked cases. Its files can be looked at, its calls are on record, and
//! calls can be made to fail.
//!
//! In contracts, `named_files` has the files of a map with their names, `under` the bytes under each name,
//! and `asked` a call on record. `next_failure` is the failure that was asked for the next call, and
//! `faults_of` how many calls on record failed. `FailsAs` says what a store leaves that is to fail. The
//! other words are those of `calls`.
ghost use Rattle.std.specs.Prelude.{◌≡◌, ◌⊎◌, ◌+◌, ◌==◌, ◌≤◌, ◌++◌, [], Some, None, IfErr, IfOk, IfSome, IfNone, IsSome, IsErr, IsErrOf};
ghost use Rattle.std.specs.Prelude.{OnOk, OnErr, length, map, take, find, option_copied};
ghost use Rattle.edit_desk.specs.Desk.{Fetches, Stores, SameElsewhere, TakesOneMore, after_fetch, after_store, fetch_record, store_record};
ghost use Rattle.edit_desk.specs.Memory.{FailsAs, asked, faults_of, named_files, next_failure, under};

use crate::calls::{Desk, FetchError, StoreError};
use foundation::OutOfMemory;
use std::alloc::Global;
use std::collections::BTreeMap;
use std::marker::Model;

/// A call that is to fail, by its number: fetches and stores are counted together, from 1.
#[derive(Clone, Copy)]
pub struct Failure {
    /// The number of the call.
    pub call: u64,
    /// How many of the first bytes a store that fails puts all the same.
    pub keep: u64,
}

/// One call on record: whether it was a store or a fetch, under which name, and whether it failed.
#[derive(Drop)]
pub struct Call {
    pub store: bool,
    pub name: String,
    pub failed: bool,
}

/// Files in memory. Calls fail where they were told to, and where a fetch finds no file of its name.
#[derive(Drop)]
pub struct MemoryDesk {
    files: BTreeMap<String, Vec<u8>>,
    calls: Vec<Call>,
    failures: Vec<Failure>,
}

impl Model for MemoryDesk {
    ghost use Rattle.std.specs.Prelude.{map};
    ghost use Rattle.edit_desk.specs.Memory.{Memory, named_files, asked};

    ghost Value = { Memory };

    ghost view = { λ d. record { files = named_files d.files; calls = map asked d.calls.items; failures = d.failures.items } };
}

impl MemoryDesk {
    /// A desk with these files and no calls on record, whose calls fail as `failures` says.
    pub fn new(alloc: Global, files: BTreeMap<String, Vec<u8>>, failures: Vec<Failure>) -> Self
        ensures { result ≡ record { files = named_files files; calls = []; failures = failures.items } }
    {
        MemoryDesk {
            files,
            calls: Vec::new(alloc),
            failures,
        }
    }

    /// The bytes under `name`, or None where no file has it. No memory.
    #[tactic(auto, using(crate::proofs::MemoryLaws::under_named))]
    pub fn file(&self, name: &str) -> Option<&[u8]>
        ensures { option_copied result ≡ under self.now.files name.now }
    {
        match self.files.get(name) {
            None => None,
            Some(bytes) => Some(bytes.as_slice()),
        }
    }

    /// The calls on record, the oldest first. No memory.
    pub fn calls(&self) -> &[Call]
        ensures { map asked result.now ≡ self.now.calls }
    {
        self.calls.as_slice()
    }

    /// The files that the desk holds, by name. No memory.
    pub fn into_files(self) -> BTreeMap<String, Vec<u8>>
        ensures { named_files result ≡ self.files }
    {
        self.files
    }

    // The failure that was asked for the next call, whose number is one more than that of the calls on
    // record. None where none was asked for.
    fn due_failure(&self) -> Option<Failure>
        ensures { result ≡ next_failure self.now }
    {
        failure_of(&self.failures, self.calls.len() as u64 + 1)
    }
}

impl Desk for MemoryDesk {
    ghost use Rattle.edit_desk.specs.Memory.{under, faults_of};

    ghost files = { λ d. Some (under d.files) };

    ghost calls = { λ d. Some d.calls };

    ghost faults = { faults_of };

    // Answers a copy of the file's bytes. It is `Failed` where a failure was asked for, or no file has the
    // name, and `TooLong` where there are more bytes than `limit`. Memory for the record of the call is
    // taken first, so that a call that is refused memory is not on record.
    fn fetch(&mut self, alloc: Global, name: &str, limit: u64) -> Result<Vec<u8>, FetchError>
        ensures files { self.new.files ≡ self.old.files }
        ensures within { IfOk result (λ bytes. length bytes.items ≤ limit) }
        ensures taken { IfErr result (TakesOneMore limit) }
        ensures bytes { Fetches (under self.old.files) name.now limit result }
        ensures calls { self.new.calls ≡ self.old.calls ++ fetch_record name.now result }
        ensures faults { faults_of self.new ≡ after_fetch result (faults_of self.old) }
        ensures failures { self.new.failures ≡ self.old.failures }
        ensures cause { IsErrOf result FetchError.Failed → IsSome (next_failure self.old) ⊎ (under self.old.files name.now ≡ None) }
        ensures due { IsSome (next_failure self.old) → IsErrOf result FetchError.Failed ⊎ IsErrOf result FetchError.OutOfMemory }
    {
        let failure = self.due_failure();
        self.calls.reserve(1)?;
        let asked = String::from_str(alloc, name)?;
        let answer = bytes_within(alloc, &self.files, failure, name, limit);
        if let Err(FetchError::OutOfMemory) = answer {
            return answer;
        }
        self.calls.push_reserved(Call {
            store: false,
            name: asked,
            failed: matches!(answer, Err(FetchError::Failed)),
        });
        answer
    }

    // Puts a copy of the bytes under `name`. Where a failure was asked for, it puts the first bytes that
    // this keeps, and is `Failed`. Memory for the record of the call is taken first. So a call that is
    // refused memory changes nothing and is not on record.
    fn store(&mut self, alloc: Global, name: &str, bytes: &[u8]) -> Result<(), StoreError>
        ensures files { Stores (under self.old.files) (under self.new.files) name.now bytes.now result }
        ensures calls { self.new.calls ≡ self.old.calls ++ store_record name.now result }
        ensures faults { faults_of self.new ≡ after_store result (faults_of self.old) }
        ensures failures { self.new.failures ≡ self.old.failures }
        ensures cause { IsErrOf result StoreError.Failed → IsSome (next_failure self.old) }
        ensures due { IfSome (next_failure self.old) (FailsAs (under self.new.files) name.now bytes.now result) }
    {
        let failure = self.due_failure();
        self.calls.reserve(1)?;
        let asked = String::from_str(alloc, name)?;
        insert_copy(alloc, &mut self.files, name, kept_bytes(bytes, failure))?;
        self.calls.push_reserved(Call {
            store: true,
            name: asked,
            failed: failure.is_some(),
        });
        match failure {
            None => Ok(()),
            Some(_) => Err(StoreError::Failed),
        }
    }
}

// The failure that was asked for the call of this `number`, counted from 1; the first where there are
// several, and None where there is none.
fn failure_of(failures: &[Failure], number: u64) -> Option<Failure>
    ensures { result ≡ find (λ f. f.call == number) failures.now }
{
    failures.iter().copied().find(|f| f.call == number)
}

// The bytes that a store puts: all where no failure was asked for, and else the first `keep` of them, or
// all where there are fewer.
fn kept_bytes(bytes: &[u8], failure: Option<Failure>) -> &[u8]
    ensures all { IfNone failure (result.now ≡ bytes.now) }
    ensures some { IfSome failure (λ f. result.now ≡ take f.keep bytes.now) }
{
    match failure {
        None => bytes,
        Some(f) => &bytes[..bytes.len().min(f.keep as usize)],
    }
}

// A copy of the bytes of the file `name`, which has at most `limit` of them. `Failed` where a failure was
// asked for (`failure`), or no file has the name; `TooLong` where it has more; `OutOfMemory` where memory
// was refused.
#[tactic(auto, using(crate::proofs::MemoryLaws::under_named))]
fn bytes_within(
    alloc: Global,
    files: &BTreeMap<String, Vec<u8>>,
    failure: Option<Failure>,
    name: &str,
    limit: u64,
) -> Result<Vec<u8>, FetchError>
    ensures bytes { Fetches (under (named_files files.now)) name.now limit result }
    ensures cause { IsErrOf result FetchError.Failed → IsSome failure ⊎ (under (named_files files.now) name.now ≡ None) }
    ensures due { IsSome failure → IsErrOf result FetchError.Failed }
{
    if failure.is_some() {
        return Err(FetchError::Failed);
    }
    let Some(bytes) = files.get(name) else {
        return Err(FetchError::Failed);
    };
    if bytes.len() as u64 > limit {
        return Err(FetchError::TooLong { taken: limit + 1 });
    }
    Ok(bytes.to_vec(alloc)?)
}

// Puts a copy of the bytes under a copy of the name, in the place of what stood there. Where memory is
// refused it changes nothing: both copies are made before the map is touched.
#[tactic(auto, using(crate::proofs::MemoryLaws::under_named))]
fn insert_copy(
    alloc: Global,
    files: &mut BTreeMap<String, Vec<u8>>,
    name: &str,
    bytes: &[u8],
) -> Result<(), OutOfMemory>
    ensures here { OnOk result (under (named_files files.new) name.now ≡ Some bytes.now) }
    ensures others { OnOk result (SameElsewhere (under (named_files files.old)) (under (named_files files.new)) name.now) }
    ensures unchanged { OnErr result (named_files files.new ≡ named_files files.old) }
{
    let name = String::from_str(alloc, name)?;
    let bytes = bytes.to_vec(alloc)?;
    files.insert(name, bytes)?;
    Ok(())
}
