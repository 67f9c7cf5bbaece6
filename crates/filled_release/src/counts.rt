//! What is counted of the records of a file that is filled, for the line that is printed and the status
//! of the run. In contracts, `AreCountsOf` says that the counts are those of records with these answers.
ghost use Rattle.std.specs.Prelude.{◌≡◌, ◌<◌, ◌++◌, ◌∷◌, [], List, IfOk, not};
ghost use Rattle.std.specs.List.{list_any};
ghost use Rattle.foundation.specs.Limits.{most_records};
ghost use Rattle.deduce_fill.specs.declared.filled.Filled as answers;
ghost use Rattle.filled_release.specs.FilledFiles.{filled_summary, is_stopped};
ghost use Rattle.filled_release.specs.inner.Counts.{AreCountsOf, AreFew};

use deduce_fill::Filled;
use foundation::OutOfMemory;
use std::alloc::Global;

/// How many records there are, how many fields of them are filled, how many records are blocked, and on
/// how many filling stopped. No count is beyond what the records of a file can have (`AreFew`), so that
/// no sum overflows.
#[derive(Clone, Copy)]
pub(crate) struct Counts {
    pub(crate) records: u32,
    pub(crate) filled: u128,
    pub(crate) blocked: u32,
    pub(crate) stopped: u32,
}

impl Counts {
    /// The counts of no record. No memory.
    pub(crate) fn of_none() -> Counts
        ensures counts { AreCountsOf [] result }
        ensures few { AreFew result }
    {
        Counts {
            records: 0,
            filled: 0,
            blocked: 0,
            stopped: 0,
        }
    }

    /// Counts one record more, of which filling gives this answer. One that is done counts in `records`
    /// and with its filled fields alone. No memory.
    pub(crate) fn add(&mut self, answer: &Filled)
        requires few { AreFew self.old }
        requires more { self.old.records < most_records }
        ensures few { AreFew self.new }
        ensures counts { (before : List answers.Filled) → AreCountsOf before self.old
            → AreCountsOf (before ++ answer.now ∷ []) self.new }
    {
        self.records += 1;
        match answer {
            Filled::Done { forced, .. } => self.filled += forced.len() as u128,
            Filled::Blocked { .. } => self.blocked += 1,
            Filled::Budget { .. } | Filled::Overflow { .. } => self.stopped += 1,
        }
    }

    /// Whether no record is stopped, by which the status of the run is chosen. No memory.
    pub(crate) fn none_stopped(&self) -> bool
        ensures { (answers : List answers.Filled) → AreCountsOf answers self.now → result ≡ not (list_any is_stopped answers) }
    {
        self.stopped == 0
    }

    /// The line that tells the counts, without its line feed: `records N filled N blocked N stopped N`.
    pub(crate) fn summary(&self, alloc: Global) -> Result<Vec<u8>, OutOfMemory>
        ensures { IfOk result (λ line. (answers : List answers.Filled) → AreCountsOf answers self.now
            → line.items ≡ filled_summary answers) }
    {
        let Counts {
            records,
            filled,
            blocked,
            stopped,
        } = *self;
        Ok(format!(in alloc;
            "records {records} filled {filled} blocked {blocked} stopped {stopped}"
        )?.into_bytes())
    }
}
