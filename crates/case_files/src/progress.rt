//! How many cases passed and failed: of the commands of one file as they are done, and of all files.
ghost use Rattle.std.specs.Prelude.{◌≡◌, ◌↔◌, ◌<◌, ◌≤◌, IsFalse, IsSome, IsTrue};

/// How many cases passed, and how many failed. A case is a command that begins one, with the commands
/// behind it up to the next such command. The first case of a file also has the commands before it. A
/// case fails where an output of these is another than was to come. A file that is not run counts as a
/// case that failed.
#[derive(Clone, Copy)]
pub struct Count {
    pub passed: u64,
    pub failed: u64,
}

impl Count {
    /// The count of no cases, to which those of files are added.
    pub fn none() -> Count
        ensures { result ≡ record { passed = 0; failed = 0 } }
    {
        Count {
            passed: 0,
            failed: 0,
        }
    }

    /// The count of one case that failed, as for a file that is not run.
    pub fn one_failed() -> Count
        ensures { result ≡ record { passed = 0; failed = 1 } }
    {
        Count {
            passed: 0,
            failed: 1,
        }
    }

    /// Whether there were cases, and none failed.
    pub fn has_passed(self) -> bool
        ensures { IsTrue result ↔ (0 < self.passed) × (self.failed ≡ 0) }
    {
        self.passed > 0 && self.failed == 0
    }

    /// The sum of this count, such as that of the files so far, and `other`, such as that of the next file. A
    /// sum past 64 bits stays at the greatest number.
    pub fn plus(self, other: Count) -> Count
        ensures { result.failed ≡ 0 ↔ (self.failed ≡ 0) × (other.failed ≡ 0) }
    {
        Count {
            passed: self.passed.saturating_add(other.passed),
            failed: self.failed.saturating_add(other.failed),
        }
    }
}

/// How far the commands of a file are done: how many cases were begun, and how many of them failed.
/// `failing` says whether the case that was begun last did.
#[derive(Clone, Copy)]
pub struct Progress {
    cases: u64,
    failed: u64,
    failing: bool,
    ghost counted: { IsTrue failing → 0 < failed },
}

impl Progress {
    /// The progress in a file of which no command is done.
    pub fn new() -> Progress {
        Progress {
            cases: 0,
            failed: 0,
            failing: false,
        }
    }

    /// Notes one command more: `begins_case` says whether a case begins with it, and `is_right` whether
    /// its output was that which was to come. A case fails once, however many of its outputs are wrong. A
    /// failure before the first case is that case's, so beginning the first case does not end it.
    pub fn note_command(&mut self, begins_case: bool, is_right: bool)
        ensures right { IsTrue is_right → self.new.failed ≡ self.old.failed }
        ensures wrong { IsFalse is_right → 0 < self.new.failed }
        ensures later { self.old.failed ≤ self.new.failed }
    {
        if begins_case {
            self.failing = self.failing && self.cases == 0;
            self.cases = self.cases.saturating_add(1);
        }
        if !is_right && !self.failing {
            self.failing = true;
            self.failed = self.failed.saturating_add(1);
        }
    }

    /// How many cases the file has, where all its outputs were right, and None where one was wrong. A file
    /// that is all right is told by one line with this number.
    pub fn cases_if_right(self) -> Option<u64>
        ensures { IsSome result ↔ self.failed ≡ 0 }
    {
        if self.failed == 0 {
            Some(self.cases)
        } else {
            None
        }
    }

    /// How many of the file's cases passed, and how many failed. Where an output was wrong and no case was
    /// begun, one failed and none passed.
    pub fn count(self) -> Count
        ensures { result.failed ≡ self.failed }
    {
        Count {
            passed: self.cases.saturating_sub(self.failed),
            failed: self.failed,
        }
    }
}
