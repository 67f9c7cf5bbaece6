//! Why a program that is timed, a bench, tells nothing, with its exit status and its words.
ghost use Rattle.std.specs.Prelude.{◌≡◌};
ghost use Rattle.bench_frame.specs.Faults.{status_of, text_of};

use edit_desk::WordsFault;
use foundation::OutOfMemory;
use std::alloc::{AllocError, AllocFailed};

/// Why a bench does not tell what it was asked for.
#[derive(Clone, Copy)]
pub enum Fault {
    /// The words are not in form.
    Usage,
    /// The rule file has no reading.
    Rules,
    /// The record file has no reading.
    Records,
    /// A number of a combination is out of range.
    Overflow,
    /// The one file that the words name could not be read.
    FileUnread,
    /// One of the files that the words name could not be read, or has 2^32 bytes or more.
    Unread,
    /// Memory was refused.
    OutOfMemory,
}

impl Fault {
    /// The exit status of a bench that ends with this fault, from 2 to 7. Success is 0, and a printer
    /// that failed is 6.
    pub fn status(self) -> u8
        ensures { result ≡ status_of self }
    {
        match self {
            Fault::Usage => 2,
            Fault::Rules => 3,
            Fault::Records | Fault::Overflow => 4,
            Fault::FileUnread | Fault::Unread => 5,
            Fault::OutOfMemory => 7,
        }
    }

    /// The words that a bench prints of the fault, without the line feed behind them. Where the words with
    /// which it was called are not in form, they are `usage`, its text of how it is called.
    pub fn text<'a>(self, usage: &'a str) -> &'a str
        ensures { result.now ≡ text_of usage.now self }
    {
        match self {
            Fault::Usage => usage,
            Fault::Rules => "the rule file has no reading",
            Fault::Records => "the record file has no reading",
            Fault::Overflow => "a number of a combination is out of range",
            Fault::FileUnread => "the file could not be read",
            Fault::Unread => "a file could not be read",
            Fault::OutOfMemory => "out of memory",
        }
    }
}

impl From<WordsFault> for Fault {
    ghost use Rattle.std.specs.Prelude.{◌≡◌};
    ghost use Rattle.bench_frame.specs.Faults.{fault_of};

    ghost from_gives = { λ cause fault. fault ≡ fault_of cause };

    // Lets `?` turn a fault of the words into one of the bench: words that are no text are not in form.
    fn from(cause: WordsFault) -> Self {
        match cause {
            WordsFault::NotText => Fault::Usage,
            WordsFault::OutOfMemory => Fault::OutOfMemory,
        }
    }
}

impl From<OutOfMemory> for Fault {
    ghost use Rattle.std.specs.Prelude.{◌≡◌};
    ghost use Rattle.bench_frame.specs.declared.fault.Fault.TheVariants as faults;

    ghost from_gives = { λ _ fault. fault ≡ faults.OutOfMemory };

    // Lets `?` turn the refusal of memory into a fault of the bench.
    fn from(_refused: OutOfMemory) -> Self {
        Fault::OutOfMemory
    }
}

impl From<AllocError> for Fault {
    ghost use Rattle.std.specs.Prelude.{◌≡◌};
    ghost use Rattle.bench_frame.specs.declared.fault.Fault.TheVariants as faults;

    ghost from_gives = { λ _ fault. fault ≡ faults.OutOfMemory };

    // Lets `?` turn a refusal of the standard library into a fault of the bench.
    fn from(_refused: AllocError) -> Self {
        Fault::OutOfMemory
    }
}

impl<T: Drop> From<AllocFailed<T>> for Fault {
    ghost use Rattle.std.specs.Prelude.{◌≡◌};
    ghost use Rattle.bench_frame.specs.declared.fault.Fault.TheVariants as faults;

    ghost from_gives = { λ _ fault. fault ≡ faults.OutOfMemory };

    // Lets `?` turn such a refusal into a fault of the bench. What found no room is dropped.
    fn from(_refused: AllocFailed<T>) -> Self {
        Fault::OutOfMemory
    }
}
