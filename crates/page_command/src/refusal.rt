//! Refusals of the command `page`: those that it shares with other commands, and its own. A run that is
//! refused prints one line and ends with a status.
ghost use Rattle.std.specs.Prelude.{◌≡◌};
ghost use Rattle.page_command.specs.inner.PageParts.{out_of_memory, refusal_status, refusal_text};

use crate::page_fault::ToldFault;
use foundation::OutOfMemory;
use run_parts::{Refusal, Status};

/// Why the command ended before all was done.
#[derive(Drop)]
pub(crate) enum PageRefusal<'a> {
    /// For a fault that any command may meet.
    Shared(Refusal<'a>),
    /// The released file or the reasons do not fit the records.
    Unfit(ToldFault),
}

impl<'a> PageRefusal<'a> {
    /// The refusal for want of memory. No memory.
    pub(crate) fn out_of_memory() -> PageRefusal<'a>
        ensures { result ≡ out_of_memory }
    {
        PageRefusal::Shared(Refusal::out_of_memory())
    }

    /// The status with which a run of this refusal ends: `Rejected` where a file does not fit. No memory.
    pub(crate) fn status(&self) -> Status
        ensures { result ≡ refusal_status self.now }
    {
        match self {
            PageRefusal::Shared(refusal) => refusal.status(),
            PageRefusal::Unfit(_) => Status::Rejected,
        }
    }

    /// The line that the program prints of this refusal, without its line feed. No memory.
    pub(crate) fn line(&self) -> &[u8]
        ensures { result.now ≡ refusal_text self.now }
    {
        match self {
            PageRefusal::Shared(refusal) => refusal.line(),
            PageRefusal::Unfit(told) => told.line(),
        }
    }
}

impl<'a> From<Refusal<'a>> for PageRefusal<'a> {
    ghost use Rattle.std.specs.Prelude.{◌≡◌};
    ghost use Rattle.page_command.specs.declared.refusal.PageRefusal.TheVariants as refusals;

    ghost from_gives = { λ shared refusal. refusal ≡ refusals.Shared shared };

    // A refusal that any command may have is one of this command, too.
    fn from(shared: Refusal<'a>) -> Self {
        PageRefusal::Shared(shared)
    }
}

impl<'a> From<OutOfMemory> for PageRefusal<'a> {
    ghost use Rattle.std.specs.Prelude.{◌≡◌};
    ghost use Rattle.page_command.specs.inner.PageParts.{out_of_memory};

    ghost from_gives = { λ memory refusal. refusal ≡ out_of_memory };

    // A call below was refused memory: the command ends with the refusal for want of memory.
    fn from(_: OutOfMemory) -> Self {
        PageRefusal::out_of_memory()
    }
}
