//! Why the released file or the reasons do not fit the records, each fault with the line that is printed
//! of it. The line is made with the fault, so that no memory is needed when it is printed.
ghost use Rattle.std.specs.Prelude.{◌≡◌, IfOk};
ghost use Rattle.page_command.specs.PageFaults.{page_fault_text};
ghost use Rattle.page_command.specs.declared.page_fault.PageFault.TheVariants as faults;

use foundation::OutOfMemory;
use reason_lines::ReasonFault;
use run_parts::{Fault, RecordsFault};
use std::alloc::Global;
use std::marker::Model;

/// What the line of a fault of the records begins with.
const OF_RECORDS: &[u8] = b"fault: records ";

/// Why the released file or the reasons do not fit the records of an edit.
#[derive(Drop)]
pub enum PageFault {
    /// The released file has no reading.
    Released { fault: RecordsFault },
    /// The reasons file has no reading.
    Reasons { fault: ReasonFault },
    /// The released file has `given` rows, and `kept` records are not left out.
    Rows { given: usize, kept: usize },
}

/// Such a fault, with the line that is printed of it.
#[derive(Drop)]
pub(crate) struct ToldFault {
    fault: PageFault,
    line: Vec<u8>,
}

impl Model for ToldFault {
    ghost use Rattle.std.specs.Prelude.{◌≡◌};
    ghost use Rattle.page_command.specs.PageFaults.{page_fault_text};
    ghost use Rattle.page_command.specs.declared.page_fault.PageFault.{PageFault as Told};

    ghost Value = { Told };

    ghost view = { λ t. t.fault };

    ghost invariant = { λ t. t.line.items ≡ page_fault_text t.fault };
}

impl ToldFault {
    /// The fault of a released file without a reading. Its line is that of a faulty record file, with
    /// `released` for `records`.
    pub(crate) fn of_released(alloc: Global, fault: RecordsFault) -> Result<ToldFault, OutOfMemory>
        ensures { IfOk result (λ told. told ≡ faults.Released fault) }
    {
        let shared = Fault::Records { fault };
        let told = shared.line(alloc)?;
        let Fault::Records { fault } = shared else {
            unreachable!()
        };
        let mut line = b"fault: released ".to_vec(alloc)?;
        line.extend_from_slice(&told[OF_RECORDS.len()..])?;
        Ok(ToldFault {
            fault: PageFault::Released { fault },
            line,
        })
    }

    /// The fault of a reasons file without a reading. Its line begins with `fault: reasons `.
    pub(crate) fn of_reasons(alloc: Global, fault: ReasonFault) -> Result<ToldFault, OutOfMemory>
        ensures { IfOk result (λ told. told ≡ faults.Reasons fault) }
    {
        let line = format!(in alloc; "fault: reasons {fault}")?.into_bytes();
        Ok(ToldFault {
            fault: PageFault::Reasons { fault },
            line,
        })
    }

    /// The fault of a released file of `given` rows, where the reasons leave `kept` records in. Its line has
    /// both numbers.
    pub(crate) fn of_rows(
        alloc: Global,
        given: usize,
        kept: usize,
    ) -> Result<ToldFault, OutOfMemory>
        ensures { IfOk result (λ told. told ≡ faults.Rows given kept) }
    {
        let line = format!(in alloc; "fault: released rows {given} of {kept}")?.into_bytes();
        Ok(ToldFault {
            fault: PageFault::Rows { given, kept },
            line,
        })
    }

    /// The line that the program prints of this fault, without its line feed. No memory.
    pub(crate) fn line(&self) -> &[u8]
        ensures { result.now ≡ page_fault_text self.now }
    {
        self.line.as_slice()
    }
}
