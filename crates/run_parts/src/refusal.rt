//! Why a run is refused, together with the line that is printed of that: what the parts of a run answer
//! as their `Err`.
ghost use Rattle.std.specs.Prelude.{◌≡◌, ◌⊎◌, IfOk};
ghost use Rattle.run_parts.specs.Faults.{fault_status, fault_text};
ghost use Rattle.run_parts.specs.declared.fault.Fault.TheVariants as faults;

use crate::fault::{Fault, OUT_OF_MEMORY};
use crate::status::Status;
use foundation::OutOfMemory;
use std::alloc::Global;
use std::marker::Model;

/// A fault that ends a run, with the line that is printed of it. The line is made before the call that
/// may meet the fault. So a file that could not be read or written is told without memory. The refusal
/// for want of memory alone may have no line of its own: it has a constant one.
#[derive(Drop)]
pub struct Refusal<'a> {
    fault: Fault<'a>,
    line: Option<Vec<u8>>,
}

impl<'a> Model for Refusal<'a> {
    ghost use Rattle.std.specs.Prelude.{◌≡◌, IfNone, IfSome};
    ghost use Rattle.run_parts.specs.Faults.{fault_text};
    ghost use Rattle.run_parts.specs.declared.fault.Fault.{Fault as Told};
    ghost use Rattle.run_parts.specs.declared.fault.Fault.TheVariants as faults;

    ghost Value = { Told };

    ghost view = { λ r. r.fault };

    ghost invariant = { λ r. IfSome r.line (λ line. line.items ≡ fault_text r.fault) × IfNone r.line (r.fault ≡ faults.OutOfMemory) };
}

impl<'a> Refusal<'a> {
    /// The refusal for `fault`, with its line. `Err` where memory for the line is refused, so that a caller
    /// that makes it before a call to the desk can end there.
    pub fn new(alloc: Global, fault: Fault<'a>) -> Result<Refusal<'a>, OutOfMemory>
        ensures { IfOk result (λ refusal. refusal ≡ fault.entry) }
    {
        let line = fault.line(alloc)?;
        Ok(Refusal {
            fault,
            line: Some(line),
        })
    }

    /// The refusal for `fault`, or that for want of memory where memory for its line is refused. So a caller
    /// has a refusal in any case.
    pub fn of(alloc: Global, fault: Fault<'a>) -> Refusal<'a>
        ensures { (result ≡ fault.entry) ⊎ (result ≡ faults.OutOfMemory) }
    {
        match Refusal::new(alloc, fault) {
            Ok(refusal) => refusal,
            Err(OutOfMemory) => Refusal::out_of_memory(),
        }
    }

    /// The refusal for want of memory. No memory.
    pub fn out_of_memory() -> Refusal<'a>
        ensures { result ≡ faults.OutOfMemory }
    {
        Refusal {
            fault: Fault::OutOfMemory,
            line: None,
        }
    }

    /// The status with which a run ends that is refused so. No memory.
    pub fn status(&self) -> Status
        ensures { result ≡ fault_status self.now }
    {
        self.fault.status()
    }

    /// The line that is printed of the refusal, without its line feed. No memory.
    pub fn line(&self) -> &[u8]
        ensures { result.now ≡ fault_text self.now }
    {
        match &self.line {
            Some(line) => line.as_slice(),
            None => OUT_OF_MEMORY,
        }
    }
}
