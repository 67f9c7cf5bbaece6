//! The files of a run as they are stored: each command that writes files stores them by this call, one
//! after the other.
//!
//! In contracts, `StoresOf` says that the files stand there after the call, or what a fault leaves of
//! them. `kind` says which refusals may come, `asked` which call the desk is asked for, and `faults` how
//! its count of faults stands after it.
ghost use Rattle.std.specs.Prelude.{◌≡◌, ◌∷◌, [], IfErr};
ghost use Rattle.edit_desk.specs.Desk.{PutsOnRecord, Told, stored};
ghost use Rattle.run_parts.specs.Faults.{IsOfStores};
ghost use Rattle.run_parts.specs.Parts.{AreCallsOf, StoresOf, faults_after};

use crate::fault::{AskedName, Fault};
use crate::refusal::Refusal;
use edit_desk::{Desk, StoreError};
use std::alloc::Global;

/// Puts the bytes under the name, in the place of what stood there. Refused where the desk can't write
/// the file, and for want of memory. A store that fails leaves what stood there, or some first bytes of
/// the new ones. The refusal for it is made before the store, so that it is told without memory.
pub fn store_file<'a, D: Desk>(
    alloc: Global,
    name: &'a str,
    bytes: &[u8],
    desk: &mut D,
) -> Result<(), Refusal<'a>>
    ensures kind { IfErr result IsOfStores }
    ensures files { Told (D.files desk.old) (D.files desk.new) (StoresOf ((name.now, bytes.now) ∷ []) result) }
    ensures asked { PutsOnRecord (D.calls desk.old) (D.calls desk.new) (AreCallsOf (stored name.now ∷ []) result) }
    ensures faults { D.faults desk.new ≡ faults_after result (D.faults desk.old) }
{
    let Ok(failed) = Refusal::new(
        alloc,
        Fault::Write {
            name: AskedName::new(name),
        },
    ) else {
        return Err(Refusal::out_of_memory());
    };
    match desk.store(alloc, name, bytes) {
        Ok(()) => Ok(()),
        Err(StoreError::Failed) => Err(failed),
        Err(StoreError::OutOfMemory) => Err(Refusal::out_of_memory()),
    }
}
