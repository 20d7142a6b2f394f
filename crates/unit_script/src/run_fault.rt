//! Why runs fail.
ghost use Rattle.std.specs.Prelude.{◌≡◌};
ghost use Rattle.unit_script.specs.Runs.{run_fault_of};

use crate::reason::{Reason, ScriptFault};
use link_tree::InventoryFault;
use thiserror::Error;

/// The first fault of an input, which is an inventory followed by a script.
#[derive(Clone, Copy, Debug, PartialEq, Eq, Error)]
pub enum InputFault {
    /// A fault in the inventory, with the number of the entry.
    #[error("inventory entry {1}: {0}")]
    Inventory(InventoryFault, u32),
    /// A fault in the script.
    #[error("{0}")]
    Script(ScriptFault),
    /// The script has over 1,000,000 calls.
    #[error("history is full")]
    Full,
}

/// Why an input can't be run: its fault, or that it wasn't read completely.
#[derive(Clone, Copy, Debug, PartialEq, Eq, Error)]
pub enum InputError {
    /// The first fault of the input.
    #[error("{0}")]
    Fault(InputFault),
    /// The source failed in the inventory, at the entry of this number.
    #[error("inventory entry {0}: read fault")]
    InventoryRead(u32),
    /// The source failed in the script.
    #[error("read fault")]
    ReadFault,
    #[error("out of memory")]
    OutOfMemory,
}

/// Why a run failed. Its text is the program's message; an inventory's entries count from 1, the
/// header is 0, and the line `end` counts as the next entry.
#[derive(Clone, Copy, Debug, PartialEq, Eq, Error)]
pub enum RunFault {
    /// The inventory is refused at the entry of this number.
    #[error("inventory entry {1}: {0}")]
    Inventory(InventoryFault, u32),
    /// The source failed in the inventory, at the entry of this number.
    #[error("inventory entry {0}: read fault")]
    InventoryRead(u32),
    /// The line after the inventory isn't `== calls`.
    #[error("no calls line")]
    NoCalls,
    /// The first bad line of the script, from 1 after `== calls`.
    #[error("line {0}: {1}")]
    BadCall(u32, Reason),
    /// The source failed in the script.
    #[error("read fault")]
    ReadFault,
    /// The script has over 1,000,000 calls.
    #[error("history is full")]
    Full,
    /// The sink failed after accepting exactly this number of bytes of the output.
    #[error("write fault after {0} bytes")]
    WriteFault(usize),
    /// Memory ran out before the first byte was written.
    #[error("out of memory")]
    OutOfMemory,
}

impl InputError {
    /// The error of a run on such an input.
    pub fn run_fault(self) -> RunFault
        ensures { result ≡ run_fault_of self }
    {
        match self {
            InputError::Fault(fault) => match fault {
                InputFault::Inventory(fault, n) => RunFault::Inventory(fault, n),
                InputFault::Script(ScriptFault::NoCalls) => RunFault::NoCalls,
                InputFault::Script(ScriptFault::Bad(line, reason)) => {
                    RunFault::BadCall(line, reason)
                }
                InputFault::Full => RunFault::Full,
            },
            InputError::InventoryRead(n) => RunFault::InventoryRead(n),
            InputError::ReadFault => RunFault::ReadFault,
            InputError::OutOfMemory => RunFault::OutOfMemory,
        }
    }
}
