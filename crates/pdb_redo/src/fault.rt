ghost use Rattle.std.specs.Prelude.{◌≡◌};
ghost use Rattle.pdb_redo.specs.declared.fault.CreateCause.TheVariants as create;
ghost use Rattle.pdb_redo.specs.declared.fault.RedoFault.TheVariants as redo;

use pdb_disk::{Disk, DiskFault};
use sdb_base::Counter;
use std::alloc::AllocError;
use thiserror::Error;

/// Why a call of a `Redo` wasn't carried out.
#[derive(Clone, Copy, Debug, PartialEq, Eq, Error)]
pub enum RedoFault {
    /// There wasn't memory enough.
    #[error("out of memory")]
    OutOfMemory,
    /// An earlier write, cut or sync failed.
    #[error("stopped: call {call} of the disk failed")]
    Stopped {
        /// That call's number, which is the disk's clock right after it.
        call: u64,
    },
    /// The last record's number or the gate's sequence stands at 2^64 - 1, or the log file would pass 2^62 bytes.
    #[error("a counter of the log has come to its end")]
    NumbersEnd {
        /// `Records`, `Gates` or `LogBytes`.
        which: Counter,
    },
    /// The disk failed.
    #[error("the disk failed")]
    Disk(DiskFault),
}

impl From<AllocError> for RedoFault {
    ghost from_gives = { λ _ e. e ≡ redo.OutOfMemory };

    fn from(_e: AllocError) -> RedoFault {
        RedoFault::OutOfMemory
    }
}

/// Why a database wasn't made.
#[derive(Clone, Copy, Debug, PartialEq, Eq, Error)]
pub enum CreateCause {
    /// There wasn't memory enough.
    #[error("out of memory")]
    OutOfMemory,
    /// A gate slot is whole: there is a database.
    #[error("there is a database")]
    Occupied,
    /// The disk failed.
    #[error("the disk failed")]
    Disk(DiskFault),
}

impl From<AllocError> for CreateCause {
    ghost from_gives = { λ _ e. e ≡ create.OutOfMemory };

    fn from(_e: AllocError) -> CreateCause {
        CreateCause::OutOfMemory
    }
}

impl From<DiskFault> for CreateCause {
    ghost from_gives = { λ fault e. e ≡ create.Disk fault };

    fn from(fault: DiskFault) -> CreateCause {
        CreateCause::Disk(fault)
    }
}

/// Why a database wasn't made, and its disk.
#[derive(Drop)]
pub struct CreateFault<D: Disk> {
    /// The disk.
    pub disk: D,
    /// The cause.
    pub fault: CreateCause,
}
