ghost use Rattle.std.specs.Prelude.{◌≡◌};
ghost use Rattle.pdb_recover.specs.declared.cause.OpenCause.TheVariants as cause;

use pdb_disk::{Disk, DiskFault};
use sdb_base::Counter;
use std::alloc::AllocError;
use thiserror::Error;

/// Why a database wasn't opened.
#[derive(Clone, Copy, Debug, PartialEq, Eq, Error)]
pub enum OpenCause {
    /// There wasn't memory enough.
    #[error("out of memory")]
    OutOfMemory,
    /// The disk failed.
    #[error("the disk failed")]
    Disk(DiskFault),
    /// Neither gate slot is whole.
    #[error("there is no database")]
    NoDatabase,
    /// A record is to be passed by a gate, and the last gate's sequence is 2^64 - 1.
    #[error("a counter of the log has come to its end")]
    NumbersEnd {
        /// `Gates`.
        which: Counter,
    },
    /// A head cell breaks the rules, or its column's index grows or has other bits than its base.
    #[error("cell {cell} of file {file} is damaged")]
    Damaged {
        /// The file of the head cells, 9.
        file: u16,
        /// The column, 0 or 1.
        cell: u64,
    },
}

impl From<AllocError> for OpenCause {
    ghost from_gives = { λ _ e. e ≡ cause.OutOfMemory };

    fn from(_e: AllocError) -> OpenCause {
        OpenCause::OutOfMemory
    }
}

impl From<DiskFault> for OpenCause {
    ghost from_gives = { λ fault e. e ≡ cause.Disk fault };

    fn from(fault: DiskFault) -> OpenCause {
        OpenCause::Disk(fault)
    }
}

/// Why a database wasn't opened, and its disk, which may be opened again.
#[derive(Drop)]
pub struct OpenFault<D: Disk> {
    /// The disk.
    pub disk: D,
    /// The cause.
    pub fault: OpenCause,
}
