ghost use Rattle.std.specs.Prelude.{◌≡◌};
ghost use Rattle.pdb_log.specs.declared.fault.LogFault.TheVariants as log;

use pdb_disk::DiskFault;
use sdb_base::Counter;
use std::alloc::AllocError;
use thiserror::Error;

/// Why a record wasn't appended.
#[derive(Clone, Copy, Debug, PartialEq, Eq, Error)]
pub enum LogFault {
    /// There wasn't memory enough.
    #[error("out of memory")]
    OutOfMemory,
    /// The last number stands at 2^64 - 1, or the log file would pass 2^62 bytes.
    #[error("a counter of the log has come to its end")]
    NumbersEnd {
        /// `Records` or `LogBytes`.
        which: Counter,
    },
    /// The disk failed.
    #[error("the disk failed")]
    Disk(DiskFault),
}

impl From<AllocError> for LogFault {
    ghost from_gives = { λ _ e. e ≡ log.OutOfMemory };

    fn from(_e: AllocError) -> LogFault {
        LogFault::OutOfMemory
    }
}
