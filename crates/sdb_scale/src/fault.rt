ghost use Rattle.std.specs.Prelude.{◌≡◌};
ghost use Rattle.sdb_scale.specs.declared.fault.ScaleFault.TheVariants.{OutOfMemory};

use std::alloc::{AllocError, AllocFailed};
use thiserror::Error;

/// Why a number or a byte string was not read or written.
#[derive(Debug, Clone, Copy, PartialEq, Eq, Error)]
pub enum ScaleFault {
    /// The bytes end too early.
    #[error("the bytes end too early")]
    Short,
    /// The number is in a longer mode than it needs.
    #[error("a number in a longer mode than it needs")]
    NotShortest,
    /// The number, or the string's length, is 2^30 or more.
    #[error("a number of 2^30 or more")]
    TooLarge,
    /// There is no memory. Only the writers answer it.
    #[error("out of memory")]
    OutOfMemory,
}

impl From<AllocError> for ScaleFault {
    ghost from_gives = { λ _ e. e ≡ OutOfMemory };

    fn from(_e: AllocError) -> ScaleFault {
        ScaleFault::OutOfMemory
    }
}

impl<T: Drop> From<AllocFailed<T>> for ScaleFault {
    ghost from_gives = { λ _ e. e ≡ OutOfMemory };

    fn from(_e: AllocFailed<T>) -> ScaleFault {
        ScaleFault::OutOfMemory
    }
}
