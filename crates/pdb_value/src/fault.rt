ghost use Rattle.std.specs.Prelude.{◌≡◌};
ghost use Rattle.pdb_value.specs.declared.fault.ValueFault.TheVariants.{Disk, OutOfMemory};

use pdb_cells::{CellFault, OutOfMemory as NoMemory};
use std::alloc::AllocFailed;
use thiserror::Error;

/// Why a call on values gave no answer.
#[derive(Clone, Copy, Debug, PartialEq, Eq, Error)]
pub enum ValueFault {
    /// There wasn't memory enough.
    #[error("out of memory")]
    OutOfMemory,
    /// The disk failed.
    #[error("the disk failed")]
    Disk,
    /// A head cell or a slot breaks the rules of its format.
    #[error("cell {cell} of file {file} is damaged")]
    Damaged {
        /// The number of the cell's file.
        file: u16,
        /// The cell's index in its file.
        cell: u64,
    },
    /// A slot is needed of a tier that has no free one and whose end is the last one.
    #[error("tier {tier} is full")]
    TierFull {
        /// The tier, 0 to 15.
        tier: u8,
    },
}

impl From<CellFault> for ValueFault {
    ghost from_gives = { λ _ e. e ≡ Disk };

    fn from(_fault: CellFault) -> ValueFault {
        ValueFault::Disk
    }
}

impl From<NoMemory> for ValueFault {
    ghost from_gives = { λ _ e. e ≡ OutOfMemory };

    fn from(_fault: NoMemory) -> ValueFault {
        ValueFault::OutOfMemory
    }
}

impl<T: Drop> From<AllocFailed<T>> for ValueFault {
    ghost from_gives = { λ _ e. e ≡ OutOfMemory };

    fn from(_fault: AllocFailed<T>) -> ValueFault {
        ValueFault::OutOfMemory
    }
}
