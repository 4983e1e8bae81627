ghost use Rattle.std.specs.Prelude.{◌≡◌};
ghost use Rattle.pdb_column.specs.declared.fault.StepFault.TheVariants as step;
ghost use Rattle.pdb_column.specs.inner.Faults.{as_look_up, as_planned, value_planned};

use pdb_value::ValueFault;
use thiserror::Error;

/// Why a look-up gave no answer.
#[derive(Clone, Copy, Debug, PartialEq, Eq, Error)]
pub enum ColumnFault {
    /// There wasn't memory enough.
    #[error("out of memory")]
    OutOfMemory,
    /// The disk failed.
    #[error("the disk failed")]
    Disk,
    /// A head cell, a chunk or a slot breaks the rules of its format.
    #[error("cell {cell} of file {file} is damaged")]
    Damaged {
        /// The number of the cell's file.
        file: u16,
        /// The cell's index in its file.
        cell: u64,
    },
}

/// Why operations couldn't be planned.
#[derive(Clone, Copy, Debug, PartialEq, Eq, Error)]
pub enum PlanFault {
    /// There wasn't memory enough.
    #[error("out of memory")]
    OutOfMemory,
    /// The disk failed.
    #[error("the disk failed")]
    Disk,
    /// A head cell, a chunk or a slot breaks the rules of its format.
    #[error("cell {cell} of file {file} is damaged")]
    Damaged {
        /// The number of the cell's file.
        file: u16,
        /// The cell's index in its file.
        cell: u64,
    },
    /// An entry is needed in a chunk that has no empty place.
    #[error("chunk {chunk} of column {column} is full")]
    ChunkFull {
        /// The column, 0 or 1.
        column: u8,
        /// The bits of its index.
        bits: u8,
        /// The chunk's number.
        chunk: u64,
    },
    /// A slot is needed of a tier that has no free one and whose end is the last one.
    #[error("tier {tier} of column {column} is full")]
    TierFull {
        /// The column, 0 or 1.
        column: u8,
        /// The tier, 0 to 15.
        tier: u8,
    },
}

/// Why a step of a plan in one column couldn't be done.
#[derive(Clone, Copy)]
pub(crate) enum StepFault {
    /// A call on a value gave no answer.
    Value(ValueFault),
    /// An entry is needed in a chunk that has no empty place.
    ChunkFull {
        /// The bits of the column's index.
        bits: u8,
        /// The chunk's number.
        chunk: u64,
    },
}

impl From<ValueFault> for StepFault {
    ghost from_gives = { λ fault e. e ≡ step.Value fault };

    fn from(fault: ValueFault) -> StepFault {
        StepFault::Value(fault)
    }
}

// a fault of a value's call, in a column
fn value_fault(column: u8, fault: ValueFault) -> PlanFault
    ensures { result ≡ value_planned column fault }
{
    match fault {
        ValueFault::OutOfMemory => PlanFault::OutOfMemory,
        ValueFault::Disk => PlanFault::Disk,
        ValueFault::Damaged { file, cell } => PlanFault::Damaged { file, cell },
        ValueFault::TierFull { tier } => PlanFault::TierFull { column, tier },
    }
}

/// The fault of a step in a column as one of a plan.
pub(crate) fn plan_fault(column: u8, fault: StepFault) -> PlanFault
    ensures { result ≡ as_planned column fault }
{
    match fault {
        StepFault::Value(fault) => value_fault(column, fault),
        StepFault::ChunkFull { bits, chunk } => PlanFault::ChunkFull {
            column,
            bits,
            chunk,
        },
    }
}

impl From<ValueFault> for ColumnFault {
    ghost from_gives = { λ fault e. e ≡ as_look_up fault };

    fn from(fault: ValueFault) -> ColumnFault {
        match fault {
            // a look-up takes no slot, so that no tier is full for it
            ValueFault::OutOfMemory | ValueFault::TierFull { tier: _ } => ColumnFault::OutOfMemory,
            ValueFault::Disk => ColumnFault::Disk,
            ValueFault::Damaged { file, cell } => ColumnFault::Damaged { file, cell },
        }
    }
}
