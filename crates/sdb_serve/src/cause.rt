ghost use Rattle.std.specs.Prelude.{◌≡◌};
ghost use Rattle.sdb_serve.specs.inner.Steps.{cause_of_creating, cause_of_job, cause_of_keeper};

use crate::nodes::NodeFault;
use pdb_redo::CreateCause;
use sdb_base::{Counter, KeepFault, NodeHash};
use sdb_io::SinkFault;
use std::alloc::{AllocError, AllocFailed};

/// Why a run stops while its sink takes all that is written.
#[derive(Clone, Copy, Debug, PartialEq, Eq)]
pub enum Cause {
    /// All lines were answered, and the source was read to its end.
    End,
    /// The next line isn't answered, or the source ends within it.
    BadLine,
    /// The source failed.
    Source,
    /// There was no memory.
    Memory,
    /// The disk failed.
    Disk,
    /// `new` on a disk that has a database.
    Occupied,
    /// This cell breaks the rules of its file.
    BadCell {
        /// The file.
        file: u16,
        /// The cell.
        cell: u64,
    },
    /// What is kept under this hash is no node that hangs where it is wanted, or nothing is.
    BadNode {
        /// The hash.
        hash: NodeHash,
    },
    /// The commit to be logged puts a key into this chunk of a column's index, which has no room.
    IndexFull {
        /// The column.
        column: u8,
        /// The bits of the index.
        bits: u8,
        /// The chunk.
        chunk: u64,
    },
    /// The commit to be logged needs a slot of this tier of a column, which has none left.
    TierFull {
        /// The column.
        column: u8,
        /// The tier.
        tier: u8,
    },
    /// This counter stands at its end.
    NumbersEnd {
        /// The counter.
        which: Counter,
    },
}

/// Why no further line is answered: a cause, or the sink failed at a reply.
#[derive(Clone, Copy, Debug, PartialEq, Eq)]
pub(crate) enum Stop {
    Cause(Cause),
    SinkFault,
}

/// Why a fault of the database stops a run.
pub(crate) fn of_keeper(fault: KeepFault) -> Cause
    ensures { result ≡ cause_of_keeper fault }
{
    match fault {
        KeepFault::OutOfMemory => Cause::Memory,
        KeepFault::Disk => Cause::Disk,
        // only a database that was stopped before says so, and a run goes no further than a stop
        KeepFault::Stopped { call: _ } => Cause::Disk,
        // no node is as long
        KeepFault::ValueTooLong { len: _ } => Cause::BadLine,
        KeepFault::IndexFull {
            column,
            bits,
            chunk,
        } => Cause::IndexFull {
            column,
            bits,
            chunk,
        },
        KeepFault::TierFull { column, tier } => Cause::TierFull { column, tier },
        KeepFault::Damaged { file, cell } => Cause::BadCell { file, cell },
        KeepFault::NumbersEnd { which } => Cause::NumbersEnd { which },
    }
}

/// Why a fault of a job stops a run.
pub(crate) fn of_job(fault: NodeFault) -> Cause
    ensures { result ≡ cause_of_job fault }
{
    match fault {
        NodeFault::OutOfMemory => Cause::Memory,
        NodeFault::BadNode { hash } => Cause::BadNode { hash },
        NodeFault::Keep(fault) => of_keeper(fault),
    }
}

/// Why a database that isn't made stops a run.
pub(crate) fn of_creating(fault: CreateCause) -> Cause
    ensures { result ≡ cause_of_creating fault }
{
    match fault {
        CreateCause::OutOfMemory => Cause::Memory,
        CreateCause::Occupied => Cause::Occupied,
        CreateCause::Disk(_) => Cause::Disk,
    }
}

impl From<AllocError> for Cause {
    ghost use Rattle.sdb_serve.specs.declared.cause.Cause.{Cause};

    ghost from_gives = { λ _ cause. cause ≡ Cause.Memory };

    fn from(_e: AllocError) -> Cause {
        Cause::Memory
    }
}

impl<T: Drop> From<AllocFailed<T>> for Cause {
    ghost use Rattle.sdb_serve.specs.declared.cause.Cause.{Cause};

    ghost from_gives = { λ _ cause. cause ≡ Cause.Memory };

    fn from(_e: AllocFailed<T>) -> Cause {
        Cause::Memory
    }
}

impl From<Cause> for Stop {
    ghost use Rattle.sdb_serve.specs.declared.cause.Stop.{Stop};

    ghost from_gives = { λ cause stop. stop ≡ Stop.Cause cause };

    fn from(cause: Cause) -> Stop {
        Stop::Cause(cause)
    }
}

impl From<SinkFault> for Stop {
    ghost use Rattle.sdb_serve.specs.declared.cause.Stop.{Stop};

    ghost from_gives = { λ _ stop. stop ≡ Stop.SinkFault };

    fn from(_fault: SinkFault) -> Stop {
        Stop::SinkFault
    }
}
