ghost use Rattle.std.specs.Prelude.{◌≡◌};
ghost use Rattle.pdb_pipe.specs.inner.Faults.{look_up_as, plan_as, redo_as};

use pdb_column::{ColumnFault, PlanFault};
use pdb_redo::RedoFault;
use sdb_base::KeepFault;

/// A look-up's fault as a keeper's.
pub(crate) fn of_look_up(fault: ColumnFault) -> KeepFault
    ensures { result ≡ look_up_as fault }
{
    match fault {
        ColumnFault::OutOfMemory => KeepFault::OutOfMemory,
        ColumnFault::Disk => KeepFault::Disk,
        ColumnFault::Damaged { file, cell } => KeepFault::Damaged { file, cell },
    }
}

/// A plan's fault as a keeper's: the index that has no room is the largest.
pub(crate) fn of_plan(fault: PlanFault) -> KeepFault
    ensures { result ≡ plan_as fault }
{
    match fault {
        PlanFault::OutOfMemory => KeepFault::OutOfMemory,
        PlanFault::Disk => KeepFault::Disk,
        PlanFault::Damaged { file, cell } => KeepFault::Damaged { file, cell },
        PlanFault::ChunkFull {
            column,
            bits,
            chunk,
        } => KeepFault::IndexFull {
            column,
            bits,
            chunk,
        },
        PlanFault::TierFull { column, tier } => KeepFault::TierFull { column, tier },
    }
}

/// A redo's fault as a keeper's.
pub(crate) fn of_redo(fault: RedoFault) -> KeepFault
    ensures { result ≡ redo_as fault }
{
    match fault {
        RedoFault::OutOfMemory => KeepFault::OutOfMemory,
        RedoFault::Disk(_) => KeepFault::Disk,
        RedoFault::Stopped { call } => KeepFault::Stopped { call },
        RedoFault::NumbersEnd { which } => KeepFault::NumbersEnd { which },
    }
}
