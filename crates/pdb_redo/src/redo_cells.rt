use crate::redo_log::Redo;
use pdb_cells::{CellFault, CellName, Cells};
use pdb_disk::Disk;

impl<D: Disk> Cells for Redo<D> {
    ghost use Rattle.std.specs.Prelude.{Some, None, if◌then◌else◌};
    ghost use Rattle.pdb_redo.specs.Standing.{KeepsRedo, cells_under_records};
    ghost use Rattle.pdb_redo.specs.inner.Keeping.{keeps_itself, keeps_on, keeps_seen, keeps_rises};

    ghost seen = { λ redo. if D.tells redo.log.disk then Some (cells_under_records D.clock D.past redo) else None };

    ghost fault_count = { λ redo. D.fault_count redo.log.disk };

    ghost read_count = { λ redo. redo.reads };

    ghost same = { λ a b. KeepsRedo D.tells D.clock D.past D.fault_count a b };

    fn cell(&mut self, name: CellName, into: &mut [u8]) -> Result<(), CellFault> {
        match self.read_cell(name, into) {
            Ok(()) => Ok(()),
            Err(_) => Err(CellFault::Disk),
        }
    }

    fn faults(&self) -> u64 {
        self.log.disk().faults()
    }

    fn reads(&self) -> u64 {
        self.reads
    }

    ghost itself = { λ a. keeps_itself D.tells D.clock D.past D.fault_count a };

    ghost on = { λ a b c p q. keeps_on D.tells D.clock D.past D.fault_count a b c p q };

    ghost stays = { λ a b cells p seen. keeps_seen D.tells D.clock D.past D.fault_count a b cells p seen };

    ghost rises = { λ a b p. keeps_rises D.tells D.clock D.past D.fault_count a b p };
}
