ghost use Rattle.std.specs.Prelude.{◌≡◌, ◌∷◌, [], IsTrue, None};
ghost use Rattle.pdb_log.specs.Recovered.{IsRecovered};
ghost use Rattle.pdb_model.specs.Files.{head_cell};
ghost use Rattle.pdb_model.specs.Recovery.{Row};

use crate::backlog::Backlog;
use crate::heads::Heads;
use crate::redo_log::{Mark, Redo};
use pdb_disk::Disk;
use pdb_log::Log;
use pdb_record::GateSlot;
use std::alloc::Global;

impl<D: Disk> Redo<D> {
    ghost use Rattle.pdb_redo.specs.Reaches.{reach_at, reach_of};
    ghost use Rattle.pdb_redo.specs.Standing.{IsStanding};
    ghost use Rattle.pdb_redo.specs.Tallies.{IsRedoTally};

    /// A session over a disk whose gate is in force and whose log files are empty.
    pub(crate) fn over(alloc: Global, disk: D, gate: GateSlot, heads: Heads) -> Redo<D>
        ensures stands { (row : Row) → IsTrue (D.tells disk) → IsRecovered (D.past disk (D.clock disk)) gate row
            → heads.first ≡ head_cell row.cells 0 → heads.second ≡ head_cell row.cells 1
            → IsStanding D.tells D.clock D.past result (row ∷ []) 0 }
        ensures disk { result.log.disk ≡ disk }
        ensures reach { reach_of result ≡ reach_at gate.commits }
        ensures tally { IsRedoTally result (record { records = gate.number; gates = gate.sequence; bytes = 0 }) }
        ensures running { result.stopped ≡ None }
    {
        let reads = disk.reads();
        let mark = Mark {
            number: gate.number,
            commits: gate.commits,
        };
        Redo {
            log: Log::begin(disk, gate),
            backlog: Backlog::new(alloc),
            heads,
            appended: mark,
            flushed: mark,
            enacted: mark,
            written: [false; 66],
            reads,
            stopped: None,
        }
    }
}
