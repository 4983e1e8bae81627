ghost use Rattle.std.specs.Prelude.{◌≡◌, ◌∷◌, [], ℕ, List, IfErr, IfOk, IsTrue, None, OnOk, is_err};
ghost use Rattle.sdb_io.specs.Faults.{CountsFault};
ghost use Rattle.pdb_disk.specs.Files.{reads_of};
ghost use Rattle.pdb_disk.specs.Moments.{Moments};
ghost use Rattle.pdb_model.specs.Files.{head_cell};
ghost use Rattle.pdb_model.specs.Recovery.{cells_of_files};
ghost use Rattle.pdb_recover.specs.Answers.{GatesEnd, OpenSays};
ghost use Rattle.pdb_redo.specs.Opening.{open_disk_fails_of, opened_disk};

use crate::heads::{HEAD_SIZE, Heads};
use crate::redo_log::Redo;
use pdb_cells::HEAD_FILE;
use pdb_disk::{Disk, DiskFault};
use pdb_record::GateSlot;
use pdb_recover::{OpenCause, OpenFault, recover};
use std::alloc::Global;

/// Both head cells, as they read.
fn read_heads<D: Disk>(disk: &mut D) -> Result<Heads, DiskFault>
    ensures first { IsTrue (D.tells disk.old) → IfOk result (λ h. h.first ≡ head_cell (cells_of_files (reads_of (D.past disk.old (D.clock disk.old)))) 0) }
    ensures second { IsTrue (D.tells disk.old) → IfOk result (λ h. h.second ≡ head_cell (cells_of_files (reads_of (D.past disk.old (D.clock disk.old)))) 1) }
    ensures time { D.clock disk.new ≡ D.clock disk.old }
    ensures unchanged { D.past disk.new ≡ D.past disk.old }
    ensures told { IsTrue (D.tells disk.old) → IsTrue (D.tells disk.new) }
    ensures counted { CountsFault (is_err result) (D.fault_count disk.old) (D.fault_count disk.new) }
{
    let mut heads = Heads {
        first: [0; HEAD_SIZE],
        second: [0; HEAD_SIZE],
    };
    disk.read_at(HEAD_FILE, 0, &mut heads.first)?;
    disk.read_at(HEAD_FILE, HEAD_SIZE as u64, &mut heads.second)?;
    Ok(heads)
}

impl<D: Disk> Redo<D> {
    ghost use Rattle.pdb_model.specs.Recovery.{Laid, Row, Safe, TearClear};
    ghost use Rattle.pdb_redo.specs.Reaches.{reach_at, reach_of};
    ghost use Rattle.pdb_redo.specs.Standing.{IsStanding};

    /// Opens the database on a disk, as a crash left it or not, by recovering it. The causes of a refusal are those of
    /// recovery; after one the disk may be opened again.
    pub fn open(alloc: Global, disk: D) -> Result<Redo<D>, OpenFault<D>>
        ensures any_moment { (rows : List Row) (f : ℕ) → IsTrue (D.tells disk)
            → TearClear (D.past disk (D.clock disk)) (reads_of (D.past disk (D.clock disk)))
            → Safe rows f (D.past disk (D.clock disk))
            → Moments (D.clock disk) (D.clock (opened_disk result)) (D.past disk) (D.past (opened_disk result)) (Safe rows f) }
        ensures opened { (row : Row) → IsTrue (D.tells disk) → Laid (reads_of (D.past disk (D.clock disk))) row
            → IfOk result (λ r. IsStanding D.tells D.clock D.past r (row ∷ []) 0) }
        ensures laid { IsTrue (D.tells disk) → OnOk result ((row : Row) × Laid (reads_of (D.past disk (D.clock disk))) row) }
        ensures no_end { IsTrue (D.tells disk) → OnOk result (¬ GatesEnd (reads_of (D.past disk (D.clock disk)))) }
        ensures causes { IsTrue (D.tells disk) → IfErr result (λ e. OpenSays (reads_of (D.past disk (D.clock disk))) e.fault) }
        ensures reach { IfOk result (λ r. (n : ℕ) × (reach_of r ≡ reach_at n)) }
        ensures running { IfOk result (λ r. r.stopped ≡ None) }
        ensures told { IsTrue (D.tells disk) → IsTrue (D.tells (opened_disk result)) }
        ensures counted { CountsFault (open_disk_fails_of result) (D.fault_count disk) (D.fault_count (opened_disk result)) }
    {
        let recovered = recover(alloc, disk)?;
        let gate = GateSlot {
            sequence: recovered.sequence,
            number: recovered.number,
            commits: recovered.commits,
        };
        let mut disk = recovered.disk;
        match read_heads(&mut disk) {
            Ok(heads) => Ok(Redo::over(alloc, disk, gate, heads)),
            Err(fault) => Err(OpenFault {
                disk,
                fault: OpenCause::Disk(fault),
            }),
        }
    }
}
