ghost use Rattle.std.specs.Prelude.{◌≡◌, ◌+◌, ◌≤◌, ℕ, [], All, IfErr, IfOk, IsTrue, List, OnOk, length, slice_index};
ghost use Rattle.std.proofs.Props.{props};
ghost use Rattle.sdb_io.specs.Faults.{CountsFault};
ghost use Rattle.sdb_base.specs.Keeping.{Commits};
ghost use Rattle.sdb_base.specs.declared.op.Op.{Op};
ghost use Rattle.pdb_column.specs.Answers.{IsStorable};
ghost use Rattle.pdb_disk.specs.Files.{Image, IsImage, reads_of};
ghost use Rattle.pdb_disk.specs.Moments.{Moments};
ghost use Rattle.pdb_model.specs.Recovery.{Row, Safe, TearClear};
ghost use Rattle.pdb_recover.specs.Answers.{GatesEnd, OpenSays};
ghost use Rattle.pdb_redo.specs.Answers.{CreateSays};
ghost use Rattle.pdb_redo.specs.declared.fault.CreateCause.{CreateCause};
ghost use Rattle.pdb_redo.specs.Creating.{HasNoGate, IsNoneOrNew};
ghost use Rattle.pdb_log.specs.Tallies.{no_tally};
ghost use Rattle.pdb_redo.specs.Reaches.{reach_of};
ghost use Rattle.pdb_redo.specs.Tallies.{IsRedoTally};
ghost use Rattle.pdb_pipe.specs.inner.OpenOnce.{never_fall_once, storable_once};
ghost use Rattle.pdb_pipe.specs.inner.Order.{NumbersRise};

use pdb_disk::Disk;
use pdb_overlay::Queue;
use pdb_redo::{CreateFault, OpenFault, Redo};
use std::alloc::Global;

// the place of the base in a head cell
const PLACE_OF_BASE: usize = 1;

/// A database: commits on a disk.
#[derive(Drop)]
pub struct Database<D> {
    pub(crate) alloc: Global,
    // the cells after all records, and how far these have come
    pub(crate) redo: Redo<D>,
    // the commits that aren't logged
    pub(crate) queue: Queue,
    // how many commits were accepted, and how many were enacted at the last clean
    pub(crate) accepted: u64,
    pub(crate) cleaned: u64,
    // the bits that the entries of each column's index leave out at the front
    pub(crate) bases: [u8; 2],
    ghost counted: { accepted ≡ (reach_of redo).logged + length queue },
    ghost in_order: { NumbersRise (reach_of redo) cleaned } by { Prim.hlevel (props, never_fall_once) },
    ghost storable: { All (λ ops. All IsStorable ops) queue } by { Prim.hlevel (props, storable_once) },
}

impl<D: Disk> Database<D> {
    ghost use Rattle.pdb_pipe.specs.Opening.{HoldsCommits, creating_disk_fails, disk_of_creating, disk_of_opening, opening_disk_fails};
    ghost use Rattle.pdb_pipe.specs.Standing.{StandsFor, bases_of, pipeline_at, pipeline_of, same_bases};

    /// Makes a database without keys on a disk; both columns have this base, at most 16. `Occupied` comes exactly where a gate
    /// slot is whole, and then nothing was changed.
    pub fn create(alloc: Global, disk: D, base: u8) -> Result<Database<D>, CreateFault<D>>
        requires { base ≤ 16 }
        ensures created { IsTrue (D.tells disk) → IfOk result (λ db. StandsFor D.tells D.clock D.past db []) }
        ensures pipeline { IfOk result (λ db. pipeline_of db ≡ pipeline_at 0 (bases_of db)) }
        ensures bases { IfOk result (λ db. bases_of db ≡ same_bases base) }
        ensures tally { IfOk result (λ db. IsRedoTally db.redo no_tally) }
        ensures running { IfOk result (λ db. db.redo.stopped ≡ None) }
        ensures untouched { IfErr result (λ e. e.fault ≡ CreateCause.Occupied
            → (D.clock e.disk ≡ D.clock disk) × (D.past e.disk ≡ D.past disk)) }
        ensures any_moment { IsTrue (D.tells disk) → ((x : Image) → IsImage (D.past disk (D.clock disk)) x → HasNoGate x)
            → Moments (D.clock disk) (D.clock (disk_of_creating result)) (D.past disk) (D.past (disk_of_creating result))
            (IsNoneOrNew base) }
        ensures free { IsTrue (D.tells disk) → OnOk result (HasNoGate (reads_of (D.past disk (D.clock disk)))) }
        ensures causes { IsTrue (D.tells disk) → IfErr result (λ e. CreateSays (reads_of (D.past disk (D.clock disk))) e.fault) }
        ensures later { D.clock disk ≤ D.clock (disk_of_creating result) }
        ensures told { IsTrue (D.tells disk) → IsTrue (D.tells (disk_of_creating result)) }
        ensures counted { CountsFault (creating_disk_fails result) (D.fault_count disk) (D.fault_count (disk_of_creating result)) }
    {
        match Redo::create(alloc, disk, base) {
            Ok(redo) => Ok(Database {
                alloc,
                redo,
                queue: Queue::new(alloc),
                accepted: 0,
                cleaned: 0,
                bases: [base, base],
            }),
            Err(fault) => Err(fault),
        }
    }

    /// Opens the database on a disk, as a crash left it or not, by recovering it. The causes of a refusal are those of recovery;
    /// after one the disk may be opened again.
    pub fn open(alloc: Global, disk: D) -> Result<Database<D>, OpenFault<D>>
        ensures opened { (commits : Commits) → IsTrue (D.tells disk) → HoldsCommits (reads_of (D.past disk (D.clock disk))) commits
            → IfOk result (λ db. StandsFor D.tells D.clock D.past db commits) }
        ensures pipeline { IfOk result (λ db. pipeline_of db ≡ pipeline_at db.accepted (bases_of db)) }
        ensures running { IfOk result (λ db. db.redo.stopped ≡ None) }
        ensures any_moment { (rows : List Row) (f : ℕ) → IsTrue (D.tells disk)
            → TearClear (D.past disk (D.clock disk)) (reads_of (D.past disk (D.clock disk)))
            → Safe rows f (D.past disk (D.clock disk))
            → Moments (D.clock disk) (D.clock (disk_of_opening result)) (D.past disk) (D.past (disk_of_opening result)) (Safe rows f) }
        ensures no_end { IsTrue (D.tells disk) → OnOk result (¬ GatesEnd (reads_of (D.past disk (D.clock disk)))) }
        ensures causes { IsTrue (D.tells disk) → IfErr result (λ e. OpenSays (reads_of (D.past disk (D.clock disk))) e.fault) }
        ensures told { IsTrue (D.tells disk) → IsTrue (D.tells (disk_of_opening result)) }
        ensures counted { CountsFault (opening_disk_fails result) (D.fault_count disk) (D.fault_count (disk_of_opening result)) }
    {
        match Redo::open(alloc, disk) {
            Ok(redo) => {
                let found = redo.recorded().appended;
                let bases = [redo.head(0)[PLACE_OF_BASE], redo.head(1)[PLACE_OF_BASE]];
                Ok(Database {
                    alloc,
                    redo,
                    queue: Queue::new(alloc),
                    accepted: found,
                    cleaned: found,
                    bases,
                })
            }
            Err(fault) => Err(fault),
        }
    }

    /// The disk, without the commits in the queue and the records that wait.
    pub fn into_disk(self) -> D
        ensures { result ≡ self.redo.log.disk }
    {
        let Database {
            alloc: _,
            redo,
            queue: _,
            accepted: _,
            cleaned: _,
            bases: _,
        } = self;
        redo.into_disk()
    }

    /// The disk's clock: how many writes, cuts and syncs there were.
    pub fn calls(&self) -> u64
        ensures { result ≡ D.clock self.now.redo.log.disk }
    {
        self.redo.calls()
    }
}
