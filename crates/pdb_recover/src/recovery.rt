ghost use Rattle.std.specs.Prelude.{◌≡◌, ◌↔◌, ℕ, All, List, IfErr, IfOk, IsErrOf, IsTrue, OnOk};
ghost use Rattle.sdb_io.specs.Faults.{CountsFault};
ghost use Rattle.pdb_disk.specs.Files.{reads_of};
ghost use Rattle.pdb_disk.specs.Moments.{Moments};
ghost use Rattle.pdb_model.specs.Recovery.{Laid, Row, Safe, TearClear};
ghost use Rattle.pdb_cells.specs.Puts.{IsWholeCell};
ghost use Rattle.pdb_recover.specs.Answers.{EndsGates, GatesEnd, IsOfPassing, OpenSays, disk_left, gate_left, open_disk_fails, recover_disk_fails};
ghost use Rattle.pdb_recover.specs.Heads.{AreSteadyHeads};
ghost use Rattle.pdb_recover.specs.Recovering.{AreSettled, IsReady, IsRecovered, Recovers};
ghost use Rattle.pdb_recover.specs.Scanning.{IsPending};

use crate::cause::{OpenCause, OpenFault};
use crate::clear::clear_files;
use crate::gates::write_gate;
use crate::heads::check_heads;
use crate::lay::{sync_written, write_cells};
use crate::pending_puts::Pending;
use crate::reading::pending;
use crate::settle::sync_files;
use pdb_disk::Disk;
use pdb_record::GateSlot;
use sdb_base::Counter;
use std::alloc::Global;

/// A disk that was recovered.
#[derive(Drop)]
pub struct Recovered<D: Disk> {
    /// The disk: its log files are empty, and its cells hold all that the gate has passed.
    pub disk: D,
    /// The number of the last record that the gate has passed.
    pub number: u64,
    /// The number of commits up to and with that record.
    pub commits: u64,
    /// The gate's sequence.
    pub sequence: u64,
}

/// Writes what is pending to its cells, and the gate that passes it. It gives that gate, or the one in force where no
/// record was taken. `NumbersEnd` comes before any cell is written.
fn pass<D: Disk>(disk: &mut D, found: &Pending) -> Result<GateSlot, OpenCause>
    requires whole { All IsWholeCell found.now.puts }
    ensures any_moment { (row : Row) → IsTrue (D.tells disk.old) → AreSettled (D.past disk.old (D.clock disk.old))
        → IsPending (reads_of (D.past disk.old (D.clock disk.old))) found.now → Laid (reads_of (D.past disk.old (D.clock disk.old))) row
        → Moments (D.clock disk.old) (D.clock disk.new) (D.past disk.old) (D.past disk.new) (λ fs. Recovers fs row) }
    ensures ready { (row : Row) → IsTrue (D.tells disk.old) → AreSettled (D.past disk.old (D.clock disk.old))
        → IsPending (reads_of (D.past disk.old (D.clock disk.old))) found.now → Laid (reads_of (D.past disk.old (D.clock disk.old))) row
        → IfOk result (λ g. IsReady (D.past disk.new (D.clock disk.new)) g row) }
    ensures ends { IsErrOf result (OpenCause.NumbersEnd Counter.Gates) ↔ EndsGates found.now }
    ensures causes { IfErr result IsOfPassing }
    ensures told { IsTrue (D.tells disk.old) → IsTrue (D.tells disk.new) }
    ensures counted { CountsFault (open_disk_fails result) (D.fault_count disk.old) (D.fault_count disk.new) }
{
    if found.number <= found.gate.number {
        return Ok(found.gate);
    }
    if found.gate.sequence == u64::MAX {
        return Err(OpenCause::NumbersEnd {
            which: Counter::Gates,
        });
    }
    let gate = GateSlot {
        sequence: found.gate.sequence + 1,
        number: found.number,
        commits: found.commits,
    };
    write_cells(disk, found.puts.as_slice())?;
    sync_written(disk, found.puts.as_slice())?;
    write_gate(disk, gate)?;
    Ok(gate)
}

/// Recovers a disk that is lent. It gives the gate that is then in force.
fn recover_files<D: Disk>(alloc: Global, disk: &mut D) -> Result<GateSlot, OpenCause>
    ensures any_moment { (rows : List Row) (f : ℕ) → IsTrue (D.tells disk.old)
        → TearClear (D.past disk.old (D.clock disk.old)) (reads_of (D.past disk.old (D.clock disk.old)))
        → Safe rows f (D.past disk.old (D.clock disk.old))
        → Moments (D.clock disk.old) (D.clock disk.new) (D.past disk.old) (D.past disk.new) (Safe rows f) }
    ensures recovered { (row : Row) → IsTrue (D.tells disk.old) → Laid (reads_of (D.past disk.old (D.clock disk.old))) row
        → IfOk result (λ g. IsRecovered (D.past disk.new (D.clock disk.new)) g row × AreSteadyHeads row.cells 2) }
    ensures laid { IsTrue (D.tells disk.old) → IfOk result (λ g. (row : Row) × Laid (reads_of (D.past disk.old (D.clock disk.old))) row) }
    ensures no_end { IsTrue (D.tells disk.old) → OnOk result (¬ GatesEnd (reads_of (D.past disk.old (D.clock disk.old)))) }
    ensures causes { IsTrue (D.tells disk.old) → IfErr result (OpenSays (reads_of (D.past disk.old (D.clock disk.old)))) }
    ensures told { IsTrue (D.tells disk.old) → IsTrue (D.tells disk.new) }
    ensures counted { CountsFault (open_disk_fails result) (D.fault_count disk.old) (D.fault_count disk.new) }
{
    sync_files(disk)?;
    let found = pending(alloc, disk)?;
    let gate = pass(disk, &found)?;
    clear_files(disk)?;
    check_heads(disk)?;
    Ok(gate)
}

/// Recovers a disk as a crash left it: its cells then hold what `Laid` gives, the gate has passed every record, and the log
/// files are empty. After a refusal the disk may be recovered again. `NoDatabase` comes where neither gate slot is whole,
/// `NumbersEnd` where a record is to be passed and the gate's sequence is 2^64 - 1, `Damaged` where a head cell isn't
/// steady, in this order; none of them comes elsewhere.
pub fn recover<D: Disk>(alloc: Global, disk: D) -> Result<Recovered<D>, OpenFault<D>>
    ensures any_moment { (rows : List Row) (f : ℕ) → IsTrue (D.tells disk)
        → TearClear (D.past disk (D.clock disk)) (reads_of (D.past disk (D.clock disk)))
        → Safe rows f (D.past disk (D.clock disk))
        → Moments (D.clock disk) (D.clock (disk_left result)) (D.past disk) (D.past (disk_left result)) (Safe rows f) }
    ensures recovered { (row : Row) → IsTrue (D.tells disk) → Laid (reads_of (D.past disk (D.clock disk))) row
        → IfOk result (λ r. IsRecovered (D.past r.disk (D.clock r.disk)) (gate_left r) row × AreSteadyHeads row.cells 2) }
    ensures laid { IsTrue (D.tells disk) → OnOk result ((row : Row) × Laid (reads_of (D.past disk (D.clock disk))) row) }
    ensures no_end { IsTrue (D.tells disk) → OnOk result (¬ GatesEnd (reads_of (D.past disk (D.clock disk)))) }
    ensures causes { IsTrue (D.tells disk) → IfErr result (λ e. OpenSays (reads_of (D.past disk (D.clock disk))) e.fault) }
    ensures told { IsTrue (D.tells disk) → IsTrue (D.tells (disk_left result)) }
    ensures counted { CountsFault (recover_disk_fails result) (D.fault_count disk) (D.fault_count (disk_left result)) }
{
    let mut disk = disk;
    match recover_files(alloc, &mut disk) {
        Ok(gate) => Ok(Recovered {
            disk,
            number: gate.number,
            commits: gate.commits,
            sequence: gate.sequence,
        }),
        Err(fault) => Err(OpenFault { disk, fault }),
    }
}
