ghost use Rattle.std.specs.Prelude.{◌≡◌, ◌≤◌, ◌<◌, ◌∷◌, [], ℕ, true, false, IfOk, IsTrue, IfErr, IsErrOf, MatchResult, None, OnOk, OnErr, is_err};
ghost use Rattle.sdb_io.specs.Faults.{CountsFault};
ghost use Rattle.pdb_cells.specs.Sizes.{head_file};
ghost use Rattle.pdb_disk.specs.Files.{Image, IsImage, reads_of};
ghost use Rattle.pdb_disk.specs.Moments.{Moments};
ghost use Rattle.pdb_log.specs.Ledger.{IsEmptyFile};
ghost use Rattle.pdb_log.specs.Recovered.{IsRecovered};
ghost use Rattle.pdb_log.specs.Tallies.{no_tally};
ghost use Rattle.pdb_model.specs.Gates.{gate_place};
ghost use Rattle.pdb_model.specs.Logs.{HasGate, gate_file};
ghost use Rattle.pdb_model.specs.declared.gate_slot.GateSlot.{GateSlot};
ghost use Rattle.pdb_redo.specs.Answers.{CreateSays, create_disk_fails, created_disk, is_create_disk};
ghost use Rattle.pdb_redo.specs.Creating.{HasNoGate, IsNoneOrNew, new_head, new_row};
ghost use Rattle.pdb_redo.specs.inner.Creation.{AreEmpty, AreHeaded, AreUngated, HasNoGateYet, IsEmptied, IsEmptiedIfStored, NeverHasGate, first_gate};

use crate::fault::{CreateCause, CreateFault};
use crate::heads::{HEAD_SIZE, Heads};
use crate::redo_log::{END_OF_FILES, Redo};
use pdb_cells::{HEAD_FILE, size};
use pdb_disk::{Disk, DiskFault};
use pdb_record::{GateSlot, gate_bytes, read_gate};
use std::alloc::Global;

// the second gate slot begins after so many bytes
const BETWEEN_SLOTS: u64 = 4096;

// the gate of a database without commits
const FIRST_GATE: GateSlot = GateSlot {
    sequence: 0,
    number: 0,
    commits: 0,
};

/// The head cell of a column without keys: its index has the bits of its base.
fn new_head(base: u8) -> [u8; 256]
    ensures { result ≡ new_head base }
{
    let mut cell = [0; HEAD_SIZE];
    cell[0] = 1;
    cell[1] = base;
    cell[2] = base;
    cell
}

/// Whether a gate slot, 0 or 1, is whole.
fn has_gate<D: Disk>(disk: &mut D, place: u8) -> Result<bool, DiskFault>
    ensures found { IsTrue (D.tells disk.old) → IfOk result (λ b. b ≡ true → (g : GateSlot) × HasGate (D.past disk.old (D.clock disk.old) gate_file).read g) }
    ensures none { IsTrue (D.tells disk.old) → IfOk result (λ b. b ≡ false → (g : GateSlot) → gate_place g ≡ place → HasGate (D.past disk.old (D.clock disk.old) gate_file).read g → ⊥) }
    ensures time { D.clock disk.new ≡ D.clock disk.old }
    ensures unchanged { D.past disk.new ≡ D.past disk.old }
    ensures told { IsTrue (D.tells disk.old) → IsTrue (D.tells disk.new) }
    ensures counted { CountsFault (is_err result) (D.fault_count disk.old) (D.fault_count disk.new) }
{
    let mut bytes = [0; 64];
    match disk.read_at(0, BETWEEN_SLOTS * u64::from(place), &mut bytes) {
        Ok(()) => Ok(read_gate(&bytes, place).is_some()),
        Err(fault) => Err(fault),
    }
}

/// Whether a gate slot is whole.
fn is_occupied<D: Disk>(disk: &mut D) -> Result<bool, DiskFault>
    ensures found { IsTrue (D.tells disk.old) → IfOk result (λ b. b ≡ true → (g : GateSlot) × HasGate (D.past disk.old (D.clock disk.old) gate_file).read g) }
    ensures none { IsTrue (D.tells disk.old) → IfOk result (λ b. b ≡ false → HasNoGate (reads_of (D.past disk.old (D.clock disk.old)))) }
    ensures time { D.clock disk.new ≡ D.clock disk.old }
    ensures unchanged { D.past disk.new ≡ D.past disk.old }
    ensures told { IsTrue (D.tells disk.old) → IsTrue (D.tells disk.new) }
    ensures counted { CountsFault (is_err result) (D.fault_count disk.old) (D.fault_count disk.new) }
{
    if has_gate(disk, 0)? {
        return Ok(true);
    }
    has_gate(disk, 1)
}

/// Cuts a file and syncs it.
fn empty_file<D: Disk>(disk: &mut D, file: u16) -> Result<(), DiskFault>
    ensures any_moment { IsTrue (D.tells disk.old) → NeverHasGate (D.past disk.old (D.clock disk.old))
        → Moments (D.clock disk.old) (D.clock disk.new) (D.past disk.old) (D.past disk.new) HasNoGateYet }
    ensures emptied { IsTrue (D.tells disk.old) → OnOk result (IsEmptied file (D.past disk.old (D.clock disk.old)) (D.past disk.new (D.clock disk.new))) }
    ensures later { D.clock disk.old ≤ D.clock disk.new }
    ensures told { IsTrue (D.tells disk.old) → IsTrue (D.tells disk.new) }
    ensures counted { CountsFault (is_err result) (D.fault_count disk.old) (D.fault_count disk.new) }
{
    match disk.cut(file) {
        Ok(()) => disk.sync(file),
        Err(fault) => Err(fault),
    }
}

/// Cuts and syncs a file if it is one of the store.
fn empty_store_file<D: Disk>(disk: &mut D, file: u16) -> Result<(), DiskFault>
    ensures any_moment { IsTrue (D.tells disk.old) → NeverHasGate (D.past disk.old (D.clock disk.old))
        → Moments (D.clock disk.old) (D.clock disk.new) (D.past disk.old) (D.past disk.new) HasNoGateYet }
    ensures emptied { IsTrue (D.tells disk.old) → OnOk result (IsEmptiedIfStored file (D.past disk.old (D.clock disk.old)) (D.past disk.new (D.clock disk.new))) }
    ensures later { D.clock disk.old ≤ D.clock disk.new }
    ensures told { IsTrue (D.tells disk.old) → IsTrue (D.tells disk.new) }
    ensures counted { CountsFault (is_err result) (D.fault_count disk.old) (D.fault_count disk.new) }
{
    if file <= 4 || size(file).is_some() {
        empty_file(disk, file)
    } else {
        Ok(())
    }
}

/// Cuts and syncs every file of the store, in the order of their numbers.
fn empty_files<D: Disk>(disk: &mut D) -> Result<(), DiskFault>
    ensures any_moment { IsTrue (D.tells disk.old) → NeverHasGate (D.past disk.old (D.clock disk.old))
        → Moments (D.clock disk.old) (D.clock disk.new) (D.past disk.old) (D.past disk.new) HasNoGateYet }
    ensures emptied { IsTrue (D.tells disk.old) → OnOk result (AreEmpty 66 (D.past disk.new (D.clock disk.new))) }
    ensures later { D.clock disk.old ≤ D.clock disk.new }
    ensures told { IsTrue (D.tells disk.old) → IsTrue (D.tells disk.new) }
    ensures counted { CountsFault (is_err result) (D.fault_count disk.old) (D.fault_count disk.new) }
{
    for file in 0..END_OF_FILES as u16 {
        empty_store_file(disk, file)?;
    }
    Ok(())
}

/// Writes both head cells and syncs them.
fn write_heads<D: Disk>(disk: &mut D, head: &[u8; 256]) -> Result<(), DiskFault>
    ensures any_moment { IsTrue (D.tells disk.old) → HasNoGateYet (D.past disk.old (D.clock disk.old))
        → Moments (D.clock disk.old) (D.clock disk.new) (D.past disk.old) (D.past disk.new) HasNoGateYet }
    ensures headed { IsTrue (D.tells disk.old) → IsEmptyFile (D.past disk.old (D.clock disk.old) head_file)
        → OnOk result (AreHeaded head.now (D.past disk.old (D.clock disk.old)) (D.past disk.new (D.clock disk.new))) }
    ensures later { D.clock disk.old ≤ D.clock disk.new }
    ensures told { IsTrue (D.tells disk.old) → IsTrue (D.tells disk.new) }
    ensures counted { CountsFault (is_err result) (D.fault_count disk.old) (D.fault_count disk.new) }
{
    disk.write_at(HEAD_FILE, 0, head)?;
    disk.write_at(HEAD_FILE, HEAD_SIZE as u64, head)?;
    disk.sync(HEAD_FILE)
}

/// Writes the first gate and syncs it.
fn write_first_gate<D: Disk>(disk: &mut D) -> Result<(), DiskFault>
    ensures any_moment { (base : ℕ) → IsTrue (D.tells disk.old) → AreUngated base (D.past disk.old (D.clock disk.old))
        → Moments (D.clock disk.old) (D.clock disk.new) (D.past disk.old) (D.past disk.new) (IsNoneOrNew base) }
    ensures gated { (base : ℕ) → IsTrue (D.tells disk.old) → AreUngated base (D.past disk.old (D.clock disk.old))
        → OnOk result (IsRecovered (D.past disk.new (D.clock disk.new)) first_gate (new_row base)) }
    ensures later { D.clock disk.old ≤ D.clock disk.new }
    ensures told { IsTrue (D.tells disk.old) → IsTrue (D.tells disk.new) }
    ensures counted { CountsFault (is_err result) (D.fault_count disk.old) (D.fault_count disk.new) }
{
    let bytes = gate_bytes(&FIRST_GATE);
    disk.write_at(0, 0, &bytes)?;
    disk.sync(0)
}

/// Makes the files of a database without keys.
fn create_files<D: Disk>(disk: &mut D, base: u8) -> Result<(), CreateCause>
    ensures any_moment { IsTrue (D.tells disk.old) → NeverHasGate (D.past disk.old (D.clock disk.old))
        → Moments (D.clock disk.old) (D.clock disk.new) (D.past disk.old) (D.past disk.new) (IsNoneOrNew base) }
    ensures created { IsTrue (D.tells disk.old) → OnOk result (IsRecovered (D.past disk.new (D.clock disk.new)) first_gate (new_row base)) }
    ensures free { IsTrue (D.tells disk.old) → OnOk result (HasNoGate (reads_of (D.past disk.old (D.clock disk.old)))) }
    ensures causes { IsTrue (D.tells disk.old) → IfErr result (CreateSays (reads_of (D.past disk.old (D.clock disk.old)))) }
    ensures untouched { IsErrOf result CreateCause.Occupied → (D.clock disk.new ≡ D.clock disk.old) × (D.past disk.new ≡ D.past disk.old) }
    ensures later { D.clock disk.old ≤ D.clock disk.new }
    ensures told { IsTrue (D.tells disk.old) → IsTrue (D.tells disk.new) }
    ensures counted { MatchResult result (λ _. D.fault_count disk.new ≡ D.fault_count disk.old)
        (λ e. CountsFault (is_create_disk e) (D.fault_count disk.old) (D.fault_count disk.new)) }
{
    if is_occupied(disk)? {
        return Err(CreateCause::Occupied);
    }
    empty_files(disk)?;
    write_heads(disk, &new_head(base))?;
    write_first_gate(disk)?;
    Ok(())
}

impl<D: Disk> Redo<D> {
    ghost use Rattle.pdb_redo.specs.Reaches.{reach_at, reach_of};
    ghost use Rattle.pdb_redo.specs.Standing.{IsStanding};
    ghost use Rattle.pdb_redo.specs.Tallies.{IsRedoTally};

    /// Makes a database without keys on a disk; both columns have this base, at most 16. `Occupied` comes exactly where a gate
    /// slot is whole, after a fault of the disk that reads them, and then nothing was changed.
    pub fn create(alloc: Global, disk: D, base: u8) -> Result<Redo<D>, CreateFault<D>>
        requires { base ≤ 16 }
        ensures any_moment { IsTrue (D.tells disk) → ((x : Image) → IsImage (D.past disk (D.clock disk)) x → HasNoGate x)
            → Moments (D.clock disk) (D.clock (created_disk result)) (D.past disk) (D.past (created_disk result)) (IsNoneOrNew base) }
        ensures created { IsTrue (D.tells disk) → IfOk result (λ r. IsStanding D.tells D.clock D.past r (new_row base ∷ []) 0) }
        ensures free { IsTrue (D.tells disk) → OnOk result (HasNoGate (reads_of (D.past disk (D.clock disk)))) }
        ensures causes { IsTrue (D.tells disk) → IfErr result (λ e. CreateSays (reads_of (D.past disk (D.clock disk))) e.fault) }
        ensures untouched { IfErr result (λ e. e.fault ≡ CreateCause.Occupied
            → (D.clock e.disk ≡ D.clock disk) × (D.past e.disk ≡ D.past disk)) }
        ensures reach { IfOk result (λ r. reach_of r ≡ reach_at 0) }
        ensures tally { IfOk result (λ r. IsRedoTally r no_tally) }
        ensures running { IfOk result (λ r. r.stopped ≡ None) }
        ensures later { D.clock disk ≤ D.clock (created_disk result) }
        ensures told { IsTrue (D.tells disk) → IsTrue (D.tells (created_disk result)) }
        ensures counted { CountsFault (create_disk_fails result) (D.fault_count disk) (D.fault_count (created_disk result)) }
    {
        let mut disk = disk;
        let head = new_head(base);
        match create_files(&mut disk, base) {
            Ok(()) => Ok(Redo::over(
                alloc,
                disk,
                FIRST_GATE,
                Heads {
                    first: head,
                    second: head,
                },
            )),
            Err(fault) => Err(CreateFault { disk, fault }),
        }
    }
}
