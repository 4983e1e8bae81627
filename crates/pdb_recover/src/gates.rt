ghost use Rattle.std.specs.Prelude.{◌≡◌, ◌%◌, ◌≤◌, ◌+◌, ◌^◌, ℕ, List, IfOk, IsTrue, MatchOption, OnOk, is_err};
ghost use Rattle.sdb_io.specs.Faults.{CountsFault};
ghost use Rattle.pdb_disk.specs.Files.{reads_of};
ghost use Rattle.pdb_disk.specs.Moments.{Moments};
ghost use Rattle.pdb_model.specs.Logs.{HasGate, IsGate, gate_file};
ghost use Rattle.pdb_model.specs.Records.{Record};
ghost use Rattle.pdb_model.specs.Recovery.{Row};
ghost use Rattle.pdb_model.specs.declared.gate_slot.GateSlot.{GateSlot};
ghost use Rattle.pdb_recover.specs.Recovering.{IsBeforeGate, IsReady, Recovers};
ghost use Rattle.pdb_recover.specs.Scanning.{OnlyReads};

use pdb_disk::{Disk, DiskFault};
use pdb_record::{GateSlot, gate_bytes, read_gate};

// the second gate slot begins after so many bytes
const BETWEEN_SLOTS: u64 = 4096;

/// The gate of a slot, 0 or 1. None exactly where it isn't whole.
fn read_slot<D: Disk>(disk: &mut D, place: u8) -> Result<Option<GateSlot>, DiskFault>
    requires { place ≤ 1 }
    ensures only_reads { OnlyReads D.tells D.clock D.past D.read_count disk.old disk.new }
    ensures slot { IsTrue (D.tells disk.old) → IfOk result (λ o. MatchOption o
        ((g : GateSlot) → HasGate (D.past disk.old (D.clock disk.old) gate_file).read g → g.sequence % 2 ≡ place → ⊥)
        (λ g. HasGate (D.past disk.old (D.clock disk.old) gate_file).read g × (g.sequence % 2 ≡ place))) }
    ensures counted { CountsFault (is_err result) (D.fault_count disk.old) (D.fault_count disk.new) }
{
    let mut bytes = [0; 64];
    match disk.read_at(0, BETWEEN_SLOTS * u64::from(place), &mut bytes) {
        Ok(()) => Ok(read_gate(&bytes, place)),
        Err(fault) => Err(fault),
    }
}

/// The gate in force: of the slots that are whole the one with the higher sequence. None exactly where none is whole.
pub(crate) fn read_gate_in_force<D: Disk>(disk: &mut D) -> Result<Option<GateSlot>, DiskFault>
    ensures only_reads { OnlyReads D.tells D.clock D.past D.read_count disk.old disk.new }
    ensures gate { IsTrue (D.tells disk.old) → IfOk result (λ o. MatchOption o
        ((g : GateSlot) → HasGate (D.past disk.old (D.clock disk.old) gate_file).read g → ⊥)
        (IsGate (D.past disk.old (D.clock disk.old) gate_file).read)) }
    ensures counted { CountsFault (is_err result) (D.fault_count disk.old) (D.fault_count disk.new) }
{
    let even = read_slot(disk, 0)?;
    let odd = read_slot(disk, 1)?;
    match (even, odd) {
        (Some(even), Some(odd)) => {
            if odd.sequence > even.sequence {
                Ok(Some(odd))
            } else {
                Ok(Some(even))
            }
        }
        (None, odd) => Ok(odd),
        (Some(even), None) => Ok(Some(even)),
    }
}

/// Writes a gate to its slot and syncs it. The gate in force lies in the other slot.
pub(crate) fn write_gate<D: Disk>(disk: &mut D, g: GateSlot) -> Result<(), DiskFault>
    ensures any_moment { (row : Row) (gate : GateSlot) (taken : List Record) → IsTrue (D.tells disk.old)
        → IsBeforeGate (D.past disk.old (D.clock disk.old)) row gate taken g
        → Moments (D.clock disk.old) (D.clock disk.new) (D.past disk.old) (D.past disk.new) (λ fs. Recovers fs row) }
    ensures ready { (row : Row) (gate : GateSlot) (taken : List Record) → IsTrue (D.tells disk.old)
        → IsBeforeGate (D.past disk.old (D.clock disk.old)) row gate taken g
        → OnOk result (IsReady (D.past disk.new (D.clock disk.new)) g row) }
    ensures told { IsTrue (D.tells disk.old) → IsTrue (D.tells disk.new) }
    ensures counted { CountsFault (is_err result) (D.fault_count disk.old) (D.fault_count disk.new) }
{
    let bytes = gate_bytes(&g);
    match disk.write_at(0, BETWEEN_SLOTS * (g.sequence % 2), &bytes) {
        Ok(()) => match disk.sync(0) {
            Ok(()) => Ok(()),
            Err(fault) => Err(fault),
        },
        Err(fault) => Err(fault),
    }
}
