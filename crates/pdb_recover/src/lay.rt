ghost use Rattle.std.specs.Prelude.{◌≡◌, [], ◌∷◌, List, All, Any, IsTrue, OnOk, MatchBool, is_err};
ghost use Rattle.sdb_io.specs.Faults.{CountsFault};
ghost use Rattle.pdb_cells.specs.Puts.{IsWholeCell};
ghost use Rattle.pdb_cells.specs.declared.Put.{Put};
ghost use Rattle.pdb_disk.specs.Files.{Files, reads_of};
ghost use Rattle.pdb_disk.specs.Moments.{Moments};
ghost use Rattle.pdb_model.specs.Records.{Record};
ghost use Rattle.pdb_model.specs.Recovery.{Row};
ghost use Rattle.pdb_model.specs.declared.gate_slot.GateSlot.{GateSlot};
ghost use Rattle.pdb_recover.specs.Recovering.{AreSettled, AreCellsWritten, LaysSame, IsLaying, Recovers};

use crate::settle::END_OF_FILES;
use pdb_cells::Put;
use pdb_disk::{Disk, DiskFault};

/// Writes a cell that is put.
fn write_cell<D: Disk>(disk: &mut D, put: &Put) -> Result<(), DiskFault>
    requires whole { IsWholeCell put.now }
    ensures any_moment { (row : Row) (gate : GateSlot) (taken : List Record) (puts : List Put) → IsTrue (D.tells disk.old)
        → LaysSame puts taken → Any (λ p. p ≡ put.now) puts → IsLaying (D.past disk.old (D.clock disk.old)) row gate taken
        → Moments (D.clock disk.old) (D.clock disk.new) (D.past disk.old) (D.past disk.new) (λ fs. IsLaying fs row gate taken) }
    ensures written { IsTrue (D.tells disk.old) → OnOk result (AreCellsWritten (put.now ∷ []) (D.past disk.old (D.clock disk.old)) (D.past disk.new (D.clock disk.new))) }
    ensures told { IsTrue (D.tells disk.old) → IsTrue (D.tells disk.new) }
    ensures counted { CountsFault (is_err result) (D.fault_count disk.old) (D.fault_count disk.new) }
{
    let at = put.name.index * put.bytes.len() as u64;
    match disk.write_at(put.name.file, at, put.bytes.as_slice()) {
        Ok(()) => Ok(()),
        Err(fault) => Err(fault),
    }
}

/// Writes the cells that are put, in their order.
pub(crate) fn write_cells<D: Disk>(disk: &mut D, puts: &[Put]) -> Result<(), DiskFault>
    requires whole { All IsWholeCell puts.now }
    ensures any_moment { (row : Row) (gate : GateSlot) (taken : List Record) → IsTrue (D.tells disk.old) → LaysSame puts.now taken
        → IsLaying (D.past disk.old (D.clock disk.old)) row gate taken
        → Moments (D.clock disk.old) (D.clock disk.new) (D.past disk.old) (D.past disk.new) (λ fs. IsLaying fs row gate taken) }
    ensures written { IsTrue (D.tells disk.old) → OnOk result (AreCellsWritten puts.now (D.past disk.old (D.clock disk.old)) (D.past disk.new (D.clock disk.new))) }
    ensures told { IsTrue (D.tells disk.old) → IsTrue (D.tells disk.new) }
    ensures counted { CountsFault (is_err result) (D.fault_count disk.old) (D.fault_count disk.new) }
{
    for put in puts {
        write_cell(disk, put)?;
    }
    Ok(())
}

/// Whether a file has one of the cells that are put.
fn has_put(puts: &[Put], file: u16) -> bool
    ensures { MatchBool result (Any (λ p. p.name.file ≡ file) puts.now) (¬ Any (λ p. p.name.file ≡ file) puts.now) }
{
    puts.iter().any(|put| put.name.file == file)
}

/// Syncs each file that has one of the cells that are put, in the order of their numbers. Every other file is settled.
pub(crate) fn sync_written<D: Disk>(disk: &mut D, puts: &[Put]) -> Result<(), DiskFault>
    requires whole { All IsWholeCell puts.now }
    ensures any_moment { (row : Row) (gate : GateSlot) (taken : List Record) → IsTrue (D.tells disk.old)
        → IsLaying (D.past disk.old (D.clock disk.old)) row gate taken
        → Moments (D.clock disk.old) (D.clock disk.new) (D.past disk.old) (D.past disk.new) (λ fs. IsLaying fs row gate taken) }
    ensures settled { (before : Files) → IsTrue (D.tells disk.old) → AreSettled before → AreCellsWritten puts.now before (D.past disk.old (D.clock disk.old))
        → OnOk result (AreSettled (D.past disk.new (D.clock disk.new))) }
    ensures read { IsTrue (D.tells disk.old) → reads_of (D.past disk.new (D.clock disk.new)) ≡ reads_of (D.past disk.old (D.clock disk.old)) }
    ensures told { IsTrue (D.tells disk.old) → IsTrue (D.tells disk.new) }
    ensures counted { CountsFault (is_err result) (D.fault_count disk.old) (D.fault_count disk.new) }
{
    for file in 0..END_OF_FILES {
        if has_put(puts, file) {
            disk.sync(file)?;
        }
    }
    Ok(())
}
