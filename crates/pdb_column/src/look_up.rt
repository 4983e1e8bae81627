ghost use Rattle.std.specs.Prelude.{◌≡◌, ◌≢◌, ◌≤◌, ◌+◌, ℕ, IfOk, IfErr, IsFalse, MatchResult, Some, length, if◌then◌else◌};
ghost use Rattle.sdb_io.specs.Faults.{CountsFault};
ghost use Rattle.pdb_cells.specs.Content.{Content};
ghost use Rattle.pdb_model.specs.Chunks.{entry_tier};
ghost use Rattle.pdb_model.specs.Tables.{Held, slots_of};
ghost use Rattle.pdb_value.specs.Faults.{FaultSays, NoCell, NoTier, disk_fails};
ghost use Rattle.pdb_column.specs.Answers.{IsGot, LookUpSays, look_up_disk_fails};
ghost use Rattle.pdb_column.specs.Damages.{BreaksColumn};
ghost use Rattle.pdb_column.specs.Holding.{HoldsColumn};
ghost use Rattle.pdb_column.specs.Maps.{ColumnMap};
ghost use Rattle.pdb_column.specs.inner.KeyChunks.{IsReadAt, NamesHeld};

use crate::fault::ColumnFault;
use crate::key_chunk::read_key_chunk;
use pdb_cells::Cells;
use pdb_index::{address, matches};
use pdb_value::{ValueFault, read_into};
use std::alloc::Global;

// reads the value that an entry names, if its key is this one
fn read_at<C: Cells>(
    alloc: Global,
    c: &mut C,
    column: u8,
    base: u8,
    entry: u64,
    key: &[u8; 32],
    out: &mut Vec<u8>,
) -> Result<bool, ValueFault>
    requires column { column ≤ 1 }
    requires base { base ≤ 16 }
    requires tier { entry_tier entry ≤ 15 }
    ensures keeps { C.same c.old c.new }
    ensures counted { CountsFault (disk_fails result) (C.fault_count c.old) (C.fault_count c.new) }
    ensures reads { MatchResult result
        (λ found. C.read_count c.new ≤ C.read_count c.old + (if found then slots_of (length out.new.items) else 1))
        (λ e. C.read_count c.new ≤ C.read_count c.old + slots_of 8388608) }
    ensures most { C.read_count c.new ≤ C.read_count c.old + slots_of 8388608 }
    ensures stays { (cells : Content) → C.seen c.old ≡ Some cells → C.seen c.new ≡ Some cells }
    ensures left { (cells : Content) → C.seen c.old ≡ Some cells → IfOk result (λ found. IsFalse found
        → out.new.items ≡ out.old.items) }
    ensures empty { IfOk result (λ found. entry ≡ 0 → IsFalse found) }
    ensures held { (cells : Content) (h : Held) → C.seen c.old ≡ Some cells → entry ≢ 0 → NamesHeld cells column entry h
        → IfOk result (IsReadAt base entry h key.now out.new.items) }
    ensures faults { (cells : Content) → C.seen c.old ≡ Some cells → IfErr result (FaultSays (BreaksColumn cells column) NoTier) }
    ensures sound { (cells : Content) → C.seen c.old ≡ Some cells → (entry ≢ 0 → (h : Held) × NamesHeld cells column entry h)
        → IfErr result (FaultSays NoCell NoTier) }
{
    if entry == 0 || !matches(base, key, entry) {
        return Ok(false);
    }
    read_into(alloc, c, column, address(entry), key, out)
}

// looks up a key
fn look_up<C: Cells>(
    alloc: Global,
    c: &mut C,
    column: u8,
    key: &[u8; 32],
    out: &mut Vec<u8>,
) -> Result<bool, ValueFault>
    requires column { column ≤ 1 }
    ensures keeps { C.same c.old c.new }
    ensures counted { CountsFault (disk_fails result) (C.fault_count c.old) (C.fault_count c.new) }
    ensures reads { MatchResult result
        (λ found. C.read_count c.new ≤ C.read_count c.old + (if found then 64 + slots_of (length out.new.items) else 65))
        (λ e. C.read_count c.new ≤ C.read_count c.old + (64 + slots_of 8388608)) }
    ensures most { C.read_count c.new ≤ C.read_count c.old + (64 + slots_of 8388608) }
    ensures got { (cells : Content) (base : ℕ) (content : ColumnMap) → C.seen c.old ≡ Some cells
        → HoldsColumn cells column base content
        → IfOk result (IsGot (content key.now) out.old.items out.new.items) }
    ensures sound { (cells : Content) (base : ℕ) (content : ColumnMap) → C.seen c.old ≡ Some cells
        → HoldsColumn cells column base content
        → IfErr result (FaultSays NoCell NoTier) }
    ensures faults { (cells : Content) → C.seen c.old ≡ Some cells → IfErr result (FaultSays (BreaksColumn cells column) NoTier) }
{
    let chunk = read_key_chunk(c, column, key)?;
    let base = chunk.base;
    let entries = chunk.entries.as_slice();
    for entry in entries {
        let found = read_at(alloc, c, column, base, *entry, key, out)?;
        if found {
            return Ok(true);
        }
    }
    Ok(false)
}

/// Looks up a key of a column. The value is put into `out`, which is emptied before; false where the key has none, and then
/// `out` is as it was.
///
/// `Damaged` names the head cell, chunk or slot that breaks the rules, `Disk` comes only where the count of faults of the cells
/// rises, and `OutOfMemory` only for want of memory. After an `Err` nothing is known of what `out` holds.
pub fn get<C: Cells>(
    alloc: Global,
    c: &mut C,
    column: u8,
    key: &[u8; 32],
    out: &mut Vec<u8>,
) -> Result<bool, ColumnFault>
    requires column { column ≤ 1 }
    ensures keeps { C.same c.old c.new }
    ensures counted { CountsFault (look_up_disk_fails result) (C.fault_count c.old) (C.fault_count c.new) }
    ensures reads { MatchResult result
        (λ found. C.read_count c.new ≤ C.read_count c.old + (if found then 64 + slots_of (length out.new.items) else 65))
        (λ e. C.read_count c.new ≤ C.read_count c.old + (64 + slots_of 8388608)) }
    ensures most { C.read_count c.new ≤ C.read_count c.old + (64 + slots_of 8388608) }
    ensures got { (cells : Content) (base : ℕ) (content : ColumnMap) → C.seen c.old ≡ Some cells
        → HoldsColumn cells column base content
        → IfOk result (IsGot (content key.now) out.old.items out.new.items) }
    ensures sound { (cells : Content) (base : ℕ) (content : ColumnMap) → C.seen c.old ≡ Some cells
        → HoldsColumn cells column base content
        → IfErr result (LookUpSays (λ file cell. ⊥)) }
    ensures faults { (cells : Content) → C.seen c.old ≡ Some cells → IfErr result (LookUpSays (BreaksColumn cells column)) }
{
    let found = look_up(alloc, c, column, key, out)?;
    Ok(found)
}
