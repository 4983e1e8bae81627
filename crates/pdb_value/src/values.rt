ghost use Rattle.std.specs.Prelude.{◌≡◌, ◌≢◌, ◌≤◌, ◌+◌, ℕ, List, IfOk, IfErr, MatchResult, Some, length, if◌then◌else◌};
ghost use Rattle.sdb_io.specs.Faults.{CountsFault};
ghost use Rattle.pdb_cells.specs.Content.{Content};
ghost use Rattle.pdb_model.specs.Files.{head_cell};
ghost use Rattle.pdb_model.specs.Heads.{IsHeadCell};
ghost use Rattle.pdb_model.specs.Tables.{Held, Table, held, slots_of};
ghost use Rattle.pdb_value.specs.Faults.{FaultSays, HasTable, NoCell, NoTier, disk_fails};
ghost use Rattle.pdb_value.specs.Values.{BreaksValue, IsCount, IsCountOf, IsRead, IsReadOf};

use crate::fault::ValueFault;
use crate::firsts::read_first;
use crate::parts::{IN_HEAD, read_parts};
use crate::tiers::PARTS_TIER;
use pdb_cells::Cells;
use pdb_model::Address;
use std::alloc::Global;

/// The count of the value at an address, or None where its key is another.
///
/// `Damaged` names the column's head cell or the slot where it breaks the rules, `Disk` comes only where the count of
/// faults of the cells rises, and `OutOfMemory` only for want of memory.
pub fn count<C: Cells>(
    alloc: Global,
    c: &mut C,
    column: u8,
    at: Address,
    key: &[u8; 32],
) -> Result<Option<u64>, ValueFault>
    requires column { column ≤ 1 }
    requires tier { at.tier ≤ 15 }
    ensures keeps { C.same c.old c.new }
    ensures counted { CountsFault (disk_fails result) (C.fault_count c.old) (C.fault_count c.new) }
    ensures reads { (C.read_count c.old ≤ C.read_count c.new) × (C.read_count c.new ≤ C.read_count c.old + 1) }
    ensures answer { (cells : Content) → C.seen c.old ≡ Some cells → IfOk result (IsCount cells column at.tier at.slot key.now) }
    ensures held { (cells : Content) (t : Table) (h : Held) → C.seen c.old ≡ Some cells → HasTable cells column at.tier t
        → held (t.slot at.slot) ≡ Some h → IfOk result (IsCountOf h key.now) }
    ensures faults { (cells : Content) → C.seen c.old ≡ Some cells → IfErr result (FaultSays (BreaksValue cells column at.tier) NoTier) }
    ensures sound { (cells : Content) (t : Table) (h : Held) → C.seen c.old ≡ Some cells → IsHeadCell (head_cell cells column)
        → HasTable cells column at.tier t → held (t.slot at.slot) ≡ Some h → IfErr result (FaultSays NoCell NoTier) }
{
    let first = read_first(alloc, c, column, at)?;
    let fields = first.fields;
    if fields.key == *key {
        Ok(Some(fields.count))
    } else {
        Ok(None)
    }
}

/// Reads the value at an address into `out`, which is emptied before. False where the key there is another one, and
/// then `out` is as it was.
///
/// `Damaged` names the column's head cell, or the slot or further part that breaks the rules, `Disk` comes only where
/// the count of faults of the cells rises, and `OutOfMemory` only for want of memory. After an `Err` nothing is known
/// of what `out` holds.
pub fn read_into<C: Cells>(
    alloc: Global,
    c: &mut C,
    column: u8,
    at: Address,
    key: &[u8; 32],
    out: &mut Vec<u8>,
) -> Result<bool, ValueFault>
    requires column { column ≤ 1 }
    requires tier { at.tier ≤ 15 }
    ensures keeps { C.same c.old c.new }
    ensures counted { CountsFault (disk_fails result) (C.fault_count c.old) (C.fault_count c.new) }
    ensures reads { MatchResult result (λ found. C.read_count c.new ≤ C.read_count c.old + (if found then slots_of (length out.new.items) else 1))
        (λ e. C.read_count c.new ≤ C.read_count c.old + slots_of 8388608) }
    ensures most { C.read_count c.new ≤ C.read_count c.old + slots_of 8388608 }
    ensures answer { (cells : Content) → C.seen c.old ≡ Some cells
        → IfOk result (IsRead cells column at.tier at.slot key.now out.old.items out.new.items) }
    ensures held { (cells : Content) (t : Table) (h : Held) → C.seen c.old ≡ Some cells → HasTable cells column at.tier t
        → held (t.slot at.slot) ≡ Some h → IfOk result (IsReadOf h key.now out.old.items out.new.items) }
    ensures faults { (cells : Content) → C.seen c.old ≡ Some cells → IfErr result (FaultSays (BreaksValue cells column at.tier) NoTier) }
    ensures sound { (cells : Content) (t : Table) (h : Held) → C.seen c.old ≡ Some cells → IsHeadCell (head_cell cells column)
        → HasTable cells column at.tier t → held (t.slot at.slot) ≡ Some h → IfErr result (FaultSays NoCell NoTier) }
{
    let first = read_first(alloc, c, column, at)?;
    let fields = first.fields;
    if fields.key != *key {
        return Ok(false);
    }
    out.clear();
    out.reserve(fields.len)?;
    if at.tier < PARTS_TIER {
        out.extend_from_slice(&first.cell[44..44 + fields.len])?;
        return Ok(true);
    }
    out.extend_from_slice(&first.cell[52..])?;
    let left = fields.len - IN_HEAD;
    read_parts(alloc, c, column, first.end, fields.next, left, out)?;
    Ok(true)
}
