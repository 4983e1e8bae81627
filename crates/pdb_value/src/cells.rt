ghost use Rattle.std.specs.Prelude.{◌≡◌, ◌+◌, ◌<◌, ◌≤◌, ◌^◌, ℕ, IfOk, IfErr, OnOk, OnErr, Some, length};
ghost use Rattle.sdb_io.specs.Faults.{CountsFault};
ghost use Rattle.pdb_cells.specs.Content.{Content, put_cell};
ghost use Rattle.pdb_cells.specs.Sizes.{head_file};
ghost use Rattle.pdb_model.specs.Files.{table_cells, table_file};
ghost use Rattle.pdb_model.specs.Tiers.{slot_size};
ghost use Rattle.pdb_value.specs.Faults.{Drafts, FaultSays, NoCell, NoTier, disk_fails};
ghost use Rattle.pdb_value.specs.declared.fault.ValueFault.TheVariants.{Damaged};

use crate::fault::ValueFault;
use crate::tiers::{file_of, slot_len};
use pdb_cells::{CellName, Cells, Draft, HEAD_FILE, OutOfMemory};
use std::alloc::Global;

// the name of a slot's cell
fn slot_name(column: u8, tier: u8, slot: u32) -> CellName
    requires column { column ≤ 1 }
    requires tier { tier ≤ 15 }
    ensures file { result.file ≡ table_file column tier }
    ensures sized { Rattle.pdb_cells.specs.Sizes.size_of result.file ≡ Some (slot_size tier) }
    ensures index { result.index ≡ slot }
{
    CellName {
        file: file_of(column, tier),
        index: u64::from(slot),
    }
}

/// That a slot is damaged.
pub(crate) fn damaged_slot(column: u8, tier: u8, slot: u32) -> ValueFault
    requires column { column ≤ 1 }
    requires tier { tier ≤ 15 }
    ensures { result ≡ Damaged (table_file column tier) slot }
{
    ValueFault::Damaged {
        file: file_of(column, tier),
        cell: u64::from(slot),
    }
}

/// The bytes of a slot.
pub(crate) fn read_slot<C: Cells>(
    alloc: Global,
    c: &mut C,
    column: u8,
    tier: u8,
    slot: u32,
) -> Result<Vec<u8>, ValueFault>
    requires column { column ≤ 1 }
    requires tier { tier ≤ 15 }
    ensures keeps { C.same c.old c.new }
    ensures counted { CountsFault (disk_fails result) (C.fault_count c.old) (C.fault_count c.new) }
    ensures reads { (C.read_count c.old ≤ C.read_count c.new) × (C.read_count c.new ≤ C.read_count c.old + 1) }
    ensures stays { (cells : Content) → C.seen c.old ≡ Some cells → C.seen c.new ≡ Some cells }
    ensures cell { (cells : Content) → C.seen c.old ≡ Some cells → IfOk result (λ v. v.items ≡ table_cells cells column tier slot) }
    ensures len { IfOk result (λ v. length v.items ≡ slot_size tier) }
    ensures range { IfOk result (λ v. (64 ≤ length v.items) × (length v.items ≤ 32768)) }
    ensures faults { IfErr result (FaultSays NoCell NoTier) }
{
    let size = slot_len(tier);
    let mut cell = Vec::with_capacity(alloc, size)?;
    cell.resize(size, 0)?;
    c.cell(slot_name(column, tier, slot), &mut cell)?;
    Ok(cell)
}

/// Puts the bytes of a slot.
pub(crate) fn put_slot<C: Cells>(
    d: &mut Draft<'_, C>,
    column: u8,
    tier: u8,
    slot: u32,
    cell: &[u8],
) -> Result<(), OutOfMemory>
    requires column { column ≤ 1 }
    requires tier { tier ≤ 15 }
    requires sized { length cell.now ≡ slot_size tier }
    ensures same_reference { d.new.under.ghost_name ≡ d.old.under.ghost_name }
    ensures below { d.new.under.now ≡ d.old.under.now }
    ensures cells { (cells : Content) → Drafts d.old.puts (C.seen d.old.under.now) cells
        → OnOk result (Drafts d.new.puts (C.seen d.new.under.now) (put_cell (table_file column tier) slot cell.now cells)) }
    ensures err { OnErr result (d.new.puts ≡ d.old.puts) }
{
    d.put(slot_name(column, tier, slot), cell)
}

/// Puts a column's head cell.
pub(crate) fn put_head<C: Cells>(
    d: &mut Draft<'_, C>,
    column: u8,
    head: &[u8],
) -> Result<(), OutOfMemory>
    requires sized { length head.now ≡ 256 }
    ensures same_reference { d.new.under.ghost_name ≡ d.old.under.ghost_name }
    ensures below { d.new.under.now ≡ d.old.under.now }
    ensures cells { (cells : Content) → Drafts d.old.puts (C.seen d.old.under.now) cells
        → OnOk result (Drafts d.new.puts (C.seen d.new.under.now) (put_cell head_file column head.now cells)) }
    ensures err { OnErr result (d.new.puts ≡ d.old.puts) }
{
    let name = CellName {
        file: HEAD_FILE,
        index: u64::from(column),
    };
    d.put(name, head)
}
