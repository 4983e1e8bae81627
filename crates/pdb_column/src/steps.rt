ghost use Rattle.std.specs.Prelude.{◌≡◌, ◌≤◌, ℕ, List, IfErr, OnOk, Some, None, length};
ghost use Rattle.sdb_base.specs.Content.{Counted, with_reference, without_reference};
ghost use Rattle.sdb_io.specs.Faults.{CountsFault};
ghost use Rattle.pdb_cells.specs.Content.{Content};
ghost use Rattle.pdb_model.specs.Chunks.{chunk_number};
ghost use Rattle.pdb_value.specs.Faults.{Drafts, FaultSays, IsFullTier, NoCell, NoTier, disk_fails};
ghost use Rattle.pdb_column.specs.Damages.{BreaksColumn, IsFullChunk};
ghost use Rattle.pdb_column.specs.Holding.{HoldsColumn};
ghost use Rattle.pdb_column.specs.Maps.{ColumnMap, IsCrowded};
ghost use Rattle.pdb_column.specs.inner.Changes.{IsChanged, IsPlaced};
ghost use Rattle.pdb_column.specs.Storing.{LacksSlots};
ghost use Rattle.pdb_column.specs.inner.Faults.{AnyCell, AnyChunk, AnyTier, StepSays, step_disk_fails};

use crate::fault::StepFault;
use crate::insert::insert;
use crate::locate::locate;
use crate::remove::remove;
use pdb_cells::{Cells, Draft};
use pdb_value::{ValueFault, add_ref, replace};
use std::alloc::Global;

/// Column 0: a reference more to a node, which is stored where it isn't yet.
pub(crate) fn add_node<C: Cells>(
    alloc: Global,
    d: &mut Draft<'_, C>,
    key: &[u8; 32],
    bytes: &[u8],
) -> Result<(), StepFault>
    requires { length bytes.now ≤ 8388608 }
    ensures same_reference { d.new.under.ghost_name ≡ d.old.under.ghost_name }
    ensures keeps { C.same d.old.under.now d.new.under.now }
    ensures counted { CountsFault (step_disk_fails result) (C.fault_count d.old.under.now) (C.fault_count d.new.under.now) }
    ensures changed { (cells : Content) (base : ℕ) (content : ColumnMap)
        → Drafts d.old.puts (C.seen d.old.under.now) cells → HoldsColumn cells 0 base content
        → OnOk result ((after : Content) × Drafts d.new.puts (C.seen d.new.under.now) after
        × IsChanged 0 base content key.now (with_reference bytes.now (content key.now)) cells after) }
    ensures uncrowded { (cells : Content) (base : ℕ) (content : ColumnMap)
        → Drafts d.old.puts (C.seen d.old.under.now) cells → HoldsColumn cells 0 base content
        → OnOk result (content key.now ≡ None → IsCrowded content base key.now → ⊥) }
    ensures sound { (cells : Content) (base : ℕ) (content : ColumnMap)
        → Drafts d.old.puts (C.seen d.old.under.now) cells → HoldsColumn cells 0 base content
        → IfErr result (StepSays NoCell AnyTier (λ bits n. (content key.now ≡ None) × (bits ≡ base)
        × (n ≡ chunk_number bits key.now) × IsCrowded content bits key.now)) }
    ensures slots_first { (cells : Content) (base : ℕ) (content : ColumnMap)
        → Drafts d.old.puts (C.seen d.old.under.now) cells → HoldsColumn cells 0 base content
        → IfErr result (StepSays AnyCell AnyTier (λ bits n. (after : Content) × Drafts d.new.puts (C.seen d.new.under.now) after
        × IsPlaced after 0 key.now bytes.now)) }
    ensures no_slots { (cells : Content) (base : ℕ) (content : ColumnMap)
        → Drafts d.old.puts (C.seen d.old.under.now) cells → HoldsColumn cells 0 base content
        → IfErr result (StepSays AnyCell (LacksSlots base content key.now bytes.now 0) AnyChunk) }
    ensures faults { (cells : Content) → Drafts d.old.puts (C.seen d.old.under.now) cells
        → IfErr result (StepSays (λ file cell. (after : Content) × Drafts d.new.puts (C.seen d.new.under.now) after
        × BreaksColumn after 0 file cell)
        (λ tier. (after : Content) × Drafts d.new.puts (C.seen d.new.under.now) after × IsFullTier after 0 tier)
        (λ bits n. (after : Content) × Drafts d.new.puts (C.seen d.new.under.now) after × IsFullChunk after 0 bits n)) }
{
    let mut found = locate(alloc, d, 0, key)?;
    match found.hit {
        Some(hit) => {
            add_ref(alloc, d, 0, hit.at)?;
            Ok(())
        }
        None => insert(alloc, d, 0, &mut found.chunk, key, bytes),
    }
}

/// A reference fewer to a key of a column, which goes with its last one.
pub(crate) fn drop_key<C: Cells>(
    alloc: Global,
    d: &mut Draft<'_, C>,
    column: u8,
    key: &[u8; 32],
) -> Result<(), ValueFault>
    requires { column ≤ 1 }
    ensures same_reference { d.new.under.ghost_name ≡ d.old.under.ghost_name }
    ensures keeps { C.same d.old.under.now d.new.under.now }
    ensures counted { CountsFault (disk_fails result) (C.fault_count d.old.under.now) (C.fault_count d.new.under.now) }
    ensures changed { (cells : Content) (base : ℕ) (content : ColumnMap)
        → Drafts d.old.puts (C.seen d.old.under.now) cells → HoldsColumn cells column base content
        → OnOk result ((after : Content) × Drafts d.new.puts (C.seen d.new.under.now) after
        × IsChanged column base content key.now (without_reference (content key.now)) cells after) }
    ensures sound { (cells : Content) (base : ℕ) (content : ColumnMap)
        → Drafts d.old.puts (C.seen d.old.under.now) cells → HoldsColumn cells column base content
        → IfErr result (FaultSays NoCell NoTier) }
    ensures faults { (cells : Content) → Drafts d.old.puts (C.seen d.old.under.now) cells
        → IfErr result (FaultSays (λ file cell. (after : Content)
        × Drafts d.new.puts (C.seen d.new.under.now) after × BreaksColumn after column file cell) NoTier) }
{
    let mut found = locate(alloc, d, column, key)?;
    match found.hit {
        Some(hit) => remove(alloc, d, column, &mut found.chunk, hit),
        None => Ok(()),
    }
}

/// Column 1: sets the bytes of a key. Bytes of the same tier for whole values are written in place; else the old ones are
/// removed first.
pub(crate) fn put_plain<C: Cells>(
    alloc: Global,
    d: &mut Draft<'_, C>,
    key: &[u8; 32],
    bytes: &[u8],
) -> Result<(), StepFault>
    requires { length bytes.now ≤ 8388608 }
    ensures same_reference { d.new.under.ghost_name ≡ d.old.under.ghost_name }
    ensures keeps { C.same d.old.under.now d.new.under.now }
    ensures counted { CountsFault (step_disk_fails result) (C.fault_count d.old.under.now) (C.fault_count d.new.under.now) }
    ensures changed { (cells : Content) (base : ℕ) (content : ColumnMap)
        → Drafts d.old.puts (C.seen d.old.under.now) cells → HoldsColumn cells 1 base content
        → ((h : Counted) → content key.now ≡ Some h → h.count ≡ 1)
        → OnOk result ((after : Content) × Drafts d.new.puts (C.seen d.new.under.now) after
        × IsChanged 1 base content key.now (Some (record { count = 1; bytes = bytes.now })) cells after) }
    ensures uncrowded { (cells : Content) (base : ℕ) (content : ColumnMap)
        → Drafts d.old.puts (C.seen d.old.under.now) cells → HoldsColumn cells 1 base content
        → OnOk result (content key.now ≡ None → IsCrowded content base key.now → ⊥) }
    ensures sound { (cells : Content) (base : ℕ) (content : ColumnMap)
        → Drafts d.old.puts (C.seen d.old.under.now) cells → HoldsColumn cells 1 base content
        → ((h : Counted) → content key.now ≡ Some h → h.count ≡ 1)
        → IfErr result (StepSays NoCell AnyTier (λ bits n. (content key.now ≡ None) × (bits ≡ base)
        × (n ≡ chunk_number bits key.now) × IsCrowded content bits key.now)) }
    ensures slots_first { (cells : Content) (base : ℕ) (content : ColumnMap)
        → Drafts d.old.puts (C.seen d.old.under.now) cells → HoldsColumn cells 1 base content
        → IfErr result (StepSays AnyCell AnyTier (λ bits n. (after : Content) × Drafts d.new.puts (C.seen d.new.under.now) after
        × IsPlaced after 1 key.now bytes.now)) }
    ensures no_slots { (cells : Content) (base : ℕ) (content : ColumnMap)
        → Drafts d.old.puts (C.seen d.old.under.now) cells → HoldsColumn cells 1 base content
        → IfErr result (StepSays AnyCell (LacksSlots base content key.now bytes.now 1) AnyChunk) }
    ensures faults { (cells : Content) → Drafts d.old.puts (C.seen d.old.under.now) cells
        → IfErr result (StepSays (λ file cell. (after : Content) × Drafts d.new.puts (C.seen d.new.under.now) after
        × BreaksColumn after 1 file cell)
        (λ tier. (after : Content) × Drafts d.new.puts (C.seen d.new.under.now) after × IsFullTier after 1 tier)
        (λ bits n. (after : Content) × Drafts d.new.puts (C.seen d.new.under.now) after × IsFullChunk after 1 bits n)) }
{
    let mut found = locate(alloc, d, 1, key)?;
    let Some(hit) = found.hit else {
        return insert(alloc, d, 1, &mut found.chunk, key, bytes);
    };
    let done = replace(alloc, d, 1, hit.at, bytes)?;
    if done {
        return Ok(());
    }
    remove(alloc, d, 1, &mut found.chunk, hit)?;
    insert(alloc, d, 1, &mut found.chunk, key, bytes)
}
