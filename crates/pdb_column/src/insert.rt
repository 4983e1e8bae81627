ghost use Rattle.std.specs.Prelude.{◌≡◌, ◌≢◌, ◌≤◌, ◌<◌, ◌^◌, ◌+◌, ℕ, List, All, IfErr, OnOk, Some, None, length};
ghost use Rattle.sdb_io.specs.Faults.{CountsFault};
ghost use Rattle.pdb_cells.specs.Content.{Content};
ghost use Rattle.pdb_model.specs.Chunks.{IsChunk, chunk_number, entry_of};
ghost use Rattle.pdb_value.specs.Faults.{Drafts, IsFullTier, NoCell};
ghost use Rattle.pdb_column.specs.Damages.{BreaksColumn, IsFullChunk};
ghost use Rattle.pdb_column.specs.Holding.{HoldsColumn};
ghost use Rattle.pdb_column.specs.Maps.{ColumnMap, IsCrowded};
ghost use Rattle.pdb_column.specs.inner.Changes.{IsChanged, IsPlaced};
ghost use Rattle.pdb_column.specs.Storing.{LacksSlots};
ghost use Rattle.pdb_column.specs.inner.Faults.{AnyCell, AnyChunk, AnyTier, StepSays, step_disk_fails};
ghost use Rattle.pdb_column.specs.inner.KeyChunks.{HasKeyChunk};

use crate::fault::StepFault;
use crate::key_chunk::{KeyChunk, put_key_chunk};
use pdb_cells::{Cells, Draft};
use pdb_index::{entry, put};
use pdb_model::Address;
use pdb_value::{ValueFault, place};
use std::alloc::Global;

// the entry of a value that was placed
fn entry_at(base: u8, key: &[u8; 32], at: Address) -> u64
    requires base { base ≤ 16 }
    requires tier { at.tier ≤ 15 }
    requires slot { 1 ≤ at.slot }
    ensures { result ≡ entry_of base key.now at.tier at.slot }
{
    entry(base, key, at)
}

/// Places a value under a key that has none: its slots are taken first, and then its entry is put into the key's chunk.
pub(crate) fn insert<C: Cells>(
    alloc: Global,
    d: &mut Draft<'_, C>,
    column: u8,
    chunk: &mut KeyChunk,
    key: &[u8; 32],
    bytes: &[u8],
) -> Result<(), StepFault>
    requires column { column ≤ 1 }
    requires base { chunk.old.base ≤ 16 }
    requires number { (chunk.old.number ≡ chunk_number chunk.old.base key.now) × (chunk.old.number < 2 ^ 32) }
    requires places { IsChunk chunk.old.entries.items }
    requires len { length bytes.now ≤ 8388608 }
    ensures same_reference { d.new.under.ghost_name ≡ d.old.under.ghost_name }
    ensures keeps { C.same d.old.under.now d.new.under.now }
    ensures counted { CountsFault (step_disk_fails result) (C.fault_count d.old.under.now) (C.fault_count d.new.under.now) }
    ensures inserted { (cells : Content) (content : ColumnMap) → Drafts d.old.puts (C.seen d.old.under.now) cells
        → HoldsColumn cells column chunk.old.base content
        → HasKeyChunk cells column key.now chunk.old.base chunk.old.entries.items → content key.now ≡ None
        → OnOk result ((after : Content) × Drafts d.new.puts (C.seen d.new.under.now) after
        × IsChanged column chunk.old.base content key.now (Some (record { count = 1; bytes = bytes.now })) cells after) }
    ensures uncrowded { (cells : Content) (content : ColumnMap) → Drafts d.old.puts (C.seen d.old.under.now) cells
        → HoldsColumn cells column chunk.old.base content
        → HasKeyChunk cells column key.now chunk.old.base chunk.old.entries.items
        → OnOk result (IsCrowded content chunk.old.base key.now → ⊥) }
    ensures sound { (cells : Content) (content : ColumnMap) → Drafts d.old.puts (C.seen d.old.under.now) cells
        → HoldsColumn cells column chunk.old.base content
        → HasKeyChunk cells column key.now chunk.old.base chunk.old.entries.items
        → IfErr result (StepSays NoCell AnyTier (λ bits n. (bits ≡ chunk.old.base) × (n ≡ chunk_number bits key.now)
        × IsCrowded content bits key.now × All (λ e. e ≢ 0) chunk.old.entries.items)) }
    ensures slots_first { (cells : Content) (content : ColumnMap) → Drafts d.old.puts (C.seen d.old.under.now) cells
        → HoldsColumn cells column chunk.old.base content
        → IfErr result (StepSays AnyCell AnyTier (λ bits n. (after : Content) × Drafts d.new.puts (C.seen d.new.under.now) after
        × IsPlaced after column key.now bytes.now)) }
    ensures no_slots { (cells : Content) (content : ColumnMap) → Drafts d.old.puts (C.seen d.old.under.now) cells
        → HoldsColumn cells column chunk.old.base content
        → IfErr result (StepSays AnyCell (LacksSlots chunk.old.base content key.now bytes.now column) AnyChunk) }
    ensures faults { (cells : Content) → Drafts d.old.puts (C.seen d.old.under.now) cells
        → HasKeyChunk cells column key.now chunk.old.base chunk.old.entries.items
        → IfErr result (StepSays (λ file cell. (after : Content) × Drafts d.new.puts (C.seen d.new.under.now) after
        × BreaksColumn after column file cell)
        (λ tier. (after : Content) × Drafts d.new.puts (C.seen d.new.under.now) after × IsFullTier after column tier)
        (λ bits n. (after : Content) × Drafts d.new.puts (C.seen d.new.under.now) after × IsFullChunk after column bits n)) }
{
    let at = place(alloc, d, column, key, 1, bytes)?;
    let new = entry_at(chunk.base, key, at);
    if put(&mut chunk.entries, new).is_err() {
        return Err(StepFault::ChunkFull {
            bits: chunk.base,
            chunk: chunk.number,
        });
    }
    match put_key_chunk(d, column, chunk) {
        Ok(()) => Ok(()),
        Err(_) => Err(StepFault::Value(ValueFault::OutOfMemory)),
    }
}
