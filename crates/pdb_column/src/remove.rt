ghost use Rattle.std.specs.Prelude.{◌≡◌, ◌≤◌, ◌<◌, ◌^◌, ℕ, List, All, IfErr, OnOk, Some};
ghost use Rattle.sdb_io.specs.Faults.{CountsFault};
ghost use Rattle.pdb_cells.specs.Content.{Content};
ghost use Rattle.pdb_model.specs.Chunks.{IsChunk, chunk_number};
ghost use Rattle.pdb_model.specs.Files.{head_cell};
ghost use Rattle.pdb_value.specs.Faults.{Drafts, FaultSays, NoCell, NoTier, disk_fails};
ghost use Rattle.pdb_column.specs.Damages.{BreaksColumn};
ghost use Rattle.pdb_column.specs.Holding.{HoldsColumn};
ghost use Rattle.pdb_column.specs.Maps.{ColumnMap};
ghost use Rattle.pdb_column.specs.inner.Changes.{IsDropped, IsHeldAt, IsHit};
ghost use Rattle.pdb_column.specs.inner.KeyChunks.{HasKeyChunk, IsEntryOf};

use crate::find::Hit;
use crate::key_chunk::{KeyChunk, put_key_chunk};
use pdb_cells::{Cells, Draft};
use pdb_index::clear;
use pdb_value::{ValueFault, drop_ref};
use std::alloc::Global;

/// Drops a reference to the value of a key's entry. With the last one the entry is cleared.
pub(crate) fn remove<C: Cells>(
    alloc: Global,
    d: &mut Draft<'_, C>,
    column: u8,
    chunk: &mut KeyChunk,
    hit: Hit,
) -> Result<(), ValueFault>
    requires column { column ≤ 1 }
    requires places { IsChunk chunk.old.entries.items }
    requires number { chunk.old.number < 2 ^ 32 }
    requires place { hit.place < 64 }
    requires tier { hit.at.tier ≤ 15 }
    ensures same_reference { d.new.under.ghost_name ≡ d.old.under.ghost_name }
    ensures keeps { C.same d.old.under.now d.new.under.now }
    ensures counted { CountsFault (disk_fails result) (C.fault_count d.old.under.now) (C.fault_count d.new.under.now) }
    ensures base { (chunk.new.base ≡ chunk.old.base) × (chunk.new.number ≡ chunk.old.number) }
    ensures places { IsChunk chunk.new.entries.items }
    ensures dropped { (cells : Content) (content : ColumnMap) (key : List ℕ) → Drafts d.old.puts (C.seen d.old.under.now) cells
        → (holds : HoldsColumn cells column chunk.old.base content)
        → HasKeyChunk cells column key chunk.old.base chunk.old.entries.items
        → chunk.old.number ≡ chunk_number chunk.old.base key → IsHit chunk.old.entries.items hit.place hit.at.tier hit.at.slot
        → IsHeldAt holds.picture content key hit.at.tier hit.at.slot
        → OnOk result ((after : Content) × Drafts d.new.puts (C.seen d.new.under.now) after
        × IsDropped column chunk.old.base content key chunk.new.entries.items hit.place cells after) }
    ensures chunk { (cells : Content) (key : List ℕ) → Drafts d.old.puts (C.seen d.old.under.now) cells
        → HasKeyChunk cells column key chunk.old.base chunk.old.entries.items
        → All (IsEntryOf (head_cell cells column)) chunk.old.entries.items
        → chunk.old.number ≡ chunk_number chunk.old.base key → IsHit chunk.old.entries.items hit.place hit.at.tier hit.at.slot
        → OnOk result ((after : Content) × Drafts d.new.puts (C.seen d.new.under.now) after
        × HasKeyChunk after column key chunk.new.base chunk.new.entries.items) }
    ensures faults { (cells : Content) → Drafts d.old.puts (C.seen d.old.under.now) cells
        → All (IsEntryOf (head_cell cells column)) chunk.old.entries.items
        → IsHit chunk.old.entries.items hit.place hit.at.tier hit.at.slot
        → IfErr result (FaultSays (λ file cell. (after : Content)
        × Drafts d.new.puts (C.seen d.new.under.now) after × BreaksColumn after column file cell) NoTier) }
    ensures sound { (cells : Content) (base : ℕ) (content : ColumnMap) (key : List ℕ)
        → Drafts d.old.puts (C.seen d.old.under.now) cells
        → (holds : HoldsColumn cells column base content) → IsHeldAt holds.picture content key hit.at.tier hit.at.slot
        → IfErr result (FaultSays NoCell NoTier) }
{
    let left = drop_ref(alloc, d, column, hit.at)?;
    if left > 0 {
        return Ok(());
    }
    clear(&mut chunk.entries, hit.place);
    put_key_chunk(d, column, chunk)?;
    Ok(())
}
