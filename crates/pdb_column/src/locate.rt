ghost use Rattle.std.specs.Prelude.{◌≡◌, ◌≤◌, ◌<◌, ◌^◌, ℕ, All, IfOk, IfErr, IfSome, MatchOption, Some, None};
ghost use Rattle.sdb_io.specs.Faults.{CountsFault};
ghost use Rattle.pdb_cells.specs.Content.{Content};
ghost use Rattle.pdb_model.specs.Chunks.{IsChunk, chunk_number};
ghost use Rattle.pdb_model.specs.Files.{head_cell};
ghost use Rattle.pdb_value.specs.Faults.{FaultSays, NoCell, NoTier, disk_fails};
ghost use Rattle.pdb_column.specs.Damages.{BreaksColumn};
ghost use Rattle.pdb_column.specs.Holding.{HoldsColumn};
ghost use Rattle.pdb_column.specs.Maps.{ColumnMap};
ghost use Rattle.pdb_column.specs.inner.Changes.{IsHeldAt, IsHit};
ghost use Rattle.pdb_column.specs.inner.KeyChunks.{HasKeyChunk, IsEntryOf};

use crate::find::{Hit, find};
use crate::key_chunk::{KeyChunk, read_key_chunk};
use pdb_cells::Cells;
use pdb_value::ValueFault;
use std::alloc::Global;

/// The chunk of a key, and where the key is there.
#[derive(Drop)]
pub(crate) struct Located {
    pub(crate) chunk: KeyChunk,
    pub(crate) hit: Option<Hit>,
}

/// Reads the chunk of a key, and finds the key there.
pub(crate) fn locate<C: Cells>(
    alloc: Global,
    c: &mut C,
    column: u8,
    key: &[u8; 32],
) -> Result<Located, ValueFault>
    requires column { column ≤ 1 }
    ensures keeps { C.same c.old c.new }
    ensures counted { CountsFault (disk_fails result) (C.fault_count c.old) (C.fault_count c.new) }
    ensures stays { (cells : Content) → C.seen c.old ≡ Some cells → C.seen c.new ≡ Some cells }
    ensures base { IfOk result (λ l. l.chunk.base ≤ 16) }
    ensures number { IfOk result (λ l. (l.chunk.number ≡ chunk_number l.chunk.base key.now) × (l.chunk.number < 2 ^ 32)) }
    ensures chunk { IfOk result (λ l. IsChunk l.chunk.entries.items) }
    ensures hit { IfOk result (λ l. IfSome l.hit (λ hit. IsHit l.chunk.entries.items hit.place hit.at.tier hit.at.slot)) }
    ensures within { IfOk result (λ l. IfSome l.hit (λ hit. (hit.place < 64) × (hit.at.tier ≤ 15))) }
    ensures spelled { (cells : Content) → C.seen c.old ≡ Some cells
        → IfOk result (λ l. HasKeyChunk cells column key.now l.chunk.base l.chunk.entries.items) }
    ensures entries { (cells : Content) → C.seen c.old ≡ Some cells
        → IfOk result (λ l. All (IsEntryOf (head_cell cells column)) l.chunk.entries.items) }
    ensures same_base { (cells : Content) (base : ℕ) (content : ColumnMap) → C.seen c.old ≡ Some cells
        → HoldsColumn cells column base content
        → IfOk result (λ l. l.chunk.base ≡ base) }
    ensures found { (cells : Content) (content : ColumnMap) → C.seen c.old ≡ Some cells
        → IfOk result (λ l. (holds : HoldsColumn cells column l.chunk.base content)
        → MatchOption l.hit (content key.now ≡ None) (λ hit. IsHeldAt holds.picture content key.now hit.at.tier hit.at.slot)) }
    ensures faults { (cells : Content) → C.seen c.old ≡ Some cells → IfErr result (FaultSays (BreaksColumn cells column) NoTier) }
    ensures sound { (cells : Content) (base : ℕ) (content : ColumnMap) → C.seen c.old ≡ Some cells
        → HoldsColumn cells column base content
        → IfErr result (FaultSays NoCell NoTier) }
{
    let chunk = read_key_chunk(c, column, key)?;
    let hit = find(alloc, c, column, &chunk, key)?;
    Ok(Located { chunk, hit })
}
