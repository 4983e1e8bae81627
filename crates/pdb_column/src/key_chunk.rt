ghost use Rattle.std.specs.Prelude.{◌≡◌, ◌≢◌, ◌⊎◌, ◌≤◌, ◌<◌, ◌+◌, ◌^◌, ℕ, All, Any, IfOk, IfErr, IsTrue, Some, length};
ghost use Rattle.std.specs.Prelude.{MatchBool, MatchOption, OnErr, OnOk};
ghost use Rattle.sdb_io.specs.Faults.{CountsFault};
ghost use Rattle.arrayvec.specs.ArrayVec.{array_vec_len};
ghost use Rattle.pdb_cells.specs.Content.{Content, put_cell};
ghost use Rattle.pdb_cells.specs.Sizes.{size_of};
ghost use Rattle.pdb_model.specs.Chunks.{IsChunk, chunk_bytes as spelled, chunk_number, entry_tier};
ghost use Rattle.pdb_model.specs.Files.{head_cell, index_file};
ghost use Rattle.pdb_model.specs.Heads.{Head, IsHead, IsHeadCell, SpellsHead};
ghost use Rattle.pdb_value.specs.Faults.{Drafts, FaultSays, NoCell, NoTier, disk_fails};
ghost use Rattle.pdb_column.specs.Damages.{BreaksColumn};
ghost use Rattle.pdb_column.specs.Holding.{HoldsColumn};
ghost use Rattle.pdb_column.specs.Maps.{ColumnMap};
ghost use Rattle.pdb_column.specs.inner.KeyChunks.{HasKeyChunk, HaveTiers, IsEntryOf, IsFixedHead, IsNoEntryOf};

use pdb_cells::{CellName, Cells, Draft, HEAD_FILE, OutOfMemory};
use pdb_index::{Chunk, address, chunk_bytes, chunk_of, read_chunk};
use pdb_value::{ValueFault, ends_of, read_head};

/// The chunk of a key.
#[derive(Drop)]
pub(crate) struct KeyChunk {
    /// The bits of the column's index, which are those that its entries leave out.
    pub(crate) base: u8,
    /// The number of the chunk.
    pub(crate) number: u64,
    pub(crate) entries: Chunk,
}

// the base of a column whose index is fixed, as its head cell says; None exactly where the index grows or has other bits
fn base_of(cell: &[u8]) -> Option<u8>
    requires sized { length cell.now ≡ 256 }
    requires head { IsHeadCell cell.now }
    ensures base { MatchOption result ((h : Head) → SpellsHead cell.now h → (h.bits ≢ h.base) ⊎ (h.growing ≢ 0))
        (λ base. (base ≤ 16) × ((h : Head) → SpellsHead cell.now h → IsFixedHead base h)) }
{
    let [_, base, bits, ..] = cell else {
        unreachable!()
    };
    // an index that grows has more bits than the base
    if *bits == *base { Some(*base) } else { None }
}

// whether an entry keeps the rules beside its column's head cell
fn is_entry(head: &[u8], entry: u64) -> bool
    requires { length head.now ≡ 256 }
    ensures rules { MatchBool result (IsEntryOf head.now entry) (IsNoEntryOf head.now entry) }
    ensures tier { IsTrue result → entry_tier entry ≤ 15 }
{
    if entry == 0 {
        return true;
    }
    let at = address(entry);
    if at.tier > 15 || at.slot == 0 {
        return false;
    }
    at.slot <= ends_of(head, at.tier).end
}

// whether all entries keep the rules beside their column's head cell
fn are_entries(head: &[u8], entries: &[u64]) -> bool
    requires { length head.now ≡ 256 }
    ensures rules { MatchBool result (All (IsEntryOf head.now) entries.now) (Any (IsNoEntryOf head.now) entries.now) }
    ensures tiers { IsTrue result → HaveTiers entries.now }
{
    for entry in entries {
        if !is_entry(head, *entry) {
            return false;
        }
    }
    true
}

/// The name of a chunk's cell, in an index of so many bits.
pub(crate) fn chunk_name(column: u8, bits: u8, number: u64) -> CellName
    requires { column ≤ 1 }
    ensures file { result.file ≡ index_file column bits }
    ensures sized { size_of result.file ≡ Some 512 }
    ensures index { result.index ≡ number }
{
    CellName {
        file: 16 + 32 * u16::from(column) + u16::from(bits % 2),
        index: number,
    }
}

/// The chunk of a key. `Damaged` names the head cell where the index isn't fixed, and the chunk where an entry breaks the
/// rules.
pub(crate) fn read_key_chunk<C: Cells>(
    c: &mut C,
    column: u8,
    key: &[u8; 32],
) -> Result<KeyChunk, ValueFault>
    requires column { column ≤ 1 }
    ensures keeps { C.same c.old c.new }
    ensures counted { CountsFault (disk_fails result) (C.fault_count c.old) (C.fault_count c.new) }
    ensures reads { C.read_count c.new ≤ C.read_count c.old + 1 }
    ensures stays { (cells : Content) → C.seen c.old ≡ Some cells → C.seen c.new ≡ Some cells }
    ensures base { IfOk result (λ k. k.base ≤ 16) }
    ensures number { IfOk result (λ k. (k.number ≡ chunk_number k.base key.now) × (k.number < 2 ^ 32)) }
    ensures chunk { IfOk result (λ k. IsChunk k.entries.items) }
    ensures tiers { IfOk result (λ k. HaveTiers k.entries.items) }
    ensures spelled { (cells : Content) → C.seen c.old ≡ Some cells
        → IfOk result (λ k. HasKeyChunk cells column key.now k.base k.entries.items) }
    ensures entries { (cells : Content) → C.seen c.old ≡ Some cells
        → IfOk result (λ k. All (IsEntryOf (head_cell cells column)) k.entries.items) }
    ensures faults { (cells : Content) → C.seen c.old ≡ Some cells → IfErr result (FaultSays (BreaksColumn cells column) NoTier) }
    ensures sound { (cells : Content) (base : ℕ) (content : ColumnMap) → C.seen c.old ≡ Some cells
        → HoldsColumn cells column base content
        → IfErr result (FaultSays NoCell NoTier) }
{
    let head = read_head(c, column)?;
    let Some(base) = base_of(&head) else {
        return Err(ValueFault::Damaged {
            file: HEAD_FILE,
            cell: u64::from(column),
        });
    };
    let number = chunk_of(base, key);
    let name = chunk_name(column, base, number);
    let mut cell = [0; 512];
    c.cell(name, &mut cell)?;
    let entries = read_chunk(&cell);
    if !are_entries(&head, entries.as_slice()) {
        return Err(ValueFault::Damaged {
            file: name.file,
            cell: number,
        });
    }
    Ok(KeyChunk {
        base,
        number,
        entries,
    })
}

/// Puts a chunk, which has 64 entries. Its number is below 2^32. An `Err` puts nothing.
pub(crate) fn put_key_chunk<C: Cells>(
    d: &mut Draft<'_, C>,
    column: u8,
    chunk: &KeyChunk,
) -> Result<(), OutOfMemory>
    requires column { column ≤ 1 }
    requires places { array_vec_len chunk.now.entries ≡ 64 }
    requires number { chunk.now.number < 2 ^ 32 }
    ensures same_reference { d.new.under.ghost_name ≡ d.old.under.ghost_name }
    ensures below { d.new.under.now ≡ d.old.under.now }
    ensures cells { (cells : Content) → Drafts d.old.puts (C.seen d.old.under.now) cells
        → OnOk result (Drafts d.new.puts (C.seen d.new.under.now)
        (put_cell (index_file column chunk.now.base) chunk.now.number (spelled chunk.now.entries.items) cells)) }
    ensures err { OnErr result (d.new.puts ≡ d.old.puts) }
{
    let name = chunk_name(column, chunk.base, chunk.number);
    let bytes = chunk_bytes(&chunk.entries);
    d.put(name, &bytes)
}
