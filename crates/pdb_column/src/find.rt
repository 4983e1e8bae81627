ghost use Rattle.std.specs.Prelude.{◌≡◌, ◌≢◌, ◌≤◌, ◌<◌, ℕ, IfOk, IfErr, IfSome, IsFalse, MatchOption, Some, None};
ghost use Rattle.sdb_io.specs.Faults.{CountsFault};
ghost use Rattle.pdb_cells.specs.Content.{Content};
ghost use Rattle.pdb_model.specs.Chunks.{entry_tier};
ghost use Rattle.pdb_model.specs.Tables.{Held};
ghost use Rattle.pdb_value.specs.Faults.{FaultSays, NoCell, NoTier, disk_fails};
ghost use Rattle.pdb_column.specs.Damages.{BreaksColumn};
ghost use Rattle.pdb_column.specs.Holding.{HoldsColumn};
ghost use Rattle.pdb_column.specs.Maps.{ColumnMap};
ghost use Rattle.pdb_column.specs.inner.Changes.{IsHeldAt, IsHit, IsOfKey};
ghost use Rattle.pdb_column.specs.inner.KeyChunks.{HasKeyChunk, HaveTiers, NamesHeld};

use crate::key_chunk::KeyChunk;
use pdb_cells::Cells;
use pdb_index::{address, matches};
use pdb_model::Address;
use pdb_value::{ValueFault, count};
use std::alloc::Global;

/// Where a key's entry stands in its chunk, and where its value lies.
#[derive(Clone, Copy)]
pub(crate) struct Hit {
    pub(crate) place: usize,
    pub(crate) at: Address,
}

// whether an entry names a value of a key
fn is_of_key<C: Cells>(
    alloc: Global,
    c: &mut C,
    column: u8,
    base: u8,
    entry: u64,
    key: &[u8; 32],
) -> Result<bool, ValueFault>
    requires column { column ≤ 1 }
    requires base { base ≤ 16 }
    requires tier { entry_tier entry ≤ 15 }
    ensures keeps { C.same c.old c.new }
    ensures counted { CountsFault (disk_fails result) (C.fault_count c.old) (C.fault_count c.new) }
    ensures stays { (cells : Content) → C.seen c.old ≡ Some cells → C.seen c.new ≡ Some cells }
    ensures empty { IfOk result (λ found. entry ≡ 0 → IsFalse found) }
    ensures held { (cells : Content) (h : Held) → C.seen c.old ≡ Some cells → entry ≢ 0 → NamesHeld cells column entry h
        → IfOk result (IsOfKey base entry h key.now) }
    ensures faults { (cells : Content) → C.seen c.old ≡ Some cells → IfErr result (FaultSays (BreaksColumn cells column) NoTier) }
    ensures sound { (cells : Content) → C.seen c.old ≡ Some cells → (entry ≢ 0 → (h : Held) × NamesHeld cells column entry h)
        → IfErr result (FaultSays NoCell NoTier) }
{
    if entry == 0 || !matches(base, key, entry) {
        return Ok(false);
    }
    let counted = count(alloc, c, column, address(entry), key)?;
    Ok(counted.is_some())
}

/// Finds a key's entry in its chunk, and the address of its value; None where the column has nothing under the key.
pub(crate) fn find<C: Cells>(
    alloc: Global,
    c: &mut C,
    column: u8,
    chunk: &KeyChunk,
    key: &[u8; 32],
) -> Result<Option<Hit>, ValueFault>
    requires column { column ≤ 1 }
    requires base { chunk.now.base ≤ 16 }
    requires tiers { HaveTiers chunk.now.entries.items }
    ensures keeps { C.same c.old c.new }
    ensures counted { CountsFault (disk_fails result) (C.fault_count c.old) (C.fault_count c.new) }
    ensures stays { (cells : Content) → C.seen c.old ≡ Some cells → C.seen c.new ≡ Some cells }
    ensures hit { IfOk result (λ found. IfSome found (λ hit. IsHit chunk.now.entries.items hit.place hit.at.tier hit.at.slot)) }
    ensures found { (cells : Content) (base : ℕ) (content : ColumnMap) → C.seen c.old ≡ Some cells
        → (holds : HoldsColumn cells column base content)
        → HasKeyChunk cells column key.now chunk.now.base chunk.now.entries.items
        → IfOk result (λ found. MatchOption found (content key.now ≡ None)
        (λ hit. IsHeldAt holds.picture content key.now hit.at.tier hit.at.slot)) }
    ensures faults { (cells : Content) → C.seen c.old ≡ Some cells → IfErr result (FaultSays (BreaksColumn cells column) NoTier) }
    ensures sound { (cells : Content) (base : ℕ) (content : ColumnMap) → C.seen c.old ≡ Some cells
        → HoldsColumn cells column base content
        → HasKeyChunk cells column key.now chunk.now.base chunk.now.entries.items → IfErr result (FaultSays NoCell NoTier) }
{
    let base = chunk.base;
    let entries = chunk.entries.as_slice();
    for place in 0..entries.len() {
        let entry = entries[place];
        let found = is_of_key(alloc, c, column, base, entry, key)?;
        if found {
            let at = address(entry);
            return Ok(Some(Hit { place, at }));
        }
    }
    Ok(None)
}
