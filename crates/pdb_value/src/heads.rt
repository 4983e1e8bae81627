ghost use Rattle.std.specs.Prelude.{◌≡◌, ◌<◌, ◌≤◌, ◌+◌, ◌*◌, ◌^◌, ◌↔◌, ◌∷◌, [], ℕ, IsTrue, IfOk, IfErr, MatchOption, Some, length, take, slice_range};
ghost use Rattle.sdb_io.specs.Faults.{CountsFault};
ghost use Rattle.pdb_cells.specs.Content.{Content};
ghost use Rattle.pdb_model.specs.Breaks.{IsBrokenHead};
ghost use Rattle.pdb_model.specs.Files.{head_cell};
ghost use Rattle.pdb_model.specs.Heads.{Ends, IsHeadCell, ends_at, ends_bytes, ends_place};
ghost use Rattle.pdb_value.specs.Faults.{FaultSays, NoTier, disk_fails};
ghost use Rattle.pdb_value.specs.inner.HeadCells.{AreBits, KeepsEnds, with_ends};

use crate::fault::ValueFault;
use crate::reading::is_zeros;
use pdb_cells::{CellName, Cells, HEAD_FILE};

/// What a head cell says of a tier.
#[derive(Clone, Copy, Debug, PartialEq, Eq)]
pub struct TierEnds {
    /// The first free slot, 0 for none.
    pub free: u32,
    /// The end: the highest slot that was ever used, 0 for none.
    pub end: u32,
}

// what a head cell says of its column's indexes
#[derive(Clone, Copy)]
struct Bits {
    base: u8,
    bits: u8,
    growing: u8,
}

// the place of a tier's ends in a head cell
fn place_of(tier: u8) -> usize
    ensures place { result ≡ ends_place tier }
    ensures range { tier ≤ 15 → result ≤ 124 }
{
    4 + 8 * usize::from(tier)
}

// the ends that 8 bytes spell
fn read_ends(bytes: &[u8]) -> TierEnds
    requires { length bytes.now ≡ 8 }
    ensures { bytes.now ≡ ends_bytes (record { free = result.free; end = result.end }) }
{
    let [f0, f1, f2, f3, e0, e1, e2, e3] = bytes else {
        unreachable!()
    };
    TierEnds {
        free: u32::from_le_bytes([*f0, *f1, *f2, *f3]),
        end: u32::from_le_bytes([*e0, *e1, *e2, *e3]),
    }
}

/// What a head cell, of 256 bytes, says of a tier, which is at most 15.
pub fn ends_of(head: &[u8], tier: u8) -> TierEnds
    requires sized { length head.now ≡ 256 }
    requires tier { tier ≤ 15 }
    ensures { ends_at tier head.now ≡ ends_bytes (record { free = result.free; end = result.end }) }
{
    let at = place_of(tier);
    read_ends(&head[at..at + 8])
}

// spells these ends
fn write_ends(bytes: &mut [u8], ends: TierEnds)
    requires { length bytes.old ≡ 8 }
    ensures { bytes.new ≡ ends_bytes (record { free = ends.free; end = ends.end }) }
{
    bytes[..4].copy_from_slice(&ends.free.to_le_bytes());
    bytes[4..].copy_from_slice(&ends.end.to_le_bytes());
}

/// Sets the ends of a tier in a head cell.
pub(crate) fn set_ends(head: &mut [u8], tier: u8, ends: TierEnds)
    requires sized { length head.old ≡ 256 }
    requires tier { tier ≤ 15 }
    ensures { head.new ≡ with_ends tier head.old (record { free = ends.free; end = ends.end }) }
{
    let at = place_of(tier);
    write_ends(&mut head[at..at + 8], ends);
}

// what a cell says of its column's indexes; None exactly where its first byte isn't 1
fn read_bits(cell: &[u8]) -> Option<Bits>
    requires { length cell.now ≡ 256 }
    ensures { MatchOption result ((base bits growing : ℕ) → take 4 cell.now ≡ 1 ∷ (base ∷ (bits ∷ (growing ∷ []))) → ⊥)
        (λ r. take 4 cell.now ≡ 1 ∷ (r.base ∷ (r.bits ∷ (r.growing ∷ [])))) }
{
    let [1, base, bits, growing, ..] = cell else {
        return None;
    };
    Some(Bits {
        base: *base,
        bits: *bits,
        growing: *growing,
    })
}

// whether the bits keep the rules of a head
fn are_bits(it: Bits) -> bool
    ensures { IsTrue result ↔ AreBits it.base it.bits it.growing }
{
    it.base <= 16
        && it.base <= it.bits
        && it.bits <= it.base + 14
        && it.growing <= 1
        && (it.growing == 0 || it.base < it.bits)
}

// whether no first free slot is above its tier's end
fn are_ends(cell: &[u8]) -> bool
    requires { length cell.now ≡ 256 }
    ensures { IsTrue result ↔ ((tier : ℕ) → tier < 16 → KeepsEnds cell.now tier) }
{
    for tier in 0..16u8 {
        let ends = ends_of(cell, tier);
        if ends.end < ends.free {
            return false;
        }
    }
    true
}

/// Whether a cell, of 256 bytes, is a head cell that keeps the rules.
pub fn is_head(cell: &[u8]) -> bool
    requires { length cell.now ≡ 256 }
    ensures { IsTrue result ↔ IsHeadCell cell.now }
{
    let Some(bits) = read_bits(cell) else {
        return false;
    };
    if !are_bits(bits) || !are_ends(cell) {
        return false;
    }
    is_zeros(&cell[132..])
}

/// A column's head cell, which keeps the rules. `Damaged` names the head cell where it breaks them, and `Disk` comes only
/// where the count of faults of the cells rises.
pub fn read_head<C: Cells>(c: &mut C, column: u8) -> Result<[u8; 256], ValueFault>
    ensures keeps { C.same c.old c.new }
    ensures counted { CountsFault (disk_fails result) (C.fault_count c.old) (C.fault_count c.new) }
    ensures reads { C.read_count c.new ≡ C.read_count c.old }
    ensures stays { (cells : Content) → C.seen c.old ≡ Some cells → C.seen c.new ≡ Some cells }
    ensures head { IfOk result IsHeadCell }
    ensures cell { (cells : Content) → C.seen c.old ≡ Some cells → IfOk result (λ head. head ≡ head_cell cells column) }
    ensures faults { (cells : Content) → C.seen c.old ≡ Some cells
        → IfErr result (FaultSays (IsBrokenHead cells column) NoTier) }
{
    let mut head = [0; 256];
    let name = CellName {
        file: HEAD_FILE,
        index: u64::from(column),
    };
    c.cell(name, &mut head)?;
    if is_head(&head) {
        Ok(head)
    } else {
        Err(ValueFault::Damaged {
            file: HEAD_FILE,
            cell: u64::from(column),
        })
    }
}
