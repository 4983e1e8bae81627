ghost use Rattle.std.specs.Prelude.{◌≡◌, ◌≤◌, ◌+◌, ◌<◌, ◌^◌, ◌↔◌, ℕ, List, IfSome, MatchOption, IsTrue, ◌++◌, length, replicate};
ghost use Rattle.std.specs.Int.{w32, w64, to_le_bytes};
ghost use Rattle.pdb_model.specs.Slots.{IsFree, IsHeadOfParts, IsPart, IsWhole};
ghost use Rattle.pdb_model.specs.Tiers.{parts_tier, slot_size};
ghost use Rattle.pdb_value.specs.inner.Fields.{counted_bytes, linked_bytes};

use crate::tiers::{PARTS_TIER, tier_for};

/// A whole value, borrowed from its cell.
#[derive(Clone, Copy)]
pub(crate) struct Whole<'a> {
    pub(crate) key: &'a [u8],
    pub(crate) count: u64,
    pub(crate) value: &'a [u8],
}

/// The head of a value in parts, borrowed from its cell.
#[derive(Clone, Copy)]
pub(crate) struct HeadOfParts<'a> {
    pub(crate) key: &'a [u8],
    pub(crate) count: u64,
    pub(crate) whole: u32,
    pub(crate) next: u32,
    pub(crate) value: &'a [u8],
}

/// A further part, borrowed from its cell.
#[derive(Clone, Copy)]
pub(crate) struct Part<'a> {
    pub(crate) next: u32,
    pub(crate) value: &'a [u8],
}

// the first fields of a value's first slot, and the rest
#[derive(Clone, Copy)]
struct Counted<'a> {
    kind: u8,
    len: usize,
    count: u64,
    rest: &'a [u8],
}

// the first fields of a further part and of a free slot, and the rest
#[derive(Clone, Copy)]
struct Linked<'a> {
    kind: u8,
    len: usize,
    next: u32,
    rest: &'a [u8],
}

/// Whether all bytes are zeros.
pub(crate) fn is_zeros(bytes: &[u8]) -> bool
    ensures { IsTrue result ↔ (bytes.now ≡ replicate (length bytes.now) 0) }
{
    bytes.iter().all(|byte| *byte == 0)
}

// a number of 8 bytes, and what follows it
fn read_u64(bytes: &[u8]) -> (u64, &[u8])
    requires { 8 ≤ length bytes.now }
    ensures parts { bytes.now ≡ to_le_bytes w64 result.0 ++ result.1.now }
    ensures len { length result.1.now + 8 ≡ length bytes.now }
{
    let [c0, c1, c2, c3, c4, c5, c6, c7, rest @ ..] = bytes else {
        unreachable!()
    };
    let n = u64::from_le_bytes([*c0, *c1, *c2, *c3, *c4, *c5, *c6, *c7]);
    (n, rest)
}

// a number of 4 bytes, and what follows it
fn read_u32(bytes: &[u8]) -> (u32, &[u8])
    requires { 4 ≤ length bytes.now }
    ensures parts { bytes.now ≡ to_le_bytes w32 result.0 ++ result.1.now }
    ensures len { length result.1.now + 4 ≡ length bytes.now }
{
    let [c0, c1, c2, c3, rest @ ..] = bytes else {
        unreachable!()
    };
    (u32::from_le_bytes([*c0, *c1, *c2, *c3]), rest)
}

// the first fields of a value's first slot; None exactly where byte 1 isn't 0
#[tactic(auto, unfolding(crate::specs::inner::Fields::counted_bytes))]
fn read_counted(cell: &[u8]) -> Option<Counted<'_>>
    requires { 44 ≤ length cell.now }
    ensures spelled { MatchOption result ((kind len count : ℕ) (rest : List ℕ) → cell.now ≡ counted_bytes kind len count rest → ⊥)
        (λ r. cell.now ≡ counted_bytes r.kind r.len r.count r.rest.now) }
    ensures len { IfSome result (λ r. (r.len < 2 ^ 16) × (r.count < 2 ^ 64) × (length r.rest.now + 12 ≡ length cell.now)) }
{
    let [kind, 0, l0, l1, rest @ ..] = cell else {
        return None;
    };
    let len = u16::from_le_bytes([*l0, *l1]);
    let (count, rest) = read_u64(rest);
    Some(Counted {
        kind: *kind,
        len: usize::from(len),
        count,
        rest,
    })
}

// the first fields of a further part or a free slot; None exactly where byte 1 isn't 0
#[tactic(auto, unfolding(crate::specs::inner::Fields::linked_bytes))]
fn read_linked(cell: &[u8]) -> Option<Linked<'_>>
    requires { 8 ≤ length cell.now }
    ensures spelled { MatchOption result ((kind len next : ℕ) (rest : List ℕ) → cell.now ≡ linked_bytes kind len next rest → ⊥)
        (λ r. cell.now ≡ linked_bytes r.kind r.len r.next r.rest.now) }
    ensures len { IfSome result (λ r. (r.len < 2 ^ 16) × (r.next < 2 ^ 32) × (length r.rest.now + 8 ≡ length cell.now)) }
{
    let [kind, 0, l0, l1, rest @ ..] = cell else {
        return None;
    };
    let len = u16::from_le_bytes([*l0, *l1]);
    let (next, rest) = read_u32(rest);
    Some(Linked {
        kind: *kind,
        len: usize::from(len),
        next,
        rest,
    })
}

/// The whole value of a tier's cell. None exactly where it spells none.
pub(crate) fn read_whole(tier: u8, cell: &[u8]) -> Option<Whole<'_>>
    requires tier { tier < parts_tier }
    requires sized { length cell.now ≡ slot_size tier }
    requires range { (64 ≤ length cell.now) × (length cell.now ≤ 32768) }
    ensures { MatchOption result ((key : List ℕ) (count : ℕ) (value : List ℕ) → IsWhole tier cell.now key count value → ⊥)
        (λ w. IsWhole tier cell.now w.key.now w.count w.value.now) }
{
    let Some(first) = read_counted(cell) else {
        return None;
    };
    let (key, rest) = first.rest.split_at(32);
    if first.kind != 1 || first.count == 0 || tier_for(first.len) != tier {
        return None;
    }
    let (value, padding) = rest.split_at(first.len);
    if !is_zeros(padding) {
        return None;
    }
    Some(Whole {
        key,
        count: first.count,
        value,
    })
}

/// The head of a value in parts that a cell spells. None exactly where it spells none.
pub(crate) fn read_head_of_parts(cell: &[u8]) -> Option<HeadOfParts<'_>>
    requires { length cell.now ≡ 4096 }
    ensures { MatchOption result ((key : List ℕ) (count whole next : ℕ) (value : List ℕ) → IsHeadOfParts cell.now key count whole next value → ⊥)
        (λ h. IsHeadOfParts cell.now h.key.now h.count h.whole h.next h.value.now) }
{
    let Some(first) = read_counted(cell) else {
        return None;
    };
    let (key, rest) = first.rest.split_at(32);
    let (whole, rest) = read_u32(rest);
    let (next, value) = read_u32(rest);
    if first.kind != 2 || first.len != 4044 || first.count == 0 {
        return None;
    }
    if whole > 8_388_608 || tier_for(whole as usize) != PARTS_TIER {
        return None;
    }
    Some(HeadOfParts {
        key,
        count: first.count,
        whole,
        next,
        value,
    })
}

/// The further part that a cell spells. None exactly where it spells none.
pub(crate) fn read_part(cell: &[u8]) -> Option<Part<'_>>
    requires { length cell.now ≡ 4096 }
    ensures { MatchOption result ((next : ℕ) (value : List ℕ) → IsPart cell.now next value → ⊥) (λ p. IsPart cell.now p.next p.value.now) }
{
    let Some(first) = read_linked(cell) else {
        return None;
    };
    if first.kind != 3 || first.len > 4088 {
        return None;
    }
    let (value, padding) = first.rest.split_at(first.len);
    if !is_zeros(padding) {
        return None;
    }
    Some(Part {
        next: first.next,
        value,
    })
}

/// The next free slot that a tier's free slot names. None exactly where the cell spells no free slot.
pub(crate) fn read_free(tier: u8, cell: &[u8]) -> Option<u32>
    requires sized { length cell.now ≡ slot_size tier }
    requires range { 64 ≤ length cell.now }
    ensures { MatchOption result ((next : ℕ) → IsFree tier cell.now next → ⊥) (λ next. IsFree tier cell.now next) }
{
    let Some(first) = read_linked(cell) else {
        return None;
    };
    if first.kind != 4 || first.len != 0 || !is_zeros(first.rest) {
        return None;
    }
    Some(first.next)
}
