ghost use Rattle.std.specs.Prelude.{◌≡◌, ◌≤◌, ◌+◌, ◌<◌, ◌^◌, ℕ, List, ◌++◌, IfOk, length, take, drop};
ghost use Rattle.pdb_model.specs.Slots.{free_bytes, head_bytes, padded, part_bytes, whole_bytes};
ghost use Rattle.pdb_model.specs.Tiers.{before_value, in_head, in_part, parts_tier, slot_size, tier_of};
ghost use Rattle.pdb_value.specs.inner.Fields.{counted_bytes};

use crate::tiers::{PARTS_TIER, slot_len};
use std::alloc::{AllocError, Global};

/// The cell of a whole value.
#[tactic(auto, unfolding(pdb_model::specs::Slots::whole_bytes))]
pub(crate) fn whole_cell(
    alloc: Global,
    tier: u8,
    key: &[u8; 32],
    count: u64,
    value: &[u8],
) -> Result<Vec<u8>, AllocError>
    requires tier { tier ≤ 15 }
    requires fits { before_value + length value.now ≤ slot_size tier }
    ensures cell { IfOk result (λ v. v.items ≡ padded (slot_size tier) (whole_bytes key.now count value.now)) }
    ensures len { IfOk result (λ v. length v.items ≡ slot_size tier) }
{
    let size = slot_len(tier);
    let mut cell = Vec::with_capacity(alloc, size)?;
    cell.push(1)?;
    cell.push(0)?;
    cell.extend_from_slice(&(value.len() as u16).to_le_bytes())?;
    cell.extend_from_slice(&count.to_le_bytes())?;
    cell.extend_from_slice(key)?;
    cell.extend_from_slice(value)?;
    cell.resize(size, 0)?;
    Ok(cell)
}

/// The cell of the head of a value in parts: `value` has the first 4,044 of its bytes.
#[tactic(auto, unfolding(pdb_model::specs::Slots::head_bytes))]
pub(crate) fn head_of_parts_cell(
    alloc: Global,
    key: &[u8; 32],
    count: u64,
    whole: u32,
    next: u32,
    value: &[u8],
) -> Result<Vec<u8>, AllocError>
    requires { length value.now ≡ in_head }
    ensures cell { IfOk result (λ v. v.items ≡ head_bytes key.now count whole next value.now) }
    ensures len { IfOk result (λ v. length v.items ≡ slot_size parts_tier) }
{
    let mut cell = Vec::with_capacity(alloc, 4096)?;
    cell.push(2)?;
    cell.push(0)?;
    cell.extend_from_slice(&4044u16.to_le_bytes())?;
    cell.extend_from_slice(&count.to_le_bytes())?;
    cell.extend_from_slice(key)?;
    cell.extend_from_slice(&whole.to_le_bytes())?;
    cell.extend_from_slice(&next.to_le_bytes())?;
    cell.extend_from_slice(value)?;
    Ok(cell)
}

/// The cell of a further part.
#[tactic(auto, unfolding(pdb_model::specs::Slots::part_bytes))]
pub(crate) fn part_cell(alloc: Global, next: u32, value: &[u8]) -> Result<Vec<u8>, AllocError>
    requires { length value.now ≤ in_part }
    ensures cell { IfOk result (λ v. v.items ≡ padded (slot_size parts_tier) (part_bytes next value.now)) }
    ensures len { IfOk result (λ v. length v.items ≡ slot_size parts_tier) }
{
    let size = slot_len(PARTS_TIER);
    let mut cell = Vec::with_capacity(alloc, size)?;
    cell.push(3)?;
    cell.push(0)?;
    cell.extend_from_slice(&(value.len() as u16).to_le_bytes())?;
    cell.extend_from_slice(&next.to_le_bytes())?;
    cell.extend_from_slice(value)?;
    cell.resize(size, 0)?;
    Ok(cell)
}

/// The cell of a tier's free slot.
#[tactic(auto, unfolding(pdb_model::specs::Slots::free_bytes))]
pub(crate) fn free_cell(alloc: Global, tier: u8, next: u32) -> Result<Vec<u8>, AllocError>
    requires { tier ≤ 15 }
    ensures cell { IfOk result (λ v. v.items ≡ padded (slot_size tier) (free_bytes next)) }
    ensures len { IfOk result (λ v. length v.items ≡ slot_size tier) }
{
    let size = slot_len(tier);
    let mut cell = Vec::with_capacity(alloc, size)?;
    cell.extend_from_slice(&[4, 0, 0, 0])?;
    cell.extend_from_slice(&next.to_le_bytes())?;
    cell.resize(size, 0)?;
    Ok(cell)
}

/// Sets the count of a value's first slot.
#[tactic(auto, unfolding(crate::specs::inner::Fields::counted_bytes))]
pub(crate) fn set_count(cell: &mut Vec<u8>, count: u64)
    requires { 44 ≤ length cell.old.items }
    ensures len { length cell.new.items ≡ length cell.old.items }
    ensures count { (kind len n : ℕ) (rest : List ℕ) → cell.old.items ≡ counted_bytes kind len n rest
        → cell.new.items ≡ counted_bytes kind len count rest }
{
    cell[4..12].copy_from_slice(&count.to_le_bytes());
}
