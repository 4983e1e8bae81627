ghost use Rattle.std.specs.Prelude.{◌≡◌, ◌≤◌, ◌<◌, ◌+◌, ℕ, List, All, IfOk, OnOk, IfErr, length, slice_index};
ghost use Rattle.sdb_io.specs.Faults.{CountsFault};
ghost use Rattle.pdb_cells.specs.Content.{Content};
ghost use Rattle.pdb_model.specs.Files.{OnlyTable, head_cell};
ghost use Rattle.pdb_model.specs.Heads.{IsHeadCell};
ghost use Rattle.pdb_model.specs.Tables.{Table, next_slot, placed, room_of, slots_of};
ghost use Rattle.pdb_model.specs.Tiers.{before_value, parts_tier, slot_size, tier_of};
ghost use Rattle.pdb_value.specs.Faults.{BreaksFreeList, Drafts, FaultSays, HasTable, IsFullTier, NoCell, disk_fails};
ghost use Rattle.pdb_value.specs.inner.Many.{AreTaken, AreWritten};

use crate::cells::put_slot;
use crate::fault::ValueFault;
use crate::parts::{IN_HEAD, IN_PART};
use crate::slots::take_slot;
use crate::tiers::{PARTS_TIER, tier_for};
use crate::writing::{head_of_parts_cell, part_cell, whole_cell};
use pdb_cells::{Cells, Draft, OutOfMemory};
use pdb_model::Address;
use std::alloc::Global;

// takes so many slots of the tier of values in parts, one after the other
fn take_slots<C: Cells>(
    alloc: Global,
    d: &mut Draft<'_, C>,
    column: u8,
    count: usize,
) -> Result<Vec<u32>, ValueFault>
    requires column { column ≤ 1 }
    ensures same_reference { d.new.under.ghost_name ≡ d.old.under.ghost_name }
    ensures keeps { C.same d.old.under.now d.new.under.now }
    ensures counted { CountsFault (disk_fails result) (C.fault_count d.old.under.now) (C.fault_count d.new.under.now) }
    ensures len { IfOk result (λ slots. length slots.items ≡ count) }
    ensures slots { IfOk result (λ slots. All (λ slot. 1 ≤ slot) slots.items) }
    ensures taken { (cells : Content) → Drafts d.old.puts (C.seen d.old.under.now) cells
        → IfOk result (λ slots. (after : Content) × Drafts d.new.puts (C.seen d.new.under.now) after × AreTaken column count cells after slots.items) }
    ensures faults { (cells : Content) → Drafts d.old.puts (C.seen d.old.under.now) cells
        → IfErr result (FaultSays (λ file cell. (after : Content) × Drafts d.new.puts (C.seen d.new.under.now) after
        × BreaksFreeList column parts_tier after file cell)
        (λ u. (after : Content) × Drafts d.new.puts (C.seen d.new.under.now) after × (u ≡ parts_tier) × IsFullTier after column parts_tier)) }
    ensures sound { (cells : Content) (t : Table) → Drafts d.old.puts (C.seen d.old.under.now) cells → IsHeadCell (head_cell cells column)
        → HasTable cells column parts_tier t → IfErr result (FaultSays NoCell (λ u. (u ≡ parts_tier) × (room_of t < count))) }
{
    let mut slots = Vec::with_capacity(alloc, count)?;
    while slots.len() < count {
        let slot = take_slot(alloc, d, column, PARTS_TIER)?;
        slots.push(slot)?;
    }
    Ok(slots)
}

// the slot after one on a list, 0 after the last
fn slot_after(slots: &[u32], i: usize) -> u32
    requires { i < length slots.now }
    ensures { result ≡ slice_index slots.now (i + 1) }
{
    if i + 1 < slots.len() { slots[i + 1] } else { 0 }
}

// puts the cells of further parts, one in each of these slots, with these bytes
fn put_parts<C: Cells>(
    alloc: Global,
    d: &mut Draft<'_, C>,
    column: u8,
    slots: &[u32],
    bytes: &[u8],
) -> Result<(), OutOfMemory>
    requires column { column ≤ 1 }
    ensures same_reference { d.new.under.ghost_name ≡ d.old.under.ghost_name }
    ensures below { d.new.under.now ≡ d.old.under.now }
    ensures written { (cells : Content) → Drafts d.old.puts (C.seen d.old.under.now) cells
        → OnOk result ((after : Content) × Drafts d.new.puts (C.seen d.new.under.now) after × AreWritten column slots.now bytes.now (length slots.now) cells after) }
{
    let mut i = 0;
    let mut left = bytes;
    while i < slots.len() {
        let next = slot_after(slots, i);
        let (here, rest) = left.split_at(left.len().min(IN_PART));
        let cell = part_cell(alloc, next, here)?;
        put_slot(d, column, PARTS_TIER, slots[i], &cell)?;
        left = rest;
        i += 1;
    }
    Ok(())
}

// places a value in a tier for whole values
fn place_whole<C: Cells>(
    alloc: Global,
    d: &mut Draft<'_, C>,
    column: u8,
    tier: u8,
    key: &[u8; 32],
    count: u64,
    bytes: &[u8],
) -> Result<u32, ValueFault>
    requires column { column ≤ 1 }
    requires tier { tier < parts_tier }
    requires lowest { tier ≡ tier_of (length bytes.now) }
    requires fits { before_value + length bytes.now ≤ slot_size tier }
    requires count { 1 ≤ count }
    ensures same_reference { d.new.under.ghost_name ≡ d.old.under.ghost_name }
    ensures keeps { C.same d.old.under.now d.new.under.now }
    ensures counted { CountsFault (disk_fails result) (C.fault_count d.old.under.now) (C.fault_count d.new.under.now) }
    ensures slot { IfOk result (λ slot. 1 ≤ slot) }
    ensures only { (cells : Content) → Drafts d.old.puts (C.seen d.old.under.now) cells
        → OnOk result ((after : Content) × Drafts d.new.puts (C.seen d.new.under.now) after × OnlyTable column tier cells after
        × IsHeadCell (head_cell after column)) }
    ensures placed { (cells : Content) (t : Table) → Drafts d.old.puts (C.seen d.old.under.now) cells → HasTable cells column tier t
        → IfOk result (λ slot. (slot ≡ next_slot t.free t.end) × (slots_of (length bytes.now) ≤ room_of t)
        × ((after : Content) × Drafts d.new.puts (C.seen d.new.under.now) after × HasTable after column tier (placed t key.now count bytes.now))) }
    ensures faults { (cells : Content) → Drafts d.old.puts (C.seen d.old.under.now) cells
        → IfErr result (FaultSays (λ file cell. (after : Content) × Drafts d.new.puts (C.seen d.new.under.now) after
        × BreaksFreeList column tier after file cell)
        (λ u. (after : Content) × Drafts d.new.puts (C.seen d.new.under.now) after × (u ≡ tier) × IsFullTier after column tier)) }
    ensures sound { (cells : Content) (t : Table) → Drafts d.old.puts (C.seen d.old.under.now) cells → IsHeadCell (head_cell cells column)
        → HasTable cells column tier t → IfErr result (FaultSays NoCell (λ u. (u ≡ tier) × (room_of t < slots_of (length bytes.now)))) }
{
    let cell = whole_cell(alloc, tier, key, count, bytes)?;
    let slot = take_slot(alloc, d, column, tier)?;
    put_slot(d, column, tier, slot, &cell)?;
    Ok(slot)
}

// places a value in parts
fn place_parts<C: Cells>(
    alloc: Global,
    d: &mut Draft<'_, C>,
    column: u8,
    key: &[u8; 32],
    count: u64,
    bytes: &[u8],
) -> Result<u32, ValueFault>
    requires column { column ≤ 1 }
    requires long { parts_tier ≡ tier_of (length bytes.now) }
    requires len { length bytes.now ≤ 8388608 }
    requires count { 1 ≤ count }
    ensures same_reference { d.new.under.ghost_name ≡ d.old.under.ghost_name }
    ensures keeps { C.same d.old.under.now d.new.under.now }
    ensures counted { CountsFault (disk_fails result) (C.fault_count d.old.under.now) (C.fault_count d.new.under.now) }
    ensures slot { IfOk result (λ slot. 1 ≤ slot) }
    ensures only { (cells : Content) → Drafts d.old.puts (C.seen d.old.under.now) cells
        → OnOk result ((after : Content) × Drafts d.new.puts (C.seen d.new.under.now) after × OnlyTable column parts_tier cells after
        × IsHeadCell (head_cell after column)) }
    ensures placed { (cells : Content) (t : Table) → Drafts d.old.puts (C.seen d.old.under.now) cells → HasTable cells column parts_tier t
        → IfOk result (λ slot. (slot ≡ next_slot t.free t.end) × (slots_of (length bytes.now) ≤ room_of t)
        × ((after : Content) × Drafts d.new.puts (C.seen d.new.under.now) after
        × HasTable after column parts_tier (placed t key.now count bytes.now))) }
    ensures faults { (cells : Content) → Drafts d.old.puts (C.seen d.old.under.now) cells
        → IfErr result (FaultSays (λ file cell. (after : Content) × Drafts d.new.puts (C.seen d.new.under.now) after
        × BreaksFreeList column parts_tier after file cell)
        (λ u. (after : Content) × Drafts d.new.puts (C.seen d.new.under.now) after × (u ≡ parts_tier) × IsFullTier after column parts_tier)) }
    ensures sound { (cells : Content) (t : Table) → Drafts d.old.puts (C.seen d.old.under.now) cells → IsHeadCell (head_cell cells column)
        → HasTable cells column parts_tier t → IfErr result (FaultSays NoCell (λ u. (u ≡ parts_tier) × (room_of t < slots_of (length bytes.now)))) }
{
    let (front, others) = bytes.split_at(IN_HEAD);
    let parts = (others.len() + (IN_PART - 1)) / IN_PART;
    let slots = take_slots(alloc, d, column, 1 + parts)?;
    let head = slots[0];
    put_parts(alloc, d, column, &slots[1..], others)?;
    let next = slot_after(&slots, 0);
    let cell = head_of_parts_cell(alloc, key, count, bytes.len() as u32, next, front)?;
    put_slot(d, column, PARTS_TIER, head, &cell)?;
    Ok(head)
}

/// Places a value with its key and count, which is at least 1, and answers where. It has at most 8,388,608 bytes. Its
/// slots are taken head first, each the first free one of the value's tier, else the one past its end.
///
/// `TierFull` comes only where a slot is needed, none of the tier is free and its end is the last one. `Damaged` names
/// the column's head cell or a slot on the tier's free list that breaks the rules, `Disk` comes only where the count of
/// faults of the cells rises, and `OutOfMemory` only for want of memory. After an `Err` the draft may have a part of
/// the change.
pub fn place<C: Cells>(
    alloc: Global,
    d: &mut Draft<'_, C>,
    column: u8,
    key: &[u8; 32],
    count: u64,
    bytes: &[u8],
) -> Result<Address, ValueFault>
    requires column { column ≤ 1 }
    requires count { 1 ≤ count }
    requires len { length bytes.now ≤ 8388608 }
    ensures same_reference { d.new.under.ghost_name ≡ d.old.under.ghost_name }
    ensures keeps { C.same d.old.under.now d.new.under.now }
    ensures counted { CountsFault (disk_fails result) (C.fault_count d.old.under.now) (C.fault_count d.new.under.now) }
    ensures tier { IfOk result (λ at. at.tier ≡ tier_of (length bytes.now)) }
    ensures slot { IfOk result (λ at. 1 ≤ at.slot) }
    ensures only { (cells : Content) → Drafts d.old.puts (C.seen d.old.under.now) cells
        → IfOk result (λ at. (after : Content) × Drafts d.new.puts (C.seen d.new.under.now) after × OnlyTable column at.tier cells after
        × IsHeadCell (head_cell after column)) }
    ensures placed { (cells : Content) (t : Table) → Drafts d.old.puts (C.seen d.old.under.now) cells
        → HasTable cells column (tier_of (length bytes.now)) t
        → IfOk result (λ at. (at.slot ≡ next_slot t.free t.end) × (slots_of (length bytes.now) ≤ room_of t)
        × ((after : Content) × Drafts d.new.puts (C.seen d.new.under.now) after × HasTable after column at.tier (placed t key.now count bytes.now))) }
    ensures faults { (cells : Content) → Drafts d.old.puts (C.seen d.old.under.now) cells
        → IfErr result (FaultSays (λ file cell. (after : Content) × Drafts d.new.puts (C.seen d.new.under.now) after
        × BreaksFreeList column (tier_of (length bytes.now)) after file cell)
        (λ u. (after : Content) × Drafts d.new.puts (C.seen d.new.under.now) after × (u ≡ tier_of (length bytes.now))
        × IsFullTier after column (tier_of (length bytes.now)))) }
    ensures sound { (cells : Content) (t : Table) → Drafts d.old.puts (C.seen d.old.under.now) cells → IsHeadCell (head_cell cells column)
        → HasTable cells column (tier_of (length bytes.now)) t
        → IfErr result (FaultSays NoCell (λ u. (u ≡ tier_of (length bytes.now)) × (room_of t < slots_of (length bytes.now)))) }
{
    let tier = tier_for(bytes.len());
    if tier < PARTS_TIER {
        let slot = place_whole(alloc, d, column, tier, key, count, bytes)?;
        return Ok(Address { tier, slot });
    }
    let slot = place_parts(alloc, d, column, key, count, bytes)?;
    Ok(Address { tier, slot })
}
