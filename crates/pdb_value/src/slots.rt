ghost use Rattle.std.specs.Prelude.{◌≡◌, ◌≢◌, ◌≤◌, ◌<◌, ◌+◌, ◌-◌, ◌^◌, ℕ, IfOk, OnOk, OnErr, IfErr, Some};
ghost use Rattle.sdb_io.specs.Faults.{CountsFault};
ghost use Rattle.pdb_cells.specs.Content.{Content};
ghost use Rattle.pdb_model.specs.Breaks.{HasEnd, IsBrokenHead, IsNotFree};
ghost use Rattle.pdb_model.specs.Files.{head_cell, table_cells, table_file};
ghost use Rattle.pdb_model.specs.Heads.{IsHeadCell};
ghost use Rattle.pdb_model.specs.Slots.{IsFree};
ghost use Rattle.pdb_model.specs.Tables.{Table, room_of};
ghost use Rattle.pdb_value.specs.Faults.{BreaksFreeList, Drafts, FaultSays, HasTable, IsFullTier, NoCell, NoTier, disk_fails};
ghost use Rattle.pdb_value.specs.inner.Steps.{IsFreed, IsSlotTaken};

use crate::cells::{damaged_slot, put_head, put_slot, read_slot};
use crate::fault::ValueFault;
use crate::heads::{TierEnds, ends_of, read_head, set_ends};
use crate::reading::read_free;
use crate::writing::free_cell;
use pdb_cells::{Cells, Draft};
use std::alloc::Global;

// the slot after a free one on the free list
#[tactic(auto, using(crate::proofs::Layouts::one_next))]
fn next_free<C: Cells>(
    alloc: Global,
    c: &mut C,
    column: u8,
    tier: u8,
    ends: TierEnds,
) -> Result<u32, ValueFault>
    requires column { column ≤ 1 }
    requires tier { tier ≤ 15 }
    ensures keeps { C.same c.old c.new }
    ensures counted { CountsFault (disk_fails result) (C.fault_count c.old) (C.fault_count c.new) }
    ensures stays { (cells : Content) → C.seen c.old ≡ Some cells → C.seen c.new ≡ Some cells }
    ensures within { IfOk result (λ next. next ≤ ends.end) }
    ensures next { (cells : Content) → C.seen c.old ≡ Some cells
        → IfOk result (λ next. IsFree tier (table_cells cells column tier ends.free) next) }
    ensures faults { (cells : Content) → C.seen c.old ≡ Some cells
        → IfErr result (FaultSays (λ file cell. (file ≡ table_file column tier) × (cell ≡ ends.free)
        × IsNotFree tier ends.end (table_cells cells column tier ends.free)) NoTier) }
{
    let cell = read_slot(alloc, c, column, tier, ends.free)?;
    let damaged = damaged_slot(column, tier, ends.free);
    let Some(next) = read_free(tier, &cell) else {
        return Err(damaged);
    };
    if ends.end < next {
        return Err(damaged);
    }
    Ok(next)
}

/// Takes the first free slot of a tier, else the one past its end.
pub(crate) fn take_slot<C: Cells>(
    alloc: Global,
    d: &mut Draft<'_, C>,
    column: u8,
    tier: u8,
) -> Result<u32, ValueFault>
    requires column { column ≤ 1 }
    requires tier { tier ≤ 15 }
    ensures same_reference { d.new.under.ghost_name ≡ d.old.under.ghost_name }
    ensures keeps { C.same d.old.under.now d.new.under.now }
    ensures counted { CountsFault (disk_fails result) (C.fault_count d.old.under.now) (C.fault_count d.new.under.now) }
    ensures slot { IfOk result (λ slot. 1 ≤ slot) }
    ensures taken { (cells : Content) → Drafts d.old.puts (C.seen d.old.under.now) cells
        → IfOk result (λ slot. (after : Content) × Drafts d.new.puts (C.seen d.new.under.now) after × IsSlotTaken column tier cells after slot) }
    ensures faults { (cells : Content) → Drafts d.old.puts (C.seen d.old.under.now) cells
        → IfErr result (FaultSays (BreaksFreeList column tier cells) (λ u. (u ≡ tier) × IsFullTier cells column tier)) }
    ensures sound { (cells : Content) (t : Table) → Drafts d.old.puts (C.seen d.old.under.now) cells → IsHeadCell (head_cell cells column)
        → HasTable cells column tier t → IfErr result (FaultSays NoCell (λ u. (u ≡ tier) × (room_of t ≡ 0))) }
    ensures left { (cells : Content) → Drafts d.old.puts (C.seen d.old.under.now) cells
        → OnErr result (Drafts d.new.puts (C.seen d.new.under.now) cells) }
{
    let mut head = read_head(d, column)?;
    let ends = ends_of(&head, tier);
    if ends.free == 0 {
        if ends.end == u32::MAX {
            return Err(ValueFault::TierFull { tier });
        }
        let end = ends.end + 1;
        set_ends(&mut head, tier, TierEnds { free: 0, end });
        put_head(d, column, &head)?;
        return Ok(end);
    }
    let free = next_free(alloc, d, column, tier, ends)?;
    let end = ends.end;
    set_ends(&mut head, tier, TierEnds { free, end });
    put_head(d, column, &head)?;
    Ok(ends.free)
}

/// Frees a slot of a tier: it becomes the first free one.
pub(crate) fn free_slot<C: Cells>(
    alloc: Global,
    d: &mut Draft<'_, C>,
    column: u8,
    tier: u8,
    slot: u32,
) -> Result<(), ValueFault>
    requires column { column ≤ 1 }
    requires tier { tier ≤ 15 }
    ensures same_reference { d.new.under.ghost_name ≡ d.old.under.ghost_name }
    ensures keeps { C.same d.old.under.now d.new.under.now }
    ensures counted { CountsFault (disk_fails result) (C.fault_count d.old.under.now) (C.fault_count d.new.under.now) }
    ensures freed { (cells : Content) → Drafts d.old.puts (C.seen d.old.under.now) cells
        → ((end : ℕ) → HasEnd cells column tier end → slot ≤ end)
        → OnOk result ((after : Content) × Drafts d.new.puts (C.seen d.new.under.now) after × IsFreed column tier cells after slot) }
    ensures faults { (cells : Content) → Drafts d.old.puts (C.seen d.old.under.now) cells
        → IfErr result (FaultSays (IsBrokenHead cells column) NoTier) }
{
    let mut head = read_head(d, column)?;
    let TierEnds { free, end } = ends_of(&head, tier);
    let cell = free_cell(alloc, tier, free)?;
    put_slot(d, column, tier, slot, &cell)?;
    set_ends(&mut head, tier, TierEnds { free: slot, end });
    put_head(d, column, &head)?;
    Ok(())
}
