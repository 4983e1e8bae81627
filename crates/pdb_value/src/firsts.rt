ghost use Rattle.std.specs.Prelude.{◌≡◌, ◌≤◌, ◌<◌, ◌+◌, ℕ, IfOk, IfErr, MatchOption, Some, length};
ghost use Rattle.sdb_io.specs.Faults.{CountsFault};
ghost use Rattle.pdb_cells.specs.Content.{Content};
ghost use Rattle.pdb_model.specs.Breaks.{HasEnd, IsNoValue};
ghost use Rattle.pdb_model.specs.Files.{table_cells};
ghost use Rattle.pdb_model.specs.Tiers.{slot_size};
ghost use Rattle.pdb_value.specs.Faults.{FaultSays, NoTier, disk_fails};
ghost use Rattle.pdb_value.specs.inner.Firsts.{BreaksFirst, FitsFirst, IsFirst};

use crate::cells::{damaged_slot, read_slot};
use crate::fault::ValueFault;
use crate::heads::{ends_of, read_head};
use crate::reading::{read_head_of_parts, read_whole};
use crate::tiers::PARTS_TIER;
use pdb_cells::Cells;
use pdb_model::Address;
use std::alloc::Global;

/// What a value's first slot says of it.
#[derive(Clone, Copy)]
pub(crate) struct Fields {
    pub(crate) key: [u8; 32],
    pub(crate) count: u64,
    /// The whole length of the value.
    pub(crate) len: usize,
    /// The slot of the first further part, 0 where the value is whole.
    pub(crate) next: u32,
}

/// A value's first slot, its bytes, and the end of its tier.
#[derive(Drop)]
pub(crate) struct First {
    pub(crate) fields: Fields,
    pub(crate) cell: Vec<u8>,
    pub(crate) end: u32,
}

// a key as an array
fn key_of(bytes: &[u8]) -> [u8; 32]
    requires { length bytes.now ≡ 32 }
    ensures { result ≡ bytes.now }
{
    let mut key = [0; 32];
    key.copy_from_slice(bytes);
    key
}

// what a cell of a tier with an end says as a value's first slot; None exactly where it is none
fn read_fields(tier: u8, end: u32, cell: &[u8]) -> Option<Fields>
    requires tier { tier ≤ 15 }
    requires sized { length cell.now ≡ slot_size tier }
    requires range { (64 ≤ length cell.now) × (length cell.now ≤ 32768) }
    ensures { MatchOption result (IsNoValue tier end cell.now) (λ f. IsFirst tier end cell.now f.key f.count f.len f.next) }
{
    if tier < PARTS_TIER {
        let Some(whole) = read_whole(tier, cell) else {
            return None;
        };
        return Some(Fields {
            key: key_of(whole.key),
            count: whole.count,
            len: whole.value.len(),
            next: 0,
        });
    }
    let Some(head) = read_head_of_parts(cell) else {
        return None;
    };
    if head.next == 0 || end < head.next {
        return None;
    }
    Some(Fields {
        key: key_of(head.key),
        count: head.count,
        len: head.whole as usize,
        next: head.next,
    })
}

/// The first slot of a value.
#[tactic(auto, using(crate::proofs::FirstSlots::first_fits))]
pub(crate) fn read_first<C: Cells>(
    alloc: Global,
    c: &mut C,
    column: u8,
    at: Address,
) -> Result<First, ValueFault>
    requires column { column ≤ 1 }
    requires tier { at.tier ≤ 15 }
    ensures keeps { C.same c.old c.new }
    ensures counted { CountsFault (disk_fails result) (C.fault_count c.old) (C.fault_count c.new) }
    ensures reads { (C.read_count c.old ≤ C.read_count c.new) × (C.read_count c.new ≤ C.read_count c.old + 1) }
    ensures stays { (cells : Content) → C.seen c.old ≡ Some cells → C.seen c.new ≡ Some cells }
    ensures len { IfOk result (λ f. (length f.cell.items ≡ slot_size at.tier) × (64 ≤ length f.cell.items)) }
    ensures counts { IfOk result (λ f. 1 ≤ f.fields.count) }
    ensures cell { (cells : Content) → C.seen c.old ≡ Some cells → IfOk result (λ f. f.cell.items ≡ table_cells cells column at.tier at.slot) }
    ensures end { (cells : Content) → C.seen c.old ≡ Some cells → IfOk result (λ f. HasEnd cells column at.tier f.end) }
    ensures first { IfOk result (λ f. IsFirst at.tier f.end f.cell.items f.fields.key f.fields.count f.fields.len f.fields.next) }
    ensures fits { IfOk result (λ f. FitsFirst at.tier f.end f.fields.len f.fields.next) }
    ensures faults { (cells : Content) → C.seen c.old ≡ Some cells
        → IfErr result (FaultSays (BreaksFirst cells column at.tier at.slot) NoTier) }
{
    let head = read_head(c, column)?;
    let end = ends_of(&head, at.tier).end;
    let cell = read_slot(alloc, c, column, at.tier, at.slot)?;
    let damaged = damaged_slot(column, at.tier, at.slot);
    let Some(fields) = read_fields(at.tier, end, &cell) else {
        return Err(damaged);
    };
    Ok(First { fields, cell, end })
}
