ghost use Rattle.std.specs.Prelude.{◌≡◌, ◌≤◌, ℕ, All, IfErr, OnOk};
ghost use Rattle.sdb_io.specs.Faults.{CountsFault};
ghost use Rattle.pdb_cells.specs.Content.{Content};
ghost use Rattle.pdb_value.specs.Faults.{Drafts, IsFullTier, NoCell};
ghost use Rattle.pdb_column.specs.Answers.{IsStorable, PlanSays, plan_disk_fails};
ghost use Rattle.pdb_column.specs.Damages.{BreaksColumn, IsFullChunk};
ghost use Rattle.pdb_column.specs.Holding.{HoldsColumns};
ghost use Rattle.pdb_column.specs.Maps.{ColumnMap, FillsChunk, column_after, column_from};
ghost use Rattle.pdb_column.specs.Storing.{FillsTier, HasPlaced};
ghost use Rattle.pdb_column.specs.inner.Faults.{AnyCell, AnyChunk, AnyTier, StepSays, step_disk_fails};
ghost use Rattle.pdb_column.specs.inner.Operations.{Crowds, HasItsSlots, NeedsSlots, column_of};

use crate::fault::{PlanFault, StepFault, plan_fault};
use crate::steps::{add_node, drop_key, put_plain};
use pdb_cells::{Cells, Draft};
use sdb_base::{Op, Ops};
use sdb_blake2::hash256;
use std::alloc::Global;

// the column of an operation's key
fn column_of(op: &Op) -> u8
    ensures { result ≡ column_of op.now }
{
    match op {
        Op::AddRef { key: _, bytes: _ } | Op::DropRef { key: _ } => 0,
        Op::Put { key: _, bytes: _ } | Op::Erase { key: _ } => 1,
    }
}

// plans an operation
fn plan_op<C: Cells>(alloc: Global, d: &mut Draft<'_, C>, op: &Op) -> Result<(), StepFault>
    requires { IsStorable op.now }
    ensures same_reference { d.new.under.ghost_name ≡ d.old.under.ghost_name }
    ensures keeps { C.same d.old.under.now d.new.under.now }
    ensures counted { CountsFault (step_disk_fails result) (C.fault_count d.old.under.now) (C.fault_count d.new.under.now) }
    ensures planned { (cells : Content) (bases : ℕ → ℕ) (contents : ℕ → ColumnMap)
        → Drafts d.old.puts (C.seen d.old.under.now) cells
        → HoldsColumns cells bases contents → OnOk result ((after : Content) × Drafts d.new.puts (C.seen d.new.under.now) after
        × HoldsColumns after bases (λ column. column_after column (contents column) op.now)) }
    ensures uncrowded { (cells : Content) (bases : ℕ → ℕ) (contents : ℕ → ColumnMap)
        → Drafts d.old.puts (C.seen d.old.under.now) cells
        → HoldsColumns cells bases contents → OnOk result ((column bits chunk : ℕ) → column ≤ 1
        → Crowds bases contents op.now column bits chunk → ⊥) }
    ensures sound { (cells : Content) (bases : ℕ → ℕ) (contents : ℕ → ColumnMap)
        → Drafts d.old.puts (C.seen d.old.under.now) cells
        → HoldsColumns cells bases contents
        → IfErr result (StepSays NoCell AnyTier (Crowds bases contents op.now (column_of op.now))) }
    ensures slots_first { (cells : Content) (bases : ℕ → ℕ) (contents : ℕ → ColumnMap)
        → Drafts d.old.puts (C.seen d.old.under.now) cells
        → HoldsColumns cells bases contents → IfErr result (StepSays AnyCell AnyTier
        (λ bits n. (after : Content) × Drafts d.new.puts (C.seen d.new.under.now) after × HasItsSlots after (column_of op.now) op.now)) }
    ensures no_slots { (cells : Content) (bases : ℕ → ℕ) (contents : ℕ → ColumnMap)
        → Drafts d.old.puts (C.seen d.old.under.now) cells
        → HoldsColumns cells bases contents
        → IfErr result (StepSays AnyCell (NeedsSlots bases contents op.now (column_of op.now)) AnyChunk) }
    ensures faults { (cells : Content) → Drafts d.old.puts (C.seen d.old.under.now) cells
        → IfErr result (StepSays (λ file cell. (after : Content) × Drafts d.new.puts (C.seen d.new.under.now) after
        × BreaksColumn after (column_of op.now) file cell)
        (λ tier. (after : Content) × Drafts d.new.puts (C.seen d.new.under.now) after × IsFullTier after (column_of op.now) tier)
        (λ bits n. (after : Content) × Drafts d.new.puts (C.seen d.new.under.now) after
        × IsFullChunk after (column_of op.now) bits n)) }
{
    match op {
        Op::AddRef { key, bytes } => add_node(alloc, d, &key.0, bytes.as_slice()),
        Op::DropRef { key } => {
            drop_key(alloc, d, 0, &key.0)?;
            Ok(())
        }
        Op::Put { key, bytes } => {
            let hash = hash256(key.as_slice());
            put_plain(alloc, d, &hash, bytes.as_slice())
        }
        Op::Erase { key } => {
            let hash = hash256(key.as_slice());
            drop_key(alloc, d, 1, &hash)?;
            Ok(())
        }
    }
}

/// Plans operations, in their order, into a draft. Each value has at most 8,388,608 bytes. After an `Err` the draft may have a
/// part of the changes, and is to be thrown away.
///
/// `ChunkFull` comes only where an entry is needed in a chunk that has 64, `TierFull` only where a slot is needed of a tier that
/// has no free one and whose end is the last one, whichever the operations come to first; within one operation the slot is taken
/// first. `Damaged`, `Disk` and `OutOfMemory` come as from [`get`](crate::get).
pub fn plan<C: Cells>(alloc: Global, d: &mut Draft<'_, C>, ops: &Ops) -> Result<(), PlanFault>
    requires { All IsStorable ops.now }
    ensures same_reference { d.new.under.ghost_name ≡ d.old.under.ghost_name }
    ensures keeps { C.same d.old.under.now d.new.under.now }
    ensures counted { CountsFault (plan_disk_fails result) (C.fault_count d.old.under.now) (C.fault_count d.new.under.now) }
    ensures planned { (cells : Content) (bases : ℕ → ℕ) (contents : ℕ → ColumnMap)
        → Drafts d.old.puts (C.seen d.old.under.now) cells
        → HoldsColumns cells bases contents → OnOk result ((after : Content) × Drafts d.new.puts (C.seen d.new.under.now) after
        × HoldsColumns after bases (λ column. column_from column (contents column) ops.now)) }
    ensures uncrowded { (cells : Content) (bases : ℕ → ℕ) (contents : ℕ → ColumnMap)
        → Drafts d.old.puts (C.seen d.old.under.now) cells
        → HoldsColumns cells bases contents
        → OnOk result ((column bits chunk : ℕ) → column ≤ 1
        → FillsChunk (bases column) (contents column) ops.now column bits chunk → ⊥) }
    ensures sound { (cells : Content) (bases : ℕ → ℕ) (contents : ℕ → ColumnMap)
        → Drafts d.old.puts (C.seen d.old.under.now) cells
        → HoldsColumns cells bases contents → IfErr result (PlanSays (λ file cell. ⊥)
        (λ column bits chunk. FillsChunk (bases column) (contents column) ops.now column bits chunk) (λ column tier. Unit {0})) }
    ensures slots_first { (cells : Content) (bases : ℕ → ℕ) (contents : ℕ → ColumnMap)
        → Drafts d.old.puts (C.seen d.old.under.now) cells
        → HoldsColumns cells bases contents → IfErr result (PlanSays (λ file cell. Unit {0})
        (λ column bits chunk. (after : Content) × Drafts d.new.puts (C.seen d.new.under.now) after
        × HasPlaced after (bases column) (contents column) ops.now column bits chunk)
        (λ column tier. Unit {0})) }
    ensures no_slots { (cells : Content) (bases : ℕ → ℕ) (contents : ℕ → ColumnMap)
        → Drafts d.old.puts (C.seen d.old.under.now) cells
        → HoldsColumns cells bases contents → IfErr result (PlanSays (λ file cell. Unit {0})
        (λ column bits chunk. Unit {0})
        (λ column tier. FillsTier (bases column) (contents column) ops.now column tier)) }
    ensures faults { (cells : Content) → Drafts d.old.puts (C.seen d.old.under.now) cells → IfErr result (PlanSays
        (λ file cell. (after : Content) × Drafts d.new.puts (C.seen d.new.under.now) after × ((column : ℕ)
        × (column ≤ 1) × BreaksColumn after column file cell))
        (λ column bits chunk. (after : Content) × Drafts d.new.puts (C.seen d.new.under.now) after
        × IsFullChunk after column bits chunk)
        (λ column tier. (after : Content) × Drafts d.new.puts (C.seen d.new.under.now) after × IsFullTier after column tier)) }
{
    let items = ops.as_slice();
    for op in items {
        match plan_op(alloc, d, op) {
            Ok(()) => {}
            Err(fault) => return Err(plan_fault(column_of(op), fault)),
        }
    }
    Ok(())
}
