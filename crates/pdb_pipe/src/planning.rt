ghost use Rattle.std.specs.Prelude.{◌≡◌, ℕ, All, IfErr, IfOk, OnOk, Some};
ghost use Rattle.sdb_io.specs.Faults.{CountsFault};
ghost use Rattle.sdb_base.specs.Keeping.{IsCause, disk_failed};
ghost use Rattle.pdb_cells.specs.Content.{Content};
ghost use Rattle.pdb_cells.specs.Puts.{IsWholeCell, NoCellTwice, laid};
ghost use Rattle.pdb_column.specs.Answers.{IsStorable};
ghost use Rattle.pdb_column.specs.Holding.{HoldsColumns};
ghost use Rattle.pdb_column.specs.Maps.{ColumnMap, column_from};
ghost use Rattle.pdb_pipe.specs.Planning.{HasRoomFor, IsPlanFault, PlanEnds};

use crate::faults::of_plan;
use pdb_cells::{Cells, Draft, Puts};
use pdb_column::plan;
use sdb_base::{KeepFault, Ops};
use std::alloc::Global;

/// The puts that carry out a commit's operations over these cells.
pub(crate) fn planned<C: Cells>(alloc: Global, cells: &mut C, ops: &Ops) -> Result<Puts, KeepFault>
    requires { All IsStorable ops.now }
    ensures keeps { C.same cells.old cells.new }
    ensures counted { CountsFault (disk_failed result) (C.fault_count cells.old) (C.fault_count cells.new) }
    ensures whole { IfOk result (λ puts. All IsWholeCell puts) }
    ensures once { IfOk result (λ puts. NoCellTwice puts) }
    ensures planned { (c : Content) (bases : ℕ → ℕ) (contents : ℕ → ColumnMap) → C.seen cells.old ≡ Some c
        → HoldsColumns c bases contents
        → IfOk result (λ puts. HoldsColumns (laid puts c) bases (λ column. column_from column (contents column) ops.now)) }
    ensures room { (c : Content) (bases : ℕ → ℕ) (contents : ℕ → ColumnMap) → C.seen cells.old ≡ Some c
        → HoldsColumns c bases contents → OnOk result (HasRoomFor bases contents ops.now) }
    ensures ends { (c : Content) (bases : ℕ → ℕ) (contents : ℕ → ColumnMap) → C.seen cells.old ≡ Some c
        → HoldsColumns c bases contents → IfErr result (PlanEnds c bases contents ops.now) }
    ensures cause { IfErr result (IsCause (IsPlanFault (C.seen cells.old))) }
{
    let mut draft = Draft::new(alloc, cells);
    let answer = plan(alloc, &mut draft, ops);
    let puts = draft.finish();
    match answer {
        Ok(()) => Ok(puts),
        Err(fault) => Err(of_plan(fault)),
    }
}
