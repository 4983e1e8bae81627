ghost use Rattle.std.specs.Prelude.{◌≡◌, ℕ, ◌+◌, ◌-◌, ◌==◌, ◌<◌, ◌≤◌, ◌^◌, ◌↔◌, ◌++◌, ◌∷◌, [], List, length, min, replicate, Option, Some, IsErr, IfOk, OnOk, OnErr, Contains, is_err, if◌then◌else◌};
ghost use Rattle.sdb_io.specs.Faults.{CountsFault, one_more};
ghost use Rattle.pdb_cells.specs.Content.{Content, put_cell};
ghost use Rattle.pdb_cells.specs.Sizes.{head_file, size_of};
ghost use Rattle.pdb_cells.specs.inner.Stored.{AreSized};

use crate::cell_bytes::CellBytes;
use crate::cell_name::{CellName, HEAD_FILE};
use crate::cells::{CellFault, Cells};
use sdb_io::OutOfMemory;
use std::alloc::Global;
use std::collections::BTreeMap;

/// Cells in memory. A cell that was never set is zeros.
#[derive(Drop)]
pub struct MapCells {
    alloc: Global,
    cells: BTreeMap<CellName, CellBytes>,
    failing: Vec<u64>,
    calls: u64,
    faults: u64,
    reads: u64,
    ghost sized: { AreSized cells },
}

impl MapCells {
    ghost use Rattle.pdb_cells.specs.Memory.{calls_to_fail, cell_calls, cell_reads, cells_of, failed_cells, zeros_of};

    /// Cells that are all zeros.
    pub fn new(alloc: Global) -> MapCells
        ensures cells { (file index : ℕ) → cells_of result file index ≡ zeros_of file }
        ensures steady { calls_to_fail result ≡ [] }
        ensures counts { (cell_calls result ≡ 0) × (failed_cells result ≡ 0) × (cell_reads result ≡ 0) }
    {
        MapCells {
            alloc,
            cells: BTreeMap::new(alloc),
            failing: Vec::new(alloc),
            calls: 0,
            faults: 0,
            reads: 0,
        }
    }

    /// Sets a cell's bytes, as many as its size; the index is below 2^32. An `Err` changes nothing.
    pub fn set(&mut self, name: CellName, bytes: &[u8]) -> Result<(), OutOfMemory>
        requires sized { size_of name.file ≡ Some (length bytes.now) }
        requires index { name.index < 2 ^ 32 }
        ensures ok { OnOk result (cells_of self.new ≡ put_cell name.file name.index bytes.now (cells_of self.old)) }
        ensures err { OnErr result (cells_of self.new ≡ cells_of self.old) }
        ensures steady { calls_to_fail self.new ≡ calls_to_fail self.old }
        ensures counts { (cell_calls self.new ≡ cell_calls self.old) × (failed_cells self.new ≡ failed_cells self.old)
            × (cell_reads self.new ≡ cell_reads self.old) }
    {
        let bytes = CellBytes::from_slice(self.alloc, bytes)?;
        self.cells.insert(name, bytes)?;
        Ok(())
    }

    /// Makes that call of `cell` fail, counted from 0 over all calls, those for head cells too. An `Err` changes
    /// nothing.
    pub fn fail_at(&mut self, call: u64) -> Result<(), OutOfMemory>
        ensures ok { OnOk result (calls_to_fail self.new ≡ calls_to_fail self.old ++ call ∷ []) }
        ensures err { OnErr result (calls_to_fail self.new ≡ calls_to_fail self.old) }
        ensures cells { cells_of self.new ≡ cells_of self.old }
        ensures counts { (cell_calls self.new ≡ cell_calls self.old) × (failed_cells self.new ≡ failed_cells self.old)
            × (cell_reads self.new ≡ cell_reads self.old) }
    {
        self.failing.push(call)?;
        Ok(())
    }
}

impl Cells for MapCells {
    ghost use Rattle.std.specs.Prelude.{◌≡◌, ◌≤◌, Some, refl};
    ghost use Rattle.std.proofs.Common.{◌∙◌, ap};
    ghost use Rattle.std.proofs.Common.{rules};
    ghost use Rattle.pdb_cells.specs.Memory.{calls_to_fail, cell_calls, cell_reads, cells_of, failed_cells};

    ghost seen = { λ m. Some (cells_of m) };

    ghost fault_count = { failed_cells };

    ghost read_count = { cell_reads };

    ghost same = { λ m n. (cells_of n ≡ cells_of m) × (failed_cells m ≤ failed_cells n) × (cell_reads m ≤ cell_reads n) };

    fn cell(&mut self, name: CellName, into: &mut [u8]) -> Result<(), CellFault>
        requires sized { size_of name.file ≡ Some (length into.old) }
        requires index { name.index < 2 ^ 32 }
        ensures bytes { (cells : Content) → Some (cells_of self.old) ≡ Some cells → OnOk result (into.new ≡ cells name.file name.index) }
        ensures keeps { (cells_of self.new ≡ cells_of self.old) × (failed_cells self.old ≤ failed_cells self.new)
            × (cell_reads self.old ≤ cell_reads self.new) }
        ensures counted { CountsFault (is_err result) (failed_cells self.old) (failed_cells self.new) }
        ensures reads { (cell_reads self.old ≤ cell_reads self.new) × (cell_reads self.new ≤ cell_reads self.old + 1) }
        ensures head { name.file ≡ head_file → cell_reads self.new ≡ cell_reads self.old }
        // It fails just where it is to, and each call but those for head cells counts as a read.
        ensures fails { IsErr result ↔ Contains (calls_to_fail self.old) (cell_calls self.old) }
        ensures steady { calls_to_fail self.new ≡ calls_to_fail self.old }
        ensures next { cell_calls self.new ≡ one_more (cell_calls self.old) }
        ensures counts { cell_reads self.new ≡ (if name.file == head_file then cell_reads self.old else one_more (cell_reads self.old)) }
    {
        let fails = self.failing.contains(&self.calls);
        self.calls = self.calls.saturating_add(1);
        self.reads = reads_after(name.file, self.reads);
        if fails {
            self.faults = self.faults.saturating_add(1);
            return Err(CellFault::Disk);
        }
        match self.cells.get(&name) {
            Some(bytes) => into.copy_from_slice(bytes.as_slice()),
            None => into.fill(0),
        }
        Ok(())
    }

    fn faults(&self) -> u64 {
        self.faults
    }

    fn reads(&self) -> u64 {
        self.reads
    }

    ghost itself = { λ m. (refl, Prim.search rules, Prim.search rules) };

    ghost on = { λ l m n p q. (q.0 ∙ p.0, Prim.search (rules, p, q), Prim.search (rules, p, q)) };

    ghost stays = { λ m n cells p seen. ap Some p.0 ∙ seen };

    ghost rises = { λ m n p. (p.1, p.2) };
}

// the count of reads after a call for a cell of this file
fn reads_after(file: u16, reads: u64) -> u64
    ensures { result ≡ (if file == head_file then reads else one_more reads) }
{
    if file == HEAD_FILE {
        reads
    } else {
        reads.saturating_add(1)
    }
}
