ghost use Rattle.std.specs.Prelude.{◌≡◌, [], ℕ, ◌<◌, ◌≤◌, ◌+◌, ◌^◌, All, List, Option, Some, Ok, length, is_err, OnOk, OnErr};
ghost use Rattle.sdb_io.specs.Faults.{CountsFault};
ghost use Rattle.pdb_cells.specs.Content.{Content, put_cell};
ghost use Rattle.pdb_cells.specs.Puts.{IsWholeCell, NoCellTwice, drafted, last_put, puts_after};
ghost use Rattle.pdb_cells.specs.Sizes.{head_file, size_of};

use crate::cell_name::CellName;
use crate::cells::{CellFault, Cells};
use crate::put_set::PutSet;
use crate::puts::Puts;
use sdb_io::OutOfMemory;
use std::alloc::Global;

/// Puts over cells, with the type of the puts as a parameter so that a contract sees what happened to the cells.
#[derive(Drop)]
pub struct Over<'a, C: Cells, P> {
    under: &'a mut C,
    puts: P,
}

/// A draft: cells put so far over cells that it only reads. It ends by `finish`, on errors too.
pub type Draft<'a, C> = Over<'a, C, PutSet>;

impl<'a, C: Cells> Over<'a, C, PutSet> {
    /// A draft without puts.
    pub fn new(alloc: Global, under: &'a mut C) -> Draft<'a, C>
        ensures same_reference { result.under.ghost_name ≡ under.entry.ghost_name }
        ensures now { result.under.now ≡ under.old }
        ensures puts { result.puts ≡ [] }
    {
        Draft {
            under,
            puts: PutSet::new(alloc),
        }
    }

    /// Fills `into` with the last put of a cell, else with the cell below. `into` has the cell's size, and the
    /// index is below 2^32. `Disk` comes only for a cell that wasn't put, and only where the count of faults
    /// rises.
    pub fn read(&mut self, name: CellName, into: &mut [u8]) -> Result<(), CellFault>
        requires sized { size_of name.file ≡ Some (length into.old) }
        requires index { name.index < 2 ^ 32 }
        ensures same_reference { self.new.under.ghost_name ≡ self.old.under.ghost_name }
        ensures keeps { C.same self.old.under.now self.new.under.now }
        ensures puts { self.new.puts ≡ self.old.puts }
        ensures put { (bytes : List ℕ) → last_put self.old.puts name ≡ Some bytes
            → (result ≡ Ok tt) × (into.new ≡ bytes) × (self.new.under.now ≡ self.old.under.now) }
        ensures bytes { (cells : Content) → drafted self.old.puts (C.seen self.old.under.now) ≡ Some cells
            → OnOk result (into.new ≡ cells name.file name.index) }
        ensures counted { CountsFault (is_err result) (C.fault_count self.old.under.now) (C.fault_count self.new.under.now) }
        ensures reads { (C.read_count self.old.under.now ≤ C.read_count self.new.under.now)
            × (C.read_count self.new.under.now ≤ C.read_count self.old.under.now + 1) }
        ensures head { name.file ≡ head_file → C.read_count self.new.under.now ≡ C.read_count self.old.under.now }
    {
        match self.puts.get(&name) {
            Some(bytes) => {
                into.copy_from_slice(bytes);
                Ok(())
            }
            None => self.under.cell(name, into),
        }
    }

    /// Puts a cell's bytes, as many as its size; the index is below 2^32. An `Err` changes nothing.
    pub fn put(&mut self, name: CellName, bytes: &[u8]) -> Result<(), OutOfMemory>
        requires sized { size_of name.file ≡ Some (length bytes.now) }
        requires index { name.index < 2 ^ 32 }
        ensures same_reference { self.new.under.ghost_name ≡ self.old.under.ghost_name }
        ensures below { self.new.under.now ≡ self.old.under.now }
        ensures keeps { C.same self.old.under.now self.new.under.now }
        ensures ok { OnOk result (self.new.puts ≡ puts_after self.old.puts (record { name = name; bytes = bytes.now })) }
        ensures cells { (cells : Content) → drafted self.old.puts (C.seen self.old.under.now) ≡ Some cells
            → OnOk result (drafted self.new.puts (C.seen self.new.under.now) ≡ Some (put_cell name.file name.index bytes.now cells)) }
        ensures err { OnErr result (self.new.puts ≡ self.old.puts) }
    {
        self.puts.put(name, bytes)
    }

    /// The puts, each cell once with its last bytes, in the order of first puts. It takes no memory.
    pub fn finish(self) -> Puts
        ensures puts { result ≡ self.entry.puts }
        ensures once { NoCellTwice result }
        ensures whole { All IsWholeCell result }
        ensures left { self.exit.0.now ≡ self.entry.under.now }
    {
        let Over { under: _, puts } = self;
        puts.into_puts()
    }
}

impl<'a, C: Cells> Cells for Over<'a, C, PutSet> {
    ghost use Rattle.std.specs.Prelude.{◌≡◌, refl};
    ghost use Rattle.std.proofs.Common.{◌∙◌};
    ghost use Rattle.pdb_cells.specs.Puts.{drafted};
    ghost use Rattle.pdb_cells.specs.inner.Drafting.{stays_drafted};

    ghost seen = { λ d. drafted d.puts (C.seen d.under.now) };

    ghost fault_count = { λ d. C.fault_count d.under.now };

    ghost read_count = { λ d. C.read_count d.under.now };

    ghost same = { λ d e. (e.under.ghost_name ≡ d.under.ghost_name) × C.same d.under.now e.under.now × (e.puts ≡ d.puts) };

    fn cell(&mut self, name: CellName, into: &mut [u8]) -> Result<(), CellFault> {
        self.read(name, into)
    }

    fn faults(&self) -> u64 {
        self.under.faults()
    }

    fn reads(&self) -> u64 {
        self.under.reads()
    }

    ghost itself = { λ d. (refl, C.itself d.under.now, refl) };

    ghost on = { λ d e f p q. (q.0 ∙ p.0, C.on d.under.now e.under.now f.under.now p.1 q.1, q.2 ∙ p.2) };

    ghost stays = { λ d e cells p seen. stays_drafted d.puts e.puts (C.seen d.under.now) (C.seen e.under.now) cells p.2 (λ below. C.stays d.under.now e.under.now below p.1) seen };

    ghost rises = { λ d e p. C.rises d.under.now e.under.now p.1 };
}
