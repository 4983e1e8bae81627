ghost use Rattle.std.specs.Prelude.{◌≡◌, ℕ, ◌+◌, ◌<◌, ◌≤◌, ◌^◌, length, Option, Some, OnOk, is_err};
ghost use Rattle.sdb_io.specs.Faults.{CountsFault};
ghost use Rattle.pdb_cells.specs.Content.{Content};
ghost use Rattle.pdb_cells.specs.Sizes.{head_file, size_of};

use crate::cell_name::CellName;
use thiserror::Error;

/// Why a cell couldn't be read.
#[derive(Clone, Copy, Debug, PartialEq, Eq, Error)]
pub enum CellFault {
    /// The disk failed.
    #[error("the disk failed")]
    Disk,
}

/// Cells that can be read.
pub trait Cells {
    // the bytes of each cell, where they are observable
    ghost seen: { Self → Option Content };

    // how many calls of `cell` have failed
    ghost fault_count: { Self → ℕ };

    // how many cells but head cells were read from where they are kept
    ghost read_count: { Self → ℕ };

    // cells before and after calls that only read
    ghost same: { Self → Self → Type 0 };

    /// Fills `into` with the bytes of a cell. `into` has the cell's size, and the index is below 2^32. `Disk`
    /// comes only where the count of faults rises, and then nothing is known of `into`. Answered or refused,
    /// no cell changes.
    fn cell(&mut self, name: CellName, into: &mut [u8]) -> Result<(), CellFault>
        requires sized { size_of name.file ≡ Some (length into.old) }
        requires index { name.index < 2 ^ 32 }
        ensures bytes { (cells : Content) → seen self.old ≡ Some cells → OnOk result (into.new ≡ cells name.file name.index) }
        ensures keeps { same self.old self.new }
        ensures counted { CountsFault (is_err result) (fault_count self.old) (fault_count self.new) }
        ensures reads { (read_count self.old ≤ read_count self.new) × (read_count self.new ≤ read_count self.old + 1) }
        ensures head { name.file ≡ head_file → read_count self.new ≡ read_count self.old };

    /// How many calls of `cell` have failed; the count stays at 2^64 - 1.
    fn faults(&self) -> u64
        ensures { result ≡ fault_count self.now };

    /// How many cells but head cells were read from where they are kept; the count stays at 2^64 - 1.
    fn reads(&self) -> u64
        ensures { result ≡ read_count self.now };

    // cells are as themselves
    ghost itself: { (a : Self) → same a a };

    // reads after reads are reads
    ghost on: { (a b c : Self) → same a b → same b c → same a c };

    // what was observable stays
    ghost stays: { (a b : Self) (cells : Content) → same a b → seen a ≡ Some cells → seen b ≡ Some cells };

    // the counts don't fall
    ghost rises: { (a b : Self) → same a b → (fault_count a ≤ fault_count b) × (read_count a ≤ read_count b) };
}
