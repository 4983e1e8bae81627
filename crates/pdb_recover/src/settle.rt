ghost use Rattle.std.specs.Prelude.{◌≡◌, ◌+◌, ℕ, List, IsTrue, OnOk, is_err, ◌↔◌};
ghost use Rattle.sdb_io.specs.Faults.{CountsFault};
ghost use Rattle.pdb_disk.specs.Files.{reads_of};
ghost use Rattle.pdb_disk.specs.Moments.{Moments};
ghost use Rattle.pdb_model.specs.Recovery.{Row, Safe, TearClear};
ghost use Rattle.pdb_recover.specs.Recovering.{AreSettled, IsStoreFile};

use pdb_cells::size;
use pdb_disk::{Disk, DiskFault};

// every file of the store has a number below this
pub(crate) const END_OF_FILES: u16 = 66;

/// Whether a file is one of the store: the gate's, a log file, or one with cells.
pub(crate) fn is_store_file(file: u16) -> bool
    ensures { IsTrue result ↔ IsStoreFile file }
{
    file <= 4 || size(file).is_some()
}

/// Syncs every file of the store, in the order of their numbers. What is read stays.
pub(crate) fn sync_files<D: Disk>(disk: &mut D) -> Result<(), DiskFault>
    ensures any_moment { (rows : List Row) (f : ℕ) → IsTrue (D.tells disk.old)
        → TearClear (D.past disk.old (D.clock disk.old)) (reads_of (D.past disk.old (D.clock disk.old)))
        → Safe rows f (D.past disk.old (D.clock disk.old))
        → Moments (D.clock disk.old) (D.clock disk.new) (D.past disk.old) (D.past disk.new) (Safe rows f) }
    ensures settled { IsTrue (D.tells disk.old) → OnOk result (AreSettled (D.past disk.new (D.clock disk.new))) }
    ensures read { IsTrue (D.tells disk.old) → reads_of (D.past disk.new (D.clock disk.new)) ≡ reads_of (D.past disk.old (D.clock disk.old)) }
    ensures told { IsTrue (D.tells disk.old) → IsTrue (D.tells disk.new) }
    ensures counted { CountsFault (is_err result) (D.fault_count disk.old) (D.fault_count disk.new) }
{
    for file in 0..END_OF_FILES {
        if is_store_file(file) {
            disk.sync(file)?;
        }
    }
    Ok(())
}
