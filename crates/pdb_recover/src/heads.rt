ghost use Rattle.std.specs.Prelude.{◌≡◌, ◌≤◌, ◌<◌, ℕ, IfErr, IfOk, IsTrue, OnOk, MatchBool, length};
ghost use Rattle.sdb_io.specs.Faults.{CountsFault};
ghost use Rattle.pdb_disk.specs.Files.{reads_of};
ghost use Rattle.pdb_model.specs.Files.{head_cell};
ghost use Rattle.pdb_model.specs.Recovery.{cells_of_files};
ghost use Rattle.pdb_recover.specs.Answers.{IsOfHeads, open_disk_fails};
ghost use Rattle.pdb_recover.specs.Heads.{AreSteadyHeads, IsSteadyHead};
ghost use Rattle.pdb_recover.specs.Scanning.{OnlyReads};

use crate::cause::OpenCause;
use pdb_cells::HEAD_FILE;
use pdb_disk::Disk;
use pdb_value::is_head;

// the size of a head cell
const HEAD_SIZE: usize = 256;

/// Whether a cell, of 256 bytes, is a head cell that keeps the rules, of a column whose index doesn't grow and has the bits
/// of its base.
fn is_steady_head(cell: &[u8]) -> bool
    requires { length cell.now ≡ 256 }
    ensures { MatchBool result (IsSteadyHead cell.now) (¬ IsSteadyHead cell.now) }
{
    // an index that grows has more bits than the base
    is_head(cell) && cell[1] == cell[2]
}

/// Checks a column's head cell. `Damaged` names it where it isn't steady.
fn check_head<D: Disk>(disk: &mut D, column: u8) -> Result<(), OpenCause>
    requires { column ≤ 1 }
    ensures only_reads { OnlyReads D.tells D.clock D.past D.read_count disk.old disk.new }
    ensures steady { IsTrue (D.tells disk.old) → OnOk result (IsSteadyHead (head_cell (cells_of_files (reads_of (D.past disk.old (D.clock disk.old)))) column)) }
    ensures causes { IfErr result (IsOfHeads (λ cell. (cell ≡ column) × (IsTrue (D.tells disk.old)
        → ¬ IsSteadyHead (head_cell (cells_of_files (reads_of (D.past disk.old (D.clock disk.old)))) column)))) }
    ensures counted { CountsFault (open_disk_fails result) (D.fault_count disk.old) (D.fault_count disk.new) }
{
    let mut cell = [0; HEAD_SIZE];
    match disk.read_at(HEAD_FILE, HEAD_SIZE as u64 * u64::from(column), &mut cell) {
        Ok(()) if is_steady_head(&cell) => Ok(()),
        Ok(()) => Err(OpenCause::Damaged {
            file: HEAD_FILE,
            cell: u64::from(column),
        }),
        Err(fault) => Err(OpenCause::Disk(fault)),
    }
}

/// Checks both head cells. `Damaged` names the first that isn't steady.
pub(crate) fn check_heads<D: Disk>(disk: &mut D) -> Result<(), OpenCause>
    ensures only_reads { OnlyReads D.tells D.clock D.past D.read_count disk.old disk.new }
    ensures steady { IsTrue (D.tells disk.old) → OnOk result (AreSteadyHeads (cells_of_files (reads_of (D.past disk.old (D.clock disk.old)))) 2) }
    ensures causes { IfErr result (IsOfHeads (λ cell. (cell < 2) × (IsTrue (D.tells disk.old)
        → AreSteadyHeads (cells_of_files (reads_of (D.past disk.old (D.clock disk.old)))) cell
        × ¬ IsSteadyHead (head_cell (cells_of_files (reads_of (D.past disk.old (D.clock disk.old)))) cell)))) }
    ensures counted { CountsFault (open_disk_fails result) (D.fault_count disk.old) (D.fault_count disk.new) }
{
    check_head(disk, 0)?;
    check_head(disk, 1)?;
    Ok(())
}
