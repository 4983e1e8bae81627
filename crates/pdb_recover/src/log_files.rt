ghost use Rattle.std.specs.Prelude.{◌≡◌, ◌≤◌, ◌+◌, ◌^◌, ℕ, IfErr, IfOk, IsTrue, MatchOption, OnOk, is_err};
ghost use Rattle.sdb_io.specs.Faults.{CountsFault};
ghost use Rattle.pdb_disk.specs.Files.{reads_of};
ghost use Rattle.pdb_model.specs.Logs.{IsFound};
ghost use Rattle.pdb_model.specs.Records.{Record, record_bytes};
ghost use Rattle.pdb_recover.specs.Answers.{IsOfReading, open_disk_fails};
ghost use Rattle.pdb_recover.specs.Scanning.{OnlyReads};

use crate::cause::OpenCause;
use crate::cursor::Cursor;
use pdb_disk::{Disk, DiskFault};
use sdb_base::Bytes;
use std::alloc::Global;

/// The scans of the four log files, side by side.
#[derive(Drop)]
pub(crate) struct LogFiles {
    first: Cursor,
    second: Cursor,
    third: Cursor,
    fourth: Cursor,
}

impl LogFiles {
    ghost use Rattle.pdb_recover.specs.Scanning.{HaveScanned};

    /// Each at its front.
    pub(crate) fn at_fronts<D: Disk>(disk: &mut D) -> Result<LogFiles, DiskFault>
        ensures only_reads { OnlyReads D.tells D.clock D.past D.read_count disk.old disk.new }
        ensures begun { IsTrue (D.tells disk.old) → (n : ℕ) → IfOk result (λ logs. HaveScanned (reads_of (D.past disk.old (D.clock disk.old))) logs n) }
        ensures counted { CountsFault (is_err result) (D.fault_count disk.old) (D.fault_count disk.new) }
    {
        Ok(LogFiles {
            first: Cursor::at_front(disk, 1)?,
            second: Cursor::at_front(disk, 2)?,
            third: Cursor::at_front(disk, 3)?,
            fourth: Cursor::at_front(disk, 4)?,
        })
    }

    /// The record of this number that counts. None exactly where there is none.
    pub(crate) fn find<D: Disk>(
        &mut self,
        alloc: Global,
        disk: &mut D,
        number: u64,
    ) -> Result<Option<Bytes>, OpenCause>
        ensures only_reads { OnlyReads D.tells D.clock D.past D.read_count disk.old disk.new }
        ensures found { IsTrue (D.tells disk.old) → HaveScanned (reads_of (D.past disk.old (D.clock disk.old))) self.old number
            → IfOk result (λ o. MatchOption o
            ((r : Record) → IsFound (reads_of (D.past disk.old (D.clock disk.old))) r → r.number ≡ number → ⊥)
            (λ b. (r : Record) × IsFound (reads_of (D.past disk.old (D.clock disk.old))) r × (r.number ≡ number) × (b ≡ record_bytes r))) }
        ensures scanned { IsTrue (D.tells disk.old) → HaveScanned (reads_of (D.past disk.old (D.clock disk.old))) self.old number
            → OnOk result (HaveScanned (reads_of (D.past disk.old (D.clock disk.old))) self.new (number + 1)) }
        ensures of_reading { IfErr result IsOfReading }
        ensures counted { CountsFault (open_disk_fails result) (D.fault_count disk.old) (D.fault_count disk.new) }
    {
        if let Some(bytes) = self.first.seek(alloc, disk, number)? {
            return Ok(Some(bytes));
        }
        if let Some(bytes) = self.second.seek(alloc, disk, number)? {
            return Ok(Some(bytes));
        }
        if let Some(bytes) = self.third.seek(alloc, disk, number)? {
            return Ok(Some(bytes));
        }
        self.fourth.seek(alloc, disk, number)
    }
}
