ghost use Rattle.std.specs.Prelude.{◌≡◌, ◌≤◌, ◌<◌, ◌+◌, ◌^◌, ℕ, IfErr, IfOk, IfSome, IsTrue, MatchOption, OnOk, Some, is_err};
ghost use Rattle.sdb_io.specs.Faults.{CountsFault};
ghost use Rattle.pdb_model.specs.Logs.{IsLogFile, IsScanned};
ghost use Rattle.pdb_model.specs.Records.{Record, record_bytes};
ghost use Rattle.pdb_recover.specs.Answers.{IsOfReading, open_disk_fails};
ghost use Rattle.pdb_recover.specs.Scanning.{OnlyReads};

use crate::cause::OpenCause;
use crate::cursor::Cursor;
use crate::record_at::{head_at, record_at};
use pdb_disk::{Disk, DiskFault};
use pdb_record::Head;
use sdb_base::Bytes;
use std::alloc::Global;

impl Cursor {
    ghost use Rattle.pdb_recover.specs.Scanning.{HasScanned};
    ghost use Rattle.pdb_recover.specs.inner.ScanSteps.{Steps};

    /// At the front of a log file.
    pub(crate) fn at_front<D: Disk>(disk: &mut D, file: u16) -> Result<Cursor, DiskFault>
        ensures only_reads { OnlyReads D.tells D.clock D.past D.read_count disk.old disk.new }
        ensures begun { IsTrue (D.tells disk.old) → (n : ℕ)
            → IfOk result (λ cursor. HasScanned (D.past disk.old (D.clock disk.old) file).read cursor n) }
        ensures file { IfOk result (λ cursor. cursor.file ≡ file) }
        ensures counted { CountsFault (is_err result) (D.fault_count disk.old) (D.fault_count disk.new) }
    {
        match head_at(disk, file, 0) {
            Ok(head) => Ok(Cursor { file, at: 0, head }),
            Err(fault) => Err(fault),
        }
    }

    /// Goes on to the record of this number, past those with lower ones. None exactly where the scan of the file comes to
    /// no record of this number.
    pub(crate) fn seek<D: Disk>(
        &mut self,
        alloc: Global,
        disk: &mut D,
        number: u64,
    ) -> Result<Option<Bytes>, OpenCause>
        ensures only_reads { OnlyReads D.tells D.clock D.past D.read_count disk.old disk.new }
        ensures found { IsTrue (D.tells disk.old) → HasScanned (D.past disk.old (D.clock disk.old) self.old.file).read self.old number
            → IfOk result (λ o. MatchOption o
            ((r : Record) → IsScanned (D.past disk.old (D.clock disk.old) self.old.file).read r → r.number ≡ number → ⊥)
            (λ b. (r : Record) × IsScanned (D.past disk.old (D.clock disk.old) self.old.file).read r × (r.number ≡ number) × (b ≡ record_bytes r))) }
        ensures scanned { IsTrue (D.tells disk.old) → HasScanned (D.past disk.old (D.clock disk.old) self.old.file).read self.old number
            → OnOk result (HasScanned (D.past disk.old (D.clock disk.old) self.old.file).read self.new (number + 1)) }
        ensures file { self.new.file ≡ self.old.file }
        ensures of_reading { IfErr result IsOfReading }
        ensures counted { CountsFault (open_disk_fails result) (D.fault_count disk.old) (D.fault_count disk.new) }
    {
        while let Some(head) = self.head {
            if head.number > number {
                return Ok(None);
            }
            let Some(bytes) = self.step(alloc, disk, head)? else {
                return Ok(None);
            };
            if head.number == number {
                return Ok(Some(bytes));
            }
        }
        Ok(None)
    }

    /// Takes the record with the header that comes next, and goes on after it. None only where no record stands there, and
    /// then nothing comes next.
    fn step<D: Disk>(
        &mut self,
        alloc: Global,
        disk: &mut D,
        head: Head,
    ) -> Result<Option<Bytes>, OpenCause>
        requires { self.old.head ≡ Some head }
        ensures only_reads { OnlyReads D.tells D.clock D.past D.read_count disk.old disk.new }
        ensures steps { IsTrue (D.tells disk.old) → (n : ℕ) → HasScanned (D.past disk.old (D.clock disk.old) self.old.file).read self.old n
            → IfOk result (Steps (D.past disk.old (D.clock disk.old) self.old.file).read self.new n head.number) }
        ensures further { IfOk result (λ o. IfSome o (λ b. self.old.at < self.new.at)) }
        ensures file { self.new.file ≡ self.old.file }
        ensures of_reading { IfErr result IsOfReading }
        ensures counted { CountsFault (open_disk_fails result) (D.fault_count disk.old) (D.fault_count disk.new) }
    {
        let Some(bytes) = record_at(alloc, disk, self.file, self.at)? else {
            self.head = None;
            return Ok(None);
        };
        self.at += bytes.len() as u64;
        match head_at(disk, self.file, self.at) {
            Ok(next) => self.head = after(next, head.number),
            Err(fault) => return Err(OpenCause::Disk(fault)),
        }
        Ok(Some(bytes))
    }
}

/// A header that goes on with the numbers.
fn after(next: Option<Head>, number: u64) -> Option<Head>
    ensures { MatchOption result ((h : Head) → next ≡ Some h → h.number ≡ number + 1 → ⊥) (λ h. (next ≡ Some h) × (h.number ≡ number + 1)) }
{
    match next {
        Some(head) if number < u64::MAX && head.number == number + 1 => Some(head),
        _ => None,
    }
}
