ghost use Rattle.std.specs.Prelude.{◌≡◌, ◌+◌, ◌-◌, ◌<◌, ◌^◌, All, IfErr, IfOk, IfSome, IsTrue, OnOk};
ghost use Rattle.sdb_io.specs.Faults.{CountsFault};
ghost use Rattle.pdb_cells.specs.Puts.{IsWholeCell};
ghost use Rattle.pdb_disk.specs.Files.{reads_of};
ghost use Rattle.pdb_model.specs.Logs.{HasGate, gate_file};
ghost use Rattle.pdb_model.specs.Records.{IsRecord, Record, record_bytes};
ghost use Rattle.pdb_model.specs.declared.gate_slot.GateSlot.{GateSlot};
ghost use Rattle.pdb_recover.specs.Answers.{FindsNothing, IsOfPending, IsOfReading, open_disk_fails};
ghost use Rattle.pdb_recover.specs.Scanning.{HaveScanned, IsPending, OnlyReads, puts_all};
ghost use Rattle.pdb_recover.specs.inner.NextRecords.{FindsNext};

use crate::cause::OpenCause;
use crate::gates::read_gate_in_force;
use crate::log_files::LogFiles;
use crate::pending_puts::Pending;
use pdb_cells::PutSet;
use pdb_disk::Disk;
use pdb_record::{Scan, Scanner};
use sdb_base::{Bytes, OutOfMemory};
use std::alloc::Global;

/// Adds the puts of a record, each in the place of an earlier one of its cell, and gives its number of commits.
fn lay_record(puts: &mut PutSet, bytes: &[u8]) -> Result<u64, OutOfMemory>
    ensures commits { (r : Record) → IsRecord r → bytes.now ≡ record_bytes r → IfOk result (λ n. n ≡ r.commits) }
    ensures laid { (r : Record) → IsRecord r → bytes.now ≡ record_bytes r → OnOk result (puts.new ≡ puts_all puts.old r.puts) }
{
    let Scan::Whole(found) = Scanner::new(bytes, 0).next() else {
        return Ok(0);
    };
    let mut left = found.puts();
    while let Some(put) = left.next() {
        puts.put(put.name, put.bytes)?;
    }
    Ok(found.commits())
}

/// The record of the number after this one that counts. None exactly where there is none.
fn record_after<D: Disk>(
    alloc: Global,
    disk: &mut D,
    logs: &mut LogFiles,
    number: u64,
) -> Result<Option<Bytes>, OpenCause>
    ensures only_reads { OnlyReads D.tells D.clock D.past D.read_count disk.old disk.new }
    ensures found { IsTrue (D.tells disk.old) → HaveScanned (reads_of (D.past disk.old (D.clock disk.old))) logs.old (number + 1)
        → IfOk result (FindsNext (reads_of (D.past disk.old (D.clock disk.old))) logs.new number) }
    ensures of_reading { IfErr result IsOfReading }
    ensures counted { CountsFault (open_disk_fails result) (D.fault_count disk.old) (D.fault_count disk.new) }
    ensures below { IfOk result (λ o. IfSome o (λ b. number < 2 ^ 64 - 1)) }
{
    if number == u64::MAX {
        return Ok(None);
    }
    logs.find(alloc, disk, number + 1)
}

/// What recovery would lay over the cells. It only reads. `NoDatabase` comes exactly where neither gate slot is whole, after
/// a fault of the disk that reads them; `Disk` and `OutOfMemory` come besides.
pub fn pending<D: Disk>(alloc: Global, disk: &mut D) -> Result<Pending, OpenCause>
    ensures only_reads { OnlyReads D.tells D.clock D.past D.read_count disk.old disk.new }
    ensures found { IsTrue (D.tells disk.old) → IfOk result (IsPending (reads_of (D.past disk.old (D.clock disk.old)))) }
    ensures whole { IfOk result (λ p. All IsWholeCell p.puts) }
    ensures causes { IsTrue (D.tells disk.old) → IfErr result (IsOfPending (reads_of (D.past disk.old (D.clock disk.old)))) }
    ensures nothing { IsTrue (D.tells disk.old) → ((g : GateSlot) → ¬ HasGate (D.past disk.old (D.clock disk.old) gate_file).read g)
        → FindsNothing result }
    ensures counted { CountsFault (open_disk_fails result) (D.fault_count disk.old) (D.fault_count disk.new) }
{
    let gate = match read_gate_in_force(disk) {
        Ok(Some(gate)) => gate,
        Ok(None) => return Err(OpenCause::NoDatabase),
        Err(fault) => return Err(OpenCause::Disk(fault)),
    };
    let mut logs = match LogFiles::at_fronts(disk) {
        Ok(logs) => logs,
        Err(fault) => return Err(OpenCause::Disk(fault)),
    };
    let mut puts = PutSet::new(alloc);
    let mut number = gate.number;
    let mut commits = gate.commits;
    while let Some(record) = record_after(alloc, disk, &mut logs, number)? {
        commits = lay_record(&mut puts, record.as_slice())?;
        number += 1;
    }
    Ok(Pending {
        gate,
        number,
        commits,
        puts: puts.into_puts(),
    })
}
