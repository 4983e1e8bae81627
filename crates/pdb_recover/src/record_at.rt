ghost use Rattle.std.specs.Prelude.{◌≡◌, ◌≤◌, ◌<◌, ◌+◌, ◌^◌, ◌++◌, ℕ, List, IfErr, IfOk, IfSome, IsTrue, OnOk, MatchBool, MatchOption, is_err, length};
ghost use Rattle.sdb_io.specs.Faults.{CountsFault};
ghost use Rattle.pdb_model.specs.Logs.{StandsWhole};
ghost use Rattle.pdb_model.specs.Records.{Record, record_bytes};
ghost use Rattle.pdb_model.specs.Recovery.{bytes_from};
ghost use Rattle.pdb_record.specs.Heads.{IsHeaderOf};
ghost use Rattle.pdb_recover.specs.Answers.{IsOfReading, open_disk_fails};
ghost use Rattle.pdb_recover.specs.Scanning.{OnlyReads};
ghost use Rattle.pdb_recover.specs.inner.ReadPuts.{AddsPut, HasNoBody, HasNoPut};

use crate::cause::OpenCause;
use pdb_cells::size;
use pdb_disk::{Disk, DiskFault};
use pdb_record::{Head, Scan, Scanner, header, put_name};
use sdb_base::Bytes;
use std::alloc::Global;

// a record ends within so many bytes of its file
const MOST: u64 = 1 << 62;

// a header has so many bytes, a put's file and index, and a checksum
const HEADER: usize = 48;

const BEFORE_CELL: usize = 10;

const CHECKSUM: usize = 8;

// a record has so many bytes around its body
const AROUND_BODY: u64 = 56;

/// The header at a place of a file. None exactly where its 48 bytes break a rule.
pub(crate) fn head_at<D: Disk>(disk: &mut D, file: u16, at: u64) -> Result<Option<Head>, DiskFault>
    requires { at ≤ 2 ^ 62 }
    ensures only_reads { OnlyReads D.tells D.clock D.past D.read_count disk.old disk.new }
    ensures head { IsTrue (D.tells disk.old) → IfOk result (λ o.
        MatchOption o ((h : Head) → IsHeaderOf (bytes_from (D.past disk.old (D.clock disk.old) file).read at 48) h → ⊥)
        (λ h. IsHeaderOf (bytes_from (D.past disk.old (D.clock disk.old) file).read at 48) h)) }
    ensures short { IfOk result (λ o. IfSome o (λ h. h.body ≤ 2 ^ 62)) }
    ensures counted { CountsFault (is_err result) (D.fault_count disk.old) (D.fault_count disk.new) }
{
    let mut bytes = [0; HEADER];
    match disk.read_at(file, at, &mut bytes) {
        Ok(()) => Ok(header(&bytes)),
        Err(fault) => Err(fault),
    }
}

/// Adds so many bytes of a file from a place on.
fn add_bytes<D: Disk>(
    disk: &mut D,
    file: u16,
    at: u64,
    len: usize,
    bytes: &mut Vec<u8>,
) -> Result<(), OpenCause>
    requires { at + len ≤ 2 ^ 63 }
    ensures only_reads { OnlyReads D.tells D.clock D.past D.read_count disk.old disk.new }
    ensures added { IsTrue (D.tells disk.old) → OnOk result (bytes.new.items
        ≡ bytes.old.items ++ bytes_from (D.past disk.old (D.clock disk.old) file).read at len) }
    ensures len { OnOk result (length bytes.new.items ≡ length bytes.old.items + len) }
    ensures of_reading { IfErr result IsOfReading }
    ensures counted { CountsFault (open_disk_fails result) (D.fault_count disk.old) (D.fault_count disk.new) }
{
    let start = bytes.len();
    bytes.resize(start + len, 0)?;
    match disk.read_at(file, at, &mut bytes[start..]) {
        Ok(()) => Ok(()),
        Err(fault) => Err(OpenCause::Disk(fault)),
    }
}

/// Adds the bytes of the put at a place of a file. False only where no put of a whole cell stands there within so many
/// bytes.
fn add_put<D: Disk>(
    disk: &mut D,
    file: u16,
    at: u64,
    left: u64,
    bytes: &mut Vec<u8>,
) -> Result<bool, OpenCause>
    requires { at + left ≤ 2 ^ 62 }
    ensures only_reads { OnlyReads D.tells D.clock D.past D.read_count disk.old disk.new }
    ensures put { IsTrue (D.tells disk.old) → IfOk result (λ more. MatchBool more
        (AddsPut (D.past disk.old (D.clock disk.old) file).read at bytes.old.items bytes.new.items)
        (HasNoPut (D.past disk.old (D.clock disk.old) file).read at left)) }
    ensures len { IfOk result (λ more. IsTrue more
        → (length bytes.old.items + 10 ≤ length bytes.new.items) × (length bytes.new.items ≤ length bytes.old.items + left)) }
    ensures of_reading { IfErr result IsOfReading }
    ensures counted { CountsFault (open_disk_fails result) (D.fault_count disk.old) (D.fault_count disk.new) }
{
    if left < BEFORE_CELL as u64 {
        return Ok(false);
    }
    let mut name = [0; BEFORE_CELL];
    match disk.read_at(file, at, &mut name) {
        Ok(()) => {}
        Err(fault) => return Err(OpenCause::Disk(fault)),
    }
    let Some(size) = size(put_name(&name).file) else {
        return Ok(false);
    };
    if size as u64 > left - BEFORE_CELL as u64 {
        return Ok(false);
    }
    add_bytes(disk, file, at, BEFORE_CELL + size, bytes)?;
    Ok(true)
}

/// Adds the bytes of a body of so many bytes, put by put. False only where there isn't a body of whole cells.
fn add_body<D: Disk>(
    disk: &mut D,
    file: u16,
    at: u64,
    len: u64,
    bytes: &mut Vec<u8>,
) -> Result<bool, OpenCause>
    requires { at + len ≤ 2 ^ 62 }
    ensures only_reads { OnlyReads D.tells D.clock D.past D.read_count disk.old disk.new }
    ensures body { IsTrue (D.tells disk.old) → IfOk result (λ whole. MatchBool whole
        (bytes.new.items ≡ bytes.old.items ++ bytes_from (D.past disk.old (D.clock disk.old) file).read at len)
        (HasNoBody (D.past disk.old (D.clock disk.old) file).read at len)) }
    ensures len { IfOk result (λ whole. IsTrue whole → length bytes.new.items ≡ length bytes.old.items + len) }
    ensures of_reading { IfErr result IsOfReading }
    ensures counted { CountsFault (open_disk_fails result) (D.fault_count disk.old) (D.fault_count disk.new) }
{
    let mut done = 0;
    while done < len {
        let before = bytes.len();
        if !add_put(disk, file, at + done, len - done, bytes)? {
            return Ok(false);
        }
        done += (bytes.len() - before) as u64;
    }
    Ok(true)
}

/// The bytes of the record that stands whole at a place of a log file, and ends within 2^62 bytes. None exactly where none
/// does. No more memory is taken than the bytes that were seen to be puts need.
pub(crate) fn record_at<D: Disk>(
    alloc: Global,
    disk: &mut D,
    file: u16,
    at: u64,
) -> Result<Option<Bytes>, OpenCause>
    requires { at ≤ 2 ^ 62 }
    ensures only_reads { OnlyReads D.tells D.clock D.past D.read_count disk.old disk.new }
    ensures whole { IsTrue (D.tells disk.old) → IfOk result (λ o. MatchOption o
        ((r : Record) → StandsWhole (D.past disk.old (D.clock disk.old) file).read at r → ⊥)
        (λ b. (r : Record) × StandsWhole (D.past disk.old (D.clock disk.old) file).read at r × (b ≡ record_bytes r))) }
    ensures within { IfOk result (λ o. IfSome o (λ b. at + length b ≤ 2 ^ 62)) }
    ensures some { IfOk result (λ o. IfSome o (λ b. 0 < length b)) }
    ensures of_reading { IfErr result IsOfReading }
    ensures counted { CountsFault (open_disk_fails result) (D.fault_count disk.old) (D.fault_count disk.new) }
{
    let head = match head_at(disk, file, at) {
        Ok(Some(head)) => head,
        Ok(None) => return Ok(None),
        Err(fault) => return Err(OpenCause::Disk(fault)),
    };
    let len = AROUND_BODY + head.body;
    if len > MOST - at {
        return Ok(None);
    }
    let mut bytes = Vec::new(alloc);
    add_bytes(disk, file, at, HEADER, &mut bytes)?;
    if !add_body(disk, file, at + HEADER as u64, head.body, &mut bytes)? {
        return Ok(None);
    }
    add_bytes(
        disk,
        file,
        at + HEADER as u64 + head.body,
        CHECKSUM,
        &mut bytes,
    )?;
    if matches!(Scanner::new(bytes.as_slice(), 0).next(), Scan::Whole(_)) {
        Ok(Some(Bytes::from_vec(bytes)))
    } else {
        Ok(None)
    }
}
