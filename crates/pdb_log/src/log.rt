ghost use Rattle.std.specs.Prelude.{IsTrue, ◌⊎◌, ◌≡◌, ◌≢◌, ◌≤◌, ◌<◌, ◌+◌, ◌-◌, ◌^◌, ◌++◌, ◌↔◌, ℕ, List, [], ◌∷◌, All, Contains, IfErr, IfOk, IsErr, IsErrOf, OnErr, OnOk, false, is_err, length, slice_get, slice_index, Some, if◌then◌else◌};
ghost use Rattle.sdb_io.specs.Faults.{CountsFault};
ghost use Rattle.pdb_cells.specs.Puts.{IsWholeCell, NoCellTwice};
ghost use Rattle.pdb_cells.specs.declared.Put.{Put};
ghost use Rattle.pdb_disk.specs.Files.{Begins, Elapses, MayBegin, Settles, StandsAt, done};
ghost use Rattle.pdb_disk.specs.Files.{Step as step};
ghost use Rattle.pdb_disk.specs.Moments.{Moments};
ghost use Rattle.pdb_model.specs.Logs.{IsLogFile, gate_file, most_in_log};
ghost use Rattle.pdb_model.specs.Records.{Record, body_bytes, record_bytes};
ghost use Rattle.sdb_base.specs.declared.Counter.{Counter};

use crate::fault::LogFault;
use crate::ring_file::RingFile;
use pdb_cells::Puts;
use pdb_disk::{Disk, DiskFault};
use pdb_model::GateSlot;
use pdb_record::{body_len, encode, gate_bytes};
use sdb_base::Counter;
use std::alloc::Global;

// a record ends within so many bytes of its file
const MOST: u64 = 1 << 62;

// a file with so many bytes is followed by the next of the ring
const FULL: u64 = 262_144;

// the second gate slot begins after so many bytes
const BETWEEN_SLOTS: u64 = 4096;

// a record has so many bytes around its body
const AROUND_BODY: u64 = 56;

/// Where a record stands.
#[derive(Clone, Copy, Debug, PartialEq, Eq)]
pub struct LogPlace {
    /// The record's number, from 1.
    pub number: u64,
    /// Its log file, 1 to 4.
    pub file: u16,
    /// How many bytes of the file come before it.
    pub at: u64,
    /// How many bytes it has.
    pub len: u64,
}

/// The ring of log files.
#[derive(Drop)]
pub struct Log<D> {
    disk: D,
    // the gate in force
    gate: GateSlot,
    // the number of the last record, or of the gate
    number: u64,
    // the file to which records are appended
    file: RingFile,
    // how many bytes each log file has, and how many of them are synced; their own places, 0 has none
    ends: [u64; 5],
    synced: [u64; 5],
    // the number before that of the next record in each log file
    last: [u64; 5],
}

impl<D: Disk> Log<D> {
    ghost use Rattle.pdb_model.specs.Recovery.{Row, Safe};
    ghost use Rattle.pdb_log.specs.Answers.{log_disk_fails};
    ghost use Rattle.pdb_log.specs.Ledger.{AreRows, IsEmptyFile, IsKeptGate, IsNextGate, IsPassed, Ledger, records_flushed, appended, cleared, emptied, file_synced, files_cleared, files_synced, fresh_ledger, passed, row_after};
    ghost use Rattle.pdb_log.specs.Elapsed.{TimeGoesOn};
    ghost use Rattle.pdb_log.specs.Standing.{IsCellAt, IsLog, LeavesCells, end_of_log, next_gate, next_in_ring, next_record, turned, turns};
    ghost use Rattle.pdb_log.specs.Tallies.{IsTally, Tally, with_bytes, with_gate};

    /// The log after a gate that is in force, where all log files are empty.
    pub fn begin(disk: D, gate: GateSlot) -> Log<D>
        ensures begun { (row : Row) → IsTrue (D.tells disk)
            → IsKeptGate (D.past disk (D.clock disk) gate_file) gate
            → (D.past disk (D.clock disk) gate_file).read ≡ (D.past disk (D.clock disk) gate_file).kept
            → ((j : ℕ) → IsLogFile j → IsEmptyFile (D.past disk (D.clock disk) j))
            → AreRows (row ∷ []) 0 (D.past disk (D.clock disk)) (fresh_ledger gate)
            → IsLog D.tells D.clock D.past result (fresh_ledger gate) (row ∷ []) 0 }
        ensures disk { result.disk ≡ disk }
        ensures tally { IsTally result (record { records = gate.number; gates = gate.sequence; bytes = 0 }) }
    {
        Log {
            disk,
            gate,
            number: gate.number,
            file: RingFile::first(),
            ends: [0; 5],
            synced: [0; 5],
            last: [gate.number; 5],
        }
    }

    /// Writes the record of these puts after the last one of the current file. `commits` is the number of commits in all
    /// records up to and with it. No cell is put twice, and each put is of a whole cell. `OutOfMemory` and `NumbersEnd`
    /// change nothing.
    pub fn append(&mut self, alloc: Global, commits: u64, puts: &Puts) -> Result<LogPlace, LogFault>
        requires short { length (body_bytes puts.now) ≤ 2 ^ 62 }
        requires whole { All IsWholeCell puts.now }
        requires once { NoCellTwice puts.now }
        ensures appended { (l : Ledger) → (rows : List Row) → (f : ℕ) → (row : Row)
            → IsLog D.tells D.clock D.past self.old l rows f → slice_get rows (f + length l.rest) ≡ Some row
            → OnOk result (IsLog D.tells D.clock D.past self.new (appended l self.old.file.number (next_record self.old commits puts.now))
            (rows ++ row_after row (next_record self.old commits puts.now) ∷ []) f) }
        ensures any_moment { (l : Ledger) → (rows : List Row) → (f : ℕ) → (row : Row)
            → IsLog D.tells D.clock D.past self.old l rows f → slice_get rows (f + length l.rest) ≡ Some row
            → Moments (D.clock self.old.disk) (D.clock self.new.disk) (D.past self.old.disk) (D.past self.new.disk)
            (Safe (rows ++ row_after row (next_record self.old commits puts.now) ∷ []) f) }
        ensures unchanged { IsErr result → log_disk_fails result ≡ false → self.new ≡ self.old }
        ensures place { IfOk result (λ p. p ≡ record {
          number = self.old.number + 1;
          file = self.old.file.number;
          at = end_of_log self.old;
          len = length (record_bytes (next_record self.old commits puts.now));
        }) }
        ensures records_end { IsErrOf result (LogFault.NumbersEnd Counter.Records) ↔ (self.old.number ≡ 2 ^ 64 - 1) }
        ensures bytes_end { IsErrOf result (LogFault.NumbersEnd Counter.LogBytes) ↔ ((self.old.number ≢ 2 ^ 64 - 1)
            × (most_in_log < end_of_log self.old + length (record_bytes (next_record self.old commits puts.now)))) }
        ensures ends { (which : Counter) → IsErrOf result (LogFault.NumbersEnd which) → (which ≡ Counter.Records) ⊎ (which ≡ Counter.LogBytes) }
        ensures tally { (t : Tally) → IsTally self.old t
            → OnOk result (IsTally self.new (with_bytes t (length (record_bytes (next_record self.old commits puts.now))))) }
        ensures one_call { OnOk result (D.clock self.new.disk ≡ D.clock self.old.disk + 1) }
        ensures aside { LeavesCells D.tells D.clock D.past self.old.disk self.new.disk }
        ensures goes_on { TimeGoesOn D.clock D.past self.old.disk self.new.disk }
        ensures counted { CountsFault (log_disk_fails result) (D.fault_count self.old.disk) (D.fault_count self.new.disk) }
    {
        if self.number == u64::MAX {
            return Err(LogFault::NumbersEnd {
                which: Counter::Records,
            });
        }
        let file = self.file.number;
        let at = self.ends[file as usize];
        let len = AROUND_BODY + body_len(puts.as_slice());
        if at > MOST || len > MOST - at {
            return Err(LogFault::NumbersEnd {
                which: Counter::LogBytes,
            });
        }
        let number = self.number + 1;
        let Ok(bytes) = encode(alloc, number, commits, puts) else {
            return Err(LogFault::OutOfMemory);
        };
        match self.disk.write_at(file, at, bytes.as_slice()) {
            Ok(()) => {
                self.number = number;
                self.ends[file as usize] = at + len;
                self.last[file as usize] = number;
                Ok(LogPlace {
                    number,
                    file,
                    at,
                    len,
                })
            }
            Err(fault) => Err(LogFault::Disk(fault)),
        }
    }

    /// Makes the next log file current where this one has 262,144 bytes or more and the next one is empty. It makes no
    /// device call.
    pub fn rotate(&mut self)
        ensures turned { (l : Ledger) → (rows : List Row) → (f : ℕ) → IsLog D.tells D.clock D.past self.old l rows f
            → IsLog D.tells D.clock D.past self.new (turned self.old l) rows f }
        ensures current { self.new.file.number ≡ (if turns self.old then next_in_ring self.old.file.number else self.old.file.number) }
        ensures disk { self.new.disk ≡ self.old.disk }
        ensures number { self.new.number ≡ self.old.number }
        ensures stays { turns self.old ≡ false → self.new ≡ self.old }
        ensures tally { (t : Tally) → IsTally self.old t → IsTally self.new t }
    {
        let next = self.file.next();
        if self.ends[self.file.number as usize] >= FULL && self.ends[next.number as usize] == 0 {
            self.file = next;
            self.last[next.number as usize] = self.number;
        }
    }

    /// Syncs one log file.
    fn sync_file(&mut self, file: u16) -> Result<(), DiskFault>
        requires { IsLogFile file }
        ensures synced { (l : Ledger) → (rows : List Row) → (f : ℕ) → IsLog D.tells D.clock D.past self.old l rows f
            → OnOk result (IsLog D.tells D.clock D.past self.new (file_synced l file) rows f) }
        ensures any_moment { (l : Ledger) → (rows : List Row) → (f : ℕ) → IsLog D.tells D.clock D.past self.old l rows f
            → Moments (D.clock self.old.disk) (D.clock self.new.disk) (D.past self.old.disk) (D.past self.new.disk) (Safe rows f) }
        ensures tally { (t : Tally) → IsTally self.old t → IsTally self.new t }
        ensures aside { LeavesCells D.tells D.clock D.past self.old.disk self.new.disk }
        ensures goes_on { TimeGoesOn D.clock D.past self.old.disk self.new.disk }
        ensures counted { CountsFault (is_err result) (D.fault_count self.old.disk) (D.fault_count self.new.disk) }
    {
        match self.disk.sync(file) {
            Ok(()) => {
                self.synced[file as usize] = self.ends[file as usize];
                Ok(())
            }
            Err(fault) => Err(fault),
        }
    }

    /// Syncs one log file where it has records that aren't synced.
    fn sync_records(&mut self, file: u16) -> Result<(), DiskFault>
        requires { IsLogFile file }
        ensures synced { (l : Ledger) → (rows : List Row) → (f : ℕ) → IsLog D.tells D.clock D.past self.old l rows f
            → OnOk result (IsLog D.tells D.clock D.past self.new (file_synced l file) rows f) }
        ensures any_moment { (l : Ledger) → (rows : List Row) → (f : ℕ) → IsLog D.tells D.clock D.past self.old l rows f
            → Moments (D.clock self.old.disk) (D.clock self.new.disk) (D.past self.old.disk) (D.past self.new.disk) (Safe rows f) }
        ensures idle { slice_index self.old.ends file ≤ slice_index self.old.synced file → self.new ≡ self.old }
        ensures tally { (t : Tally) → IsTally self.old t → IsTally self.new t }
        ensures aside { LeavesCells D.tells D.clock D.past self.old.disk self.new.disk }
        ensures goes_on { TimeGoesOn D.clock D.past self.old.disk self.new.disk }
        ensures counted { CountsFault (is_err result) (D.fault_count self.old.disk) (D.fault_count self.new.disk) }
    {
        if self.synced[file as usize] < self.ends[file as usize] {
            return self.sync_file(file);
        }
        Ok(())
    }

    /// Syncs the log files that have records that aren't synced. After that all records are flushed. It makes no device
    /// call where there are none.
    pub fn flush(&mut self) -> Result<(), DiskFault>
        ensures flushed { (l : Ledger) → (rows : List Row) → (f : ℕ) → IsLog D.tells D.clock D.past self.old l rows f
            → OnOk result (IsLog D.tells D.clock D.past self.new (records_flushed (files_synced l)) rows (f + length l.rest)) }
        ensures any_moment { (l : Ledger) → (rows : List Row) → (f : ℕ) → IsLog D.tells D.clock D.past self.old l rows f
            → Moments (D.clock self.old.disk) (D.clock self.new.disk) (D.past self.old.disk) (D.past self.new.disk) (Safe rows f) }
        ensures idle { (l : Ledger) → (rows : List Row) → (f : ℕ) → IsLog D.tells D.clock D.past self.old l rows f
            → ((j : ℕ) → IsLogFile j → (l.segments j).pending ≡ []) → self.new ≡ self.old }
        ensures tally { (t : Tally) → IsTally self.old t → IsTally self.new t }
        ensures aside { LeavesCells D.tells D.clock D.past self.old.disk self.new.disk }
        ensures goes_on { TimeGoesOn D.clock D.past self.old.disk self.new.disk }
        ensures counted { CountsFault (is_err result) (D.fault_count self.old.disk) (D.fault_count self.new.disk) }
    {
        self.sync_records(1)?;
        self.sync_records(2)?;
        self.sync_records(3)?;
        self.sync_records(4)?;
        Ok(())
    }

    /// Writes the gate slot that isn't in force and syncs it.
    fn write_gate(&mut self, g: GateSlot) -> Result<(), DiskFault>
        ensures gate_passed { (l : Ledger) → (rows : List Row) → (f : ℕ) → (dropped flushed : List Record)
            → IsLog D.tells D.clock D.past self.old l rows f
            → IsNextGate rows f (D.past self.old.disk (D.clock self.old.disk)) l g dropped flushed
            → OnOk result (IsLog D.tells D.clock D.past self.new (passed l g flushed) rows f) }
        ensures any_moment { (l : Ledger) → (rows : List Row) → (f : ℕ) → (dropped flushed : List Record)
            → IsLog D.tells D.clock D.past self.old l rows f
            → IsNextGate rows f (D.past self.old.disk (D.clock self.old.disk)) l g dropped flushed
            → Moments (D.clock self.old.disk) (D.clock self.new.disk) (D.past self.old.disk) (D.past self.new.disk) (Safe rows f) }
        ensures number { self.new.number ≡ self.old.number }
        ensures tally { (t : Tally) → IsTally self.old t → g.sequence ≤ t.gates → IsTally self.new t }
        ensures aside { LeavesCells D.tells D.clock D.past self.old.disk self.new.disk }
        ensures goes_on { TimeGoesOn D.clock D.past self.old.disk self.new.disk }
        ensures gate { OnOk result (self.new.gate ≡ g) }
        ensures counted { CountsFault (is_err result) (D.fault_count self.old.disk) (D.fault_count self.new.disk) }
    {
        let bytes = gate_bytes(&g);
        match self
            .disk
            .write_at(0, BETWEEN_SLOTS * (g.sequence % 2), &bytes)
        {
            Ok(()) => match self.disk.sync(0) {
                Ok(()) => {
                    self.gate = g;
                    Ok(())
                }
                Err(fault) => Err(fault),
            },
            Err(fault) => Err(fault),
        }
    }

    /// Cuts a log file whose records the gate has passed, and syncs it.
    fn clear_file(&mut self, file: u16) -> Result<(), DiskFault>
        requires { IsLogFile file }
        ensures file_emptied { (l : Ledger) → (rows : List Row) → (f : ℕ) → IsLog D.tells D.clock D.past self.old l rows f
            → IsPassed (l.segments file) l.gate.number
            → OnOk result (IsLog D.tells D.clock D.past self.new (emptied l file (self.old.number + 1)) rows f) }
        ensures any_moment { (l : Ledger) → (rows : List Row) → (f : ℕ) → IsLog D.tells D.clock D.past self.old l rows f
            → IsPassed (l.segments file) l.gate.number
            → Moments (D.clock self.old.disk) (D.clock self.new.disk) (D.past self.old.disk) (D.past self.new.disk) (Safe rows f) }
        ensures number { self.new.number ≡ self.old.number }
        ensures tally { (t : Tally) → IsTally self.old t → IsTally self.new t }
        ensures aside { LeavesCells D.tells D.clock D.past self.old.disk self.new.disk }
        ensures goes_on { TimeGoesOn D.clock D.past self.old.disk self.new.disk }
        ensures gate { self.new.gate ≡ self.old.gate }
        ensures counted { CountsFault (is_err result) (D.fault_count self.old.disk) (D.fault_count self.new.disk) }
    {
        match self.disk.cut(file) {
            Ok(()) => match self.disk.sync(file) {
                Ok(()) => {
                    self.ends[file as usize] = 0;
                    self.synced[file as usize] = 0;
                    self.last[file as usize] = self.number;
                    Ok(())
                }
                Err(fault) => Err(fault),
            },
            Err(fault) => Err(fault),
        }
    }

    /// Cuts a log file and syncs it where it has records and the gate has passed them all.
    fn clear_passed(&mut self, file: u16) -> Result<(), DiskFault>
        requires { IsLogFile file }
        ensures file_cleared { (l : Ledger) → (rows : List Row) → (f : ℕ) → IsLog D.tells D.clock D.past self.old l rows f
            → OnOk result (IsLog D.tells D.clock D.past self.new (cleared l file (self.old.number + 1)) rows f) }
        ensures any_moment { (l : Ledger) → (rows : List Row) → (f : ℕ) → IsLog D.tells D.clock D.past self.old l rows f
            → Moments (D.clock self.old.disk) (D.clock self.new.disk) (D.past self.old.disk) (D.past self.new.disk) (Safe rows f) }
        ensures number { self.new.number ≡ self.old.number }
        ensures tally { (t : Tally) → IsTally self.old t → IsTally self.new t }
        ensures aside { LeavesCells D.tells D.clock D.past self.old.disk self.new.disk }
        ensures goes_on { TimeGoesOn D.clock D.past self.old.disk self.new.disk }
        ensures gate { self.new.gate ≡ self.old.gate }
        ensures counted { CountsFault (is_err result) (D.fault_count self.old.disk) (D.fault_count self.new.disk) }
    {
        if self.ends[file as usize] > 0 && self.last[file as usize] <= self.gate.number {
            return self.clear_file(file);
        }
        Ok(())
    }

    /// Moves the gate behind the records up to this number, whose cells are in their files and synced, and empties each
    /// log file whose records it has all passed. `commits` is the number of commits in those records. The gate's sequence
    /// is below 2^64 - 1.
    pub fn clean(&mut self, number: u64, commits: u64) -> Result<(), DiskFault>
        requires { self.old.gate.sequence < 2 ^ 64 - 1 }
        ensures cleaned { (l : Ledger) → (rows : List Row) → (f : ℕ) → (dropped flushed : List Record)
            → IsLog D.tells D.clock D.past self.old l rows f
            → IsNextGate rows f (D.past self.old.disk (D.clock self.old.disk)) l (next_gate self.old number commits) dropped flushed
            → OnOk result (IsLog D.tells D.clock D.past self.new
            (files_cleared (passed l (next_gate self.old number commits) flushed) (self.old.number + 1)) rows f) }
        ensures any_moment { (l : Ledger) → (rows : List Row) → (f : ℕ) → (dropped flushed : List Record)
            → IsLog D.tells D.clock D.past self.old l rows f
            → IsNextGate rows f (D.past self.old.disk (D.clock self.old.disk)) l (next_gate self.old number commits) dropped flushed
            → Moments (D.clock self.old.disk) (D.clock self.new.disk) (D.past self.old.disk) (D.past self.new.disk) (Safe rows f) }
        ensures tally { (t : Tally) → IsTally self.old t → IsTally self.new (with_gate t) }
        ensures aside { LeavesCells D.tells D.clock D.past self.old.disk self.new.disk }
        ensures goes_on { TimeGoesOn D.clock D.past self.old.disk self.new.disk }
        ensures gate { OnOk result (self.new.gate ≡ next_gate self.old number commits) }
        ensures counted { CountsFault (is_err result) (D.fault_count self.old.disk) (D.fault_count self.new.disk) }
    {
        let gate = GateSlot {
            sequence: self.gate.sequence + 1,
            number,
            commits,
        };
        self.write_gate(gate)?;
        self.clear_passed(1)?;
        self.clear_passed(2)?;
        self.clear_passed(3)?;
        self.clear_passed(4)?;
        Ok(())
    }

    /// Fills `into` with the bytes of a file from `at` on.
    pub fn read_at(&mut self, file: u16, at: u64, into: &mut [u8]) -> Result<(), DiskFault>
        requires { at + length into.old ≤ 2 ^ 63 }
        ensures stands { (l : Ledger) → (rows : List Row) → (f : ℕ) → IsLog D.tells D.clock D.past self.old l rows f
            → IsLog D.tells D.clock D.past self.new l rows f }
        ensures bytes { OnOk result (IsTrue (D.tells self.old.disk)
            → StandsAt (D.past self.old.disk (D.clock self.old.disk) file).read at into.new) }
        ensures time { D.clock self.new.disk ≡ D.clock self.old.disk }
        ensures unchanged { D.past self.new.disk ≡ D.past self.old.disk }
        ensures told { IsTrue (D.tells self.old.disk) → IsTrue (D.tells self.new.disk) }
        ensures untold { IsTrue (D.tells self.new.disk) → IsTrue (D.tells self.old.disk) }
        ensures fault { IfErr result (λ e. e ≡ DiskFault.Read) }
        ensures rest { self.new ≡ record self.old { disk = self.new.disk } }
        ensures counted { CountsFault (is_err result) (D.fault_count self.old.disk) (D.fault_count self.new.disk) }
        ensures faults { D.fault_count self.old.disk ≤ D.fault_count self.new.disk }
        ensures reads { D.read_count self.old.disk ≤ D.read_count self.new.disk }
        ensures one_read { D.read_count self.new.disk ≤ D.read_count self.old.disk + 1 }
    {
        match self.disk.read_at(file, at, into) {
            Ok(()) => Ok(()),
            Err(fault) => Err(fault),
        }
    }

    /// Writes bytes to a file of cells. Where they are those of a cell that a flushed record puts, the log stays safe,
    /// also where the write fails.
    pub fn write_at(&mut self, file: u16, at: u64, bytes: &[u8]) -> Result<(), DiskFault>
        requires within { at + length bytes.now ≤ 2 ^ 63 }
        requires cells { 9 ≤ file }
        ensures stands { (l : Ledger) → (rows : List Row) → (f : ℕ) → (r : Record) → (p : Put)
            → IsLog D.tells D.clock D.past self.old l rows f → Contains l.flushed r → Contains r.puts p → IsCellAt p file at bytes.now
            → IsLog D.tells D.clock D.past self.new l rows f }
        ensures any_moment { (l : Ledger) → (rows : List Row) → (f : ℕ) → (r : Record) → (p : Put)
            → IsLog D.tells D.clock D.past self.old l rows f → Contains l.flushed r → Contains r.puts p → IsCellAt p file at bytes.now
            → Moments (D.clock self.old.disk) (D.clock self.new.disk) (D.past self.old.disk) (D.past self.new.disk) (Safe rows f) }
        ensures time { Elapses (D.clock self.old.disk) (D.clock self.new.disk) (D.past self.old.disk) (D.past self.new.disk) }
        ensures begun { OnOk result (IsTrue (D.tells self.old.disk) → Begins file (step.Write at bytes.now)
            (D.past self.old.disk (D.clock self.old.disk)) (D.past self.new.disk (D.clock self.new.disk))) }
        ensures written { OnOk result (IsTrue (D.tells self.old.disk) → (D.past self.new.disk (D.clock self.new.disk) file).read
            ≡ done (D.past self.old.disk (D.clock self.old.disk) file).read (step.Write at bytes.now)) }
        ensures failed { OnErr result (IsTrue (D.tells self.old.disk) → MayBegin file (step.Write at bytes.now)
            (D.past self.old.disk (D.clock self.old.disk)) (D.past self.new.disk (D.clock self.new.disk))) }
        ensures told { IsTrue (D.tells self.old.disk) → IsTrue (D.tells self.new.disk) }
        ensures fault { IfErr result (λ e. e ≡ DiskFault.Write) }
        ensures rest { self.new ≡ record self.old { disk = self.new.disk } }
        ensures counted { CountsFault (is_err result) (D.fault_count self.old.disk) (D.fault_count self.new.disk) }
        ensures reads { D.read_count self.new.disk ≡ D.read_count self.old.disk }
    {
        match self.disk.write_at(file, at, bytes) {
            Ok(()) => Ok(()),
            Err(fault) => Err(fault),
        }
    }

    /// Syncs a file of cells.
    pub fn sync(&mut self, file: u16) -> Result<(), DiskFault>
        requires { 9 ≤ file }
        ensures stands { (l : Ledger) → (rows : List Row) → (f : ℕ) → IsLog D.tells D.clock D.past self.old l rows f
            → IsLog D.tells D.clock D.past self.new l rows f }
        ensures any_moment { (l : Ledger) → (rows : List Row) → (f : ℕ) → IsLog D.tells D.clock D.past self.old l rows f
            → Moments (D.clock self.old.disk) (D.clock self.new.disk) (D.past self.old.disk) (D.past self.new.disk) (Safe rows f) }
        ensures time { Elapses (D.clock self.old.disk) (D.clock self.new.disk) (D.past self.old.disk) (D.past self.new.disk) }
        ensures synced { OnOk result (IsTrue (D.tells self.old.disk)
            → Settles file (D.past self.old.disk (D.clock self.old.disk)) (D.past self.new.disk (D.clock self.new.disk))) }
        ensures failed { OnErr result (IsTrue (D.tells self.old.disk)
            → D.past self.new.disk (D.clock self.new.disk) ≡ D.past self.old.disk (D.clock self.old.disk)) }
        ensures told { IsTrue (D.tells self.old.disk) → IsTrue (D.tells self.new.disk) }
        ensures fault { IfErr result (λ e. e ≡ DiskFault.Sync) }
        ensures rest { self.new ≡ record self.old { disk = self.new.disk } }
        ensures counted { CountsFault (is_err result) (D.fault_count self.old.disk) (D.fault_count self.new.disk) }
        ensures reads { D.read_count self.new.disk ≡ D.read_count self.old.disk }
    {
        match self.disk.sync(file) {
            Ok(()) => Ok(()),
            Err(fault) => Err(fault),
        }
    }

    /// The gate in force.
    pub fn gate(&self) -> GateSlot
        ensures { result ≡ self.now.gate }
    {
        self.gate
    }

    /// The disk.
    pub fn disk(&self) -> &D
        ensures { result.now ≡ self.now.disk }
    {
        &self.disk
    }

    /// The disk, without the log.
    pub fn into_disk(self) -> D
        ensures { result ≡ self.disk }
    {
        let Log {
            disk,
            gate: _,
            number: _,
            file: _,
            ends: _,
            synced: _,
            last: _,
        } = self;
        disk
    }
}

#[cfg(test)]
impl<D: Disk> Log<D> {
    /// The log as if the files 1 and 2 had so many bytes, and this were the last number.
    pub(crate) fn with_ends(self, first: u64, second: u64, number: u64) -> Log<D> {
        let Log {
            disk,
            gate,
            number: _,
            file,
            ends: _,
            synced,
            last,
        } = self;
        Log {
            disk,
            gate,
            number,
            file,
            ends: [0, first, second, 0, 0],
            synced,
            last,
        }
    }

    /// The current file.
    pub(crate) fn current(&self) -> u16 {
        self.file.number
    }
}
