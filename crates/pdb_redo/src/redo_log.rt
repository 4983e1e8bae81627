ghost use Rattle.std.specs.Prelude.{◌≡◌, ◌≢◌, ◌⊎◌, ◌≤◌, ◌<◌, ◌+◌, ◌-◌, ◌*◌, ◌^◌, ◌++◌, ◌↔◌, ℕ, List, [], ◌∷◌, All, IfErr, IfOk, IsErr, IsErrOf, IsTrue, MatchOption, MatchResult, None, OnErr, OnOk, Ok, Err, Some, false, true, is_err, length, set, slice_get};
ghost use Rattle.sdb_io.specs.Faults.{CountsFault};
ghost use Rattle.pdb_cells.specs.Puts.{IsWholeCell, NoCellTwice};
ghost use Rattle.pdb_cells.specs.Sizes.{size_of};
ghost use Rattle.pdb_disk.specs.Files.{Files};
ghost use Rattle.pdb_disk.specs.Moments.{Moments};
ghost use Rattle.pdb_log.specs.Elapsed.{TimeGoesOn};
ghost use Rattle.pdb_log.specs.Ledger.{IsEmptyFile, row_after};
ghost use Rattle.pdb_model.specs.Logs.{IsLogFile, most_in_log};
ghost use Rattle.pdb_log.specs.Standing.{end_of_log};
ghost use Rattle.pdb_log.specs.Tallies.{Tally, with_bytes, with_gate};
ghost use Rattle.pdb_model.specs.Records.{Record, body_bytes, record_bytes};
ghost use Rattle.pdb_model.specs.Recovery.{Row, Safe};
ghost use Rattle.pdb_redo.specs.Backlogs.{HasPlaceFor, records_in};
ghost use Rattle.pdb_redo.specs.inner.Carrying.{AreMarked, EndAt, HaveWholeCells, heads_laid};
ghost use Rattle.pdb_redo.specs.inner.Writing.{AreDone, IsDone, MarksOthers, Passes, SettlesMarked, Writes, WritesAll};

use crate::backlog::Backlog;
use crate::fault::RedoFault;
use crate::heads::Heads;
use crate::recorded::Recorded;
use crate::waiting::Waiting;
use pdb_cells::{CellName, HEAD_FILE, Put, Puts};
use pdb_disk::{Disk, DiskFault};
use pdb_log::{Log, LogFault};
use pdb_record::body_len;
use sdb_base::Counter;
use std::alloc::Global;

// every file of the store has a number below this, and this many is how many marks of files there are
pub(crate) const END_OF_FILES: usize = 66;

// a record's body has at most so many bytes, and a put takes so many before its cell's
const MOST_IN_BODY: u64 = 1 << 62;

const BEFORE_CELL: u64 = 10;

/// How far records have come: the last one that did, and the commits up to and with it.
#[derive(Clone, Copy, Debug, PartialEq, Eq)]
pub(crate) struct Mark {
    pub(crate) number: u64,
    pub(crate) commits: u64,
}

/// Cells on a disk, which records change.
#[derive(Drop)]
pub struct Redo<D> {
    pub(crate) log: Log<D>,
    // the records that aren't enacted, among them the newest bytes of each of their cells
    pub(crate) backlog: Backlog,
    // the newest head cells
    pub(crate) heads: Heads,
    // the last record that was appended, flushed, enacted
    pub(crate) appended: Mark,
    pub(crate) flushed: Mark,
    pub(crate) enacted: Mark,
    // which files enacting wrote since they were last synced
    pub(crate) written: [bool; 66],
    // how many cells but head cells were read from the disk, counted on from its reads at opening
    pub(crate) reads: u64,
    // the call of the disk that failed, after which no other may change it
    pub(crate) stopped: Option<u64>,
    // whatever the disk tells, each record that waits puts whole cells, and the last one that was appended is the last one
    ghost whole: { HaveWholeCells (records_in backlog) },
    ghost last: { EndAt (records_in backlog) appended.number },
    // these records have the numbers after the enacted one up to the appended one, and the flushed one is between the two
    ghost marked: { AreMarked enacted.number flushed.number appended.number (records_in backlog) },
}

/// Whether the body of a record of these puts has at most 2^62 bytes.
fn is_short(puts: &[Put]) -> bool
    ensures { IsTrue result ↔ (length (body_bytes puts.now) ≤ 2 ^ 62) }
{
    let mut len: u64 = 0;
    for put in puts {
        len = len
            .saturating_add(BEFORE_CELL)
            .saturating_add(put.bytes.len() as u64);
        if len > MOST_IN_BODY {
            return false;
        }
    }
    true
}

/// Writes a cell that a flushed record puts to its file, and marks the file.
fn write_put<D: Disk>(
    log: &mut Log<D>,
    written: &mut [bool; 66],
    put: &Put,
) -> Result<(), DiskFault>
    requires { IsWholeCell put.now }
    ensures writes { Writes D.tells D.clock D.past put.now log.old log.new }
    ensures done { OnOk result (IsTrue (D.tells log.old.disk) → IsDone D.clock D.past put.now log.old log.new) }
    ensures marked { OnOk result (written.new ≡ set written.old put.now.name.file true) }
    ensures counted { CountsFault (is_err result) (D.fault_count log.old.disk) (D.fault_count log.new.disk) }
{
    let at = put.name.index * put.bytes.len() as u64;
    match log.write_at(put.name.file, at, put.bytes.as_slice()) {
        Ok(()) => {
            written[put.name.file as usize] = true;
            Ok(())
        }
        Err(fault) => Err(fault),
    }
}

/// Writes the cells of a flushed record to their files, in their order.
fn write_puts<D: Disk>(
    log: &mut Log<D>,
    written: &mut [bool; 66],
    puts: &[Put],
) -> Result<(), DiskFault>
    requires { All IsWholeCell puts.now }
    ensures writes { WritesAll D.tells D.clock D.past puts.now log.old log.new }
    ensures done { OnOk result (IsTrue (D.tells log.old.disk) → AreDone D.clock D.past puts.now log.old log.new) }
    ensures marked { OnOk result (IsTrue (D.tells log.old.disk) → MarksOthers D.clock D.past written.old written.new log.old log.new) }
    ensures counted { CountsFault (is_err result) (D.fault_count log.old.disk) (D.fault_count log.new.disk) }
{
    for put in puts {
        write_put(log, written, put)?;
    }
    Ok(())
}

/// Syncs the marked files and unmarks them.
fn sync_written<D: Disk>(log: &mut Log<D>, written: &mut [bool; 66]) -> Result<(), DiskFault>
    ensures passes { Passes D.tells D.clock D.past log.old log.new }
    ensures settled { OnOk result (IsTrue (D.tells log.old.disk) → SettlesMarked D.clock D.past written.old log.old log.new) }
    ensures counted { CountsFault (is_err result) (D.fault_count log.old.disk) (D.fault_count log.new.disk) }
{
    for file in 9..END_OF_FILES {
        if written[file] {
            log.sync(file as u16)?;
            written[file] = false;
        }
    }
    Ok(())
}

/// The count of reads after one of a cell of this file.
fn reads_after(file: u16, reads: u64) -> u64
    ensures rises { reads ≤ result }
    ensures one { result ≤ reads + 1 }
    ensures head { file ≡ 9 → result ≡ reads }
{
    if file == HEAD_FILE {
        reads
    } else {
        reads.saturating_add(1)
    }
}

/// Sets the head cells that are put.
fn put_heads(heads: &mut Heads, puts: &[Put])
    requires { All IsWholeCell puts.now }
    ensures { heads.new ≡ heads_laid heads.old puts.now }
{
    for put in puts {
        heads.put(put.name, put.bytes.as_slice());
    }
}

impl<D: Disk> Redo<D> {
    ghost use Rattle.pdb_redo.specs.Answers.{IsOfAppending, IsOfCleaning, IsOfFlushing, IsOfRedoRead, StopsAt, redo_disk_fails};
    ghost use Rattle.pdb_redo.specs.Reaches.{Advances, RedoGoesOn, all_ready, reach_of, with_logged};
    ghost use Rattle.pdb_redo.specs.Standing.{IsStanding, KeepsRedo, cells_under_records, next_redo_record, KeepsCells};
    ghost use Rattle.pdb_redo.specs.Tallies.{IsRedoTally};

    /// Fills `into` with a cell of the last row: its bytes in the newest record that puts it, else those in its file. It
    /// takes no memory and never answers `Stopped`; `Disk` comes only where the disk's count of faults rises.
    pub fn read_cell(&mut self, name: CellName, into: &mut [u8]) -> Result<(), RedoFault>
        requires sized { size_of name.file ≡ Some (length into.old) }
        requires index { name.index < 2 ^ 32 }
        ensures bytes { IsTrue (D.tells self.old.log.disk)
            → OnOk result (into.new ≡ cells_under_records D.clock D.past self.old name.file name.index) }
        ensures row { (rows : List Row) (f : ℕ) (row : Row) → IsStanding D.tells D.clock D.past self.old rows f
            → slice_get rows (length rows - 1) ≡ Some row → OnOk result (into.new ≡ row.cells name.file name.index) }
        ensures stands { (rows : List Row) (f : ℕ) → IsStanding D.tells D.clock D.past self.old rows f
            → IsStanding D.tells D.clock D.past self.new rows f }
        ensures keeps { KeepsRedo D.tells D.clock D.past D.fault_count self.old self.new }
        ensures causes { IfErr result IsOfRedoRead }
        ensures reads { (self.old.reads ≤ self.new.reads) × (self.new.reads ≤ self.old.reads + 1) }
        ensures head { name.file ≡ 9 → self.new.reads ≡ self.old.reads }
        ensures counted { CountsFault (redo_disk_fails result) (D.fault_count self.old.log.disk) (D.fault_count self.new.log.disk) }
    {
        if let Some(head) = self.heads.get(name) {
            into.copy_from_slice(head);
            return Ok(());
        }
        if let Some(bytes) = self.backlog.get(&name) {
            into.copy_from_slice(bytes);
            return Ok(());
        }
        self.reads = reads_after(name.file, self.reads);
        let at = name.index * into.len() as u64;
        match self.log.read_at(name.file, at, into) {
            Ok(()) => Ok(()),
            Err(fault) => Err(RedoFault::Disk(fault)),
        }
    }

    /// Logs a record of these puts: `commits` is the number of commits in all records up to and with it. No cell is put
    /// twice, and each put is of a whole cell. It gives the record's number. `OutOfMemory` and `NumbersEnd` leave the rows as
    /// they were.
    pub fn append(&mut self, alloc: Global, commits: u64, puts: Puts) -> Result<u64, RedoFault>
        requires whole { All IsWholeCell puts }
        requires once { NoCellTwice puts }
        ensures appended { (rows : List Row) (f : ℕ) (row : Row) → IsStanding D.tells D.clock D.past self.old rows f
            → slice_get rows (length rows - 1) ≡ Some row
            → OnOk result (IsStanding D.tells D.clock D.past self.new (rows ++ row_after row (next_redo_record self.old commits puts) ∷ []) f) }
        ensures any_moment { (rows : List Row) (f : ℕ) (row : Row) → IsStanding D.tells D.clock D.past self.old rows f
            → slice_get rows (length rows - 1) ≡ Some row
            → Moments (D.clock self.old.log.disk) (D.clock self.new.log.disk) (D.past self.old.log.disk) (D.past self.new.log.disk)
            (Safe (rows ++ row_after row (next_redo_record self.old commits puts) ∷ []) f) }
        ensures number { IfOk result (λ n. n ≡ self.old.appended.number + 1) }
        ensures refused { OnErr result (redo_disk_fails result ≡ false → (self.new.log ≡ self.old.log) × (self.new.stopped ≡ self.old.stopped)
            × ((rows : List Row) (f : ℕ) → IsStanding D.tells D.clock D.past self.old rows f → IsStanding D.tells D.clock D.past self.new rows f)) }
        ensures last { OnErr result (self.new.appended ≡ self.old.appended) }
        ensures records_end { (rows : List Row) (f : ℕ) → IsStanding D.tells D.clock D.past self.old rows f
            → (IsErrOf result (RedoFault.NumbersEnd Counter.Records) ↔ (self.old.appended.number ≡ 2 ^ 64 - 1)) }
        ensures records_cause { IsErrOf result (RedoFault.NumbersEnd Counter.Records)
            → (self.old.appended.number ≡ 2 ^ 64 - 1) ⊎ (self.old.log.number ≡ 2 ^ 64 - 1) }
        ensures bytes_end { IsErrOf result (RedoFault.NumbersEnd Counter.LogBytes)
            → most_in_log < end_of_log self.old.log + length (record_bytes (next_redo_record self.old commits puts)) }
        ensures fits { OnOk result (end_of_log self.old.log + length (record_bytes (next_redo_record self.old commits puts)) ≤ most_in_log) }
        ensures causes { IfErr result IsOfAppending }
        ensures stopped { (call : ℕ) → self.old.stopped ≡ Some call → (result ≡ Err (RedoFault.Stopped call)) × (self.new ≡ self.old) }
        ensures stops { self.old.stopped ≡ None → StopsAt (D.clock self.new.log.disk) self.new.stopped result }
        ensures cells { IsTrue (D.tells self.old.log.disk) → IsErr result → KeepsCells D.clock D.past self.old self.new }
        ensures reach { MatchResult result (λ _. reach_of self.new ≡ with_logged (reach_of self.old) commits) (λ _. reach_of self.new ≡ reach_of self.old) }
        ensures tally { (t : Tally) → IsRedoTally self.old t
            → OnOk result (IsRedoTally self.new (with_bytes t (length (record_bytes (next_redo_record self.old commits puts))))) }
        ensures goes_on { RedoGoesOn D.clock D.past self.old self.new }
        ensures one_call { OnOk result (D.clock self.new.log.disk ≡ D.clock self.old.log.disk + 1) }
        ensures told { IsTrue (D.tells self.old.log.disk) → IsTrue (D.tells self.new.log.disk) }
        ensures counted { CountsFault (redo_disk_fails result) (D.fault_count self.old.log.disk) (D.fault_count self.new.log.disk) }
    {
        if let Some(call) = self.stopped {
            return Err(RedoFault::Stopped { call });
        }
        if self.appended.number == u64::MAX {
            return Err(RedoFault::NumbersEnd {
                which: Counter::Records,
            });
        }
        if !is_short(puts.as_slice()) {
            return Err(RedoFault::NumbersEnd {
                which: Counter::LogBytes,
            });
        }
        self.backlog.make_room(&puts)?;
        match self.log.append(alloc, commits, &puts) {
            Ok(_) => {
                self.log.rotate();
                Ok(self.add_waiting(commits, puts))
            }
            Err(LogFault::OutOfMemory) => Err(RedoFault::OutOfMemory),
            Err(LogFault::NumbersEnd { which }) => Err(RedoFault::NumbersEnd { which }),
            Err(LogFault::Disk(fault)) => Err(self.stop(fault)),
        }
    }

    /// Adds a record that was logged to those that wait, for which there is room, and gives its number.
    fn add_waiting(&mut self, commits: u64, puts: Puts) -> u64
        requires whole { All IsWholeCell puts }
        requires once { NoCellTwice puts }
        requires room { HasPlaceFor self.old.backlog puts }
        requires below { self.old.appended.number < 2 ^ 64 - 1 }
        ensures log { self.new.log ≡ self.old.log }
        ensures marks { (self.new.flushed ≡ self.old.flushed) × (self.new.enacted ≡ self.old.enacted) }
        ensures files { self.new.written ≡ self.old.written }
        ensures stopped { self.new.stopped ≡ self.old.stopped }
        ensures waiting { records_in self.new.backlog ≡ records_in self.old.backlog ++ next_redo_record self.old commits puts ∷ [] }
        ensures heads { self.new.heads ≡ heads_laid self.old.heads puts }
        ensures appended { self.new.appended ≡ record { number = self.old.appended.number + 1; commits = commits } }
        ensures reads { self.new.reads ≡ self.old.reads }
        ensures number { result ≡ self.old.appended.number + 1 }
    {
        put_heads(&mut self.heads, puts.as_slice());
        let number = self.appended.number + 1;
        self.appended = Mark { number, commits };
        self.backlog.push(Waiting {
            number,
            commits,
            puts,
        });
        number
    }

    /// Notes that a call of the disk failed.
    fn stop(&mut self, fault: DiskFault) -> RedoFault
        ensures fault { result ≡ RedoFault.Disk fault }
        ensures noted { self.new ≡ record self.old { stopped = Some (D.clock self.old.log.disk) } }
    {
        self.stopped = Some(self.log.disk().calls());
        RedoFault::Disk(fault)
    }

    /// Makes all appended records safe from a crash: it syncs each log file with records that aren't synced. It gives the
    /// number of commits up to and with the last one, or at opening where there is none.
    pub fn flush(&mut self) -> Result<u64, RedoFault>
        ensures flushed { (rows : List Row) (f : ℕ) → IsStanding D.tells D.clock D.past self.old rows f
            → OnOk result (IsStanding D.tells D.clock D.past self.new rows (length rows - 1)) }
        ensures any_moment { (rows : List Row) (f : ℕ) → IsStanding D.tells D.clock D.past self.old rows f
            → Moments (D.clock self.old.log.disk) (D.clock self.new.log.disk) (D.past self.old.log.disk) (D.past self.new.log.disk) (Safe rows f) }
        ensures answer { (rows : List Row) (f : ℕ) (row : Row) → IsStanding D.tells D.clock D.past self.old rows f
            → slice_get rows (length rows - 1) ≡ Some row → IfOk result (λ n. n ≡ row.commits) }
        ensures causes { IfErr result IsOfFlushing }
        ensures stopped { (call : ℕ) → self.old.stopped ≡ Some call → (result ≡ Err (RedoFault.Stopped call)) × (self.new ≡ self.old) }
        ensures stops { self.old.stopped ≡ None → StopsAt (D.clock self.new.log.disk) self.new.stopped result }
        ensures cells { IsTrue (D.tells self.old.log.disk) → IsErr result → KeepsCells D.clock D.past self.old self.new }
        ensures reach { MatchResult result (λ n. (n ≡ (reach_of self.old).logged) × (reach_of self.new ≡ all_ready (reach_of self.old)))
            (λ _. reach_of self.new ≡ reach_of self.old) }
        ensures tally { (t : Tally) → IsRedoTally self.old t → IsRedoTally self.new t }
        ensures goes_on { RedoGoesOn D.clock D.past self.old self.new }
        ensures told { IsTrue (D.tells self.old.log.disk) → IsTrue (D.tells self.new.log.disk) }
        ensures counted { CountsFault (redo_disk_fails result) (D.fault_count self.old.log.disk) (D.fault_count self.new.log.disk) }
    {
        if let Some(call) = self.stopped {
            return Err(RedoFault::Stopped { call });
        }
        match self.log.flush() {
            Ok(()) => {
                self.flushed = self.appended;
                Ok(self.flushed.commits)
            }
            Err(fault) => Err(self.stop(fault)),
        }
    }

    /// Writes the cells of the oldest flushed record that isn't enacted to their files, and gives the number of commits up to
    /// and with it. None exactly where no flushed record waits.
    pub fn enact(&mut self) -> Result<Option<u64>, RedoFault>
        ensures enacted { (rows : List Row) (f : ℕ) → IsStanding D.tells D.clock D.past self.old rows f
            → OnOk result (IsStanding D.tells D.clock D.past self.new rows f) }
        ensures any_moment { (rows : List Row) (f : ℕ) → IsStanding D.tells D.clock D.past self.old rows f
            → Moments (D.clock self.old.log.disk) (D.clock self.new.log.disk) (D.past self.old.log.disk) (D.past self.new.log.disk) (Safe rows f) }
        ensures answer { (rows : List Row) (f : ℕ) → IsStanding D.tells D.clock D.past self.old rows f
            → IfOk result (λ o. MatchOption o (self.old.enacted.number ≡ self.old.flushed.number)
            (λ n. (r : Record) × (slice_get (records_in self.old.backlog) 0 ≡ Some r) × (n ≡ r.commits) × (self.new.enacted.number ≡ r.number))) }
        ensures idle { self.old.enacted.number ≡ self.old.flushed.number → OnOk result ((result ≡ Ok None) × (self.new ≡ self.old)) }
        ensures nothing { result ≡ Ok None → self.new ≡ self.old }
        ensures causes { IfErr result IsOfFlushing }
        ensures stopped { (call : ℕ) → self.old.stopped ≡ Some call → (result ≡ Err (RedoFault.Stopped call)) × (self.new ≡ self.old) }
        ensures stops { self.old.stopped ≡ None → StopsAt (D.clock self.new.log.disk) self.new.stopped result }
        ensures cells { (rows : List Row) (f : ℕ) → IsStanding D.tells D.clock D.past self.old rows f
            → IsErr result → KeepsCells D.clock D.past self.old self.new }
        ensures reach { MatchResult result (λ o. Advances (reach_of self.old) o (reach_of self.new)) (λ _. reach_of self.new ≡ reach_of self.old) }
        ensures tally { (t : Tally) → IsRedoTally self.old t → IsRedoTally self.new t }
        ensures goes_on { RedoGoesOn D.clock D.past self.old self.new }
        ensures told { IsTrue (D.tells self.old.log.disk) → IsTrue (D.tells self.new.log.disk) }
        ensures counted { CountsFault (redo_disk_fails result) (D.fault_count self.old.log.disk) (D.fault_count self.new.log.disk) }
    {
        if let Some(call) = self.stopped {
            return Err(RedoFault::Stopped { call });
        }
        if self.enacted.number == self.flushed.number {
            return Ok(None);
        }
        let Some(record) = self.backlog.first() else {
            return Ok(None);
        };
        let mark = Mark {
            number: record.number,
            commits: record.commits,
        };
        match write_puts(&mut self.log, &mut self.written, record.puts.as_slice()) {
            Ok(()) => {
                self.backlog.pop();
                self.enacted = mark;
                Ok(Some(mark.commits))
            }
            Err(fault) => Err(self.stop(fault)),
        }
    }

    /// Moves the gate behind the records that were enacted since it was last moved, and empties each log file whose records
    /// it has all passed: the files that enacting wrote are synced before. It gives the number of commits up to and with the
    /// last record that was enacted, or at opening where there is none. It makes no device call where no record was enacted
    /// since.
    pub fn clean(&mut self) -> Result<u64, RedoFault>
        ensures cleaned { (rows : List Row) (f : ℕ) → IsStanding D.tells D.clock D.past self.old rows f
            → OnOk result (IsStanding D.tells D.clock D.past self.new rows f) }
        ensures any_moment { (rows : List Row) (f : ℕ) → IsStanding D.tells D.clock D.past self.old rows f
            → Moments (D.clock self.old.log.disk) (D.clock self.new.log.disk) (D.past self.old.log.disk) (D.past self.new.log.disk) (Safe rows f) }
        ensures passed { OnOk result (self.new.log.gate.number ≡ self.old.enacted.number) }
        ensures empty { (rows : List Row) (f : ℕ) → IsStanding D.tells D.clock D.past self.old rows f
            → self.old.enacted.number ≡ self.old.appended.number
            → OnOk result ((j : ℕ) → IsLogFile j → IsEmptyFile (D.past self.new.log.disk (D.clock self.new.log.disk) j)) }
        ensures answer { IfOk result (λ n. n ≡ self.old.enacted.commits) }
        ensures idle { self.old.enacted.number ≡ self.old.log.gate.number → self.new ≡ self.old }
        ensures gates_end { self.old.stopped ≡ None → (IsErrOf result (RedoFault.NumbersEnd Counter.Gates)
            ↔ ((self.old.enacted.number ≢ self.old.log.gate.number) × (self.old.log.gate.sequence ≡ 2 ^ 64 - 1))) }
        ensures refused { OnErr result (redo_disk_fails result ≡ false → self.new ≡ self.old) }
        ensures causes { IfErr result IsOfCleaning }
        ensures stopped { (call : ℕ) → self.old.stopped ≡ Some call → (result ≡ Err (RedoFault.Stopped call)) × (self.new ≡ self.old) }
        ensures stops { self.old.stopped ≡ None → StopsAt (D.clock self.new.log.disk) self.new.stopped result }
        ensures cells { IsTrue (D.tells self.old.log.disk) → IsErr result → KeepsCells D.clock D.past self.old self.new }
        ensures reach { reach_of self.new ≡ reach_of self.old }
        ensures tally { (t : Tally) → IsRedoTally self.old t → IsRedoTally self.new (with_gate t) }
        ensures goes_on { RedoGoesOn D.clock D.past self.old self.new }
        ensures told { IsTrue (D.tells self.old.log.disk) → IsTrue (D.tells self.new.log.disk) }
        ensures counted { CountsFault (redo_disk_fails result) (D.fault_count self.old.log.disk) (D.fault_count self.new.log.disk) }
    {
        if let Some(call) = self.stopped {
            return Err(RedoFault::Stopped { call });
        }
        let gate = self.log.gate();
        if self.enacted.number == gate.number {
            return Ok(self.enacted.commits);
        }
        if gate.sequence == u64::MAX {
            return Err(RedoFault::NumbersEnd {
                which: Counter::Gates,
            });
        }
        match self.pass_enacted() {
            Ok(()) => Ok(self.enacted.commits),
            Err(fault) => Err(self.stop(fault)),
        }
    }

    /// Syncs the files that enacting wrote, and moves the gate.
    fn pass_enacted(&mut self) -> Result<(), DiskFault>
        requires { self.old.log.gate.sequence < 2 ^ 64 - 1 }
        ensures cleaned { (rows : List Row) (f : ℕ) → IsStanding D.tells D.clock D.past self.old rows f
            → OnOk result (IsStanding D.tells D.clock D.past self.new rows f) }
        ensures any_moment { (rows : List Row) (f : ℕ) → IsStanding D.tells D.clock D.past self.old rows f
            → Moments (D.clock self.old.log.disk) (D.clock self.new.log.disk) (D.past self.old.log.disk) (D.past self.new.log.disk) (Safe rows f) }
        ensures passed { OnOk result (self.new.log.gate.number ≡ self.old.enacted.number) }
        ensures empty { (rows : List Row) (f : ℕ) → IsStanding D.tells D.clock D.past self.old rows f
            → self.old.enacted.number ≡ self.old.appended.number
            → OnOk result ((j : ℕ) → IsLogFile j → IsEmptyFile (D.past self.new.log.disk (D.clock self.new.log.disk) j)) }
        ensures rest { self.new ≡ record self.old { log = self.new.log; written = self.new.written } }
        ensures cells { IsTrue (D.tells self.old.log.disk) → KeepsCells D.clock D.past self.old self.new }
        ensures tally { (t : Tally) → IsRedoTally self.old t → IsRedoTally self.new (with_gate t) }
        ensures goes_on { TimeGoesOn D.clock D.past self.old.log.disk self.new.log.disk }
        ensures told { IsTrue (D.tells self.old.log.disk) → IsTrue (D.tells self.new.log.disk) }
        ensures counted { CountsFault (is_err result) (D.fault_count self.old.log.disk) (D.fault_count self.new.log.disk) }
    {
        sync_written(&mut self.log, &mut self.written)?;
        self.log.clean(self.enacted.number, self.enacted.commits)
    }

    /// How many commits are in records that were appended, flushed and enacted, those found at opening included.
    pub fn recorded(&self) -> Recorded
        ensures { result ≡ record {
          appended = (reach_of self.now).logged;
          flushed = (reach_of self.now).flushed;
          enacted = (reach_of self.now).enacted;
        } }
    {
        Recorded {
            appended: self.appended.commits,
            flushed: self.flushed.commits,
            enacted: self.enacted.commits,
        }
    }

    /// The call of the disk that failed, after which no other may change it: its number is the disk's clock right after it.
    pub fn stopped(&self) -> Option<u64>
        ensures { result ≡ self.now.stopped }
    {
        self.stopped
    }

    /// The newest head cell of a column, 0 or 1. It is kept in memory, so that no call of the disk is made.
    pub fn head(&self, column: u8) -> &[u8; 256]
        requires { column ≤ 1 }
        ensures { result.now ≡ cells_under_records D.clock D.past self.now 9 column }
    {
        if column == 0 {
            &self.heads.first
        } else {
            &self.heads.second
        }
    }

    /// The disk's clock.
    pub fn calls(&self) -> u64
        ensures { result ≡ D.clock self.now.log.disk }
    {
        self.log.disk().calls()
    }

    /// The disk, without the records that wait.
    pub fn into_disk(self) -> D
        ensures { result ≡ self.log.disk }
    {
        let Redo {
            log,
            backlog: _,
            heads: _,
            appended: _,
            flushed: _,
            enacted: _,
            written: _,
            reads: _,
            stopped: _,
        } = self;
        log.into_disk()
    }
}
