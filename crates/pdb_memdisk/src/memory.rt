ghost use Rattle.std.specs.Prelude.{◌≡◌, ◌≤◌, ◌<◌, ◌+◌, ◌-◌, ◌^◌, ◌⊎◌, ◌↔◌, ◌++◌, ◌∷◌, [], ℕ, length, map, true, false, not, is_err, if◌then◌else◌, Ok, IfOk, IfErr, OnOk, OnErr, IsErr, IsTrue, IsFalse};
ghost use Rattle.std.specs.List.{All, Contains};
ghost use Rattle.sdb_io.specs.Faults.{CountsFault, one_more};
ghost use Rattle.pdb_disk.specs.Files.{Elapses, Begins, MayBegin, Settles, StandsAt, IsImage, done, reads_of};
ghost use Rattle.pdb_memdisk.specs.Images.{keeps_of, listed};
ghost use Rattle.pdb_disk.specs.Files.{Step as step};
ghost use Rattle.pdb_memdisk.specs.Contents.{image_of, all_settled};
ghost use Rattle.pdb_memdisk.specs.Record.{replayed};
ghost use Rattle.pdb_memdisk.specs.inner.Steps.{applied, Does};

use crate::contents::FileSet;
use crate::disks::Disks;
use crate::images::{kept_files, listed_sets, pending_changes};
use crate::record::{Action, Call, Change};
use pdb_disk::{Disk, DiskFault};
use sdb_io::OutOfMemory;
use std::alloc::Global;

/// A disk in memory. It tells its content, and keeps each write, cut and sync that was begun.
#[derive(Drop)]
pub struct MemDisk {
    alloc: Global,
    // the files at first, and as they are read now
    base: FileSet,
    files: FileSet,
    // the writes, cuts and syncs that were begun
    calls: Vec<Call>,
    clock: u64,
    reads: u64,
    faults: u64,
    // how many calls there were that can fail, which of them are to, and from which on all are to
    tried: u64,
    failing: Vec<u64>,
    fuse: u64,
    // memory was found for every call
    complete: bool,
    ghost stamped: { All (λ c. c.stamp ≤ clock) calls.items },
    ghost tied: { image_of files ≡ reads_of (replayed (all_settled (image_of base)) calls.items) },
}

// Does an action on a file; a sync leaves all files. An `Err` changes no file.
fn carry_out(
    alloc: Global,
    files: &mut FileSet,
    file: u16,
    action: &Action,
) -> Result<(), OutOfMemory>
    ensures ok { OnOk result (image_of files.new ≡ applied (image_of files.old) file action.now) }
    ensures err { OnErr result (image_of files.new ≡ image_of files.old) }
{
    match action {
        Action::Changes(change) => files.apply(alloc, file, change),
        Action::Syncs => Ok(()),
    }
}

// Does a call, if it is to be done, and keeps it. An `Err` changes no file.
fn keep(
    alloc: Global,
    files: &mut FileSet,
    calls: &mut Vec<Call>,
    call: Call,
) -> Result<(), OutOfMemory>
    ensures ok { OnOk result (calls.new.items ≡ calls.old.items ++ call ∷ []) }
    ensures done { OnOk result (image_of files.new
        ≡ (if call.done then applied (image_of files.old) call.file call.action else image_of files.old)) }
    ensures err { OnErr result ((calls.new.items ≡ calls.old.items) × (image_of files.new ≡ image_of files.old)) }
{
    calls.reserve(1)?;
    if call.done {
        carry_out(alloc, files, call.file, &call.action)?;
    }
    calls.push_reserved(call);
    Ok(())
}

impl MemDisk {
    ghost use Rattle.pdb_memdisk.specs.Memory.{clock_of, reads_by, failed_by, past_of, now_of, tried_by, to_fail, fuse_of, IsToFail, IsComplete, IsFresh, SamePlan, SameState, image_now, pending_of};

    /// A disk whose files are empty.
    pub fn new(alloc: Global) -> MemDisk
        ensures fresh { IsFresh result }
        ensures blank { (j i : ℕ) → reads_of (now_of result) j i ≡ 0 }
    {
        MemDisk {
            alloc,
            base: FileSet::new(alloc),
            files: FileSet::new(alloc),
            calls: Vec::new(alloc),
            clock: 0,
            reads: 0,
            faults: 0,
            tried: 0,
            failing: Vec::new(alloc),
            fuse: u64::MAX,
            complete: true,
        }
    }

    /// Makes that call fail, counted from 0 over all calls of `read_at`, `write_at`, `cut` and `sync` since the disk was
    /// made. It moves no byte. An `Err` changes nothing.
    pub fn fail_at(&mut self, call: u64) -> Result<(), OutOfMemory>
        ensures ok { OnOk result (to_fail self.new ≡ to_fail self.old ++ call ∷ []) }
        ensures err { OnErr result (to_fail self.new ≡ to_fail self.old) }
        ensures fused { fuse_of self.new ≡ fuse_of self.old }
        ensures same { SameState self.old self.new }
    {
        self.failing.push(call)?;
        Ok(())
    }

    /// Makes every call fail after the first `k`, counted in the same way. At first `k` is 2^64 - 1, where the count stops.
    pub fn fuse(&mut self, k: u64)
        ensures set { fuse_of self.new ≡ k }
        ensures listed { to_fail self.new ≡ to_fail self.old }
        ensures same { SameState self.old self.new }
    {
        self.fuse = k;
    }

    /// Whether memory was found for every call so far. A write or a cut for which none was found isn't begun, so that it
    /// stands in no image.
    pub fn is_complete(&self) -> bool
        ensures { IsTrue result ↔ IsComplete self.now }
    {
        self.complete
    }

    // A disk of these files, all of them synced.
    pub(crate) fn holding(alloc: Global, files: FileSet) -> Result<MemDisk, OutOfMemory>
        ensures fresh { IfOk result IsFresh }
        ensures seen { IfOk result (λ d. image_now d ≡ image_of files) }
    {
        Ok(MemDisk {
            alloc,
            base: files.copy(alloc)?,
            files,
            calls: Vec::new(alloc),
            clock: 0,
            reads: 0,
            faults: 0,
            tried: 0,
            failing: Vec::new(alloc),
            fuse: u64::MAX,
            complete: true,
        })
    }

    /// Images of the disk as it now is, each as a disk of its own: what a crash might leave of the writes and cuts that
    /// were begun since the last sync of their file, in order of calls. For each n, there is one with the first n of them
    /// done; where the next one is a write, one that has the first half of its bytes besides, rounded down; and one with
    /// all done but the n-th.
    pub fn images(&self, alloc: Global) -> Result<Disks, OutOfMemory>
        ensures fresh { IfOk result (All IsFresh) }
        ensures members { IfOk result (All (λ d. IsImage (now_of self.now) (image_now d))) }
        ensures listed { IfOk result (λ ds. map image_now ds ≡ listed (keeps_of (now_of self.now)) (pending_of self.now)) }
    {
        let kept = kept_files(alloc, &self.base, &self.calls)?;
        let changes = pending_changes(alloc, &self.calls)?;
        let sets = listed_sets(alloc, &kept, &changes)?;
        Disks::holding(alloc, sets)
    }

    // Whether the next call is to fail.
    fn fails_next(&self) -> bool
        ensures { IsTrue result ↔ IsToFail self.now }
    {
        self.fuse <= self.tried || self.is_listed()
    }

    // Whether the next call's number is one of those that are to fail.
    fn is_listed(&self) -> bool
        ensures { IsTrue result ↔ Contains (to_fail self.now) (tried_by self.now) }
    {
        self.failing.contains(&self.tried)
    }

    // Makes a write, a cut or a sync, for which memory was found or not, and answers whether it was done.
    fn perform(&mut self, file: u16, action: Result<Action, OutOfMemory>) -> bool
        ensures time { Elapses (clock_of self.old) (clock_of self.new) (past_of self.old) (past_of self.new) }
        ensures last { IsTrue result → clock_of self.old < 2 ^ 64 - 1 }
        ensures done { IsTrue result → Does file action true (now_of self.old) (now_of self.new) }
        ensures failed { IsFalse result → Does file action false (now_of self.old) (now_of self.new)
            ⊎ (now_of self.new ≡ now_of self.old) }
        ensures pending { IsFalse result → IsComplete self.new → clock_of self.old < 2 ^ 64 - 1
            → Does file action false (now_of self.old) (now_of self.new) }
        ensures complete { IsComplete self.new → IsComplete self.old }
        ensures found { IsTrue result → IsComplete self.old → IsComplete self.new }
        ensures planned { IsToFail self.old → IsFalse result }
        ensures only { IsFalse result → IsComplete self.new → IsToFail self.old ⊎ (clock_of self.old ≡ 2 ^ 64 - 1) }
        ensures next { tried_by self.new ≡ one_more (tried_by self.old) }
        ensures plan { SamePlan self.old self.new }
        ensures counted { CountsFault (not result) (failed_by self.old) (failed_by self.new) }
        ensures reads { reads_by self.new ≡ reads_by self.old }
    {
        let fails = self.fails_next();
        self.tried = self.tried.saturating_add(1);
        if self.clock == u64::MAX {
            self.faults = self.faults.saturating_add(1);
            return false;
        }
        self.clock += 1;
        let Ok(action) = action else {
            self.complete = false;
            self.faults = self.faults.saturating_add(1);
            return false;
        };
        let call = Call {
            stamp: self.clock,
            file,
            done: !fails,
            action,
        };
        if keep(self.alloc, &mut self.files, &mut self.calls, call).is_err() {
            self.complete = false;
            self.faults = self.faults.saturating_add(1);
            return false;
        }
        if fails {
            self.faults = self.faults.saturating_add(1);
            return false;
        }
        true
    }
}

impl Disk for MemDisk {
    ghost use Rattle.pdb_memdisk.specs.Memory.{clock_of, reads_by, failed_by, past_of, now_of, tried_by, IsToFail, IsComplete, SamePlan, SameReads};
    ghost use Rattle.pdb_memdisk.specs.inner.Laws.{settled_image, replayed_image};
    ghost use Rattle.pdb_memdisk.specs.Record.{until};

    ghost tells = { λ d. true };

    ghost clock = { λ d. clock_of d };

    ghost past = { λ d t. past_of d t };

    ghost fault_count = { λ d. failed_by d };

    ghost read_count = { λ d. reads_by d };

    ghost read_is_image = { λ d t told le. replayed_image (all_settled (image_of d.base)) (until t d.calls.items) (settled_image (image_of d.base)) };

    // A read fails just where it is to, and finds no want of memory.
    fn read_at(&mut self, file: u16, at: u64, into: &mut [u8]) -> Result<(), DiskFault>
        requires { at + length into.old ≤ 2 ^ 63 }
        ensures bytes { OnOk result (StandsAt (now_of self.old file).read at into.new) }
        ensures time { clock_of self.new ≡ clock_of self.old }
        ensures unchanged { past_of self.new ≡ past_of self.old }
        ensures fault { IfErr result (λ e. e ≡ DiskFault.Read) }
        ensures counted { CountsFault (is_err result) (failed_by self.old) (failed_by self.new) }
        ensures faults { failed_by self.old ≤ failed_by self.new }
        ensures reads { reads_by self.old ≤ reads_by self.new }
        ensures one_read { reads_by self.new ≤ reads_by self.old + 1 }
        ensures exact { reads_by self.new ≡ one_more (reads_by self.old) }
        ensures fails { IsErr result ↔ IsToFail self.old }
        ensures complete { IsComplete self.new ↔ IsComplete self.old }
        ensures next { tried_by self.new ≡ one_more (tried_by self.old) }
        ensures plan { SamePlan self.old self.new }
    {
        let fails = self.fails_next();
        self.tried = self.tried.saturating_add(1);
        self.reads = self.reads.saturating_add(1);
        if fails {
            self.faults = self.faults.saturating_add(1);
            return Err(DiskFault::Read);
        }
        self.files.read(file, at, into);
        Ok(())
    }

    // A write that fails leaves what is read, and is pending if memory was found for it.
    fn write_at(&mut self, file: u16, at: u64, bytes: &[u8]) -> Result<(), DiskFault>
        requires { at + length bytes.now ≤ 2 ^ 63 }
        ensures time { Elapses (clock_of self.old) (clock_of self.new) (past_of self.old) (past_of self.new) }
        ensures last { OnOk result (clock_of self.old < 2 ^ 64 - 1) }
        ensures begun { OnOk result (Begins file (step.Write at bytes.now) (now_of self.old) (now_of self.new)) }
        ensures written { OnOk result ((now_of self.new file).read ≡ done (now_of self.old file).read (step.Write at bytes.now)) }
        ensures failed { OnErr result (MayBegin file (step.Write at bytes.now) (now_of self.old) (now_of self.new)) }
        ensures fault { IfErr result (λ e. e ≡ DiskFault.Write) }
        ensures counted { CountsFault (is_err result) (failed_by self.old) (failed_by self.new) }
        ensures reads { reads_by self.new ≡ reads_by self.old }
        ensures fails { IsToFail self.old → IsErr result }
        ensures only { OnErr result (IsComplete self.new → IsToFail self.old ⊎ (clock_of self.old ≡ 2 ^ 64 - 1)) }
        ensures unmoved { OnErr result (SameReads (now_of self.old) (now_of self.new)) }
        ensures pending { IsComplete self.new → clock_of self.old < 2 ^ 64 - 1
            → OnErr result (Begins file (step.Write at bytes.now) (now_of self.old) (now_of self.new)) }
        ensures complete { IsComplete self.new → IsComplete self.old }
        ensures found { OnOk result (IsComplete self.old → IsComplete self.new) }
        ensures next { tried_by self.new ≡ one_more (tried_by self.old) }
        ensures plan { SamePlan self.old self.new }
    {
        let action = Action::write(self.alloc, at, bytes);
        if self.perform(file, action) {
            Ok(())
        } else {
            Err(DiskFault::Write)
        }
    }

    fn cut(&mut self, file: u16) -> Result<(), DiskFault>
        ensures time { Elapses (clock_of self.old) (clock_of self.new) (past_of self.old) (past_of self.new) }
        ensures last { OnOk result (clock_of self.old < 2 ^ 64 - 1) }
        ensures begun { OnOk result (Begins file step.Cut (now_of self.old) (now_of self.new)) }
        ensures written { OnOk result ((now_of self.new file).read ≡ done (now_of self.old file).read step.Cut) }
        ensures failed { OnErr result (MayBegin file step.Cut (now_of self.old) (now_of self.new)) }
        ensures fault { IfErr result (λ e. e ≡ DiskFault.Cut) }
        ensures counted { CountsFault (is_err result) (failed_by self.old) (failed_by self.new) }
        ensures reads { reads_by self.new ≡ reads_by self.old }
        ensures fails { IsToFail self.old → IsErr result }
        ensures only { OnErr result (IsComplete self.new → IsToFail self.old ⊎ (clock_of self.old ≡ 2 ^ 64 - 1)) }
        ensures unmoved { OnErr result (SameReads (now_of self.old) (now_of self.new)) }
        ensures pending { IsComplete self.new → clock_of self.old < 2 ^ 64 - 1
            → OnErr result (Begins file step.Cut (now_of self.old) (now_of self.new)) }
        ensures complete { IsComplete self.new → IsComplete self.old }
        ensures found { OnOk result (IsComplete self.old → IsComplete self.new) }
        ensures next { tried_by self.new ≡ one_more (tried_by self.old) }
        ensures plan { SamePlan self.old self.new }
    {
        if self.perform(file, Ok(Action::Changes(Change::Cut))) {
            Ok(())
        } else {
            Err(DiskFault::Cut)
        }
    }

    fn sync(&mut self, file: u16) -> Result<(), DiskFault>
        ensures time { Elapses (clock_of self.old) (clock_of self.new) (past_of self.old) (past_of self.new) }
        ensures last { OnOk result (clock_of self.old < 2 ^ 64 - 1) }
        ensures synced { OnOk result (Settles file (now_of self.old) (now_of self.new)) }
        ensures failed { OnErr result (now_of self.new ≡ now_of self.old) }
        ensures fault { IfErr result (λ e. e ≡ DiskFault.Sync) }
        ensures counted { CountsFault (is_err result) (failed_by self.old) (failed_by self.new) }
        ensures reads { reads_by self.new ≡ reads_by self.old }
        ensures fails { IsToFail self.old → IsErr result }
        ensures only { OnErr result (IsComplete self.new → IsToFail self.old ⊎ (clock_of self.old ≡ 2 ^ 64 - 1)) }
        ensures complete { IsComplete self.new → IsComplete self.old }
        ensures found { OnOk result (IsComplete self.old → IsComplete self.new) }
        ensures next { tried_by self.new ≡ one_more (tried_by self.old) }
        ensures plan { SamePlan self.old self.new }
    {
        if self.perform(file, Ok(Action::Syncs)) {
            Ok(())
        } else {
            Err(DiskFault::Sync)
        }
    }

    fn calls(&self) -> u64 {
        self.clock
    }

    fn reads(&self) -> u64 {
        self.reads
    }

    fn faults(&self) -> u64 {
        self.faults
    }
}
