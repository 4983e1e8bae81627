ghost use Rattle.std.specs.Prelude.{◌≡◌, ◌≤◌, ◌<◌, ◌+◌, ◌-◌, ◌^◌, length, is_err, IsTrue, IsFalse, IfErr};
ghost use Rattle.sdb_io.specs.Faults.{CountsFault, one_more};

use crate::files::OpenFiles;
use pdb_disk::{Disk, DiskFault};
use std::alloc::Global;
use std::fs::File;
use std::rt::Files;

/// The files `sdb-N` of the working folder as a disk, N being a file's number in decimal. A file is opened at its first
/// use, made where there is none, and kept open; one that can't be opened is a failed call of that use. It doesn't tell
/// its content.
#[derive(Drop)]
pub struct HostDisk<R: Files<File = File> + Drop> {
    files: OpenFiles<R>,
    calls: u64,
    reads: u64,
    faults: u64,
}

impl<R: Files<File = File> + Drop> HostDisk<R> {
    /// No file is opened yet, and no call was made.
    pub fn new(alloc: Global, rt: R) -> HostDisk<R>
        ensures untold { IsFalse (⟦<HostDisk<R> as Disk>⟧.tells result) }
        ensures clock { ⟦<HostDisk<R> as Disk>⟧.clock result ≡ 0 }
        ensures reads { ⟦<HostDisk<R> as Disk>⟧.read_count result ≡ 0 }
        ensures faults { ⟦<HostDisk<R> as Disk>⟧.fault_count result ≡ 0 }
    {
        HostDisk {
            files: OpenFiles::new(alloc, rt),
            calls: 0,
            reads: 0,
            faults: 0,
        }
    }

    // Raises the clock by one; false at its last value, where it stays.
    fn begin(&mut self) -> bool
        ensures clock { self.new.calls ≡ one_more self.old.calls }
        ensures last { IsTrue result → self.old.calls < 2 ^ 64 - 1 }
        ensures end { IsFalse result → self.old.calls ≡ 2 ^ 64 - 1 }
        ensures counts { (self.new.reads ≡ self.old.reads) × (self.new.faults ≡ self.old.faults) }
    {
        if self.calls == u64::MAX {
            return false;
        }
        self.calls += 1;
        true
    }
}

impl<R: Files<File = File> + Drop> Disk for HostDisk<R> {
    ghost use Rattle.std.specs.Prelude.{false};
    ghost use Rattle.std.proofs.Common.{refl};
    ghost use Rattle.pdb_disk.specs.Files.{settled};

    ghost tells = { λ d. false };

    ghost clock = { λ d. d.calls };

    ghost past = { λ d t j. settled (λ i. 0) };

    ghost fault_count = { λ d. d.faults };

    ghost read_count = { λ d. d.reads };

    ghost read_is_image = { λ d t told le j i spared. refl };

    fn read_at(&mut self, file: u16, at: u64, into: &mut [u8]) -> Result<(), DiskFault>
        requires { at + length into.old ≤ 2 ^ 63 }
        ensures time { self.new.calls ≡ self.old.calls }
        ensures fault { IfErr result (λ e. e ≡ DiskFault.Read) }
        ensures counted { CountsFault (is_err result) self.old.faults self.new.faults }
        ensures faults { self.old.faults ≤ self.new.faults }
        ensures reads { self.old.reads ≤ self.new.reads }
        ensures one_read { self.new.reads ≤ self.old.reads + 1 }
        ensures exact { self.new.reads ≡ one_more self.old.reads }
    {
        self.reads = self.reads.saturating_add(1);
        if self.files.read(file, at, into).is_ok() {
            return Ok(());
        }
        self.faults = self.faults.saturating_add(1);
        Err(DiskFault::Read)
    }

    fn write_at(&mut self, file: u16, at: u64, bytes: &[u8]) -> Result<(), DiskFault> {
        if self.begin() && self.files.write(file, at, bytes).is_ok() {
            return Ok(());
        }
        self.faults = self.faults.saturating_add(1);
        Err(DiskFault::Write)
    }

    fn cut(&mut self, file: u16) -> Result<(), DiskFault> {
        if self.begin() && self.files.cut(file).is_ok() {
            return Ok(());
        }
        self.faults = self.faults.saturating_add(1);
        Err(DiskFault::Cut)
    }

    fn sync(&mut self, file: u16) -> Result<(), DiskFault> {
        if self.begin() && self.files.sync(file).is_ok() {
            return Ok(());
        }
        self.faults = self.faults.saturating_add(1);
        Err(DiskFault::Sync)
    }

    fn calls(&self) -> u64 {
        self.calls
    }

    fn reads(&self) -> u64 {
        self.reads
    }

    fn faults(&self) -> u64 {
        self.faults
    }
}
