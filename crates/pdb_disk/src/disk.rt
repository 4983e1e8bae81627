ghost use Rattle.std.specs.Prelude.{◌≡◌, ◌≤◌, ◌<◌, ◌+◌, ◌-◌, ◌^◌, ℕ, length, is_err, IfErr, IsTrue, OnOk, OnErr};
ghost use Rattle.sdb_io.specs.Faults.{CountsFault};
ghost use Rattle.pdb_disk.specs.Files.{Files, Elapses, Begins, MayBegin, Settles, StandsAt, IsImage, done, reads_of};
ghost use Rattle.pdb_disk.specs.Files.{Step as step};

use thiserror::Error;

/// Which call of the disk failed.
#[derive(Clone, Copy, Debug, PartialEq, Eq, Error)]
pub enum DiskFault {
    #[error("a read of the disk failed")]
    Read,
    #[error("a write to the disk failed")]
    Write,
    #[error("a cut of a file failed")]
    Cut,
    #[error("a sync of a file failed")]
    Sync,
}

/// A disk of files that are numbered from 0. A file has no end: past the last byte written it reads as zeros.
pub trait Disk {
    ghost use Rattle.std.specs.Prelude.{Bool, ℕ};
    ghost use Rattle.pdb_disk.specs.Files.{Files};

    // whether it tells its content, which no call changes
    ghost tells: { Self → Bool };

    // how many writes, cuts and syncs there were; at 2^64 - 1 the clock stops
    ghost clock: { Self → ℕ };

    // the files at each moment up to the clock
    ghost past: { Self → ℕ → Files };

    // how many calls have failed
    ghost fault_count: { Self → ℕ };

    // how many reads there were
    ghost read_count: { Self → ℕ };

    /// Fills `into` with the bytes of a file from `at` on. After a fault `into` is unspecified.
    fn read_at(&mut self, file: u16, at: u64, into: &mut [u8]) -> Result<(), DiskFault>
        requires { at + length into.old ≤ 2 ^ 63 }
        ensures bytes { OnOk result (IsTrue (tells self.old) → StandsAt (past self.old (clock self.old) file).read at into.new) }
        ensures time { clock self.new ≡ clock self.old }
        ensures unchanged { past self.new ≡ past self.old }
        ensures told { IsTrue (tells self.old) → IsTrue (tells self.new) }
        ensures untold { IsTrue (tells self.new) → IsTrue (tells self.old) }
        ensures fault { IfErr result (λ e. e ≡ DiskFault.Read) }
        ensures counted { CountsFault (is_err result) (fault_count self.old) (fault_count self.new) }
        ensures faults { fault_count self.old ≤ fault_count self.new }
        ensures reads { read_count self.old ≤ read_count self.new }
        ensures one_read { read_count self.new ≤ read_count self.old + 1 };

    /// Writes the bytes to a file from `at` on. After a fault the file may have all of them, some or none.
    fn write_at(&mut self, file: u16, at: u64, bytes: &[u8]) -> Result<(), DiskFault>
        requires { at + length bytes.now ≤ 2 ^ 63 }
        ensures time { Elapses (clock self.old) (clock self.new) (past self.old) (past self.new) }
        ensures last { OnOk result (clock self.old < 2 ^ 64 - 1) }
        ensures begun { OnOk result (IsTrue (tells self.old)
            → Begins file (step.Write at bytes.now) (past self.old (clock self.old)) (past self.new (clock self.new))) }
        ensures written { OnOk result (IsTrue (tells self.old) → (past self.new (clock self.new) file).read
            ≡ done (past self.old (clock self.old) file).read (step.Write at bytes.now)) }
        ensures failed { OnErr result (IsTrue (tells self.old)
            → MayBegin file (step.Write at bytes.now) (past self.old (clock self.old)) (past self.new (clock self.new))) }
        ensures told { IsTrue (tells self.old) → IsTrue (tells self.new) }
        ensures untold { IsTrue (tells self.new) → IsTrue (tells self.old) }
        ensures fault { IfErr result (λ e. e ≡ DiskFault.Write) }
        ensures counted { CountsFault (is_err result) (fault_count self.old) (fault_count self.new) }
        ensures reads { read_count self.new ≡ read_count self.old };

    /// Cuts a file to no bytes. After a fault it may have lost all of them, some or none.
    fn cut(&mut self, file: u16) -> Result<(), DiskFault>
        ensures time { Elapses (clock self.old) (clock self.new) (past self.old) (past self.new) }
        ensures last { OnOk result (clock self.old < 2 ^ 64 - 1) }
        ensures begun { OnOk result (IsTrue (tells self.old)
            → Begins file step.Cut (past self.old (clock self.old)) (past self.new (clock self.new))) }
        ensures written { OnOk result (IsTrue (tells self.old) → (past self.new (clock self.new) file).read
            ≡ done (past self.old (clock self.old) file).read step.Cut) }
        ensures failed { OnErr result (IsTrue (tells self.old)
            → MayBegin file step.Cut (past self.old (clock self.old)) (past self.new (clock self.new))) }
        ensures told { IsTrue (tells self.old) → IsTrue (tells self.new) }
        ensures untold { IsTrue (tells self.new) → IsTrue (tells self.old) }
        ensures fault { IfErr result (λ e. e ≡ DiskFault.Cut) }
        ensures counted { CountsFault (is_err result) (fault_count self.old) (fault_count self.new) }
        ensures reads { read_count self.new ≡ read_count self.old };

    /// Makes what a file reads as safe from a crash. After a fault nothing is safer than before.
    fn sync(&mut self, file: u16) -> Result<(), DiskFault>
        ensures time { Elapses (clock self.old) (clock self.new) (past self.old) (past self.new) }
        ensures last { OnOk result (clock self.old < 2 ^ 64 - 1) }
        ensures synced { OnOk result (IsTrue (tells self.old)
            → Settles file (past self.old (clock self.old)) (past self.new (clock self.new))) }
        ensures failed { OnErr result (IsTrue (tells self.old)
            → past self.new (clock self.new) ≡ past self.old (clock self.old)) }
        ensures told { IsTrue (tells self.old) → IsTrue (tells self.new) }
        ensures untold { IsTrue (tells self.new) → IsTrue (tells self.old) }
        ensures fault { IfErr result (λ e. e ≡ DiskFault.Sync) }
        ensures counted { CountsFault (is_err result) (fault_count self.old) (fault_count self.new) }
        ensures reads { read_count self.new ≡ read_count self.old };

    /// The clock: how many writes, cuts and syncs there were, failed ones among them. It stops at 2^64 - 1, and each of
    /// these calls then fails and does nothing.
    fn calls(&self) -> u64
        ensures { result ≡ clock self.now };

    /// How many reads there were; it never falls.
    fn reads(&self) -> u64
        ensures { result ≡ read_count self.now };

    /// How many calls have failed; the count stops at 2^64 - 1.
    fn faults(&self) -> u64
        ensures { result ≡ fault_count self.now };

    // At each moment what is read is itself what a crash may leave.
    ghost read_is_image: { (d : Self) (t : ℕ) → IsTrue (tells d) → t ≤ clock d → IsImage (past d t) (reads_of (past d t)) };
}
