ghost use Rattle.std.specs.Prelude.{◌≡◌, IsTrue, IfOk};
ghost use Rattle.pdb_disk.specs.Files.{Step as step};

use sdb_io::OutOfMemory;
use std::alloc::Global;

/// A write of these bytes at this place, or a cut of the whole file.
#[derive(Drop)]
pub enum Change {
    Write(u64, Vec<u8>),
    Cut,
}

/// What a call does to its file.
#[derive(Drop)]
pub enum Action {
    Changes(Change),
    Syncs,
}

impl Action {
    ghost use Rattle.pdb_memdisk.specs.inner.Steps.{Makes};

    /// A write of a copy of these bytes.
    pub fn write(alloc: Global, at: u64, bytes: &[u8]) -> Result<Action, OutOfMemory>
        ensures { IfOk result (λ a. Makes a (step.Write at bytes.now)) }
    {
        Ok(Action::Changes(Change::Write(at, Vec::from_slice(alloc, bytes)?)))
    }
}

/// A call that was begun: the clock after it, its file, whether it was done, and what it does.
#[derive(Drop)]
pub struct Call {
    pub stamp: u64,
    pub file: u16,
    pub done: bool,
    pub action: Action,
}

impl Call {
    ghost use Rattle.pdb_memdisk.specs.Images.{syncs};

    /// Whether the call synced this file.
    pub fn syncs(&self, file: u16) -> bool
        ensures { result ≡ syncs file self.now }
    {
        file == self.file && self.done && matches!(&self.action, Action::Syncs)
    }
}
