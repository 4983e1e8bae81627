ghost use Rattle.std.specs.Prelude.{◌≡◌, ◌≤◌, ◌↔◌, ◌++◌, ◌∷◌, [], IsErr, IfErr, OnOk, OnErr, Contains, is_err};
ghost use Rattle.sdb_io.specs.Faults.{CountsFault, one_more};
ghost use Rattle.sdb_base.specs.declared.numbers.KeepFault.TheVariants as faults;

use sdb_base::{KeepFault, OutOfMemory};
use std::alloc::Global;

/// Which calls are to fail, how many there were, and how many of them failed.
#[derive(Drop)]
pub(crate) struct Plan {
    failing: Vec<u64>,
    calls: u64,
    faults: u64,
}

impl Plan {
    /// No call is to fail.
    pub(crate) fn new(alloc: Global) -> Plan
        ensures steady { result.failing.items ≡ [] }
        ensures calls { result.calls ≡ 0 }
        ensures faults { result.faults ≡ 0 }
    {
        Plan {
            failing: Vec::new(alloc),
            calls: 0,
            faults: 0,
        }
    }

    /// Has a call fail, counted from 0. An `Err` changes nothing.
    pub(crate) fn fail_at(&mut self, call: u64) -> Result<(), OutOfMemory>
        ensures ok { OnOk result (self.new.failing.items ≡ self.old.failing.items ++ call ∷ []) }
        ensures err { OnErr result (self.new.failing.items ≡ self.old.failing.items) }
        ensures calls { self.new.calls ≡ self.old.calls }
        ensures faults { self.new.faults ≡ self.old.faults }
    {
        self.failing.push(call)?;
        Ok(())
    }

    /// Counts a call, which fails where it is to.
    pub(crate) fn begin(&mut self) -> Result<(), KeepFault>
        ensures fails { IsErr result ↔ Contains self.old.failing.items self.old.calls }
        ensures fault { IfErr result (λ e. e ≡ faults.Disk) }
        ensures counted { CountsFault (is_err result) self.old.faults self.new.faults }
        ensures rises { self.old.faults ≤ self.new.faults }
        ensures next { self.new.calls ≡ one_more self.old.calls }
        ensures planned { self.new.failing.items ≡ self.old.failing.items }
    {
        let fails = self.failing.contains(&self.calls);
        self.calls = self.calls.saturating_add(1);
        if fails {
            self.faults = self.faults.saturating_add(1);
            return Err(KeepFault::Disk);
        }
        Ok(())
    }

    /// How many calls failed.
    pub(crate) fn faults(&self) -> u64
        ensures { result ≡ self.now.faults }
    {
        self.faults
    }
}
