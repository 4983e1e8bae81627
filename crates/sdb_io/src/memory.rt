ghost use Rattle.std.specs.Prelude.{◌≡◌, ◌≢◌, ◌+◌, ◌-◌, ◌^◌, ◌<◌, ◌≤◌, ◌↔◌, ◌++◌, ◌∷◌, [], ℕ, List, take, drop, length, min, sum, Option, Some, is_err, IsOk, IsErr, IfOk, OnOk, OnErr, Contains, vec_len};
ghost use Rattle.sdb_io.specs.Faults.{CountsFault, one_more};
ghost use Rattle.sdb_io.specs.Output.{Gets, GetsPrefix};

use crate::OutOfMemory;
use crate::sink::{Sink, SinkFault};
use crate::source::{Source, SourceFault};
use std::alloc::Global;

/// A source of given bytes.
#[derive(Debug, Drop)]
pub struct MemSource {
    bytes: Vec<u8>,
    at: usize,
    failing: Vec<u64>,
    calls: u64,
    faults: u64,
    ghost within: { at ≤ vec_len bytes },
}

impl MemSource {
    ghost use Rattle.sdb_io.specs.Memory.{left_of, takes_to_fail, takes, failed_takes};

    /// A source that gives `bytes`, and then ends.
    pub fn new(alloc: Global, bytes: &[u8]) -> Result<MemSource, OutOfMemory>
        ensures left { IfOk result (λ s. left_of s ≡ bytes.now) }
        ensures steady { IfOk result (λ s. takes_to_fail s ≡ []) }
        ensures counts { IfOk result (λ s. (takes s ≡ 0) × (failed_takes s ≡ 0)) }
    {
        Ok(MemSource {
            bytes: Vec::from_slice(alloc, bytes)?,
            at: 0,
            failing: Vec::new(alloc),
            calls: 0,
            faults: 0,
        })
    }

    /// Makes that call of `take` fail, counted from 0 over all calls. An `Err` changes nothing.
    pub fn fail_at(&mut self, call: u64) -> Result<(), OutOfMemory>
        ensures ok { OnOk result (takes_to_fail self.new ≡ takes_to_fail self.old ++ call ∷ []) }
        ensures err { OnErr result (takes_to_fail self.new ≡ takes_to_fail self.old) }
        ensures left { left_of self.new ≡ left_of self.old }
        ensures counts { (takes self.new ≡ takes self.old) × (failed_takes self.new ≡ failed_takes self.old) }
    {
        self.failing.push(call)?;
        Ok(())
    }
}

impl Source for MemSource {
    ghost use Rattle.std.specs.Prelude.{Some};
    ghost use Rattle.sdb_io.specs.Memory.{left_of, takes_to_fail, takes, failed_takes};

    ghost left = { λ s. Some (left_of s) };

    ghost fault_count = { λ s. failed_takes s };

    fn take(&mut self, into: &mut [u8]) -> Result<usize, SourceFault>
        ensures within { IfOk result (λ n. n ≤ length into.old) }
        ensures moved { (bytes : List ℕ) → Some (left_of self.old) ≡ Some bytes → IfOk result (λ n. (n ≤ length bytes)
            × (take n into.new ≡ take n bytes) × (Some (left_of self.new) ≡ Some (drop n bytes))) }
        ensures end { (bytes : List ℕ) → Some (left_of self.old) ≡ Some bytes → 0 < length into.old
            → IfOk result (λ n. n ≡ 0 → bytes ≡ []) }
        ensures kept { (bytes : List ℕ) → Some (left_of self.old) ≡ Some bytes
            → OnErr result (Some (left_of self.new) ≡ Some bytes) }
        ensures counted { CountsFault (is_err result) (failed_takes self.old) (failed_takes self.new) }
        // It fails just where it was told to, and gives as many bytes as there is room for.
        ensures fails { IsErr result ↔ Contains (takes_to_fail self.old) (takes self.old) }
        ensures most { IfOk result (λ n. n ≡ min (length (left_of self.old)) (length into.old)) }
        ensures told { takes_to_fail self.new ≡ takes_to_fail self.old }
        ensures next { takes self.new ≡ one_more (takes self.old) }
    {
        let fails = self.failing.contains(&self.calls);
        self.calls = self.calls.saturating_add(1);
        if fails {
            self.faults = self.faults.saturating_add(1);
            return Err(SourceFault);
        }
        let rest = &self.bytes[self.at..];
        let count = rest.len().min(into.len());
        into[..count].copy_from_slice(&rest[..count]);
        self.at += count;
        Ok(count)
    }

    fn faults(&self) -> u64 {
        self.faults
    }
}

/// A sink that keeps what it gets, and where each piece of it ends.
#[derive(Debug, Drop)]
pub struct MemSink {
    bytes: Vec<u8>,
    // the length of each piece
    lengths: Vec<usize>,
    failing: Vec<u64>,
    calls: u64,
    faults: u64,
    ghost whole: { sum lengths.items ≡ length bytes.items },
}

impl MemSink {
    ghost use Rattle.std.specs.Prelude.{map};
    ghost use Rattle.sdb_io.specs.Memory.{got_by, pieces_of, puts_to_fail, puts, failed_puts};

    /// A sink that has got nothing.
    pub fn new(alloc: Global) -> MemSink
        ensures got { (got_by result ≡ []) × (pieces_of result ≡ []) }
        ensures steady { puts_to_fail result ≡ [] }
        ensures counts { (puts result ≡ 0) × (failed_puts result ≡ 0) }
    {
        MemSink {
            bytes: Vec::new(alloc),
            lengths: Vec::new(alloc),
            failing: Vec::new(alloc),
            calls: 0,
            faults: 0,
        }
    }

    /// The bytes got so far.
    pub fn bytes(&self) -> &[u8]
        ensures { result.now ≡ got_by self.now }
    {
        self.bytes.as_slice()
    }

    /// The length of each piece that was got, in their order.
    pub fn lengths(&self) -> &[usize]
        ensures { result.now ≡ map length (pieces_of self.now) }
    {
        self.lengths.as_slice()
    }

    /// Makes that call of `put` fail, counted from 0 over all calls. An `Err` changes nothing.
    pub fn fail_at(&mut self, call: u64) -> Result<(), OutOfMemory>
        ensures ok { OnOk result (puts_to_fail self.new ≡ puts_to_fail self.old ++ call ∷ []) }
        ensures err { OnErr result (puts_to_fail self.new ≡ puts_to_fail self.old) }
        ensures got { (got_by self.new ≡ got_by self.old) × (pieces_of self.new ≡ pieces_of self.old) }
        ensures counts { (puts self.new ≡ puts self.old) × (failed_puts self.new ≡ failed_puts self.old) }
    {
        self.failing.push(call)?;
        Ok(())
    }

    // Adds a piece. An `Err` changes nothing.
    fn add(&mut self, piece: &[u8]) -> Result<(), OutOfMemory>
        ensures ok { OnOk result ((got_by self.new ≡ got_by self.old ++ piece.now)
            × (pieces_of self.new ≡ pieces_of self.old ++ piece.now ∷ [])) }
        ensures err { OnErr result ((got_by self.new ≡ got_by self.old) × (pieces_of self.new ≡ pieces_of self.old)) }
        ensures told { puts_to_fail self.new ≡ puts_to_fail self.old }
        ensures counts { (puts self.new ≡ puts self.old) × (failed_puts self.new ≡ failed_puts self.old) }
    {
        self.lengths.reserve(1)?;
        self.bytes.extend_from_slice(piece)?;
        self.lengths.push(piece.len())?;
        Ok(())
    }
}

impl Sink for MemSink {
    ghost use Rattle.std.specs.Prelude.{Some};
    ghost use Rattle.sdb_io.specs.Memory.{got_by, output_of, pieces_of, puts_to_fail, puts, failed_puts};

    ghost got = { λ k. output_of k };

    ghost fault_count = { λ k. failed_puts k };

    fn put(&mut self, bytes: &[u8]) -> Result<(), SinkFault>
        ensures ok { OnOk result (Gets (output_of self.old) (output_of self.new) (bytes.now ∷ [])) }
        ensures err { OnErr result (GetsPrefix (output_of self.old) (output_of self.new) [] bytes.now) }
        ensures counted { CountsFault (is_err result) (failed_puts self.old) (failed_puts self.new) }
        // It fails where it was told to, and else only for want of memory; a call that fails takes nothing.
        ensures fails { Contains (puts_to_fail self.old) (puts self.old) → IsErr result }
        ensures nothing { OnErr result ((got_by self.new ≡ got_by self.old)
            × (pieces_of self.new ≡ pieces_of self.old)) }
        ensures told { puts_to_fail self.new ≡ puts_to_fail self.old }
        ensures next { puts self.new ≡ one_more (puts self.old) }
    {
        let fails = self.failing.contains(&self.calls);
        self.calls = self.calls.saturating_add(1);
        if fails || self.add(bytes).is_err() {
            self.faults = self.faults.saturating_add(1);
            return Err(SinkFault);
        }
        Ok(())
    }

    fn faults(&self) -> u64 {
        self.faults
    }
}
