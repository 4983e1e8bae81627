ghost use Rattle.std.specs.Prelude.{◌≡◌, ℕ, List, [], ◌++◌, take, drop, true, Option, None, Some, length};

use sdb_io::{Sink, SinkFault, Source, SourceFault};
use std::io::{Read, Write};

/// Standard input as a source. What it has left is what the reader has, where that can be observed.
#[derive(Drop)]
pub struct Stdin<R> {
    reader: R,
    faults: u64,
}

impl<R: Read> Stdin<R> {
    /// No call has failed yet.
    pub fn new(reader: R) -> Stdin<R>
        ensures { result.faults ≡ 0 }
    {
        Stdin { reader, faults: 0 }
    }
}

impl<R: Read> Source for Stdin<R> {
    ghost left = { λ s. R.Read.remaining s.reader };

    ghost fault_count = { λ s. s.faults };

    fn take(&mut self, into: &mut [u8]) -> Result<usize, SourceFault> {
        match self.reader.read(into) {
            Ok(count) => Ok(count),
            Err(_) => {
                self.faults = self.faults.saturating_add(1);
                Err(SourceFault)
            }
        }
    }

    fn faults(&self) -> u64 {
        self.faults
    }
}

/// Standard output as a sink. The bytes that it has got are those that the writer holds, where that can be observed;
/// its pieces can't be.
#[derive(Drop)]
pub struct Stdout<W> {
    writer: W,
    faults: u64,
}

impl<W: Write> Stdout<W> {
    /// No call has failed yet.
    pub fn new(writer: W) -> Stdout<W>
        ensures { result.faults ≡ 0 }
    {
        Stdout { writer, faults: 0 }
    }

    /// Writes all of the bytes, by as many calls as it takes; false where one failed or took nothing, and a prefix was
    /// written then.
    fn write_whole(&mut self, bytes: &[u8]) -> bool
        ensures counts { self.new.faults ≡ self.old.faults }
        ensures written { (before : List ℕ) → W.contents self.old.writer ≡ Some before
            → (n : ℕ) × (W.contents self.new.writer ≡ Some (before ++ take n bytes.now))
            × (result ≡ true → take n bytes.now ≡ bytes.now) }
    {
        let mut rest = bytes;
        while !rest.is_empty() {
            match self.writer.write(rest) {
                Ok(0) => return false,
                Ok(count) => rest = &rest[count..],
                Err(_) => return false,
            }
        }
        true
    }
}

impl<W: Write> Sink for Stdout<W> {
    ghost use Rattle.std.specs.Prelude.{None};
    ghost use Rattle.sdb_io.specs.Output.{Output};

    ghost got = { λ k. record { bytes = W.Write.contents k.writer; pieces = None } };

    ghost fault_count = { λ k. k.faults };

    fn put(&mut self, bytes: &[u8]) -> Result<(), SinkFault> {
        if self.write_whole(bytes) {
            return Ok(());
        }
        self.faults = self.faults.saturating_add(1);
        Err(SinkFault)
    }

    fn faults(&self) -> u64 {
        self.faults
    }
}
