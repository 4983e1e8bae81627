ghost use Rattle.std.specs.Prelude.{◌≡◌, ◌≤◌, ◌<◌, ◌+◌, ◌^◌, ℕ, [], length, IfOk, OnOk, OnErr};
ghost use Rattle.pdb_disk.specs.Files.{StandsAt, done};
ghost use Rattle.pdb_disk.specs.Files.{Step as step};
ghost use Rattle.pdb_memdisk.specs.Contents.{content_of, image_of, changed};
ghost use Rattle.pdb_memdisk.specs.Record.{step_of};

use crate::record::Change;
use sdb_io::OutOfMemory;
use std::alloc::{AllocError, Global};
use std::marker::Model;

/// The bytes of one file up to the last one written; past them there are zeros.
#[derive(Drop)]
pub struct FileBytes {
    bytes: Vec<u8>,
}

impl Model for FileBytes {
    ghost use Rattle.std.specs.Prelude.{List, ℕ};

    ghost Value = { List ℕ };

    ghost view = { λ f. f.bytes.items };
}

impl FileBytes {
    /// An empty file.
    pub fn new(alloc: Global) -> FileBytes
        ensures { result ≡ [] }
    {
        FileBytes {
            bytes: Vec::new(alloc),
        }
    }

    /// The same bytes once more.
    pub fn copy(&self, alloc: Global) -> Result<FileBytes, OutOfMemory>
        ensures { IfOk result (λ f. f ≡ self.now) }
    {
        Ok(FileBytes {
            bytes: Vec::from_slice(alloc, self.bytes.as_slice())?,
        })
    }

    /// Fills `into` with the bytes from `at` on.
    pub fn read(&self, at: u64, into: &mut [u8])
        requires { at + length into.old ≤ 2 ^ 63 }
        ensures { StandsAt (content_of self.now) at into.new }
    {
        let start = (at as usize).min(self.bytes.len());
        let rest = &self.bytes[start..];
        let count = rest.len().min(into.len());
        into[..count].copy_from_slice(&rest[..count]);
        into[count..].fill(0);
    }

    /// Writes the bytes from `at` on. An `Err` changes nothing.
    pub fn write(&mut self, at: u64, bytes: &[u8]) -> Result<(), OutOfMemory>
        ensures ok { OnOk result (content_of self.new ≡ done (content_of self.old) (step.Write at bytes.now)) }
        ensures err { OnErr result (self.new ≡ self.old) }
    {
        if bytes.is_empty() {
            return Ok(());
        }
        let start = at as usize;
        let end = start.checked_add(bytes.len()).ok_or(AllocError)?;
        self.extend(end)?;
        overwrite(self.bytes.as_mut_slice(), start, bytes);
        Ok(())
    }

    // Gives the file that many bytes at least. An `Err` changes nothing.
    fn extend(&mut self, len: usize) -> Result<(), OutOfMemory>
        ensures ok { OnOk result (len ≤ length self.new) }
        ensures same { content_of self.new ≡ content_of self.old }
        ensures err { OnErr result (self.new ≡ self.old) }
    {
        if self.bytes.len() < len {
            self.bytes.resize(len, 0)?;
        }
        Ok(())
    }

    /// Leaves no bytes.
    pub fn clear(&mut self)
        ensures { self.new ≡ [] }
    {
        self.bytes.clear();
    }
}

// Puts a part in the place of what is there from `start` on.
fn overwrite(bytes: &mut [u8], start: usize, part: &[u8])
    requires { start + length part.now ≤ length bytes.old }
    ensures { (i : ℕ) → content_of bytes.new i ≡ done (content_of bytes.old) (step.Write start part.now) i }
{
    bytes[start..start + part.len()].copy_from_slice(part);
}

/// The bytes of all files, by their numbers.
#[derive(Drop)]
pub struct FileSet {
    files: Vec<FileBytes>,
}

impl Model for FileSet {
    ghost use Rattle.std.specs.Prelude.{List, ℕ};

    ghost Value = { List (List ℕ) };

    ghost view = { λ s. s.files.items };
}

impl FileSet {
    /// Empty files.
    pub fn new(alloc: Global) -> FileSet
        ensures { result ≡ [] }
    {
        FileSet {
            files: Vec::new(alloc),
        }
    }

    /// The same files once more.
    pub fn copy(&self, alloc: Global) -> Result<FileSet, OutOfMemory>
        ensures { IfOk result (λ s. s ≡ self.now) }
    {
        let mut files = Vec::with_capacity(alloc, self.files.len())?;
        for file in &self.files {
            files.push(file.copy(alloc)?)?;
        }
        Ok(FileSet { files })
    }

    /// Fills `into` with a file's bytes from `at` on.
    pub fn read(&self, file: u16, at: u64, into: &mut [u8])
        requires { at + length into.old ≤ 2 ^ 63 }
        ensures { StandsAt (image_of self.now file) at into.new }
    {
        match self.files.get(file as usize) {
            Some(bytes) => bytes.read(at, into),
            None => into.fill(0),
        }
    }

    // Makes room for a file.
    fn reach(&mut self, alloc: Global, file: u16) -> Result<(), OutOfMemory>
        ensures there { OnOk result (file < length self.new) }
        ensures same { image_of self.new ≡ image_of self.old }
    {
        for _ in self.files.len()..file as usize + 1 {
            self.files.push(FileBytes::new(alloc))?;
        }
        Ok(())
    }

    /// Writes the bytes to a file from `at` on. An `Err` changes no file.
    pub fn write(
        &mut self,
        alloc: Global,
        file: u16,
        at: u64,
        bytes: &[u8],
    ) -> Result<(), OutOfMemory>
        ensures ok { OnOk result (image_of self.new ≡ changed (image_of self.old) file (step.Write at bytes.now)) }
        ensures err { OnErr result (image_of self.new ≡ image_of self.old) }
    {
        self.reach(alloc, file)?;
        self.files[file as usize].write(at, bytes)
    }

    /// Leaves no bytes in a file.
    pub fn cut(&mut self, file: u16)
        ensures { image_of self.new ≡ changed (image_of self.old) file step.Cut }
    {
        if (file as usize) < self.files.len() {
            self.files[file as usize].clear();
        }
    }

    /// Makes a change of a file. An `Err` changes no file.
    pub fn apply(&mut self, alloc: Global, file: u16, change: &Change) -> Result<(), OutOfMemory>
        ensures ok { OnOk result (image_of self.new ≡ changed (image_of self.old) file (step_of change.now)) }
        ensures err { OnErr result (image_of self.new ≡ image_of self.old) }
    {
        match change {
            Change::Write(at, bytes) => self.write(alloc, file, *at, bytes.as_slice()),
            Change::Cut => {
                self.cut(file);
                Ok(())
            }
        }
    }
}
