ghost use Rattle.std.specs.Prelude.{◌≡◌, ◌≤◌, ◌+◌, ◌^◌, ℕ, None, length, string_bytes, is_some, IsTrue, IfOk, OnOk};
ghost use Rattle.std.specs.Ordering.{nat_cmp};
ghost use Rattle.std.specs.BTreeMap.{get};
ghost use Rattle.sdb_host.specs.Names.{file_name};

use std::alloc::{AllocError, Global};
use std::collections::BTreeMap;
use std::fs::{File, OpenOptions};
use std::io::{self, ErrorKind};
use std::os::fd::AsRawFd;
use std::os::unix::fs::FileExt;
use std::rt::Files;

/// The files `sdb-N` of the working folder, each opened at its first use and kept open.
#[derive(Drop)]
pub(crate) struct OpenFiles<R: Files<File = File> + Drop> {
    rt: R,
    alloc: Global,
    handles: BTreeMap<u16, File>,
    // the folder was synced after the last file was opened
    folder_synced: bool,
}

// The name of a file in the folder.
fn name_of(alloc: Global, file: u16) -> Result<String, AllocError>
    ensures { IfOk result (λ name. string_bytes name ≡ file_name file) }
{
    format!(in alloc; "sdb-{file}")
}

// Opens a file, and makes it where there is none. Its descriptor is above those of the standard streams: what is written
// to one of them that was closed must not land in a file.
fn open_file<R: Files<File = File>>(rt: &R, name: &str) -> io::Result<File> {
    let file = OpenOptions::new()
        .read(true)
        .write(true)
        .create(true)
        .open(rt, name)?;
    if file.as_raw_fd() <= 2 {
        return file.try_clone();
    }
    Ok(file)
}

// One read of the system, tried again where a signal interrupts it; 0 is the end of the file.
fn read_some(file: &File, at: u64, into: &mut [u8]) -> io::Result<usize>
    ensures { IfOk result (λ count. count ≤ length into.old) }
{
    for _ in 0..u64::MAX {
        match file.read_at(into, at) {
            Err(e) if e.kind() == ErrorKind::Interrupted => {}
            answer => return answer,
        }
    }
    Err(ErrorKind::Interrupted.into())
}

// Fills `into` from `at` on, with zeros past the end of the file.
fn read_bytes(file: &File, at: u64, into: &mut [u8]) -> io::Result<()>
    requires { at + length into.old ≤ 2 ^ 63 }
{
    let mut filled = 0;
    while filled < into.len() {
        match read_some(file, at + filled as u64, &mut into[filled..])? {
            0 => break,
            count => filled += count,
        }
    }
    into[filled..].fill(0);
    Ok(())
}

// One write of the system, tried again where a signal interrupts it.
fn write_some(file: &File, at: u64, bytes: &[u8]) -> io::Result<usize>
    ensures { IfOk result (λ count. count ≤ length bytes.now) }
{
    for _ in 0..u64::MAX {
        match file.write_at(bytes, at) {
            Err(e) if e.kind() == ErrorKind::Interrupted => {}
            answer => return answer,
        }
    }
    Err(ErrorKind::Interrupted.into())
}

// Writes all of the bytes from `at` on.
fn write_bytes(file: &File, at: u64, bytes: &[u8]) -> io::Result<()>
    requires { at + length bytes.now ≤ 2 ^ 63 }
{
    let mut written = 0;
    while written < bytes.len() {
        match write_some(file, at + written as u64, &bytes[written..])? {
            0 => return Err(ErrorKind::WriteZero.into()),
            count => written += count,
        }
    }
    Ok(())
}

impl<R: Files<File = File> + Drop> OpenFiles<R> {
    /// No file is opened yet.
    pub(crate) fn new(alloc: Global, rt: R) -> OpenFiles<R>
        ensures none_open { (file : ℕ) → get nat_cmp result.handles file ≡ None }
    {
        OpenFiles {
            rt,
            alloc,
            handles: BTreeMap::new(alloc),
            folder_synced: false,
        }
    }

    // Opens a file that isn't open.
    fn ready(&mut self, file: u16) -> io::Result<()>
        ensures { OnOk result (IsTrue (is_some (get nat_cmp self.new.handles file))) }
    {
        if self.handles.contains_key(&file) {
            return Ok(());
        }
        let name = name_of(self.alloc, file)?;
        self.folder_synced = false;
        let handle = open_file(&self.rt, name.as_str())?;
        self.handles.insert(file, handle)?;
        Ok(())
    }

    /// Fills `into` with the bytes of a file from `at` on, with zeros past its end.
    pub(crate) fn read(&mut self, file: u16, at: u64, into: &mut [u8]) -> io::Result<()>
        requires { at + length into.old ≤ 2 ^ 63 }
    {
        self.ready(file)?;
        match self.handles.get(&file) {
            Some(handle) => read_bytes(handle, at, into),
            None => unreachable!(),
        }
    }

    /// Writes the bytes to a file from `at` on. After an `Err` some of them may be written.
    pub(crate) fn write(&mut self, file: u16, at: u64, bytes: &[u8]) -> io::Result<()>
        requires { at + length bytes.now ≤ 2 ^ 63 }
    {
        self.ready(file)?;
        match self.handles.get(&file) {
            Some(handle) => write_bytes(handle, at, bytes),
            None => unreachable!(),
        }
    }

    /// Cuts a file to no bytes.
    pub(crate) fn cut(&mut self, file: u16) -> io::Result<()> {
        self.ready(file)?;
        match self.handles.get(&file) {
            Some(handle) => handle.set_len(0),
            None => unreachable!(),
        }
    }

    /// Syncs a file, and the folder where a file was opened since the folder's last sync.
    pub(crate) fn sync(&mut self, file: u16) -> io::Result<()> {
        self.ready(file)?;
        match self.handles.get(&file) {
            Some(handle) => handle.sync_all()?,
            None => unreachable!(),
        }
        self.sync_folder()
    }

    // A file that this session made, or an earlier one that ended before it synced the folder, keeps its name after a
    // crash only once the folder is synced.
    fn sync_folder(&mut self) -> io::Result<()> {
        if self.folder_synced {
            return Ok(());
        }
        File::open(&self.rt, ".")?.sync_all()?;
        self.folder_synced = true;
        Ok(())
    }
}
