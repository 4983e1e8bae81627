use pdb_disk::Disk;
use pdb_memdisk::MemDisk;
use sdb_base::{Bytes, Words};
use sdb_io::{MemSink, MemSource};
use sdb_serve::{Outcome, run};
use std::alloc::{AllocError, Global};

// Which call of the source, of the sink and of the disk fails, each counted from 0.
pub(crate) type Fails = (Option<u64>, Option<u64>, Option<u64>);

pub(crate) const NONE_FAILS: Fails = (None, None, None);

// The bytes of a text, with a line feed for each bar.
pub(crate) fn lines(alloc: Global, text: &str) -> Result<Vec<u8>, AllocError> {
    let mut bytes = Vec::from_slice(alloc, text.as_bytes())?;
    for byte in bytes.iter_mut() {
        if *byte == b'|' {
            *byte = b'\n';
        }
    }
    Ok(bytes)
}

// The one word `script`.
pub(crate) fn script_words(alloc: Global) -> Result<Words, AllocError> {
    let mut words = Words::new(alloc);
    words.push(Bytes::from_slice(alloc, b"script")?)?;
    Ok(words)
}

// A script that is run on a disk: how it ended, and what was written.
pub(crate) fn on<D: Disk + Drop>(
    alloc: Global,
    script: &[u8],
    disk: D,
) -> Result<(Outcome<D>, Vec<u8>), AllocError> {
    let words = script_words(alloc)?;
    let mut source = MemSource::new(alloc, script)?;
    let mut sink = MemSink::new(alloc);
    let outcome = run(alloc, &words, &mut source, &mut sink, disk);
    Ok((outcome, Vec::from_slice(alloc, sink.bytes())?))
}

// The exit code of a run on a new disk over these words and this input, and what it writes.
pub(crate) fn tried(
    alloc: Global,
    words: &[&str],
    input: &[u8],
    (take, put, call): Fails,
) -> Result<(u8, Vec<u8>), AllocError> {
    let mut list = Words::new(alloc);
    for word in words {
        list.push(Bytes::from_slice(alloc, word.as_bytes())?)?;
    }
    let mut source = MemSource::new(alloc, input)?;
    if let Some(at) = take {
        source.fail_at(at)?;
    }
    let mut sink = MemSink::new(alloc);
    if let Some(at) = put {
        sink.fail_at(at)?;
    }
    let mut disk = MemDisk::new(alloc);
    if let Some(at) = call {
        disk.fail_at(at)?;
    }
    let outcome = run(alloc, &list, &mut source, &mut sink, disk);
    Ok((outcome.status.code(), Vec::from_slice(alloc, sink.bytes())?))
}
