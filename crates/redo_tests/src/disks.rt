use pdb_disk::{Disk, DiskFault};
use pdb_memdisk::{Disks, MemDisk};
use std::test::*;

// One call of a disk; a read has the bytes that it is to give, from the file's first place on.
#[derive(Clone, Copy)]
enum Ask {
    Read(u16, &'static [u8]),
    Write(u16, u64, &'static [u8]),
    Cut(u16),
    Sync(u16),
}

const BLANK: &[u8] = b"\0\0\0\0\0\0";

const WRITTEN: &[u8] = b"\0\0abc\0";

// Calls, of which those of the numbers 2, 5, 7, 9 and from 12 on fail, with their answers, and the clock, the reads and
// the faults after each.
const CALLS: [(Ask, Result<(), DiskFault>, (u64, u64, u64)); 14] = [
    (Ask::Write(1, 2, b"abc"), Ok(()), (1, 0, 0)),
    (Ask::Read(1, WRITTEN), Ok(()), (1, 1, 0)),
    (Ask::Write(1, 3, b"xy"), Err(DiskFault::Write), (2, 1, 1)),
    (Ask::Read(1, WRITTEN), Ok(()), (2, 2, 1)),
    (Ask::Sync(1), Ok(()), (3, 2, 1)),
    (Ask::Cut(1), Err(DiskFault::Cut), (4, 2, 2)),
    (Ask::Read(1, WRITTEN), Ok(()), (4, 3, 2)),
    (Ask::Sync(1), Err(DiskFault::Sync), (5, 3, 3)),
    (Ask::Cut(1), Ok(()), (6, 3, 3)),
    (Ask::Read(1, BLANK), Err(DiskFault::Read), (6, 4, 4)),
    (Ask::Read(1, BLANK), Ok(()), (6, 5, 4)),
    (Ask::Read(7, BLANK), Ok(()), (6, 6, 4)),
    (Ask::Write(0, 0, b"a"), Err(DiskFault::Write), (7, 6, 5)),
    (Ask::Read(0, BLANK), Err(DiskFault::Read), (7, 7, 6)),
];

// A write that is synced; then a write, one that fails, and a cut.
const PENDING: [Ask; 5] = [
    Ask::Write(0, 0, b"ab"),
    Ask::Sync(0),
    Ask::Write(0, 1, b"xyz"),
    Ask::Write(1, 0, b"pq"),
    Ask::Cut(0),
];

// The files 0 and 1 of each image after that, the last one first.
const IMAGES: [(&[u8], &[u8]); 9] = [
    (b"axyz\0\0", b"pq\0\0\0\0"), // all but the cut
    (BLANK, BLANK), // all but the second write
    (BLANK, b"pq\0\0\0\0"), // all but the first one
    (b"axyz\0\0", b"p\0\0\0\0\0"), // the first, and half of the second
    (b"ax\0\0\0\0", BLANK), // half of the first
    (BLANK, b"pq\0\0\0\0"), // all three
    (b"axyz\0\0", b"pq\0\0\0\0"), // the first two
    (b"axyz\0\0", BLANK), // the first
    (b"ab\0\0\0\0", BLANK), // none
];

// Whether a file begins with these bytes, or can't be read.
fn read(disk: &mut MemDisk, file: u16, want: &[u8]) -> Result<bool, DiskFault> {
    let mut into = [9u8; 6];
    disk.read_at(file, 0, &mut into)?;
    Ok(into.as_slice() == want)
}

// Makes a call. A read that gives other bytes than it is to is answered as a fault of a sync.
fn make(disk: &mut MemDisk, ask: Ask) -> Result<(), DiskFault> {
    match ask {
        Ask::Read(file, want) => {
            if read(disk, file, want)? {
                Ok(())
            } else {
                Err(DiskFault::Sync)
            }
        }
        Ask::Write(file, at, bytes) => {
            if at > 100 || bytes.len() > 100 {
                return Err(DiskFault::Sync);
            }
            disk.write_at(file, at, bytes)
        }
        Ask::Cut(file) => disk.cut(file),
        Ask::Sync(file) => disk.sync(file),
    }
}

fn counts(disk: &MemDisk) -> (u64, u64, u64) {
    (disk.calls(), disk.reads(), disk.faults())
}

#[test]
fn calls_are_answered_counted_and_failed(rt: HostRuntime) -> Result<(), Fail> {
    let mut disk = MemDisk::new(rt.alloc());
    for call in [2, 5, 7, 9] {
        disk.fail_at(call)?;
    }
    disk.fuse(12);
    for (ask, want, after) in CALLS {
        assert_eq!(rt; make(&mut disk, ask), want);
        assert_eq!(rt; counts(&disk), after);
    }
    assert!(rt; disk.is_complete());
    Ok(())
}

// Makes the calls, whatever they answer.
fn make_all(disk: &mut MemDisk, asks: &[Ask]) {
    for ask in asks {
        let _ = make(disk, *ask);
    }
}

// Whether the last disk has these bytes in its files 0 and 1.
fn pop_shows(disks: &mut Disks, first: &[u8], second: &[u8]) -> Result<bool, DiskFault> {
    match disks.pop() {
        Some(mut disk) => Ok(read(&mut disk, 0, first)? && read(&mut disk, 1, second)?),
        None => Ok(false),
    }
}

#[test]
fn images_are_listed(rt: HostRuntime) -> Result<(), Fail> {
    let mut disk = MemDisk::new(rt.alloc());
    disk.fail_at(3)?;
    make_all(&mut disk, &PENDING);
    let mut disks = disk.images(rt.alloc())?;
    for (first, second) in IMAGES {
        assert_eq!(rt; pop_shows(&mut disks, first, second), Ok(true));
    }
    assert!(rt; disks.pop().is_none());
    Ok(())
}
