use super::*;
use pdb_disk::{Disk, DiskFault};
use std::fs;
use std::test::*;

// Files that no other test opens.
const FILE: u16 = 65535;

const OTHER: u16 = 65534;

const NAMES: [&str; 2] = ["sdb-65535", "sdb-65534"];

// One call of a disk; a read has the bytes that it is to give, from the place on.
#[derive(Clone, Copy)]
enum Ask {
    Read(u16, u64, &'static [u8]),
    Write(u16, u64, &'static [u8]),
    Cut(u16),
    Sync(u16),
}

// Calls with the clock and the reads after each.
const CALLS: [(Ask, (u64, u64)); 14] = [
    (Ask::Read(FILE, 0, b"\0\0\0\0"), (0, 1)), // a file that was just made
    (Ask::Write(FILE, 5, b"abc"), (1, 1)),
    (Ask::Read(FILE, 3, b"\0\0abc\0\0"), (1, 2)), // over a hole, and past the end
    (Ask::Read(FILE, 1 << 40, b"\0\0"), (1, 3)),
    (Ask::Write(FILE, 6, b"xy"), (2, 3)),
    (Ask::Sync(FILE), (3, 3)),
    (Ask::Read(FILE, 5, b"axy\0"), (3, 4)),
    (Ask::Write(OTHER, 0, b"pq"), (4, 4)),
    (Ask::Write(OTHER, 2, b""), (5, 4)),
    (Ask::Cut(FILE), (6, 4)),
    (Ask::Read(FILE, 5, b"\0\0\0\0"), (6, 5)), // after a cut
    (Ask::Write(FILE, 2, b"z"), (7, 5)),
    (Ask::Read(FILE, 0, b"\0\0z\0"), (7, 6)),
    (Ask::Sync(OTHER), (8, 6)),
];

// Makes a call. A read that gives other bytes than it is to is answered as a fault of a sync.
fn make<D: Disk>(disk: &mut D, ask: Ask) -> Result<(), DiskFault> {
    match ask {
        Ask::Read(file, at, want) => {
            let mut into = [9u8; 8];
            if at > 1 << 40 || want.len() > 8 {
                return Err(DiskFault::Sync);
            }
            disk.read_at(file, at, &mut into[..want.len()])?;
            if &into[..want.len()] == want {
                Ok(())
            } else {
                Err(DiskFault::Sync)
            }
        }
        Ask::Write(file, at, bytes) => {
            if at > 100 || bytes.len() > 100 {
                return Err(DiskFault::Sync);
            }
            disk.write_at(file, at, bytes)
        }
        Ask::Cut(file) => disk.cut(file),
        Ask::Sync(file) => disk.sync(file),
    }
}

fn crosses_threads<D: Disk + Send>(_disk: &D) {}

#[test]
fn files_read_as_they_were_written(rt: HostRuntime) -> Result<(), Fail> {
    for name in NAMES {
        let _ = fs::remove_file(&rt, name);
    }
    let mut disk = HostDisk::new(rt.alloc(), rt.clone()?);
    crosses_threads(&disk);
    for (ask, after) in CALLS {
        assert_eq!(rt; make(&mut disk, ask), Ok(()));
        assert_eq!(rt; (disk.calls(), disk.reads()), after);
        assert_eq!(rt; disk.faults(), 0);
    }
    drop(disk);
    for (name, want) in [(NAMES[0], b"\0\0z".as_slice()), (NAMES[1], b"pq")] {
        assert_eq!(rt; fs::read(&rt, name)?.as_slice(), want);
        fs::remove_file(&rt, name)?;
    }
    Ok(())
}
