use super::*;
use pdb_cells::{CellBytes, CellName, Put, Puts};
use pdb_disk::{Disk, DiskFault};
use pdb_memdisk::MemDisk;
use pdb_model::GateSlot;
use sdb_base::Counter;
use std::process::Abort;
use std::test::*;

// Record 1 with slot 7 of file 18, 64 bytes 0xab, after 1 commit; its checksums by Python's hashlib.blake2b.
const ONE_SLOT: [u8; 130] = [
    0x53, 0x44, 0x42, 0x52, 0x00, 0x00, 0x00, 0x00, 0x01, 0x00, 0x00, 0x00, 0x00, 0x00, 0x00, 0x00,
    0x01, 0x00, 0x00, 0x00, 0x00, 0x00, 0x00, 0x00, 0x4a, 0x00, 0x00, 0x00, 0x00, 0x00, 0x00, 0x00,
    0x01, 0x00, 0x00, 0x00, 0x00, 0x00, 0x00, 0x00, 0xfb, 0x90, 0xbd, 0x2e, 0x72, 0xf9, 0xf1, 0xb0,
    0x12, 0x00, 0x07, 0x00, 0x00, 0x00, 0x00, 0x00, 0x00, 0x00, 0xab, 0xab, 0xab, 0xab, 0xab, 0xab,
    0xab, 0xab, 0xab, 0xab, 0xab, 0xab, 0xab, 0xab, 0xab, 0xab, 0xab, 0xab, 0xab, 0xab, 0xab, 0xab,
    0xab, 0xab, 0xab, 0xab, 0xab, 0xab, 0xab, 0xab, 0xab, 0xab, 0xab, 0xab, 0xab, 0xab, 0xab, 0xab,
    0xab, 0xab, 0xab, 0xab, 0xab, 0xab, 0xab, 0xab, 0xab, 0xab, 0xab, 0xab, 0xab, 0xab, 0xab, 0xab,
    0xab, 0xab, 0xab, 0xab, 0xab, 0xab, 0xab, 0xab, 0xab, 0xab, 0x1e, 0x62, 0x80, 0x0e, 0x51, 0xb8,
    0xf8, 0xca,
];

// The gate of a database without commits.
const GATE: GateSlot = GateSlot {
    sequence: 0,
    number: 0,
    commits: 0,
};

// Where record 1 stands.
const PLACE: LogPlace = LogPlace {
    number: 1,
    file: 1,
    at: 0,
    len: 130,
};

#[test]
fn a_record_is_appended_and_flushed(rt: HostRuntime) -> Result<(), Fail> {
    let mut puts = Puts::new(rt.alloc());
    puts.push(Put {
        name: CellName { file: 18, index: 7 },
        bytes: CellBytes::from_slice(rt.alloc(), &[0xab; 64])?,
    })?;
    // the disk's call that fails; what append, flush and flush again answer; the disk's clock after that
    for (failing, append, flush, again, calls) in [
        (9, Ok(PLACE), Ok(()), Ok(()), 2),
        (1, Ok(PLACE), Err(DiskFault::Sync), Ok(()), 3),
        (0, Err(LogFault::Disk(DiskFault::Write)), Ok(()), Ok(()), 1),
    ] {
        let mut disk = MemDisk::new(rt.alloc());
        disk.fail_at(failing)?;
        let mut log = Log::begin(disk, GATE);
        let appended = log.append(rt.alloc(), 1, &puts);
        let flushed = log.flush();
        let flushed_again = log.flush();
        let mut bytes = [0xff; 130];
        let read = log.read_at(1, 0, &mut bytes);
        let mut next = [0xff; 1];
        let read_next = log.read_at(1, 130, &mut next);
        let disk = log.into_disk();
        assert_eq!(rt; appended, append);
        assert_eq!(rt; (flushed, flushed_again), (flush, again));
        assert_eq!(rt; (read, read_next), (Ok(()), Ok(())));
        assert_eq!(rt; disk.calls(), calls);
        if append.is_ok() {
            assert_eq!(rt; bytes, ONE_SLOT);
            assert_eq!(rt; next, [0]);
        }
    }
    Ok(())
}

#[test]
fn a_full_file_is_followed_by_the_next(rt: HostRuntime) -> Result<(), Fail> {
    let mut puts = Puts::new(rt.alloc());
    puts.push(Put {
        name: CellName { file: 18, index: 7 },
        bytes: CellBytes::from_slice(rt.alloc(), &[0xab; 64])?,
    })?;
    let records = LogFault::NumbersEnd {
        which: Counter::Records,
    };
    let bytes = LogFault::NumbersEnd {
        which: Counter::LogBytes,
    };
    // how many bytes the files 1 and 2 have, and the last number; what append answers; the current file after that
    for (first, second, number, fault, file) in [
        (262_013, 0, 0, None, 1),
        (262_014, 0, 0, None, 2),
        (262_014, 56, 0, None, 1),
        (262_014, 0, u64::MAX - 1, None, 2),
        (262_014, 0, u64::MAX, Some(records), 1),
        ((1 << 62) - 129, 0, 0, Some(bytes), 2),
    ] {
        let mut log = Log::begin(MemDisk::new(rt.alloc()), GATE).with_ends(first, second, number);
        let appended = log.append(rt.alloc(), 1, &puts);
        log.rotate();
        let current = log.current();
        let disk = log.into_disk();
        assert_eq!(rt; appended.err(), fault);
        assert_eq!(rt; current, file);
        assert_eq!(rt; disk.faults(), 0);
    }
    Ok(())
}
