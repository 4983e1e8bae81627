use crate::rounds::{created, one_put, recovered};
use pdb_disk::Disk;
use pdb_memdisk::MemDisk;
use pdb_record::{GateSlot, gate_bytes};
use pdb_redo::{CreateCause, OpenCause, Redo, RedoFault};
use sdb_base::Counter;
use std::alloc::Global;
use std::test::*;

// A database without keys with another gate, in the slot of an odd sequence.
fn with_gate(alloc: Global, gate: &GateSlot) -> Result<MemDisk, Fail> {
    let mut disk = created(alloc)?.into_disk();
    disk.write_at(0, 4096, &gate_bytes(gate))?;
    Ok(disk)
}

// Why a disk isn't opened.
fn open_cause(alloc: Global, disk: MemDisk) -> Option<OpenCause> {
    match Redo::open(alloc, disk) {
        Ok(_) => None,
        Err(e) => Some(e.fault),
    }
}

fn opened(alloc: Global, disk: MemDisk) -> Result<Redo<MemDisk>, Fail> {
    match Redo::open(alloc, disk) {
        Ok(redo) => Ok(redo),
        Err(_) => Err(Fail::new("not opened")),
    }
}

#[test]
fn the_last_record_has_the_last_number(rt: HostRuntime) -> Result<(), Fail> {
    let gate = GateSlot {
        sequence: 1,
        number: u64::MAX - 1,
        commits: 7,
    };
    let mut redo = opened(rt.alloc(), with_gate(rt.alloc(), &gate)?)?;
    assert_eq!(rt;
        redo.append(rt.alloc(), 8, one_put(rt.alloc(), 1)?),
        Ok(u64::MAX)
    );
    let ended = RedoFault::NumbersEnd {
        which: Counter::Records,
    };
    assert_eq!(rt;
        redo.append(rt.alloc(), 9, one_put(rt.alloc(), 2)?),
        Err(ended)
    );
    assert_eq!(rt; redo.flush(), Ok(8));
    assert_eq!(rt; recovered(rt.alloc(), redo.into_disk())?, (u64::MAX, 8, 2));
    Ok(())
}

#[test]
fn the_last_gate_has_the_last_sequence(rt: HostRuntime) -> Result<(), Fail> {
    for (sequence, cleaned, cause) in [
        (u64::MAX - 2, Ok(4), None),
        (
            u64::MAX,
            Err(RedoFault::NumbersEnd {
                which: Counter::Gates,
            }),
            Some(OpenCause::NumbersEnd {
                which: Counter::Gates,
            }),
        ),
    ] {
        let gate = GateSlot {
            sequence,
            number: 3,
            commits: 3,
        };
        let mut redo = opened(rt.alloc(), with_gate(rt.alloc(), &gate)?)?;
        assert_eq!(rt; redo.clean(), Ok(3));
        assert_eq!(rt; redo.append(rt.alloc(), 4, one_put(rt.alloc(), 1)?), Ok(4));
        assert_eq!(rt; redo.flush(), Ok(4));
        assert_eq!(rt; redo.enact(), Ok(Some(4)));
        assert_eq!(rt; redo.clean(), cleaned);
        assert_eq!(rt; open_cause(rt.alloc(), redo.into_disk()), cause);
    }
    Ok(())
}

#[test]
fn what_there_is_decides(rt: HostRuntime) -> Result<(), Fail> {
    assert_eq!(rt;
        open_cause(rt.alloc(), MemDisk::new(rt.alloc())),
        Some(OpenCause::NoDatabase)
    );
    match Redo::create(rt.alloc(), created(rt.alloc())?.into_disk(), 0) {
        Ok(_) => return Err(Fail::new("made twice")),
        Err(e) => assert_eq!(rt; e.fault, CreateCause::Occupied),
    }
    match Redo::create(rt.alloc(), MemDisk::new(rt.alloc()), 16) {
        Ok(redo) => assert_eq!(rt; open_cause(rt.alloc(), redo.into_disk()), None),
        Err(_) => return Err(Fail::new("not created")),
    }
    // a byte of file 9, which has a head cell of 256 bytes for each column, and what it is set to
    for (at, byte, cell) in [
        (0u16, 2, Some(0)),
        (1, 17, Some(0)),
        (2, 1, Some(0)),
        (3, 1, Some(0)),
        (255, 1, Some(0)),
        (256, 0, Some(1)),
        (258, 14, Some(1)),
        (256 + 7, 1, Some(1)),
        (512, 1, None),
    ] {
        let mut disk = created(rt.alloc())?.into_disk();
        disk.write_at(9, u64::from(at), &[byte])?;
        let damaged = cell.map(|cell| OpenCause::Damaged { file: 9, cell });
        assert_eq!(rt; open_cause(rt.alloc(), disk), damaged);
    }
    Ok(())
}

// A disk with one flushed record.
fn flushed(alloc: Global) -> Result<MemDisk, Fail> {
    let mut redo = created(alloc)?;
    redo.append(alloc, 1, one_put(alloc, 0xab)?)?;
    redo.flush()?;
    Ok(redo.into_disk())
}

// Opening makes 70 calls: a sync of each of 42 files, 2 reads of gates and 4 of headers; 6 for the record, of its header
// twice, a put's name, the put, the checksum and the next header; its cell and the gate are written and synced; 4 files are
// cut and synced; both head cells are read twice.
#[test]
fn an_opening_that_fails_may_be_tried_again(rt: HostRuntime) -> Result<(), Fail> {
    for call in 0..70u64 {
        let mut disk = flushed(rt.alloc())?;
        let tried = disk.calls().saturating_add(disk.reads());
        disk.fail_at(tried.saturating_add(call))?;
        let Err(e) = Redo::open(rt.alloc(), disk) else {
            return Err(Fail::new("opened"));
        };
        assert!(rt; matches!(e.fault, OpenCause::Disk(_)));
        let (number, commits, sequence) = recovered(rt.alloc(), e.disk)?;
        assert_eq!(rt; (number, commits), (1, 1));
        assert!(rt; sequence == 1 || sequence == 2);
    }
    let mut disk = flushed(rt.alloc())?;
    let tried = disk.calls().saturating_add(disk.reads());
    disk.fail_at(tried.saturating_add(70))?;
    assert_eq!(rt; open_cause(rt.alloc(), disk), None);
    Ok(())
}
