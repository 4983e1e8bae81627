ghost use Rattle.std.specs.Prelude.{◌≡◌, ◌∷◌, [], All, IfOk, replicate};
ghost use Rattle.pdb_cells.specs.Puts.{IsWholeCell, NoCellTwice};

use pdb_cells::{CellName, PutSet, Puts};
use pdb_disk::Disk;
use pdb_memdisk::MemDisk;
use pdb_record::{GateSlot, encode};
use pdb_recover::{pending, recover};
use pdb_redo::{Recorded, Redo, RedoFault};
use sdb_base::OutOfMemory;
use std::alloc::Global;
use std::test::*;

// Slot 7 of tier 0 of column 0.
pub(crate) const SLOT: CellName = CellName { file: 18, index: 7 };

// The gate of a database without commits.
const FIRST_GATE: GateSlot = GateSlot {
    sequence: 0,
    number: 0,
    commits: 0,
};

/// One put of that slot, 64 equal bytes.
pub(crate) fn one_put(alloc: Global, byte: u8) -> Result<Puts, OutOfMemory>
    ensures whole { IfOk result (λ puts. All IsWholeCell puts) }
    ensures once { IfOk result NoCellTwice }
    ensures one { IfOk result (λ puts. puts ≡ record { name = record { file = 18; index = 7 }; bytes = replicate 64 byte } ∷ []) }
{
    let mut puts = PutSet::new(alloc);
    puts.put(SLOT, &[byte; 64])?;
    Ok(puts.into_puts())
}

/// The first byte of that slot. None where it can't be read.
pub(crate) fn slot(redo: &mut Redo<MemDisk>) -> Option<u8> {
    let mut cell = [0; 64];
    match redo.read_cell(SLOT, &mut cell) {
        Ok(()) => Some(cell[0]),
        Err(_) => None,
    }
}

/// A database without keys, over a disk in memory.
pub(crate) fn created(alloc: Global) -> Result<Redo<MemDisk>, Fail> {
    match Redo::create(alloc, MemDisk::new(alloc), 0) {
        Ok(redo) => Ok(redo),
        Err(_) => Err(Fail::new("not created")),
    }
}

/// What recovery gives: number, commits, sequence.
pub(crate) fn recovered(alloc: Global, disk: MemDisk) -> Result<(u64, u64, u64), Fail> {
    match recover(alloc, disk) {
        Ok(found) => Ok((found.number, found.commits, found.sequence)),
        Err(_) => Err(Fail::new("not recovered")),
    }
}

#[test]
fn a_round_is_recovered(rt: HostRuntime) -> Result<(), Fail> {
    let mut redo = created(rt.alloc())?;
    assert_eq!(rt; slot(&mut redo), Some(0));
    assert_eq!(rt;
        redo.append(rt.alloc(), 1, one_put(rt.alloc(), 0xab)?),
        Ok(1)
    );
    assert_eq!(rt; slot(&mut redo), Some(0xab));
    assert_eq!(rt; redo.flush(), Ok(1));
    assert_eq!(rt; redo.enact(), Ok(Some(1)));
    assert_eq!(rt; redo.enact(), Ok(None));
    assert_eq!(rt; redo.clean(), Ok(1));
    assert_eq!(rt; redo.clean(), Ok(1));
    assert_eq!(rt; slot(&mut redo), Some(0xab));
    let mut disk = redo.into_disk();
    let Ok(found) = pending(rt.alloc(), &mut disk) else {
        return Err(Fail::new("no database"));
    };
    assert_eq!(rt;
        found.gate,
        GateSlot {
            sequence: 1,
            number: 1,
            commits: 1
        }
    );
    assert_eq!(rt; (found.number, found.commits, found.puts.len()), (1, 1, 0));
    assert_eq!(rt; recovered(rt.alloc(), disk)?, (1, 1, 1));
    Ok(())
}

// How many commits are in appended, flushed and enacted records, after each call of a round over a database of no commits.
#[test]
fn each_call_moves_its_own_number(rt: HostRuntime) -> Result<(), Fail> {
    let mut redo = created(rt.alloc())?;
    assert_eq!(rt; numbers(&redo), (0, 0, 0));
    assert_eq!(rt;
        redo.append(rt.alloc(), 3, one_put(rt.alloc(), 0xab)?),
        Ok(1)
    );
    assert_eq!(rt; numbers(&redo), (3, 0, 0));
    assert_eq!(rt; redo.flush(), Ok(3));
    assert_eq!(rt; numbers(&redo), (3, 3, 0));
    assert_eq!(rt; redo.enact(), Ok(Some(3)));
    assert_eq!(rt; numbers(&redo), (3, 3, 3));
    assert_eq!(rt; redo.stopped(), None);
    Ok(())
}

// Those numbers, as a row of a table.
fn numbers(redo: &Redo<MemDisk>) -> (u64, u64, u64) {
    let Recorded {
        appended,
        flushed,
        enacted,
    } = redo.recorded();
    (appended, flushed, enacted)
}

// Creating makes 91 calls, reads among them; the write of `append` is the next one, and fails.
#[test]
fn a_failed_write_is_named(rt: HostRuntime) -> Result<(), Fail> {
    let mut disk = MemDisk::new(rt.alloc());
    disk.fail_at(91)?;
    let Ok(mut redo) = Redo::create(rt.alloc(), disk, 3) else {
        return Err(Fail::new("not created"));
    };
    assert_eq!(rt; (redo.head(0)[1], redo.head(1)[1]), (3, 3));
    let call = redo.calls().saturating_add(1);
    assert!(rt;
        redo.append(rt.alloc(), 1, one_put(rt.alloc(), 0xab)?)
            .is_err()
    );
    assert_eq!(rt; redo.stopped(), Some(call));
    assert_eq!(rt; redo.flush(), Err(RedoFault::Stopped { call }));
    assert_eq!(rt; numbers(&redo), (0, 0, 0));
    Ok(())
}

#[test]
fn a_record_that_wasnt_enacted_is_recovered(rt: HostRuntime) -> Result<(), Fail> {
    let mut redo = created(rt.alloc())?;
    assert_eq!(rt;
        redo.append(rt.alloc(), 1, one_put(rt.alloc(), 0xab)?),
        Ok(1)
    );
    assert_eq!(rt; redo.flush(), Ok(1));
    let mut disk = redo.into_disk();
    let Ok(found) = pending(rt.alloc(), &mut disk) else {
        return Err(Fail::new("no database"));
    };
    assert_eq!(rt; found.gate, FIRST_GATE);
    assert_eq!(rt; (found.number, found.commits, found.puts.len()), (1, 1, 1));
    let Ok(mut again) = Redo::open(rt.alloc(), disk) else {
        return Err(Fail::new("not opened"));
    };
    assert_eq!(rt; slot(&mut again), Some(0xab));
    assert_eq!(rt; recovered(rt.alloc(), again.into_disk())?, (1, 1, 1));
    Ok(())
}

// Behind zeros a whole record stands where the second record of a session will end the first: once file 1 isn't cut at
// opening, it is found right after that one.
#[test]
fn a_stale_record_is_gone(rt: HostRuntime) -> Result<(), Fail> {
    let mut disk = created(rt.alloc())?.into_disk();
    let stale = encode(rt.alloc(), 2, 2, &one_put(rt.alloc(), 0xcd)?)?;
    assert_eq!(rt; stale.as_slice().len(), 130);
    assert_eq!(rt; disk.write_at(1, 130, stale.as_slice()), Ok(()));
    let Ok(mut redo) = Redo::open(rt.alloc(), disk) else {
        return Err(Fail::new("not opened"));
    };
    assert_eq!(rt;
        redo.append(rt.alloc(), 1, one_put(rt.alloc(), 0xab)?),
        Ok(1)
    );
    assert_eq!(rt; redo.flush(), Ok(1));
    assert_eq!(rt; recovered(rt.alloc(), redo.into_disk())?, (1, 1, 1));
    Ok(())
}
