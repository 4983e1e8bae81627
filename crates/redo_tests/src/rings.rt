ghost use Rattle.std.specs.Prelude.{◌≡◌, All, IfOk, Some, length};
ghost use Rattle.pdb_cells.specs.Puts.{IsWholeCell, NoCellTwice};
ghost use Rattle.pdb_cells.specs.Sizes.{size_of};

use crate::rounds::created;
use pdb_cells::{CellName, PutSet, Puts};
use pdb_disk::{Disk, DiskFault};
use pdb_memdisk::MemDisk;
use sdb_base::OutOfMemory;
use std::alloc::Global;
use std::test::*;

// Slots of tiers 0, 7, 13 and 14 of column 0.
const OF_64: u16 = 18;

const OF_512: u16 = 25;

const OF_16384: u16 = 31;

const OF_32768: u16 = 32;

/// Adds puts of so many cells of one file, from cell 1 on, all of the same bytes.
fn add_puts(puts: &mut PutSet, file: u16, count: u32, cell: &[u8]) -> Result<(), OutOfMemory>
    requires { size_of file ≡ Some (length cell.now) }
{
    for index in 1..=count {
        let name = CellName {
            file,
            index: u64::from(index),
        };
        puts.put(name, cell)?;
    }
    Ok(())
}

// A put takes 10 bytes before its cell, and a record 56 around its body. These are 262,280 bytes: 56 + 8 * 32,778.
fn more_than_full(alloc: Global) -> Result<Puts, OutOfMemory>
    ensures whole { IfOk result (λ puts. All IsWholeCell puts) }
    ensures once { IfOk result NoCellTwice }
{
    let mut puts = PutSet::new(alloc);
    add_puts(&mut puts, OF_32768, 8, &[1; 32768])?;
    Ok(puts.into_puts())
}

// With 15 slots of 64 bytes these are 262,144 bytes: 56 + 7 * 32,778 + 16,394 + 29 * 522 + 15 * 74.
fn full(alloc: Global, smallest: u32) -> Result<Puts, OutOfMemory>
    ensures whole { IfOk result (λ puts. All IsWholeCell puts) }
    ensures once { IfOk result NoCellTwice }
{
    let mut puts = PutSet::new(alloc);
    add_puts(&mut puts, OF_32768, 7, &[1; 32768])?;
    add_puts(&mut puts, OF_16384, 1, &[1; 16384])?;
    add_puts(&mut puts, OF_512, 29, &[1; 512])?;
    add_puts(&mut puts, OF_64, smallest, &[1; 64])?;
    Ok(puts.into_puts())
}

// The number of the record at a log file's front, its bytes 8 to 15, of which the lowest is enough here; 0 where there is
// none.
fn front(disk: &mut MemDisk, file: u16) -> Result<u8, DiskFault> {
    let mut number = [0; 1];
    disk.read_at(file, 8, &mut number)?;
    Ok(number[0])
}

fn fronts(mut disk: MemDisk) -> Result<[u8; 4], DiskFault> {
    Ok([
        front(&mut disk, 1)?,
        front(&mut disk, 2)?,
        front(&mut disk, 3)?,
        front(&mut disk, 4)?,
    ])
}

// The fronts after so many records that fill a log file, of which each but the last is cleaned or none is.
fn fronts_after(alloc: Global, records: u64, cleaning: bool) -> Result<[u8; 4], Fail> {
    let mut redo = created(alloc)?;
    for n in 1..records.saturating_add(1) {
        redo.append(alloc, n, more_than_full(alloc)?)?;
        redo.flush()?;
        if cleaning && n < records {
            redo.enact()?;
            redo.clean()?;
        }
    }
    Ok(fronts(redo.into_disk())?)
}

#[test]
fn the_ring_turns(rt: HostRuntime) -> Result<(), Fail> {
    for (records, cleaning, want) in [
        (1, true, [1, 0, 0, 0]),
        (2, true, [0, 2, 0, 0]),
        (4, true, [0, 0, 0, 4]),
        (6, true, [0, 6, 0, 0]),
        (5, false, [1, 2, 3, 4]),
    ] {
        assert_eq!(rt; fronts_after(rt.alloc(), records, cleaning)?, want);
    }
    Ok(())
}

#[test]
fn a_file_is_full_at_262144_bytes(rt: HostRuntime) -> Result<(), Fail> {
    // 15 small slots fill the file just, 14 don't
    for (smallest, want) in [(15u32, [1, 2, 0, 0]), (14, [1, 0, 0, 0])] {
        let mut redo = created(rt.alloc())?;
        redo.append(rt.alloc(), 1, full(rt.alloc(), smallest)?)?;
        redo.append(rt.alloc(), 2, Puts::new(rt.alloc()))?;
        assert_eq!(rt; fronts(redo.into_disk())?, want);
    }
    Ok(())
}
