ghost use Rattle.std.specs.Prelude.{◌≡◌};

use pdb_cells::{CellFault, CellName, Cells, Draft, HEAD_FILE, MapCells, size};
use std::test::*;

fn cell(file: u16, index: u64) -> CellName
    ensures { (result.file ≡ file) × (result.index ≡ index) }
{
    CellName { file, index }
}

#[test]
fn each_file_has_its_size(rt: HostRuntime) -> Result<(), Fail> {
    for (file, want) in [
        (0, None),
        (8, None),
        (9, Some(256)),
        (10, None),
        (15, None),
        (16, Some(512)),
        (17, Some(512)),
        (18, Some(64)),
        (22, Some(192)),
        (23, Some(256)),
        (32, Some(32768)),
        (33, Some(4096)),
        (34, None),
        (47, None),
        (48, Some(512)),
        (49, Some(512)),
        (50, Some(64)),
        (65, Some(4096)),
        (66, None),
        (u16::MAX, None),
    ] {
        assert_eq!(rt; size(file), want);
    }
    Ok(())
}

#[test]
fn cells_in_memory_are_read_and_fail(rt: HostRuntime) -> Result<(), Fail> {
    let mut cells = MapCells::new(rt.alloc());
    cells.set(cell(18, 1), &[7; 64])?;
    cells.set(cell(18, 1), &[8; 64])?;
    cells.fail_at(1)?;
    cells.fail_at(3)?;
    let mut slot = [1u8; 64];
    // a cell that wasn't set is zeros; a call for a head cell is a call, and no read
    assert_eq!(rt; cells.cell(cell(50, 1), &mut slot), Ok(()));
    assert_eq!(rt; slot, [0; 64]);
    assert_eq!(rt; cells.cell(cell(18, 1), &mut slot), Err(CellFault::Disk));
    let mut head = [1u8; 256];
    assert_eq!(rt; cells.cell(cell(HEAD_FILE, 1), &mut head), Ok(()));
    assert_eq!(rt; head, [0; 256]);
    assert_eq!(rt;
        cells.cell(cell(HEAD_FILE, 1), &mut head),
        Err(CellFault::Disk)
    );
    assert_eq!(rt; cells.cell(cell(18, 1), &mut slot), Ok(()));
    assert_eq!(rt; slot, [8; 64]);
    assert_eq!(rt; (cells.faults(), cells.reads()), (2, 3));
    Ok(())
}

#[test]
fn a_draft_lists_each_cell_once(rt: HostRuntime) -> Result<(), Fail> {
    let mut cells = MapCells::new(rt.alloc());
    cells.set(cell(18, 1), &[1; 64])?;
    cells.fail_at(1)?;
    let mut draft = Draft::new(rt.alloc(), &mut cells);
    for (name, byte) in [(cell(18, 2), 2), (cell(50, 1), 3), (cell(18, 2), 4)] {
        draft.put(name, &[byte; 64])?;
    }
    for (name, want) in [
        (cell(18, 1), Ok([1; 64])),
        (cell(18, 2), Ok([4; 64])),
        (cell(50, 1), Ok([3; 64])),
        (cell(18, 3), Err(CellFault::Disk)),
        (cell(18, 4), Ok([0; 64])),
    ] {
        let mut slot = [9u8; 64];
        let outcome = draft.cell(name, &mut slot);
        assert_eq!(rt; outcome.map(|_| slot), want);
    }
    // cells that were put are not read from below
    assert_eq!(rt; (draft.faults(), draft.reads()), (1, 3));
    let puts = draft.finish().copy(rt.alloc())?;
    assert_eq!(rt; puts.len(), 2);
    for (put, (name, byte)) in puts
        .as_slice()
        .iter()
        .zip([(cell(18, 2), 4), (cell(50, 1), 3)])
    {
        assert_eq!(rt; put.name, name);
        assert_eq!(rt; put.bytes.as_slice(), [byte; 64].as_slice());
    }
    Ok(())
}
