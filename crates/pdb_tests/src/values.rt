use pdb_cells::{CellName, Cells, Draft, HEAD_FILE, MapCells};
use pdb_value::{
    Address, OutOfMemory, ValueFault, add_ref, count, drop_ref, place, read_head, read_into,
    replace,
};
use std::alloc::Global;
use std::test::*;

// some bytes
fn some_bytes(alloc: Global, len: usize) -> Result<Vec<u8>, OutOfMemory> {
    let mut bytes = Vec::with_capacity(alloc, len)?;
    bytes.resize(len, 7)?;
    Ok(bytes)
}

// a head cell with these ends of the first tier, low byte first
fn head(free: u8, end: [u8; 4]) -> [u8; 256] {
    let mut cell = [0; 256];
    cell[0] = 1;
    cell[4] = free;
    cell[8..12].copy_from_slice(&end);
    cell
}

// cells of which column 0 has that head cell
fn cells_with(alloc: Global, free: u8, end: [u8; 4]) -> Result<MapCells, OutOfMemory> {
    let mut cells = MapCells::new(alloc);
    set_head(&mut cells, 0, &head(free, end))?;
    Ok(cells)
}

fn set_head(cells: &mut MapCells, column: u8, cell: &[u8; 256]) -> Result<(), OutOfMemory> {
    let name = CellName {
        file: HEAD_FILE,
        index: u64::from(column),
    };
    cells.set(name, cell)
}

// why a column's head cell isn't read
fn head_of<C: Cells>(cells: &mut C, column: u8) -> Option<ValueFault> {
    read_head(cells, column).err()
}

fn at(tier: u8, slot: u32) -> Address {
    Address { tier, slot }
}

// The calls on column 0, each by itself: what their clauses say isn't needed here.
fn placed<C: Cells>(
    alloc: Global,
    d: &mut Draft<'_, C>,
    key: u8,
    count: u64,
    bytes: &[u8],
) -> Result<Address, ValueFault> {
    if count == 0 || bytes.len() > 8_388_608 {
        return Err(ValueFault::Disk);
    }
    place(alloc, d, 0, &[key; 32], count, bytes)
}

fn added<C: Cells>(alloc: Global, d: &mut Draft<'_, C>, at: Address) -> Result<u64, ValueFault> {
    if at.tier > 15 {
        return Err(ValueFault::Disk);
    }
    add_ref(alloc, d, 0, at)
}

fn dropped<C: Cells>(alloc: Global, d: &mut Draft<'_, C>, at: Address) -> Result<u64, ValueFault> {
    if at.tier > 15 {
        return Err(ValueFault::Disk);
    }
    drop_ref(alloc, d, 0, at)
}

fn replaced<C: Cells>(
    alloc: Global,
    d: &mut Draft<'_, C>,
    at: Address,
    bytes: &[u8],
) -> Result<bool, ValueFault> {
    if at.tier > 15 || bytes.len() > 8_388_608 {
        return Err(ValueFault::Disk);
    }
    replace(alloc, d, 0, at, bytes)
}

fn read<C: Cells>(
    alloc: Global,
    d: &mut Draft<'_, C>,
    at: Address,
    key: u8,
    out: &mut Vec<u8>,
) -> Result<bool, ValueFault> {
    if at.tier > 15 {
        return Err(ValueFault::Disk);
    }
    read_into(alloc, d, 0, at, &[key; 32], out)
}

fn counted<C: Cells>(alloc: Global, c: &mut C, at: Address) -> Result<Option<u64>, ValueFault> {
    if at.tier > 15 {
        return Err(ValueFault::Disk);
    }
    count(alloc, c, 0, at, &[0; 32])
}

// reads a value, and its count
fn read_back<C: Cells>(
    alloc: Global,
    d: &mut Draft<'_, C>,
    at: Address,
    key: u8,
    out: &mut Vec<u8>,
) -> Result<(bool, Option<u64>), ValueFault> {
    let found = read(alloc, d, at, key, out)?;
    if at.tier > 15 {
        return Err(ValueFault::Disk);
    }
    Ok((found, count(alloc, d, 0, at, &[key; 32])?))
}

#[test]
fn values_go_to_their_tiers(rt: HostRuntime) -> Result<(), Fail> {
    for (len, tier, further) in [
        (0u16, 0, 0u8),
        (20, 0, 0),
        (21, 1, 0),
        (32724, 14, 0),
        (32725, 15, 8),
        (36748, 15, 8),
        (36749, 15, 9),
    ] {
        let mut cells = cells_with(rt.alloc(), 0, [0; 4])?;
        let mut draft = Draft::new(rt.alloc(), &mut cells);
        let bytes = some_bytes(rt.alloc(), usize::from(len))?;
        let place_1 = placed(rt.alloc(), &mut draft, 1, 3, &bytes);
        let place_2 = placed(rt.alloc(), &mut draft, 2, 4, &bytes);
        let mut out = Vec::new(rt.alloc());
        let read = read_back(rt.alloc(), &mut draft, at(tier, 1), 1, &mut out);
        let other = read_back(rt.alloc(), &mut draft, at(tier, 1), 2, &mut out);
        let puts = draft.finish().len();
        assert_eq!(rt; place_1, Ok(at(tier, 1)));
        assert_eq!(rt; place_2, Ok(at(tier, 2 + u32::from(further))));
        assert_eq!(rt; (read, other), (Ok((true, Some(3))), Ok((false, None))));
        assert_eq!(rt; out, bytes);
        assert_eq!(rt; puts, 3 + 2 * usize::from(further));
    }
    Ok(())
}

#[test]
fn counts_rise_and_fall(rt: HostRuntime) -> Result<(), Fail> {
    let mut cells = cells_with(rt.alloc(), 0, [0; 4])?;
    let mut draft = Draft::new(rt.alloc(), &mut cells);
    let first = placed(rt.alloc(), &mut draft, 1, u64::MAX, &[5]);
    let stays = (
        added(rt.alloc(), &mut draft, at(0, 1)),
        dropped(rt.alloc(), &mut draft, at(0, 1)),
    );
    let second = placed(rt.alloc(), &mut draft, 2, 1, &[5]);
    let moves = (
        added(rt.alloc(), &mut draft, at(0, 2)),
        dropped(rt.alloc(), &mut draft, at(0, 2)),
        dropped(rt.alloc(), &mut draft, at(0, 2)),
    );
    let gone = dropped(rt.alloc(), &mut draft, at(0, 2));
    draft.finish();
    assert_eq!(rt; (first, second), (Ok(at(0, 1)), Ok(at(0, 2))));
    assert_eq!(rt; stays, (Ok(u64::MAX), Ok(u64::MAX)));
    assert_eq!(rt; moves, (Ok(2), Ok(1), Ok(0)));
    assert_eq!(rt; gone, Err(ValueFault::Damaged { file: 18, cell: 2 }));
    Ok(())
}

// sets a cell of column 0's first tier
fn set_slot(cells: &mut MapCells, slot: u8, front: [u8; 12]) -> Result<(), OutOfMemory> {
    let mut cell = [0; 64];
    cell[..12].copy_from_slice(&front);
    let name = CellName {
        file: 18,
        index: u64::from(slot),
    };
    cells.set(name, &cell)
}

#[test]
fn damaged_cells_are_named(rt: HostRuntime) -> Result<(), Fail> {
    let damaged = |cell| Err(ValueFault::Damaged { file: 18, cell });
    for (slot, want) in [
        // another kind; no count; a length that the slot doesn't hold; a second byte
        ([9, 0, 0, 0, 1, 0, 0, 0, 0, 0, 0, 0], damaged(1)),
        ([1, 0, 0, 0, 0, 0, 0, 0, 0, 0, 0, 0], damaged(1)),
        ([1, 0, 21, 0, 1, 0, 0, 0, 0, 0, 0, 0], damaged(1)),
        ([1, 1, 0, 0, 1, 0, 0, 0, 0, 0, 0, 0], damaged(1)),
        ([1, 0, 0, 0, 1, 0, 0, 0, 0, 0, 0, 0], Ok(Some(1))),
        ([1, 0, 20, 0, 0, 1, 0, 0, 0, 0, 0, 0], Ok(Some(256))),
    ] {
        let mut cells = cells_with(rt.alloc(), 0, [1, 0, 0, 0])?;
        set_slot(&mut cells, 1, slot)?;
        assert_eq!(rt; counted(rt.alloc(), &mut cells, at(0, 1)), want);
    }
    Ok(())
}

#[test]
fn head_cells_keep_their_rules(rt: HostRuntime) -> Result<(), Fail> {
    let damaged = Some(ValueFault::Damaged { file: 9, cell: 1 });
    for (front, place, want) in [
        ([1, 0, 0, 0], 0, None),
        ([2, 0, 0, 0], 0, damaged),
        // the base; fewer bits than the base; as many more as there may be, and one beyond
        ([1, 16, 16, 0], 0, None),
        ([1, 17, 17, 0], 0, damaged),
        ([1, 3, 2, 0], 0, damaged),
        ([1, 2, 16, 0], 0, None),
        ([1, 2, 17, 0], 0, damaged),
        // growing with a bit more than the base, and without
        ([1, 0, 1, 1], 0, None),
        ([1, 0, 0, 1], 0, damaged),
        ([1, 0, 1, 2], 0, damaged),
        // the last tier's first free slot above its end, its end alone, and a byte after it
        ([1, 0, 0, 0], 124, damaged),
        ([1, 0, 0, 0], 128, None),
        ([1, 0, 0, 0], 132, damaged),
    ] {
        let mut cell = [0; 256];
        if let Some(byte) = cell.get_mut(place) {
            *byte = 1;
        }
        cell[..4].copy_from_slice(&front);
        let mut cells = MapCells::new(rt.alloc());
        set_head(&mut cells, 1, &cell)?;
        assert_eq!(rt; head_of(&mut cells, 1), want);
    }
    Ok(())
}

// sets a byte of a cell of the tier of values in parts
fn set_byte<C: Cells>(
    d: &mut Draft<'_, C>,
    slot: u8,
    place: u16,
    byte: u8,
) -> Result<(), ValueFault> {
    let name = CellName {
        file: 33,
        index: u64::from(slot),
    };
    let mut cell = [0; 4096];
    d.read(name, &mut cell)?;
    if usize::from(place) < cell.len() {
        cell[usize::from(place)] = byte;
    }
    d.put(name, &cell)?;
    Ok(())
}

#[test]
fn damaged_parts_are_named(rt: HostRuntime) -> Result<(), Fail> {
    let bytes = some_bytes(rt.alloc(), 32725)?;
    for (slot, place, byte, named) in [
        // the head: its kind, its second byte, how many bytes are here, its count, a whole length that is too short for
        // this tier and one that is too long, its next slot none and above the end
        (1, 0, 3, true),
        (1, 1, 1, true),
        (1, 2, 205, true),
        (1, 4, 0, true),
        (1, 44, 212, true),
        (1, 46, 128, true),
        (1, 48, 0, true),
        (1, 48, 10, true),
        // a part: its kind, its second byte, one that isn't full, the last one too early, its next slot above the end
        (2, 0, 2, true),
        (2, 1, 1, true),
        (2, 2, 247, true),
        (2, 4, 0, true),
        (2, 4, 10, true),
        // the last part: a byte fewer, a next slot, a byte after its own
        (9, 2, 64, true),
        (9, 4, 2, true),
        (9, 4095, 1, true),
        // a byte of the value's own
        (2, 100, 9, false),
    ] {
        let mut cells = cells_with(rt.alloc(), 0, [0; 4])?;
        let mut draft = Draft::new(rt.alloc(), &mut cells);
        let set = place_and_set(rt.alloc(), &mut draft, &bytes, (slot, place, byte));
        let mut out = Vec::new(rt.alloc());
        let found = read(rt.alloc(), &mut draft, at(15, 1), 1, &mut out);
        draft.finish();
        let damaged = ValueFault::Damaged {
            file: 33,
            cell: u64::from(slot),
        };
        assert_eq!(rt; set, Ok(()));
        assert_eq!(rt; found, if named { Err(damaged) } else { Ok(true) });
    }
    Ok(())
}

// places a value and sets a byte of one of its cells
fn place_and_set<C: Cells>(
    alloc: Global,
    d: &mut Draft<'_, C>,
    bytes: &[u8],
    change: (u8, u16, u8),
) -> Result<(), ValueFault> {
    placed(alloc, d, 1, 1, bytes)?;
    set_byte(d, change.0, change.1, change.2)
}

#[test]
fn slots_are_taken_from_the_free_list(rt: HostRuntime) -> Result<(), Fail> {
    let damaged = |file, cell| Err(ValueFault::Damaged { file, cell });
    for (free, end, slot, want) in [
        (0, [0; 4], [0; 12], Ok(at(0, 1))),
        (
            2,
            [3, 0, 0, 0],
            [4, 0, 0, 0, 3, 0, 0, 0, 0, 0, 0, 0],
            Ok(at(0, 2)),
        ),
        (
            2,
            [3, 0, 0, 0],
            [4, 0, 0, 0, 4, 0, 0, 0, 0, 0, 0, 0],
            damaged(18, 2),
        ),
        (
            2,
            [3, 0, 0, 0],
            [3, 0, 0, 0, 0, 0, 0, 0, 0, 0, 0, 0],
            damaged(18, 2),
        ),
        (4, [3, 0, 0, 0], [0; 12], damaged(9, 0)),
        (0, [254, 255, 255, 255], [0; 12], Ok(at(0, u32::MAX))),
        (0, [255; 4], [0; 12], Err(ValueFault::TierFull { tier: 0 })),
    ] {
        let mut cells = cells_with(rt.alloc(), free, end)?;
        set_slot(&mut cells, 2, slot)?;
        let mut draft = Draft::new(rt.alloc(), &mut cells);
        let first = placed(rt.alloc(), &mut draft, 1, 1, &[5]);
        draft.finish();
        assert_eq!(rt; first, want);
    }
    Ok(())
}

#[test]
fn values_are_replaced_in_their_tier(rt: HostRuntime) -> Result<(), Fail> {
    let mut cells = cells_with(rt.alloc(), 0, [0; 4])?;
    let mut draft = Draft::new(rt.alloc(), &mut cells);
    let first = placed(rt.alloc(), &mut draft, 1, 6, &[5]);
    let mut out = Vec::new(rt.alloc());
    let short = replaced(rt.alloc(), &mut draft, at(0, 1), &[9; 20]);
    let long = replaced(rt.alloc(), &mut draft, at(0, 1), &[8; 21]);
    let read = read_back(rt.alloc(), &mut draft, at(0, 1), 1, &mut out);
    draft.finish();
    assert_eq!(rt; first, Ok(at(0, 1)));
    assert_eq!(rt; (short, long), (Ok(true), Ok(false)));
    assert_eq!(rt; read, Ok((true, Some(6))));
    assert_eq!(rt; out.as_slice(), [9; 20].as_slice());
    Ok(())
}

#[test]
fn the_disk_fails(rt: HostRuntime) -> Result<(), Fail> {
    for call in 0..2u64 {
        let mut cells = cells_with(rt.alloc(), 0, [1, 0, 0, 0])?;
        set_slot(&mut cells, 1, [1, 0, 0, 0, 1, 0, 0, 0, 0, 0, 0, 0])?;
        cells.fail_at(call)?;
        let read = counted(rt.alloc(), &mut cells, at(0, 1));
        assert_eq!(rt; (read, cells.faults()), (Err(ValueFault::Disk), 1));
    }
    Ok(())
}

#[test]
fn parts_are_freed_in_their_order(rt: HostRuntime) -> Result<(), Fail> {
    let mut cells = cells_with(rt.alloc(), 0, [0; 4])?;
    let mut draft = Draft::new(rt.alloc(), &mut cells);
    let bytes = some_bytes(rt.alloc(), 32725)?;
    let first = placed(rt.alloc(), &mut draft, 1, 1, &bytes);
    let left = dropped(rt.alloc(), &mut draft, at(15, 1));
    // the last part was freed last, and is taken first: head 9, then the parts 8 to 1
    let second = placed(rt.alloc(), &mut draft, 2, 1, &bytes);
    let mut out = Vec::new(rt.alloc());
    let read = read_back(rt.alloc(), &mut draft, at(15, 9), 2, &mut out);
    let mut cell = [0; 4096];
    let name = CellName { file: 33, index: 1 };
    let last = draft.read(name, &mut cell);
    let there = (cell[0], cell[2], cell[4]);
    // a part that names itself as the next one ends in an answer
    cell = [0; 4096];
    cell[0] = 3;
    cell[2..4].copy_from_slice(&4088u16.to_le_bytes());
    cell[4] = 8;
    let ring = draft.put(CellName { file: 33, index: 8 }, &cell);
    let round = read_back(rt.alloc(), &mut draft, at(15, 9), 2, &mut out);
    draft.finish();
    assert_eq!(rt;
        (first, left, second),
        (Ok(at(15, 1)), Ok(0), Ok(at(15, 9)))
    );
    assert_eq!(rt; read, Ok((true, Some(1))));
    assert_eq!(rt; (last, ring, there), (Ok(()), Ok(()), (3, 65, 0)));
    assert_eq!(rt; round, Err(ValueFault::Damaged { file: 33, cell: 8 }));
    Ok(())
}
