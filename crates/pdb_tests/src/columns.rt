ghost use Rattle.std.specs.Prelude.{◌≡◌, ◌≤◌, ◌<◌, ◌^◌, All, IfOk, Some, length};
ghost use Rattle.pdb_cells.specs.Puts.{IsWholeCell};
ghost use Rattle.pdb_cells.specs.Sizes.{size_of};
ghost use Rattle.pdb_column.specs.Answers.{IsStorable};

use pdb_cells::{CellName, Cells, Draft, HEAD_FILE, MapCells, OutOfMemory, Puts};
use pdb_column::{ColumnFault, PlanFault, get, plan};
use sdb_base::{Bytes, NodeHash, Op, Ops};
use sdb_blake2::hash256;
use std::alloc::Global;
use std::test::*;

// what to plan: the keys are told apart by a byte, the bytes by their number
#[derive(Clone, Copy)]
enum Step {
    Add(u8),
    Drop(u8),
    Put(u8, u16),
    Erase(u8),
}

// a node's key; all of them agree in their first 24 bits
fn node_key(n: u8) -> [u8; 32] {
    let mut key = [n; 32];
    key[..3].copy_from_slice(&[7; 3]);
    key
}

fn some_bytes(alloc: Global, len: u16) -> Result<Bytes, OutOfMemory>
    ensures { IfOk result (λ b. length b ≡ len) }
{
    let mut bytes = Vec::with_capacity(alloc, usize::from(len))?;
    bytes.resize(usize::from(len), 9)?;
    Ok(Bytes::from_vec(bytes))
}

fn op_of(alloc: Global, step: Step) -> Result<Op, OutOfMemory>
    ensures { IfOk result IsStorable }
{
    Ok(match step {
        Step::Add(n) => Op::AddRef {
            key: NodeHash(node_key(n)),
            bytes: some_bytes(alloc, 5)?,
        },
        Step::Drop(n) => Op::DropRef {
            key: NodeHash(node_key(n)),
        },
        Step::Put(n, len) => Op::Put {
            key: Bytes::from_slice(alloc, &[n])?,
            bytes: some_bytes(alloc, len)?,
        },
        Step::Erase(n) => Op::Erase {
            key: Bytes::from_slice(alloc, &[n])?,
        },
    })
}

fn ops_of(alloc: Global, step: Step) -> Result<Ops, OutOfMemory>
    ensures { IfOk result (λ ops. All IsStorable ops) }
{
    let op = op_of(alloc, step)?;
    let mut ops = Ops::new(alloc);
    ops.push(op)?;
    Ok(ops)
}

fn run(alloc: Global, d: &mut Draft<'_, MapCells>, step: Step) -> Result<(), PlanFault> {
    match ops_of(alloc, step) {
        Ok(ops) => plan(alloc, d, &ops),
        Err(_) => Err(PlanFault::OutOfMemory),
    }
}

// plans so many nodes, each once
fn fill(alloc: Global, d: &mut Draft<'_, MapCells>, count: u8) -> Result<(), PlanFault> {
    for n in 0..count {
        run(alloc, d, Step::Add(n))?;
    }
    Ok(())
}

// how many bytes are found under a node's key, or a plain one
fn found(
    alloc: Global,
    d: &mut Draft<'_, MapCells>,
    column: u8,
    n: u8,
) -> Result<Option<usize>, ColumnFault>
    requires { column ≤ 1 }
{
    let mut out = Vec::new(alloc);
    let key = if column == 0 {
        node_key(n)
    } else {
        hash256(&[n])
    };
    let there = get(alloc, d, column, &key, &mut out)?;
    Ok(if there { Some(out.len()) } else { None })
}

// a head cell with these bits, and the end of its first tier
fn head(front: [u8; 4], end: [u8; 4]) -> [u8; 256] {
    let mut cell = [0; 256];
    cell[..4].copy_from_slice(&front);
    cell[8..12].copy_from_slice(&end);
    cell
}

fn set_head(
    cells: &mut MapCells,
    column: u8,
    front: [u8; 4],
    end: [u8; 4],
) -> Result<(), OutOfMemory> {
    let name = CellName {
        file: HEAD_FILE,
        index: u64::from(column),
    };
    cells.set(name, &head(front, end))
}

// both columns, without values
fn columns(alloc: Global) -> Result<MapCells, OutOfMemory> {
    let mut cells = MapCells::new(alloc);
    set_head(&mut cells, 0, [1, 0, 0, 0], [0; 4])?;
    set_head(&mut cells, 1, [1, 0, 0, 0], [0; 4])?;
    Ok(cells)
}

// sets the only chunk of column 0, each place to this entry
fn set_chunk(cells: &mut MapCells, entry: [u8; 8]) -> Result<(), OutOfMemory> {
    let mut cell = [0; 512];
    for i in 0..64usize {
        cell[8 * i..8 * i + 8].copy_from_slice(&entry);
    }
    cells.set(CellName { file: 16, index: 0 }, &cell)
}

const FULL: Result<(), PlanFault> = Err(PlanFault::ChunkFull {
    column: 0,
    bits: 0,
    chunk: 0,
});

#[test]
fn a_chunk_takes_64_nodes(rt: HostRuntime) -> Result<(), Fail> {
    let mut cells = columns(rt.alloc())?;
    let mut draft = Draft::new(rt.alloc(), &mut cells);
    let filled = fill(rt.alloc(), &mut draft, 64);
    let one_more = run(rt.alloc(), &mut draft, Step::Add(64));
    draft.finish();
    assert_eq!(rt; (filled, one_more), (Ok(()), FULL));
    Ok(())
}

#[test]
fn a_dropped_node_makes_room(rt: HostRuntime) -> Result<(), Fail> {
    let mut cells = columns(rt.alloc())?;
    let mut draft = Draft::new(rt.alloc(), &mut cells);
    let filled = fill(rt.alloc(), &mut draft, 64);
    let dropped = run(rt.alloc(), &mut draft, Step::Drop(0));
    let one_more = run(rt.alloc(), &mut draft, Step::Add(64));
    let first = found(rt.alloc(), &mut draft, 0, 0);
    let last = found(rt.alloc(), &mut draft, 0, 64);
    // its place and its slot are used again
    let mut chunk = [0; 512];
    let read = draft.read(CellName { file: 16, index: 0 }, &mut chunk);
    draft.finish();
    assert_eq!(rt; (filled, dropped, one_more), (Ok(()), Ok(()), Ok(())));
    assert_eq!(rt; (first, last), (Ok(None), Ok(Some(5))));
    assert_eq!(rt; read, Ok(()));
    assert_eq!(rt; &chunk[..8], [1, 0, 0, 0, 0, 7, 7, 7].as_slice());
    Ok(())
}

#[test]
fn the_last_reference_removes_a_node(rt: HostRuntime) -> Result<(), Fail> {
    let mut cells = columns(rt.alloc())?;
    let mut draft = Draft::new(rt.alloc(), &mut cells);
    for (step, want) in [
        (Step::Add(1), Some(5)),
        (Step::Add(1), Some(5)),
        (Step::Drop(2), Some(5)),
        (Step::Drop(1), Some(5)),
        (Step::Drop(1), None),
        (Step::Drop(1), None),
    ] {
        let done = run(rt.alloc(), &mut draft, step);
        let there = found(rt.alloc(), &mut draft, 0, 1);
        assert_eq!(rt; (done, there), (Ok(()), Ok(want)));
    }
    draft.finish();
    Ok(())
}

#[test]
fn plain_keys_have_their_last_bytes(rt: HostRuntime) -> Result<(), Fail> {
    let mut cells = columns(rt.alloc())?;
    let mut draft = Draft::new(rt.alloc(), &mut cells);
    for (step, want) in [
        (Step::Erase(1), None),
        (Step::Put(1, 5), Some(5)),
        (Step::Put(2, 6), Some(5)),
        (Step::Put(1, 20), Some(20)),
        (Step::Put(1, 21), Some(21)),
        (Step::Put(1, 40000), Some(40000)),
        (Step::Put(1, 40001), Some(40001)),
        (Step::Erase(1), None),
    ] {
        let done = run(rt.alloc(), &mut draft, step);
        let there = found(rt.alloc(), &mut draft, 1, 1);
        assert_eq!(rt; (done, there), (Ok(()), Ok(want)));
    }
    draft.finish();
    Ok(())
}

#[test]
fn damaged_cells_are_named(rt: HostRuntime) -> Result<(), Fail> {
    let damaged = |file, cell| Err(ColumnFault::Damaged { file, cell });
    for (front, entry, want) in [
        // no head cell; other bits than the base; a growing index
        ([0, 0, 0, 0], [0; 8], damaged(9, 0)),
        ([1, 0, 1, 0], [0; 8], damaged(9, 0)),
        ([1, 0, 1, 1], [0; 8], damaged(9, 0)),
        // a tier, a slot 0, a slot past the end of the tier; the entry of another key
        ([1, 0, 0, 0], [1, 0, 0, 0, 16, 9, 9, 9], damaged(16, 0)),
        ([1, 0, 0, 0], [0, 0, 0, 0, 0, 9, 9, 9], damaged(16, 0)),
        ([1, 0, 0, 0], [2, 0, 0, 0, 0, 9, 9, 9], damaged(16, 0)),
        ([1, 0, 0, 0], [1, 0, 0, 0, 0, 9, 9, 9], Ok(false)),
        // the key's entry, whose slot holds nothing
        ([1, 0, 0, 0], [1, 0, 0, 0, 0, 7, 7, 7], damaged(18, 1)),
    ] {
        let mut cells = MapCells::new(rt.alloc());
        set_head(&mut cells, 0, front, [1, 0, 0, 0])?;
        set_chunk(&mut cells, entry)?;
        let mut out = Vec::new(rt.alloc());
        let looked = get(rt.alloc(), &mut cells, 0, &node_key(1), &mut out);
        assert_eq!(rt; looked, want);
    }
    Ok(())
}

#[test]
fn the_disk_fails(rt: HostRuntime) -> Result<(), Fail> {
    // the head cell, the chunk, and for the entry the head cell and the slot
    for call in 0..4u64 {
        let mut cells = MapCells::new(rt.alloc());
        set_head(&mut cells, 0, [1, 0, 0, 0], [1, 0, 0, 0])?;
        set_chunk(&mut cells, [1, 0, 0, 0, 0, 7, 7, 7])?;
        cells.fail_at(call)?;
        let mut out = Vec::new(rt.alloc());
        let looked = get(rt.alloc(), &mut cells, 0, &node_key(1), &mut out);
        assert_eq!(rt; (looked, cells.faults()), (Err(ColumnFault::Disk), 1));
    }
    Ok(())
}

// cells in which so many steps, each this one, have been planned
#[derive(Clone, Copy)]
struct Made(u8, Step);

// sets the cells that were put
fn set_all(cells: &mut MapCells, puts: &Puts) -> Result<(), OutOfMemory>
    requires { All IsWholeCell puts.now }
{
    for put in puts.as_slice() {
        cells.set(put.name, put.bytes.as_slice())?;
    }
    Ok(())
}

// plans a step so many times
fn repeat(alloc: Global, d: &mut Draft<'_, MapCells>, made: Made) -> Result<(), PlanFault> {
    for _ in 0..made.0 {
        run(alloc, d, made.1)?;
    }
    Ok(())
}

fn make(alloc: Global, made: Made) -> Result<MapCells, OutOfMemory> {
    let mut first = columns(alloc)?;
    let mut draft = Draft::new(alloc, &mut first);
    let done = repeat(alloc, &mut draft, made);
    let puts = draft.finish();
    let mut cells = columns(alloc)?;
    if done.is_ok() {
        set_all(&mut cells, &puts)?;
    }
    Ok(cells)
}

// what a step answers where a call of the disk fails, and how many faults there were
fn run_failing(
    alloc: Global,
    made: Made,
    step: Step,
    call: u64,
) -> Result<(Result<(), PlanFault>, u64), OutOfMemory> {
    let mut cells = make(alloc, made)?;
    cells.fail_at(call)?;
    let mut draft = Draft::new(alloc, &mut cells);
    let done = run(alloc, &mut draft, step);
    draft.finish();
    Ok((done, cells.faults()))
}

// How many calls of the disk a step makes: a failure of any of them is answered, with one fault, and that of a later one
// isn't met. None where that isn't so.
fn calls_of(alloc: Global, made: Made, step: Step) -> Result<Option<u64>, OutOfMemory> {
    for call in 0..16u64 {
        match run_failing(alloc, made, step, call)? {
            (Err(PlanFault::Disk), 1) => {}
            (Ok(()), 0) => return Ok(Some(call)),
            _ => return Ok(None),
        }
    }
    Ok(None)
}

#[test]
fn a_plan_stops_where_the_disk_fails(rt: HostRuntime) -> Result<(), Fail> {
    let node = Step::Add(1);
    let plain = Step::Put(1, 5);
    for (made, step, calls) in [
        // the head cell and the chunk, and the head cell where a slot is taken
        (Made(0, node), node, 3u64),
        (Made(0, plain), plain, 3),
        // the head cell and the chunk; the head cell and the slot of the entry, and both once more for the value
        (Made(1, node), node, 6),
        (Made(2, node), Step::Drop(1), 6),
        (Made(1, plain), Step::Put(1, 20), 6),
        // beside those the head cell where the slot is freed, which the draft has where one is taken after that
        (Made(1, node), Step::Drop(1), 7),
        (Made(1, plain), Step::Put(1, 21), 7),
        (Made(1, plain), Step::Erase(1), 7),
    ] {
        let found = calls_of(rt.alloc(), made, step);
        assert_eq!(rt; found, Ok(Some(calls)));
    }
    Ok(())
}

#[test]
fn a_full_tier_comes_before_a_full_chunk(rt: HostRuntime) -> Result<(), Fail> {
    let full = Err(PlanFault::TierFull { column: 0, tier: 0 });
    for (end, want) in [([255; 4], full), ([254, 255, 255, 255], FULL)] {
        let mut cells = MapCells::new(rt.alloc());
        set_head(&mut cells, 0, [1, 0, 0, 0], end)?;
        set_chunk(&mut cells, [1, 0, 0, 0, 0, 9, 9, 9])?;
        let mut draft = Draft::new(rt.alloc(), &mut cells);
        let added = run(rt.alloc(), &mut draft, Step::Add(1));
        draft.finish();
        assert_eq!(rt; added, want);
    }
    Ok(())
}
