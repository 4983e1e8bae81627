ghost use Rattle.std.specs.Prelude.{◌≤◌, All, IfOk, length};
ghost use Rattle.sdb_base.specs.Keeping.{HasShortKey};

use crate::databases::{Answer, Stage, as_said, byte_of, commit, created, node_key, nodes, opened};
use pdb_disk::Disk;
use pdb_memdisk::MemDisk;
use pdb_pipe::Database;
use sdb_base::{Bytes, Grown, KeepFault, Keeper, Logged, Op, Ops, OutOfMemory, StageAnswer};
use std::alloc::{AllocError, Global};
use std::test::*;

// A commit that puts so many zeros under the plain key 01.
fn zeros(alloc: Global, len: usize) -> Result<Ops, OutOfMemory>
    ensures { IfOk result (λ ops. All HasShortKey ops) }
{
    let Ok(bytes) = vec![in alloc; 0u8; len] else {
        return Err(AllocError);
    };
    let mut ops = Ops::new(alloc);
    ops.push(Op::Put {
        key: Bytes::from_slice(alloc, &[1])?,
        bytes: Bytes::from_vec(bytes),
    })?;
    Ok(ops)
}

// Creating makes 91 calls of the disk; logging the first node reads its chunk, and then writes the record.
const CREATED: u64 = 91;

// A database with a commit of a node, on a disk of which the call of this number fails.
fn failing(alloc: Global, call: u64) -> Result<Database<MemDisk>, Fail> {
    let mut disk = MemDisk::new(alloc);
    disk.fail_at(call)?;
    let mut database = created(alloc, disk)?;
    commit(&mut database, nodes(alloc, 1, 1)?)?;
    Ok(database)
}

// What stages answer after the call of this number failed.
fn stopped(call: u64) -> [(Stage, Answer); 5] {
    let stopped = Err(KeepFault::Stopped { call });
    [
        (Stage::Log, stopped),
        (Stage::Flush, stopped),
        (Stage::Enact, stopped),
        (Stage::Clean, stopped),
        (Stage::Grow, stopped),
    ]
}

// After a write that failed each change is refused with that call's number, and look-ups go on.
#[test]
fn a_failed_write_stops_a_database(rt: HostRuntime) -> Result<(), Fail> {
    let mut database = failing(rt.alloc(), CREATED + 1)?;
    let call = database.calls().saturating_add(1);
    assert_eq!(rt;
        as_said(&mut database, &[(Stage::Log, Err(KeepFault::Disk))]),
        1
    );
    assert_eq!(rt; database.calls(), call);
    assert_eq!(rt; as_said(&mut database, &stopped(call)), 5);
    assert_eq!(rt;
        database.commit(Ops::new(rt.alloc())),
        Err(KeepFault::Stopped { call })
    );
    assert_eq!(rt; byte_of(database.node(&node_key(1, 0)))?, Some(0));
    assert_eq!(rt; (database.faults(), database.numbers().accepted), (1, 1));
    Ok(())
}

// What stages answer where the first read of a chunk fails.
const TRIED_AGAIN: [(Stage, Answer); 3] = [
    (Stage::Log, Err(KeepFault::Disk)),
    (Stage::Log, Ok(StageAnswer::Logged(Logged::Commit(1)))),
    (Stage::Grow, Ok(StageAnswer::Grown(Grown::Idle))),
];

// A read that failed stops nothing.
#[test]
fn a_failed_read_may_be_tried_again(rt: HostRuntime) -> Result<(), Fail> {
    let mut database = failing(rt.alloc(), CREATED)?;
    assert_eq!(rt; as_said(&mut database, &TRIED_AGAIN), 3);
    Ok(())
}

#[test]
fn a_value_has_at_most_8388608_bytes(rt: HostRuntime) -> Result<(), Fail> {
    let mut database = created(rt.alloc(), MemDisk::new(rt.alloc()))?;
    let too_long = KeepFault::ValueTooLong { len: 8_388_609 };
    assert_eq!(rt;
        database.commit(zeros(rt.alloc(), 8_388_609)?),
        Err(too_long)
    );
    assert_eq!(rt; database.commit(zeros(rt.alloc(), 8_388_608)?), Ok(1));
    Ok(())
}

// A database over the disk of a new one, whose file 9 or 16 has these bytes at a place, with a commit of the node of key 0.
fn over(alloc: Global, file: u16, at: u16, bytes: &[u8; 4]) -> Result<Database<MemDisk>, Fail> {
    let mut disk = created(alloc, MemDisk::new(alloc))?.into_disk();
    if disk.write_at(file, u64::from(at), bytes).is_err() {
        return Err(Fail::new("not written"));
    }
    let mut database = opened(alloc, disk)?;
    commit(&mut database, nodes(alloc, 0, 1)?)?;
    Ok(database)
}

// The head cell of column 0 as a new one, but with 2^32 - 1 as the end of tier 0: no slot is left there.
#[test]
fn a_tier_without_slots_is_full(rt: HostRuntime) -> Result<(), Fail> {
    let mut database = over(rt.alloc(), 9, 8, &[255; 4])?;
    let full = KeepFault::TierFull { column: 0, tier: 0 };
    assert_eq!(rt; as_said(&mut database, &[(Stage::Log, Err(full))]), 1);
    assert_eq!(rt; database.numbers().logged, 0);
    Ok(())
}

// An entry that names a slot above the end of its tier: the chunk is damaged.
#[test]
fn a_damaged_cell_is_named(rt: HostRuntime) -> Result<(), Fail> {
    let mut database = over(rt.alloc(), 16, 0, &[1, 0, 0, 0])?;
    let damaged = KeepFault::Damaged { file: 16, cell: 0 };
    assert_eq!(rt; as_said(&mut database, &[(Stage::Log, Err(damaged))]), 1);
    match database.node(&node_key(0, 1)) {
        Ok(_) => Err(Fail::new("looked up")),
        Err(fault) => {
            assert_eq!(rt; fault, damaged);
            Ok(())
        }
    }
}
