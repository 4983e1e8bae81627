use crate::databases::{Answer, Stage, as_said, byte_of, commit, created, node_key, nodes};
use pdb_memdisk::MemDisk;
use sdb_base::{Grown, KeepFault, Keeper, Logged, Numbers, Ops, StageAnswer};
use std::test::*;

// What stages answer where there is nothing to do.
const IDLE: [(Stage, Answer); 6] = [
    (Stage::Log, Ok(StageAnswer::Logged(Logged::Idle))),
    (Stage::Enact, Ok(StageAnswer::Enacted(None))),
    (Stage::Clean, Ok(StageAnswer::Cleaned(0))),
    (Stage::Grow, Ok(StageAnswer::Grown(Grown::Idle))),
    (Stage::Flush, Ok(StageAnswer::Flushed(0))),
    (Stage::Flush, Ok(StageAnswer::Flushed(0))),
];

#[test]
fn stages_of_nothing_are_idle(rt: HostRuntime) -> Result<(), Fail> {
    let mut database = created(rt.alloc(), MemDisk::new(rt.alloc()))?;
    assert_eq!(rt; as_said(&mut database, &IDLE), 6);
    Ok(())
}

// What stages answer after three commits: the third is logged after the flush, so that it isn't enacted.
const THREE: [(Stage, Answer); 11] = [
    (Stage::Log, Ok(StageAnswer::Logged(Logged::Commit(1)))),
    (Stage::Log, Ok(StageAnswer::Logged(Logged::Commit(2)))),
    (Stage::Enact, Ok(StageAnswer::Enacted(None))),
    (Stage::Flush, Ok(StageAnswer::Flushed(2))),
    (Stage::Log, Ok(StageAnswer::Logged(Logged::Commit(3)))),
    (Stage::Log, Ok(StageAnswer::Logged(Logged::Idle))),
    (Stage::Enact, Ok(StageAnswer::Enacted(Some(1)))),
    (Stage::Clean, Ok(StageAnswer::Cleaned(1))),
    (Stage::Enact, Ok(StageAnswer::Enacted(Some(2)))),
    (Stage::Enact, Ok(StageAnswer::Enacted(None))),
    (Stage::Grow, Ok(StageAnswer::Grown(Grown::Idle))),
];

// What they answer then.
const THIRD: [(Stage, Answer); 4] = [
    (Stage::Flush, Ok(StageAnswer::Flushed(3))),
    (Stage::Enact, Ok(StageAnswer::Enacted(Some(3)))),
    (Stage::Clean, Ok(StageAnswer::Cleaned(3))),
    (Stage::Clean, Ok(StageAnswer::Cleaned(3))),
];

#[test]
fn commits_go_through_the_stages(rt: HostRuntime) -> Result<(), Fail> {
    let mut database = created(rt.alloc(), MemDisk::new(rt.alloc()))?;
    let first = commit(&mut database, nodes(rt.alloc(), 1, 1)?)?;
    let second = commit(&mut database, Ops::new(rt.alloc()))?;
    let third = commit(&mut database, nodes(rt.alloc(), 2, 1)?)?;
    assert_eq!(rt; [first, second, third], [1, 2, 3]);
    assert_eq!(rt; as_said(&mut database, &THREE), 11);
    let numbers = Numbers {
        accepted: 3,
        logged: 3,
        flushed: 2,
        enacted: 2,
        cleaned: 1,
    };
    assert_eq!(rt; database.numbers(), numbers);
    assert_eq!(rt; as_said(&mut database, &THIRD), 4);
    Ok(())
}

// The index of base 0 is one chunk, which has room for 64 entries.
const FULL: Answer = Err(KeepFault::IndexFull {
    column: 0,
    bits: 0,
    chunk: 0,
});

#[test]
fn a_commit_without_room_stays_in_the_queue(rt: HostRuntime) -> Result<(), Fail> {
    let mut database = created(rt.alloc(), MemDisk::new(rt.alloc()))?;
    commit(&mut database, nodes(rt.alloc(), 0, 65)?)?;
    assert_eq!(rt;
        as_said(&mut database, &[(Stage::Log, FULL), (Stage::Log, FULL)]),
        2
    );
    assert_eq!(rt; database.numbers().logged, 0);
    assert_eq!(rt; byte_of(database.node(&node_key(0, 64)))?, Some(64));
    Ok(())
}

// What logging answers of commits of 64 nodes, of the same ones, and of one more.
const CROWDED: [(Stage, Answer); 3] = [
    (Stage::Log, Ok(StageAnswer::Logged(Logged::Commit(1)))),
    (Stage::Log, Ok(StageAnswer::Logged(Logged::Commit(2)))),
    (Stage::Log, FULL),
];

#[test]
fn a_commit_of_64_keys_has_room(rt: HostRuntime) -> Result<(), Fail> {
    let mut database = created(rt.alloc(), MemDisk::new(rt.alloc()))?;
    for (first, count) in [(0u8, 64u8), (0, 64), (1, 1)] {
        commit(&mut database, nodes(rt.alloc(), first, count)?)?;
    }
    assert_eq!(rt; as_said(&mut database, &CROWDED), 3);
    Ok(())
}
