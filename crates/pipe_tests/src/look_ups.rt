ghost use Rattle.std.specs.Prelude.{◌≤◌, All, IfOk, length};
ghost use Rattle.sdb_base.specs.Keeping.{HasShortKey};

use crate::databases::{byte_of, carry, commit, created, node_key, opened};
use pdb_memdisk::MemDisk;
use pdb_pipe::Database;
use sdb_base::{Bytes, Keeper, Op, Ops, OutOfMemory};
use std::alloc::Global;
use std::test::*;

// What an operation is to do.
#[derive(Clone, Copy)]
enum Step {
    // a reference to the node of this key, whose one byte is twice it
    Add(u8),
    Drop(u8),
    // these two bytes: a plain key and its value
    Put(u8, u8),
    Erase(u8),
}

// A commit of these operations.
fn commit_of(alloc: Global, steps: &[Step]) -> Result<Ops, OutOfMemory>
    ensures { IfOk result (λ ops. All HasShortKey ops) }
{
    let mut ops = Ops::new(alloc);
    for step in steps {
        ops.push(op_of(alloc, *step)?)?;
    }
    Ok(ops)
}

fn op_of(alloc: Global, step: Step) -> Result<Op, OutOfMemory>
    ensures { IfOk result HasShortKey }
{
    match step {
        Step::Add(key) => Ok(Op::AddRef {
            key: node_key(key, 0),
            bytes: Bytes::from_slice(alloc, &[key.wrapping_mul(2)])?,
        }),
        Step::Drop(key) => Ok(Op::DropRef {
            key: node_key(key, 0),
        }),
        Step::Put(key, value) => Ok(Op::Put {
            key: Bytes::from_slice(alloc, &[key])?,
            bytes: Bytes::from_slice(alloc, &[value])?,
        }),
        Step::Erase(key) => Ok(Op::Erase {
            key: Bytes::from_slice(alloc, &[key])?,
        }),
    }
}

// Gives a database a commit of these operations.
fn commit_steps(
    alloc: Global,
    database: &mut Database<MemDisk>,
    steps: &[Step],
) -> Result<(), Fail> {
    let ops = commit_of(alloc, steps)?;
    let _ = commit(database, ops)?;
    Ok(())
}

// The byte under the node of a key, and under a plain key, 0 for none.
fn byte_under(database: &mut Database<MemDisk>, plain: bool, key: u8) -> Result<u8, Fail> {
    let found = if plain {
        database.meta(&[key])
    } else {
        database.node(&node_key(key, 0))
    };
    Ok(byte_of(found)?.unwrap_or(0))
}

// What is under nodes 1 and 2, and under plain keys 1 to 3.
fn found(database: &mut Database<MemDisk>) -> Result<[u8; 5], Fail> {
    Ok([
        byte_under(database, false, 1)?,
        byte_under(database, false, 2)?,
        byte_under(database, true, 1)?,
        byte_under(database, true, 2)?,
        byte_under(database, true, 3)?,
    ])
}

// A commit that adds a node and puts three plain keys, and one that adds the node again, erases two keys and changes the third.
const FIRST: [Step; 4] = [
    Step::Add(1),
    Step::Put(1, 7),
    Step::Put(2, 8),
    Step::Put(3, 9),
];

const SECOND: [Step; 4] = [
    Step::Add(1),
    Step::Erase(2),
    Step::Erase(3),
    Step::Put(1, 10),
];

// A commit that adds another node, drops a reference of two to the first one, and puts again a key that was erased.
const THIRD: [Step; 3] = [Step::Add(2), Step::Drop(1), Step::Put(3, 11)];

// A database that carried the first two commits through so many stages, with the third one in the queue.
fn with_three(alloc: Global, stages: u8) -> Result<Database<MemDisk>, Fail> {
    let mut database = created(alloc, MemDisk::new(alloc))?;
    commit_steps(alloc, &mut database, &FIRST)?;
    commit_steps(alloc, &mut database, &SECOND)?;
    carry(&mut database, stages)?;
    commit_steps(alloc, &mut database, &THIRD)?;
    Ok(database)
}

// Whichever stage has come, what is found is what the commits leave.
#[test]
fn the_same_is_found_in_queue_log_and_tables(rt: HostRuntime) -> Result<(), Fail> {
    for stages in 0..5u8 {
        let mut database = with_three(rt.alloc(), stages)?;
        assert_eq!(rt; found(&mut database)?, [2, 4, 10, 0, 11]);
        carry(&mut database, stages)?;
        assert_eq!(rt; found(&mut database)?, [2, 4, 10, 0, 11]);
    }
    Ok(())
}

// A node whose last reference went isn't found in the tables; while its commit waits in the queue it may be.
#[test]
fn a_node_goes_with_its_last_reference(rt: HostRuntime) -> Result<(), Fail> {
    let mut database = created(rt.alloc(), MemDisk::new(rt.alloc()))?;
    let twice = [Step::Add(1), Step::Add(1), Step::Put(1, 5)];
    commit_steps(rt.alloc(), &mut database, &twice)?;
    for bytes in [[2u8, 0, 5, 0, 0], [0, 0, 5, 0, 0]] {
        commit_steps(rt.alloc(), &mut database, &[Step::Drop(1)])?;
        carry(&mut database, 4)?;
        assert_eq!(rt; found(&mut database)?, bytes);
    }
    Ok(())
}

// A disk on which a commit came through so many stages, and one more was in the queue.
fn left(alloc: Global, stages: u8) -> Result<MemDisk, Fail> {
    let mut database = created(alloc, MemDisk::new(alloc))?;
    commit_steps(alloc, &mut database, &[Step::Add(1), Step::Put(1, 7)])?;
    carry(&mut database, stages)?;
    commit_steps(alloc, &mut database, &[Step::Add(2)])?;
    Ok(database.into_disk())
}

// What is logged is there when the disk is opened again; what waits in the queue is not, and can be given once more.
#[test]
fn logged_commits_are_found_again(rt: HostRuntime) -> Result<(), Fail> {
    for stages in 0..5u8 {
        let mut database = opened(rt.alloc(), left(rt.alloc(), stages)?)?;
        let held = if stages == 0 { [0; 5] } else { [2, 0, 7, 0, 0] };
        assert_eq!(rt; found(&mut database)?, held);
        commit_steps(rt.alloc(), &mut database, &[Step::Add(2)])?;
        carry(&mut database, 1)?;
        let logged = if stages == 0 { 1 } else { 2 };
        assert_eq!(rt; database.numbers().logged, logged);
        assert_eq!(rt; byte_under(&mut database, false, 2)?, 4);
    }
    Ok(())
}
