ghost use Rattle.std.specs.Prelude.{◌≤◌, All, IfOk};
ghost use Rattle.sdb_base.specs.Keeping.{HasShortKey};

use pdb_memdisk::MemDisk;
use pdb_pipe::Database;
use sdb_base::{Bytes, KeepFault, Keeper, NodeHash, Op, Ops, OutOfMemory, StageAnswer, Stages};
use std::alloc::Global;
use std::test::*;

/// A database without commits, over a disk in memory.
pub(crate) fn created(alloc: Global, disk: MemDisk) -> Result<Database<MemDisk>, Fail> {
    match Database::create(alloc, disk, 0) {
        Ok(database) => Ok(database),
        Err(_) => Err(Fail::new("not created")),
    }
}

/// The database on a disk.
pub(crate) fn opened(alloc: Global, disk: MemDisk) -> Result<Database<MemDisk>, Fail> {
    match Database::open(alloc, disk) {
        Ok(database) => Ok(database),
        Err(_) => Err(Fail::new("not opened")),
    }
}

/// The key of a node: its first and its last byte, zeros between.
pub(crate) fn node_key(first: u8, last: u8) -> NodeHash {
    let mut key = [0; 32];
    key[0] = first;
    key[31] = last;
    NodeHash(key)
}

/// A commit that adds a reference to so many nodes, each of one byte, whose keys have this first byte and their place as the last.
pub(crate) fn nodes(alloc: Global, first: u8, count: u8) -> Result<Ops, OutOfMemory>
    ensures { IfOk result (λ ops. All HasShortKey ops) }
{
    let mut ops = Ops::new(alloc);
    for place in 0..count {
        ops.push(Op::AddRef {
            key: node_key(first, place),
            bytes: Bytes::from_slice(alloc, &[place])?,
        })?;
    }
    Ok(ops)
}

/// Gives a commit to a database, and its number.
pub(crate) fn commit(database: &mut Database<MemDisk>, ops: Ops) -> Result<u64, Fail>
    requires { All HasShortKey ops }
{
    match database.commit(ops) {
        Ok(number) => Ok(number),
        Err(_) => Err(Fail::new("not accepted")),
    }
}

/// The one byte that was found, if it is one.
pub(crate) fn byte_of(found: Result<Option<Bytes>, KeepFault>) -> Result<Option<u8>, Fail> {
    let Ok(found) = found else {
        return Err(Fail::new("no look-up"));
    };
    match found {
        Some(bytes) => match bytes.as_slice() {
            [byte] => Ok(Some(*byte)),
            _ => Err(Fail::new("not one byte")),
        },
        None => Ok(None),
    }
}

/// A stage of the pipeline.
#[derive(Clone, Copy)]
pub(crate) enum Stage {
    Log,
    Flush,
    Enact,
    Clean,
    Grow,
}

/// What a stage answers, or why it doesn't.
pub(crate) type Answer = Result<StageAnswer, KeepFault>;

/// Calls a stage.
pub(crate) fn run(database: &mut Database<MemDisk>, stage: Stage) -> Answer {
    Ok(match stage {
        Stage::Log => StageAnswer::Logged(database.log()?),
        Stage::Flush => StageAnswer::Flushed(database.flush()?),
        Stage::Enact => StageAnswer::Enacted(database.enact()?),
        Stage::Clean => StageAnswer::Cleaned(database.clean()?),
        Stage::Grow => StageAnswer::Grown(database.grow()?),
    })
}

/// Calls stages in this order, and gives how many answer as is said, up to the first that doesn't.
pub(crate) fn as_said(database: &mut Database<MemDisk>, said: &[(Stage, Answer)]) -> usize {
    for (at, (stage, answer)) in said.iter().enumerate() {
        if run(database, *stage) != *answer {
            return at;
        }
    }
    said.len()
}

// Each stage so often that four commits come through it.
const CARRIED: [(u8, Stage); 10] = [
    (1, Stage::Log),
    (1, Stage::Log),
    (1, Stage::Log),
    (1, Stage::Log),
    (2, Stage::Flush),
    (3, Stage::Enact),
    (3, Stage::Enact),
    (3, Stage::Enact),
    (3, Stage::Enact),
    (4, Stage::Clean),
];

/// Carries all commits, at most four, through the first so many stages: log, flush, enact, clean.
pub(crate) fn carry(database: &mut Database<MemDisk>, stages: u8) -> Result<(), Fail> {
    for (number, stage) in CARRIED {
        if number <= stages && run(database, stage).is_err() {
            return Err(Fail::new("not carried"));
        }
    }
    Ok(())
}
