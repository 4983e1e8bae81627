use pdb_overlay::{Lent, Queue};
use sdb_base::{Bytes, NodeHash, Op, Ops, OutOfMemory};
use std::alloc::Global;
use std::test::*;

// An operation on a key and with bytes of one byte each; a hash has its byte 32 times.
#[derive(Drop)]
enum Step {
    Add(u8, u8),
    Release(u8),
    Put(u8, u8),
    Erase(u8),
}

use Step::{Add, Erase, Put, Release};

// A commit of these operations, or the oldest is dropped.
#[derive(Drop)]
enum Move {
    Push(&'static [Step]),
    Pop,
}

use Move::{Pop, Push};

// What is said of a key: nothing, that it was erased, or its byte.
type Said = Option<Option<u8>>;

// What is done to a queue, and what it says then of the keys 1 and 2 of column 0, and of the keys 1 and 2 of column 1.
const LENT: [(&[Move], [Said; 4]); 14] = [
    (&[], [None, None, None, None]),
    (
        &[Push(&[Put(1, 7)]), Push(&[Put(1, 8)])],
        [None, None, Some(Some(8)), None],
    ),
    (
        &[Push(&[Put(1, 7), Put(2, 9), Put(1, 8)])],
        [None, None, Some(Some(8)), Some(Some(9))],
    ),
    (
        &[Push(&[Put(1, 7)]), Push(&[Erase(1)])],
        [None, None, Some(None), None],
    ),
    (
        &[Push(&[Erase(1)]), Push(&[Put(1, 7)])],
        [None, None, Some(Some(7)), None],
    ),
    (
        &[Push(&[Add(1, 7)]), Push(&[Release(1)])],
        [Some(Some(7)), None, None, None],
    ),
    (
        &[Push(&[Add(1, 7)]), Push(&[Add(1, 8), Release(2)])],
        [Some(Some(8)), None, None, None],
    ),
    (
        &[Push(&[Add(1, 7), Put(1, 8), Erase(2)])],
        [Some(Some(7)), None, Some(Some(8)), Some(None)],
    ),
    (
        &[Push(&[Put(1, 7)]), Push(&[Put(1, 8)]), Pop],
        [None, None, Some(Some(8)), None],
    ),
    (
        &[Push(&[Put(1, 7)]), Push(&[Put(2, 8)]), Pop],
        [None, None, None, Some(Some(8))],
    ),
    (
        &[Push(&[Add(1, 7)]), Push(&[Release(1)]), Pop],
        [None, None, None, None],
    ),
    (
        &[Push(&[Put(1, 7)]), Push(&[]), Push(&[Put(2, 8)]), Pop, Pop],
        [None, None, None, Some(Some(8))],
    ),
    (
        &[Push(&[]), Push(&[Put(1, 7)]), Pop],
        [None, None, Some(Some(7)), None],
    ),
    (
        &[Push(&[Put(1, 7)]), Pop, Push(&[Erase(2)])],
        [None, None, None, Some(None)],
    ),
];

#[test]
fn the_newest_is_lent(rt: HostRuntime) -> Result<(), Fail> {
    for (moves, want) in LENT {
        let mut queue = Queue::new(rt.alloc());
        for step in moves {
            make(rt.alloc(), &mut queue, step)?;
        }
        assert_eq!(rt; sayings(&queue), want);
    }
    Ok(())
}

#[test]
fn ten_commits_of_one_key_are_taken_in_order(rt: HostRuntime) -> Result<(), Fail> {
    let mut queue = Queue::new(rt.alloc());
    for byte in 0..10u8 {
        queue.push(ops(rt.alloc(), &[Put(1, byte)])?)?;
    }
    for byte in 0..10u8 {
        assert_eq!(rt; sayings(&queue), [None, None, Some(Some(9)), None]);
        assert_eq!(rt; oldest_byte(&queue), Some(byte));
        take(&mut queue);
    }
    assert_eq!(rt; sayings(&queue), [None; 4]);
    assert_eq!(rt; oldest_byte(&queue), None);
    Ok(())
}

#[test]
fn keys_of_other_lengths_and_columns_are_silent(rt: HostRuntime) -> Result<(), Fail> {
    let mut queue = Queue::new(rt.alloc());
    queue.push(ops(rt.alloc(), &[Add(1, 7), Put(1, 8)])?)?;
    assert!(rt; said(queue.lend(0, &[1; 31])).is_none());
    assert!(rt; said(queue.lend(1, &[1; 32])).is_none());
    assert!(rt; said(queue.lend(1, &[])).is_none());
    assert!(rt; said(queue.lend(2, &[1])).is_none());
    assert!(rt; said(queue.lend(2, &[1; 32])).is_none());
    Ok(())
}

// Makes one move.
fn make(alloc: Global, queue: &mut Queue, next: &Move) -> Result<(), OutOfMemory> {
    match next {
        Push(steps) => queue.push(ops(alloc, *steps)?)?,
        Pop => take(queue),
    }
    Ok(())
}

// Drops the oldest commit, if there is one.
fn take(queue: &mut Queue) {
    if queue.oldest().is_some() {
        queue.pop();
    }
}

// What a queue says of the keys 1 and 2 of column 0, and of those of column 1.
fn sayings(queue: &Queue) -> [Said; 4] {
    [
        said(queue.lend(0, &[1; 32])),
        said(queue.lend(0, &[2; 32])),
        said(queue.lend(1, &[1])),
        said(queue.lend(1, &[2])),
    ]
}

fn said(lent: Lent<'_>) -> Said {
    match lent {
        Lent::Bytes(bytes) => Some(bytes.first().copied()),
        Lent::Erased => Some(None),
        Lent::Silent => None,
    }
}

// The byte of the put that the oldest commit begins with.
fn oldest_byte(queue: &Queue) -> Option<u8> {
    match queue.oldest()?.as_slice().first()? {
        Op::Put { bytes, .. } => bytes.as_slice().first().copied(),
        _ => None,
    }
}

fn ops(alloc: Global, steps: &[Step]) -> Result<Ops, OutOfMemory> {
    let mut ops = Ops::new(alloc);
    for step in steps {
        ops.push(op(alloc, step)?)?;
    }
    Ok(ops)
}

fn op(alloc: Global, step: &Step) -> Result<Op, OutOfMemory> {
    Ok(match step {
        Add(key, byte) => Op::AddRef {
            key: NodeHash([*key; 32]),
            bytes: Bytes::from_slice(alloc, &[*byte])?,
        },
        Release(key) => Op::DropRef {
            key: NodeHash([*key; 32]),
        },
        Put(key, byte) => Op::Put {
            key: Bytes::from_slice(alloc, &[*key])?,
            bytes: Bytes::from_slice(alloc, &[*byte])?,
        },
        Erase(key) => Op::Erase {
            key: Bytes::from_slice(alloc, &[*key])?,
        },
    })
}
