ghost use Rattle.std.specs.Prelude.{All, IfOk};
ghost use Rattle.sdb_base.specs.Keeping.{HasShortKey};

use sdb_base::{
    Bytes, Grown, KeepFault, Keeper, KeeperCall, Logged, NodeHash, Numbers, Op, Ops, OutOfMemory,
    StageAnswer, Stages, too_long_value,
};
use sdb_mapkeeper::MapKeeper;
use std::alloc::Global;
use std::test::*;

// An operation on a key and with bytes of one byte each.
#[derive(Drop)]
enum Step {
    Add(u8, u8),
    Release(u8),
    Put(u8, u8),
    // so many bytes
    Fill(u8, u8, usize),
    Erase(u8),
}

use Step::{Add, Erase, Fill, Put, Release};

// Operations, and what columns 0 and 1 hold under the key 1 after them, in one commit or in several.
const HELD: [(&[Step], Option<u8>, Option<u8>); 13] = [
    (&[Add(1, 7)], Some(7), None),
    (&[Add(1, 7), Add(1, 8)], Some(7), None),
    (&[Add(1, 7), Add(1, 8), Release(1)], Some(7), None),
    (&[Add(1, 7), Add(1, 8), Release(1), Release(1)], None, None),
    (&[Release(1), Add(1, 7)], Some(7), None),
    (&[Add(1, 7), Release(1), Add(1, 9)], Some(9), None),
    (&[Add(2, 7), Release(1)], None, None),
    (&[Put(1, 7)], None, Some(7)),
    (&[Put(1, 7), Put(1, 8)], None, Some(8)),
    (&[Put(1, 7), Erase(1)], None, None),
    (&[Erase(1), Put(1, 7)], None, Some(7)),
    (&[Put(1, 7), Erase(2)], None, Some(7)),
    (&[Erase(1), Put(2, 7)], None, None),
];

// The answers of stages after three commits, one after the other.
const ANSWERS: [(KeeperCall, StageAnswer); 15] = [
    (KeeperCall::Log, StageAnswer::Logged(Logged::Commit(1))),
    (KeeperCall::Log, StageAnswer::Logged(Logged::Commit(2))),
    (KeeperCall::Enact, StageAnswer::Enacted(None)),
    (KeeperCall::Flush, StageAnswer::Flushed(2)),
    (KeeperCall::Log, StageAnswer::Logged(Logged::Commit(3))),
    (KeeperCall::Log, StageAnswer::Logged(Logged::Idle)),
    (KeeperCall::Enact, StageAnswer::Enacted(Some(1))),
    (KeeperCall::Clean, StageAnswer::Cleaned(1)),
    (KeeperCall::Enact, StageAnswer::Enacted(Some(2))),
    (KeeperCall::Enact, StageAnswer::Enacted(None)),
    (KeeperCall::Grow, StageAnswer::Grown(Grown::Idle)),
    (KeeperCall::Flush, StageAnswer::Flushed(3)),
    (KeeperCall::Enact, StageAnswer::Enacted(Some(3))),
    (KeeperCall::Enact, StageAnswer::Enacted(None)),
    (KeeperCall::Clean, StageAnswer::Cleaned(3)),
];

// Each call that can fail.
const CALLS: [KeeperCall; 8] = [
    KeeperCall::Node,
    KeeperCall::Meta,
    KeeperCall::Commit,
    KeeperCall::Log,
    KeeperCall::Flush,
    KeeperCall::Enact,
    KeeperCall::Clean,
    KeeperCall::Grow,
];

#[test]
fn columns_hold_what_operations_leave(rt: HostRuntime) -> Result<(), Fail> {
    for (steps, node, meta) in HELD {
        assert_eq!(rt; held_after_one(rt.alloc(), steps)?, (node, meta));
        assert_eq!(rt; held_after_each(rt.alloc(), steps)?, (node, meta));
    }
    Ok(())
}

#[test]
fn a_value_that_is_too_long_refuses_its_commit(rt: HostRuntime) -> Result<(), Fail> {
    let mut keeper = MapKeeper::new(rt.alloc());
    assert_eq!(rt;
        commit(&mut keeper, ops(rt.alloc(), &[Add(1, 4), Add(1, 4)])?),
        Ok(1)
    );
    let refused = Err(KeepFault::ValueTooLong { len: 8_388_609 });
    for (len, byte, want, left) in [
        (8_388_607, 5, Ok(2), (Some(4), Some(5))),
        (8_388_609, 6, refused, (Some(4), Some(5))),
        (8_388_608, 7, Ok(3), (None, Some(7))),
    ] {
        let steps = [Put(1, 9), Fill(1, byte, len), Release(1)];
        assert_eq!(rt; commit(&mut keeper, ops(rt.alloc(), &steps)?), want);
        assert_eq!(rt; held(&mut keeper)?, left);
    }
    assert_eq!(rt; numbers(&keeper).accepted, 3);
    assert_eq!(rt; counts(&keeper), (0, 0));
    Ok(())
}

#[test]
fn the_first_value_that_is_too_long_is_found(rt: HostRuntime) -> Result<(), Fail> {
    for (first, second, want) in [
        (8_388_608, 1, None),
        (8_388_608, 8_388_609, Some(8_388_609)),
        (8_388_610, 8_388_609, Some(8_388_610)),
    ] {
        let steps = [Add(1, 4), Fill(1, 5, first), Fill(2, 6, second), Erase(1)];
        let filled = ops(rt.alloc(), &steps)?;
        assert_eq!(rt; too_long_value(&filled), want);
    }
    Ok(())
}

#[test]
fn commits_go_through_the_stages(rt: HostRuntime) -> Result<(), Fail> {
    let mut keeper = MapKeeper::new(rt.alloc());
    for number in 1..4u64 {
        assert_eq!(rt; commit(&mut keeper, Ops::new(rt.alloc())), Ok(number));
    }
    for (call, want) in ANSWERS {
        assert_eq!(rt; answer(rt.alloc(), &mut keeper, call), Ok(Some(want)));
    }
    let want = Numbers {
        accepted: 3,
        logged: 3,
        flushed: 3,
        enacted: 3,
        cleaned: 3,
    };
    assert_eq!(rt; numbers(&keeper), want);
    Ok(())
}

#[test]
fn each_call_fails_where_it_is_to(rt: HostRuntime) -> Result<(), Fail> {
    for failing in CALLS {
        assert_eq!(rt; failed(rt.alloc(), failing)?, Some(failing));
    }
    Ok(())
}

// Which call answers the disk's fault, and is counted, where one is to; none where that isn't one alone.
fn failed(alloc: Global, failing: KeeperCall) -> Result<Option<KeeperCall>, OutOfMemory> {
    let mut keeper = MapKeeper::new(alloc);
    let mut found = None;
    let mut number = 0u64;
    for call in CALLS {
        if call == failing {
            keeper.fail_at(number)?;
        }
        number = number.saturating_add(1);
    }
    for call in CALLS {
        if answer(alloc, &mut keeper, call) == Err(KeepFault::Disk) {
            found = Some(call);
        }
    }
    Ok(if counts(&keeper).0 == 1 { found } else { None })
}

// The calls of any keeper: what the tests compare is what it answers, so that no more is said of it here.
fn commit<K: Keeper>(keeper: &mut K, ops: Ops) -> Result<u64, KeepFault>
    requires { All HasShortKey ops }
{
    keeper.commit(ops)
}

fn numbers<K: Keeper>(keeper: &K) -> Numbers {
    keeper.numbers()
}

// Of its faults and of its reads.
fn counts<K: Keeper>(keeper: &K) -> (u64, u64) {
    (keeper.faults(), keeper.reads())
}

// The answer of a call, of a stage with what it says.
fn answer<K: Stages>(
    alloc: Global,
    keeper: &mut K,
    call: KeeperCall,
) -> Result<Option<StageAnswer>, KeepFault> {
    Ok(match call {
        KeeperCall::Node => {
            let _ = keeper.node(&NodeHash([1; 32]))?;
            None
        }
        KeeperCall::Meta => {
            let _ = keeper.meta(&[1])?;
            None
        }
        KeeperCall::Commit => {
            let _ = keeper.commit(Ops::new(alloc))?;
            None
        }
        KeeperCall::Log => Some(StageAnswer::Logged(keeper.log()?)),
        KeeperCall::Flush => Some(StageAnswer::Flushed(keeper.flush()?)),
        KeeperCall::Enact => Some(StageAnswer::Enacted(keeper.enact()?)),
        KeeperCall::Clean => Some(StageAnswer::Cleaned(keeper.clean()?)),
        KeeperCall::Grow => Some(StageAnswer::Grown(keeper.grow()?)),
    })
}

// What is held under the key 1 after one commit of the operations.
fn held_after_one(alloc: Global, steps: &[Step]) -> Result<(Option<u8>, Option<u8>), Fail> {
    let mut keeper = MapKeeper::new(alloc);
    let _ = commit(&mut keeper, ops(alloc, steps)?)?;
    held(&mut keeper)
}

// What is held under the key 1 after a commit of each operation.
fn held_after_each(alloc: Global, steps: &[Step]) -> Result<(Option<u8>, Option<u8>), Fail> {
    let mut keeper = MapKeeper::new(alloc);
    for step in steps {
        let _ = commit(&mut keeper, one(alloc, step)?)?;
    }
    held(&mut keeper)
}

// The first byte of the node, and of the bytes, under the key 1.
fn held<K: Keeper>(keeper: &mut K) -> Result<(Option<u8>, Option<u8>), Fail> {
    let node = keeper.node(&NodeHash([1; 32]))?;
    let meta = keeper.meta(&[1])?;
    Ok((first_byte(node), first_byte(meta)))
}

fn first_byte(bytes: Option<Bytes>) -> Option<u8> {
    bytes?.as_slice().first().copied()
}

fn ops(alloc: Global, steps: &[Step]) -> Result<Ops, OutOfMemory>
    ensures { IfOk result (All HasShortKey) }
{
    let mut ops = Ops::new(alloc);
    for step in steps {
        ops.push(op(alloc, step)?)?;
    }
    Ok(ops)
}

fn one(alloc: Global, step: &Step) -> Result<Ops, OutOfMemory>
    ensures { IfOk result (All HasShortKey) }
{
    let mut ops = Ops::new(alloc);
    ops.push(op(alloc, step)?)?;
    Ok(ops)
}

fn op(alloc: Global, step: &Step) -> Result<Op, OutOfMemory>
    ensures { IfOk result HasShortKey }
{
    Ok(match step {
        Add(key, byte) => Op::AddRef {
            key: NodeHash([*key; 32]),
            bytes: Bytes::from_slice(alloc, &[*byte])?,
        },
        Release(key) => Op::DropRef {
            key: NodeHash([*key; 32]),
        },
        Put(key, byte) => Op::Put {
            key: Bytes::from_slice(alloc, &[*key])?,
            bytes: Bytes::from_slice(alloc, &[*byte])?,
        },
        Fill(key, byte, len) => Op::Put {
            key: Bytes::from_slice(alloc, &[*key])?,
            bytes: filled(alloc, *byte, *len)?,
        },
        Erase(key) => Op::Erase {
            key: Bytes::from_slice(alloc, &[*key])?,
        },
    })
}

fn filled(alloc: Global, byte: u8, len: usize) -> Result<Bytes, OutOfMemory> {
    let mut bytes = Vec::new(alloc);
    bytes.resize(len, byte)?;
    Ok(Bytes::from_vec(bytes))
}
