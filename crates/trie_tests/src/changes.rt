ghost use Rattle.std.specs.Prelude.{All, IfOk, IsTrue};
ghost use Rattle.sdb_base.specs.Keeping.{HasShortKey};
ghost use Rattle.trie_change.specs.Changing.{KeepsLimits};
ghost use Rattle.trie_model.specs.Limits.{ChangeIsWithin, ChangesAreWithin};

use crate::example_nodes::{AT_1, AT_2, AT_100, AT_203, AT_1000, AT_2031, AT_A, AT_AA, ROOT};
use sdb_base::{Bytes, Change, Changes, Keeper, NodeHash, Op, Ops, OutOfMemory};
use sdb_blake2::hash256;
use sdb_mapkeeper::MapKeeper;
use std::alloc::Global;
use std::test::*;
use trie_change::{ChangeJob, Delta};

// A key, and what it is set to; none deletes it.
type Row = (&'static [u8], Option<&'static [u8]>);

// A state of a dozen keys.
const DOZEN: [(&[u8], &[u8]); 12] = [
    (b"", b"\x01"),
    (b"\x10", b"\x01"),
    (
        b"\x10\x00",
        b"\x00\x00\x00\x00\x00\x00\x00\x00\x00\x00\x00\x00\x00\x00\x00\x00\x00\x00\x00\x00\x00\x00\x00\x00\x00\x00\x00\x00\x00\x00\x00\x00\x00\x00\x00\x00\x00\x00\x00\x00",
    ),
    (b"\x10\x01", b"\x02"),
    (b"\x10\x20", b"\x03"),
    (
        b"\x20",
        b"\x07\x07\x07\x07\x07\x07\x07\x07\x07\x07\x07\x07\x07\x07\x07\x07\x07\x07\x07\x07\x07\x07\x07\x07\x07\x07\x07\x07\x07\x07\x07\x07\x07",
    ),
    (b"\x20\x30", b"\x04"),
    (
        b"\x20\x31",
        b"\x05\x05\x05\x05\x05\x05\x05\x05\x05\x05\x05\x05\x05\x05\x05\x05\x05\x05\x05\x05\x05\x05\x05\x05\x05\x05\x05\x05\x05\x05",
    ),
    (b"\xa0", b"\x05"),
    (
        b"\xaa\xbb",
        b"\x06\x06\x06\x06\x06\x06\x06\x06\x06\x06\x06\x06\x06\x06\x06\x06\x06\x06\x06\x06\x06\x06\x06\x06\x06\x06\x06\x06\x06",
    ),
    (b"\xaa\xbc", b"\x06"),
    (b"\xff", b""),
];

/// Its stored nodes.
pub(crate) const NODES: [&[u8]; 9] = [
    ROOT, AT_1, AT_100, AT_1000, AT_2, AT_203, AT_2031, AT_A, AT_AA,
];

// Changes of that state: the nodes that are fetched, in their order, how many nodes are put, the nodes that are dropped, and
// the hash of the new root and of all bytes that are put, by `tools/trie.py`.
const CHANGES: [(&[Row], &[&[u8]], usize, &[&[u8]], &[u8]); 13] = [
    // no change
    (
        &[],
        &[],
        0,
        &[],
        b"\xb1\xcf\xce\xae\xb0\xd1\xce\x6d\xab\xd8\x2d\x82\x41\xde\x77\x41\x16\x8e\x8f\x89\xee\xdc\x3f\xae\x67\x28\xd3\xdc\x2f\x5a\xcd\x21",
    ),
    // the value that is there
    (
        &[(b"\x10", Some(b"\x01"))],
        &[ROOT, AT_1],
        0,
        &[],
        b"\xb1\xcf\xce\xae\xb0\xd1\xce\x6d\xab\xd8\x2d\x82\x41\xde\x77\x41\x16\x8e\x8f\x89\xee\xdc\x3f\xae\x67\x28\xd3\xdc\x2f\x5a\xcd\x21",
    ),
    // another value
    (
        &[(b"\x10", Some(b"\x09"))],
        &[ROOT, AT_1],
        2,
        &[ROOT, AT_1],
        b"\xba\x7f\xb3\x43\x8f\xf7\xbe\x81\x8e\x6a\x39\x3f\x83\x6a\xd6\x80\xd9\x71\xc5\x0c\x36\xf1\x87\xe4\xa2\x4e\x92\xf4\x4a\x8a\x27\x71",
    ),
    // a branch goes, and its other child, which is stored, merges with it
    (
        &[(b"\x20\x30", None)],
        &[ROOT, AT_2, AT_203, AT_2031],
        3,
        &[ROOT, AT_2, AT_203, AT_2031],
        b"\xef\x59\x93\xb2\x66\x5d\x41\x2f\xa2\xa4\x83\x2b\x92\x0e\xe4\xe4\x50\xcf\xdb\x82\x46\xad\xc6\xc8\xec\x20\xed\x6d\xf3\x33\xa7\x00",
    ),
    // a child goes that is inline, and two are left
    (
        &[(b"\x10\x01", None)],
        &[ROOT, AT_1, AT_100, AT_1000],
        3,
        &[ROOT, AT_1, AT_100, AT_1000],
        b"\x88\xd5\xb4\x64\x29\x57\x43\x64\xae\xe7\xbe\x88\xb1\x18\x9b\xcd\xb0\x74\xd8\x53\xee\x63\x49\x96\x7a\x69\x25\x00\xb2\xf1\x15\x32",
    ),
    // a branch goes, and its other child merges, which is inline
    (
        &[(b"\xaa\xbb", None)],
        &[ROOT, AT_A, AT_AA],
        1,
        &[ROOT, AT_A, AT_AA],
        b"\x2e\xf0\xe4\xd7\x65\x9e\x17\x94\xee\x8c\xbc\x56\x6b\xb4\x51\x8d\x92\xca\x1b\xca\xae\x2b\xc5\x73\x07\x1b\x5d\x6f\x16\x96\x8f\x6f",
    ),
    // a value of a branch goes
    (
        &[(b"\x20", None)],
        &[ROOT, AT_2, AT_203],
        2,
        &[ROOT, AT_2, AT_203],
        b"\xfb\x55\x8f\xa5\xa2\x58\x77\x9a\x28\x38\x95\x6f\xb8\xf1\x60\xa8\x43\xaa\x99\xb2\xe3\xb5\x85\x35\x51\x48\x04\xdb\xa5\x39\x0b\xb6",
    ),
    // a key that goes on from another
    (
        &[(b"\xaa\xbb\x00", Some(b"\x0a"))],
        &[ROOT, AT_A, AT_AA],
        4,
        &[ROOT, AT_A, AT_AA],
        b"\x18\x8d\x1f\xe9\x6d\xbb\x6f\xc2\x70\xde\x7e\x76\x17\x4e\xb1\x47\x35\x0a\x51\xa8\x8f\xdf\xb0\x28\xde\x9d\x9e\x6f\x51\xc2\x1c\x02",
    ),
    // a key that splits no partial key, and one that does
    (
        &[(b"\x2f", Some(b"\x01")), (b"\x10\x11", Some(b"\x02"))],
        &[ROOT, AT_1, AT_2],
        4,
        &[ROOT, AT_1, AT_2],
        b"\xcf\x8a\x43\x4f\x8c\xdc\x86\x5b\x84\xab\xa1\x71\xda\x02\x9b\x93\x75\x3d\x5e\xaa\x92\x76\xd6\xc9\xfd\x83\xf4\x1e\x37\x93\xaa\x71",
    ),
    // a key that isn't there goes
    (
        &[(b"\x10\x10", None)],
        &[ROOT, AT_1],
        0,
        &[],
        b"\xb1\xcf\xce\xae\xb0\xd1\xce\x6d\xab\xd8\x2d\x82\x41\xde\x77\x41\x16\x8e\x8f\x89\xee\xdc\x3f\xae\x67\x28\xd3\xdc\x2f\x5a\xcd\x21",
    ),
    // the last change of a key counts
    (
        &[(b"\xff", Some(b"\x01")), (b"\xff", None)],
        &[ROOT],
        1,
        &[ROOT],
        b"\xcd\xb6\xc1\x4e\x6f\xb3\x7d\x42\x58\x83\x84\x94\x12\x59\xad\xf4\x32\x0a\xdf\xad\x8d\xa6\xe0\x81\x61\xcd\x9c\x86\x08\x8a\xa5\xa8",
    ),
    // a subtree goes
    (
        &[(b"\xaa\xbb", None), (b"\xaa\xbc", None)],
        &[ROOT, AT_A, AT_AA],
        1,
        &[ROOT, AT_A, AT_AA],
        b"\xc7\xe0\x9d\x0a\xd1\x42\x62\xd1\x60\xd1\x9d\x9d\x6c\xd1\x53\x26\x55\x81\xb9\x7b\xd0\x8f\xda\xa0\x38\x04\x11\x5b\x25\xf7\x5d\x81",
    ),
    // all keys go
    (
        &[
            (b"", None),
            (b"\x10", None),
            (b"\x10\x00", None),
            (b"\x10\x01", None),
            (b"\x10\x20", None),
            (b"\x20", None),
            (b"\x20\x30", None),
            (b"\x20\x31", None),
            (b"\xa0", None),
            (b"\xaa\xbb", None),
            (b"\xaa\xbc", None),
            (b"\xff", None),
        ],
        &[
            ROOT, AT_1, AT_100, AT_1000, AT_2, AT_203, AT_2031, AT_A, AT_AA,
        ],
        1,
        &[
            ROOT, AT_1, AT_100, AT_1000, AT_2, AT_203, AT_2031, AT_A, AT_AA,
        ],
        b"\x1f\x6c\x13\x3e\x7b\xca\x8c\x77\x14\xc5\xc9\xdf\x36\x56\x2e\x5c\xd5\x13\x04\x53\x0c\xc8\x5e\x58\x33\x51\x16\x7b\xb7\x5e\x07\x2f",
    ),
];

// The same hash for states that are made from nothing: the one without any key, and that of the dozen keys.
const NOTHING: &[u8] =
    b"\x1f\x6c\x13\x3e\x7b\xca\x8c\x77\x14\xc5\xc9\xdf\x36\x56\x2e\x5c\xd5\x13\x04\x53\x0c\xc8\x5e\x58\x33\x51\x16\x7b\xb7\x5e\x07\x2f";

const A_DOZEN: &[u8] =
    b"\x2f\x7c\x87\xfb\xb2\x96\xeb\x0a\x5d\x82\x88\xa7\x7b\xd4\x0a\x8b\x58\x3b\x2b\x96\x79\x4c\xb1\x59\x33\x20\xbd\x86\x67\xad\x0c\x05";

// A branch with a value, whose one child is a stored node.
const ENDLESS: &[u8] =
    b"\xc0\x01\x00\x00\x80\x00\x00\x00\x00\x00\x00\x00\x00\x00\x00\x00\x00\x00\x00\x00\x00\x00\x00\x00\x00\x00\x00\x00\x00\x00\x00\x00\x00\x00\x00\x00\x00";

fn change(alloc: Global, key: &[u8], value: Option<&[u8]>) -> Result<Change, Fail> {
    let value = match value {
        None => None,
        Some(value) => Some(Bytes::from_slice(alloc, value)?),
    };
    Ok(Change {
        trie: Bytes::new(alloc),
        key: Bytes::from_slice(alloc, key)?,
        value,
    })
}

fn is_within(change: &Change) -> bool
    ensures { IsTrue result → ChangeIsWithin change.now }
{
    match &change.value {
        None => change.key.len() <= 1024,
        Some(value) => change.key.len() <= 1024 && value.len() <= 4194304,
    }
}

// The changes, if they keep the limits.
fn within(changes: Changes) -> Result<Changes, Fail>
    ensures { IfOk result ChangesAreWithin }
{
    if changes.len() > 65536 || !changes.as_slice().iter().all(|change| is_within(change)) {
        return Err(Fail::new("changes past the limits"));
    }
    Ok(changes)
}

fn changes(alloc: Global, rows: &[Row]) -> Result<Changes, Fail> {
    let mut changes = Changes::new(alloc);
    for (key, value) in rows {
        changes.push(change(alloc, key, *value)?)?;
    }
    Ok(changes)
}

// Settings of the dozen keys.
fn dozen(alloc: Global) -> Result<Changes, Fail> {
    let mut changes = Changes::new(alloc);
    for (key, value) in DOZEN {
        changes.push(change(alloc, key, Some(value))?)?;
    }
    Ok(changes)
}

/// The operation that adds a reference to a node with these bytes, under that hash.
pub(crate) fn adding(alloc: Global, hash: NodeHash, bytes: &[u8]) -> Result<Ops, OutOfMemory>
    ensures { IfOk result (All HasShortKey) }
{
    let mut ops = Ops::new(alloc);
    ops.push(Op::AddRef {
        key: hash,
        bytes: Bytes::from_slice(alloc, bytes)?,
    })?;
    Ok(ops)
}

pub(crate) fn commit<K: Keeper>(keeper: &mut K, ops: Ops) -> bool
    requires { All HasShortKey ops }
{
    keeper.commit(ops).is_ok()
}

/// A keeper of these nodes.
pub(crate) fn keeper(alloc: Global, nodes: &[&[u8]]) -> Result<MapKeeper, Fail> {
    let mut keeper = MapKeeper::new(alloc);
    for node in nodes {
        if !commit(&mut keeper, adding(alloc, NodeHash(hash256(node)), node)?) {
            return Err(Fail::new("a commit is refused"));
        }
    }
    Ok(keeper)
}

// The job, fed with its wanted node from the keeper, whose hash is this one.
fn fed<K: Keeper>(keeper: &mut K, mut job: ChangeJob, want: &[u8]) -> Result<ChangeJob, Fail>
    requires { KeepsLimits job }
    ensures { IfOk result KeepsLimits }
{
    let Some(hash) = job.want() else {
        return Err(Fail::new("no node is wanted"));
    };
    if hash.0.as_slice() != want {
        return Err(Fail::new("another node is wanted"));
    }
    let Ok(Some(node)) = keeper.node(hash) else {
        return Err(Fail::new("the keeper hasn't the node"));
    };
    match job.feed(node.as_slice()) {
        Ok(()) => Ok(job),
        Err(_) => Err(Fail::new("a node is refused")),
    }
}

fn finished(job: ChangeJob) -> Result<Delta, Fail>
    requires { KeepsLimits job }
{
    match job.want() {
        Some(_) => Err(Fail::new("one more node is wanted")),
        None => Ok(job.finish()?),
    }
}

// What comes of changes of the state of these nodes, where just the wanted ones are fetched.
fn changed<K: Keeper>(
    alloc: Global,
    keeper: &mut K,
    rows: &[Row],
    fetched: &[&[u8]],
) -> Result<Delta, Fail> {
    let mut job = ChangeJob::new(
        alloc,
        NodeHash(hash256(ROOT)),
        within(changes(alloc, rows)?)?,
    )?;
    for node in fetched {
        job = fed(keeper, job, &hash256(node))?;
    }
    finished(job)
}

// The hash of the root and of what is put, if each put has the hash of its bytes.
fn digest(alloc: Global, delta: &Delta) -> Result<[u8; 32], Fail> {
    let mut all = Vec::new(alloc);
    all.extend_from_slice(&delta.root.0)?;
    for put in delta.puts.as_slice() {
        if put.hash.0 != hash256(put.bytes.as_slice()) {
            return Err(Fail::new("a node has another hash"));
        }
        all.extend_from_slice(put.bytes.as_slice())?;
    }
    Ok(hash256(all.as_slice()))
}

fn drops(delta: &Delta, want: &[&[u8]]) -> bool {
    let mut same = delta.drops.len() == want.len();
    for (hash, node) in delta.drops.as_slice().iter().zip(want) {
        same = same && hash.0 == hash256(node);
    }
    same
}

#[test]
fn changes_of_a_state(rt: HostRuntime) -> Result<(), Fail> {
    let alloc = rt.alloc();
    let mut keeper = keeper(alloc, &NODES)?;
    for (rows, fetched, puts, dropped, want) in CHANGES {
        let delta = changed(alloc, &mut keeper, rows, fetched)?;
        assert_eq!(rt; delta.puts.len(), puts);
        assert!(rt; drops(&delta, dropped));
        assert_eq!(rt; digest(alloc, &delta)?.as_slice(), want);
    }
    Ok(())
}

// How a node was fetched for a change.
#[derive(Clone, Copy, Debug, PartialEq, Eq)]
enum Way {
    // it was fed
    Fed,
    // the keeper's call failed
    Failed,
    // the keeper has nothing under the hash
    Missing,
    // the bytes are no node that hangs there
    Refused,
}

// The job after its wanted node was fetched, if it came this way.
fn fetched(keeper: &mut MapKeeper, mut job: ChangeJob, way: Way) -> Result<ChangeJob, Fail>
    requires { KeepsLimits job }
    ensures { IfOk result KeepsLimits }
{
    let Some(hash) = job.want() else {
        return Err(Fail::new("no node is wanted"));
    };
    let came = match keeper.node(hash) {
        Ok(Some(node)) => match job.feed(node.as_slice()) {
            Ok(()) => Way::Fed,
            Err(_) => Way::Refused,
        },
        Ok(None) => Way::Missing,
        Err(_) => Way::Failed,
    };
    if came == way {
        Ok(job)
    } else {
        Err(Fail::new("a node was fetched in another way"))
    }
}

// A change of a key under the nodes at the root, 2 and 203.
fn under_203(alloc: Global) -> Result<ChangeJob, Fail>
    ensures { IfOk result KeepsLimits }
{
    let mut list = Changes::new(alloc);
    list.push(change(alloc, b"\x20\x30", Some(b"\x09"))?)?;
    Ok(ChangeJob::new(alloc, NodeHash(hash256(ROOT)), within(list)?)?)
}

#[test]
fn a_change_goes_on_after_a_call_that_fails(rt: HostRuntime) -> Result<(), Fail> {
    let alloc = rt.alloc();
    let mut keeper = keeper(alloc, &NODES)?;
    // after nine commits the third read of a node
    keeper.fail_at(11)?;
    let mut job = under_203(alloc)?;
    job = fetched(&mut keeper, job, Way::Fed)?;
    job = fetched(&mut keeper, job, Way::Fed)?;
    job = fetched(&mut keeper, job, Way::Failed)?;
    job = fetched(&mut keeper, job, Way::Fed)?;
    let delta = finished(job)?;
    assert_eq!(rt; (delta.puts.len(), delta.drops.len()), (3, 3));
    Ok(())
}

// The nodes but that at 203.
const BUT_203: [&[u8]; 8] = [ROOT, AT_1, AT_100, AT_1000, AT_2, AT_2031, AT_A, AT_AA];

#[test]
fn a_change_wants_a_node_until_it_is_there(rt: HostRuntime) -> Result<(), Fail> {
    let alloc = rt.alloc();
    let hash = NodeHash(hash256(AT_203));
    let mut missing = keeper(alloc, &BUT_203)?;
    let mut job = under_203(alloc)?;
    job = fetched(&mut missing, job, Way::Fed)?;
    job = fetched(&mut missing, job, Way::Fed)?;
    job = fetched(&mut missing, job, Way::Missing)?;
    job = fetched(&mut missing, job, Way::Missing)?;
    assert!(rt; job.want() == Some(&hash));
    assert!(rt; commit(&mut missing, adding(alloc, hash, b"\x20")?));
    job = fetched(&mut missing, job, Way::Refused)?;
    job = fetched(&mut missing, job, Way::Refused)?;
    assert!(rt; job.want() == Some(&hash));
    Ok(())
}

#[test]
fn states_from_nothing(rt: HostRuntime) -> Result<(), Fail> {
    let alloc = rt.alloc();
    let none = finished(ChangeJob::on_empty(alloc, within(Changes::new(alloc))?)?)?;
    assert_eq!(rt; digest(alloc, &none)?.as_slice(), NOTHING);
    let all = finished(ChangeJob::on_empty(alloc, within(dozen(alloc)?)?)?)?;
    assert_eq!(rt; digest(alloc, &all)?.as_slice(), A_DOZEN);
    assert!(rt; all.drops.is_empty());
    Ok(())
}

// How often a node is taken in a row; where no more is wanted something has to come of it.
fn taken(mut job: ChangeJob, node: &[u8]) -> Result<usize, Fail>
    requires { KeepsLimits job }
{
    for i in 0..3000usize {
        if job.want().is_none() {
            finished(job)?;
            return Ok(i);
        }
        if job.feed(node).is_err() {
            return Ok(i);
        }
    }
    Err(Fail::new("it wants nodes without end"))
}

fn setting(alloc: Global, len: usize) -> Result<ChangeJob, Fail>
    ensures { IfOk result KeepsLimits }
{
    let mut key = Vec::new(alloc);
    key.resize(len, 0)?;
    let mut list = Changes::new(alloc);
    list.push(change(alloc, key.as_slice(), Some(b"v"))?)?;
    Ok(ChangeJob::new(alloc, NodeHash(hash256(ENDLESS)), within(list)?)?)
}

#[test]
fn ends_on_any_bytes(rt: HostRuntime) -> Result<(), Fail> {
    let alloc = rt.alloc();
    assert_eq!(rt; taken(setting(alloc, 1024)?, ENDLESS)?, 2049);
    assert_eq!(rt; taken(setting(alloc, 1)?, ENDLESS)?, 3);
    assert_eq!(rt; taken(setting(alloc, 1)?, b"\x20")?, 0);
    Ok(())
}
