use sdb_base::{
    Block, BlockId, Bytes, Change, Changes, HashList, Node, NodeHash, NodeList, Op, Ops,
    OutOfMemory, Prepared, TryCopy,
};
use std::alloc::Global;
use std::cmp::Ordering;
use std::test::*;

// Two byte strings, and how the first stands to the second.
const ORDERED: [(&[u8], &[u8], Ordering); 6] = [
    (b"", b"", Ordering::Equal),
    (b"", b"\x00", Ordering::Less),
    (b"\x01", b"\x01\x00", Ordering::Less),
    (b"\x01\xff", b"\x02", Ordering::Less),
    (b"\x80", b"\x7f\xff", Ordering::Greater),
    (b"\x01\x02", b"\x01\x02", Ordering::Equal),
];

// The hashes of the nodes that `prepared` drops.
const HASHES: [NodeHash; 2] = [NodeHash([6; 32]), NodeHash([7; 32])];

// What `pushed` makes.
const PUSHED: &[u8] = b"\x07\x00";

#[test]
fn bytes_start_empty(rt: HostRuntime) {
    let bytes = Bytes::new(rt.alloc());
    assert!(rt; bytes.is_empty());
    assert_eq!(rt; bytes.len(), 0);
}

#[test]
fn bytes_are_pushed(rt: HostRuntime) -> Result<(), Fail> {
    let bytes = pushed(rt.alloc())?;
    assert!(rt; !bytes.is_empty());
    assert_eq!(rt; bytes.len(), 2);
    assert_eq!(rt; bytes.as_slice(), PUSHED);
    Ok(())
}

#[test]
fn bytes_are_copied(rt: HostRuntime) -> Result<(), Fail> {
    let same = copied(rt.alloc(), pushed(rt.alloc())?)?;
    assert_eq!(rt; same.as_slice(), PUSHED);
    Ok(())
}

#[test]
fn bytes_are_cloned(rt: HostRuntime) -> Result<(), Fail> {
    let same = cloned(pushed(rt.alloc())?)?;
    assert_eq!(rt; same.as_slice(), PUSHED);
    Ok(())
}

#[test]
fn bytes_change_hands(rt: HostRuntime) -> Result<(), Fail> {
    let items = pushed(rt.alloc())?.into_vec();
    assert_eq!(rt; items.as_slice(), PUSHED);
    let bytes = Bytes::from_vec(items);
    assert_eq!(rt; bytes.as_slice(), PUSHED);
    Ok(())
}

#[test]
fn bytes_are_ordered(rt: HostRuntime) -> Result<(), Fail> {
    for (left, right, want) in ORDERED {
        let is_kept = is_order(rt.alloc(), left, right, want)?;
        assert!(rt; is_kept, "{left:?} {right:?}");
    }
    Ok(())
}

#[test]
fn changes_are_listed(rt: HostRuntime) -> Result<(), Fail> {
    assert!(rt; Changes::new(rt.alloc()).is_empty());
    let changes = both(rt.alloc())?;
    assert!(rt; !changes.is_empty());
    assert_eq!(rt; changes.len(), 2);
    assert!(rt; are_both(changes.as_slice()));
    Ok(())
}

#[test]
fn blocks_are_copied(rt: HostRuntime) -> Result<(), Fail> {
    let same = copied(rt.alloc(), block(rt.alloc())?)?;
    assert!(rt; is_the_block(&same));
    let id = copied(rt.alloc(), BlockId([1; 32]))?;
    assert!(rt; id == BlockId([1; 32]));
    Ok(())
}

#[test]
fn prepared_blocks_are_copied(rt: HostRuntime) -> Result<(), Fail> {
    let same = copied(rt.alloc(), prepared(rt.alloc())?)?;
    assert!(rt; is_the_prepared(&same));
    Ok(())
}

#[test]
fn operations_are_copied(rt: HostRuntime) -> Result<(), Fail> {
    let same = copied(rt.alloc(), operations(rt.alloc())?)?;
    assert!(rt; are_the_operations(same.as_slice()));
    Ok(())
}

fn pushed(alloc: Global) -> Result<Bytes, OutOfMemory> {
    let mut bytes = Bytes::new(alloc);
    bytes.push(7)?;
    bytes.push(0)?;
    Ok(bytes)
}

// A copy of `value`, which is let go.
fn copied<T: TryCopy>(alloc: Global, value: T) -> Result<T, OutOfMemory> {
    value.copy(alloc)
}

// A clone of `bytes`, which are let go.
fn cloned(bytes: Bytes) -> Result<Bytes, OutOfMemory> {
    bytes.clone()
}

// Whether the bytes of `left` stand to those of `right` as `want` says.
fn is_order(alloc: Global, left: &[u8], right: &[u8], want: Ordering) -> Result<bool, OutOfMemory> {
    let left = Bytes::from_slice(alloc, left)?;
    let right = Bytes::from_slice(alloc, right)?;
    Ok(is_each_order(&left, &right, want))
}

// Whether each of the three comparisons gives `want`.
fn is_each_order(left: &Bytes, right: &Bytes, want: Ordering) -> bool {
    let is_equal = want == Ordering::Equal;
    left.cmp(right) == want
        && left.partial_cmp(right) == Some(want)
        && (*left == *right) == is_equal
}

// A change that sets a value in the trie `t`.
fn value_set(alloc: Global) -> Result<Change, OutOfMemory> {
    let trie = Bytes::from_slice(alloc, b"t")?;
    let key = Bytes::from_slice(alloc, b"k")?;
    let value = Some(Bytes::from_slice(alloc, b"v")?);
    Ok(Change { trie, key, value })
}

// A change that deletes a key of the main trie.
fn key_deleted(alloc: Global) -> Result<Change, OutOfMemory> {
    let key = Bytes::from_slice(alloc, b"gone")?;
    Ok(Change {
        trie: Bytes::new(alloc),
        key,
        value: None,
    })
}

// Both changes.
fn both(alloc: Global) -> Result<Changes, OutOfMemory> {
    let mut changes = Changes::new(alloc);
    changes.push(value_set(alloc)?)?;
    changes.push(key_deleted(alloc)?)?;
    Ok(changes)
}

// Both changes, from a slice of them.
fn both_from_slice(alloc: Global) -> Result<Changes, OutOfMemory> {
    let changes = both(alloc)?;
    Changes::from_slice(alloc, changes.as_slice())
}

// Whether `changes` are both changes.
fn are_both(changes: &[Change]) -> bool {
    let [first, second] = changes else {
        return false;
    };
    is_value_set(first) && is_key_deleted(second)
}

fn is_value_set(change: &Change) -> bool {
    let Some(value) = &change.value else {
        return false;
    };
    change.trie.as_slice() == b"t".as_slice()
        && change.key.as_slice() == b"k".as_slice()
        && value.as_slice() == b"v".as_slice()
}

fn is_key_deleted(change: &Change) -> bool {
    change.trie.is_empty() && change.key.as_slice() == b"gone".as_slice() && change.value.is_none()
}

fn block(alloc: Global) -> Result<Block, OutOfMemory> {
    Ok(Block {
        id: BlockId([1; 32]),
        parent: BlockId([2; 32]),
        changes: both(alloc)?,
        version: 3,
    })
}

// Whether `block` is what `block` makes.
fn is_the_block(block: &Block) -> bool {
    block.id == BlockId([1; 32])
        && block.parent == BlockId([2; 32])
        && are_both(block.changes.as_slice())
        && block.version == 3
}

fn prepared(alloc: Global) -> Result<Prepared, OutOfMemory> {
    let changes = both_from_slice(alloc)?;
    let puts = one_node(alloc)?;
    let drops = HashList::from_slice(alloc, &HASHES)?;
    Ok(Prepared {
        id: BlockId([1; 32]),
        parent: BlockId([2; 32]),
        changes,
        root: NodeHash([5; 32]),
        puts,
        drops,
        version: 3,
    })
}

// Whether `prepared` is what `prepared` makes.
fn is_the_prepared(prepared: &Prepared) -> bool {
    prepared.id == BlockId([1; 32])
        && prepared.parent == BlockId([2; 32])
        && are_both(prepared.changes.as_slice())
        && prepared.root == NodeHash([5; 32])
        && is_the_node(prepared.puts.as_slice())
        && prepared.drops.as_slice() == HASHES.as_slice()
        && prepared.version == 3
}

fn one_node(alloc: Global) -> Result<NodeList, OutOfMemory> {
    let bytes = Bytes::from_slice(alloc, b"node")?;
    let hash = NodeHash([4; 32]);
    NodeList::from_slice(alloc, &[Node { hash, bytes }])
}

// Whether `nodes` are what `one_node` makes.
fn is_the_node(nodes: &[Node]) -> bool {
    let [node] = nodes else {
        return false;
    };
    node.hash == NodeHash([4; 32]) && node.bytes.as_slice() == b"node".as_slice()
}

// One operation of each kind.
fn operations(alloc: Global) -> Result<Ops, OutOfMemory> {
    let hash = NodeHash([8; 32]);
    let mut ops = Ops::new(alloc);
    let bytes = Bytes::from_slice(alloc, b"node")?;
    ops.push(Op::AddRef { key: hash, bytes })?;
    ops.push(Op::DropRef { key: hash })?;
    let key = Bytes::from_slice(alloc, b"k")?;
    let bytes = Bytes::from_slice(alloc, b"v")?;
    ops.push(Op::Put { key, bytes })?;
    let key = Bytes::from_slice(alloc, b"gone")?;
    ops.push(Op::Erase { key })?;
    Ok(ops)
}

// Whether `ops` are what `operations` makes.
fn are_the_operations(ops: &[Op]) -> bool {
    let [add, remove, put, erase] = ops else {
        return false;
    };
    is_reference(add, remove) && is_put(put) && is_erase(erase)
}

fn is_reference(add: &Op, remove: &Op) -> bool {
    let Op::AddRef { key, bytes } = add else {
        return false;
    };
    let Op::DropRef { key: dropped } = remove else {
        return false;
    };
    *key == NodeHash([8; 32])
        && bytes.as_slice() == b"node".as_slice()
        && *dropped == NodeHash([8; 32])
}

fn is_put(put: &Op) -> bool {
    let Op::Put { key, bytes } = put else {
        return false;
    };
    key.as_slice() == b"k".as_slice() && bytes.as_slice() == b"v".as_slice()
}

fn is_erase(erase: &Op) -> bool {
    let Op::Erase { key } = erase else {
        return false;
    };
    key.as_slice() == b"gone".as_slice()
}
