ghost use Rattle.std.specs.Prelude.{◌≤◌, length};

use sdb_base::{Bytes, NodeHash};
use smallvec::SmallVec;

/// Nibbles from the root on, to where a node hangs or to a key's end.
pub(crate) type Path = SmallVec<u8, 64>;

/// A key with its value.
#[derive(Debug, Drop)]
pub(crate) struct Entry {
    /// The key in nibbles.
    pub(crate) path: Path,
    pub(crate) value: Bytes,
}

/// A stored node of which no more is known than its hash and where it hangs.
#[derive(Debug, Drop)]
pub(crate) struct Stub {
    pub(crate) path: Path,
    pub(crate) hash: NodeHash,
}

/// A stored node below another, of which no more is known than its hash.
#[derive(Debug, Clone, Copy)]
pub(crate) struct Sibling {
    /// The nibble after the end of the node above.
    pub(crate) nibble: u8,
    pub(crate) hash: NodeHash,
}

/// Stored nodes below one node, two at least, by rising nibble. They stay together: no key that is set is below one of them
/// or between two.
#[derive(Debug, Drop)]
pub(crate) struct Siblings {
    /// Where the partial key of the node above ends.
    pub(crate) end: Path,
    pub(crate) nodes: Vec<Sibling>,
    ghost two: { 2 ≤ length nodes.items },
}

/// What is known of a trie, in the order of keys: keys, and stored nodes that stand for all keys below them.
#[derive(Debug, Drop)]
pub(crate) enum Piece {
    Entry(Entry),
    Stub(Stub),
    Siblings(Siblings),
}

/// A stored node that was fed.
#[derive(Debug, Drop)]
pub(crate) struct Fed {
    pub(crate) path: Path,
    pub(crate) hash: NodeHash,
    pub(crate) bytes: Bytes,
}
