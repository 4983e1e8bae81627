ghost use Rattle.std.specs.Prelude.{◌≡◌, IfOk};

use crate::OutOfMemory;
use crate::bytes::Bytes;
use crate::items::{Items, TryCopy};
use std::alloc::Global;

/// The hash of a trie node's bytes, 32 bytes.
#[derive(Clone, Copy, Debug, PartialEq, Eq, PartialOrd, Ord, Hash)]
pub struct NodeHash(pub [u8; 32]);

/// A trie node's bytes and their hash.
#[derive(Debug, Drop)]
pub struct Node {
    /// The hash of `bytes`.
    pub hash: NodeHash,
    /// The node's spelling.
    pub bytes: Bytes,
}

/// Nodes, by rising path where a trie gives them.
pub type NodeList = Items<Node>;

/// Hashes of nodes, by rising path where a trie gives them.
pub type HashList = Items<NodeHash>;

impl TryCopy for NodeHash {
    fn copy(&self, _alloc: Global) -> Result<NodeHash, OutOfMemory> {
        Ok(*self)
    }
}

impl TryCopy for Node {
    fn copy(&self, alloc: Global) -> Result<Node, OutOfMemory> {
        Ok(Node {
            hash: self.hash,
            bytes: self.bytes.copy(alloc)?,
        })
    }
}
