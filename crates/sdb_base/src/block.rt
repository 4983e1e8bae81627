ghost use Rattle.std.specs.Prelude.{◌≡◌, IfOk};

use crate::OutOfMemory;
use crate::change::Changes;
use crate::items::TryCopy;
use crate::node::{HashList, NodeHash, NodeList};
use std::alloc::Global;

/// A block's id, 32 bytes.
#[derive(Clone, Copy, Debug, PartialEq, Eq, PartialOrd, Ord, Hash)]
pub struct BlockId(pub [u8; 32]);

/// A block: what it changes in the state of its parent.
#[derive(Debug, Drop)]
pub struct Block {
    /// The block's own id.
    pub id: BlockId,
    /// Its parent's id; 32 zero bytes for genesis.
    pub parent: BlockId,
    /// Its changes in their order, at most 65,536.
    pub changes: Changes,
    /// The state version by which its changes are stored; 0 today.
    pub version: u8,
}

/// A block with what its changes do to the trie of its parent's state.
#[derive(Debug, Drop)]
pub struct Prepared {
    /// The block's own id.
    pub id: BlockId,
    /// Its parent's id; 32 zero bytes for genesis.
    pub parent: BlockId,
    /// Its changes in their order, at most 65,536.
    pub changes: Changes,
    /// The root of its state's trie.
    pub root: NodeHash,
    /// The nodes that its trie has and its parent's has not.
    pub puts: NodeList,
    /// The hashes of the nodes that its parent's trie has and its own has not.
    pub drops: HashList,
    /// The state version by which its changes are stored; 0 today.
    pub version: u8,
}

impl TryCopy for BlockId {
    fn copy(&self, _alloc: Global) -> Result<BlockId, OutOfMemory> {
        Ok(*self)
    }
}

impl TryCopy for Block {
    fn copy(&self, alloc: Global) -> Result<Block, OutOfMemory> {
        Ok(Block {
            id: self.id,
            parent: self.parent,
            changes: self.changes.copy(alloc)?,
            version: self.version,
        })
    }
}

impl TryCopy for Prepared {
    fn copy(&self, alloc: Global) -> Result<Prepared, OutOfMemory> {
        Ok(Prepared {
            id: self.id,
            parent: self.parent,
            changes: self.changes.copy(alloc)?,
            root: self.root,
            puts: self.puts.copy(alloc)?,
            drops: self.drops.copy(alloc)?,
            version: self.version,
        })
    }
}
