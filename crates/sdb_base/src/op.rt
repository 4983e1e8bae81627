ghost use Rattle.std.specs.Prelude.{◌≡◌, IfOk};

use crate::OutOfMemory;
use crate::bytes::Bytes;
use crate::items::{Items, TryCopy};
use crate::node::NodeHash;
use std::alloc::Global;

/// What a commit does to one key of the database. Column 0 has the nodes by their hashes, each with a
/// reference count; column 1 has bytes by plain keys.
#[derive(Debug, Drop)]
pub enum Op {
    /// Column 0: one reference more to the node, which is stored where it isn't yet.
    AddRef {
        /// The node's hash.
        key: NodeHash,
        /// The node's bytes.
        bytes: Bytes,
    },
    /// Column 0: one reference less to the node, which goes with its last one.
    DropRef {
        /// The node's hash.
        key: NodeHash,
    },
    /// Column 1: sets the bytes of a key.
    Put {
        /// The key.
        key: Bytes,
        /// Its new bytes.
        bytes: Bytes,
    },
    /// Column 1: deletes a key.
    Erase {
        /// The key.
        key: Bytes,
    },
}

/// Operations, which apply in their order.
pub type Ops = Items<Op>;

impl TryCopy for Op {
    fn copy(&self, alloc: Global) -> Result<Op, OutOfMemory> {
        Ok(match self {
            Op::AddRef { key, bytes } => Op::AddRef {
                key: *key,
                bytes: bytes.copy(alloc)?,
            },
            Op::DropRef { key } => Op::DropRef { key: *key },
            Op::Put { key, bytes } => Op::Put {
                key: key.copy(alloc)?,
                bytes: bytes.copy(alloc)?,
            },
            Op::Erase { key } => Op::Erase {
                key: key.copy(alloc)?,
            },
        })
    }
}
