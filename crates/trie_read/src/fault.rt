use sdb_base::NodeHash;
use thiserror::Error;

/// Why a node's bytes are not taken.
#[derive(Debug, Clone, Copy, PartialEq, Eq, Error)]
pub enum TrieFault {
    /// The bytes are no node that hangs where the wanted one does.
    #[error("bytes that are no node of a trie")]
    BadNode {
        /// The hash of the wanted node.
        hash: NodeHash,
    },
    /// There was no memory.
    #[error("no memory")]
    OutOfMemory,
}
