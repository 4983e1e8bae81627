use sdb_base::{Block, BlockId, Bytes, Keys, NodeHash};

/// What one job is to do.
#[derive(Debug, Drop)]
pub enum Task {
    /// Accept a block.
    Import(Block),
    /// The value of a key in a block's state.
    Read {
        /// The block.
        id: BlockId,
        /// The key.
        key: Bytes,
    },
    /// The least key above a key in a block's state.
    Next {
        /// The block.
        id: BlockId,
        /// The key, which the state may have or not.
        key: Bytes,
    },
    /// The keys with a prefix in a block's state.
    List {
        /// The block.
        id: BlockId,
        /// The prefix; no bytes are the prefix of every key.
        prefix: Bytes,
    },
    /// The root of a block's state.
    Root {
        /// The block.
        id: BlockId,
    },
}

/// How a job ended.
#[derive(Debug, Drop)]
pub enum Reply {
    /// The block was accepted, with this number.
    Imported(u64),
    /// The key's value.
    Value(Bytes),
    /// The least key above the one asked for.
    Key(Bytes),
    /// The block's state hasn't the key, or no key above it.
    Nothing,
    /// The keys with the prefix, in rising order.
    Listed(Keys),
    /// The root of the block's state.
    Root(NodeHash),
    /// The job was refused, and changed nothing.
    Refused(Refusal),
}

/// Why a job was refused.
#[derive(Clone, Copy, Debug, PartialEq, Eq)]
pub enum Refusal {
    /// 1: no accepted block has the id.
    UnknownBlock,
    /// 3: an accepted block has the id already.
    AlreadyExists,
    /// 4: no accepted block has the parent's id.
    UnknownParent,
    /// 6: so many blocks have the block's number already as may have it, 32.
    TooManySiblings {
        /// The number.
        number: u64,
    },
    /// 9: a genesis was read already.
    HasGenesis,
    /// 10: no genesis was read yet.
    NoGenesis,
}
