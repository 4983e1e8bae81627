//! The values that blocks, tries and commits are made of: byte strings, nibbles, changes of keys, blocks, trie
//! nodes, operations on the database's columns, and lists of them.
//!
//! A contract sees each list as the list of its items and each record by its fields, so that a
//! definition can speak of them as of plain data, and equal values are equal there however they lie in
//! memory. A list takes its allocator when it is made and keeps it. A call that finds no memory says so
//! and changes nothing. What the values mean, which keys and lengths are allowed, and how they are spelled,
//! is left to the layers above.
//!
//! `Keeper` and `Stages` say what keeps commits of such operations and carries them through its stages, whatever it
//! is.
#![tactic(auto)]

mod block;
mod bytes;
mod change;
mod items;
mod keeper;
mod laws;
mod nibbles;
mod node;
mod numbers;
mod op;
mod pair;
mod value_limit;

pub use block::{Block, BlockId, Prepared};
pub use bytes::{ByteString, Bytes};
pub use change::{Change, Changes};
pub use items::{Items, Sequence, TryCopy, Typed};
pub use keeper::{Keeper, Stages};
pub use laws::{known_contents, known_stages, operations_apply_in_order};
pub use nibbles::{NibbleString, Nibbles};
pub use node::{HashList, Node, NodeHash, NodeList};
pub use numbers::{Counter, Grown, KeepFault, KeeperCall, Logged, Numbers, StageAnswer};
pub use op::{Op, Ops};
pub use pair::{Pair, Pairs};
pub use value_limit::too_long_value;

/// A list of texts, as the words of a command line.
pub type Words = Items<Bytes>;

/// A list of keys.
pub type Keys = Items<Bytes>;

/// A call found no memory.
pub type OutOfMemory = std::alloc::AllocError;
