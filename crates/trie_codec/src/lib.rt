//! Trie nodes and their bytes (Polkadot Host specification, state version 0).
//!
//! `NodeRef` reads a node and owns nothing: what it gives of the node are slices of its input. It reads exactly the
//! spellings of nodes, and else names the first fault from the left; it takes no memory. `encode` writes the one
//! spelling of a node's parts, `encode_parts` that of borrowed parts, `encode_spelled` that of a node whose children are
//! spelled already, and `encode_leaf` that of a leaf from a key's bytes, with no copy of its nibbles. Nodes and spellings are defined in the crate of the trie's definitions, and the
//! order of faults in `specs/Reading`. Which nodes make a trie is left to the layers above.
#![tactic(auto)]

mod fault;
mod laws;
mod merkle_value;
mod node_ref;
mod plain;
mod reading;
mod spelled_children;
mod writing;

pub use fault::CodecFault;
pub use laws::{
    faults_stay, known_readings, more_levels_read_nothing_more, what_is_read_was_written,
    what_is_written_is_read,
};
pub use merkle_value::MerkleValue;
pub use node_ref::{ChildRef, Kind, NodeRef};
pub use plain::{ChildList, Plain};
pub use spelled_children::SpelledChildren;
pub use writing::{encode, encode_leaf, encode_parts, encode_spelled};
