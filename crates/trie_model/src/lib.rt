//! States and their tries, as definitions.
//!
//! A state is a finite map from byte keys to byte values, and changes apply to it in their order. Its trie is built
//! from the whole map by longest common prefixes of keys in nibbles; a node has one spelling, and the root is the
//! hash of the root node's. The definitions are in `specs/`: `State`, `Limits`, `Nibbles`, `Node` and `Trie`, after the
//! Polkadot Host specification with state version 0; `Nodes` lists a trie's nodes by their paths, which of them are
//! stored under their hashes, and what a change stores and drops; `Fetches` says which of them are fetched to answer what
//! is asked of a state. The functions are laws about them, with `Example` for a state to try them on. How tries are read,
//! made and changed is left to the layers above.
#![tactic(auto)]

mod fetching;
mod laws;

pub use fetching::{known_changes, known_fetches, known_stored_nodes};
pub use laws::{changes_apply_in_order, equal_states_have_one_trie, known_nodes, limits_last};
