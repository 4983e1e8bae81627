//! A state's keys read, walked over and searched by the trie's nodes, and laws of where nodes hang.
//!
//! `ReadJob` goes down a trie from its root. It says which node it wants next, by its hash, takes that node's bytes, and ends
//! with the key's value. Fed with the stored nodes of a state, it wants those on the key's way, in their order, and no others, and
//! its answer is the state's. Bytes that are no node, or one that hangs too deep, are refused, and the same node is wanted
//! again. Only the nibbles' number is kept of the way, and nothing of the nodes. Where nodes are kept is left to the caller.
//! `WalkJob` is fed in the same way and ends with the keys that begin with a prefix, `NextJob` with the least key above one.
//!
//! The laws say without going down a trie what the lists of its nodes are: they rise by path, a node hangs exactly where
//! keys part, a node's children are the Merkle values of the nodes below it, each node but the root is named by the one above
//! it, no stored node of a state is bad where it hangs, and two states of one root are one state, unless two different spellings
//! with one hash are among their nodes.
#![tactic(auto)]

mod descent;
mod fault;
mod in_order;
mod laws;
mod next_job;
mod parts;
mod read_job;
mod walk_job;

pub use descent::{is_bad_below, read_node};
pub use fault::TrieFault;
pub use laws::{
    a_key_goes_down_one_child, a_root_binds, a_value_is_at_the_end_of_its_key,
    children_are_the_nodes_below, nodes_are_named_from_above, nodes_hang_where_keys_part,
    nodes_rise_by_path, puts_and_drops_balance, stored_nodes_are_good,
};
pub use next_job::NextJob;
pub use read_job::ReadJob;
pub use walk_job::WalkJob;
