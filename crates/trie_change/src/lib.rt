//! A state changed by its trie's nodes, and laws of what a change keeps of a trie.
//!
//! `ChangeJob` makes changes of keys. It says which stored node it wants next, by its hash, takes that node's bytes, and ends
//! with a `Delta`: the root of the changed state, the nodes to store that weren't stored at their paths, and the hashes of
//! those that were and aren't any more. It fetches the stored nodes on the way to the keys, and those at whose paths the changed
//! trie has no node, and no others. What it knows it keeps as one flat list in the order of keys, keys with their values and
//! stubs of nodes that it hasn't fetched; on that list the changes are carried out, and over it the new nodes are made. Stubs
//! that hang below one node off the way to all keys stay together in it.
//!
//! The laws say that these nodes are enough to name what is dropped, and what stays whole beside them: each stored node that
//! isn't fetched is stored afterwards too; a node that is put is on the way to a changed key, or where none hung before; and
//! below a path that begins no changed key all nodes are the same, whether the node there came by a split or a merge or hung
//! there already. Each is the contract of a function with an empty body. Where nodes are kept is left to the caller.
#![tactic(auto)]

mod build;
mod change_job;
mod delta;
mod diff;
mod expand;
mod frontier;
mod in_order;
mod laws;
mod nibbles;
mod room;
mod settings;

pub use change_job::ChangeJob;
pub use delta::Delta;
pub use laws::{
    children_keep_their_paths, no_changes_fetch_nothing, one_change_after_another, other_keys_stay,
    setting_the_same_value, what_is_not_fetched_stays, what_is_put_is_new_at_its_path,
};
