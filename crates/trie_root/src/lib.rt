//! The root of a state, computed from its sorted pairs, and laws on tries (Polkadot Host specification, general trie
//! structure).
//!
//! Contracts see pairs as a list, and the state as the map of its entries. `root_of` promises the root that the trie's
//! definition gives this map. It goes down the trie once: pairs that agree in their first nibbles are a sub-slice, the
//! node over them has as partial key what the first and the last go on to share, and each of its children is the node over a
//! sub-slice of the others, by their next nibble. Keys and values are borrowed; only spellings and Merkle values are made.
//!
//! The laws run nothing. Those of `laws` say why sub-slices of sorted pairs follow a definition over whole lists of
//! suffixes. Those of `tries` say that the definition means what it should: what is read off a trie is the state, and
//! a trie's nodes can be written and read. That keys rise and are short enough is left to the layers above, and so are
//! reading and changing a trie by its nodes.
#![tactic(auto)]

mod laws;
mod root;
mod tries;

pub use laws::{
    a_nibble_is_a_row, a_value_stands_first, all_go_on_with_the_shared_prefix,
    ends_share_the_prefix, keys_rise_in_nibbles, more_levels_change_nothing,
    order_stays_below_the_shared_prefix, prefixes_follow_one_another,
};
pub use root::root_of;
pub use tries::{a_trie_gives_its_state_back, nodes_of_tries_are_nodes};
