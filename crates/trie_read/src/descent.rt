ghost use Rattle.std.specs.Prelude.{◌≡◌, ◌+◌, ◌*◌, ◌<◌, ◌≤◌, length, drop, slice_index, is_some, not, IfSome, IsTrue, Ok};
ghost use Rattle.trie_codec.specs.Reading.{node_of_bytes};
ghost use Rattle.sdb_base.specs.Nibbles.{nibbles_of};
ghost use Rattle.trie_model.specs.Node.{IsNode};
ghost use Rattle.trie_model.specs.Trie.{after_prefix};
ghost use Rattle.trie_codec.specs.NodeParts.{child_bytes, node_of_ref};
ghost use Rattle.trie_codec.specs.Slices.{bytes_in};
ghost use Rattle.trie_read.specs.Depth.{child_too_deep, is_bad_node, is_long_value, too_deep};
ghost use Rattle.trie_read.specs.inner.Descent.{FitsKey, IsSized, outcome_of, way_down};

use trie_codec::{ChildRef, Kind, NodeRef};

/// A node's path and its partial key have at most so many nibbles together.
const MOST_NIBBLES: usize = 2048;

/// A value has at most so many bytes.
const MOST_IN_VALUE: usize = 4_194_304;

/// A node and the inline ones in it are at most so many, one below the other, since an inline one has fewer than 32 bytes.
pub(crate) const MOST_LEVELS: u8 = 33;

// Where a key's way down a node and the inline ones in it ends.
#[derive(Clone, Copy)]
pub(crate) enum Found<'a> {
    // In it, with the key's value.
    Ended(Option<&'a [u8]>),
    // At the hash of the next node, which hangs after so many nibbles of the key.
    Wants { hash: &'a [u8], at: usize },
}

// A key's nibble.
fn nibble_at(key: &[u8], i: usize) -> u8
    requires { i < 2 * length key.now }
    ensures value { result ≡ slice_index (nibbles_of key.now) i }
    ensures below { result < 16 }
{
    let byte = key[i / 2];
    if i % 2 == 0 { byte / 16 } else { byte % 16 }
}

// Whether a key goes on after `at` nibbles with a node's partial key.
fn goes_on(key: &[u8], at: usize, node: &NodeRef) -> bool
    requires { at ≤ 2 * length key.now }
    ensures follows { result ≡ is_some (after_prefix (node_of_ref node.now).partial (drop at (nibbles_of key.now))) }
    ensures fits { IsTrue result → at + length (node_of_ref node.now).partial ≤ 2 * length key.now }
{
    let len = node.partial_len();
    if len > 2 * key.len() - at {
        return false;
    }
    for i in 0..len {
        if nibble_at(key, at + i) != node.nibble(i) {
            return false;
        }
    }
    true
}

// The way of a key down a node that hangs after `at` of its nibbles, and down the inline ones in it.
pub(crate) fn walk<'a>(levels: u8, key: &[u8], at: usize, node: &NodeRef<'a>) -> Found<'a>
    requires { at ≤ 2 * length key.now }
    ensures fits { FitsKey (2 * length key.now) result }
    ensures outcome { outcome_of (nibbles_of key.now) result ≡ way_down levels (node_of_ref node.now) (drop at (nibbles_of key.now)) }
{
    if levels == 0 || !goes_on(key, at, node) {
        return Found::Ended(None);
    }
    let end = at + node.partial_len();
    if end == 2 * key.len() {
        return Found::Ended(node.value());
    }
    match node.child(nibble_at(key, end)) {
        ChildRef::None => Found::Ended(None),
        ChildRef::Hashed(hash) => Found::Wants { hash, at: end + 1 },
        ChildRef::Inline(bytes) => match NodeRef::read(bytes) {
            Ok(child) => walk(levels - 1, key, end + 1, &child),
            Err(_) => Found::Ended(None),
        },
    }
}

fn is_long(value: Option<&[u8]>) -> bool
    ensures { result ≡ is_long_value (bytes_in value.entry) }
{
    match value {
        Some(value) => value.len() > MOST_IN_VALUE,
        None => false,
    }
}

// Whether a node that hangs after `at` nibbles, or an inline one in it, goes past the limits.
#[cycle(depth)]
fn hangs_too_deep(levels: u8, at: usize, node: &NodeRef) -> bool
    requires at { at ≤ 2049 }
    requires node { IsNode (node_of_ref node.now) }
    ensures { result ≡ too_deep levels at (node_of_ref node.now) }
{
    if levels == 0 {
        return false;
    }
    let len = node.partial_len();
    if at > MOST_NIBBLES || len > MOST_NIBBLES - at || is_long(node.value()) {
        return true;
    }
    let Kind::Branch = node.kind() else {
        return false;
    };
    for i in 0..16u8 {
        if is_child_too_deep(levels - 1, at + len + 1, node.child(i)) {
            return true;
        }
    }
    false
}

// The same of the node of an inline child.
#[cycle(depth)]
fn is_child_too_deep(levels: u8, at: usize, child: ChildRef) -> bool
    requires at { at ≤ 2049 }
    requires child { IsSized child }
    ensures { result ≡ child_too_deep (too_deep levels at) (child_bytes child.entry) }
{
    let ChildRef::Inline(bytes) = child else {
        return false;
    };
    match NodeRef::read(bytes) {
        Ok(node) => hangs_too_deep(levels, at, &node),
        Err(_) => false,
    }
}

// The same of the node that bytes spell. A byte spells two nibbles at most, so that near a root none of few bytes is looked at.
fn spells_too_deep(at: usize, bytes: &[u8], node: &NodeRef) -> bool
    requires at { at ≤ 2048 }
    requires node { IsNode (node_of_ref node.now) }
    requires read { node_of_bytes bytes.now ≡ Ok (node_of_ref node.now) }
    ensures { result ≡ too_deep 33 at (node_of_ref node.now) }
{
    bytes.len() > (MOST_NIBBLES - at) / 2 && hangs_too_deep(MOST_LEVELS, at, node)
}

/// Whether a node that bytes spell is bad where it hangs after `at` nibbles: it or an inline one in it goes past the limits of a
/// key or a value, or it is the node of the empty trie below a root.
pub fn is_bad_below(at: usize, bytes: &[u8], node: &NodeRef) -> bool
    requires node { IsNode (node_of_ref node.now) }
    requires read { node_of_bytes bytes.now ≡ Ok (node_of_ref node.now) }
    ensures { result ≡ is_bad_node at bytes.now }
{
    if at > MOST_NIBBLES {
        return true;
    }
    spells_too_deep(at, bytes, node) || (at > 0 && bytes == [0].as_slice())
}

/// The node that bytes spell where it hangs after `at` nibbles, unless they are bad.
pub fn read_node(at: usize, bytes: &[u8]) -> Option<NodeRef<'_>>
    ensures good { is_some result ≡ not (is_bad_node at bytes.entry.now) }
    ensures node { IfSome result (λ r. node_of_bytes bytes.entry.now ≡ Ok (node_of_ref r)) }
{
    let Ok(node) = NodeRef::read(bytes) else {
        return None;
    };
    if is_bad_below(at, bytes, &node) {
        return None;
    }
    Some(node)
}

// A hash in a node.
pub(crate) fn hash_of(bytes: &[u8]) -> [u8; 32]
    requires { length bytes.now ≡ 32 }
    ensures { result ≡ bytes.now }
{
    let mut hash = [0; 32];
    hash.copy_from_slice(bytes);
    hash
}
