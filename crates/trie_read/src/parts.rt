ghost use Rattle.std.specs.Prelude.{◌≡◌, ◌++◌, ◌∷◌, [], length, IfOk, OnOk};
ghost use Rattle.trie_codec.specs.NodeParts.{child_bytes, node_of_ref};
ghost use Rattle.trie_codec.specs.Slices.{bytes_in};
ghost use Rattle.trie_read.specs.inner.Descent.{IsSized};
ghost use Rattle.trie_read.specs.inner.Parts.{as_pieces, child_sought, key_of_nibbles, own_parts, parts_sought, sought_keys, sought_paths};

use crate::descent::{MOST_LEVELS, hash_of};
use sdb_base::{Bytes, NodeHash, OutOfMemory};
use smallvec::SmallVec;
use std::alloc::Global;
use trie_codec::{ChildRef, NodeRef};

/// Nibbles from the root on, to where a node hangs or to a key's end.
pub(crate) type Path = SmallVec<u8, 64>;

/// A stored node, by its hash and by where it hangs.
#[derive(Debug, Drop)]
pub(crate) struct Stored {
    pub(crate) hash: NodeHash,
    pub(crate) path: Path,
}

/// What a node has, in the order of keys: a key, or a stored node that stands for all keys below it.
#[derive(Debug, Drop)]
pub(crate) enum Part {
    Key(Bytes),
    Node(Stored),
}

/// Which keys are sought, by nibbles.
#[derive(Debug, Clone, Copy)]
pub(crate) enum Sought<'a> {
    /// Those that begin with these.
    Beginning(&'a [u8]),
    /// Those above these.
    Above(&'a [u8]),
}

impl Sought<'_> {
    // Whether a key is sought.
    fn keeps(self, key: &[u8]) -> bool
        ensures { result ≡ sought_keys self.entry key.now }
    {
        match self {
            Sought::Beginning(prefix) => key.starts_with(prefix),
            Sought::Above(nibbles) => nibbles.cmp(key).is_lt(),
        }
    }

    // Whether a key below a path can be sought.
    fn goes_into(self, path: &[u8]) -> bool
        ensures { result ≡ sought_paths self.entry path.now }
    {
        match self {
            Sought::Beginning(prefix) => prefix.starts_with(path) || path.starts_with(prefix),
            Sought::Above(nibbles) => nibbles.starts_with(path) || nibbles.cmp(path).is_lt(),
        }
    }
}

// The bytes of nibbles; a last one alone is left out.
fn key_of(alloc: Global, nibbles: &[u8]) -> Result<Bytes, OutOfMemory>
    ensures { IfOk result (λ b. b ≡ key_of_nibbles nibbles.now) }
{
    let mut bytes = Vec::with_capacity(alloc, nibbles.len() / 2)?;
    for i in 0..nibbles.len() / 2 {
        bytes.push(16 * (nibbles[2 * i] % 16) + nibbles[2 * i + 1] % 16)?;
    }
    Ok(Bytes::from_vec(bytes))
}

// Where a node's partial key ends, whose path this is.
fn end_of(alloc: Global, path: &[u8], node: &NodeRef) -> Result<Path, OutOfMemory>
    ensures { IfOk result (λ p. p.items ≡ path.now ++ (node_of_ref node.now).partial) }
{
    let mut end = SmallVec::from_slice(alloc, path)?;
    for i in 0..node.partial_len() {
        end.push(node.nibble(i))?;
    }
    Ok(end)
}

// Where a child hangs.
fn child_path(alloc: Global, end: &[u8], nibble: u8) -> Result<Path, OutOfMemory>
    ensures { IfOk result (λ p. p.items ≡ end.now ++ nibble ∷ []) }
{
    let mut path = SmallVec::from_slice(alloc, end)?;
    path.push(nibble)?;
    Ok(path)
}

// Adds a node's own key, if it has a value and is sought.
fn put_own(
    alloc: Global,
    sought: Sought,
    key: &[u8],
    value: Option<&[u8]>,
    out: &mut Vec<Part>,
) -> Result<(), OutOfMemory>
    ensures { OnOk result (as_pieces out.new.items
        ≡ as_pieces out.old.items ++ own_parts (sought_keys sought.entry) key.now (bytes_in value.entry)) }
{
    if value.is_some() && sought.keeps(key) {
        out.push(Part::Key(key_of(alloc, key)?))?;
    }
    Ok(())
}

// Adds what a node has whose path this is, and the inline nodes in it.
#[cycle(parts)]
fn put_parts(
    alloc: Global,
    levels: u8,
    sought: Sought,
    path: &[u8],
    node: &NodeRef,
    out: &mut Vec<Part>,
) -> Result<(), OutOfMemory>
    ensures { OnOk result (as_pieces out.new.items
        ≡ as_pieces out.old.items ++ parts_sought sought.entry levels (node_of_ref node.now) path.now) }
{
    if levels == 0 {
        return Ok(());
    }
    let end = end_of(alloc, path, node)?;
    let key = end.as_slice();
    put_own(alloc, sought, key, node.value(), out)?;
    for i in 0..16u8 {
        put_child(alloc, levels - 1, sought, key, i, node.child(i), out)?;
    }
    Ok(())
}

// Adds what there is at a child.
#[cycle(parts)]
fn put_child(
    alloc: Global,
    levels: u8,
    sought: Sought,
    end: &[u8],
    nibble: u8,
    child: ChildRef,
    out: &mut Vec<Part>,
) -> Result<(), OutOfMemory>
    requires { IsSized child }
    ensures { OnOk result (as_pieces out.new.items
        ≡ as_pieces out.old.items ++ child_sought sought.entry levels (end.now ++ nibble ∷ []) (child_bytes child.entry)) }
{
    if let ChildRef::None = child {
        return Ok(());
    }
    let path = child_path(alloc, end, nibble)?;
    if !sought.goes_into(path.as_slice()) {
        return Ok(());
    }
    match child {
        ChildRef::None => Ok(()),
        ChildRef::Hashed(hash) => {
            let hash = NodeHash(hash_of(hash));
            out.push(Part::Node(Stored { hash, path }))?;
            Ok(())
        }
        ChildRef::Inline(bytes) => match NodeRef::read(bytes) {
            Ok(node) => put_parts(alloc, levels, sought, path.as_slice(), &node, out),
            Err(_) => Ok(()),
        },
    }
}

/// What a node has whose path this is, and the inline nodes in it, in the order of keys.
pub(crate) fn parts_at(
    alloc: Global,
    sought: Sought,
    path: &[u8],
    node: &NodeRef,
) -> Result<Vec<Part>, OutOfMemory>
    ensures { IfOk result (λ parts. as_pieces parts.items ≡ parts_sought sought.entry 33 (node_of_ref node.now) path.now) }
{
    let mut parts = Vec::new(alloc);
    put_parts(alloc, MOST_LEVELS, sought, path, node, &mut parts)?;
    Ok(parts)
}
