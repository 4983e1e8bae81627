ghost use Rattle.std.specs.Prelude.{◌≡◌, ◌+◌, ◌≤◌, ◌<◌, ◌++◌, ◌∷◌, ℕ, List, [], None, Some, false, length, slice_index_or, IfOk, IfSome, OnOk};
ghost use Rattle.std.specs.List.{AllByRecursion};
ghost use Rattle.trie_codec.specs.NodeParts.{child_bytes, node_of_ref};
ghost use Rattle.trie_codec.specs.Slices.{bytes_in};
ghost use Rattle.trie_change.specs.inner.InOrder.{IsRising};
ghost use Rattle.trie_change.specs.inner.Pieces.{AreAside, IsAside, all_items, sibling_items};
ghost use Rattle.trie_change.specs.inner.Known.{HasItsSize, all_known, known_at, known_in, own_known, stub_known};

use crate::frontier::{Entry, Path, Piece, Sibling, Siblings, Stub};
use crate::nibbles::push_nibbles;
use crate::settings::{Setting, nibbles_set};
use sdb_base::{Bytes, NodeHash, OutOfMemory};
use smallvec::SmallVec;
use std::alloc::Global;
use trie_codec::{ChildRef, Kind, NodeRef};

/// A node and the inline ones in it are at most so many, one below the other, since an inline one has fewer than 32 bytes.
const MOST_LEVELS: u8 = 33;

/// Of most nodes there are at most so many pieces.
const FIRST_ROOM: usize = 8;

/// A key has at most so many nibbles.
const MOST_NIBBLES: usize = 2048;

/// So few nibbles are copied one by one.
const FEW_NIBBLES: usize = 8;

// The same path once more.
fn path_from(alloc: Global, nibbles: &[u8]) -> Result<Path, OutOfMemory>
    ensures { IfOk result (λ p. p.items ≡ nibbles.now) }
{
    if nibbles.len() > FEW_NIBBLES {
        return SmallVec::from_slice(alloc, nibbles);
    }
    let mut path = SmallVec::new(alloc);
    for nibble in nibbles {
        path.push_reserved(*nibble);
    }
    Ok(path)
}

// Where a node's partial key ends, whose path this is.
fn end_of(alloc: Global, path: &[u8], node: &NodeRef) -> Result<Path, OutOfMemory>
    ensures { IfOk result (λ p. p.items ≡ path.now ++ (node_of_ref node.now).partial) }
{
    let mut end = path_from(alloc, path)?;
    let mut bytes = node.partial_bytes();
    if node.partial_len() % 2 == 1 {
        end.push(bytes[0] % 16)?;
        bytes = &bytes[1..];
    }
    push_nibbles(&mut end, bytes)?;
    Ok(end)
}

// Where a child hangs.
fn child_path(alloc: Global, end: &[u8], nibble: u8) -> Result<Path, OutOfMemory>
    ensures { IfOk result (λ p. p.items ≡ end.now ++ nibble ∷ []) }
{
    let mut path = path_from(alloc, end)?;
    path.push(nibble)?;
    Ok(path)
}

// A hash in a node.
fn hash_of(bytes: &[u8]) -> [u8; 32]
    requires { length bytes.now ≡ 32 }
    ensures { result ≡ bytes.now }
{
    let mut hash = [0; 32];
    // Where its length is known it is copied in place, with no call.
    if bytes.len() == 32 {
        hash.copy_from_slice(bytes);
    }
    hash
}

// Adds a node's own key, if it has a value.
fn put_own(
    alloc: Global,
    key: &[u8],
    value: Option<&[u8]>,
    out: &mut Vec<Piece>,
) -> Result<(), OutOfMemory>
    ensures known { OnOk result (all_known (all_items out.new.items) ≡ all_known (all_items out.old.items) ++ own_known key.now (bytes_in value.entry)) }
    ensures apart { (settings : List Setting) → AllByRecursion (IsAside settings) out.old.items
        → OnOk result (AllByRecursion (IsAside settings) out.new.items) }
{
    let Some(value) = value else {
        return Ok(());
    };
    let path = path_from(alloc, key)?;
    let value = Bytes::from_slice(alloc, value)?;
    out.push(Piece::Entry(Entry { path, value }))?;
    Ok(())
}

// Adds a stored node by its hash. No key is so long that it could go on with a path above the limit.
fn put_stub(path: Path, hash: &[u8], out: &mut Vec<Piece>) -> Result<(), OutOfMemory>
    requires { length hash.now ≡ 32 }
    ensures known { OnOk result (all_known (all_items out.new.items) ≡ all_known (all_items out.old.items) ++ stub_known path.items hash.now) }
    ensures apart { (settings : List Setting) → AllByRecursion (IsAside settings) out.old.items
        → OnOk result (AllByRecursion (IsAside settings) out.new.items) }
{
    if path.len() > MOST_NIBBLES {
        return Ok(());
    }
    let hash = NodeHash(hash_of(hash));
    out.push(Piece::Stub(Stub { path, hash }))?;
    Ok(())
}

// Adds what a node has whose path this is, and the inline nodes in it.
#[cycle(expand)]
fn put_items(
    alloc: Global,
    levels: u8,
    path: &[u8],
    node: &NodeRef,
    out: &mut Vec<Piece>,
) -> Result<(), OutOfMemory>
    ensures known { OnOk result (all_known (all_items out.new.items)
        ≡ all_known (all_items out.old.items) ++ known_in levels (node_of_ref node.now) path.now) }
    ensures apart { (settings : List Setting) → AllByRecursion (IsAside settings) out.old.items
        → OnOk result (AllByRecursion (IsAside settings) out.new.items) }
{
    if levels == 0 {
        return Ok(());
    }
    let end = end_of(alloc, path, node)?;
    let key = end.as_slice();
    put_own(alloc, key, node.value(), out)?;
    for i in 0..16u8 {
        put_child(alloc, levels - 1, key, i, node.child(i), out)?;
    }
    Ok(())
}

// Adds what there is at a child.
#[cycle(expand)]
fn put_child(
    alloc: Global,
    levels: u8,
    end: &[u8],
    nibble: u8,
    child: ChildRef,
    out: &mut Vec<Piece>,
) -> Result<(), OutOfMemory>
    requires { HasItsSize child }
    ensures known { OnOk result (all_known (all_items out.new.items)
        ≡ all_known (all_items out.old.items) ++ known_at (known_in levels) (end.now ++ nibble ∷ []) (child_bytes child.entry)) }
    ensures apart { (settings : List Setting) → AllByRecursion (IsAside settings) out.old.items
        → OnOk result (AllByRecursion (IsAside settings) out.new.items) }
{
    if let ChildRef::None = child {
        return Ok(());
    }
    let path = child_path(alloc, end, nibble)?;
    match child {
        ChildRef::None => Ok(()),
        ChildRef::Hashed(hash) => put_stub(path, hash, out),
        ChildRef::Inline(bytes) => put_inline(alloc, levels, path.as_slice(), bytes, out),
    }
}

// Adds what an inline node has. It isn't inlined, since most children are hashed and need no room for a node on the stack.
#[cycle(expand)]
#[inline(never)]
fn put_inline(
    alloc: Global,
    levels: u8,
    path: &[u8],
    bytes: &[u8],
    out: &mut Vec<Piece>,
) -> Result<(), OutOfMemory>
    requires { length bytes.now < 32 }
    ensures known { OnOk result (all_known (all_items out.new.items)
        ≡ all_known (all_items out.old.items) ++ known_at (known_in levels) path.now (Some bytes.now)) }
    ensures apart { (settings : List Setting) → AllByRecursion (IsAside settings) out.old.items
        → OnOk result (AllByRecursion (IsAside settings) out.new.items) }
{
    match NodeRef::read(bytes) {
        Ok(node) => put_items(alloc, levels, path, &node, out),
        Err(_) => Ok(()),
    }
}

// Adds the siblings that were gathered: none, one as a stub, or more of them together.
fn put_run(
    alloc: Global,
    end: &[u8],
    nodes: Vec<Sibling>,
    out: &mut Vec<Piece>,
) -> Result<(), OutOfMemory>
    ensures items { OnOk result (all_known (all_items out.new.items) ≡ all_known (all_items out.old.items) ++ all_known (sibling_items end.now nodes.items)) }
    ensures apart { (settings : List Setting) → AreAside settings (sibling_items end.now nodes.items)
        → AllByRecursion (IsAside settings) out.old.items → OnOk result (AllByRecursion (IsAside settings) out.new.items) }
{
    let mut nodes = nodes;
    if nodes.len() >= 2 {
        let end = path_from(alloc, end)?;
        out.push(Piece::Siblings(Siblings { end, nodes }))?;
        return Ok(());
    }
    if let Some(node) = nodes.pop() {
        let path = child_path(alloc, end, node.nibble)?;
        let hash = node.hash;
        out.push(Piece::Stub(Stub { path, hash }))?;
    }
    Ok(())
}

// The hash of a child that is off the way to all keys that are set, and not deeper than a key goes.
fn sibling_at<'a>(child: ChildRef<'a>, end: &[u8], is_set: bool) -> Option<&'a [u8]>
    requires { HasItsSize child }
    ensures some { IfSome result (λ h. (is_set ≡ false) × (length end.now + 1 ≤ 2048)
        × (child_bytes child.entry ≡ Some h.now) × (length h.now ≡ 32)) }
{
    if is_set || end.len() >= MOST_NIBBLES {
        return None;
    }
    match child {
        ChildRef::Hashed(hash) => Some(hash),
        _ => None,
    }
}

// Adds a sibling to a run. The first makes room for as many as can follow it in a node.
fn push_sibling(run: &mut Vec<Sibling>, nibble: u8, hash: &[u8]) -> Result<(), OutOfMemory>
    requires { length hash.now ≡ 32 }
    ensures { (s : Sibling) → s.nibble ≡ nibble → s.hash.0 ≡ hash.now → OnOk result (run.new.items ≡ run.old.items ++ s ∷ []) }
{
    if run.is_empty() {
        run.reserve(16usize.saturating_sub(nibble as usize))?;
    }
    run.push(Sibling {
        nibble,
        hash: NodeHash(hash_of(hash)),
    })?;
    Ok(())
}

// Ends a run of siblings before a child, and adds what there is at the child.
fn put_after_run(
    alloc: Global,
    end: &[u8],
    nibble: u8,
    child: ChildRef,
    run: Vec<Sibling>,
    out: &mut Vec<Piece>,
) -> Result<(), OutOfMemory>
    requires { HasItsSize child }
    ensures known { OnOk result (all_known (all_items out.new.items)
        ≡ (all_known (all_items out.old.items) ++ all_known (sibling_items end.now run.items))
        ++ known_at (known_in 32) (end.now ++ nibble ∷ []) (child_bytes child.entry)) }
    ensures apart { (settings : List Setting) → AreAside settings (sibling_items end.now run.items)
        → AllByRecursion (IsAside settings) out.old.items → OnOk result (AllByRecursion (IsAside settings) out.new.items) }
{
    put_run(alloc, end, run, out)?;
    put_child(alloc, MOST_LEVELS - 1, end, nibble, child, out)
}

// What a node has whose partial key ends here, and the inline nodes in it, in the order of keys.
fn pieces_at(
    alloc: Global,
    settings: &[Setting],
    at: usize,
    end: &[u8],
    node: &NodeRef,
) -> Result<Vec<Piece>, OutOfMemory>
    ensures known { (path : List ℕ) → end.now ≡ path ++ (node_of_ref node.now).partial
        → IfOk result (λ pieces. all_known (all_items pieces.items) ≡ known_in 33 (node_of_ref node.now) path) }
    ensures apart { IsRising settings.now → IfOk result (λ pieces. AllByRecursion (IsAside settings.now) pieces.items) }
{
    let mut pieces = Vec::with_capacity(alloc, FIRST_ROOM)?;
    put_own(alloc, end, node.value(), &mut pieces)?;
    let Kind::Branch = node.kind() else {
        return Ok(pieces);
    };
    let set = nibbles_set(settings, at, end);
    let mut run = Vec::new(alloc);
    for i in 0..16u8 {
        let child = node.child(i);
        let is_set = set[i as usize];
        // A run goes on where there is nothing and no key that is set goes on with the nibble.
        if !is_set {
            if let ChildRef::None = child {
                continue;
            }
        }
        if let Some(hash) = sibling_at(child, end, is_set) {
            push_sibling(&mut run, i, hash)?;
            continue;
        }
        put_after_run(alloc, end, i, child, run, &mut pieces)?;
        run = Vec::new(alloc);
    }
    put_run(alloc, end, run, &mut pieces)?;
    Ok(pieces)
}

/// What a node has whose path this is, and the inline nodes in it, in the order of keys.
pub(crate) fn pieces_of(
    alloc: Global,
    settings: &[Setting],
    at: usize,
    path: &[u8],
    node: &NodeRef,
) -> Result<Vec<Piece>, OutOfMemory>
    ensures known { IfOk result (λ pieces. all_known (all_items pieces.items) ≡ known_in 33 (node_of_ref node.now) path.now) }
    ensures apart { IsRising settings.now → IfOk result (λ pieces. AllByRecursion (IsAside settings.now) pieces.items) }
{
    if node.partial_len() == 0 {
        return pieces_at(alloc, settings, at, path, node);
    }
    let end = end_of(alloc, path, node)?;
    pieces_at(alloc, settings, at, end.as_slice(), node)
}
