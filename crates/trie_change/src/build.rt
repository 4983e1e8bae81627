ghost use Rattle.std.specs.Prelude.{◌≡◌, ◌≢◌, ℕ, suc, ◌+◌, ◌-◌, ◌<◌, ◌≤◌, List, [], ◌++◌, ◌∷◌, All, IfOk, IfSome, OnOk, Some, None, drop, filter, length, replicate, slice_index_or, take, true, false};
ghost use Rattle.std.specs.Option.{option_copied};
ghost use Rattle.sdb_blake2.specs.Blake2b.{H};
ghost use Rattle.trie_model.specs.Limits.{most_in_value};
ghost use Rattle.trie_model.specs.Node.{IsPartial, merkle_value, spelling};
ghost use Rattle.trie_model.specs.Nodes.{PathNode};
ghost use Rattle.trie_model.specs.Trie.{below, child_value, common, node_of_all};
ghost use Rattle.trie_codec.specs.Parts.{node_with};
ghost use Rattle.trie_codec.specs.Slices.{bytes_in};
ghost use Rattle.trie_change.specs.Frontier.{IsLimited};
ghost use Rattle.trie_change.specs.inner.Built.{FitsNode, IsMade, IsSpelled, IsShortValue, ItemBranch, ItemGroup, is_made, made_of_group, node_of_group, nodes_at, nodes_below, values_below};
ghost use Rattle.trie_change.specs.inner.Pieces.{IsCutAt, IsKeyAlone, IsUncut, all_items, piece_hash, piece_path, piece_rank, piece_value, sibling_items};
ghost use Rattle.trie_change.specs.inner.Diffs.{AreShort, Comparison, IsComparison, after_nodes, most_in_node};

use crate::diff::Diff;
use crate::frontier::{Piece, Sibling};
use crate::in_order::path_of;
use sdb_base::{Bytes, Nibbles, NodeHash, OutOfMemory};
use std::alloc::Global;
use trie_codec::{ChildList, Plain, SpelledChildren, encode, encode_spelled};

// A spelling of at least as many bytes is stored, and stands in the node above by its hash.
const HASH_LEN: usize = 32;

// The node over some items: a stub's, which stays, or a new one's spelling.
#[derive(Debug, Drop)]
enum Made {
    Kept(NodeHash),
    New(Bytes),
}

/// The root over all items. The stored nodes that are made, from the highest path down to the root, go to the comparison.
pub(crate) fn root_of(
    alloc: Global,
    diff: &mut Diff,
    items: &[Piece],
) -> Result<NodeHash, OutOfMemory>
    requires limited { All IsLimited (all_items items.now) }
    requires short { AreShort diff.old.puts.items }
    ensures still_short { OnOk result (AreShort diff.new.puts.items) }
    ensures root { (g : ItemGroup 0 (all_items items.now)) (c : Comparison) → IsComparison diff.old c
        → IfOk result (λ root. (root.0 ≡ H (node_of_group g).bytes)
        × IsComparison diff.new (after_nodes c (made_of_group g))) }
{
    match root_made(alloc, diff, items)? {
        Made::Kept(hash) => Ok(hash),
        Made::New(bytes) => diff.emit(&[], bytes),
    }
}

// The root node, that of the empty trie where there are no items.
fn root_made(alloc: Global, diff: &mut Diff, items: &[Piece]) -> Result<Made, OutOfMemory>
    requires limited { All IsLimited (all_items items.now) }
    requires short { AreShort diff.old.puts.items }
    ensures still_short { OnOk result (AreShort diff.new.puts.items) }
    ensures fits { IfOk result FitsNode }
    ensures made { (g : ItemGroup 0 (all_items items.now)) (c : Comparison) → IsComparison diff.old c
        → IfOk result (IsMade c (node_of_group g) (made_of_group g) diff.new) }
{
    if items.is_empty() {
        return Ok(Made::New(spell_empty(alloc)?));
    }
    made_of(alloc, diff, items, 0)
}

// The spelling of the node of the empty trie.
#[tactic(auto, unfolding(trie_model::specs::Trie::node_over, trie_model::specs::Node::spelling))]
fn spell_empty(alloc: Global) -> Result<Bytes, OutOfMemory>
    ensures spelled { IfOk result (λ bytes. bytes ≡ spelling (node_of_all [])) }
    ensures fits { IfOk result (λ bytes. length bytes ≤ most_in_node) }
{
    let node = Plain {
        partial: Nibbles::new(alloc),
        value: None,
        children: ChildList::new(),
    };
    encode(alloc, &node)
}

// The node over items that agree in their first `at` nibbles, of which there is one at least. The stored ones below it, from
// the highest path down, go to the comparison.
#[cycle(nodes)]
fn made_of(alloc: Global, diff: &mut Diff, items: &[Piece], at: usize) -> Result<Made, OutOfMemory>
    requires some { 1 ≤ length items.now }
    requires limited { All IsLimited (all_items items.now) }
    requires long { All (λ p. at ≤ length (piece_path p)) items.now }
    requires short { AreShort diff.old.puts.items }
    ensures still_short { OnOk result (AreShort diff.new.puts.items) }
    ensures fits { IfOk result FitsNode }
    ensures made { (g : ItemGroup at (all_items items.now)) (c : Comparison) → IsComparison diff.old c
        → IfOk result (IsMade c (node_of_group g) (made_of_group g) diff.new) }
{
    if let Some(hash) = hash_here(&items[0], at) {
        return Ok(Made::Kept(*hash));
    }
    let end = at + shared_of_ends(items, at);
    if is_key_alone(items, end) {
        return made_leaf(alloc, &items[0], at, end);
    }
    let mut children = diff.no_children(alloc)?;
    put_children(alloc, diff, items, end, &mut children)?;
    let made = made_node(alloc, &items[0], at, end, &children)?;
    diff.keep_buffer(children)?;
    Ok(made)
}

// Puts the Merkle values of the children of the node whose partial key ends at `at` nibbles, one for each next nibble. They
// are made and spelled from the last one on, so that stored nodes come from the highest path down.
#[cycle(nodes)]
fn put_children(
    alloc: Global,
    diff: &mut Diff,
    items: &[Piece],
    at: usize,
    children: &mut SpelledChildren,
) -> Result<(), OutOfMemory>
    requires at { at ≤ 2048 }
    requires limited { All IsLimited (all_items items.now) }
    requires short { AreShort diff.old.puts.items }
    requires none { children.old ≡ [] }
    ensures still_short { OnOk result (AreShort diff.new.puts.items) }
    ensures sixteen { OnOk result (length children.new ≡ 16) }
    ensures fits { OnOk result (All (λ child. IfSome child IsShortValue) children.new) }
    ensures children { (b : ItemBranch at (all_items items.now)) (c : Comparison) → IsComparison diff.old c
        → OnOk result ((children.new ≡ values_below b.group.suffixes b.group.path)
        × IsComparison diff.new (after_nodes c (filter (is_made b.group.under) (nodes_below b.group.suffixes b.group.path)))) }
{
    let mut rest = items;
    let mut nodes: &[Sibling] = &[];
    for count in 0..16u8 {
        (rest, nodes) = left_here(rest, nodes, at);
        match nodes.split_last() {
            Some((last, others)) if last.nibble == 15 - count => {
                put_hash(children, &last.hash);
                nodes = others;
            }
            Some(_) => children.put_none(),
            None => {
                let start = run_start(rest, at, 15 - count);
                put_child(alloc, diff, &rest[start..], at + 1, children)?;
                rest = &rest[..start];
            }
        }
    }
    Ok(())
}

// Whether there is one key and no more, which ends at `at` nibbles.
fn is_key_alone(items: &[Piece], at: usize) -> bool
    ensures { result ≡ true → IsKeyAlone at items.now }
{
    match items {
        [Piece::Entry(entry)] => entry.path.as_slice().len() == at,
        _ => false,
    }
}

// Puts the Merkle value of the node over items that agree in their first `at` nibbles, or that there is none.
#[cycle(nodes)]
fn put_child(
    alloc: Global,
    diff: &mut Diff,
    items: &[Piece],
    at: usize,
    children: &mut SpelledChildren,
) -> Result<(), OutOfMemory>
    requires at { 1 ≤ at }
    requires limited { All IsLimited (all_items items.now) }
    requires long { All (λ p. at ≤ length (piece_path p)) items.now }
    requires short { AreShort diff.old.puts.items }
    requires few { length children.old < 16 }
    ensures still_short { OnOk result (AreShort diff.new.puts.items) }
    ensures one { OnOk result (length children.new ≡ length children.old + 1) }
    ensures fits { All (λ child. IfSome child IsShortValue) children.old
        → OnOk result (All (λ child. IfSome child IsShortValue) children.new) }
    ensures child { (g : ItemGroup at (all_items items.now)) (c : Comparison) → IsComparison diff.old c
        → OnOk result ((children.new ≡ child_value node_of_all (below g.path g.suffixes) ∷ children.old)
        × IsComparison diff.new (after_nodes c (filter (is_made g.under) (nodes_at g.suffixes g.path)))) }
{
    if items.is_empty() {
        children.put_none();
        return Ok(());
    }
    if let Some(hash) = hash_here(&items[0], at) {
        put_hash(children, hash);
        return Ok(());
    }
    let made = made_of(alloc, diff, items, at)?;
    put_value(diff, path_before(&items[0], at), made, children)
}

// Puts a hash as a Merkle value.
fn put_hash(children: &mut SpelledChildren, hash: &NodeHash)
    requires { length children.old < 16 }
    ensures put { children.new ≡ Some hash.now.0 ∷ children.old }
    ensures short { IsShortValue hash.now.0 }
{
    children.put(&hash.0);
}

// Puts the Merkle value of a node below the root, which goes to the comparison if it is new and stored. What hashing and
// values need on the stack stays out of the frames of the recursion, which may be 2,049 levels deep.
#[inline(never)]
fn put_value(
    diff: &mut Diff,
    path: &[u8],
    made: Made,
    children: &mut SpelledChildren,
) -> Result<(), OutOfMemory>
    requires fits { FitsNode made }
    requires short { AreShort diff.old.puts.items }
    requires few { length children.old < 16 }
    ensures still_short { OnOk result (AreShort diff.new.puts.items) }
    ensures one { OnOk result (length children.new ≡ length children.old + 1) }
    ensures fits { All (λ child. IfSome child IsShortValue) children.old
        → OnOk result (All (λ child. IfSome child IsShortValue) children.new) }
    ensures value { (n : PathNode) (all : List PathNode) (c : Comparison) → n.path ≡ path.now → (n.path ≢ [])
        → IsMade c n all diff.old made
        → OnOk result ((children.new ≡ Some (merkle_value n.bytes) ∷ children.old) × IsComparison diff.new (after_nodes c all)) }
{
    match made {
        Made::Kept(hash) => put_hash(children, &hash),
        Made::New(bytes) => {
            if bytes.len() < HASH_LEN {
                children.put(bytes.as_slice());
                return Ok(());
            }
            let hash = diff.emit(path, bytes)?;
            put_hash(children, &hash);
        }
    }
    Ok(())
}

// What is left of pieces and of siblings: where no sibling is left, the last piece's, if it is siblings that part after `at`
// nibbles.
fn left_here<'a>(rest: &'a [Piece], nodes: &'a [Sibling], at: usize) -> (&'a [Piece], &'a [Sibling])
    ensures same { (end : List ℕ) → length end ≡ at → (other : List ℕ) × (length other ≡ at)
        × (all_items rest.now ++ sibling_items end nodes.now ≡ all_items result.0.now ++ sibling_items other result.1.now) }
    ensures none { (p : Piece) (before : List Piece) → result.1.now ≡ [] → result.0.now ≡ before ++ p ∷ [] → IsUncut at p }
    ensures front { result.0.now ≡ take (length result.0.now) rest.now }
{
    if nodes.is_empty() {
        return siblings_here(rest, at);
    }
    (rest, nodes)
}

// The pieces without the last, and the nodes of that, where it is siblings that part after `at` nibbles.
fn siblings_here(items: &[Piece], at: usize) -> (&[Piece], &[Sibling])
    ensures cut { IsCutAt at items.now result.0.now result.1.now }
    ensures none { (p : Piece) (before : List Piece) → result.1.now ≡ [] → result.0.now ≡ before ++ p ∷ [] → IsUncut at p }
    ensures front { result.0.now ≡ take (length result.0.now) items.now }
{
    if let Some((Piece::Siblings(siblings), others)) = items.split_last() {
        if siblings.end.len() == at {
            return (others, siblings.nodes.as_slice());
        }
    }
    (items, &[])
}

// The hash of a stub whose path has `at` nibbles.
fn hash_here(item: &Piece, at: usize) -> Option<&NodeHash>
    ensures { option_copied result ≡ piece_hash at item.now }
{
    match item {
        Piece::Entry(_) | Piece::Siblings(_) => None,
        Piece::Stub(stub) => {
            if stub.path.as_slice().len() == at {
                Some(&stub.hash)
            } else {
                None
            }
        }
    }
}

// An item's first `at` nibbles.
fn path_before(item: &Piece, at: usize) -> &[u8]
    requires { at ≤ length (piece_path item.now) }
    ensures { result.now ≡ take at (piece_path item.now) }
{
    &path_of(item)[..at]
}

// How many nibbles the first and the last item share after `at`.
fn shared_of_ends(items: &[Piece], at: usize) -> usize
    requires some { 1 ≤ length items.now }
    ensures { (d : Piece) → result ≡ length (common (drop at (piece_path (slice_index_or items.now 0 d)))
        (drop at (piece_path (slice_index_or items.now (length items.now - 1) d)))) }
{
    let first = path_of(&items[0]);
    if items.len() == 1 {
        return first.len().saturating_sub(at);
    }
    let last = path_of(&items[items.len() - 1]);
    shared_len(first, last, at)
}

// How many nibbles two paths share after `at`.
fn shared_len(a: &[u8], b: &[u8], at: usize) -> usize
    ensures { result ≡ length (common (drop at a.now) (drop at b.now)) }
{
    let most = a.len().min(b.len());
    for i in at..most {
        if a[i] != b[i] {
            return i - at;
        }
    }
    most.saturating_sub(at)
}

// From which item on all go on with the nibble after `at` nibbles.
fn run_start(items: &[Piece], at: usize, nibble: u8) -> usize
    ensures fits { result ≤ length items.now }
    ensures run { All (λ p. piece_rank at p ≡ suc nibble) (drop result items.now) }
    ensures other { (d : Piece) → 0 < result → piece_rank at (slice_index_or items.now (result - 1) d) ≢ suc nibble }
{
    let mut start = items.len();
    while start > 0 && goes_on(&items[start - 1], at, nibble) {
        start -= 1;
    }
    start
}

// Whether an item goes on with the nibble after `at` nibbles.
fn goes_on(item: &Piece, at: usize, nibble: u8) -> bool
    ensures yes { result ≡ true → piece_rank at item.now ≡ suc nibble }
    ensures no { result ≡ false → piece_rank at item.now ≢ suc nibble }
{
    match path_of(item).get(at) {
        None => false,
        Some(next) => *next == nibble,
    }
}

// The value of the key that ends at `at` nibbles, if the item is one.
fn value_here(item: &Piece, at: usize) -> Option<&[u8]>
    ensures { bytes_in result ≡ piece_value at item.now }
{
    match item {
        Piece::Entry(entry) => {
            if entry.path.as_slice().len() == at {
                Some(entry.value.as_slice())
            } else {
                None
            }
        }
        Piece::Stub(_) | Piece::Siblings(_) => None,
    }
}

// The leaf of a key that is alone, which has `at` nibbles above it and ends at `end`; not inlined, as above.
#[inline(never)]
fn made_leaf(alloc: Global, first: &Piece, at: usize, end: usize) -> Result<Made, OutOfMemory>
    requires limited { IsPartial (piece_path first.now) }
    requires value { IfSome (piece_value end first.now) (λ v. length v ≤ most_in_value) }
    requires rises { at ≤ end }
    requires end { end ≤ length (piece_path first.now) }
    ensures fits { IfOk result FitsNode }
    ensures spelled { IfOk result (IsSpelled
        (spelling (node_with (take (end - at) (drop at (piece_path first.now))) (piece_value end first.now) (replicate 16 None)))) }
{
    let none = SpelledChildren::none(alloc);
    made_node(alloc, first, at, end, &none)
}

// The node over items that share what the first has from `at` to `end`; not inlined, as above.
#[inline(never)]
fn made_node(
    alloc: Global,
    first: &Piece,
    at: usize,
    end: usize,
    children: &SpelledChildren,
) -> Result<Made, OutOfMemory>
    requires limited { IsPartial (piece_path first.now) }
    requires value { IfSome (piece_value end first.now) (λ v. length v ≤ most_in_value) }
    requires rises { at ≤ end }
    requires end { end ≤ length (piece_path first.now) }
    requires sixteen { length children.now ≡ 16 }
    requires short { All (λ child. IfSome child IsShortValue) children.now }
    ensures fits { IfOk result FitsNode }
    ensures spelled { IfOk result (IsSpelled
        (spelling (node_with (take (end - at) (drop at (piece_path first.now))) (piece_value end first.now) children.now))) }
{
    let partial = &path_of(first)[at..end];
    let bytes = encode_spelled(alloc, partial, value_here(first, end), children)?;
    Ok(Made::New(bytes))
}
