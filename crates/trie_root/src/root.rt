ghost use Rattle.std.specs.Prelude.{◌≡◌, ℕ, [], ◌∷◌, ◌+◌, ◌-◌, ◌*◌, ◌<◌, ◌≤◌, All, IfOk, IfSome, drop, length, slice_index, take};
ghost use Rattle.sdb_base.specs.Nibbles.{nibbles_of};
ghost use Rattle.trie_model.specs.Limits.{AreWithin};
ghost use Rattle.trie_model.specs.Node.{HasCompactLength, merkle_value, spelling};
ghost use Rattle.trie_model.specs.Trie.{child_value, common, common_prefix, node_of_all, trie_root};
ghost use Rattle.trie_codec.specs.Slices.{bytes_in};
ghost use Rattle.trie_root.specs.Pairs.{AllWithin, KeysRise, state_of_pairs};
ghost use Rattle.trie_root.specs.inner.Groups.{GoesOn, HasNext, IsOtherNext, IsGroup, children_over, node_between, suffixes_from, value_ending_at};

use sdb_base::{Bytes, Nibbles, NodeHash, OutOfMemory, Pair, Pairs};
use sdb_blake2::hash256;
use std::alloc::Global;
use trie_codec::{ChildList, MerkleValue, Plain, encode, encode_leaf, encode_parts};

// A spelling of at least as many bytes is replaced by its hash.
const HASH_LEN: usize = 32;

/// The root of the state of these keys and values: the hash of its trie's root node. Keys rise strictly, each of at
/// most 1,024 bytes, and values have at most 4,194,304. `OutOfMemory` comes only for want of memory.
pub fn root_of(alloc: Global, pairs: &Pairs) -> Result<NodeHash, OutOfMemory>
    requires rise { KeysRise pairs.now }
    requires within { AllWithin pairs.now }
    ensures { IfOk result (λ root. root.0 ≡ trie_root (state_of_pairs pairs.now)) }
{
    let spelled = if pairs.is_empty() {
        spell_empty(alloc)?
    } else {
        spell_group(alloc, pairs.as_slice(), 0)?
    };
    let hash = hash256(spelled.as_slice());
    Ok(NodeHash(hash))
}

// The spelling of the node of the empty trie.
#[tactic(auto, unfolding(trie_model::specs::Trie::node_over))]
fn spell_empty(alloc: Global) -> Result<Bytes, OutOfMemory>
    ensures { IfOk result (λ bytes. bytes ≡ spelling (node_of_all [])) }
{
    let node = Plain {
        partial: Nibbles::new(alloc),
        value: None,
        children: ChildList::new(),
    };
    encode(alloc, &node)
}

// The spelling of the node over what the keys have after `at` nibbles.
#[cycle(nodes)]
fn spell_group(alloc: Global, pairs: &[Pair], at: usize) -> Result<Bytes, OutOfMemory>
    requires some { 1 ≤ length pairs.now }
    requires group { IsGroup at pairs.now }
    ensures { IfOk result (λ bytes. bytes ≡ spelling (node_of_all (suffixes_from at pairs.now))) }
{
    if let [only] = pairs {
        return spell_leaf(alloc, only, at);
    }
    let end = at + shared_of_ends(pairs, at);
    let children = children_of(alloc, going_on(pairs, end), end)?;
    spell_node(alloc, &pairs[0], at, end, children.as_slice())
}

// The spelling of the leaf over one pair.
fn spell_leaf(alloc: Global, pair: &Pair, at: usize) -> Result<Bytes, OutOfMemory>
    requires within { AreWithin pair.now.key pair.now.value }
    requires at { at ≤ 2 * length pair.now.key }
    ensures { IfOk result (λ bytes. bytes ≡ spelling (node_of_all (suffixes_from at (pair.now ∷ [])))) }
{
    encode_leaf(alloc, pair.key.as_slice(), at, pair.value.as_slice())
}

// The Merkle values of the children of the node whose partial key ends at `at` nibbles, one for each next nibble.
#[cycle(nodes)]
fn children_of(
    alloc: Global,
    pairs: &[Pair],
    at: usize,
) -> Result<Vec<Option<MerkleValue>>, OutOfMemory>
    requires at { at ≤ 2048 }
    requires pairs { GoesOn at pairs.now }
    ensures { IfOk result (λ children. children.items ≡ children_over (suffixes_from at pairs.now)) }
{
    let mut children = Vec::with_capacity(alloc, 16)?;
    let mut rest = pairs;
    for nibble in 0..16u8 {
        let count = group_len(rest, at, nibble);
        children.push(child_of(alloc, &rest[..count], at)?)?;
        rest = &rest[count..];
    }
    Ok(children)
}

// The Merkle value of the node over pairs that agree in one nibble more, if there are any.
#[cycle(nodes)]
fn child_of(alloc: Global, pairs: &[Pair], at: usize) -> Result<Option<MerkleValue>, OutOfMemory>
    requires at { at ≤ 2048 }
    requires group { IsGroup (at + 1) pairs.now }
    ensures { IfOk result (λ child. child
        ≡ child_value node_of_all (suffixes_from (at + 1) pairs.now)) }
{
    if pairs.is_empty() {
        return Ok(None);
    }
    let spelled = spell_group(alloc, pairs, at + 1)?;
    Ok(Some(merkle_value(spelled.as_slice())))
}

// How many nibbles after `at` all keys share: those that the first and the last share.
fn shared_of_ends(pairs: &[Pair], at: usize) -> usize
    requires some { 1 ≤ length pairs.now }
    requires group { IsGroup at pairs.now }
    ensures { result ≡ length (common_prefix (suffixes_from at pairs.now)) }
{
    let first = pairs[0].key.as_slice();
    let last = pairs[pairs.len() - 1].key.as_slice();
    shared_len(first, last, at)
}

// The spelling of the node over pairs whose keys share what the first has from `at` to `end`.
fn spell_node(
    alloc: Global,
    first: &Pair,
    at: usize,
    end: usize,
    children: &[Option<MerkleValue>],
) -> Result<Bytes, OutOfMemory>
    requires within { AreWithin first.now.key first.now.value }
    requires rises { at ≤ end }
    requires end { end ≤ 2 * length first.now.key }
    requires sixteen { length children.now ≡ 16 }
    requires short { All (λ c. IfSome c HasCompactLength) children.now }
    ensures { IfOk result (λ bytes. bytes ≡ spelling (node_between first.now at end children.now)) }
{
    let partial = nibbles_between(alloc, first.key.as_slice(), at, end)?;
    encode_parts(
        alloc,
        partial.as_slice(),
        value_ending_at(first, end),
        children,
    )
}

// The pair's value, if its key ends at `at` nibbles.
fn value_ending_at(pair: &Pair, at: usize) -> Option<&[u8]>
    requires short { length pair.now.key ≤ 1024 }
    requires at { at ≤ 2 * length pair.now.key }
    ensures { bytes_in result ≡ value_ending_at at pair.now }
{
    if 2 * pair.key.len() == at {
        Some(pair.value.as_slice())
    } else {
        None
    }
}

// The pairs but for the one, if there is one, whose key ends at `at` nibbles.
fn going_on(pairs: &[Pair], at: usize) -> &[Pair]
    requires some { 1 ≤ length pairs.now }
    requires group { IsGroup at pairs.now }
    ensures on { GoesOn at result.now }
    ensures same { children_over (suffixes_from at result.now)
        ≡ children_over (suffixes_from at pairs.now) }
{
    if 2 * pairs[0].key.len() == at {
        &pairs[1..]
    } else {
        pairs
    }
}

// How many pairs at the front go on with the nibble.
fn group_len(pairs: &[Pair], at: usize, nibble: u8) -> usize
    requires { GoesOn at pairs.now }
    ensures fits { result ≤ length pairs.now }
    ensures group { All (HasNext at nibble) (take result pairs.now) }
    ensures next { IsOtherNext at nibble (drop result pairs.now) }
{
    for (i, pair) in pairs.iter().enumerate() {
        if nibble_at(pair.key.as_slice(), at) != nibble {
            return i;
        }
    }
    pairs.len()
}

// How many nibbles two keys share after `at`.
fn shared_len(a: &[u8], b: &[u8], at: usize) -> usize
    requires short_a { length a.now ≤ 1024 }
    requires short_b { length b.now ≤ 1024 }
    requires at_a { at ≤ 2 * length a.now }
    requires at_b { at ≤ 2 * length b.now }
    ensures { result ≡ length (common (drop at (nibbles_of a.now)) (drop at (nibbles_of b.now))) }
{
    let most = 2 * a.len().min(b.len());
    for i in at..most {
        if nibble_at(a, i) != nibble_at(b, i) {
            return i - at;
        }
    }
    most - at
}

// A key's nibbles from `from` to `end`.
fn nibbles_between(
    alloc: Global,
    key: &[u8],
    from: usize,
    end: usize,
) -> Result<Nibbles, OutOfMemory>
    requires rises { from ≤ end }
    requires end { end ≤ 2 * length key.now }
    ensures value { IfOk result (λ nibbles. nibbles
        ≡ take (end - from) (drop from (nibbles_of key.now))) }
    ensures below { IfOk result (λ nibbles. All (λ n. n < 16) nibbles) }
{
    let mut nibbles = Vec::with_capacity(alloc, end - from)?;
    for i in from..end {
        nibbles.push(nibble_at(key, i))?;
    }
    Ok(Nibbles::from_vec(nibbles))
}

// A key's nibble.
fn nibble_at(key: &[u8], i: usize) -> u8
    requires { i < 2 * length key.now }
    ensures value { result ≡ slice_index (nibbles_of key.now) i }
    ensures below { result < 16 }
{
    let byte = key[i / 2];
    if i % 2 == 0 { byte / 16 } else { byte % 16 }
}

// A spelling's Merkle value.
#[tactic(auto, unfolding(trie_model::specs::Node::merkle_value))]
fn merkle_value(spelled: &[u8]) -> MerkleValue
    ensures { result ≡ merkle_value spelled.now }
{
    if spelled.len() < HASH_LEN {
        MerkleValue::of(spelled)
    } else {
        MerkleValue::of(&hash256(spelled))
    }
}
