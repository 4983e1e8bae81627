ghost use Rattle.std.specs.Prelude.{◌≡◌, ◌+◌, ◌*◌, ◌%◌, ◌^◌, ◌<◌, ◌≤◌, ◌++◌, true, All, IfOk, IfSome, OnOk, drop, length};
ghost use Rattle.std.specs.Int.{w16, to_le_bytes};
ghost use Rattle.std.specs.List.{flat_map};
ghost use Rattle.sdb_scale.specs.Compact.{string};
ghost use Rattle.trie_model.specs.Nibbles.{packed, paired};
ghost use Rattle.trie_model.specs.Node.{IsPartial, HasCompactLength, IsSpellable, bitmap, branch_kind, has_child, header, optional_string, spelling, spelled};
ghost use Rattle.sdb_base.specs.Nibbles.{nibbles_of};
ghost use Rattle.trie_codec.specs.Parts.{leaf_with, node_of, node_with};
ghost use Rattle.trie_codec.specs.Slices.{bytes_in};

use crate::merkle_value::MerkleValue;
use crate::plain::Plain;
use crate::spelled_children::SpelledChildren;
use sdb_base::{Bytes, OutOfMemory};
use sdb_scale::{ScaleFault, put_bytes};
use std::alloc::{AllocError, Global};

/// The spelling of a node of these parts: at most 2,048 nibbles, each below 16, and a value and Merkle values of fewer
/// than 2^30 bytes. `OutOfMemory` comes only for want of memory.
pub fn encode(alloc: Global, node: &Plain) -> Result<Bytes, OutOfMemory>
    requires { IsSpellable (node_of node.now) }
    ensures { IfOk result (λ bytes. bytes ≡ spelling (node_of node.now)) }
{
    let value = match &node.value {
        None => None,
        Some(value) => Some(value.as_slice()),
    };
    encode_parts(
        alloc,
        node.partial.as_slice(),
        value,
        node.children.as_slice(),
    )
}

/// `encode` of parts that are borrowed: a partial key in nibbles, a value, and the Merkle values of sixteen children.
#[tactic(auto, unfolding(trie_model::specs::Node::spelling))]
pub fn encode_parts(
    alloc: Global,
    partial: &[u8],
    value: Option<&[u8]>,
    children: &[Option<MerkleValue>],
) -> Result<Bytes, OutOfMemory>
    requires { IsSpellable (node_with partial.now (bytes_in value) children.now) }
    ensures { IfOk result (λ bytes. bytes
        ≡ spelling (node_with partial.now (bytes_in value.entry) children.now)) }
{
    let is_branch = is_branch(children);
    let mut out = Vec::with_capacity(alloc, room_of(partial, value, is_branch))?;
    if is_branch {
        put_branch(&mut out, partial, value, children)?;
    } else {
        match value {
            None => out.push(0)?,
            Some(value) => put_leaf(&mut out, partial, value)?,
        }
    }
    Ok(Bytes::from_vec(out))
}

/// `encode_parts` of children that are spelled already: all sixteen were put.
#[tactic(auto, unfolding(trie_model::specs::Node::spelling))]
pub fn encode_spelled(
    alloc: Global,
    partial: &[u8],
    value: Option<&[u8]>,
    children: &SpelledChildren,
) -> Result<Bytes, OutOfMemory>
    requires { IsSpellable (node_with partial.now (bytes_in value) children.now) }
    ensures { IfOk result (λ bytes. bytes
        ≡ spelling (node_with partial.now (bytes_in value.entry) children.now)) }
{
    let is_branch = children.has_child();
    let spelled = children.as_slice();
    let room = room_of(partial, value, false).saturating_add(2 + spelled.len());
    let mut out = Vec::with_capacity(alloc, room)?;
    if is_branch {
        put_front(&mut out, partial, value, children.map())?;
        out.extend_from_slice(spelled)?;
    } else {
        match value {
            None => out.push(0)?,
            Some(value) => put_leaf(&mut out, partial, value)?,
        }
    }
    Ok(Bytes::from_vec(out))
}

/// The spelling of a leaf whose partial key is all that `key` has from nibble `from` on. The key has at most 1,024 bytes
/// and at least `from` nibbles, the value fewer than 2^30 bytes. `OutOfMemory` comes only for want of memory.
pub fn encode_leaf(
    alloc: Global,
    key: &[u8],
    from: usize,
    value: &[u8],
) -> Result<Bytes, OutOfMemory>
    requires key { length key.now ≤ 1024 }
    requires from { from ≤ 2 * length key.now }
    requires value { length value.now < 2 ^ 30 }
    ensures { IfOk result (λ bytes. bytes
        ≡ spelling (leaf_with (drop from (nibbles_of key.now)) value.now)) }
{
    let len = 2 * key.len() - from;
    let mut out = Vec::with_capacity(alloc, 14 + len / 2 + value.len())?;
    put_header(&mut out, 1, len)?;
    put_key(&mut out, key, from)?;
    put_string(&mut out, value)?;
    Ok(Bytes::from_vec(out))
}

// Appends what a key has from a nibble on, a zero half before an odd count.
#[tactic(auto, using(crate::proofs::KeyBytes::key_bytes))]
fn put_key(out: &mut Vec<u8>, key: &[u8], from: usize) -> Result<(), AllocError>
    requires { from ≤ 2 * length key.now }
    ensures { OnOk result (out.new.items ≡ out.old.items ++ packed (drop from (nibbles_of key.now))) }
{
    if from % 2 == 0 {
        return out.extend_from_slice(&key[from / 2..]);
    }
    out.push(key[from / 2] % 16)?;
    out.extend_from_slice(&key[from / 2 + 1..])
}

// Room for a node's spelling, so that it need not grow where children are no longer than hashes.
fn room_of(partial: &[u8], value: Option<&[u8]>, is_branch: bool) -> usize
    requires partial { length partial.now ≤ 2048 }
    requires value { IfSome (bytes_in value) HasCompactLength }
{
    let value = match value {
        None => 0,
        Some(value) => 4 + value.len(),
    };
    let children = if is_branch { 2 + 16 * 33 } else { 0 };
    10 + partial.len().div_ceil(2) + value + children
}

// Whether there is a child.
fn is_branch(children: &[Option<MerkleValue>]) -> bool
    ensures { result ≡ has_child children.now }
{
    children.iter().any(|child| child.is_some())
}

// Appends a leaf.
fn put_leaf(out: &mut Vec<u8>, partial: &[u8], value: &[u8]) -> Result<(), AllocError>
    requires partial { IsPartial partial.now }
    requires short { length value.now < 2 ^ 30 }
    ensures { OnOk result (out.new.items ≡ out.old.items
        ++ (header 1 (length partial.now) ++ (packed partial.now ++ string value.now))) }
{
    put_header(out, 1, partial.len())?;
    put_packed(out, partial)?;
    put_string(out, value)
}

// Appends a branch.
fn put_branch(
    out: &mut Vec<u8>,
    partial: &[u8],
    value: Option<&[u8]>,
    children: &[Option<MerkleValue>],
) -> Result<(), AllocError>
    requires partial { IsPartial partial.now }
    requires value { IfSome (bytes_in value) HasCompactLength }
    requires children { All (λ c. IfSome c HasCompactLength) children.now }
    requires sixteen { length children.now ≡ 16 }
    ensures { OnOk result (out.new.items ≡ out.old.items
        ++ spelled true (bytes_in value.entry) (node_with partial.now (bytes_in value.entry) children.now)) }
{
    put_front(out, partial, value, bitmap_of(children))?;
    put_children(out, children)
}

// Appends what stands before the children of a branch: its header, its partial key, the bitmap of its children and its value.
fn put_front(
    out: &mut Vec<u8>,
    partial: &[u8],
    value: Option<&[u8]>,
    map: u16,
) -> Result<(), AllocError>
    requires partial { IsPartial partial.now }
    requires value { IfSome (bytes_in value) HasCompactLength }
    ensures { OnOk result (out.new.items ≡ out.old.items
        ++ (header (branch_kind (bytes_in value.entry)) (length partial.now) ++ (packed partial.now
        ++ (to_le_bytes w16 map ++ optional_string (bytes_in value.entry))))) }
{
    let kind = if value.is_some() { 3 } else { 2 };
    put_header(out, kind, partial.len())?;
    put_packed(out, partial)?;
    out.extend_from_slice(&map.to_le_bytes())?;
    put_optional(out, value)
}

// Appends the header of a kind and a number of nibbles.
fn put_header(out: &mut Vec<u8>, kind: u8, len: usize) -> Result<(), AllocError>
    requires kind { kind < 4 }
    requires len { len ≤ 2048 }
    ensures { OnOk result (out.new.items ≡ out.old.items ++ header kind len) }
{
    if len < 63 {
        out.push(64 * kind + len as u8)?;
        return Ok(());
    }
    out.push(64 * kind + 63)?;
    for _full in 0..(len - 63) / 255 {
        out.push(255)?;
    }
    out.push(((len - 63) % 255) as u8)?;
    Ok(())
}

// Appends nibbles in bytes, a zero half before an odd count.
fn put_packed(out: &mut Vec<u8>, nibbles: &[u8]) -> Result<(), AllocError>
    requires { All (λ n. n < 16) nibbles.now }
    ensures { OnOk result (out.new.items ≡ out.old.items ++ packed nibbles.now) }
{
    if nibbles.len() % 2 == 0 {
        put_pairs(out, nibbles)
    } else {
        out.push(nibbles[0])?;
        put_pairs(out, &nibbles[1..])
    }
}

// Appends nibbles in pairs, the first in the high half.
fn put_pairs(out: &mut Vec<u8>, nibbles: &[u8]) -> Result<(), AllocError>
    requires below { All (λ n. n < 16) nibbles.now }
    requires even { length nibbles.now % 2 ≡ 0 }
    ensures { OnOk result (out.new.items ≡ out.old.items ++ paired nibbles.now) }
{
    let mut rest = nibbles;
    while let [high, low, others @ ..] = rest {
        out.push(16 * high + low)?;
        rest = others;
    }
    Ok(())
}

// Bit i is set where there is a child i.
fn bitmap_of(children: &[Option<MerkleValue>]) -> u16
    requires { length children.now ≤ 16 }
    ensures { result ≡ bitmap children.now }
{
    let mut map = 0;
    for i in (0..children.len()).rev() {
        map = u16::from(children[i].is_some()) + 2 * map;
    }
    map
}

// Appends the Merkle values of the children that there are.
fn put_children(out: &mut Vec<u8>, children: &[Option<MerkleValue>]) -> Result<(), AllocError>
    requires { All (λ c. IfSome c HasCompactLength) children.now }
    ensures { OnOk result (out.new.items ≡ out.old.items ++ flat_map optional_string children.now) }
{
    for child in children {
        put_child(out, child)?;
    }
    Ok(())
}

// Appends a child's Merkle value as a byte string, if there is one.
fn put_child(out: &mut Vec<u8>, child: &Option<MerkleValue>) -> Result<(), AllocError>
    requires { IfSome child.now HasCompactLength }
    ensures { OnOk result (out.new.items ≡ out.old.items ++ optional_string child.now) }
{
    match child {
        None => Ok(()),
        Some(bytes) => put_string(out, bytes.as_slice()),
    }
}

// Appends a part as a byte string, if it is there.
fn put_optional(out: &mut Vec<u8>, part: Option<&[u8]>) -> Result<(), AllocError>
    requires { IfSome (bytes_in part) HasCompactLength }
    ensures { OnOk result (out.new.items ≡ out.old.items ++ optional_string (bytes_in part.entry)) }
{
    match part {
        None => Ok(()),
        Some(bytes) => put_string(out, bytes),
    }
}

// Appends a byte string that isn't too long.
fn put_string(out: &mut Vec<u8>, bytes: &[u8]) -> Result<(), AllocError>
    requires { length bytes.now < 2 ^ 30 }
    ensures { OnOk result (out.new.items ≡ out.old.items ++ string bytes.now) }
{
    match put_bytes(out, bytes) {
        Ok(()) => Ok(()),
        Err(ScaleFault::OutOfMemory) => Err(AllocError),
        Err(_) => unreachable!(),
    }
}
