ghost use Rattle.std.specs.Prelude.{◌≡◌, ◌+◌, ◌%◌, ◌/◌, ◌≤◌, ℕ, List, None, length, map, drop, slice_index_or, IfErr, IfOk, IfSome, IsOkAnd, Err, Ok};
ghost use Rattle.std.specs.List.{flat_map};
ghost use Rattle.sdb_base.specs.Nibbles.{nibbles_of};
ghost use Rattle.sdb_scale.specs.Compact.{string};
ghost use Rattle.trie_model.specs.Node.{IsNode, Node, optional_string, spelling};
ghost use Rattle.trie_codec.specs.Slices.{bytes_in};
ghost use Rattle.trie_codec.specs.inner.Reads.{Reads};
ghost use Rattle.trie_codec.specs.NodeParts.{node_of_ref};
ghost use Rattle.trie_codec.specs.Places.{IsSliceOf, BorrowsParts};
ghost use Rattle.trie_codec.specs.Reading.{first_bitmap, first_branch, first_bytes, first_child, first_children, first_count, first_header, first_leaf, first_length, first_node, node_of_bytes, first_partial, reads_inline, first_string, first_value};
ghost use Rattle.trie_codec.specs.inner.Steps.{first_lowest_child};

use crate::fault::CodecFault;
use crate::node_ref::NodeRef;
use sdb_scale::{ScaleFault, compact};

/// A partial key has at most so many nibbles.
const MOST_NIBBLES: usize = 2048;

/// The compact length of 32 bytes, as the one byte that spells it.
const HASH_FIRST: u8 = 0x80;

/// Inline children are at most so many levels deep, since each has fewer than 32 bytes.
const MOST_LEVELS: u8 = 32;

// The kind in the top two bits, and the number of nibbles.
#[derive(Clone, Copy)]
struct Header {
    kind: u8,
    nibbles: usize,
}

// So many bytes, and what follows them.
fn take_bytes(count: usize, bytes: &[u8]) -> Result<(&[u8], &[u8]), CodecFault>
    ensures gives { Reads (λ x. (x.0.now, x.1.now)) result (first_bytes count bytes.now) }
    ensures len { IfOk result (λ x. length x.0.now ≡ count) }
    ensures front { IfOk result (λ x. IsSliceOf bytes.entry x.0 (length x.1.now)) }
    ensures rest { IfOk result (λ x. IsSliceOf bytes.entry x.1 0) }
{
    if bytes.len() < count {
        return Err(CodecFault::Short);
    }
    Ok((&bytes[..count], &bytes[count..]))
}

// A count of nibbles past the 63 that the first byte says, from the bytes that add to it.
#[tactic(auto, unfolding(crate::specs::Reading::first_count))]
fn read_count(bytes: &[u8]) -> Result<(usize, &[u8]), CodecFault>
    ensures gives { Reads (λ x. (x.0, x.1.now)) result (first_count 63 bytes.now) }
    ensures few { IfOk result (λ x. x.0 ≤ 2048) }
    ensures rest { IfOk result (λ x. IsSliceOf bytes.entry x.1 0) }
{
    let mut count = 63;
    for (i, more) in bytes.iter().enumerate() {
        let sum = count + usize::from(*more);
        if sum > MOST_NIBBLES {
            return Err(CodecFault::BadHeader);
        }
        if *more != 255 {
            return Ok((sum, &bytes[i + 1..]));
        }
        count = sum;
    }
    Err(CodecFault::Short)
}

#[tactic(auto, unfolding(crate::specs::Reading::first_header))]
fn read_header(bytes: &[u8]) -> Result<(Header, &[u8]), CodecFault>
    ensures gives { Reads (λ x. ((x.0.kind, x.0.nibbles), x.1.now)) result (first_header bytes.now) }
    ensures few { IfOk result (λ x. x.0.nibbles ≤ 2048) }
    ensures rest { IfOk result (λ x. IsSliceOf bytes.entry x.1 0) }
{
    let [first, rest @ ..] = bytes else {
        return Err(CodecFault::Short);
    };
    let kind = first / 64;
    if kind == 0 {
        if *first != 0 {
            return Err(CodecFault::BadHeader);
        }
        return Ok((
            Header {
                kind: 0,
                nibbles: 0,
            },
            rest,
        ));
    }
    if first % 64 != 63 {
        let nibbles = usize::from(first % 64);
        return Ok((Header { kind, nibbles }, rest));
    }
    let (nibbles, rest) = read_count(rest)?;
    Ok((Header { kind, nibbles }, rest))
}

// The bytes of a partial key of so many nibbles.
#[tactic(auto, unfolding(crate::specs::Reading::first_partial))]
fn read_partial(nibbles: usize, bytes: &[u8]) -> Result<(&[u8], &[u8]), CodecFault>
    requires { nibbles ≤ 2048 }
    ensures gives { Reads (λ x. (drop (nibbles % 2) (nibbles_of x.0.now), x.1.now)) result
        (first_partial nibbles bytes.now) }
    ensures whole { IfOk result (λ x. length x.0.now ≡ (nibbles + 1) / 2) }
    ensures rest { IfOk result (λ x. IsSliceOf bytes.entry x.1 0) }
{
    if nibbles % 2 == 1 {
        let [first, ..] = bytes else {
            return Err(CodecFault::Short);
        };
        if *first >= 16 {
            return Err(CodecFault::BadPadding);
        }
    }
    take_bytes((nibbles + 1) / 2, bytes)
}

// A compact number in its shortest mode.
fn read_length(bytes: &[u8]) -> Result<(usize, &[u8]), CodecFault>
    ensures gives { Reads (λ x. (x.0, x.1.now)) result (first_length bytes.now) }
    ensures rest { IfOk result (λ x. IsSliceOf bytes.entry x.1 0) }
{
    match compact(bytes) {
        Ok((len, rest)) => Ok((len as usize, rest)),
        Err(ScaleFault::Short) => Err(CodecFault::Short),
        Err(ScaleFault::NotShortest) => Err(CodecFault::BadLength),
        Err(ScaleFault::TooLarge) => Err(CodecFault::BadLength),
        Err(ScaleFault::OutOfMemory) => unreachable!(),
    }
}

// A byte string after its length.
#[tactic(auto, unfolding(crate::specs::Reading::first_string))]
fn read_string(bytes: &[u8]) -> Result<(&[u8], &[u8]), CodecFault>
    ensures gives { Reads (λ x. (x.0.now, x.1.now)) result (first_string bytes.now) }
    ensures string { IfOk result (λ x. IsSliceOf bytes.entry x.0 (length x.1.now)) }
    ensures rest { IfOk result (λ x. IsSliceOf bytes.entry x.1 0) }
{
    let (len, rest) = read_length(bytes)?;
    take_bytes(len, rest)
}

// The value of a branch, which one of kind 3 has.
fn read_value(kind: u8, bytes: &[u8]) -> Result<(Option<&[u8]>, &[u8]), CodecFault>
    ensures gives { Reads (λ x. (bytes_in x.0, x.1.now)) result (first_value kind bytes.now) }
    ensures value { IfOk result (λ x. IfSome x.0 (λ v. IsSliceOf bytes.entry v (length x.1.now))) }
    ensures rest { IfOk result (λ x. IsSliceOf bytes.entry x.1 0) }
{
    if kind != 3 {
        return Ok((None, bytes));
    }
    let (value, rest) = read_string(bytes)?;
    Ok((Some(value), rest))
}

// The bitmap of a branch: one of kind 2, which has no value, has two children at least.
#[tactic(auto, using(crate::proofs::Bits::bits_set_of_16))]
fn read_bitmap(kind: u8, bytes: &[u8]) -> Result<(u16, &[u8]), CodecFault>
    ensures gives { Reads (λ x. (x.0, x.1.now)) result (first_bitmap kind bytes.now) }
    ensures rest { IfOk result (λ x. IsSliceOf bytes.entry x.1 0) }
{
    let [low, high, rest @ ..] = bytes else {
        return Err(CodecFault::Short);
    };
    let map = u16::from_le_bytes([*low, *high]);
    if map == 0 {
        return Err(CodecFault::BadBitmap);
    }
    let count = map.count_ones();
    if count == 1 && kind == 2 {
        return Err(CodecFault::BadBitmap);
    }
    Ok((map, rest))
}

// Whether bytes read as a leaf or branch, with inline children at most so many levels deep.
#[cycle(inline)]
#[tactic(auto, unfolding(crate::specs::Reading::reads_inline))]
fn reads_alone(depth: u8, bytes: &[u8]) -> bool
    ensures { result ≡ reads_inline depth bytes.now }
{
    if depth == 0 {
        return false;
    }
    match read_node(depth - 1, bytes) {
        Ok((_, rest)) => rest.is_empty() && bytes != [0].as_slice(),
        Err(_) => false,
    }
}

// A child's Merkle value.
#[cycle(inline)]
fn read_child(depth: u8, bytes: &[u8]) -> Result<(&[u8], &[u8]), CodecFault>
    ensures gives { Reads (λ x. (x.0.now, x.1.now)) result
        (first_child (reads_inline depth) bytes.now) }
    ensures small { IfOk result (λ x. length x.0.now ≤ 32) }
    ensures child { IfOk result (λ x. IsSliceOf bytes.entry x.0 (length x.1.now)) }
    ensures took { IfOk result (λ x. length bytes.now ≡ length (string x.0.now) + length x.1.now) }
    ensures rest { IfOk result (λ x. IsSliceOf bytes.entry x.1 0) }
{
    // Most children are hashes: 32 bytes after the byte that says so.
    if bytes.len() > 32 && bytes[0] == HASH_FIRST {
        return Ok((&bytes[1..33], &bytes[33..]));
    }
    let (len, rest) = read_length(bytes)?;
    if len == 0 || len > 32 {
        return Err(CodecFault::BadChild);
    }
    let (child, rest) = take_bytes(len, rest)?;
    if len < 32 && !reads_alone(depth, child) {
        return Err(CodecFault::BadChild);
    }
    Ok((child, rest))
}

// The child of a bitmap's lowest bit, if that is set.
#[cycle(inline)]
fn read_lowest_child(
    depth: u8,
    bits: u16,
    bytes: &[u8],
) -> Result<(Option<&[u8]>, &[u8]), CodecFault>
    ensures gives { Reads (λ x. (bytes_in x.0, x.1.now)) result
        (first_lowest_child (reads_inline depth) bits bytes.now) }
    ensures small { IfOk result (λ x. IfSome x.0 (λ c. length c.now ≤ 32)) }
    ensures child { IfOk result (λ x. IfSome x.0 (λ c. IsSliceOf bytes.entry c (length x.1.now))) }
    ensures took { IfOk result (λ x. length bytes.now
        ≡ length (optional_string (bytes_in x.0)) + length x.1.now) }
    ensures rest { IfOk result (λ x. IsSliceOf bytes.entry x.1 0) }
{
    if bits % 2 == 0 {
        return Ok((None, bytes));
    }
    let (child, rest) = read_child(depth, bytes)?;
    Ok((Some(child), rest))
}

// Sixteen children, and what follows them.
#[derive(Clone, Copy)]
struct Children<'a> {
    found: [Option<&'a [u8]>; 16],
    rest: &'a [u8],
}

// The children of a bitmap's bits.
#[cycle(inline)]
fn read_children(depth: u8, bits: u16, bytes: &[u8]) -> Result<Children<'_>, CodecFault>
    ensures gives { Reads (λ c. (map bytes_in c.found, c.rest.now)) result
        (first_children (reads_inline depth) 16 bits bytes.now) }
    ensures small { IfOk result (λ c. (i : ℕ)
        → IfSome (slice_index_or c.found i None) (λ s. length s.now ≤ 32)) }
    ensures children { IfOk result (λ c. (i : ℕ) → IfSome (slice_index_or c.found i None)
        (λ s. IsSliceOf bytes.entry s (length
        (flat_map optional_string (map bytes_in (drop (i + 1) c.found))) + length c.rest.now))) }
    ensures rest { IfOk result (λ c. IsSliceOf bytes.entry c.rest 0) }
    ensures took { IfOk result (λ c. length bytes.now
        ≡ length (flat_map optional_string (map bytes_in c.found)) + length c.rest.now) }
{
    let mut children = Children {
        found: [None; 16],
        rest: bytes,
    };
    let mut bits = bits;
    for i in 0..16usize {
        let (child, rest) = read_lowest_child(depth, bits, children.rest)?;
        children.found[i] = child;
        children.rest = rest;
        bits /= 2;
    }
    Ok(children)
}

// A leaf after its partial key.
fn read_leaf<'a>(
    partial_len: usize,
    partial: &'a [u8],
    bytes: &'a [u8],
) -> Result<(NodeRef<'a>, &'a [u8]), CodecFault>
    requires short { partial_len ≤ 2048 }
    requires whole { length partial.now ≡ (partial_len + 1) / 2 }
    ensures gives { Reads (λ x. (node_of_ref x.0, x.1.now)) result
        (first_leaf (drop (partial_len % 2) (nibbles_of partial.now)) bytes.now) }
    ensures parts { IfOk result (λ x. BorrowsParts bytes.entry x.0 (length x.1.now)) }
    ensures rest { IfOk result (λ x. IsSliceOf bytes.entry x.1 0) }
{
    let (value, rest) = read_string(bytes)?;
    let leaf = NodeRef {
        partial,
        partial_len,
        value: Some(value),
        children: [None; 16],
    };
    Ok((leaf, rest))
}

// A branch after its partial key.
#[cycle(inline)]
fn read_branch<'a>(
    depth: u8,
    header: Header,
    partial: &'a [u8],
    bytes: &'a [u8],
) -> Result<(NodeRef<'a>, &'a [u8]), CodecFault>
    requires short { header.nibbles ≤ 2048 }
    requires whole { length partial.now ≡ (header.nibbles + 1) / 2 }
    ensures gives { Reads (λ x. (node_of_ref x.0, x.1.now)) result
        (first_branch (reads_inline depth) header.kind
        (drop (header.nibbles % 2) (nibbles_of partial.now)) bytes.now) }
    ensures parts { IfOk result (λ x. BorrowsParts bytes.entry x.0 (length x.1.now)) }
    ensures rest { IfOk result (λ x. IsSliceOf bytes.entry x.1 0) }
{
    let (bits, rest) = read_bitmap(header.kind, bytes)?;
    let (value, rest) = read_value(header.kind, rest)?;
    let children = read_children(depth, bits, rest)?;
    let branch = NodeRef {
        partial,
        partial_len: header.nibbles,
        value,
        children: children.found,
    };
    Ok((branch, children.rest))
}

// A node, and what follows it. Inline children may be so many levels deep.
#[cycle(inline)]
#[tactic(auto, unfolding(crate::specs::Reading::first_node))]
fn read_node(depth: u8, bytes: &[u8]) -> Result<(NodeRef<'_>, &[u8]), CodecFault>
    ensures gives { Reads (λ x. (node_of_ref x.0, x.1.now)) result
        (first_node (reads_inline depth) bytes.now) }
    ensures parts { IfOk result (λ x. BorrowsParts bytes.entry x.0 (length x.1.now)) }
    ensures rest { IfOk result (λ x. IsSliceOf bytes.entry x.1 0) }
{
    let (header, rest) = read_header(bytes)?;
    if header.kind == 0 {
        let empty = NodeRef {
            partial: &rest[..0],
            partial_len: 0,
            value: None,
            children: [None; 16],
        };
        return Ok((empty, rest));
    }
    let (partial, rest) = read_partial(header.nibbles, rest)?;
    if header.kind == 1 {
        read_leaf(header.nibbles, partial, rest)
    } else {
        read_branch(depth, header, partial, rest)
    }
}

impl<'a> NodeRef<'a> {
    /// The node that all of the bytes spell, or the first fault from the left. Its parts are borrowed from `bytes`. Inline
    /// children are read too; those that are given by a hash are not looked up.
    #[tactic(auto, unfolding(crate::specs::Reading::node_of_bytes))]
    pub fn read(bytes: &'a [u8]) -> Result<NodeRef<'a>, CodecFault>
        ensures found { IfOk result (λ r. node_of_bytes bytes.entry.now ≡ Ok (node_of_ref r)) }
        // What is read is the spelling of its parts, and these are the parts of a node.
        ensures spelled { IfOk result
            (λ r. IsNode (node_of_ref r) × (bytes.entry.now ≡ spelling (node_of_ref r))) }
        // The spelling of a node is read, as that node.
        ensures only { (n : Node) → IsNode n → bytes.entry.now ≡ spelling n
            → IsOkAnd result (λ r. node_of_ref r ≡ n) }
        // The value and the children are borrowed from the input, each from its place in the node's spelling.
        ensures borrowed { IfOk result (λ r. BorrowsParts bytes.entry r 0) }
        ensures fault { IfErr result (λ f. node_of_bytes bytes.entry.now ≡ Err f) }
    {
        let (node, rest) = read_node(MOST_LEVELS, bytes)?;
        if !rest.is_empty() {
            return Err(CodecFault::Trailing);
        }
        Ok(node)
    }
}
