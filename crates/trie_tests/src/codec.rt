ghost use Rattle.std.specs.Prelude.{◌≡◌, ◌<◌, All, IfOk, IfSome, IsTrue, length};
ghost use Rattle.trie_model.specs.Node.{IsPartial, HasCompactLength};

use sdb_base::{Bytes, Nibbles, OutOfMemory};
use std::alloc::Global;
use std::test::*;
use trie_codec::{
    ChildList, ChildRef, CodecFault, Kind, MerkleValue, NodeRef, Plain, SpelledChildren, encode,
    encode_leaf, encode_parts, encode_spelled, faults_stay, known_readings,
    more_levels_read_nothing_more, what_is_read_was_written, what_is_written_is_read,
};

// Bytes that are no node, and their first fault. Where two faults could be named, the second comes after it.
const REFUSED: [(&[u8], CodecFault); 38] = [
    (b"", CodecFault::Short),
    (b"\x42\xaa", CodecFault::Short),
    (b"\x7f", CodecFault::Short),
    (b"\x7f\xff", CodecFault::Short),
    (b"\x41", CodecFault::Short),
    (b"\x42\xaa\x04", CodecFault::Short),
    (b"\x42\xaa\x01", CodecFault::Short),
    (b"\x42\xaa\x02\x00\x00", CodecFault::Short),
    (b"\x80\x00", CodecFault::Short),
    (b"\xc0\x01\x00\x00", CodecFault::Short),
    (b"\xc0\x01\x00\x00\x7c\x41\x00", CodecFault::Short),
    (b"\xc0\x01\x00\x00\x80\x41\x00", CodecFault::Short),
    (b"\x20", CodecFault::BadHeader),
    (b"\x01", CodecFault::BadHeader),
    // bytes after what is no header
    (b"\x3f\x00", CodecFault::BadHeader),
    // 2,049 nibbles, though no byte follows
    (
        b"\x7f\xff\xff\xff\xff\xff\xff\xff\xc9",
        CodecFault::BadHeader,
    ),
    // a count that passes 2,048, though no count ends
    (
        b"\x7f\xff\xff\xff\xff\xff\xff\xff\xff",
        CodecFault::BadHeader,
    ),
    (b"\x41\xfa\x04\x01", CodecFault::BadPadding),
    (b"\x41\x10\x04\x01", CodecFault::BadPadding),
    // the partial key is cut off after its padding
    (b"\x43\xfa", CodecFault::BadPadding),
    (b"\x42\xaa\x01\x00", CodecFault::BadLength),
    (b"\x42\xaa\xfd\x00", CodecFault::BadLength),
    (b"\x42\xaa\x02\x00\x00\x00", CodecFault::BadLength),
    (b"\x42\xaa\xfe\xff\x00\x00", CodecFault::BadLength),
    // a length of the fourth mode, though nothing follows
    (b"\x42\xaa\x03", CodecFault::BadLength),
    (b"\xc0\x01\x00\x00\x03", CodecFault::BadLength),
    // no child, in a longer mode than it needs
    (b"\xc0\x01\x00\x00\x01\x00", CodecFault::BadLength),
    (b"\x80\x00\x00", CodecFault::BadBitmap),
    // no value and no child after the bitmap
    (b"\xc0\x00\x00", CodecFault::BadBitmap),
    (b"\x80\x01\x00", CodecFault::BadBitmap),
    (b"\x81\x00\x03\x00\x00", CodecFault::BadChild),
    // over 32 bytes, none of which is there
    (b"\xc0\x01\x00\x00\x84", CodecFault::BadChild),
    (b"\xc0\x01\x00\x00\x04\x00", CodecFault::BadChild),
    (b"\xc0\x01\x00\x00\x04\x20", CodecFault::BadChild),
    // a byte after a child in a child
    (
        b"\xc0\x01\x00\x00\x28\xc0\x01\x00\x00\x14\x41\x0b\x04\x02\x99",
        CodecFault::BadChild,
    ),
    // a short child with a byte after the node
    (b"\xc0\x01\x00\x00\x04\x41\x99", CodecFault::BadChild),
    (b"\x00\x00", CodecFault::Trailing),
    (b"\x42\xaa\x04\x01\x99", CodecFault::Trailing),
];

// How many nibbles, and the header of a leaf with them.
const HEADERS: [(usize, &[u8]); 6] = [
    (62, b"\x7e"),
    (63, b"\x7f\x00"),
    (64, b"\x7f\x01"),
    (317, b"\x7f\xfe"),
    (318, b"\x7f\xff\x00"),
    (2048, b"\x7f\xff\xff\xff\xff\xff\xff\xff\xc8"),
];

// How many bytes a value has, and how their number is spelled.
const VALUES: [(usize, &[u8]); 4] = [
    (63, b"\xfc"),
    (64, b"\x01\x01"),
    (16383, b"\xfd\xff"),
    (16384, b"\x02\x00\x01\x00"),
];

// A node's partial key, value and children, each with its nibble, and the spelling.
type Row = (
    &'static [u8],
    Option<&'static [u8]>,
    &'static [(u8, &'static [u8])],
    &'static [u8],
);

const NODES: [Row; 10] = [
    (b"", None, &[], b"\x00"),
    (b"\x0a\x0a", Some(b""), &[], b"\x42\xaa\x00"),
    (b"\x0a\x0a", Some(b"\x01"), &[], b"\x42\xaa\x04\x01"),
    (b"\x0f", Some(b""), &[], b"\x41\x0f\x00"),
    // the last child of each byte of the bitmap
    (
        b"",
        None,
        &[(7, b"\x41\x0b\x04\x02"), (15, b"\x41\x0b\x04\x02")],
        b"\x80\x80\x80\x10\x41\x0b\x04\x02\x10\x41\x0b\x04\x02",
    ),
    // an odd partial key, whose zero half comes first
    (b"\x01\x02\x03", Some(b"\x04"), &[], b"\x43\x01\x23\x04\x04"),
    (
        b"\x0a\x0a",
        Some(b"\x01"),
        &[(11, b"\x41\x0b\x04\x02")],
        b"\xc2\xaa\x00\x08\x04\x01\x10\x41\x0b\x04\x02",
    ),
    (
        b"\x0a",
        None,
        &[(10, b"\x40\x04\x01"), (11, b"\x40\x04\x02")],
        b"\x81\x0a\x00\x0c\x0c\x40\x04\x01\x0c\x40\x04\x02",
    ),
    // a child of 31 bytes is there itself, one of 32 by its hash
    (
        b"\x0a",
        None,
        &[
            (
                10,
                b"\x40\x74\xab\xab\xab\xab\xab\xab\xab\xab\xab\xab\xab\xab\xab\xab\xab\xab\xab\xab\xab\xab\xab\xab\xab\xab\xab\xab\xab\xab\xab",
            ),
            (
                11,
                b"\xea\xc4\x4b\x12\xb8\x7d\x44\xaf\x3f\x06\xcf\x82\x1e\x16\x44\xe4\xac\x1c\x41\xee\x3b\xcc\x57\x5b\x1a\xe5\x16\xa8\x63\x0a\xe3\x49",
            ),
        ],
        b"\x81\x0a\x00\x0c\x7c\x40\x74\xab\xab\xab\xab\xab\xab\xab\xab\xab\xab\xab\xab\xab\xab\xab\xab\xab\xab\xab\xab\xab\xab\xab\xab\xab\xab\xab\xab\xab\x80\xea\xc4\x4b\x12\xb8\x7d\x44\xaf\x3f\x06\xcf\x82\x1e\x16\x44\xe4\xac\x1c\x41\xee\x3b\xcc\x57\x5b\x1a\xe5\x16\xa8\x63\x0a\xe3\x49",
    ),
    // a branch within a branch
    (
        b"",
        Some(b""),
        &[(0, b"\xc0\x01\x00\x00\x10\x41\x0b\x04\x02")],
        b"\xc0\x01\x00\x00\x24\xc0\x01\x00\x00\x10\x41\x0b\x04\x02",
    ),
];

// A key, where in it a leaf's partial key begins, its value, and the leaf's spelling.
const LEAVES: [(&[u8], usize, &[u8], &[u8]); 5] = [
    (b"\x12\x34", 0, b"\x07", b"\x44\x12\x34\x04\x07"),
    (b"\x12\x34", 1, b"\x07", b"\x43\x02\x34\x04\x07"),
    (b"\x12\x34", 2, b"\x07", b"\x42\x34\x04\x07"),
    (b"\x12\x34", 3, b"", b"\x41\x04\x00"),
    (b"\x12\x34", 4, b"\x07\x08", b"\x40\x08\x07\x08"),
];

#[test]
fn leaves_of_keys(rt: HostRuntime) -> Result<(), Fail> {
    for (key, from, value, want) in LEAVES {
        let spelled = leaf(rt.alloc(), key, from, value)?;
        assert_eq!(rt; spelled.as_slice(), want, "{key:?} from {from}");
    }
    Ok(())
}

// The spelling of a leaf of a key and a value that are short enough.
fn leaf(alloc: Global, key: &[u8], from: usize, value: &[u8]) -> Result<Bytes, Fail> {
    if key.len() > 1024 || from > 2 * key.len() || value.len() > 1024 {
        return Err(Fail::new("a key or a value that is too long"));
    }
    Ok(encode_leaf(alloc, key, from, value)?)
}

#[test]
fn faults(rt: HostRuntime) -> Result<(), Fail> {
    known_readings();
    for (bytes, why) in REFUSED {
        assert_eq!(rt; NodeRef::read(bytes).err(), Some(why), "{bytes:?}");
    }
    Ok(())
}

// Whether nibbles can be a partial key.
fn is_partial(nibbles: &[u8]) -> bool
    ensures { IsTrue result → IsPartial nibbles.now }
{
    nibbles.len() <= 2048 && nibbles.iter().all(|nibble| *nibble < 16)
}

// The children at these nibbles; none where one can't be there.
fn child_list(children: &[(u8, &[u8])]) -> Option<ChildList>
    ensures sixteen { IfSome result (λ c. length c ≡ 16) }
    ensures short { IfSome result (λ c. All (λ child. IfSome child HasCompactLength) c) }
{
    let mut found = ChildList::new();
    for (nibble, merkle_value) in children {
        if *nibble >= 16 || merkle_value.len() > 32 {
            return None;
        }
        found.set(*nibble, Some(MerkleValue::of(*merkle_value)));
    }
    Some(found)
}

// The spelling of these parts; none where they can't be spelled.
fn spelled(
    alloc: Global,
    partial: &[u8],
    value: Option<&[u8]>,
    children: &[(u8, &[u8])],
) -> Result<Option<Bytes>, OutOfMemory> {
    if !is_partial(partial) {
        return Ok(None);
    }
    let Some(children) = child_list(children) else {
        return Ok(None);
    };
    let value = match value {
        None => None,
        Some(bytes) if bytes.len() > 16384 => return Ok(None),
        Some(bytes) => Some(Bytes::from_slice(alloc, bytes)?),
    };
    let node = Plain {
        partial: Nibbles::from_slice(alloc, partial)?,
        value,
        children,
    };
    Ok(Some(encode(alloc, &node)?))
}

// The children at these nibbles, spelled from the last one on, in the memory of others; none where one is too long.
fn from_last(
    alloc: Global,
    children: &[(u8, &[u8])],
) -> Result<Option<SpelledChildren>, OutOfMemory>
    ensures sixteen { IfOk result (λ found. IfSome found (λ c. length c ≡ 16)) }
    ensures short { IfOk result (λ found. IfSome found (λ c. All (λ child. IfSome child HasCompactLength) c)) }
{
    let mut others = SpelledChildren::new(alloc)?;
    others.put(&[0xff; 32]);
    let mut found = others.cleared(alloc)?;
    for count in 0..16u8 {
        match children.iter().find(|child| child.0 == 15 - count) {
            None => found.put_none(),
            Some(child) if child.1.len() <= 32 => found.put(child.1),
            Some(_) => return Ok(None),
        }
    }
    Ok(Some(found))
}

// `spelled`, of children that are spelled already.
fn spelled_from_last(
    alloc: Global,
    partial: &[u8],
    value: Option<&[u8]>,
    children: &[(u8, &[u8])],
) -> Result<Option<Bytes>, OutOfMemory> {
    if !is_partial(partial) {
        return Ok(None);
    }
    match value {
        Some(bytes) if bytes.len() > 16384 => return Ok(None),
        _ => {}
    }
    match from_last(alloc, children)? {
        None => Ok(None),
        Some(children) => Ok(Some(encode_spelled(alloc, partial, value, &children)?)),
    }
}

// The Merkle value of a child, if there is one.
fn merkle_value_at<'a>(node: &NodeRef<'a>, i: u8) -> Option<&'a [u8]>
    requires { i < 16 }
{
    match node.child(i) {
        ChildRef::None => None,
        ChildRef::Inline(bytes) => Some(bytes),
        ChildRef::Hashed(hash) => Some(hash),
    }
}

#[test]
fn nodes_both_ways(rt: HostRuntime) -> Result<(), Fail> {
    let alloc = rt.alloc();
    what_is_written_is_read();
    what_is_read_was_written();
    for (partial, value, children, bytes) in NODES {
        let Some(written) = spelled(alloc, partial, value, children)? else {
            return Err(Fail::new("a row's parts can't be spelled"));
        };
        assert_eq!(rt; written.as_slice(), bytes);
        let Some(again) = spelled_from_last(alloc, partial, value, children)? else {
            return Err(Fail::new("a row's parts can't be spelled from the last child on"));
        };
        assert_eq!(rt; again.as_slice(), bytes);
        let node = NodeRef::read(bytes)?;
        assert_eq!(rt; node.partial_len(), partial.len());
        assert_eq!(rt; node.value(), value);
        for i in 0..16u8 {
            let want = children.iter().find(|child| child.0 == i);
            assert_eq!(rt; merkle_value_at(&node, i), want.map(|child| child.1));
        }
    }
    Ok(())
}

#[test]
fn kinds(rt: HostRuntime) -> Result<(), Fail> {
    for (bytes, kind) in [
        (b"\x00".as_slice(), Kind::Empty),
        (b"\x42\xaa\x00".as_slice(), Kind::Leaf),
        (
            b"\xc0\x01\x00\x00\x10\x41\x0b\x04\x02".as_slice(),
            Kind::Branch,
        ),
    ] {
        assert_eq!(rt; NodeRef::read(bytes)?.kind(), kind);
    }
    Ok(())
}

// The leaf that bytes spell, its partial key as nibbles.
fn nibbles_of_leaf(alloc: Global, leaf: &NodeRef<'_>) -> Result<Nibbles, OutOfMemory> {
    let mut nibbles = Nibbles::new(alloc);
    for i in 0..leaf.partial_len() {
        nibbles.push(leaf.nibble(i))?;
    }
    Ok(nibbles)
}

// Reads bytes as a leaf with so many nibbles and so many bytes of value, and writes the same bytes again.
fn leaf_both_ways(alloc: Global, bytes: &[u8], nibbles: usize, value: usize) -> Result<bool, Fail> {
    let leaf = NodeRef::read(bytes)?;
    let partial = nibbles_of_leaf(alloc, &leaf)?;
    let Some(written) = spelled(alloc, partial.as_slice(), leaf.value(), &[])? else {
        return Ok(false);
    };
    let long = match leaf.value() {
        Some(found) => found.len() == value,
        None => false,
    };
    Ok(long && leaf.partial_len() == nibbles && written.as_slice() == bytes)
}

#[test]
fn long_partial_keys(rt: HostRuntime) -> Result<(), Fail> {
    let alloc = rt.alloc();
    for (len, header) in HEADERS {
        let mut bytes = Vec::from_slice(alloc, header)?;
        for _ in 0..len.div_ceil(2) {
            bytes.push(0x0a)?;
        }
        bytes.extend_from_slice(b"\x04\x07")?;
        assert!(rt; leaf_both_ways(alloc, &bytes, len, 1)?, "{len}");
    }
    Ok(())
}

#[test]
fn long_values(rt: HostRuntime) -> Result<(), Fail> {
    let alloc = rt.alloc();
    for (len, prefix) in VALUES {
        let mut bytes = Vec::from_slice(alloc, b"\x42\xaa")?;
        bytes.extend_from_slice(prefix)?;
        for _ in 0..len {
            bytes.push(0xcd)?;
        }
        assert!(rt; leaf_both_ways(alloc, &bytes, 2, len)?, "{len}");
    }
    Ok(())
}
