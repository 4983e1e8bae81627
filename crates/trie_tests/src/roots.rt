ghost use Rattle.std.specs.Prelude.{IsTrue};
ghost use Rattle.trie_root.specs.Pairs.{AllWithin, KeysRise};

use sdb_base::{Bytes, Nibbles, NodeHash, Pair, Pairs, TryCopy};
use std::alloc::Global;
use std::test::*;
use trie_root::root_of;

// Keys that rise, and their nibbles.
const KEYS: [(&[u8], &[u8]); 4] = [
    (b"", b""),
    (b"\x0f", b"\x00\x0f"),
    (b"\x0f\x00", b"\x00\x0f\x00\x00"),
    (b"\xa1", b"\x0a\x01"),
];

// Keys with their values, and the root of their state.
const ROOTS: [(&[(&[u8], &[u8])], &[u8]); 7] = [
    (
        &[],
        b"\x03\x17\x0a\x2e\x75\x97\xb7\xb7\xe3\xd8\x4c\x05\x39\x1d\x13\x9a\x62\xb1\x57\xe7\x87\x86\xd8\xc0\x82\xf2\x9d\xcf\x4c\x11\x13\x14",
    ),
    (
        &[(b"\xaa", b"")],
        b"\x99\xbd\x61\x35\xa0\x89\x2d\xc2\xef\xc5\xb7\x92\xad\xb3\x28\x0c\x24\xdc\xf8\xdd\xe8\x29\x0f\x64\xfa\xa7\x8c\xbe\xb8\x69\x96\xa9",
    ),
    (
        &[(b"\xaa", b"\x01")],
        b"\x48\x1f\x35\xc2\xed\xa6\x67\xf1\xbc\x14\xd6\x2b\x1c\x2c\xed\x34\x49\x17\x44\x83\x76\xfe\x30\xdb\x2d\xc7\x3b\x39\x1e\xe1\xb5\x14",
    ),
    (
        &[(b"\xaa", b"\x01"), (b"\xaa\xbb", b"\x02")],
        b"\x31\xdd\x6a\x8c\xe6\xba\xdc\x18\x93\x53\xd9\x53\x1e\x0a\x90\x54\xfe\x2f\x73\xfe\x72\xd6\x23\x6d\xe0\xc1\x5a\xc4\x41\x8d\x95\xfb",
    ),
    (
        &[(b"\xaa", b"\x01"), (b"\xab", b"\x02")],
        b"\x71\xdf\x5e\x47\x08\x8f\xe4\x69\xd8\xc9\x44\xca\xb4\xa7\xf2\xc6\x52\xee\x1c\xf5\x21\xec\xfc\x05\xda\x70\xbd\x6e\x4d\x09\xfd\x64",
    ),
    // no bytes as a key, and keys at the first, a middle and the last nibble
    (
        &[
            (b"", b"\x09"),
            (b"\x00", b""),
            (b"\x80", b"\x01"),
            (b"\xff", b"\x02"),
        ],
        b"\x26\xaa\x2e\x78\x6f\x85\x20\x21\x40\xd8\x12\x9f\x98\xf5\x19\x26\x4a\x9c\x42\x4a\xfd\xc5\xc0\xc8\x3f\xec\xa8\x17\x57\x91\xa4\x4b",
    ),
    (
        &[
            (
                b"\xaa",
                b"\xab\xab\xab\xab\xab\xab\xab\xab\xab\xab\xab\xab\xab\xab\xab\xab\xab\xab\xab\xab\xab\xab\xab\xab\xab\xab\xab\xab\xab",
            ),
            (
                b"\xab",
                b"\xcd\xcd\xcd\xcd\xcd\xcd\xcd\xcd\xcd\xcd\xcd\xcd\xcd\xcd\xcd\xcd\xcd\xcd\xcd\xcd\xcd\xcd\xcd\xcd\xcd\xcd\xcd\xcd\xcd\xcd",
            ),
        ],
        b"\x37\x6f\xa5\xc5\x1f\x83\xf5\x4e\x94\xcb\x4b\x89\xcf\x2b\xe4\xd9\xd0\xae\x79\x54\x44\xa5\x02\xed\xc7\xbf\x6b\x84\xd3\x47\x38\xc5",
    ),
];

// The root of the state of the deepest trie, by the model of tools/trie.py.
const DEEPEST: &[u8] =
    b"\x22\x21\xf3\x57\x1a\xe5\x45\x42\xef\xb9\x10\xc4\xd2\x8b\xa0\x0a\xb7\x58\x6e\x57\x95\x66\x34\x59\x43\xd2\xff\x1a\x9b\x83\x1a\x7d";

#[test]
fn keys_of_pairs_in_nibbles(rt: HostRuntime) -> Result<(), Fail> {
    let alloc = rt.alloc();
    for (key, want) in KEYS {
        let mut pairs = Pairs::new(alloc);
        pairs.push(Pair {
            key: Bytes::from_slice(alloc, key)?,
            value: Bytes::from_slice(alloc, b"v")?,
        })?;
        let copied = pairs.copy(alloc)?;
        let [pair] = copied.as_slice() else {
            return Err(Fail::new("not one pair"));
        };
        assert_eq!(rt; pair.value.as_slice(), b"v".as_slice());
        let nibbles = Nibbles::of_key(alloc, pair.key.as_slice())?;
        assert_eq!(rt; nibbles.as_slice(), want);
        assert_eq!(rt; nibbles.len(), want.len());
        assert_eq!(rt; nibbles.is_empty(), want.is_empty());
    }
    Ok(())
}

#[test]
fn a_nibble_more(rt: HostRuntime) -> Result<(), Fail> {
    let alloc = rt.alloc();
    let mut nibbles = Nibbles::from_slice(alloc, b"\x0a")?;
    nibbles.push(11)?;
    let copied = nibbles.copy(alloc)?;
    assert_eq!(rt; copied.as_slice(), b"\x0a\x0b".as_slice());
    let vec = Nibbles::from_vec(copied.into_vec()).into_vec();
    assert_eq!(rt; vec.as_slice(), b"\x0a\x0b".as_slice());
    assert!(rt; Nibbles::new(alloc).is_empty());
    Ok(())
}

// Whether the keys rise.
fn rises(pairs: &[Pair]) -> bool
    ensures { IsTrue result → KeysRise pairs.now }
{
    for i in (1..pairs.len()).rev() {
        if !pairs[i - 1].key.cmp(&pairs[i].key).is_lt() {
            return false;
        }
    }
    true
}

// Whether keys and values are short enough.
fn fits(pairs: &[Pair]) -> bool
    ensures { IsTrue result → AllWithin pairs.now }
{
    for pair in pairs {
        if pair.key.len() > 1024 || pair.value.len() > 4194304 {
            return false;
        }
    }
    true
}

// The root of the state of pairs that rise and fit.
fn root(alloc: Global, pairs: &Pairs) -> Result<NodeHash, Fail> {
    if !rises(pairs.as_slice()) {
        return Err(Fail::new("keys that don't rise"));
    }
    if !fits(pairs.as_slice()) {
        return Err(Fail::new("a pair that is too long"));
    }
    Ok(root_of(alloc, pairs)?)
}

#[test]
fn roots_of_small_states(rt: HostRuntime) -> Result<(), Fail> {
    let alloc = rt.alloc();
    for (entries, want) in ROOTS {
        let mut pairs = Pairs::new(alloc);
        for (key, value) in entries {
            pairs.push(Pair {
                key: Bytes::from_slice(alloc, key)?,
                value: Bytes::from_slice(alloc, value)?,
            })?;
        }
        assert_eq!(rt; root(alloc, &pairs)?.0.as_slice(), want);
    }
    Ok(())
}

// A key of 2,048 nibbles 0, and for each of them one that leaves it there.
#[test]
fn a_trie_of_2049_levels(rt: HostRuntime) -> Result<(), Fail> {
    let alloc = rt.alloc();
    let mut pairs = Pairs::new(alloc);
    pairs.push(Pair {
        key: Bytes::from_vec(vec![in alloc; 0u8; 1024]?),
        value: Bytes::new(alloc),
    })?;
    for i in (0..2048usize).rev() {
        let mut key = Bytes::from_vec(vec![in alloc; 0u8; i / 2]?);
        key.push(if i % 2 == 0 { 16 } else { 1 })?;
        pairs.push(Pair {
            key,
            value: Bytes::new(alloc),
        })?;
    }
    assert_eq!(rt; root(alloc, &pairs)?.0.as_slice(), DEEPEST);
    Ok(())
}
