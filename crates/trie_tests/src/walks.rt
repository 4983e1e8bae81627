use crate::example_nodes::{AT_1, AT_2, AT_100, AT_203, AT_1000, AT_2031, AT_A, AT_AA, ROOT};
use crate::reads::{BRANCH, HASHED, MIXED};
use sdb_base::{Bytes, Keys, NodeHash};
use sdb_blake2::hash256;
use std::alloc::Global;
use std::test::*;
use trie_read::WalkJob;

// Nodes as they are wanted, the prefix, and its keys.
const WALKS: [(&[&[u8]], &[u8], &[&[u8]]); 14] = [
    (&[b"\x00"], b"", &[]),
    (&[b"\x42\xaa\x00"], b"", &[b"\xaa"]),
    (&[b"\x42\xaa\x00"], b"\xaa\x00", &[]),
    (&[BRANCH], b"\xaa", &[b"\xaa", b"\xaa\xbb"]),
    (&[BRANCH], b"\xaa\xbb", &[b"\xaa\xbb"]),
    (&[BRANCH], b"\xab", &[]),
    (&[MIXED, HASHED], b"", &[b"\xaa", b"\xab"]),
    (&[MIXED], b"\xaa", &[b"\xaa"]),
    (
        &[
            ROOT, AT_1, AT_100, AT_1000, AT_2, AT_203, AT_2031, AT_A, AT_AA,
        ],
        b"",
        &[
            b"",
            b"\x10",
            b"\x10\x00",
            b"\x10\x01",
            b"\x10\x20",
            b"\x20",
            b"\x20\x30",
            b"\x20\x31",
            b"\xa0",
            b"\xaa\xbb",
            b"\xaa\xbc",
            b"\xff",
        ],
    ),
    (
        &[ROOT, AT_1, AT_100, AT_1000],
        b"\x10",
        &[b"\x10", b"\x10\x00", b"\x10\x01", b"\x10\x20"],
    ),
    (&[ROOT, AT_2, AT_203], b"\x20\x30", &[b"\x20\x30"]),
    (&[ROOT, AT_A], b"\xa0", &[b"\xa0"]),
    (&[ROOT, AT_A, AT_AA], b"\xaa", &[b"\xaa\xbb", b"\xaa\xbc"]),
    (&[ROOT, AT_A, AT_AA], b"\xaa\xb0", &[]),
];

// A branch with a value, whose one child is a stored node.
const ENDLESS: &[u8] =
    b"\xc0\x01\x00\x00\x80\x00\x00\x00\x00\x00\x00\x00\x00\x00\x00\x00\x00\x00\x00\x00\x00\x00\x00\x00\x00\x00\x00\x00\x00\x00\x00\x00\x00\x00\x00\x00\x00";

fn job(alloc: Global, root: &[u8], prefix: &[u8]) -> Result<WalkJob, Fail> {
    let prefix = Bytes::from_slice(alloc, prefix)?;
    Ok(WalkJob::new(alloc, NodeHash(hash256(root)), prefix)?)
}

// The job, fed with its wanted node.
fn fed(mut job: WalkJob, node: &[u8]) -> Result<WalkJob, Fail> {
    let Some(hash) = job.want() else {
        return Err(Fail::new("no node is wanted"));
    };
    if hash.0 != hash256(node) {
        return Err(Fail::new("another node is wanted"));
    }
    match job.feed(node) {
        Ok(()) => Ok(job),
        Err(_) => Err(Fail::new("a node is refused")),
    }
}

fn are(keys: &Keys, want: &[&[u8]]) -> bool {
    let mut same = keys.len() == want.len();
    for (key, want) in keys.as_slice().iter().zip(want) {
        same = same && key.as_slice() == *want;
    }
    same
}

// The answer of a job that is fed with just these nodes.
fn walked(alloc: Global, nodes: &[&[u8]], prefix: &[u8]) -> Result<Keys, Fail> {
    let [root, ..] = nodes else {
        return Err(Fail::new("no root"));
    };
    let mut job = job(alloc, root, prefix)?;
    for node in nodes {
        job = fed(job, node)?;
    }
    match job.want() {
        Some(_) => Err(Fail::new("one more node is wanted")),
        None => Ok(job.answer()),
    }
}

#[test]
fn walks(rt: HostRuntime) -> Result<(), Fail> {
    let alloc = rt.alloc();
    for (nodes, prefix, want) in WALKS {
        assert!(rt; are(&walked(alloc, nodes, prefix)?, want));
    }
    Ok(())
}

// How often a node is taken in a row.
fn taken(mut job: WalkJob, node: &[u8]) -> usize {
    for i in 0..3000usize {
        if job.want().is_none() || job.feed(node).is_err() {
            return i;
        }
    }
    3000
}

#[test]
fn ends_on_any_bytes(rt: HostRuntime) -> Result<(), Fail> {
    let alloc = rt.alloc();
    assert_eq!(rt; taken(job(alloc, ENDLESS, b"")?, ENDLESS), 2049);
    assert_eq!(rt; taken(job(alloc, ENDLESS, b"\x00\x00")?, ENDLESS), 2049);
    assert_eq!(rt; taken(job(alloc, ENDLESS, b"\x01")?, ENDLESS), 2);
    assert_eq!(rt; taken(job(alloc, ENDLESS, b"")?, b"\x20"), 0);
    Ok(())
}
