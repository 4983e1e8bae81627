use crate::example_nodes::{AT_1, AT_2, AT_100, AT_203, AT_1000, AT_2031, AT_A, AT_AA, ROOT};
use crate::reads::{BRANCH, HASHED, MIXED};
use sdb_base::{Bytes, NodeHash};
use sdb_blake2::hash256;
use std::alloc::Global;
use std::test::*;
use trie_read::NextJob;

// Nodes as they are wanted, the key, and the least key above it.
const SEARCHES: [(&[&[u8]], &[u8], Option<&[u8]>); 23] = [
    (&[b"\x00"], b"", None),
    (&[b"\x42\xaa\x00"], b"", Some(b"\xaa")),
    (&[b"\x42\xaa\x00"], b"\xa9\xff", Some(b"\xaa")),
    (&[b"\x42\xaa\x00"], b"\xaa", None),
    (&[BRANCH], b"", Some(b"\xaa")),
    (&[BRANCH], b"\xaa", Some(b"\xaa\xbb")),
    (&[BRANCH], b"\xaa\xbb", None),
    (&[MIXED], b"", Some(b"\xaa")),
    (&[MIXED, HASHED], b"\xaa", Some(b"\xab")),
    (&[MIXED, HASHED], b"\xab", None),
    (&[ROOT, AT_1], b"", Some(b"\x10")),
    (&[ROOT, AT_1, AT_100, AT_1000], b"\x10", Some(b"\x10\x00")),
    (
        &[ROOT, AT_1, AT_100, AT_1000],
        b"\x10\x00",
        Some(b"\x10\x01"),
    ),
    (&[ROOT, AT_1, AT_100], b"\x10\x01", Some(b"\x10\x20")),
    (&[ROOT, AT_1, AT_2], b"\x10\x20", Some(b"\x20")),
    (&[ROOT, AT_1, AT_2], b"\x15", Some(b"\x20")),
    (&[ROOT, AT_2, AT_203], b"\x20", Some(b"\x20\x30")),
    (
        &[ROOT, AT_2, AT_203, AT_2031, AT_A],
        b"\x20\x31",
        Some(b"\xa0"),
    ),
    (&[ROOT, AT_2, AT_203, AT_A], b"\x20\x32", Some(b"\xa0")),
    (&[ROOT, AT_A, AT_AA], b"\xa0", Some(b"\xaa\xbb")),
    (&[ROOT, AT_A, AT_AA], b"\xaa\xbb", Some(b"\xaa\xbc")),
    (&[ROOT, AT_A, AT_AA], b"\xaa\xbc", Some(b"\xff")),
    (&[ROOT], b"\xff", None),
];

fn job(alloc: Global, root: &[u8], key: &[u8]) -> Result<NextJob, Fail> {
    let key = Bytes::from_slice(alloc, key)?;
    Ok(NextJob::new(alloc, NodeHash(hash256(root)), key)?)
}

// The job, fed with its wanted node.
fn fed(mut job: NextJob, node: &[u8]) -> Result<NextJob, Fail> {
    let Some(hash) = job.want() else {
        return Err(Fail::new("no node is wanted"));
    };
    if hash.0 != hash256(node) {
        return Err(Fail::new("another node is wanted"));
    }
    match job.feed(node) {
        Ok(()) => Ok(job),
        Err(_) => Err(Fail::new("a node is refused")),
    }
}

// The answer of a job that is fed with just these nodes.
fn found(alloc: Global, nodes: &[&[u8]], key: &[u8]) -> Result<Option<Bytes>, Fail> {
    let [root, ..] = nodes else {
        return Err(Fail::new("no root"));
    };
    let mut job = job(alloc, root, key)?;
    for node in nodes {
        job = fed(job, node)?;
    }
    match job.want() {
        Some(_) => Err(Fail::new("one more node is wanted")),
        None => Ok(job.answer()),
    }
}

fn is(answer: &Option<Bytes>, want: Option<&[u8]>) -> bool {
    answer.as_ref().map(|key| key.as_slice()) == want
}

#[test]
fn searches(rt: HostRuntime) -> Result<(), Fail> {
    let alloc = rt.alloc();
    for (nodes, key, want) in SEARCHES {
        assert!(rt; is(&found(alloc, nodes, key)?, want));
    }
    Ok(())
}
