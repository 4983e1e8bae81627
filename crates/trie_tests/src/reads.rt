use sdb_base::{Bytes, NodeHash};
use sdb_blake2::hash256;
use std::alloc::Global;
use std::test::*;
use trie_read::ReadJob;

// Nodes on a key's way from the root on, the key, and its value.
const READS: [(&[&[u8]], &[u8], Option<&[u8]>); 7] = [
    (&[b"\x42\xaa\x00"], b"\xaa", Some(b"")),
    (&[b"\x42\xaa\x00"], b"\xab", None),
    (&[BRANCH], b"\xaa", Some(b"\x01")),
    (&[BRANCH], b"\xaa\xbb", Some(b"\x02")),
    (&[BRANCH], b"\xaa\xbc", None),
    (&[MIXED], b"\xaa", Some(&[0; 29])),
    (&[MIXED, HASHED], b"\xab", Some(&[0; 30])),
];

// The root node of a key and one that goes on from it.
pub(crate) const BRANCH: &[u8] = b"\xc2\xaa\x00\x08\x04\x01\x10\x41\x0b\x04\x02";

// The root node of two keys, of which one's node is inline, and the other's has 32 bytes.
pub(crate) const MIXED: &[u8] =
    b"\x81\x0a\x00\x0c\x7c\x40\x74\x00\x00\x00\x00\x00\x00\x00\x00\x00\x00\x00\x00\x00\x00\x00\x00\x00\x00\x00\x00\x00\x00\x00\x00\x00\x00\x00\x00\x00\x80\x54\x53\xca\x7f\x0a\x10\x74\xf8\xa9\x12\x05\x8d\xd5\xb3\x69\x87\xee\xf0\xcf\x2b\xec\xac\xc8\x39\xe6\x8b\x3d\xe3\x8f\x66\x7f\xeb";

pub(crate) const HASHED: &[u8] =
    b"\x40\x78\x00\x00\x00\x00\x00\x00\x00\x00\x00\x00\x00\x00\x00\x00\x00\x00\x00\x00\x00\x00\x00\x00\x00\x00\x00\x00\x00\x00\x00\x00";

// A root node above the node of the empty trie.
const ABOVE_NOTHING: &[u8] =
    b"\x80\x03\x00\x80\x03\x17\x0a\x2e\x75\x97\xb7\xb7\xe3\xd8\x4c\x05\x39\x1d\x13\x9a\x62\xb1\x57\xe7\x87\x86\xd8\xc0\x82\xf2\x9d\xcf\x4c\x11\x13\x14\x10\x41\x0b\x04\x02";

fn job(alloc: Global, root: &[u8], key: &[u8]) -> Result<ReadJob, Fail> {
    let key = Bytes::from_slice(alloc, key)?;
    Ok(ReadJob::new(alloc, NodeHash(hash256(root)), key)?)
}

// The job, fed with its wanted node.
fn fed(mut job: ReadJob, node: &[u8]) -> Result<ReadJob, Fail> {
    let Some(hash) = job.want() else {
        return Err(Fail::new("no node is wanted"));
    };
    if hash.0 != hash256(node) {
        return Err(Fail::new("another node is wanted"));
    }
    match job.feed(node) {
        Ok(()) => Ok(job),
        Err(_) => Err(Fail::new("a node is refused")),
    }
}

#[test]
fn reads(rt: HostRuntime) -> Result<(), Fail> {
    let alloc = rt.alloc();
    for (nodes, key, want) in READS {
        let [root, ..] = nodes else {
            return Err(Fail::new("no root"));
        };
        let mut job = job(alloc, root, key)?;
        for node in nodes {
            job = fed(job, node)?;
        }
        assert!(rt; job.want().is_none());
        let value = job.answer();
        assert!(rt; value.as_ref().map(|v| v.as_slice()) == want);
    }
    Ok(())
}

// Bytes that are refused, after which the same node is wanted.
fn refused(mut job: ReadJob, bytes: &[u8]) -> Result<ReadJob, Fail> {
    let Some(hash) = job.want() else {
        return Err(Fail::new("no node is wanted"));
    };
    let wanted = *hash;
    if job.feed(bytes).is_ok() {
        return Err(Fail::new("a bad node is taken"));
    }
    match job.want() {
        Some(hash) if *hash == wanted => Ok(job),
        _ => Err(Fail::new("another node is wanted")),
    }
}

#[test]
fn refuses(rt: HostRuntime) -> Result<(), Fail> {
    let alloc = rt.alloc();
    let at_root = job(alloc, ABOVE_NOTHING, b"\x00")?;
    let still = refused(refused(at_root, b"")?, b"\x20")?;
    let below = fed(still, ABOVE_NOTHING)?;
    let end = refused(refused(below, b"\x00")?, BRANCH.split_at(5).0)?;
    drop(end);
    Ok(())
}
