use crate::changes::{NODES, adding, commit, keeper};
use crate::example_nodes::{AT_1, AT_2, AT_100, AT_203, AT_1000, AT_2031, AT_A, AT_AA, ROOT};
use sdb_base::{Bytes, Keeper, NodeHash};
use sdb_blake2::hash256;
use sdb_mapkeeper::MapKeeper;
use std::alloc::Global;
use std::test::*;
use trie_read::{NextJob, ReadJob, WalkJob};

// A job that is fed nodes.
trait Fetches {
    fn wanted(&self) -> Option<NodeHash>;

    // Whether it takes these bytes for the wanted node.
    fn takes(&mut self, bytes: &[u8]) -> bool;
}

impl Fetches for ReadJob {
    fn wanted(&self) -> Option<NodeHash> {
        match self.want() {
            Some(hash) => Some(*hash),
            None => None,
        }
    }

    fn takes(&mut self, bytes: &[u8]) -> bool {
        self.want().is_some() && self.feed(bytes).is_ok()
    }
}

impl Fetches for NextJob {
    fn wanted(&self) -> Option<NodeHash> {
        match self.want() {
            Some(hash) => Some(*hash),
            None => None,
        }
    }

    fn takes(&mut self, bytes: &[u8]) -> bool {
        self.want().is_some() && self.feed(bytes).is_ok()
    }
}

impl Fetches for WalkJob {
    fn wanted(&self) -> Option<NodeHash> {
        match self.want() {
            Some(hash) => Some(*hash),
            None => None,
        }
    }

    fn takes(&mut self, bytes: &[u8]) -> bool {
        self.want().is_some() && self.feed(bytes).is_ok()
    }
}

// How a node was fetched for a job.
#[derive(Clone, Copy, Debug, PartialEq, Eq)]
enum Step {
    // it was fed
    Fed,
    // the keeper's call failed
    Failed,
    // the keeper has nothing under the hash
    Missing,
    // the bytes are no node that hangs there
    Refused,
    // none was wanted
    Done,
}

fn fetch<J: Fetches>(keeper: &mut MapKeeper, job: &mut J) -> Step {
    let Some(hash) = job.wanted() else {
        return Step::Done;
    };
    match keeper.node(&hash) {
        Ok(Some(bytes)) => {
            if job.takes(bytes.as_slice()) {
                Step::Fed
            } else {
                Step::Refused
            }
        }
        Ok(None) => Step::Missing,
        Err(_) => Step::Failed,
    }
}

// Whether nodes are fetched in just these steps.
fn goes<J: Fetches>(keeper: &mut MapKeeper, job: &mut J, steps: &[Step]) -> bool {
    let mut same = true;
    for want in steps {
        same = same && fetch(keeper, job) == *want;
    }
    same
}

// The root's hash, and the jobs of a key under it: its value, the least key above it, and the keys that begin with it.
fn jobs(alloc: Global, key: &[u8]) -> Result<(ReadJob, NextJob, WalkJob), Fail> {
    let root = NodeHash(hash256(ROOT));
    Ok((
        ReadJob::new(alloc, root, Bytes::from_slice(alloc, key)?)?,
        NextJob::new(alloc, root, Bytes::from_slice(alloc, key)?)?,
        WalkJob::new(alloc, root, Bytes::from_slice(alloc, key)?)?,
    ))
}

// The keeper of the stored nodes of a dozen keys, whose third read of a node fails.
fn failing(alloc: Global) -> Result<MapKeeper, Fail> {
    let mut keeper = keeper(alloc, &NODES)?;
    keeper.fail_at(11)?;
    Ok(keeper)
}

// The key 20 30 lies under the nodes at the root, 2 and 203; the next key, 20 31, too.
const UNDER_203: &[u8] = b"\x20\x30";

#[test]
fn a_call_that_fails_is_made_again(rt: HostRuntime) -> Result<(), Fail> {
    let alloc = rt.alloc();
    let steps = [Step::Fed, Step::Fed, Step::Failed, Step::Fed, Step::Done];
    let (mut read, mut next, mut walk) = jobs(alloc, UNDER_203)?;
    assert!(rt; goes(&mut failing(alloc)?, &mut read, &steps));
    assert!(rt; read.answer().as_ref().map(|v| v.as_slice()) == Some(b"\x04".as_slice()));
    let farther = [
        Step::Fed,
        Step::Fed,
        Step::Failed,
        Step::Fed,
        Step::Fed,
        Step::Done,
    ];
    assert!(rt; goes(&mut failing(alloc)?, &mut next, &farther));
    assert!(rt; next.answer().as_ref().map(|v| v.as_slice()) == Some(b"\x20\x31".as_slice()));
    assert!(rt; goes(&mut failing(alloc)?, &mut walk, &steps));
    assert_eq!(rt; walk.answer().len(), 1);
    Ok(())
}

// The nodes but that at 203.
const OTHERS: [&[u8]; 8] = [ROOT, AT_1, AT_100, AT_1000, AT_2, AT_2031, AT_A, AT_AA];

#[test]
fn a_node_that_isnt_there_stays_wanted(rt: HostRuntime) -> Result<(), Fail> {
    let alloc = rt.alloc();
    let mut missing = keeper(alloc, &OTHERS)?;
    let steps = [Step::Fed, Step::Fed, Step::Missing, Step::Missing];
    let (mut read, mut next, mut walk) = jobs(alloc, UNDER_203)?;
    assert!(rt; goes(&mut missing, &mut read, &steps));
    assert!(rt; goes(&mut missing, &mut next, &steps));
    assert!(rt; goes(&mut missing, &mut walk, &steps));
    let hash = NodeHash(hash256(AT_203));
    assert!(rt; read.want() == Some(&hash));
    assert!(rt; next.want() == Some(&hash));
    assert!(rt; walk.want() == Some(&hash));
    Ok(())
}

#[test]
fn other_bytes_under_a_hash_are_refused(rt: HostRuntime) -> Result<(), Fail> {
    let alloc = rt.alloc();
    let hash = NodeHash(hash256(AT_203));
    let steps = [Step::Fed, Step::Fed, Step::Refused, Step::Refused];
    // no node, and one that hangs nowhere but at the root
    for bytes in [b"\x20".as_slice(), b"\x00".as_slice()] {
        let mut damaged = keeper(alloc, &OTHERS)?;
        assert!(rt; commit(&mut damaged, adding(alloc, hash, bytes)?));
        let (mut read, mut next, mut walk) = jobs(alloc, UNDER_203)?;
        assert!(rt; goes(&mut damaged, &mut read, &steps));
        assert!(rt; goes(&mut damaged, &mut next, &steps));
        assert!(rt; goes(&mut damaged, &mut walk, &steps));
    }
    Ok(())
}
