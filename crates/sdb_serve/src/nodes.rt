ghost use Rattle.std.specs.Prelude.{◌≡◌, ◌≤◌, ◌++◌, ◌∷◌, ℕ, List, [], All, IfErr, IfOk, OnErr, OnOk, length};
ghost use Rattle.std.specs.FinMap.{get};
ghost use Rattle.sdb_io.specs.Faults.{CountsFault};
ghost use Rattle.sdb_base.specs.Keeping.{Commits};
ghost use Rattle.sdb_base.specs.Pipeline.{with_commit};
ghost use Rattle.sdb_base.specs.declared.numbers.KeeperCall.TheVariants as calls;
ghost use Rattle.sdb_model.specs.State.{State, apply, no_keys};
ghost use Rattle.trie_change.specs.Deltas.{IsDelta, IsDeltaOf};
ghost use Rattle.trie_model.specs.Fetches.{keys_with_prefix, next_key};
ghost use Rattle.trie_model.specs.Limits.{ChangesAreWithin};
ghost use Rattle.trie_model.specs.Nodes.{stored_nodes};
ghost use Rattle.trie_model.specs.Trie.{trie_root};
ghost use Rattle.sdb_blake2.specs.Blake2b.{H};
ghost use Rattle.sdb_serve.specs.BlockCommits.{references_to};
ghost use Rattle.sdb_serve.specs.inner.Kept.{ClearsAlike, IsKeeperCause, IsKept, IsKeptState, MeetsNoBadNode, keeper_disk_failed};
ghost use Rattle.sdb_serve.specs.declared.nodes.NodeFault.TheVariants as faults;

use sdb_base::{Bytes, Changes, KeepFault, Keeper, Keys, NodeHash, NodeList, Op, Ops, OutOfMemory};
use std::alloc::{AllocError, Global};
use trie_change::{ChangeJob, Delta};
use trie_read::{NextJob, ReadJob, TrieFault, WalkJob};

/// Why a job over nodes came to no answer.
#[derive(Clone, Copy, Debug, PartialEq, Eq)]
pub(crate) enum NodeFault {
    /// There was no memory, or 2^64 - 1 nodes were fetched.
    OutOfMemory,
    /// What is kept under this hash is no node that hangs where it is wanted, or nothing is.
    BadNode {
        /// The hash of the wanted node.
        hash: NodeHash,
    },
    /// The keeper answered this fault, which isn't want of memory.
    Keep(KeepFault),
}

impl From<AllocError> for NodeFault {
    ghost from_gives = { λ _ e. e ≡ faults.OutOfMemory };

    fn from(_e: AllocError) -> NodeFault {
        NodeFault::OutOfMemory
    }
}

impl From<TrieFault> for NodeFault {
    ghost use Rattle.sdb_serve.specs.inner.Kept.{node_fault_of};

    ghost from_gives = { λ fault e. e ≡ node_fault_of fault };

    fn from(fault: TrieFault) -> NodeFault {
        match fault {
            TrieFault::BadNode { hash } => NodeFault::BadNode { hash },
            TrieFault::OutOfMemory => NodeFault::OutOfMemory,
        }
    }
}

impl From<KeepFault> for NodeFault {
    ghost use Rattle.sdb_serve.specs.inner.Kept.{fault_of_keeper};

    ghost from_gives = { λ fault e. e ≡ fault_of_keeper fault };

    fn from(fault: KeepFault) -> NodeFault {
        match fault {
            KeepFault::OutOfMemory => NodeFault::OutOfMemory,
            KeepFault::Disk
            | KeepFault::Stopped { .. }
            | KeepFault::ValueTooLong { .. }
            | KeepFault::IndexFull { .. }
            | KeepFault::TierFull { .. }
            | KeepFault::Damaged { .. }
            | KeepFault::NumbersEnd { .. } => NodeFault::Keep(fault),
        }
    }
}

/// The bytes of a node.
fn fetch<K: Keeper>(keeper: &mut K, hash: &NodeHash) -> Result<Bytes, NodeFault>
    ensures answer { (commits : Commits) (bytes : List ℕ) → K.stands keeper.old commits → K.clear calls.Node commits hash.now.0
        → IsKept commits bytes → hash.now.0 ≡ H bytes → IfOk result (λ b. b ≡ bytes) }
    ensures sound { (commits : Commits) (bytes : List ℕ) → K.stands keeper.old commits → K.clear calls.Node commits hash.now.0
        → IsKept commits bytes → hash.now.0 ≡ H bytes → IfErr result MeetsNoBadNode }
    ensures stands { (commits : Commits) → K.stands keeper.old commits → K.stands keeper.new commits }
    ensures later { (commits : Commits) → K.stands keeper.old commits → K.later keeper.old commits keeper.new commits }
    ensures outside { K.only_reads keeper.old keeper.new }
    ensures pipeline { K.pipeline keeper.new ≡ K.pipeline keeper.old }
    ensures counted { CountsFault (keeper_disk_failed result) (K.fault_count keeper.old) (K.fault_count keeper.new) }
    ensures cause { IfErr result (IsKeeperCause (K.due keeper.new calls.Node)) }
{
    match keeper.node(hash) {
        Ok(Some(bytes)) => Ok(bytes),
        Ok(None) => Err(NodeFault::BadNode { hash: *hash }),
        Err(fault) => Err(NodeFault::from(fault)),
    }
}

/// The value of a key in the state of a root.
pub(crate) fn value_under<K: Keeper>(
    alloc: Global,
    keeper: &mut K,
    root: NodeHash,
    key: Bytes,
) -> Result<Option<Bytes>, NodeFault>
    ensures answer { (commits : Commits) (m : State) → K.stands keeper.old commits → ClearsAlike K.clear → IsKeptState commits root.0 m
        → IfOk result (λ value. value ≡ get m key) }
    ensures sound { (commits : Commits) (m : State) → K.stands keeper.old commits → ClearsAlike K.clear → IsKeptState commits root.0 m
        → IfErr result MeetsNoBadNode }
    ensures stands { (commits : Commits) → K.stands keeper.old commits → K.stands keeper.new commits }
    ensures later { (commits : Commits) → K.stands keeper.old commits → K.later keeper.old commits keeper.new commits }
    ensures outside { K.only_reads keeper.old keeper.new }
    ensures pipeline { K.pipeline keeper.new ≡ K.pipeline keeper.old }
    ensures counted { CountsFault (keeper_disk_failed result) (K.fault_count keeper.old) (K.fault_count keeper.new) }
    ensures cause { IfErr result (IsKeeperCause (K.due keeper.new calls.Node)) }
{
    let mut job = ReadJob::new(alloc, root, key)?;
    for _ in 0..u64::MAX {
        let Some(hash) = job.want() else {
            return Ok(job.answer());
        };
        let bytes = fetch(keeper, hash)?;
        job.feed(bytes.as_slice())?;
    }
    Err(NodeFault::OutOfMemory)
}

/// The least key above a key in the state of a root.
pub(crate) fn key_above<K: Keeper>(
    alloc: Global,
    keeper: &mut K,
    root: NodeHash,
    key: Bytes,
) -> Result<Option<Bytes>, NodeFault>
    ensures answer { (commits : Commits) (m : State) → K.stands keeper.old commits → ClearsAlike K.clear → IsKeptState commits root.0 m
        → IfOk result (λ next. next ≡ next_key m key) }
    ensures sound { (commits : Commits) (m : State) → K.stands keeper.old commits → ClearsAlike K.clear → IsKeptState commits root.0 m
        → IfErr result MeetsNoBadNode }
    ensures stands { (commits : Commits) → K.stands keeper.old commits → K.stands keeper.new commits }
    ensures later { (commits : Commits) → K.stands keeper.old commits → K.later keeper.old commits keeper.new commits }
    ensures outside { K.only_reads keeper.old keeper.new }
    ensures pipeline { K.pipeline keeper.new ≡ K.pipeline keeper.old }
    ensures counted { CountsFault (keeper_disk_failed result) (K.fault_count keeper.old) (K.fault_count keeper.new) }
    ensures cause { IfErr result (IsKeeperCause (K.due keeper.new calls.Node)) }
{
    let mut job = NextJob::new(alloc, root, key)?;
    for _ in 0..u64::MAX {
        let Some(hash) = job.want() else {
            return Ok(job.answer());
        };
        let bytes = fetch(keeper, hash)?;
        job.feed(bytes.as_slice())?;
    }
    Err(NodeFault::OutOfMemory)
}

/// The keys with a prefix in the state of a root, rising.
pub(crate) fn keys_under<K: Keeper>(
    alloc: Global,
    keeper: &mut K,
    root: NodeHash,
    prefix: Bytes,
) -> Result<Keys, NodeFault>
    ensures answer { (commits : Commits) (m : State) → K.stands keeper.old commits → ClearsAlike K.clear → IsKeptState commits root.0 m
        → IfOk result (λ keys. keys ≡ keys_with_prefix m prefix) }
    ensures sound { (commits : Commits) (m : State) → K.stands keeper.old commits → ClearsAlike K.clear → IsKeptState commits root.0 m
        → IfErr result MeetsNoBadNode }
    ensures stands { (commits : Commits) → K.stands keeper.old commits → K.stands keeper.new commits }
    ensures later { (commits : Commits) → K.stands keeper.old commits → K.later keeper.old commits keeper.new commits }
    ensures outside { K.only_reads keeper.old keeper.new }
    ensures pipeline { K.pipeline keeper.new ≡ K.pipeline keeper.old }
    ensures counted { CountsFault (keeper_disk_failed result) (K.fault_count keeper.old) (K.fault_count keeper.new) }
    ensures cause { IfErr result (IsKeeperCause (K.due keeper.new calls.Node)) }
{
    let mut job = WalkJob::new(alloc, root, prefix)?;
    for _ in 0..u64::MAX {
        let Some(hash) = job.want() else {
            return Ok(job.answer());
        };
        let bytes = fetch(keeper, hash)?;
        job.feed(bytes.as_slice())?;
    }
    Err(NodeFault::OutOfMemory)
}

/// What changes make of the state of a root.
pub(crate) fn changed<K: Keeper>(
    alloc: Global,
    keeper: &mut K,
    root: NodeHash,
    changes: Changes,
) -> Result<Delta, NodeFault>
    requires { ChangesAreWithin changes }
    ensures answer { (commits : Commits) (m : State) → K.stands keeper.old commits → ClearsAlike K.clear → IsKeptState commits root.0 m
        → IfOk result (λ delta. IsDelta delta m (apply m changes)) }
    ensures sound { (commits : Commits) (m : State) → K.stands keeper.old commits → ClearsAlike K.clear → IsKeptState commits root.0 m
        → IfErr result MeetsNoBadNode }
    ensures short { IfOk result (λ d. All (λ n. length n.bytes ≤ 4200000) d.puts) }
    ensures stands { (commits : Commits) → K.stands keeper.old commits → K.stands keeper.new commits }
    ensures later { (commits : Commits) → K.stands keeper.old commits → K.later keeper.old commits keeper.new commits }
    ensures outside { K.only_reads keeper.old keeper.new }
    ensures pipeline { K.pipeline keeper.new ≡ K.pipeline keeper.old }
    ensures counted { CountsFault (keeper_disk_failed result) (K.fault_count keeper.old) (K.fault_count keeper.new) }
    ensures cause { IfErr result (IsKeeperCause (K.due keeper.new calls.Node)) }
{
    let mut job = ChangeJob::new(alloc, root, changes)?;
    for _ in 0..u64::MAX {
        let Some(hash) = job.want() else {
            return Ok(job.finish()?);
        };
        let bytes = fetch(keeper, hash)?;
        job.feed(bytes.as_slice())?;
    }
    Err(NodeFault::OutOfMemory)
}

/// What changes make of the state without any key.
pub(crate) fn created(alloc: Global, changes: Changes) -> Result<Delta, OutOfMemory>
    requires { ChangesAreWithin changes }
    ensures answer { IfOk result (λ delta. IsDeltaOf delta (trie_root (apply no_keys changes)) (stored_nodes (apply no_keys changes)) []) }
    ensures short { IfOk result (λ d. All (λ n. length n.bytes ≤ 4200000) d.puts) }
{
    ChangeJob::on_empty(alloc, changes)?.finish()
}

/// Keeps the nodes that a change puts, by one commit with a reference for each. None of them is too long, and an `Err` changes
/// nothing that is kept.
pub(crate) fn keep<K: Keeper>(
    alloc: Global,
    keeper: &mut K,
    puts: NodeList,
) -> Result<(), NodeFault>
    requires { All (λ n. length n.bytes ≤ 4200000) puts }
    ensures kept { (commits : Commits) → K.stands keeper.old commits
        → OnOk result (K.stands keeper.new (commits ++ references_to puts ∷ [])) }
    ensures kept_later { (commits : Commits) → K.stands keeper.old commits
        → OnOk result (K.later keeper.old commits keeper.new (commits ++ references_to puts ∷ [])) }
    ensures refused { (commits : Commits) → K.stands keeper.old commits → OnErr result (K.stands keeper.new commits) }
    ensures refused_later { (commits : Commits) → K.stands keeper.old commits
        → OnErr result (K.later keeper.old commits keeper.new commits) }
    ensures outside { K.only_reads keeper.old keeper.new }
    ensures pipeline { OnOk result (K.pipeline keeper.new ≡ with_commit (K.pipeline keeper.old)) }
    ensures unchanged { OnErr result (K.pipeline keeper.new ≡ K.pipeline keeper.old) }
    ensures counted { CountsFault (keeper_disk_failed result) (K.fault_count keeper.old) (K.fault_count keeper.new) }
    ensures cause { IfErr result (IsKeeperCause (K.due keeper.new calls.Commit)) }
    ensures found { IfErr result MeetsNoBadNode }
{
    let ops = references(alloc, puts)?;
    match keeper.commit(ops) {
        Ok(_) => Ok(()),
        Err(fault) => Err(NodeFault::from(fault)),
    }
}

/// Operations that add a reference to each of some nodes.
fn references(alloc: Global, nodes: NodeList) -> Result<Ops, OutOfMemory>
    ensures { IfOk result (λ ops. ops ≡ references_to nodes) }
{
    let mut ops = Ops::new(alloc);
    for node in nodes.into_vec() {
        ops.push(Op::AddRef {
            key: node.hash,
            bytes: node.bytes,
        })?;
    }
    Ok(ops)
}
