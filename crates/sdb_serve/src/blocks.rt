ghost use Rattle.std.specs.Prelude.{◌≡◌, ◌↔◌, ◌⊎◌, ◌≤◌, ◌<◌, ◌++◌, List, [], ◌∷◌, All, length, slice_index, vec_len, vec_capacity, IsTrue, IfErr, IfOk, OnOk, OnErr, Some, None};
ghost use Rattle.sdb_io.specs.Faults.{CountsFault};
ghost use Rattle.sdb_base.specs.Keeping.{Commits};
ghost use Rattle.sdb_base.specs.Pipeline.{with_commit};
ghost use Rattle.sdb_base.specs.declared.Block.{Block};
ghost use Rattle.sdb_base.specs.declared.numbers.KeeperCall.TheVariants as calls;
ghost use Rattle.sdb_model.specs.Clear.{Clear};
ghost use Rattle.sdb_model.specs.declared.task.Task.TheVariants as tasks;
ghost use Rattle.sdb_script.specs.LineTexts.{IsBlock};
ghost use Rattle.sdb_serve.specs.Jobs.{after_import, import_reply};
ghost use Rattle.sdb_serve.specs.Replies.{IsOfKind};
ghost use Rattle.sdb_serve.specs.Session.{answer_job};
ghost use Rattle.sdb_serve.specs.StageLines.{pipeline_after};
ghost use Rattle.sdb_serve.specs.BlockCommits.{references_to};
ghost use Rattle.sdb_serve.specs.inner.Kept.{ClearsAlike, IsKeeperCause, MeetsNoBadNode, keeper_disk_failed};

use crate::nodes::{NodeFault, changed, created, keep, key_above, keys_under, value_under};
use sdb_base::{Block, BlockId, Bytes, Keeper, NodeHash, OutOfMemory};
use sdb_model::{Refusal, Reply};
use std::alloc::Global;
use std::collections::BTreeMap;
use trie_change::Delta;

// at most so many blocks have one number
const MOST_SIBLINGS: u32 = 32;

/// A block's number and the root of its state.
#[derive(Clone, Copy)]
pub(crate) struct BlockEntry {
    number: u64,
    root: NodeHash,
}

/// The accepted blocks, each with its number and its root, over a keeper of the stored nodes of their states.
#[derive(Drop)]
pub(crate) struct BlockMap<K> {
    alloc: Global,
    blocks: BTreeMap<BlockId, BlockEntry>,
    // how many blocks have each number
    levels: Vec<u32>,
    pub(crate) keeper: K,
}

impl<K: Keeper> BlockMap<K> {
    ghost use Rattle.std.specs.BTreeMap.{IsUnchanged, Updates, get};
    ghost use Rattle.std.specs.Option.{option_map};
    ghost use Rattle.sdb_serve.specs.declared.blocks.BlockEntry.{BlockEntry};
    ghost use Rattle.sdb_serve.specs.inner.Blocks.{IsNextHistory, IsOneMore, IsSameMap, KeepsBlocks, RepresentsBlocks, id_cmp, with_level};

    /// No blocks, over a keeper without commits.
    pub(crate) fn new(alloc: Global, keeper: K) -> BlockMap<K>
        ensures represents { RepresentsBlocks result [] }
        ensures keeps { K.stands keeper [] → KeepsBlocks K.stands result [] [] }
        ensures keeper { result.keeper ≡ keeper }
    {
        BlockMap {
            alloc,
            blocks: BTreeMap::new(alloc),
            levels: Vec::new(alloc),
            keeper,
        }
    }

    /// The keeper, without the blocks.
    pub(crate) fn into_keeper(self) -> K
        ensures { result ≡ self.keeper }
    {
        let BlockMap { keeper, .. } = self;
        keeper
    }

    /// Whether no block was accepted.
    pub(crate) fn is_empty(&self) -> bool
        ensures { (blocks : List Block) → RepresentsBlocks self.now blocks → (IsTrue result ↔ (blocks ≡ [])) }
    {
        self.levels.is_empty()
    }

    /// Accepts genesis, where no block was accepted. An `Err` changes neither the blocks nor what is kept.
    pub(crate) fn genesis(&mut self, block: Block) -> Result<(), NodeFault>
        requires { IsBlock block }
        ensures represents { RepresentsBlocks self.old [] → OnOk result (RepresentsBlocks self.new (block ∷ [])) }
        ensures keeps { (commits : Commits) → KeepsBlocks K.stands self.old [] commits
            → OnOk result ((next : Commits) × IsOneMore commits next × K.later self.old.keeper commits self.new.keeper next
            × KeepsBlocks K.stands self.new (block ∷ []) next) }
        ensures refused { RepresentsBlocks self.old [] → OnErr result (RepresentsBlocks self.new []) }
        ensures refused_keeps { (commits : Commits) → KeepsBlocks K.stands self.old [] commits
            → OnErr result (KeepsBlocks K.stands self.new [] commits) }
        ensures refused_later { (commits : Commits) → K.stands self.old.keeper commits
            → OnErr result (K.later self.old.keeper commits self.new.keeper commits) }
        ensures outside { K.only_reads self.old.keeper self.new.keeper }
        ensures pipeline { OnOk result (K.pipeline self.new.keeper ≡ with_commit (K.pipeline self.old.keeper)) }
        ensures unchanged { OnErr result (K.pipeline self.new.keeper ≡ K.pipeline self.old.keeper) }
        ensures counted { CountsFault (keeper_disk_failed result) (K.fault_count self.old.keeper) (K.fault_count self.new.keeper) }
        ensures cause { IfErr result (IsKeeperCause (K.due self.new.keeper calls.Commit)) }
        ensures sound { IfErr result MeetsNoBadNode }
    {
        let delta = created(self.alloc, block.changes)?;
        self.accept(block.id, 0, 1, delta)?;
        Ok(())
    }

    /// The root of a block.
    fn root_of(&self, id: &BlockId) -> Option<NodeHash>
        ensures { result ≡ option_map (λ (k : BlockEntry). k.root) (get id_cmp self.now.blocks id.now) }
    {
        match self.blocks.get(id) {
            Some(entry) => Some(entry.root),
            None => None,
        }
    }

    /// The reply to a read of a key in a block's state.
    pub(crate) fn read(&mut self, id: BlockId, key: Bytes) -> Result<Reply, NodeFault>
        ensures kind { (blocks : List Block) → RepresentsBlocks self.old blocks
            → IfOk result (IsOfKind (tasks.Read id key) (answer_job blocks (tasks.Read id key)).0) }
        ensures answer { (blocks : List Block) (commits : Commits) → KeepsBlocks K.stands self.old blocks commits → ClearsAlike K.clear
            → Clear blocks → IfOk result (λ reply. reply ≡ (answer_job blocks (tasks.Read id key)).0) }
        ensures sound { (blocks : List Block) (commits : Commits) → KeepsBlocks K.stands self.old blocks commits → ClearsAlike K.clear
            → Clear blocks → IfErr result MeetsNoBadNode }
        ensures represents { (blocks : List Block) → RepresentsBlocks self.old blocks → RepresentsBlocks self.new blocks }
        ensures keeps { (blocks : List Block) (commits : Commits) → KeepsBlocks K.stands self.old blocks commits
            → KeepsBlocks K.stands self.new blocks commits }
        ensures later { (commits : Commits) → K.stands self.old.keeper commits → K.later self.old.keeper commits self.new.keeper commits }
        ensures outside { K.only_reads self.old.keeper self.new.keeper }
        ensures pipeline { K.pipeline self.new.keeper ≡ K.pipeline self.old.keeper }
        ensures counted { CountsFault (keeper_disk_failed result) (K.fault_count self.old.keeper) (K.fault_count self.new.keeper) }
        ensures cause { IfErr result (IsKeeperCause (K.due self.new.keeper calls.Node)) }
    {
        let Some(root) = self.root_of(&id) else {
            return Ok(Reply::Refused(Refusal::UnknownBlock));
        };
        match value_under(self.alloc, &mut self.keeper, root, key)? {
            Some(value) => Ok(Reply::Value(value)),
            None => Ok(Reply::Nothing),
        }
    }

    /// The reply to a search for the least key above a key in a block's state.
    pub(crate) fn next(&mut self, id: BlockId, key: Bytes) -> Result<Reply, NodeFault>
        ensures kind { (blocks : List Block) → RepresentsBlocks self.old blocks
            → IfOk result (IsOfKind (tasks.Next id key) (answer_job blocks (tasks.Next id key)).0) }
        ensures answer { (blocks : List Block) (commits : Commits) → KeepsBlocks K.stands self.old blocks commits → ClearsAlike K.clear
            → Clear blocks → IfOk result (λ reply. reply ≡ (answer_job blocks (tasks.Next id key)).0) }
        ensures sound { (blocks : List Block) (commits : Commits) → KeepsBlocks K.stands self.old blocks commits → ClearsAlike K.clear
            → Clear blocks → IfErr result MeetsNoBadNode }
        ensures represents { (blocks : List Block) → RepresentsBlocks self.old blocks → RepresentsBlocks self.new blocks }
        ensures keeps { (blocks : List Block) (commits : Commits) → KeepsBlocks K.stands self.old blocks commits
            → KeepsBlocks K.stands self.new blocks commits }
        ensures later { (commits : Commits) → K.stands self.old.keeper commits → K.later self.old.keeper commits self.new.keeper commits }
        ensures outside { K.only_reads self.old.keeper self.new.keeper }
        ensures pipeline { K.pipeline self.new.keeper ≡ K.pipeline self.old.keeper }
        ensures counted { CountsFault (keeper_disk_failed result) (K.fault_count self.old.keeper) (K.fault_count self.new.keeper) }
        ensures cause { IfErr result (IsKeeperCause (K.due self.new.keeper calls.Node)) }
    {
        let Some(root) = self.root_of(&id) else {
            return Ok(Reply::Refused(Refusal::UnknownBlock));
        };
        match key_above(self.alloc, &mut self.keeper, root, key)? {
            Some(next) => Ok(Reply::Key(next)),
            None => Ok(Reply::Nothing),
        }
    }

    /// The reply that lists the keys with a prefix in a block's state.
    pub(crate) fn list(&mut self, id: BlockId, prefix: Bytes) -> Result<Reply, NodeFault>
        ensures kind { (blocks : List Block) → RepresentsBlocks self.old blocks
            → IfOk result (IsOfKind (tasks.List id prefix) (answer_job blocks (tasks.List id prefix)).0) }
        ensures answer { (blocks : List Block) (commits : Commits) → KeepsBlocks K.stands self.old blocks commits → ClearsAlike K.clear
            → Clear blocks → IfOk result (λ reply. reply ≡ (answer_job blocks (tasks.List id prefix)).0) }
        ensures sound { (blocks : List Block) (commits : Commits) → KeepsBlocks K.stands self.old blocks commits → ClearsAlike K.clear
            → Clear blocks → IfErr result MeetsNoBadNode }
        ensures represents { (blocks : List Block) → RepresentsBlocks self.old blocks → RepresentsBlocks self.new blocks }
        ensures keeps { (blocks : List Block) (commits : Commits) → KeepsBlocks K.stands self.old blocks commits
            → KeepsBlocks K.stands self.new blocks commits }
        ensures later { (commits : Commits) → K.stands self.old.keeper commits → K.later self.old.keeper commits self.new.keeper commits }
        ensures outside { K.only_reads self.old.keeper self.new.keeper }
        ensures pipeline { K.pipeline self.new.keeper ≡ K.pipeline self.old.keeper }
        ensures counted { CountsFault (keeper_disk_failed result) (K.fault_count self.old.keeper) (K.fault_count self.new.keeper) }
        ensures cause { IfErr result (IsKeeperCause (K.due self.new.keeper calls.Node)) }
    {
        match self.root_of(&id) {
            Some(root) => Ok(Reply::Listed(keys_under(
                self.alloc,
                &mut self.keeper,
                root,
                prefix,
            )?)),
            None => Ok(Reply::Refused(Refusal::UnknownBlock)),
        }
    }

    /// The reply that is the root of a block's state.
    pub(crate) fn root(&self, id: &BlockId) -> Reply
        ensures kind { (blocks : List Block) → RepresentsBlocks self.now blocks
            → IsOfKind (tasks.Root id.now) (answer_job blocks (tasks.Root id.now)).0 result }
        ensures answer { (blocks : List Block) (commits : Commits) → KeepsBlocks K.stands self.now blocks commits
            → Clear blocks → result ≡ (answer_job blocks (tasks.Root id.now)).0 }
    {
        match self.root_of(id) {
            Some(root) => Reply::Root(root),
            None => Reply::Refused(Refusal::UnknownBlock),
        }
    }

    /// The reply to an import of a block, which is then accepted unless it is refused. An `Err` changes neither the blocks nor
    /// what is kept.
    pub(crate) fn import(&mut self, block: Block) -> Result<Reply, NodeFault>
        requires { IsBlock block }
        ensures answer { (blocks : List Block) → RepresentsBlocks self.old blocks → IfOk result (λ reply. reply ≡ import_reply blocks block) }
        ensures represents { (blocks : List Block) → RepresentsBlocks self.old blocks
            → IfOk result (λ reply. RepresentsBlocks self.new (after_import blocks block reply)) }
        ensures keeps { (blocks : List Block) (commits : Commits) → KeepsBlocks K.stands self.old blocks commits → ClearsAlike K.clear
            → IfOk result (λ reply. (next : Commits) × IsNextHistory reply commits next × K.later self.old.keeper commits self.new.keeper next
            × KeepsBlocks K.stands self.new (after_import blocks block reply) next) }
        ensures refused { (blocks : List Block) → RepresentsBlocks self.old blocks → OnErr result (RepresentsBlocks self.new blocks) }
        ensures refused_keeps { (blocks : List Block) (commits : Commits) → KeepsBlocks K.stands self.old blocks commits
            → OnErr result (KeepsBlocks K.stands self.new blocks commits) }
        ensures refused_later { (commits : Commits) → K.stands self.old.keeper commits
            → OnErr result (K.later self.old.keeper commits self.new.keeper commits) }
        ensures sound { (blocks : List Block) (commits : Commits) → KeepsBlocks K.stands self.old blocks commits → ClearsAlike K.clear
            → Clear blocks → IfErr result MeetsNoBadNode }
        ensures outside { K.only_reads self.old.keeper self.new.keeper }
        ensures pipeline { IfOk result (λ reply. K.pipeline self.new.keeper ≡ pipeline_after reply (K.pipeline self.old.keeper)) }
        ensures unchanged { OnErr result (K.pipeline self.new.keeper ≡ K.pipeline self.old.keeper) }
        ensures counted { CountsFault (keeper_disk_failed result) (K.fault_count self.old.keeper) (K.fault_count self.new.keeper) }
        ensures cause { IfErr result (IsKeeperCause (λ fault. K.due self.new.keeper calls.Node fault ⊎ K.due self.new.keeper calls.Commit fault)) }
    {
        let Some(parent) = self.blocks.get(&block.parent) else {
            return Ok(Reply::Refused(Refusal::UnknownParent));
        };
        if self.blocks.contains_key(&block.id) {
            return Ok(Reply::Refused(Refusal::AlreadyExists));
        }
        let BlockEntry { number, root } = *parent;
        // there are more levels than this number, so that the sum is exact
        let number = number.saturating_add(1);
        let siblings = self.siblings_at(number);
        if siblings >= MOST_SIBLINGS {
            return Ok(Reply::Refused(Refusal::TooManySiblings { number }));
        }
        let delta = changed(self.alloc, &mut self.keeper, root, block.changes)?;
        self.accept(block.id, number, siblings + 1, delta)?;
        Ok(Reply::Imported(number))
    }

    /// How many blocks have a number.
    fn siblings_at(&self, number: u64) -> u32
        ensures { result ≡ slice_index self.now.levels.items number }
    {
        let level = number as usize;
        if level < self.levels.len() {
            self.levels[level]
        } else {
            0
        }
    }

    /// Commits the nodes that a block's changes put and adds the block's entry, so that so many blocks have its number. An `Err`
    /// changes neither the blocks, where none had the id, nor what is kept.
    fn accept(
        &mut self,
        id: BlockId,
        number: u64,
        count: u32,
        delta: Delta,
    ) -> Result<(), NodeFault>
        requires { All (λ n. length n.bytes ≤ 4200000) delta.puts }
        ensures added { OnOk result (Updates id_cmp self.old.blocks self.new.blocks id (Some (record { number = number; root = delta.root }))) }
        ensures levels { OnOk result (self.new.levels.items ≡ with_level self.old.levels.items number count) }
        ensures same { get id_cmp self.old.blocks id ≡ None → OnErr result (IsSameMap self.old self.new) }
        ensures kept { (commits : Commits) → K.stands self.old.keeper commits
            → OnOk result (K.stands self.new.keeper (commits ++ references_to delta.puts ∷ [])) }
        ensures kept_later { (commits : Commits) → K.stands self.old.keeper commits
            → OnOk result (K.later self.old.keeper commits self.new.keeper (commits ++ references_to delta.puts ∷ [])) }
        ensures refused { (commits : Commits) → K.stands self.old.keeper commits → OnErr result (K.stands self.new.keeper commits) }
        ensures refused_later { (commits : Commits) → K.stands self.old.keeper commits
            → OnErr result (K.later self.old.keeper commits self.new.keeper commits) }
        ensures outside { K.only_reads self.old.keeper self.new.keeper }
        ensures pipeline { OnOk result (K.pipeline self.new.keeper ≡ with_commit (K.pipeline self.old.keeper)) }
        ensures unchanged { OnErr result (K.pipeline self.new.keeper ≡ K.pipeline self.old.keeper) }
        ensures counted { CountsFault (keeper_disk_failed result) (K.fault_count self.old.keeper) (K.fault_count self.new.keeper) }
        ensures cause { IfErr result (IsKeeperCause (K.due self.new.keeper calls.Commit)) }
        ensures found { IfErr result MeetsNoBadNode }
    {
        let Delta { root, puts, .. } = delta;
        self.make_room(id, BlockEntry { number, root })?;
        match keep(self.alloc, &mut self.keeper, puts) {
            Ok(()) => {
                self.count_level(number, count);
                Ok(())
            }
            Err(fault) => {
                self.blocks.remove(&id);
                Err(fault)
            }
        }
    }

    /// Adds a block's entry under its id, and makes room for one level more. An `Err` changes nothing.
    fn make_room(&mut self, id: BlockId, entry: BlockEntry) -> Result<(), OutOfMemory>
        ensures added { OnOk result (Updates id_cmp self.old.blocks self.new.blocks id (Some entry)) }
        ensures room { OnOk result (vec_len self.new.levels < vec_capacity self.new.levels) }
        ensures levels { self.new.levels.items ≡ self.old.levels.items }
        ensures keeper { self.new.keeper ≡ self.old.keeper }
        ensures err { OnErr result (IsUnchanged self.old.blocks self.new.blocks) }
    {
        self.levels.reserve(1)?;
        self.blocks.insert(id, entry)?;
        Ok(())
    }

    /// Sets how many blocks have a number, which has a level or is the next.
    fn count_level(&mut self, number: u64, count: u32)
        requires { vec_len self.old.levels < vec_capacity self.old.levels }
        ensures levels { self.new.levels.items ≡ with_level self.old.levels.items number count }
        ensures blocks { self.new.blocks ≡ self.old.blocks }
        ensures keeper { self.new.keeper ≡ self.old.keeper }
    {
        let level = number as usize;
        if level < self.levels.len() {
            self.levels[level] = count;
        } else {
            self.levels.push_reserved(count);
        }
    }
}
