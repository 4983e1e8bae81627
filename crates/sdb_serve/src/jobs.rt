ghost use Rattle.std.specs.Prelude.{◌≡◌, ◌⊎◌, List, IfErr, IfOk, OnErr, OnOk};
ghost use Rattle.sdb_io.specs.Faults.{CountsFault};
ghost use Rattle.sdb_base.specs.Keeping.{Commits};
ghost use Rattle.sdb_base.specs.declared.Block.{Block};
ghost use Rattle.sdb_base.specs.declared.numbers.KeeperCall.TheVariants as calls;
ghost use Rattle.sdb_model.specs.Clear.{Clear};
ghost use Rattle.sdb_script.specs.LineTexts.{IsWithin};
ghost use Rattle.sdb_script.specs.declared.line.Line.TheVariants as lines;
ghost use Rattle.sdb_serve.specs.Replies.{IsOfKind, MayAnswer};
ghost use Rattle.sdb_serve.specs.Session.{answer_job};
ghost use Rattle.sdb_serve.specs.StageLines.{pipeline_after};
ghost use Rattle.sdb_serve.specs.inner.Blocks.{KeepsBlocks, RepresentsBlocks};
ghost use Rattle.sdb_serve.specs.inner.Kept.{ClearsAlike, IsKeeperCause, MeetsNoBadNode, keeper_disk_failed};

use crate::blocks::BlockMap;
use crate::nodes::NodeFault;
use sdb_base::Keeper;
use sdb_model::{Reply, Task};

/// The answer to a job on the accepted blocks. An `Err` changes neither the blocks nor what is kept.
pub(crate) fn answer_job<K: Keeper>(
    blocks: &mut BlockMap<K>,
    task: Task,
) -> Result<Reply, NodeFault>
    requires { IsWithin (lines.Job task) }
    ensures kind { (all : List Block) → RepresentsBlocks blocks.old all → IfOk result (IsOfKind task (answer_job all task).0) }
    ensures represents { (all : List Block) → RepresentsBlocks blocks.old all
        → OnOk result (RepresentsBlocks blocks.new (answer_job all task).1) }
    ensures pipeline { (all : List Block) → RepresentsBlocks blocks.old all
        → OnOk result (K.pipeline blocks.new.keeper ≡ pipeline_after (answer_job all task).0 (K.pipeline blocks.old.keeper)) }
    ensures unchanged { OnErr result (K.pipeline blocks.new.keeper ≡ K.pipeline blocks.old.keeper) }
    ensures may { (all : List Block) (commits : Commits) → KeepsBlocks K.stands blocks.old all commits → ClearsAlike K.clear
        → IfOk result (MayAnswer all task) }
    ensures keeps { (all : List Block) (commits : Commits) → KeepsBlocks K.stands blocks.old all commits → ClearsAlike K.clear
        → OnOk result ((next : Commits) × KeepsBlocks K.stands blocks.new (answer_job all task).1 next) }
    ensures refused_keeps { (all : List Block) (commits : Commits) → KeepsBlocks K.stands blocks.old all commits
        → OnErr result (KeepsBlocks K.stands blocks.new all commits) }
    ensures sound { (all : List Block) (commits : Commits) → KeepsBlocks K.stands blocks.old all commits → ClearsAlike K.clear
        → Clear (answer_job all task).1 → IfErr result MeetsNoBadNode }
    ensures outside { K.only_reads blocks.old.keeper blocks.new.keeper }
    ensures counted { CountsFault (keeper_disk_failed result) (K.fault_count blocks.old.keeper) (K.fault_count blocks.new.keeper) }
    ensures cause { IfErr result (IsKeeperCause (λ fault. K.due blocks.new.keeper calls.Node fault ⊎ K.due blocks.new.keeper calls.Commit fault)) }
{
    match task {
        Task::Read { id, key } => blocks.read(id, key),
        Task::Next { id, key } => blocks.next(id, key),
        Task::List { id, prefix } => blocks.list(id, prefix),
        Task::Root { id } => Ok(blocks.root(&id)),
        Task::Import(block) => blocks.import(block),
    }
}
