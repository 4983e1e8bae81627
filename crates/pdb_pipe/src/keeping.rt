ghost use Rattle.std.specs.Prelude.{◌≡◌, ◌≢◌, ◌≤◌, ◌<◌, ◌+◌, ◌-◌, ◌^◌, ◌++◌, ◌∷◌, [], ℕ, All, Err, IfErr, IfOk, MatchResult, None, OnErr, OnOk, Option, Some, length};
ghost use Rattle.sdb_io.specs.Faults.{CountsFault};
ghost use Rattle.sdb_base.specs.Content.{meta_under, node_under};
ghost use Rattle.sdb_base.specs.Keeping.{Commits, HasShortKey, IsCause, IsCommitCause, IsMetaAnswer, IsNodeAnswer, disk_failed, most_in_plain_key, operations};
ghost use Rattle.sdb_base.specs.TooLong.{first_too_long};
ghost use Rattle.sdb_base.specs.Pipeline.{with_commit};
ghost use Rattle.sdb_base.specs.declared.numbers.KeeperCall.TheVariants as calls;
ghost use Rattle.sdb_base.specs.declared.numbers.KeepFault.{KeepFault};
ghost use Rattle.sdb_base.specs.declared.Counter.{Counter};

use crate::database::Database;
use pdb_cells::Cells;
use pdb_disk::Disk;
use sdb_base::{Bytes, Counter, KeepFault, Keeper, NodeHash, Numbers, Ops, too_long_value};

impl<D: Disk> Keeper for Database<D> {
    ghost use Rattle.std.specs.Prelude.{Some};
    ghost use Rattle.pdb_pipe.specs.Commits.{NodesAgree, HashesApart, IsClearCall};
    ghost use Rattle.pdb_pipe.specs.Faults.{IsDamaged, IsDue};
    ghost use Rattle.pdb_pipe.specs.Going.{ComesAfter, ComesAfterWith, LeavesDisk};
    ghost use Rattle.pdb_pipe.specs.Reads.{most_reads, reads_for};
    ghost use Rattle.pdb_pipe.specs.Standing.{StandsFor, pipeline_of};
    ghost use Rattle.pdb_pipe.specs.inner.After.{after_itself, after_on, after_rises, leaves_after, leaves_itself, leaves_on, with_itself, with_on};
    ghost use Rattle.pdb_pipe.specs.inner.Counting.{as_many};

    ghost stands = { λ db commits. StandsFor D.tells D.clock D.past db commits };

    ghost clear = { IsClearCall };

    ghost pipeline = { λ db. pipeline_of db };

    ghost fault_count = { λ db. D.fault_count db.redo.log.disk };

    ghost read_count = { λ db. db.redo.reads };

    ghost read_bound = { λ db call key. Some most_reads };

    ghost due = { λ db call fault. IsDue D.tells D.clock D.past db call fault };

    ghost comes_after = { λ a b. ComesAfter D.clock D.past D.fault_count a b };

    ghost only_reads = { λ a b. LeavesDisk D.clock D.past D.fault_count a b };

    ghost later = { λ a g b h. ComesAfterWith D.clock D.past D.fault_count a g b h };

    /// The bytes of a node: those in the queue, else those of the cells after all records. A node without references may still
    /// be there. It is answered also after a write, cut or sync failed.
    fn node(&mut self, key: &NodeHash) -> Result<Option<Bytes>, KeepFault>
        ensures cost { MatchResult result (λ r. self.new.redo.reads ≤ self.old.redo.reads + reads_for r)
            (λ e. self.new.redo.reads ≤ self.old.redo.reads + most_reads) }
        ensures answer { (commits : Commits) → StandsFor D.tells D.clock D.past self.old commits → NodesAgree commits key.now.0
            → IfOk result (IsNodeAnswer commits key.now.0 (node_under (operations commits) key.now.0)) }
        ensures stands { (commits : Commits) → StandsFor D.tells D.clock D.past self.old commits
            → StandsFor D.tells D.clock D.past self.new commits }
        ensures later { (commits : Commits) → StandsFor D.tells D.clock D.past self.old commits
            → ComesAfterWith D.clock D.past D.fault_count self.old commits self.new commits }
        ensures after { ComesAfter D.clock D.past D.fault_count self.old self.new }
        ensures outside { LeavesDisk D.clock D.past D.fault_count self.old self.new }
        ensures pipeline { pipeline_of self.new ≡ pipeline_of self.old }
        ensures counted { CountsFault (disk_failed result) (D.fault_count self.old.redo.log.disk) (D.fault_count self.new.redo.log.disk) }
        ensures damage { IfErr result (IsCause (IsDamaged D.tells D.clock D.past self.old 0)) }
        ensures cause { IfErr result (IsCause (IsDue D.tells D.clock D.past self.new calls.Node)) }
        ensures reads { self.new.redo.reads ≤ self.old.redo.reads + most_reads }
    {
        self.find_node(key)
    }

    /// The bytes under a plain key of at most 1,024 bytes: those in the queue, else those of the cells after all records. It is
    /// answered also after a write, cut or sync failed.
    fn meta(&mut self, key: &[u8]) -> Result<Option<Bytes>, KeepFault>
        requires { length key.now ≤ most_in_plain_key }
        ensures cost { MatchResult result (λ r. self.new.redo.reads ≤ self.old.redo.reads + reads_for r)
            (λ e. self.new.redo.reads ≤ self.old.redo.reads + most_reads) }
        ensures answer { (commits : Commits) → StandsFor D.tells D.clock D.past self.old commits → HashesApart commits key.now
            → IfOk result (IsMetaAnswer (meta_under (operations commits) key.now)) }
        ensures stands { (commits : Commits) → StandsFor D.tells D.clock D.past self.old commits
            → StandsFor D.tells D.clock D.past self.new commits }
        ensures later { (commits : Commits) → StandsFor D.tells D.clock D.past self.old commits
            → ComesAfterWith D.clock D.past D.fault_count self.old commits self.new commits }
        ensures after { ComesAfter D.clock D.past D.fault_count self.old self.new }
        ensures outside { LeavesDisk D.clock D.past D.fault_count self.old self.new }
        ensures pipeline { pipeline_of self.new ≡ pipeline_of self.old }
        ensures counted { CountsFault (disk_failed result) (D.fault_count self.old.redo.log.disk) (D.fault_count self.new.redo.log.disk) }
        ensures damage { IfErr result (IsCause (IsDamaged D.tells D.clock D.past self.old 1)) }
        ensures cause { IfErr result (IsCause (IsDue D.tells D.clock D.past self.new calls.Meta)) }
        ensures reads { self.new.redo.reads ≤ self.old.redo.reads + most_reads }
    {
        self.find_meta(key)
    }

    /// Accepts a commit into the queue and answers its number, from 1. An `Err` changes nothing: `Stopped` exactly where an earlier
    /// write, cut or sync failed, else `NumbersEnd` exactly where 2^64 - 1 commits were accepted, else `ValueTooLong` exactly where a
    /// value passes 8,388,608 bytes, with the length of the first one that does.
    fn commit(&mut self, ops: Ops) -> Result<u64, KeepFault>
        requires { All HasShortKey ops }
        ensures stopped { (call : ℕ) → self.old.redo.stopped ≡ Some call → result ≡ Err (KeepFault.Stopped call) }
        ensures end { self.old.redo.stopped ≡ None → self.old.accepted ≡ 2 ^ 64 - 1
            → result ≡ Err (KeepFault.NumbersEnd Counter.Commits) }
        ensures too_long { (len : ℕ) → self.old.redo.stopped ≡ None → self.old.accepted ≢ 2 ^ 64 - 1
            → first_too_long ops ≡ Some len → result ≡ Err (KeepFault.ValueTooLong len) }
        ensures memory { self.old.redo.stopped ≡ None → self.old.accepted ≢ 2 ^ 64 - 1 → first_too_long ops ≡ None
            → IfErr result (λ e. e ≡ KeepFault.OutOfMemory) }
        ensures same { OnErr result (self.new ≡ self.old) }
        ensures redo { self.new.redo ≡ self.old.redo }
        ensures queued { OnOk result (self.new.queue ≡ self.old.queue ++ ops ∷ []) }
        ensures accepted { (commits : Commits) → StandsFor D.tells D.clock D.past self.old commits
            → OnOk result (StandsFor D.tells D.clock D.past self.new (commits ++ ops ∷ [])) }
        ensures accepted_later { (commits : Commits) → StandsFor D.tells D.clock D.past self.old commits
            → OnOk result (ComesAfterWith D.clock D.past D.fault_count self.old commits self.new (commits ++ ops ∷ [])) }
        ensures refused { (commits : Commits) → StandsFor D.tells D.clock D.past self.old commits
            → OnErr result (StandsFor D.tells D.clock D.past self.new commits) }
        ensures refused_later { (commits : Commits) → StandsFor D.tells D.clock D.past self.old commits
            → OnErr result (ComesAfterWith D.clock D.past D.fault_count self.old commits self.new commits) }
        ensures after { ComesAfter D.clock D.past D.fault_count self.old self.new }
        ensures outside { LeavesDisk D.clock D.past D.fault_count self.old self.new }
        ensures number { IfOk result (λ n. n ≡ self.old.accepted + 1) }
        ensures pipeline { OnOk result (pipeline_of self.new ≡ with_commit (pipeline_of self.old)) }
        ensures unchanged { OnErr result (pipeline_of self.new ≡ pipeline_of self.old) }
        ensures counted { CountsFault (disk_failed result) (D.fault_count self.old.redo.log.disk) (D.fault_count self.new.redo.log.disk) }
        ensures cause { IfErr result (IsCommitCause (IsDue D.tells D.clock D.past self.new calls.Commit) ops) }
    {
        if let Some(call) = self.redo.stopped() {
            return Err(KeepFault::Stopped { call });
        }
        if self.accepted == u64::MAX {
            return Err(KeepFault::NumbersEnd {
                which: Counter::Commits,
            });
        }
        if let Some(len) = too_long_value(&ops) {
            return Err(KeepFault::ValueTooLong { len });
        }
        match self.queue.push(ops) {
            Ok(()) => {
                self.accepted += 1;
                Ok(self.accepted)
            }
            Err(_) => Err(KeepFault::OutOfMemory),
        }
    }

    fn numbers(&self) -> Numbers {
        let recorded = self.redo.recorded();
        Numbers {
            accepted: self.accepted,
            logged: recorded.appended,
            flushed: recorded.flushed,
            enacted: recorded.enacted,
            cleaned: self.cleaned,
        }
    }

    fn faults(&self) -> u64 {
        self.redo.faults()
    }

    fn reads(&self) -> u64 {
        self.redo.reads()
    }

    ghost after_itself = { λ a. after_itself D.clock D.past D.fault_count a };

    ghost after_on = { λ a b c p q. after_on D.clock D.past D.fault_count a b c p q };

    ghost rises = { λ a b p. after_rises D.clock D.past D.fault_count a b p };

    ghost only_after = { λ a b p. leaves_after D.clock D.past D.fault_count a b p };

    ghost only_itself = { λ a. leaves_itself D.clock D.past D.fault_count a };

    ghost only_on = { λ a b c p q. leaves_on D.clock D.past D.fault_count a b c p q };

    ghost later_itself = { λ a g stands. with_itself D.clock D.past D.fault_count a g };

    ghost later_on = { λ a b c g h i p q. with_on D.clock D.past D.fault_count a b c g h i p q };

    ghost later_after = { λ a b g h p. p.0 };

    ghost begins = { λ a b g h p. p.1 };

    ghost as_many = { λ a g stands. as_many D.tells D.clock D.past a g stands };
}
