ghost use Rattle.std.specs.Prelude.{◌≡◌, ◌≤◌, ◌+◌, ◌++◌, ◌∷◌, ◌↔◌, [], length, All, OnOk, OnErr, IfOk, IfErr, IsTrue};
ghost use Rattle.std.specs.Option.{option_map};
ghost use Rattle.sdb_io.specs.Faults.{CountsFault};
ghost use Rattle.sdb_base.specs.Content.{Counted, meta_under, node_under};
ghost use Rattle.sdb_base.specs.Keeping.{Commits, HasShortKey, IsCause, IsCommitCause, IsMetaAnswer, IsNodeAnswer, disk_failed, most_in_plain_key, operations};
ghost use Rattle.sdb_mapkeeper.specs.MapKeeping.{AddsCommits, CountsCall, FailsNext, IsRefusalOf, KeepsCommits, NeverFalls, failed_keeper_calls, keeper_calls, keeper_calls_to_fail, kept_meta, kept_node, kept_pipeline};
ghost use Rattle.sdb_base.specs.Pipeline.{StepsUncrowded, with_commit};
ghost use Rattle.sdb_base.specs.TooLong.{first_too_long};
ghost use Rattle.sdb_base.specs.declared.numbers.KeepFault.TheVariants as faults;
ghost use Rattle.sdb_base.specs.declared.numbers.StageAnswer.TheVariants as answers;

use crate::columns::Columns;
use crate::plan::Plan;
use crate::progress::Progress;
use sdb_base::{
    Bytes, Grown, KeepFault, Keeper, Logged, NodeHash, Numbers, Ops, OutOfMemory, Stages,
    too_long_value,
};
use std::alloc::Global;

/// A keeper of commits in memory. It never makes a read, and no fault is ever due.
#[derive(Drop)]
pub struct MapKeeper {
    columns: Columns,
    progress: Progress,
    plan: Plan,
}

impl MapKeeper {
    /// A keeper without commits.
    pub fn new(alloc: Global) -> MapKeeper
        ensures stands { KeepsCommits result [] }
        ensures numbers { (kept_pipeline result).numbers
            ≡ record { accepted = 0; logged = 0; flushed = 0; enacted = 0; cleaned = 0 } }
        ensures steady { keeper_calls_to_fail result ≡ [] }
        ensures calls { keeper_calls result ≡ 0 }
        ensures faults { failed_keeper_calls result ≡ 0 }
    {
        MapKeeper {
            columns: Columns::new(alloc),
            progress: Progress::new(),
            plan: Plan::new(alloc),
        }
    }

    /// Has that call fail, counted from 0 over all its calls of `node`, `meta`, `commit`, `log`, `flush`, `enact`, `clean`
    /// and `grow`: it answers `Disk`, is counted as a fault and changes nothing else. An `Err` changes nothing.
    pub fn fail_at(&mut self, call: u64) -> Result<(), OutOfMemory>
        ensures ok { OnOk result (keeper_calls_to_fail self.new ≡ keeper_calls_to_fail self.old ++ call ∷ []) }
        ensures err { OnErr result (keeper_calls_to_fail self.new ≡ keeper_calls_to_fail self.old) }
        ensures stands { (commits : Commits) → KeepsCommits self.old commits → KeepsCommits self.new commits }
        ensures pipeline { kept_pipeline self.new ≡ kept_pipeline self.old }
        ensures calls { keeper_calls self.new ≡ keeper_calls self.old }
        ensures faults { failed_keeper_calls self.new ≡ failed_keeper_calls self.old }
    {
        self.plan.fail_at(call)
    }
}

impl Keeper for MapKeeper {
    ghost use Rattle.std.specs.Prelude.{Some, []};
    ghost use Rattle.sdb_mapkeeper.specs.MapKeeping.{AddsCommits, KeepsCommits, NeverFalls, failed_keeper_calls, kept_pipeline};
    ghost use Rattle.std.proofs.Common.{rules};
    ghost use Rattle.sdb_mapkeeper.specs.inner.Later.{ends_here, goes_on};

    ghost stands = { KeepsCommits };

    ghost clear = { λ call commits key. Unit {0} };

    ghost pipeline = { kept_pipeline };

    ghost fault_count = { failed_keeper_calls };

    ghost read_count = { λ m. 0 };

    ghost read_bound = { λ m call key. Some 0 };

    ghost due = { λ m call fault. ⊥ };

    ghost comes_after = { NeverFalls };

    ghost only_reads = { NeverFalls };

    ghost later = { AddsCommits };

    /// The bytes of a node; a node without references isn't there. A call that is to fail answers `Disk`, any other that
    /// fails `OutOfMemory`.
    fn node(&mut self, key: &NodeHash) -> Result<Option<Bytes>, KeepFault>
        ensures bytes { IfOk result (λ r. r ≡ option_map (λ (c : Counted). c.bytes) (kept_node self.old key.now.0)) }
        ensures answer { (commits : Commits) → KeepsCommits self.old commits
            → IfOk result (IsNodeAnswer commits key.now.0 (node_under (operations commits) key.now.0)) }
        ensures stands { (commits : Commits) → KeepsCommits self.old commits → KeepsCommits self.new commits }
        ensures later { (commits : Commits) → KeepsCommits self.old commits → AddsCommits self.old commits self.new commits }
        ensures pipeline { kept_pipeline self.new ≡ kept_pipeline self.old }
        ensures cause { IfErr result (IsCause (λ e. ⊥)) }
        ensures after { NeverFalls self.old self.new }
        ensures outside { NeverFalls self.old self.new }
        ensures counted { CountsFault (disk_failed result) (failed_keeper_calls self.old) (failed_keeper_calls self.new) }
        ensures fails { IsTrue (disk_failed result) ↔ FailsNext self.old }
        ensures call { CountsCall self.old self.new }
    {
        self.plan.begin()?;
        match self.columns.node(key) {
            Ok(found) => Ok(found),
            Err(_) => Err(KeepFault::OutOfMemory),
        }
    }

    /// The bytes under a plain key. A call that is to fail answers `Disk`, any other that fails `OutOfMemory`.
    fn meta(&mut self, key: &[u8]) -> Result<Option<Bytes>, KeepFault>
        requires { length key.now ≤ most_in_plain_key }
        ensures bytes { IfOk result (λ r. r ≡ option_map (λ (c : Counted). c.bytes) (kept_meta self.old key.now)) }
        ensures answer { (commits : Commits) → KeepsCommits self.old commits
            → IfOk result (IsMetaAnswer (meta_under (operations commits) key.now)) }
        ensures stands { (commits : Commits) → KeepsCommits self.old commits → KeepsCommits self.new commits }
        ensures later { (commits : Commits) → KeepsCommits self.old commits → AddsCommits self.old commits self.new commits }
        ensures pipeline { kept_pipeline self.new ≡ kept_pipeline self.old }
        ensures cause { IfErr result (IsCause (λ e. ⊥)) }
        ensures after { NeverFalls self.old self.new }
        ensures outside { NeverFalls self.old self.new }
        ensures counted { CountsFault (disk_failed result) (failed_keeper_calls self.old) (failed_keeper_calls self.new) }
        ensures fails { IsTrue (disk_failed result) ↔ FailsNext self.old }
        ensures call { CountsCall self.old self.new }
    {
        self.plan.begin()?;
        match self.columns.meta(key) {
            Ok(found) => Ok(found),
            Err(_) => Err(KeepFault::OutOfMemory),
        }
    }

    /// Accepts a commit and answers its number, from 1. An `Err` changes nothing: `Disk` where the call is to fail, else
    /// `ValueTooLong` with the length of the first value that passes 8,388,608 bytes, else `OutOfMemory`, also where
    /// 2^64 - 1 commits were accepted.
    fn commit(&mut self, ops: Ops) -> Result<u64, KeepFault>
        requires { All HasShortKey ops }
        ensures accepted { (commits : Commits) → KeepsCommits self.old commits
            → OnOk result (KeepsCommits self.new (commits ++ ops ∷ [])) }
        ensures accepted_later { (commits : Commits) → KeepsCommits self.old commits
            → OnOk result (AddsCommits self.old commits self.new (commits ++ ops ∷ [])) }
        ensures refused { (commits : Commits) → KeepsCommits self.old commits
            → OnErr result (KeepsCommits self.new commits) }
        ensures refused_later { (commits : Commits) → KeepsCommits self.old commits
            → OnErr result (AddsCommits self.old commits self.new commits) }
        ensures number { IfOk result (λ n. n ≡ (kept_pipeline self.old).numbers.accepted + 1) }
        ensures pipeline { OnOk result (kept_pipeline self.new ≡ with_commit (kept_pipeline self.old)) }
        ensures unchanged { OnErr result (kept_pipeline self.new ≡ kept_pipeline self.old) }
        ensures cause { IfErr result (IsCommitCause (λ e. ⊥) ops) }
        ensures short { OnOk result (first_too_long ops ≡ None) }
        ensures long { IfErr result (IsRefusalOf ops) }
        ensures after { NeverFalls self.old self.new }
        ensures outside { NeverFalls self.old self.new }
        ensures counted { CountsFault (disk_failed result) (failed_keeper_calls self.old) (failed_keeper_calls self.new) }
        ensures fails { IsTrue (disk_failed result) ↔ FailsNext self.old }
        ensures call { CountsCall self.old self.new }
    {
        self.plan.begin()?;
        if let Some(len) = too_long_value(&ops) {
            return Err(KeepFault::ValueTooLong { len });
        }
        if self.progress.numbers().accepted == u64::MAX {
            return Err(KeepFault::OutOfMemory);
        }
        match self.columns.change(ops) {
            Ok(()) => Ok(self.progress.accept()),
            Err(_) => Err(KeepFault::OutOfMemory),
        }
    }

    fn numbers(&self) -> Numbers {
        self.progress.numbers()
    }

    fn faults(&self) -> u64 {
        self.plan.faults()
    }

    fn reads(&self) -> u64 {
        0
    }

    ghost after_itself = { λ a. (Prim.search rules, Prim.search rules) };

    ghost after_on = { λ a b c p q. (Prim.search (rules, p, q), Prim.search (rules, p, q)) };

    ghost rises = { λ a b p. (p.0, Prim.search rules) };

    ghost only_after = { λ a b p. p };

    ghost only_itself = { λ a. (Prim.search rules, Prim.search rules) };

    ghost only_on = { λ a b c p q. (Prim.search (rules, p, q), Prim.search (rules, p, q)) };

    ghost later_itself = { λ a g stands. ((Prim.search rules, Prim.search rules), ([], ends_here g)) };

    ghost later_on = { λ a b c g h i p q. ((Prim.search (rules, p.0, q.0), Prim.search (rules, p.0, q.0)), goes_on g h i p.1 q.1) };

    ghost later_after = { λ a b g h p. p.0 };

    ghost begins = { λ a b g h p. p.1 };

    ghost as_many = { λ a g stands. stands.count };
}

impl Stages for MapKeeper {
    ghost use Rattle.sdb_mapkeeper.specs.MapKeeping.{kept_pipeline};
    ghost use Rattle.sdb_base.specs.Pipeline.{StepsUncrowded};

    ghost steps = { λ a answer b. StepsUncrowded (kept_pipeline a) answer (kept_pipeline b) };

    /// Logs the oldest commit that isn't logged, or is `Idle` where there is none. Fails only where the call is to.
    fn log(&mut self) -> Result<Logged, KeepFault>
        ensures steps { IfOk result (λ r. StepsUncrowded (kept_pipeline self.old) (answers.Logged r) (kept_pipeline self.new)) }
        ensures unchanged { OnErr result (kept_pipeline self.new ≡ kept_pipeline self.old) }
        ensures stands { (commits : Commits) → KeepsCommits self.old commits → KeepsCommits self.new commits }
        ensures later { (commits : Commits) → KeepsCommits self.old commits → AddsCommits self.old commits self.new commits }
        ensures cause { IfErr result (IsCause (λ e. ⊥)) }
        ensures fault { IfErr result (λ e. e ≡ faults.Disk) }
        ensures after { NeverFalls self.old self.new }
        ensures counted { CountsFault (disk_failed result) (failed_keeper_calls self.old) (failed_keeper_calls self.new) }
        ensures fails { IsTrue (disk_failed result) ↔ FailsNext self.old }
        ensures call { CountsCall self.old self.new }
    {
        self.plan.begin()?;
        Ok(self.progress.log())
    }

    /// Flushes what is logged, and answers how many commits that are. Fails only where the call is to.
    fn flush(&mut self) -> Result<u64, KeepFault>
        ensures steps { IfOk result (λ r. StepsUncrowded (kept_pipeline self.old) (answers.Flushed r) (kept_pipeline self.new)) }
        ensures unchanged { OnErr result (kept_pipeline self.new ≡ kept_pipeline self.old) }
        ensures stands { (commits : Commits) → KeepsCommits self.old commits → KeepsCommits self.new commits }
        ensures later { (commits : Commits) → KeepsCommits self.old commits → AddsCommits self.old commits self.new commits }
        ensures cause { IfErr result (IsCause (λ e. ⊥)) }
        ensures fault { IfErr result (λ e. e ≡ faults.Disk) }
        ensures after { NeverFalls self.old self.new }
        ensures counted { CountsFault (disk_failed result) (failed_keeper_calls self.old) (failed_keeper_calls self.new) }
        ensures fails { IsTrue (disk_failed result) ↔ FailsNext self.old }
        ensures call { CountsCall self.old self.new }
    {
        self.plan.begin()?;
        Ok(self.progress.flush())
    }

    /// Enacts the oldest flushed commit that isn't enacted, and answers its number. Fails only where the call is to.
    fn enact(&mut self) -> Result<Option<u64>, KeepFault>
        ensures steps { IfOk result (λ r. StepsUncrowded (kept_pipeline self.old) (answers.Enacted r) (kept_pipeline self.new)) }
        ensures unchanged { OnErr result (kept_pipeline self.new ≡ kept_pipeline self.old) }
        ensures stands { (commits : Commits) → KeepsCommits self.old commits → KeepsCommits self.new commits }
        ensures later { (commits : Commits) → KeepsCommits self.old commits → AddsCommits self.old commits self.new commits }
        ensures cause { IfErr result (IsCause (λ e. ⊥)) }
        ensures fault { IfErr result (λ e. e ≡ faults.Disk) }
        ensures after { NeverFalls self.old self.new }
        ensures counted { CountsFault (disk_failed result) (failed_keeper_calls self.old) (failed_keeper_calls self.new) }
        ensures fails { IsTrue (disk_failed result) ↔ FailsNext self.old }
        ensures call { CountsCall self.old self.new }
    {
        self.plan.begin()?;
        Ok(self.progress.enact())
    }

    /// Cleans what is enacted, and answers how many commits that are. Fails only where the call is to.
    fn clean(&mut self) -> Result<u64, KeepFault>
        ensures steps { IfOk result (λ r. StepsUncrowded (kept_pipeline self.old) (answers.Cleaned r) (kept_pipeline self.new)) }
        ensures unchanged { OnErr result (kept_pipeline self.new ≡ kept_pipeline self.old) }
        ensures stands { (commits : Commits) → KeepsCommits self.old commits → KeepsCommits self.new commits }
        ensures later { (commits : Commits) → KeepsCommits self.old commits → AddsCommits self.old commits self.new commits }
        ensures cause { IfErr result (IsCause (λ e. ⊥)) }
        ensures fault { IfErr result (λ e. e ≡ faults.Disk) }
        ensures after { NeverFalls self.old self.new }
        ensures counted { CountsFault (disk_failed result) (failed_keeper_calls self.old) (failed_keeper_calls self.new) }
        ensures fails { IsTrue (disk_failed result) ↔ FailsNext self.old }
        ensures call { CountsCall self.old self.new }
    {
        self.plan.begin()?;
        Ok(self.progress.clean())
    }

    /// Is `Idle`: no index grows. Fails only where the call is to.
    fn grow(&mut self) -> Result<Grown, KeepFault>
        ensures steps { IfOk result (λ r. StepsUncrowded (kept_pipeline self.old) (answers.Grown r) (kept_pipeline self.new)) }
        ensures unchanged { OnErr result (kept_pipeline self.new ≡ kept_pipeline self.old) }
        ensures stands { (commits : Commits) → KeepsCommits self.old commits → KeepsCommits self.new commits }
        ensures later { (commits : Commits) → KeepsCommits self.old commits → AddsCommits self.old commits self.new commits }
        ensures cause { IfErr result (IsCause (λ e. ⊥)) }
        ensures fault { IfErr result (λ e. e ≡ faults.Disk) }
        ensures after { NeverFalls self.old self.new }
        ensures counted { CountsFault (disk_failed result) (failed_keeper_calls self.old) (failed_keeper_calls self.new) }
        ensures fails { IsTrue (disk_failed result) ↔ FailsNext self.old }
        ensures call { CountsCall self.old self.new }
    {
        self.plan.begin()?;
        Ok(Grown::Idle)
    }
}
