ghost use Rattle.std.specs.Prelude.{◌≡◌, ◌≤◌, ◌+◌, ◌++◌, ◌∷◌, [], ℕ, List, length, All, Option, Some, None, OnOk, OnErr, IfOk, IfErr};
ghost use Rattle.sdb_io.specs.Faults.{CountsFault};
ghost use Rattle.sdb_base.specs.Content.{meta_under, node_under};
ghost use Rattle.sdb_base.specs.Keeping.{Commits, HasShortKey, IsCause, IsCommitCause, IsMetaAnswer, IsNodeAnswer, disk_failed, most_in_plain_key, operations};
ghost use Rattle.sdb_base.specs.Pipeline.{Pipeline, with_commit};
ghost use Rattle.sdb_base.specs.declared.numbers.KeeperCall.TheVariants as calls;
ghost use Rattle.sdb_base.specs.declared.numbers.StageAnswer.TheVariants as answers;

use crate::bytes::Bytes;
use crate::node::NodeHash;
use crate::numbers::{Grown, KeepFault, Logged, Numbers};
use crate::op::Ops;

/// What keeps commits, each a list of operations on two columns: nodes by their hashes, which are counted, and bytes by
/// plain keys.
pub trait Keeper {
    ghost use Rattle.std.specs.Prelude.{◌≡◌, ◌≤◌, ◌++◌, ℕ, List, Option};
    ghost use Rattle.sdb_base.specs.Keeping.{Commits};
    ghost use Rattle.sdb_base.specs.Pipeline.{Pipeline};
    ghost use Rattle.sdb_base.specs.declared.numbers.KeeperCall.{KeeperCall};
    ghost use Rattle.sdb_base.specs.declared.numbers.KeepFault.{KeepFault};

    // the keeper stands for these accepted commits
    ghost stands: { Self → Commits → Type 0 };

    // The way in which the keeper finds keys confuses nothing about these commits where this call asks for this key, a node's
    // hash or a plain key.
    ghost clear: { KeeperCall → Commits → List ℕ → Type 0 };

    // how far commits have come
    ghost pipeline: { Self → Pipeline };

    // how many calls its disk has failed, and how many reads it has made
    ghost fault_count: { Self → ℕ };

    ghost read_count: { Self → ℕ };

    // by how much this call for a key raises the reads at most, where that is known
    ghost read_bound: { Self → KeeperCall → List ℕ → Option ℕ };

    // as the keeper now is, this call may answer this fault
    ghost due: { Self → KeeperCall → KeepFault → Type 0 };

    // the second is what calls made of the first, whatever they stand for
    ghost comes_after: { Self → Self → Type 0 };

    // the second is what look-ups and commits made of the first: the outside was read, and nothing else
    ghost only_reads: { Self → Self → Type 0 };

    // the second with its commits is what calls made of the first with its own
    ghost later: { Self → Commits → Self → Commits → Type 0 };

    /// The bytes of a node. A node without references may still be there.
    fn node(&mut self, key: &NodeHash) -> Result<Option<Bytes>, KeepFault>
        ensures answer { (commits : Commits) → stands self.old commits → clear calls.Node commits key.now.0
            → IfOk result (λ r. IsNodeAnswer commits key.now.0 (node_under (operations commits) key.now.0) r) }
        ensures stands { (commits : Commits) → stands self.old commits → stands self.new commits }
        ensures later { (commits : Commits) → stands self.old commits → later self.old commits self.new commits }
        ensures after { comes_after self.old self.new }
        ensures outside { only_reads self.old self.new }
        ensures pipeline { pipeline self.new ≡ pipeline self.old }
        ensures counted { CountsFault (disk_failed result) (fault_count self.old) (fault_count self.new) }
        ensures cause { IfErr result (IsCause (due self.new calls.Node)) }
        ensures reads { (n : ℕ) → read_bound self.old calls.Node key.now.0 ≡ Some n → read_count self.new ≤ read_count self.old + n }
        ensures bounds { read_bound self.new ≡ read_bound self.old };

    /// The bytes under a plain key of at most 1,024 bytes.
    fn meta(&mut self, key: &[u8]) -> Result<Option<Bytes>, KeepFault>
        requires { length key.now ≤ most_in_plain_key }
        ensures answer { (commits : Commits) → stands self.old commits → clear calls.Meta commits key.now
            → IfOk result (IsMetaAnswer (meta_under (operations commits) key.now)) }
        ensures stands { (commits : Commits) → stands self.old commits → stands self.new commits }
        ensures later { (commits : Commits) → stands self.old commits → later self.old commits self.new commits }
        ensures after { comes_after self.old self.new }
        ensures outside { only_reads self.old self.new }
        ensures pipeline { pipeline self.new ≡ pipeline self.old }
        ensures counted { CountsFault (disk_failed result) (fault_count self.old) (fault_count self.new) }
        ensures cause { IfErr result (IsCause (due self.new calls.Meta)) }
        ensures reads { (n : ℕ) → read_bound self.old calls.Meta key.now ≡ Some n → read_count self.new ≤ read_count self.old + n }
        ensures bounds { read_bound self.new ≡ read_bound self.old };

    /// Accepts a commit and answers its number, from 1. Its plain keys have at most 1,024 bytes. An `Err` changes
    /// nothing.
    fn commit(&mut self, ops: Ops) -> Result<u64, KeepFault>
        requires { All HasShortKey ops }
        ensures accepted { (commits : Commits) → stands self.old commits → OnOk result (stands self.new (commits ++ ops ∷ [])) }
        ensures accepted_later { (commits : Commits) → stands self.old commits → OnOk result (later self.old commits self.new (commits ++ ops ∷ [])) }
        ensures refused { (commits : Commits) → stands self.old commits → OnErr result (stands self.new commits) }
        ensures refused_later { (commits : Commits) → stands self.old commits → OnErr result (later self.old commits self.new commits) }
        ensures after { comes_after self.old self.new }
        ensures outside { only_reads self.old self.new }
        ensures number { IfOk result (λ n. n ≡ (pipeline self.old).numbers.accepted + 1) }
        ensures pipeline { OnOk result (pipeline self.new ≡ with_commit (pipeline self.old)) }
        ensures unchanged { OnErr result (pipeline self.new ≡ pipeline self.old) }
        ensures counted { CountsFault (disk_failed result) (fault_count self.old) (fault_count self.new) }
        ensures cause { IfErr result (IsCommitCause (due self.new calls.Commit) ops) };

    /// How many commits have come how far.
    fn numbers(&self) -> Numbers
        ensures { result ≡ (pipeline self.now).numbers };

    /// How many calls its disk has failed; at 2^64 - 1 the count stays.
    fn faults(&self) -> u64
        ensures { result ≡ fault_count self.now };

    /// How many reads its disk has made; at 2^64 - 1 the count stays.
    fn reads(&self) -> u64
        ensures { result ≡ read_count self.now };

    // a keeper comes after itself, and calls after calls are calls
    ghost after_itself: { (a : Self) → comes_after a a };

    ghost after_on: { (a b c : Self) → comes_after a b → comes_after b c → comes_after a c };

    // the counts never fall
    ghost rises: { (a b : Self) → comes_after a b → (fault_count a ≤ fault_count b) × (read_count a ≤ read_count b) };

    // look-ups and commits are calls, none are such, and such after such are such
    ghost only_after: { (a b : Self) → only_reads a b → comes_after a b };

    ghost only_itself: { (a : Self) → only_reads a a };

    ghost only_on: { (a b c : Self) → only_reads a b → only_reads b c → only_reads a c };

    // the same of keepers with their commits
    ghost later_itself: { (a : Self) (g : Commits) → stands a g → later a g a g };

    ghost later_on: { (a b c : Self) (g h i : Commits) → later a g b h → later b h c i → later a g c i };

    ghost later_after: { (a b : Self) (g h : Commits) → later a g b h → comes_after a b };

    // later commits begin with the earlier ones
    ghost begins: { (a b : Self) (g h : Commits) → later a g b h → (more : Commits) × (h ≡ g ++ more) };

    // there are as many commits as were accepted
    ghost as_many: { (a : Self) (g : Commits) → stands a g → (pipeline a).numbers.accepted ≡ length g };
}

/// The stages by which commits come to the tables: a record of the log, a sync, the tables, the log's end.
pub trait Stages: Keeper {
    ghost use Rattle.std.specs.Prelude.{ℕ};
    ghost use Rattle.sdb_base.specs.declared.numbers.StageAnswer.{StageAnswer};

    // the stage gave this answer, and made the second of the first
    ghost steps: { Self → StageAnswer → Self → Type 0 };

    /// Logs the oldest commit that isn't logged, or makes room for it.
    fn log(&mut self) -> Result<Logged, KeepFault>
        ensures steps { IfOk result (λ r. steps self.old (answers.Logged r) self.new) }
        ensures unchanged { OnErr result (Self.pipeline self.new ≡ Self.pipeline self.old) }
        ensures stands { (commits : Commits) → Self.stands self.old commits → Self.stands self.new commits }
        ensures later { (commits : Commits) → Self.stands self.old commits → Self.later self.old commits self.new commits }
        ensures after { Self.comes_after self.old self.new }
        ensures counted { CountsFault (disk_failed result) (Self.fault_count self.old) (Self.fault_count self.new) }
        ensures cause { IfErr result (IsCause (Self.due self.new calls.Log)) };

    /// Makes sure that what is logged outlasts a crash, and answers how many commits that are.
    fn flush(&mut self) -> Result<u64, KeepFault>
        ensures steps { IfOk result (λ r. steps self.old (answers.Flushed r) self.new) }
        ensures unchanged { OnErr result (Self.pipeline self.new ≡ Self.pipeline self.old) }
        ensures stands { (commits : Commits) → Self.stands self.old commits → Self.stands self.new commits }
        ensures later { (commits : Commits) → Self.stands self.old commits → Self.later self.old commits self.new commits }
        ensures after { Self.comes_after self.old self.new }
        ensures counted { CountsFault (disk_failed result) (Self.fault_count self.old) (Self.fault_count self.new) }
        ensures cause { IfErr result (IsCause (Self.due self.new calls.Flush)) };

    /// Writes the oldest flushed record that isn't enacted to the tables, and answers its number of commits; none where
    /// there is no such record.
    fn enact(&mut self) -> Result<Option<u64>, KeepFault>
        ensures steps { IfOk result (λ r. steps self.old (answers.Enacted r) self.new) }
        ensures unchanged { OnErr result (Self.pipeline self.new ≡ Self.pipeline self.old) }
        ensures stands { (commits : Commits) → Self.stands self.old commits → Self.stands self.new commits }
        ensures later { (commits : Commits) → Self.stands self.old commits → Self.later self.old commits self.new commits }
        ensures after { Self.comes_after self.old self.new }
        ensures counted { CountsFault (disk_failed result) (Self.fault_count self.old) (Self.fault_count self.new) }
        ensures cause { IfErr result (IsCause (Self.due self.new calls.Enact)) };

    /// Makes sure that what is enacted outlasts a crash without its records, and answers how many commits that are.
    fn clean(&mut self) -> Result<u64, KeepFault>
        ensures steps { IfOk result (λ r. steps self.old (answers.Cleaned r) self.new) }
        ensures unchanged { OnErr result (Self.pipeline self.new ≡ Self.pipeline self.old) }
        ensures stands { (commits : Commits) → Self.stands self.old commits → Self.stands self.new commits }
        ensures later { (commits : Commits) → Self.stands self.old commits → Self.later self.old commits self.new commits }
        ensures after { Self.comes_after self.old self.new }
        ensures counted { CountsFault (disk_failed result) (Self.fault_count self.old) (Self.fault_count self.new) }
        ensures cause { IfErr result (IsCause (Self.due self.new calls.Clean)) };

    /// Moves a batch of an index that grows.
    fn grow(&mut self) -> Result<Grown, KeepFault>
        ensures steps { IfOk result (λ r. steps self.old (answers.Grown r) self.new) }
        ensures unchanged { OnErr result (Self.pipeline self.new ≡ Self.pipeline self.old) }
        ensures stands { (commits : Commits) → Self.stands self.old commits → Self.stands self.new commits }
        ensures later { (commits : Commits) → Self.stands self.old commits → Self.later self.old commits self.new commits }
        ensures after { Self.comes_after self.old self.new }
        ensures counted { CountsFault (disk_failed result) (Self.fault_count self.old) (Self.fault_count self.new) }
        ensures cause { IfErr result (IsCause (Self.due self.new calls.Grow)) };
}
