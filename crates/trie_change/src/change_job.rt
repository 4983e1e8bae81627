ghost use Rattle.std.specs.Prelude.{◌≡◌, IfOk};

use crate::delta::{Delta, delta_of};
use crate::expand::pieces_of;
use crate::frontier::{Fed, Piece, Stub};
use crate::in_order::{move_to_set, move_to_unhung};
use crate::room::{larger, move_over};
use crate::settings::{Setting, carry_out, move_all, settings_of};
use sdb_base::{Bytes, Changes, NodeHash, OutOfMemory};
use smallvec::SmallVec;
use std::alloc::{AllocError, Global};
use trie_codec::NodeRef;
use trie_read::{TrieFault, is_bad_below};

/// A change of a state by its trie's nodes.
#[derive(Debug, Drop)]
pub struct ChangeJob {
    alloc: Global,
    // What keys are set to, by rising key; none is left once the pieces have it.
    settings: Vec<Setting>,
    // Where among them the keys are that go on with the wanted node's path.
    at: usize,
    // The nodes that were fed.
    fed: Vec<Fed>,
    wanted: Option<Stub>,
    // The pieces before the wanted node, rising.
    found: Vec<Piece>,
    // What comes after it, the last first.
    later: Vec<Piece>,
}

// A change of a few keys fetches about so many nodes, and knows of about so many pieces, so that nothing needs to grow.
const FIRST_FED: usize = 48;

const FIRST_PIECES: usize = 96;

impl ChangeJob {
    ghost use Rattle.std.specs.Prelude.{◌≡◌, ◌+◌, ◌≤◌, ◌<◌, ◌^◌, ℕ, true, false, List, ◌∷◌, ◌++◌, [], None, Some, Ok, length, reverse, All, IfOk, OnOk, OnErr, IfErr, IfSome, is_some, vec_len, vec_capacity};
    ghost use Rattle.std.specs.Option.{option_map};
    ghost use Rattle.std.specs.FinMap.{entries};
    ghost use Rattle.std.specs.List.{AllByRecursion};
    ghost use Rattle.sdb_base.specs.declared.Change.{Change};
    ghost use Rattle.trie_codec.specs.NodeParts.{node_of_ref};
    ghost use Rattle.trie_codec.specs.Reading.{node_of_bytes};
    ghost use Rattle.trie_model.specs.Fetches.{change_fetches};
    ghost use Rattle.trie_model.specs.Limits.{ChangesAreWithin};
    ghost use Rattle.trie_model.specs.Node.{IsPartial, Node};
    ghost use Rattle.trie_model.specs.Nodes.{PathNode, stored_nodes};
    ghost use Rattle.trie_model.specs.State.{State, apply, no_keys};
    ghost use Rattle.trie_model.specs.Trie.{trie_root};
    ghost use Rattle.trie_root.specs.Suffixes.{IsEntry};
    ghost use Rattle.trie_read.specs.Depth.{is_bad_node};
    ghost use Rattle.trie_read.specs.Reads.{MatchFault};
    ghost use Rattle.trie_read.specs.declared.fault.TrieFault.TheVariants.{OutOfMemory};
    ghost use Rattle.trie_change.specs.Changing.{IsChanging, IsCreating, IsLimitedSetting, KeepsLimits, change_depth, change_wanted, settings_of};
    ghost use Rattle.trie_change.specs.Deltas.{IsDelta, IsDeltaOf};
    ghost use Rattle.trie_change.specs.Frontier.{IsLimited};
    ghost use Rattle.trie_change.specs.inner.InOrder.{set_pairs};
    ghost use Rattle.trie_change.specs.inner.Known.{all_known, known_in};
    ghost use Rattle.trie_change.specs.inner.Merged.{HasBytes};
    ghost use Rattle.trie_change.specs.inner.Pieces.{IsAside, all_items};
    ghost use Rattle.trie_change.specs.inner.Stages.{HasPlaces, IsCarriedOut, IsFedSoFar, IsUnderWay, job_parts};
    ghost use Rattle.trie_change.specs.declared.frontier.Stub.{Stub};

    // A job that has what is set, and knows of nothing, with room for the pieces of a few changes.
    fn begun(alloc: Global, changes: Changes) -> Result<ChangeJob, OutOfMemory>
        requires { ChangesAreWithin changes }
        ensures settings { IfOk result (λ j. set_pairs j.settings.items ≡ settings_of changes) }
        ensures limits { IfOk result (λ j. AllByRecursion IsLimitedSetting j.settings.items) }
        ensures bytes { IfOk result (λ j. AllByRecursion HasBytes j.settings.items) }
        ensures fed { IfOk result (λ j. j.fed.items ≡ []) }
        ensures wanted { IfOk result (λ j. j.wanted ≡ None) }
        ensures found { IfOk result (λ j. j.found.items ≡ []) }
        ensures later { IfOk result (λ j. j.later.items ≡ []) }
        ensures room { IfOk result (HasPlaces 1) }
    {
        let settings = settings_of(alloc, changes)?;
        let Some(room) = settings.len().checked_add(FIRST_PIECES) else {
            return Err(AllocError);
        };
        Ok(ChangeJob {
            alloc,
            settings,
            at: 0,
            fed: Vec::with_capacity(alloc, FIRST_FED)?,
            wanted: None,
            found: Vec::with_capacity(alloc, room)?,
            later: Vec::with_capacity(alloc, room)?,
        })
    }

    /// A job that makes these changes of the state of that root, the last change of each key. Keys, values and the list keep
    /// the limits of a block's changes.
    pub fn new(alloc: Global, root: NodeHash, changes: Changes) -> Result<ChangeJob, OutOfMemory>
        requires { ChangesAreWithin changes }
        ensures changing { (m : State) → All IsEntry (entries m) → root.0 ≡ trie_root m
            → IfOk result (λ j. IsChanging j m changes (change_fetches m changes)) }
        ensures limits { IfOk result KeepsLimits }
    {
        let mut job = ChangeJob::begun(alloc, changes)?;
        let path = SmallVec::new(alloc);
        job.later
            .push_reserved(Piece::Stub(Stub { path, hash: root }));
        job.go_on();
        Ok(job)
    }

    /// A job that makes these changes of the state without any key: it wants no node, drops none, and puts all nodes of the
    /// state that it makes, the root's also where that has no key.
    pub fn on_empty(alloc: Global, changes: Changes) -> Result<ChangeJob, OutOfMemory>
        requires { ChangesAreWithin changes }
        ensures creating { IfOk result (λ j. IsCreating j changes) }
        ensures limits { IfOk result KeepsLimits }
    {
        let mut job = ChangeJob::begun(alloc, changes)?;
        carry_out(&mut job.settings, &mut job.found, &mut job.later);
        move_all(&mut job.later, &mut job.found);
        Ok(job)
    }

    /// The hash of the next node to feed; None where all were fed.
    pub fn want(&self) -> Option<&NodeHash>
        ensures { option_map (λ h. h.now.0) result ≡ change_wanted self.now }
    {
        match &self.wanted {
            Some(wanted) => Some(&wanted.hash),
            None => None,
        }
    }

    /// Takes the bytes of the wanted node. After an `Err` the same node is wanted.
    pub fn feed(&mut self, bytes: &[u8]) -> Result<(), TrieFault>
        requires wanted { is_some (change_wanted self.old) ≡ true }
        requires limits { KeepsLimits self.old }
        ensures limits { KeepsLimits self.new }
        ensures changed { (m : State) (changes : List Change) (n : PathNode) (todo : List PathNode)
            → IsChanging self.old m changes (n ∷ todo) → bytes.now ≡ n.bytes → OnOk result (IsChanging self.new m changes todo) }
        ensures bad { OnOk result (is_bad_node (change_depth self.old) bytes.now ≡ false) }
        ensures err { OnErr result (self.new ≡ self.old) }
        ensures fault { IfErr result (λ f. MatchFault f (is_bad_node (change_depth self.old) bytes.now ≡ true)
            (is_bad_node (change_depth self.old) bytes.now ≡ false) (change_wanted self.old)) }
        ensures sound { (m : State) (changes : List Change) (n : PathNode) (todo : List PathNode)
            → IsChanging self.old m changes (n ∷ todo) → bytes.now ≡ n.bytes → IfErr result (λ f. f ≡ OutOfMemory) }
    {
        let Some(wanted) = &self.wanted else {
            unreachable!()
        };
        let hash = wanted.hash;
        let read = NodeRef::read(bytes);
        let Ok(node) = &read else {
            return Err(TrieFault::BadNode { hash });
        };
        if is_bad_below(wanted.path.len(), bytes, node) {
            return Err(TrieFault::BadNode { hash });
        }
        let Ok(pieces) = pieces_of(
            self.alloc,
            self.settings.as_slice(),
            self.at,
            wanted.path.as_slice(),
            node,
        ) else {
            return Err(TrieFault::OutOfMemory);
        };
        let Ok(bytes) = Bytes::from_slice(self.alloc, bytes) else {
            return Err(TrieFault::OutOfMemory);
        };
        let Ok(()) = self.take(pieces, bytes) else {
            return Err(TrieFault::OutOfMemory);
        };
        Ok(())
    }

    // How many items there can be with so many more.
    fn most_with(&self, more: usize) -> Option<usize>
        ensures { IfSome result (λ most. most ≡ vec_len self.now.found + vec_len self.now.later + vec_len self.now.settings + more) }
    {
        self.found
            .len()
            .checked_add(self.later.len())?
            .checked_add(self.settings.len())?
            .checked_add(more)
    }

    // Makes room for so many pieces more and for one more fed node. An `Err` changes nothing.
    fn make_room(&mut self, more: usize) -> Result<(), OutOfMemory>
        ensures settings { self.new.settings ≡ self.old.settings }
        ensures wanted { self.new.wanted ≡ self.old.wanted }
        ensures fed { self.new.fed.items ≡ self.old.fed.items }
        ensures found { self.new.found.items ≡ self.old.found.items }
        ensures later { self.new.later.items ≡ self.old.later.items }
        ensures room { OnOk result (HasPlaces more self.new × (vec_len self.new.fed + 1 ≤ vec_capacity self.new.fed)) }
        ensures err { OnErr result (self.new ≡ self.old) }
    {
        let Some(most) = self.most_with(more) else {
            return Err(AllocError);
        };
        let Some(most_fed) = self.fed.len().checked_add(1) else {
            return Err(AllocError);
        };
        if most <= self.found.capacity()
            && most <= self.later.capacity()
            && most_fed <= self.fed.capacity()
        {
            return Ok(());
        }
        let found = larger(self.alloc, &self.found, most)?;
        let later = larger(self.alloc, &self.later, most)?;
        let others = larger(self.alloc, &self.fed, most_fed)?;
        move_over(&mut self.found, found);
        move_over(&mut self.later, later);
        move_over(&mut self.fed, others);
        Ok(())
    }

    // Takes what the wanted node, of these bytes, has in its place. An `Err` changes nothing.
    fn take(&mut self, mut pieces: Vec<Piece>, bytes: Bytes) -> Result<(), OutOfMemory>
        requires wanted { is_some (change_wanted self.old) ≡ true }
        requires limits { KeepsLimits self.old }
        requires limited { AllByRecursion IsLimited (all_items pieces.items) }
        requires apart { AllByRecursion (IsAside self.old.settings.items) pieces.items }
        ensures limits { KeepsLimits self.new }
        ensures taken { (m : State) (changes : List Change) (n : PathNode) (todo : List PathNode) (s : Stub) (node : Node)
            → IsChanging self.old m changes (n ∷ todo) → self.old.wanted ≡ Some s → bytes ≡ n.bytes
            → node_of_bytes n.bytes ≡ Ok node → all_known (all_items pieces.items) ≡ known_in 33 node s.path.items
            → OnOk result (IsChanging self.new m changes todo) }
        ensures err { OnErr result (self.new ≡ self.old) }
    {
        self.make_room(pieces.len())?;
        let Some(Stub { path, hash }) = self.wanted.take() else {
            unreachable!()
        };
        self.fed.push_reserved(Fed { path, hash, bytes });
        move_all(&mut pieces, &mut self.later);
        self.go_on();
        Ok(())
    }

    // Goes on to the next node that is wanted. Where none is left on the way to a key that is set, what is set is carried out.
    fn go_on(&mut self)
        requires room { HasPlaces 0 self.old }
        requires wanted { self.old.wanted ≡ None }
        requires limits { KeepsLimits self.old }
        ensures limits { KeepsLimits self.new }
        ensures stage { (m : State) (changes : List Change) (todo : List PathNode)
            → IsUnderWay self.old.settings.items (job_parts self.old) m changes todo → IsFedSoFar self.new m changes todo }
    {
        if self.settings.is_empty() {
            self.go_to_unhung();
            return;
        }
        self.wanted = move_to_set(
            self.settings.as_slice(),
            &mut self.at,
            &mut self.found,
            &mut self.later,
        );
        if self.wanted.is_some() {
            return;
        }
        carry_out(&mut self.settings, &mut self.found, &mut self.later);
        self.go_to_unhung();
    }

    // Goes on to the next node that hangs where the changed trie has none.
    fn go_to_unhung(&mut self)
        requires room { vec_len self.old.found + vec_len self.old.later ≤ vec_capacity self.old.found }
        requires settings { self.old.settings.items ≡ [] }
        requires wanted { self.old.wanted ≡ None }
        requires limits { KeepsLimits self.old }
        ensures limits { KeepsLimits self.new }
        ensures stage { (m : State) (changes : List Change) (todo : List PathNode)
            → IsCarriedOut (job_parts self.old) m changes todo → IsFedSoFar self.new m changes todo }
    {
        self.wanted = move_to_unhung(&mut self.found, &mut self.later);
    }

    /// What the changes make of the stored nodes.
    pub fn finish(self) -> Result<Delta, OutOfMemory>
        requires wanted { change_wanted self ≡ None }
        requires limits { KeepsLimits self }
        ensures changed { (m : State) (changes : List Change) → IsChanging self m changes []
            → IfOk result (λ d. IsDelta d m (apply m changes)) }
        ensures created { (changes : List Change) → IsCreating self changes
            → IfOk result (λ d. IsDeltaOf d (trie_root (apply no_keys changes)) (stored_nodes (apply no_keys changes)) []) }
        ensures few { IfOk result (λ d. (length d.puts < 2 ^ 32) × (length d.drops < 2 ^ 32)) }
        ensures short { IfOk result (λ d. All (λ n. length n.bytes ≤ 4200000) d.puts) }
    {
        let ChangeJob {
            alloc,
            fed,
            found,
            ..
        } = self;
        delta_of(alloc, found.as_slice(), fed)
    }
}
