ghost use Rattle.std.specs.Prelude.{◌≡◌, ◌≢◌, ◌-◌, ◌<◌, ◌≤◌, List, [], ◌∷◌, ◌++◌, All, IfOk, IfSome, IsPermutation, IsTrue, OnOk, length, map, true, false, None};
ghost use Rattle.std.specs.Str.{bytes_eq};
ghost use Rattle.std.specs.Option.{option_to_list};
ghost use Rattle.std.specs.Ordering.{is_lt, nat_cmp};
ghost use Rattle.std.specs.Cmp.Lexicographic.{slice_cmp};
ghost use Rattle.sdb_blake2.specs.Blake2b.{H};
ghost use Rattle.trie_model.specs.Nodes.{PathNode};
ghost use Rattle.trie_read.specs.Paths.{RiseByPath};
ghost use Rattle.trie_change.specs.Deltas.{hash_of_node, hashed};
ghost use Rattle.trie_change.specs.inner.Diffs.{AreShort, Comparison, HasItsHash, IsComparison, after_node, all_dropped, all_left, met, most_in_node};
ghost use Rattle.trie_change.specs.inner.Settled.{fed_nodes};

use crate::frontier::Fed;
use sdb_base::{Bytes, Node, NodeHash, OutOfMemory};
use sdb_blake2::hash256;
use std::alloc::Global;
use std::cmp::Ordering;
use trie_codec::SpelledChildren;

/// What is put and dropped as the stored nodes of a changed trie come, from the highest path down.
#[derive(Debug, Drop)]
pub(crate) struct Diff {
    // The nodes that were fed and are still to be compared, by rising path.
    fed: Vec<Fed>,
    // What is put and dropped, by falling path.
    puts: Vec<Node>,
    drops: Vec<NodeHash>,
    // Buffers of children whose node is made.
    spare: Vec<SpelledChildren>,
}

// The order of the paths.
fn by_path(a: &Fed, b: &Fed) -> Ordering
    ensures { result ≡ slice_cmp nat_cmp a.now.path.items b.now.path.items }
{
    a.path.as_slice().cmp(b.path.as_slice())
}

impl Diff {
    /// Nothing is put yet or dropped.
    pub(crate) fn over(alloc: Global, fed: Vec<Fed>) -> Result<Diff, OutOfMemory>
        ensures short { IfOk result (λ d. AreShort d.puts.items) }
        ensures begins { (old : List PathNode) → RiseByPath old → IsPermutation old (fed_nodes fed.items)
            → All HasItsHash fed.items → IfOk result (λ d. IsComparison d (all_left old)) }
    {
        let mut fed = fed;
        fed.sort_by(by_path)?;
        let room = fed.len();
        Ok(Diff {
            fed,
            puts: Vec::with_capacity(alloc, room)?,
            drops: Vec::with_capacity(alloc, room)?,
            spare: Vec::new(alloc),
        })
    }

    /// No children yet, in a buffer that is spare where there is one.
    pub(crate) fn no_children(&mut self, alloc: Global) -> Result<SpelledChildren, OutOfMemory>
        ensures fed { self.new.fed ≡ self.old.fed }
        ensures puts { self.new.puts ≡ self.old.puts }
        ensures drops { self.new.drops ≡ self.old.drops }
        ensures none { IfOk result (λ c. c ≡ []) }
    {
        match self.spare.pop() {
            Some(children) => children.cleared(alloc),
            None => SpelledChildren::new(alloc),
        }
    }

    /// Keeps the buffer of children whose node is made.
    pub(crate) fn keep_buffer(&mut self, children: SpelledChildren) -> Result<(), OutOfMemory>
        ensures fed { self.new.fed ≡ self.old.fed }
        ensures puts { self.new.puts ≡ self.old.puts }
        ensures drops { self.new.drops ≡ self.old.drops }
    {
        self.spare.push(children)?;
        Ok(())
    }

    /// Takes a stored node of the changed trie, whose path is below those before, and gives its hash. A fed node at its path is
    /// dropped, but for one of the same bytes, which stays: that one is neither put nor hashed again.
    pub(crate) fn emit(&mut self, path: &[u8], bytes: Bytes) -> Result<NodeHash, OutOfMemory>
        requires fits { length bytes ≤ most_in_node }
        requires short { AreShort self.old.puts.items }
        ensures still_short { OnOk result (AreShort self.new.puts.items) }
        ensures emitted { (c : Comparison) (n : PathNode) → n.path ≡ path.now → n.bytes ≡ bytes → IsComparison self.old c
            → IfOk result (λ hash. (hash.0 ≡ H bytes) × IsComparison self.new (after_node c n)) }
    {
        while self.last_is_above(path) {
            self.drop_last()?;
        }
        self.settle(path, bytes)
    }

    // Takes a node below which all fed nodes hang, or at whose path the last does.
    fn settle(&mut self, path: &[u8], bytes: Bytes) -> Result<NodeHash, OutOfMemory>
        requires fits { length bytes ≤ most_in_node }
        requires short { AreShort self.old.puts.items }
        ensures still_short { OnOk result (AreShort self.new.puts.items) }
        ensures settled { (c : Comparison) (n : PathNode) → n.path ≡ path.now → n.bytes ≡ bytes → IsComparison self.old c
            → IfOk result (λ hash. (hash.0 ≡ H bytes) × IsComparison self.new (met n c.left c.puts c.drops)) }
    {
        match self.pop_at(path) {
            None => {}
            Some(old) => {
                if old.bytes == bytes {
                    return Ok(old.hash);
                }
                self.drops.push(old.hash)?;
            }
        }
        let hash = NodeHash(hash256(bytes.as_slice()));
        self.puts.push(Node { hash, bytes })?;
        Ok(hash)
    }

    // Takes the last fed node, if it is at the path.
    fn pop_at(&mut self, path: &[u8]) -> Option<Fed>
        ensures fed { self.old.fed.items ≡ self.new.fed.items ++ option_to_list result }
        ensures found { IfSome result (λ f. bytes_eq f.path.items path.now ≡ true) }
        ensures none { (before : List Fed) (last : Fed) → result ≡ None → self.old.fed.items ≡ before ++ last ∷ []
            → bytes_eq last.path.items path.now ≡ false }
        ensures puts { self.new.puts ≡ self.old.puts }
        ensures drops { self.new.drops ≡ self.old.drops }
    {
        if self.last_is_at(path) {
            self.fed.pop()
        } else {
            None
        }
    }

    // Whether the last fed node is at the path.
    fn last_is_at(&self, path: &[u8]) -> bool
        ensures some { IsTrue result → length self.now.fed.items ≢ 0 }
        ensures at { (before : List Fed) (last : Fed) → self.now.fed.items ≡ before ++ last ∷ []
            → result ≡ bytes_eq last.path.items path.now }
    {
        match self.fed.as_slice().last() {
            None => false,
            Some(last) => last.path.as_slice() == path,
        }
    }

    // Whether the last fed node is above the path.
    fn last_is_above(&self, path: &[u8]) -> bool
        ensures some { IsTrue result → length self.now.fed.items ≢ 0 }
        ensures above { (before : List Fed) (last : Fed) → self.now.fed.items ≡ before ++ last ∷ []
            → result ≡ is_lt (slice_cmp nat_cmp path.now last.path.items) }
    {
        match self.fed.as_slice().last() {
            None => false,
            Some(last) => path.cmp(last.path.as_slice()).is_lt(),
        }
    }

    // Drops the last fed node, if there is one.
    fn drop_last(&mut self) -> Result<(), OutOfMemory>
        ensures puts { self.new.puts ≡ self.old.puts }
        ensures dropped { (before : List Fed) (last : Fed) → self.old.fed.items ≡ before ++ last ∷ []
            → OnOk result ((self.new.fed.items ≡ before) × (self.new.drops.items ≡ self.old.drops.items ++ last.hash ∷ [])) }
        ensures fewer { OnOk result (length self.new.fed.items ≡ length self.old.fed.items - 1) }
    {
        if let Some(last) = self.fed.pop() {
            self.drops.push(last.hash)?;
        }
        Ok(())
    }

    /// What is put and dropped, by rising path, once all nodes have come.
    pub(crate) fn ended(self) -> Result<(Vec<Node>, Vec<NodeHash>), OutOfMemory>
        requires short { AreShort self.puts.items }
        ensures short { IfOk result (λ r. AreShort r.0.items) }
        ensures finished { (c : Comparison) → IsComparison self c
            → IfOk result (λ r. (r.0.items ≡ map hashed c.puts) × (r.1.items ≡ map hash_of_node (all_dropped c.left c.drops))) }
    {
        let mut diff = self;
        while !diff.fed.is_empty() {
            diff.drop_last()?;
        }
        let Diff {
            mut puts,
            mut drops,
            ..
        } = diff;
        puts.reverse();
        drops.reverse();
        Ok((puts, drops))
    }
}
