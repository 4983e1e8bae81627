use crate::descent::read_node;
use crate::fault::TrieFault;
use crate::in_order::go_on;
use crate::parts::{Part, Sought, Stored, parts_at};
use sdb_base::{Bytes, Items, Keys, Nibbles, NodeHash, OutOfMemory};
use smallvec::SmallVec;
use std::alloc::Global;

/// A walk over the keys of a state that begin with a prefix, by the trie's nodes.
#[derive(Debug, Drop)]
pub struct WalkJob {
    alloc: Global,
    prefix: Nibbles,
    wanted: Option<Stored>,
    // The keys before the wanted node, rising.
    found: Keys,
    // What comes after it, the last first.
    later: Items<Part>,
}

impl WalkJob {
    ghost use Rattle.std.specs.Prelude.{◌≡◌, ℕ, true, false, List, ◌∷◌, [], All, IfOk, OnOk, OnErr, IfErr, is_some};
    ghost use Rattle.std.specs.Option.{option_map};
    ghost use Rattle.std.specs.FinMap.{entries};
    ghost use Rattle.trie_model.specs.Fetches.{keys_with_prefix, walk_fetches};
    ghost use Rattle.trie_model.specs.Nodes.{PathNode};
    ghost use Rattle.trie_model.specs.State.{State};
    ghost use Rattle.trie_model.specs.Trie.{trie_root};
    ghost use Rattle.trie_root.specs.Suffixes.{IsEntry};
    ghost use Rattle.trie_read.specs.Depth.{is_bad_node};
    ghost use Rattle.trie_read.specs.Reads.{MatchFault};
    ghost use Rattle.trie_read.specs.Walks.{IsWalking, walk_depth, walk_wanted};
    ghost use Rattle.trie_read.specs.declared.fault.TrieFault.TheVariants.{OutOfMemory};

    /// A walk over the keys with a prefix of the state of that root.
    pub fn new(alloc: Global, root: NodeHash, prefix: Bytes) -> Result<WalkJob, OutOfMemory>
        ensures { (m : State) → All IsEntry (entries m) → root.0 ≡ trie_root m
            → IfOk result (λ j. IsWalking j m prefix (walk_fetches m prefix)) }
    {
        let prefix = Nibbles::of_key(alloc, prefix.as_slice())?;
        let path = SmallVec::new(alloc);
        Ok(WalkJob {
            alloc,
            prefix,
            wanted: Some(Stored { hash: root, path }),
            found: Keys::new(alloc),
            later: Items::new(alloc),
        })
    }

    /// The hash of the next node to feed; None where all were fed.
    pub fn want(&self) -> Option<&NodeHash>
        ensures { option_map (λ h. h.now.0) result ≡ walk_wanted self.now }
    {
        match &self.wanted {
            Some(wanted) => Some(&wanted.hash),
            None => None,
        }
    }

    /// Takes the bytes of the wanted node. After an `Err` the same node is wanted.
    pub fn feed(&mut self, bytes: &[u8]) -> Result<(), TrieFault>
        requires { is_some (walk_wanted self.old) ≡ true }
        ensures walked { (m : State) (prefix : List ℕ) (n : PathNode) (todo : List PathNode) → IsWalking self.old m prefix (n ∷ todo)
            → bytes.now ≡ n.bytes → OnOk result (IsWalking self.new m prefix todo) }
        ensures bad { OnOk result (is_bad_node (walk_depth self.old) bytes.now ≡ false) }
        ensures err { OnErr result (self.new ≡ self.old) }
        ensures fault { IfErr result (λ f. MatchFault f (is_bad_node (walk_depth self.old) bytes.now ≡ true)
            (is_bad_node (walk_depth self.old) bytes.now ≡ false) (walk_wanted self.old)) }
        ensures sound { (m : State) (prefix : List ℕ) (n : PathNode) (todo : List PathNode) → IsWalking self.old m prefix (n ∷ todo)
            → bytes.now ≡ n.bytes → IfErr result (λ f. f ≡ OutOfMemory) }
    {
        let Some(wanted) = &self.wanted else {
            unreachable!()
        };
        let hash = wanted.hash;
        let Some(node) = read_node(wanted.path.len(), bytes) else {
            return Err(TrieFault::BadNode { hash });
        };
        let sought = Sought::Beginning(self.prefix.as_slice());
        let Ok(parts) = parts_at(self.alloc, sought, wanted.path.as_slice(), &node) else {
            return Err(TrieFault::OutOfMemory);
        };
        let Ok(next) = go_on(self.alloc, &mut self.found, &mut self.later, parts) else {
            return Err(TrieFault::OutOfMemory);
        };
        self.wanted = next;
        Ok(())
    }

    /// The keys with the prefix, rising. It takes no memory.
    pub fn answer(self) -> Keys
        ensures { (m : State) (prefix : List ℕ) → IsWalking self m prefix [] → result ≡ keys_with_prefix m prefix }
    {
        self.found
    }
}
