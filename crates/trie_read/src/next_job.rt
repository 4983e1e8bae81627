ghost use Rattle.std.specs.Prelude.{◌≡◌, ◌++◌, reverse};
ghost use Rattle.trie_read.specs.inner.Parts.{HasSettled, as_pieces, behind_it, first_two_of, in_front};

use crate::descent::read_node;
use crate::fault::TrieFault;
use crate::parts::{Part, Sought, Stored, parts_at};
use sdb_base::{Bytes, Nibbles, NodeHash, OutOfMemory};
use smallvec::SmallVec;
use std::alloc::Global;
use std::mem;

/// A search for the least key of a state above a key, by the trie's nodes.
#[derive(Debug, Drop)]
pub struct NextJob {
    alloc: Global,
    key: Nibbles,
    wanted: Option<Stored>,
    // What lies behind the wanted node and nearest to it; the answer where no node is wanted.
    nearest: Option<Part>,
}

impl NextJob {
    ghost use Rattle.std.specs.Prelude.{◌≡◌, ℕ, true, false, List, ◌∷◌, [], All, IfOk, OnOk, OnErr, IfErr, is_some};
    ghost use Rattle.std.specs.Option.{option_map};
    ghost use Rattle.std.specs.FinMap.{entries};
    ghost use Rattle.trie_model.specs.Fetches.{next_fetches, next_key};
    ghost use Rattle.trie_model.specs.Nodes.{PathNode};
    ghost use Rattle.trie_model.specs.State.{State};
    ghost use Rattle.trie_model.specs.Trie.{trie_root};
    ghost use Rattle.trie_root.specs.Suffixes.{IsEntry};
    ghost use Rattle.trie_read.specs.Depth.{is_bad_node};
    ghost use Rattle.trie_read.specs.Reads.{MatchFault};
    ghost use Rattle.trie_read.specs.Searches.{IsSeeking, search_depth, search_wanted};
    ghost use Rattle.trie_read.specs.declared.fault.TrieFault.TheVariants.{OutOfMemory};

    /// A search for the least key above a key in the state of that root.
    pub fn new(alloc: Global, root: NodeHash, key: Bytes) -> Result<NextJob, OutOfMemory>
        ensures { (m : State) → All IsEntry (entries m) → root.0 ≡ trie_root m
            → IfOk result (λ j. IsSeeking j m key (next_fetches m key)) }
    {
        let key = Nibbles::of_key(alloc, key.as_slice())?;
        let path = SmallVec::new(alloc);
        Ok(NextJob {
            alloc,
            key,
            wanted: Some(Stored { hash: root, path }),
            nearest: None,
        })
    }

    /// The hash of the next node to feed; None where all were fed.
    pub fn want(&self) -> Option<&NodeHash>
        ensures { option_map (λ h. h.now.0) result ≡ search_wanted self.now }
    {
        match &self.wanted {
            Some(wanted) => Some(&wanted.hash),
            None => None,
        }
    }

    /// Takes the bytes of the wanted node. After an `Err` the same node is wanted.
    pub fn feed(&mut self, bytes: &[u8]) -> Result<(), TrieFault>
        requires { is_some (search_wanted self.old) ≡ true }
        ensures sought { (m : State) (key : List ℕ) (n : PathNode) (todo : List PathNode) → IsSeeking self.old m key (n ∷ todo)
            → bytes.now ≡ n.bytes → OnOk result (IsSeeking self.new m key todo) }
        ensures bad { OnOk result (is_bad_node (search_depth self.old) bytes.now ≡ false) }
        ensures err { OnErr result (self.new ≡ self.old) }
        ensures fault { IfErr result (λ f. MatchFault f (is_bad_node (search_depth self.old) bytes.now ≡ true)
            (is_bad_node (search_depth self.old) bytes.now ≡ false) (search_wanted self.old)) }
        ensures sound { (m : State) (key : List ℕ) (n : PathNode) (todo : List PathNode) → IsSeeking self.old m key (n ∷ todo)
            → bytes.now ≡ n.bytes → IfErr result (λ f. f ≡ OutOfMemory) }
    {
        let Some(wanted) = &self.wanted else {
            unreachable!()
        };
        let hash = wanted.hash;
        let Some(node) = read_node(wanted.path.len(), bytes) else {
            return Err(TrieFault::BadNode { hash });
        };
        let sought = Sought::Above(self.key.as_slice());
        let Ok(parts) = parts_at(self.alloc, sought, wanted.path.as_slice(), &node) else {
            return Err(TrieFault::OutOfMemory);
        };
        let (wanted, nearest) = first_of(parts, mem::replace(&mut self.nearest, None));
        self.wanted = wanted;
        self.nearest = nearest;
        Ok(())
    }

    /// The least key above the key, if there is one. It takes no memory.
    pub fn answer(self) -> Option<Bytes>
        ensures { (m : State) (key : List ℕ) → IsSeeking self m key [] → result ≡ next_key m key }
    {
        let NextJob { nearest, .. } = self;
        match nearest {
            Some(Part::Key(key)) => Some(key),
            Some(Part::Node(_)) => None,
            None => None,
        }
    }
}

fn reversed(mut parts: Vec<Part>) -> Vec<Part>
    ensures { result.items ≡ reverse parts.items }
{
    parts.as_mut_slice().reverse();
    parts
}

// Of what a node has, and of what lies behind it, a stored node that comes first and what follows it; or a key that comes
// first.
fn first_of(parts: Vec<Part>, behind: Option<Part>) -> (Option<Stored>, Option<Part>)
    ensures front { in_front result.0 result.1 ≡ first_two_of (as_pieces parts.items ++ behind_it behind) }
    ensures settled { HasSettled result.0 result.1 }
{
    let mut left = reversed(parts);
    match left.pop() {
        Some(Part::Key(key)) => (None, Some(Part::Key(key))),
        Some(Part::Node(stored)) => (Some(stored), left.pop().or(behind)),
        None => match behind {
            Some(Part::Node(stored)) => (Some(stored), None),
            behind => (None, behind),
        },
    }
}
