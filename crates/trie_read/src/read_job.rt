ghost use Rattle.std.specs.Prelude.{◌≡◌, ◌*◌, ◌≤◌, length, IfOk};
ghost use Rattle.trie_codec.specs.Slices.{bytes_in};

use crate::descent::{Found, MOST_LEVELS, hash_of, read_node, walk};
use crate::fault::TrieFault;
use sdb_base::{Bytes, NodeHash, OutOfMemory};
use std::alloc::Global;

/// A read of one key of a state, by the nodes on its way.
#[derive(Debug, Drop)]
pub struct ReadJob {
    alloc: Global,
    key: Bytes,
    // The wanted node hangs after so many nibbles of the key.
    at: usize,
    wanted: Option<NodeHash>,
    value: Option<Bytes>,
    ghost fits: { at ≤ 2 * length key },
}

impl ReadJob {
    ghost use Rattle.std.specs.Prelude.{◌≡◌, ℕ, true, List, ◌∷◌, [], All, OnOk, OnErr, IfErr, None, Some, false, is_some};
    ghost use Rattle.std.specs.Option.{option_map};
    ghost use Rattle.std.specs.FinMap.{entries, get};
    ghost use Rattle.trie_model.specs.Fetches.{read_fetches};
    ghost use Rattle.trie_model.specs.Nodes.{PathNode};
    ghost use Rattle.trie_model.specs.State.{State};
    ghost use Rattle.trie_model.specs.Trie.{trie_root};
    ghost use Rattle.trie_root.specs.Suffixes.{IsEntry};
    ghost use Rattle.trie_read.specs.Depth.{is_bad_node};
    ghost use Rattle.trie_read.specs.Reads.{IsReading, MatchFault, nibbles_before, wanted_of};
    ghost use Rattle.trie_read.specs.declared.fault.TrieFault.TheVariants.{OutOfMemory};

    /// A read of a key of the state of that root.
    pub fn new(alloc: Global, root: NodeHash, key: Bytes) -> Result<ReadJob, OutOfMemory>
        ensures { (m : State) → All IsEntry (entries m) → root.0 ≡ trie_root m
            → IfOk result (λ j. IsReading j m key (read_fetches m key)) }
    {
        Ok(ReadJob {
            alloc,
            key,
            at: 0,
            wanted: Some(root),
            value: None,
        })
    }

    /// The hash of the next node to feed; None where all were fed.
    pub fn want(&self) -> Option<&NodeHash>
        ensures { option_map (λ h. h.now.0) result ≡ wanted_of self.now }
    {
        self.wanted.as_ref()
    }

    /// Takes the bytes of the wanted node. After an `Err` the same node is wanted.
    pub fn feed(&mut self, bytes: &[u8]) -> Result<(), TrieFault>
        requires { is_some (wanted_of self.old) ≡ true }
        ensures read { (m : State) (key : List ℕ) (n : PathNode) (todo : List PathNode) → IsReading self.old m key (n ∷ todo)
            → bytes.now ≡ n.bytes → OnOk result (IsReading self.new m key todo) }
        ensures bad { OnOk result (is_bad_node (nibbles_before self.old) bytes.now ≡ false) }
        ensures err { OnErr result (self.new ≡ self.old) }
        ensures fault { IfErr result (λ f. MatchFault f (is_bad_node (nibbles_before self.old) bytes.now ≡ true)
            (is_bad_node (nibbles_before self.old) bytes.now ≡ false) (wanted_of self.old)) }
        ensures sound { (m : State) (key : List ℕ) (n : PathNode) (todo : List PathNode) → IsReading self.old m key (n ∷ todo)
            → bytes.now ≡ n.bytes → IfErr result (λ f. f ≡ OutOfMemory) }
    {
        let Some(hash) = self.wanted else {
            unreachable!()
        };
        let Some(node) = read_node(self.at, bytes) else {
            return Err(TrieFault::BadNode { hash });
        };
        match walk(MOST_LEVELS, self.key.as_slice(), self.at, &node) {
            Found::Ended(value) => {
                let Ok(value) = copied(self.alloc, value) else {
                    return Err(TrieFault::OutOfMemory);
                };
                self.value = value;
                self.wanted = None;
            }
            Found::Wants { hash, at } => {
                self.wanted = Some(NodeHash(hash_of(hash)));
                self.at = at;
            }
        }
        Ok(())
    }

    /// The key's value, if it has one.
    pub fn answer(self) -> Option<Bytes>
        ensures { (m : State) (key : List ℕ) → IsReading self m key [] → result ≡ get m key }
    {
        self.value
    }
}

fn copied(alloc: Global, value: Option<&[u8]>) -> Result<Option<Bytes>, OutOfMemory>
    ensures { IfOk result (λ v. v ≡ bytes_in value.entry) }
{
    match value {
        Some(value) => Ok(Some(Bytes::from_slice(alloc, value)?)),
        None => Ok(None),
    }
}
