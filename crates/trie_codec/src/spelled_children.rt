ghost use Rattle.std.specs.Prelude.{◌≡◌, ◌+◌, ◌-◌, ◌*◌, ◌≤◌, ◌<◌, [], ◌∷◌, ◌++◌, None, Some, IfOk, drop, length, replicate};
ghost use Rattle.std.specs.List.{flat_map};
ghost use Rattle.trie_model.specs.Node.{bitmap, has_child, optional_string};
ghost use Rattle.trie_codec.specs.SpelledChildren.{children_in};

use sdb_base::OutOfMemory;
use std::alloc::Global;
use std::marker::Model;

/// The Merkle values of a node's last children as they are spelled. They are put from the last child on, so that all sixteen
/// stand in the order in which the node has them, and no value is kept apart from its spelling.
#[derive(Debug, Drop)]
pub struct SpelledChildren {
    // The spelling of those that are there, from `start` on. Before it is room for what is put.
    bytes: Vec<u8>,
    start: usize,
    // How many were put, and a bit for each: that of the child that was put last is the lowest.
    count: usize,
    map: u16,
    ghost few: { count ≤ 16 },
    ghost inside: { start ≤ length bytes.items },
    ghost room: { 33 * (16 - count) ≤ start },
    ghost mapped: { bitmap (children_in count map (drop start bytes.items)) ≡ map },
    ghost spelled: { flat_map optional_string (children_in count map (drop start bytes.items)) ≡ drop start bytes.items },
}

impl Model for SpelledChildren {
    ghost use Rattle.std.specs.Prelude.{List, Option, ℕ, drop};
    ghost use Rattle.trie_codec.specs.SpelledChildren.{children_in};

    ghost Value = { List (Option (List ℕ)) };

    ghost view = { λ c. children_in c.count c.map (drop c.start c.bytes.items) };
}

// Room for sixteen hashes, each after its length.
const MOST_BYTES: usize = 16 * 33;

// Writes a byte string that ends where those after it begin, and gives where it begins.
fn put_before(bytes: &mut Vec<u8>, end: usize, value: &[u8]) -> usize
    requires inside { end ≤ length bytes.old.items }
    requires room { length value.now < end }
    requires short { length value.now ≤ 32 }
    ensures start { result + 1 + length value.now ≡ end }
    ensures len { length bytes.new.items ≡ length bytes.old.items }
    ensures spelled { drop result bytes.new.items ≡ (4 * length value.now) ∷ (value.now ++ drop end bytes.old.items) }
{
    let at = end - value.len();
    bytes[at..end].copy_from_slice(value);
    bytes[at - 1] = 4 * value.len() as u8;
    at - 1
}

impl SpelledChildren {
    /// No child is put yet.
    pub fn new(alloc: Global) -> Result<SpelledChildren, OutOfMemory>
        ensures { IfOk result (λ c. c ≡ []) }
    {
        Ok(SpelledChildren {
            bytes: vec![in alloc; 0; MOST_BYTES]?,
            start: MOST_BYTES,
            count: 0,
            map: 0,
        })
    }

    /// No child is put yet, in the memory of children that aren't needed any more.
    pub fn cleared(self, alloc: Global) -> Result<SpelledChildren, OutOfMemory>
        ensures { IfOk result (λ c. c ≡ []) }
    {
        let SpelledChildren { bytes, .. } = self;
        if bytes.len() < MOST_BYTES {
            return SpelledChildren::new(alloc);
        }
        Ok(SpelledChildren {
            start: bytes.len(),
            bytes,
            count: 0,
            map: 0,
        })
    }

    /// All sixteen children, of which none is there. They take no memory.
    pub fn none(alloc: Global) -> SpelledChildren
        ensures { result ≡ replicate 16 None }
    {
        SpelledChildren {
            bytes: Vec::new(alloc),
            start: 0,
            count: 16,
            map: 0,
        }
    }

    /// Puts the Merkle value, of at most 32 bytes, of the child before those that were put, of which there are fewer than sixteen.
    pub fn put(&mut self, value: &[u8])
        requires few { length self.old < 16 }
        requires short { length value.now ≤ 32 }
        ensures { self.new ≡ Some value.now ∷ self.old }
    {
        self.start = put_before(&mut self.bytes, self.start, value);
        self.count += 1;
        self.map = 2 * self.map + 1;
    }

    /// Puts that there is no child before those that were put, of which there are fewer than sixteen.
    pub fn put_none(&mut self)
        requires { length self.old < 16 }
        ensures { self.new ≡ None ∷ self.old }
    {
        self.count += 1;
        self.map = 2 * self.map;
    }

    // Whether there is a child.
    #[tactic(auto, using(crate::proofs::FromLast::no_child, crate::proofs::FromLast::some_child))]
    pub(crate) fn has_child(&self) -> bool
        ensures { result ≡ has_child self.now }
    {
        self.map != 0
    }

    // A bit for each child, that of the first the lowest.
    pub(crate) fn map(&self) -> u16
        ensures { result ≡ bitmap self.now }
    {
        self.map
    }

    // The children that are there, as they are spelled.
    pub(crate) fn as_slice(&self) -> &[u8]
        ensures { result.now ≡ flat_map optional_string self.now }
    {
        &self.bytes[self.start..]
    }
}
