ghost use Rattle.std.specs.Prelude.{◌≡◌, ◌+◌, ◌/◌, ◌%◌, ◌<◌, ◌≤◌, ℕ, IfSome, None, drop, length, slice_index, slice_index_or, is_some};
ghost use Rattle.std.specs.List.{list_any};
ghost use Rattle.std.proofs.Props.{props};
ghost use Rattle.trie_codec.specs.Slices.{bytes_in};

/// What a node is.
#[derive(Debug, Clone, Copy, PartialEq, Eq)]
pub enum Kind {
    /// The node of the empty trie.
    Empty,
    /// A node with a value and no child.
    Leaf,
    /// A node with a child.
    Branch,
}

/// What a node has at one of its sixteen children.
#[derive(Debug, Clone, Copy, PartialEq, Eq)]
pub enum ChildRef<'a> {
    /// No child.
    None,
    /// The child's own bytes, fewer than 32.
    Inline(&'a [u8]),
    /// The hash of the child's bytes, 32 bytes.
    Hashed(&'a [u8]),
}

/// A node in its bytes: its parts are slices of these.
#[derive(Debug, Clone, Copy)]
pub struct NodeRef<'a> {
    // The bytes of the partial key, and how many nibbles it has. Of an odd count the first nibble is the low half of
    // the first byte.
    pub(crate) partial: &'a [u8],
    pub(crate) partial_len: usize,
    pub(crate) value: Option<&'a [u8]>,
    // The Merkle value of each child.
    pub(crate) children: [Option<&'a [u8]>; 16],
    ghost whole: { length partial.now ≡ (partial_len + 1) / 2 },
    ghost short: { partial_len ≤ 2048 },
    ghost small: { (i : ℕ) → IfSome (slice_index_or children i None) (λ c. length c.now ≤ 32) } by { Prim.hlevel props },
}

impl<'a> NodeRef<'a> {
    ghost use Rattle.sdb_base.specs.Nibbles.{nibbles_of};
    ghost use Rattle.trie_codec.specs.NodeParts.{IsChildOf, child_bytes, child_slice, kind_of, node_of_ref, value_slice};

    /// What the node is.
    #[tactic(auto, using(crate::proofs::Children::has_child_in))]
    pub fn kind(&self) -> Kind
        ensures { result ≡ kind_of (node_of_ref self.now) }
    {
        if has_child(&self.children) {
            Kind::Branch
        } else if self.value.is_some() {
            Kind::Leaf
        } else {
            Kind::Empty
        }
    }

    /// How many nibbles the partial key has.
    #[tactic(auto, using(crate::proofs::Partial::partial_key))]
    pub fn partial_len(&self) -> usize
        ensures { result ≡ length (node_of_ref self.now).partial }
    {
        self.partial_len
    }

    /// Nibble `i` of the partial key.
    #[tactic(auto, using(crate::proofs::Partial::partial_key))]
    pub fn nibble(&self, i: usize) -> u8
        requires { i < length (node_of_ref self.now).partial }
        ensures { result ≡ slice_index (node_of_ref self.now).partial i }
    {
        let half = self.partial_len % 2 + i;
        let byte = self.partial[half / 2];
        if half % 2 == 0 { byte / 16 } else { byte % 16 }
    }

    /// The bytes of the partial key. Of an odd count of nibbles the first is the low half of the first byte.
    #[tactic(auto, using(crate::proofs::Partial::partial_key))]
    pub fn partial_bytes(&self) -> &'a [u8]
        ensures { drop ((length (node_of_ref self.now).partial) % 2) (nibbles_of result.now) ≡ (node_of_ref self.now).partial }
    {
        self.partial
    }

    /// The value, if the node has one.
    pub fn value(&self) -> Option<&'a [u8]>
        ensures bytes { bytes_in result ≡ (node_of_ref self.now).value }
        ensures borrowed { result ≡ value_slice self.now }
    {
        self.value
    }

    /// The child at nibble `i`.
    pub fn child(&self, i: u8) -> ChildRef<'a>
        requires { i < 16 }
        ensures bytes { slice_index_or (node_of_ref self.now).children i None ≡ child_bytes result }
        ensures borrowed { IsChildOf result (child_slice self.now i) }
    {
        let child = self.children[i as usize];
        match child {
            None => ChildRef::None,
            Some(hash) if hash.len() == 32 => ChildRef::Hashed(hash),
            Some(bytes) => ChildRef::Inline(bytes),
        }
    }
}

fn has_child(children: &[Option<&[u8]>]) -> bool
    ensures { result ≡ list_any is_some children.now }
{
    children.iter().any(|child| child.is_some())
}
