ghost use Rattle.std.specs.Prelude.{◌≡◌, ℕ, List, [], ◌∷◌, ◌++◌, Some, None, Option, if◌then◌else◌, codes, replicate};
ghost use Rattle.std.specs.Str.{bytes_eq};
ghost use Rattle.std.specs.FinMap as map;
ghost use Rattle.sdb_base.specs.declared.Change.{Change};
ghost use Rattle.trie_model.specs.State.{State, apply, no_keys, with_key};
ghost use Rattle.sdb_base.specs.declared.Block.{Block};
ghost use Rattle.sdb_base.specs.Nibbles.{nibbles_of};
ghost use Rattle.trie_model.specs.Limits.{BlockIsWithin, StateIsWithin};
ghost use Rattle.trie_model.specs.Node.{empty_node, header, spelling};
ghost use Rattle.trie_model.specs.Trie.{node_over, root_node};

/// A change sets its own key and no other, and the last change of a key counts.
pub fn changes_apply_in_order()
    ensures none { (key : List ℕ) → map.get no_keys key ≡ None }
    ensures one { (m : State) (key q : List ℕ) (value : Option (List ℕ))
        → map.get (with_key m key value) q ≡ (if bytes_eq key q then value else map.get m q) }
    ensures joined { (m : State) (cs ds : List Change) → apply m (cs ++ ds) ≡ apply (apply m cs) ds }
{}

/// States that answer alike have one trie, whichever changes made them.
pub fn equal_states_have_one_trie()
    ensures { (m n : State) → ((key : List ℕ) → map.get m key ≡ map.get n key)
        → root_node m ≡ root_node n }
{}

/// Blocks within the limits keep states within them.
pub fn limits_last()
    ensures empty { StateIsWithin no_keys }
    ensures next { (m : State) (block : Block) → StateIsWithin m → BlockIsWithin block
        → StateIsWithin (apply m block.changes) }
{}

/// Nodes that the definitions give, by computing: the header of each length at which it grows, the node of the empty
/// trie, a leaf of three nibbles, and root nodes of one key, of a key that another one extends, and of two keys that
/// differ in their last nibble.
pub fn known_nodes()
    ensures headers { (header 1 62 ≡ 0x7e ∷ []) × (header 1 63 ≡ 0x7f ∷ 0 ∷ []) × (header 1 64 ≡ 0x7f ∷ 1 ∷ [])
        × (header 1 317 ≡ 0x7f ∷ 0xfe ∷ []) × (header 1 318 ≡ 0x7f ∷ 0xff ∷ 0 ∷ [])
        × (header 2 62 ≡ 0xbe ∷ []) × (header 2 573 ≡ 0xbf ∷ 0xff ∷ 0xff ∷ 0 ∷ [])
        × (header 3 0 ≡ 0xc0 ∷ []) × (header 3 63 ≡ 0xff ∷ 0 ∷ []) }
    ensures nothing { spelling (node_over 1 []) ≡ 0 ∷ [] }
    ensures odd { spelling (record {
      partial = 1 ∷ 2 ∷ 3 ∷ [];
      value = Some (4 ∷ []);
      children = replicate 16 None;
    })
        ≡ 0x43 ∷ 0x01 ∷ 0x23 ∷ 0x04 ∷ 0x04 ∷ [] }
    ensures one { spelling (node_over 3 ((nibbles_of (0xaa ∷ []), []) ∷ [])) ≡ 0x42 ∷ 0xaa ∷ 0 ∷ [] }
    ensures extended { spelling (node_over 5
        ((nibbles_of (0xaa ∷ []), 1 ∷ []) ∷ (nibbles_of (0xaa ∷ 0xbb ∷ []), 2 ∷ []) ∷ []))
        ≡ 0xc2 ∷ 0xaa ∷ 0x00 ∷ 0x08 ∷ 0x04 ∷ 0x01 ∷ 0x10 ∷ 0x41 ∷ 0x0b ∷ 0x04 ∷ 0x02 ∷ [] }
    ensures apart { spelling (node_over 3
        ((nibbles_of (0xaa ∷ []), 1 ∷ []) ∷ (nibbles_of (0xab ∷ []), 2 ∷ []) ∷ []))
        ≡ 0x81 ∷ 0x0a ∷ 0x00 ∷ 0x0c ∷ 0x0c ∷ 0x40 ∷ 0x04 ∷ 0x01 ∷ 0x0c ∷ 0x40 ∷ 0x04 ∷ 0x02 ∷ [] }
{}
