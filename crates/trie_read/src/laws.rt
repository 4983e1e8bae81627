ghost use Rattle.std.specs.Prelude.{◌≡◌, ◌⊎◌, ℕ, ◌+◌, ◌<◌, ◌≤◌, Bool, true, false, List, [], ◌∷◌, ◌++◌, length, ◌↔◌, All, Contains, None, Some, count_by, filter, is_some, suc};
ghost use Rattle.std.specs.FinMap.{entries, get};
ghost use Rattle.sdb_base.specs.Nibbles.{nibbles_of};
ghost use Rattle.trie_model.specs.Fetches.{on_the_way};
ghost use Rattle.trie_model.specs.Node.{spelling};
ghost use Rattle.trie_model.specs.Nodes.{PathNode, all_over, dropped_nodes, if_any, nodes_over, put_nodes, stored_nodes, stored_over};
ghost use Rattle.trie_model.specs.State.{State};
ghost use Rattle.trie_model.specs.Trie.{Suffix, after_prefix, below, child_value, common_prefix, node_of_all, node_over, suffixes_of, trie_root, value_here};
ghost use Rattle.trie_root.specs.Suffixes.{IsEntry};
ghost use Rattle.trie_read.specs.Collision.{HaveCollision};
ghost use Rattle.trie_read.specs.Depth.{is_bad_node};
ghost use Rattle.trie_read.specs.Paths.{AreNibbles, Hangs, IsHung, IsLong, IsNamed, RiseByPath, child_at, child_path, node_at};

/// The nodes of a trie rise strictly by path, so that no path is there twice; those that are stored too.
pub fn nodes_rise_by_path()
    ensures all { (suffixes : List Suffix) → RiseByPath (all_over suffixes) }
    ensures stored { (suffixes : List Suffix) → RiseByPath (stored_over suffixes) }
{}

/// A node hangs in a trie exactly where keys go on with its path and, up to its last nibble, share nothing further; its
/// bytes are then the spelling of the node over the keys that go on with its path. It is stored exactly where it is the
/// root or has 32 bytes or more.
pub fn nodes_hang_where_keys_part()
    ensures all { (suffixes : List Suffix) (n : PathNode) → AreNibbles suffixes
        → Contains (all_over suffixes) n ↔ IsHung suffixes n }
    ensures stored { (suffixes : List Suffix) (n : PathNode) → AreNibbles suffixes
        → Contains (stored_over suffixes) n ↔ (IsHung suffixes n × IsLong n) }
{}

/// A node's value is that of the key that ends after its partial key. Its child at a nibble is there exactly where keys go
/// on with the partial key and the nibble, and is the Merkle value of the node over those; that node hangs there, and is
/// stored where its spelling has 32 bytes or more.
pub fn children_are_the_nodes_below()
    ensures value { (suffixes : List Suffix) → (node_of_all suffixes).value
        ≡ value_here (below (node_of_all suffixes).partial suffixes) }
    ensures child { (suffixes : List Suffix) (path : List ℕ) (nibble : ℕ) → nibble < 16
        → child_at suffixes path nibble ≡ child_value node_of_all (below (child_path suffixes path nibble) suffixes) }
    ensures hangs { (suffixes : List Suffix) (path : List ℕ) (nibble : ℕ) → nibble < 16
        → is_some (child_at suffixes path nibble) ≡ true → Hangs suffixes (child_path suffixes path nibble) }
    ensures stored { (suffixes : List Suffix) (path : List ℕ) (nibble : ℕ) (n : PathNode) → AreNibbles suffixes → nibble < 16
        → is_some (child_at suffixes path nibble) ≡ true → n.path ≡ child_path suffixes path nibble
        → n.bytes ≡ spelling (node_at suffixes n.path) → 32 ≤ length n.bytes → Contains (stored_over suffixes) n }
{}

/// Each node of a trie but the root is named by the node above it: this has its Merkle value as the child at its path.
pub fn nodes_are_named_from_above()
    ensures { (suffixes : List Suffix) (n : PathNode) → AreNibbles suffixes → Contains (all_over suffixes) n
        → (n.path ≡ []) ⊎ IsNamed suffixes n }
{}

/// What a change stores and drops is what its two states' stored nodes differ in, as often as each is there: of the nodes
/// that pass any test, as that of having a given hash, the second state has so many as the first, less those dropped, with
/// those put.
pub fn puts_and_drops_balance()
    ensures { (m m2 : State) (test : PathNode → Bool)
        → count_by test (stored_nodes m2) + count_by test (dropped_nodes m m2)
        ≡ count_by test (stored_nodes m) + count_by test (put_nodes m m2) }
{}

/// A root binds its state: two states of one root are one state, or a stored node of one and a stored node of the other
/// have different spellings with one hash.
pub fn a_root_binds()
    ensures { (m m2 : State) → All IsEntry (entries m) → All IsEntry (entries m2) → trie_root m ≡ trie_root m2
        → (m ≡ m2) ⊎ HaveCollision (stored_nodes m) (stored_nodes m2) }
{}

/// The nodes on a key's way, of those over some suffixes: the node over all of them, and no other where the key ends there or
/// leaves the partial key; else those on its way over the suffixes that go on as it does, if there are any.
pub fn a_key_goes_down_one_child()
    ensures ends { (depth : ℕ) (path rest : List ℕ) (suffixes : List Suffix)
        → (after_prefix (common_prefix suffixes) rest ≡ None) ⊎ (after_prefix (common_prefix suffixes) rest ≡ Some [])
        → filter (on_the_way (path ++ rest)) (nodes_over (suc depth) path suffixes)
        ≡ record { path = path; bytes = spelling (node_over (suc depth) suffixes) } ∷ [] }
    ensures goes_on { (depth : ℕ) (path rest : List ℕ) (suffixes : List Suffix) (nibble : ℕ) (left : List ℕ) → nibble < 16
        → after_prefix (common_prefix suffixes) rest ≡ Some (nibble ∷ left)
        → filter (on_the_way (path ++ rest)) (nodes_over (suc depth) path suffixes)
        ≡ record { path = path; bytes = spelling (node_over (suc depth) suffixes) }
        ∷ if_any (λ others. filter (on_the_way (path ++ rest)) (nodes_over depth (path ++ (common_prefix suffixes ++ nibble ∷ [])) others))
        (below (common_prefix suffixes ++ nibble ∷ []) suffixes) }
{}

/// The value of a key: of a state it is that of the suffix of no nibbles after the key's. There is none where the key
/// leaves what all suffixes share, and else it is found after that.
pub fn a_value_is_at_the_end_of_its_key()
    ensures state { (m : State) (key : List ℕ) → get m key ≡ value_here (below (nibbles_of key) (suffixes_of m)) }
    ensures off { (rest : List ℕ) (suffixes : List Suffix) → after_prefix (common_prefix suffixes) rest ≡ None
        → value_here (below rest suffixes) ≡ None }
    ensures on { (rest left : List ℕ) (suffixes : List Suffix) → after_prefix (common_prefix suffixes) rest ≡ Some left
        → value_here (below rest suffixes) ≡ value_here (below left (below (common_prefix suffixes) suffixes)) }
{}

/// The stored nodes of a state within the limits are never bad where they hang: they read as nodes, no partial key goes past
/// the longest key, no value is too long, and only a root is the node of the empty trie.
pub fn stored_nodes_are_good()
    ensures { (m : State) (n : PathNode) → All IsEntry (entries m) → Contains (stored_nodes m) n
        → is_bad_node (length n.path) n.bytes ≡ false }
{}
