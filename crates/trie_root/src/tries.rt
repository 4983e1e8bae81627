ghost use Rattle.std.specs.Prelude.{◌≡◌, ℕ, ◌<◌, List, IsTrue, All};
ghost use Rattle.std.specs.Ordering.{nat_cmp};
ghost use Rattle.std.specs.Cmp.Lexicographic.{slice_cmp};
ghost use Rattle.std.specs.FinMap.{entries, is_sorted};
ghost use Rattle.trie_model.specs.Node.{IsNode};
ghost use Rattle.trie_model.specs.State.{State};
ghost use Rattle.trie_model.specs.Trie.{Suffix, levels_of, node_of_all, read_off, root_node, suffixes_of};
ghost use Rattle.trie_root.specs.Suffixes.{IsEntry, IsSuffix};

/// What is read off a state's trie, from the root node down, is the state: its keys in nibbles and their values, in
/// their order.
pub fn a_trie_gives_its_state_back()
    ensures suffixes { (suffixes : List Suffix) → IsTrue (is_sorted (slice_cmp nat_cmp) suffixes)
        → All (λ (s : Suffix). All (λ n. n < 16) s.0) suffixes
        → read_off (levels_of suffixes) suffixes ≡ suffixes }
    ensures state { (m : State) → All (λ (e : List ℕ × List ℕ). All (λ b. b < 256) e.0) (entries m)
        → read_off (levels_of (suffixes_of m)) (suffixes_of m) ≡ suffixes_of m }
{}

/// The nodes of a trie are nodes that can be written and read: nibbles, lengths and children as the grammar of nodes
/// has them.
pub fn nodes_of_tries_are_nodes()
    ensures suffixes { (suffixes : List Suffix) → IsTrue (is_sorted (slice_cmp nat_cmp) suffixes)
        → All IsSuffix suffixes → IsNode (node_of_all suffixes) }
    ensures state { (m : State) → All IsEntry (entries m) → IsNode (root_node m) }
{}
