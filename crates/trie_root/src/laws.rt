ghost use Rattle.std.specs.Prelude.{◌≡◌, ℕ, ◌≤◌, List, ◌∷◌, ◌++◌, [], All, IsTrue, drop, length, map, Some, None, ◌==◌, if◌then◌else◌};
ghost use Rattle.std.specs.Ordering.{is_lt, nat_cmp};
ghost use Rattle.std.specs.Cmp.Lexicographic.{slice_cmp};
ghost use Rattle.std.specs.FinMap.{is_sorted};
ghost use Rattle.sdb_base.specs.Nibbles.{nibbles_of};
ghost use Rattle.trie_model.specs.Trie.{Suffix, below, common, common_prefix, levels_of, node_over, value_here};
ghost use Rattle.trie_root.specs.Suffixes.{HasFirst, IsWithout};

/// A node over some suffixes has at most as many levels as the longest has nibbles, and one: a larger bound gives the
/// same node.
pub fn more_levels_change_nothing()
    ensures { (m n : ℕ) (suffixes : List Suffix) → levels_of suffixes ≤ m → levels_of suffixes ≤ n
        → node_over m suffixes ≡ node_over n suffixes }
{}

/// What all suffixes of a sorted list share is what its first and its last share.
pub fn ends_share_the_prefix()
    ensures { (first last : Suffix) (between : List Suffix)
        → IsTrue (is_sorted (slice_cmp nat_cmp) (first ∷ (between ++ last ∷ [])))
        → common_prefix (first ∷ (between ++ last ∷ [])) ≡ common first.0 last.0 }
{}

/// All suffixes go on with what they share, and keep their order without it.
pub fn all_go_on_with_the_shared_prefix()
    ensures { (suffixes : List Suffix) → below (common_prefix suffixes) suffixes
        ≡ map (λ (s : Suffix). (drop (length (common_prefix suffixes)) s.0, s.1)) suffixes }
{}

/// The suffixes below two prefixes, one after the other.
pub fn prefixes_follow_one_another()
    ensures { (p q : List ℕ) (suffixes : List Suffix) → below (p ++ q) suffixes
        ≡ below q (below p suffixes) }
{}

/// The suffixes of a sorted list that begin with a nibble are in a row: none before it and none after it does.
pub fn a_nibble_is_a_row()
    ensures { (nibble : ℕ) (suffixes : List Suffix) → IsTrue (is_sorted (slice_cmp nat_cmp) suffixes)
        → (front : List Suffix) × (row : List Suffix) × (back : List Suffix)
        × (suffixes ≡ front ++ (row ++ back))
        × All (IsWithout nibble) front × All (HasFirst nibble) row × All (IsWithout nibble) back
        × (below (nibble ∷ []) suffixes ≡ map (λ (s : Suffix). (drop 1 s.0, s.1)) row) }
{}

/// A sorted list stays sorted without the prefix that all share.
pub fn order_stays_below_the_shared_prefix()
    ensures { (suffixes : List Suffix) → IsTrue (is_sorted (slice_cmp nat_cmp) suffixes)
        → IsTrue (is_sorted (slice_cmp nat_cmp) (below (common_prefix suffixes) suffixes)) }
{}

/// In a sorted list only the first can be the suffix of no nibbles.
pub fn a_value_stands_first()
    ensures { (first : Suffix) (others : List Suffix)
        → IsTrue (is_sorted (slice_cmp nat_cmp) (first ∷ others))
        → value_here (first ∷ others) ≡ (if length first.0 == 0 then Some first.1 else None) }
{}

/// Keys that rise, rise in nibbles.
pub fn keys_rise_in_nibbles()
    ensures { (low high : List ℕ) → IsTrue (is_lt (slice_cmp nat_cmp low high))
        → IsTrue (is_lt (slice_cmp nat_cmp (nibbles_of low) (nibbles_of high))) }
{}
