ghost use Rattle.std.specs.Prelude.{◌≡◌, ◌⊎◌, ℕ, true, false, List, [], ◌∷◌, ◌++◌, All, Contains};
ghost use Rattle.std.specs.FinMap.{get};
ghost use Rattle.sdb_base.specs.declared.Change.{Change};
ghost use Rattle.trie_model.specs.Fetches.{change_fetches, is_changed};
ghost use Rattle.trie_model.specs.Nodes.{PathNode, all_nodes, dropped_nodes, has_path, put_nodes, stored_nodes};
ghost use Rattle.trie_model.specs.State.{State, apply};
ghost use Rattle.trie_model.specs.Trie.{below, suffixes_of};
ghost use Rattle.trie_read.specs.Paths.{AreNibbles};
ghost use Rattle.trie_change.specs.ChangedKeys.{keys_in_changes};

/// What goes on with a path that begins no changed key stays as it is: the same keys with the same values.
pub fn other_keys_stay()
    ensures { (m : State) (changes : List Change) (n : PathNode) → is_changed (keys_in_changes changes) n ≡ false
        → below n.path (suffixes_of (apply m changes)) ≡ below n.path (suffixes_of m) }
{}

/// A stored node that a change doesn't fetch is stored after it at the same path with the same bytes. So each node that it
/// drops is among those that it fetches.
pub fn what_is_not_fetched_stays()
    ensures stays { (m : State) (changes : List Change) (n : PathNode) → Contains (stored_nodes m) n
        → (Contains (change_fetches m changes) n → ⊥) → Contains (stored_nodes (apply m changes)) n }
    ensures dropped { (m : State) (changes : List Change) (n : PathNode) → Contains (dropped_nodes m (apply m changes)) n
        → Contains (change_fetches m changes) n }
{}

/// A node that a change puts hangs on the way to a changed key, or where no node hung before, not even an inline one: a node
/// that is off the way and hung there before is as it was.
pub fn what_is_put_is_new_at_its_path()
    ensures { (m : State) (changes : List Change) (n : PathNode) → Contains (put_nodes m (apply m changes)) n
        → (is_changed (keys_in_changes changes) n ≡ true) ⊎ (has_path (all_nodes m) n.path ≡ false) }
{}

/// The nodes that hang further down than a path that begins no changed key are the same before and after the change, each at
/// its path with its bytes, inline ones too. So where a node comes to hang at a new path as the one above it is split or
/// merged, those below it keep theirs. The keys of the state that is to have the node are bytes, since a trie has no child
/// beyond the nibble 15.
pub fn children_keep_their_paths()
    ensures before { (m : State) (changes : List Change) (n o : PathNode) (rest : List ℕ) → AreNibbles (suffixes_of m)
        → is_changed (keys_in_changes changes) n ≡ false → o.path ≡ n.path ++ rest → (rest ≡ [] → ⊥)
        → Contains (all_nodes (apply m changes)) o → Contains (all_nodes m) o }
    ensures after { (m : State) (changes : List Change) (n o : PathNode) (rest : List ℕ) → AreNibbles (suffixes_of (apply m changes))
        → is_changed (keys_in_changes changes) n ≡ false → o.path ≡ n.path ++ rest → (rest ≡ [] → ⊥)
        → Contains (all_nodes m) o → Contains (all_nodes (apply m changes)) o }
{}

/// No changes fetch nothing, and a state that stays the same has nothing put or dropped.
pub fn no_changes_fetch_nothing()
    ensures fetched { (m : State) → change_fetches m [] ≡ [] }
    ensures put { (m : State) → put_nodes m m ≡ [] }
    ensures dropped { (m : State) → dropped_nodes m m ≡ [] }
{}

/// Changes that set keys to the values that they have, or delete keys that aren't there, leave the state as it is, and put and
/// drop nothing. What they fetch is what other values would fetch on the way to these keys.
pub fn setting_the_same_value()
    ensures state { (m : State) (changes : List Change) → All (λ (c : Change). get m c.key ≡ c.value) changes
        → apply m changes ≡ m }
    ensures put { (m : State) (changes : List Change) → All (λ (c : Change). get m c.key ≡ c.value) changes
        → put_nodes m (apply m changes) ≡ [] }
    ensures dropped { (m : State) (changes : List Change) → All (λ (c : Change). get m c.key ≡ c.value) changes
        → dropped_nodes m (apply m changes) ≡ [] }
{}

/// After changes one after another a key has the value of the last change that names it, None where that deletes it, and else
/// the value that it had. A change that a later one of its key follows can be left out.
pub fn one_change_after_another()
    ensures last { (m : State) (before after : List Change) (c : Change) → (Contains (keys_in_changes after) c.key → ⊥)
        → get (apply m (before ++ c ∷ after)) c.key ≡ c.value }
    ensures other { (m : State) (changes : List Change) (key : List ℕ) → (Contains (keys_in_changes changes) key → ⊥)
        → get (apply m changes) key ≡ get m key }
    ensures left_out { (m : State) (before after : List Change) (c : Change) → Contains (keys_in_changes after) c.key
        → apply m (before ++ c ∷ after) ≡ apply m (before ++ after) }
{}
