ghost use Rattle.std.specs.Prelude.{◌≡◌, ◌∷◌, ◌++◌, [], Some, None};
ghost use Rattle.trie_model.specs.Example.{high_entries, keys_in, low_entries, merged_entries, middle_entries, paths_of, suffixes_in};
ghost use Rattle.trie_model.specs.Fetches.{for_change, for_next, for_read, for_walk, next_of, beginning_with};
ghost use Rattle.trie_model.specs.Nodes.{all_over, nodes_without, stored_over};

/// The nodes of a state of a dozen keys by their paths, and those of them that are stored, computed.
pub fn known_stored_nodes()
    ensures all { paths_of (all_over (suffixes_in (low_entries ++ (middle_entries ++ high_entries)))) ≡ [] ∷ ((1 ∷ []) ∷ ((1 ∷ (0 ∷ (0 ∷ [])))
        ∷ ((1 ∷ (0 ∷ (0 ∷ (0 ∷ [])))) ∷ ((1 ∷ (0 ∷ (0 ∷ (1 ∷ [])))) ∷ ((1 ∷ (0 ∷ (2 ∷ []))) ∷ ((2 ∷ []) ∷ ((2 ∷ (0 ∷ (3 ∷ [])))
        ∷ ((2 ∷ (0 ∷ (3 ∷ (0 ∷ [])))) ∷ ((2 ∷ (0 ∷ (3 ∷ (1 ∷ [])))) ∷ ((10 ∷ []) ∷ ((10 ∷ (0 ∷ [])) ∷ ((10 ∷ (10 ∷ []))
        ∷ ((10 ∷ (10 ∷ (11 ∷ (11 ∷ [])))) ∷ ((10 ∷ (10 ∷ (11 ∷ (12 ∷ [])))) ∷ ((15 ∷ []) ∷ []))))))))))))))) }
    ensures stored { paths_of (stored_over (suffixes_in (low_entries ++ (middle_entries ++ high_entries)))) ≡ [] ∷ ((1 ∷ []) ∷ ((1 ∷ (0 ∷ (0 ∷ [])))
        ∷ ((1 ∷ (0 ∷ (0 ∷ (0 ∷ [])))) ∷ ((2 ∷ []) ∷ ((2 ∷ (0 ∷ (3 ∷ []))) ∷ ((2 ∷ (0 ∷ (3 ∷ (1 ∷ [])))) ∷ ((10 ∷ []) ∷ ((10 ∷ (10 ∷ [])) ∷ [])))))))) }
    ensures nothing { stored_over [] ≡ record { path = []; bytes = 0 ∷ [] } ∷ [] }
{}

/// Which of those a read, a search for the next key and a walk fetch, computed.
pub fn known_fetches()
    ensures read { paths_of (for_read (stored_over (suffixes_in (low_entries ++ (middle_entries ++ high_entries)))) (0x20 ∷ (0x32 ∷ [])))
        ≡ [] ∷ ((2 ∷ []) ∷ ((2 ∷ (0 ∷ (3 ∷ []))) ∷ [])) }
    ensures next_key { (next_of (keys_in middle_entries) (0x20 ∷ (0x30 ∷ [])) ≡ Some (0x20 ∷ (0x31 ∷ []))) × (next_of (keys_in high_entries) (0xff ∷ []) ≡ None)
        × (next_of (keys_in low_entries) [] ≡ Some (0x10 ∷ [])) }
    ensures next { paths_of (for_next (stored_over (suffixes_in (low_entries ++ (middle_entries ++ high_entries)))) (0x10 ∷ (0x20 ∷ [])) (Some (0x20 ∷ [])))
        ≡ [] ∷ ((1 ∷ []) ∷ ((2 ∷ []) ∷ [])) }
    ensures beginning_with { (beginning_with (keys_in (low_entries ++ middle_entries)) (0x20 ∷ []) ≡ keys_in middle_entries)
        × (beginning_with (keys_in low_entries) (0x10 ∷ (0x00 ∷ [])) ≡ (0x10 ∷ (0x00 ∷ [])) ∷ []) × (beginning_with (keys_in middle_entries) (0x20 ∷ (0x3f ∷ [])) ≡ []) }
    ensures walk { paths_of (for_walk (stored_over (suffixes_in (low_entries ++ (middle_entries ++ high_entries)))) (0x20 ∷ (0x3f ∷ [])))
        ≡ [] ∷ ((2 ∷ []) ∷ ((2 ∷ (0 ∷ (3 ∷ []))) ∷ [])) }
    ensures walk_below { paths_of (for_walk (stored_over (suffixes_in (low_entries ++ (middle_entries ++ high_entries)))) (0x20 ∷ []))
        ≡ [] ∷ ((2 ∷ []) ∷ ((2 ∷ (0 ∷ (3 ∷ []))) ∷ ((2 ∷ (0 ∷ (3 ∷ (1 ∷ [])))) ∷ []))) }
{}

/// Which nodes a deletion fetches that merges a node with the one above it, and which it stores and drops, computed.
pub fn known_changes()
    ensures fetched { paths_of (for_change (stored_over (suffixes_in (low_entries ++ middle_entries)))
        (all_over (suffixes_in (low_entries ++ merged_entries))) ((0x20 ∷ (0x30 ∷ [])) ∷ []))
        ≡ [] ∷ ((2 ∷ []) ∷ ((2 ∷ (0 ∷ (3 ∷ []))) ∷ ((2 ∷ (0 ∷ (3 ∷ (1 ∷ [])))) ∷ []))) }
    ensures put { paths_of (nodes_without (stored_over (suffixes_in (low_entries ++ merged_entries))) (stored_over (suffixes_in (low_entries ++ middle_entries))))
        ≡ [] ∷ ((2 ∷ []) ∷ ((2 ∷ (0 ∷ (3 ∷ []))) ∷ [])) }
    ensures dropped { paths_of (nodes_without (stored_over (suffixes_in (low_entries ++ middle_entries))) (stored_over (suffixes_in (low_entries ++ merged_entries))))
        ≡ [] ∷ ((2 ∷ []) ∷ ((2 ∷ (0 ∷ (3 ∷ []))) ∷ ((2 ∷ (0 ∷ (3 ∷ (1 ∷ [])))) ∷ []))) }
    ensures nothing { (for_change (stored_over (suffixes_in middle_entries)) (all_over (suffixes_in middle_entries)) [] ≡ [])
        × (nodes_without (stored_over (suffixes_in middle_entries)) (stored_over (suffixes_in middle_entries)) ≡ []) }
{}
