ghost use Rattle.std.specs.Prelude.{◌≡◌, ◌≢◌, ◌∷◌, ◌++◌, [], ℕ, List, Option, Some, None};
ghost use Rattle.std.specs.Option.{option_or};
ghost use Rattle.sdb_base.specs.declared.op.Op.{Op};
ghost use Rattle.sdb_base.specs.declared.op.Op.TheVariants.{AddRef, DropRef, Put, Erase};
ghost use Rattle.pdb_overlay.specs.Lending.{Bytes, Erased, newest_said};

/// What operations say, computed: the newest of two puts counts, an erase after a put and a put after an erase; a `DropRef`
/// says nothing, so that the bytes of the `AddRef` before it stay lent; the same bytes as a hash and as a plain key are told
/// apart; and nothing is said of another key, nor of another column.
pub fn known_sayings()
    ensures newest { newest_said 1 (7 ∷ []) (Put (7 ∷ []) (1 ∷ []) ∷ (Put (7 ∷ []) (2 ∷ []) ∷ [])) ≡ Some (Bytes (2 ∷ [])) }
    ensures erased { newest_said 1 (7 ∷ []) (Put (7 ∷ []) (1 ∷ []) ∷ (Erase (7 ∷ []) ∷ [])) ≡ Some Erased }
    ensures put_again { newest_said 1 (7 ∷ []) (Erase (7 ∷ []) ∷ (Put (7 ∷ []) (1 ∷ []) ∷ [])) ≡ Some (Bytes (1 ∷ [])) }
    ensures added { newest_said 0 (7 ∷ []) (AddRef (record { 0 = 7 ∷ [] }) (1 ∷ []) ∷ (AddRef (record { 0 = 7 ∷ [] }) (2 ∷ []) ∷ []))
        ≡ Some (Bytes (2 ∷ [])) }
    ensures dropped { newest_said 0 (7 ∷ []) (AddRef (record { 0 = 7 ∷ [] }) (1 ∷ []) ∷ (DropRef (record { 0 = 7 ∷ [] }) ∷ []))
        ≡ Some (Bytes (1 ∷ [])) }
    ensures only_dropped { newest_said 0 (7 ∷ []) (DropRef (record { 0 = 7 ∷ [] }) ∷ []) ≡ None }
    ensures apart { (newest_said 0 (7 ∷ []) (AddRef (record { 0 = 7 ∷ [] }) (1 ∷ []) ∷ (Put (7 ∷ []) (2 ∷ []) ∷ [])) ≡ Some (Bytes (1 ∷ [])))
        × (newest_said 1 (7 ∷ []) (Put (7 ∷ []) (2 ∷ []) ∷ (AddRef (record { 0 = 7 ∷ [] }) (1 ∷ []) ∷ [])) ≡ Some (Bytes (2 ∷ []))) }
    ensures apart_erased { (newest_said 0 (7 ∷ []) (AddRef (record { 0 = 7 ∷ [] }) (1 ∷ []) ∷ (Erase (7 ∷ []) ∷ [])) ≡ Some (Bytes (1 ∷ [])))
        × (newest_said 0 (7 ∷ []) (Erase (7 ∷ []) ∷ []) ≡ None) }
    ensures another { (newest_said 1 (8 ∷ []) (Put (7 ∷ []) (1 ∷ []) ∷ []) ≡ None)
        × (newest_said 1 (7 ∷ (0 ∷ [])) (Put (7 ∷ []) (1 ∷ []) ∷ []) ≡ None)
        × (newest_said 1 [] (Put (7 ∷ []) (1 ∷ []) ∷ []) ≡ None) }
    ensures no_column { (newest_said 2 (7 ∷ []) (Put (7 ∷ []) (1 ∷ []) ∷ (Erase (7 ∷ []) ∷ [])) ≡ None)
        × (newest_said 2 (7 ∷ []) (AddRef (record { 0 = 7 ∷ [] }) (1 ∷ []) ∷ []) ≡ None) }
    ensures empty { (newest_said 1 [] (Put [] [] ∷ []) ≡ Some (Bytes [])) × (newest_said 1 [] [] ≡ None) }
{}

/// What the later ones of some operations say counts, else what the earlier ones say.
pub fn newest_is_of_the_last()
    ensures { (column : ℕ) (key : List ℕ) (earlier later : List Op)
        → newest_said column key (earlier ++ later) ≡ option_or (newest_said column key later) (newest_said column key earlier) }
{}
