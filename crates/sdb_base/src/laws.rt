ghost use Rattle.std.specs.Prelude.{◌≡◌, ◌∷◌, ◌++◌, ◌-◌, ◌^◌, [], ℕ, List, Option, Some, None};
ghost use Rattle.sdb_base.specs.Content.{Counted, meta_from, meta_under, node_from, node_under, with_reference, without_reference};
ghost use Rattle.sdb_base.specs.Pipeline.{Enacts, Pipeline, all_flushed, one_enacted};
ghost use Rattle.sdb_base.specs.declared.op.Op.{Op};
ghost use Rattle.sdb_base.specs.declared.op.Op.TheVariants.{AddRef, DropRef, Put, Erase};

/// What a column holds under a key, computed: references are counted and the first bytes stay, the last one
/// removes the key, the last count stays, and the other column isn't touched.
pub fn known_contents()
    ensures counted { node_under (AddRef (record { 0 = 7 ∷ [] }) (1 ∷ []) ∷ (AddRef (record { 0 = 7 ∷ [] }) (2 ∷ []) ∷ [])) (7 ∷ [])
        ≡ Some (record { count = 2; bytes = 1 ∷ [] }) }
    ensures dropped { node_under (AddRef (record { 0 = 7 ∷ [] }) (1 ∷ []) ∷ (AddRef (record { 0 = 7 ∷ [] }) (1 ∷ []) ∷ (DropRef (record { 0 = 7 ∷ [] }) ∷ []))) (7 ∷ [])
        ≡ Some (record { count = 1; bytes = 1 ∷ [] }) }
    ensures gone { (node_under (AddRef (record { 0 = 7 ∷ [] }) (1 ∷ []) ∷ (DropRef (record { 0 = 7 ∷ [] }) ∷ [])) (7 ∷ []) ≡ None)
        × (node_under (DropRef (record { 0 = 7 ∷ [] }) ∷ []) (7 ∷ []) ≡ None) }
    ensures last { (with_reference [] (Some (record { count = 2 ^ 64 - 1; bytes = 1 ∷ [] })) ≡ Some (record { count = 2 ^ 64 - 1; bytes = 1 ∷ [] }))
        × (without_reference (Some (record { count = 2 ^ 64 - 1; bytes = 1 ∷ [] })) ≡ Some (record { count = 2 ^ 64 - 1; bytes = 1 ∷ [] }))
        × (with_reference [] (Some (record { count = 2 ^ 64 - 2; bytes = 1 ∷ [] })) ≡ Some (record { count = 2 ^ 64 - 1; bytes = 1 ∷ [] })) }
    ensures plain { (meta_under (Put (7 ∷ []) (1 ∷ []) ∷ (Put (7 ∷ []) (2 ∷ []) ∷ (Put (8 ∷ []) [] ∷ []))) (7 ∷ []) ≡ Some (record { count = 1; bytes = 2 ∷ [] }))
        × (meta_under (Put (7 ∷ []) (1 ∷ []) ∷ (Erase (7 ∷ []) ∷ [])) (7 ∷ []) ≡ None) }
    ensures apart { (node_under (Put (7 ∷ []) (1 ∷ []) ∷ []) (7 ∷ []) ≡ None) × (meta_under (AddRef (record { 0 = 7 ∷ [] }) (1 ∷ []) ∷ []) (7 ∷ []) ≡ None) }
{}

/// Operations after others change what the others left.
pub fn operations_apply_in_order()
    ensures nodes { (key : List ℕ) (now : Option Counted) (xs ys : List Op) → node_from key now (xs ++ ys) ≡ node_from key (node_from key now xs) ys }
    ensures metas { (key : List ℕ) (now : Option Counted) (xs ys : List Op) → meta_from key now (xs ++ ys) ≡ meta_from key (meta_from key now xs) ys }
{}

/// What flushing and enacting do to records that wait, three of them, the first two of one commit: all are flushed; the
/// oldest one is enacted, where it is flushed, and leaves the others; and none is where none is flushed.
pub fn known_stages()
    ensures flushed { (p : Pipeline) → p.waiting ≡ 1 ∷ 1 ∷ 2 ∷ [] → (all_flushed p).ready ≡ 3 }
    ensures enacted { (p : Pipeline) → p.waiting ≡ 1 ∷ 1 ∷ 2 ∷ [] → p.ready ≡ 2 → Enacts p (Some 1) (one_enacted p 1 (1 ∷ 2 ∷ []) 1) }
    ensures left { (p q : Pipeline) (n : ℕ) → p.waiting ≡ 1 ∷ 1 ∷ 2 ∷ [] → p.ready ≡ 2 → Enacts p (Some n) q
        → (n ≡ 1) × (q.waiting ≡ 1 ∷ 2 ∷ []) × (q.ready ≡ 1) × (q.numbers.enacted ≡ 1) }
    ensures some { (p q : Pipeline) → p.ready ≡ 2 → Enacts p None q → ⊥ }
    ensures none { (p q : Pipeline) (n : ℕ) → p.ready ≡ 0 → Enacts p (Some n) q → ⊥ }
{}
