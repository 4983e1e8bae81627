ghost use Rattle.std.specs.Prelude.{◌≡◌, ℕ, ◌+◌, false, List, [], ◌∷◌, Some};
ghost use Rattle.sdb_base.specs.declared.Block.{Block};
ghost use Rattle.sdb_base.specs.declared.BlockId.{BlockId};
ghost use Rattle.sdb_model.specs.State.{State, apply, no_keys};
ghost use Rattle.sdb_model.specs.Blocks.{number_of, same_id, state_of};

/// Genesis has number 0, and its state is its changes applied to no keys. Any other block has its parent's number
/// plus one, and its state is its parent's with its own changes applied.
pub fn block_state_is_parents_with_changes()
    ensures genesis { (b : Block) → (number_of (b ∷ []) b.id ≡ Some 0)
        × (state_of (b ∷ []) b.id ≡ Some (apply no_keys b.changes)) }
    ensures number { (b c : Block) (older : List Block) (n : ℕ) → number_of (c ∷ older) b.parent ≡ Some n
        → number_of (b ∷ (c ∷ older)) b.id ≡ Some (n + 1) }
    ensures state { (b c : Block) (older : List Block) (m : State) → state_of (c ∷ older) b.parent ≡ Some m
        → state_of (b ∷ (c ∷ older)) b.id ≡ Some (apply m b.changes) }
{}

/// A block that is accepted later changes no other block's number or state.
pub fn later_blocks_change_no_other()
    ensures { (b c : Block) (older : List Block) (id : BlockId) → same_id b.id id ≡ false
        → (number_of (b ∷ (c ∷ older)) id ≡ number_of (c ∷ older) id)
        × (state_of (b ∷ (c ∷ older)) id ≡ state_of (c ∷ older) id) }
{}
