ghost use Rattle.std.specs.Prelude.{◌≡◌, ℕ, List, All, None};
ghost use Rattle.sdb_base.specs.Content.{meta_from};
ghost use Rattle.sdb_base.specs.declared.op.Op.{Op};
ghost use Rattle.sdb_blake2.specs.Blake2b.{H};
ghost use Rattle.pdb_column.specs.Maps.{column_from, HasHashAlone};

/// Where no two different plain keys share a hash, column 1 holds under a plain key's hash what the operations put under
/// the key.
pub fn plain_keys_stand_as_their_hashes()
    ensures { (ops : List Op) (key : List ℕ) → All (HasHashAlone key) ops
        → column_from 1 (λ _. None) ops (H key) ≡ meta_from key None ops }
{}
