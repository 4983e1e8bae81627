ghost use Rattle.std.specs.Prelude.{◌≡◌, ℕ, ◌+◌, ◌*◌, ◌<◌, ◌≢◌, ◌⊎◌, ◌∷◌, [], ◌++◌, List, All, Some, None, IsSome, map, slice_get, if◌then◌else◌};
ghost use Rattle.std.specs.Option.{unwrap_or};
ghost use Rattle.pdb_cells.specs.Content.{Content, put_cell};
ghost use Rattle.pdb_cells.specs.Puts.{NoCellTwice, laid, last_put, puts_after, same_cell};
ghost use Rattle.pdb_cells.specs.Sizes.{size_of, slot_sizes};
ghost use Rattle.pdb_cells.specs.declared.cell_name.CellName.{CellName};
ghost use Rattle.pdb_cells.specs.declared.puts.Put.{Put};

/// Head cells have 256 bytes, the chunks of both indexes of a column 512, and the slots of a tier their tier's
/// size; other files have no cells.
pub fn cells_have_their_sizes()
    ensures head { (size_of 8 ≡ None) × (size_of 9 ≡ Some 256) × (size_of 10 ≡ None) }
    ensures chunks { (c : ℕ) → c < 2 → (size_of (16 + 32 * c) ≡ Some 512) × (size_of (17 + 32 * c) ≡ Some 512) }
    ensures slots { (c t : ℕ) → c < 2 → t < 16 → size_of (18 + 32 * c + t) ≡ slice_get slot_sizes t }
    ensures none { (file : ℕ) → ((file < 16) × (file ≢ 9)) ⊎ (((33 < file) × (file < 48)) ⊎ (65 < file)) → size_of file ≡ None }
    ensures edges { map size_of (15 ∷ 16 ∷ 17 ∷ 18 ∷ 33 ∷ 34 ∷ 47 ∷ 48 ∷ 49 ∷ 50 ∷ 65 ∷ 66 ∷ [])
        ≡ None ∷ Some 512 ∷ Some 512 ∷ Some 64 ∷ Some 4096 ∷ None ∷ None ∷ Some 512 ∷ Some 512 ∷ Some 64 ∷ Some 4096 ∷ None ∷ [] }
{}

/// Puts are done in their order: a cell has the bytes of its last put, or its own where there is none.
pub fn puts_are_laid_in_order()
    ensures cell { (puts : List Put) (cells : Content) (name : CellName)
        → laid puts cells name.file name.index ≡ unwrap_or (last_put puts name) (cells name.file name.index) }
    ensures joined { (ps qs : List Put) (cells : Content) → laid (ps ++ qs) cells ≡ laid qs (laid ps cells) }
{}

/// One more put of a cell takes the place of the earlier one, or comes last where there is none. In either case it
/// is the last put of its cell, and no cell is put twice where none was.
pub fn a_put_replaces_the_earlier_one()
    ensures there { (ps : List Put) (p : Put) → IsSome (last_put ps p.name)
        → map (λ (q : Put). q.name) (puts_after ps p) ≡ map (λ (q : Put). q.name) ps }
    ensures new { (ps : List Put) (p : Put) → last_put ps p.name ≡ None → puts_after ps p ≡ ps ++ p ∷ [] }
    ensures last { (ps : List Put) (p : Put) (name : CellName) → NoCellTwice ps
        → last_put (puts_after ps p) name ≡ (if same_cell p.name name then Some p.bytes else last_put ps name) }
    ensures cells { (ps : List Put) (p : Put) (cells : Content) → NoCellTwice ps
        → laid (puts_after ps p) cells ≡ put_cell p.name.file p.name.index p.bytes (laid ps cells) }
    ensures once { (ps : List Put) (p : Put) → NoCellTwice ps → NoCellTwice (puts_after ps p) }
{}
