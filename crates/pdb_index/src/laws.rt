ghost use Rattle.std.specs.Prelude.{◌≡◌, ◌≢◌, ◌≤◌, ◌<◌, ◌^◌, ℕ, List};
ghost use Rattle.pdb_model.specs.Chunks.{CarriesKey, IsChunk, chunk_bytes, entry_of, entry_slot, entry_tier};

/// An entry has the bits of its key, its tier and its slot, and isn't 0.
pub fn entries_give_their_parts_back()
    ensures parts { (base tier slot : ℕ) (key : List ℕ) → tier < 2 ^ 8 → slot < 2 ^ 32
        → CarriesKey base key (entry_of base key tier slot) × (entry_tier (entry_of base key tier slot) ≡ tier)
        × (entry_slot (entry_of base key tier slot) ≡ slot) }
    ensures full { (base tier slot : ℕ) (key : List ℕ) → 1 ≤ slot → entry_of base key tier slot ≢ 0 }
    ensures narrow { (base tier slot : ℕ) (key : List ℕ) → tier < 2 ^ 8 → slot < 2 ^ 32 → entry_of base key tier slot < 2 ^ 64 }
{}

/// Two chunks with the same bytes are the same.
pub fn chunks_are_read_as_written()
    ensures { (one other : List ℕ) → IsChunk one → IsChunk other → chunk_bytes one ≡ chunk_bytes other → one ≡ other }
{}
