ghost use Rattle.std.specs.Prelude.{◌≡◌, ◌∷◌, [], ◌++◌, ◌-◌, ◌^◌, ℕ, List, length, replicate, Some, None};
ghost use Rattle.std.specs.Int.{w64, to_le_bytes};
ghost use Rattle.sdb_base.specs.Content.{Counted};
ghost use Rattle.pdb_model.specs.Chunks.{chunk_bytes, chunk_number, entry_of, with_entry};
ghost use Rattle.pdb_model.specs.Columns.{Column, IsColumn, IsUnder};
ghost use Rattle.pdb_model.specs.Tables.{Free, Outside, Table, Whole, bytes_of_part, freed_all, part_count, placed, room_of, slots_of, slots_taken, taken_many};
ghost use Rattle.pdb_model.specs.Tiers.{slot_size, tier_of};

/// A value goes to the lowest tier that holds it with the 44 bytes before it: on both sides of each edge, computed.
pub fn known_tiers()
    ensures first { (tier_of 0 ≡ 0) × (tier_of 20 ≡ 0) × (tier_of 21 ≡ 1) × (tier_of 52 ≡ 1) × (tier_of 53 ≡ 2) }
    ensures low { (tier_of 84 ≡ 2) × (tier_of 85 ≡ 3) × (tier_of 116 ≡ 3) × (tier_of 117 ≡ 4) × (tier_of 148 ≡ 4) × (tier_of 149 ≡ 5) }
    ensures middle { (tier_of 212 ≡ 5) × (tier_of 213 ≡ 6) × (tier_of 276 ≡ 6) × (tier_of 277 ≡ 7) × (tier_of 468 ≡ 7) × (tier_of 469 ≡ 8) }
    ensures high { (tier_of 724 ≡ 8) × (tier_of 725 ≡ 9) × (tier_of 980 ≡ 9) × (tier_of 981 ≡ 10) × (tier_of 2004 ≡ 10) × (tier_of 2005 ≡ 11) }
    ensures large { (tier_of 4052 ≡ 11) × (tier_of 4053 ≡ 12) × (tier_of 8148 ≡ 12) × (tier_of 8149 ≡ 13) × (tier_of 16340 ≡ 13) × (tier_of 16341 ≡ 14) }
    ensures last { (tier_of 32724 ≡ 14) × (tier_of 32725 ≡ 15) × (tier_of 8388608 ≡ 15) × (slot_size 14 ≡ 32768) × (slot_size 15 ≡ 4096) }
{}

/// Entries and chunk numbers of a key that begins with the bytes 12 34 56 78, computed.
pub fn known_entries()
    ensures base_0 { entry_of 0 (0x12 ∷ (0x34 ∷ (0x56 ∷ (0x78 ∷ replicate 28 0)))) 2 5 ≡ 0x1234560200000005 }
    ensures base_4 { entry_of 4 (0x12 ∷ (0x34 ∷ (0x56 ∷ (0x78 ∷ replicate 28 0)))) 2 5 ≡ 0x2345670200000005 }
    ensures spelled { to_le_bytes w64 0x2345670200000005 ≡ 0x05 ∷ (0 ∷ (0 ∷ (0 ∷ (0x02 ∷ (0x67 ∷ (0x45 ∷ (0x23 ∷ []))))))) }
    ensures chunk { (chunk_number 4 (0x12 ∷ (0x34 ∷ (0x56 ∷ (0x78 ∷ replicate 28 0)))) ≡ 1)
        × (chunk_number 0 (0x12 ∷ (0x34 ∷ (0x56 ∷ (0x78 ∷ replicate 28 0)))) ≡ 0)
        × (chunk_number 30 (0x12 ∷ (0x34 ∷ (0x56 ∷ (0x78 ∷ replicate 28 0)))) ≡ 0x48d159e) }
{}

/// How many further parts a value has, on both sides of each edge, and how long its last one is, computed.
pub fn known_parts()
    ensures counts { (part_count 4044 ≡ 0) × (part_count 4045 ≡ 1) × (part_count 8132 ≡ 1) × (part_count 8133 ≡ 2)
        × (part_count 32725 ≡ 8) × (part_count 4194304 ≡ 1026) × (part_count 8388608 ≡ 2052) }
    ensures slots { (slots_of 32724 ≡ 1) × (slots_of 32725 ≡ 9) }
    ensures last { (length (bytes_of_part (replicate 32725 0) 6) ≡ 4088) × (length (bytes_of_part (replicate 32725 0) 7) ≡ 65) }
{}

/// Slots are taken from the front of the free list and then past the end, and freed ones come to its front, computed.
pub fn known_free_lists()
    ensures taken { slots_taken 4 (record { slot = λ i. Free; free = 5 ∷ (2 ∷ []); end = 7 }) ≡ 5 ∷ (2 ∷ (8 ∷ (9 ∷ []))) }
    ensures left { ((taken_many 1 (record { slot = λ i. Free; free = 5 ∷ (2 ∷ []); end = 7 })).free ≡ 2 ∷ [])
        × ((taken_many 3 (record { slot = λ i. Free; free = 5 ∷ (2 ∷ []); end = 7 })).end ≡ 8) }
    ensures freed { (freed_all (record { slot = λ i. Free; free = 5 ∷ []; end = 7 }) (1 ∷ (4 ∷ (3 ∷ [])))).free ≡ 3 ∷ (4 ∷ (1 ∷ (5 ∷ []))) }
    ensures room { (room_of (record { slot = λ i. Free; free = 5 ∷ (2 ∷ []); end = 2 ^ 32 - 2 }) ≡ 3)
        × (room_of (record { slot = λ i. Free; free = []; end = 2 ^ 32 - 1 }) ≡ 0) }
    ensures placed { (placed (record { slot = λ i. Outside; free = []; end = 0 }) (9 ∷ []) 1 (7 ∷ [])).slot 1 ≡ Whole (9 ∷ []) 1 (7 ∷ []) }
{}

/// A chunk is its entries one after the other, low byte first, and a new entry goes to the first empty place, computed.
pub fn known_chunks()
    ensures spelled { chunk_bytes (0x0102030405060708 ∷ (0xff ∷ [])) ≡ 8 ∷ (7 ∷ (6 ∷ (5 ∷ (4 ∷ (3 ∷ (2 ∷ (1 ∷ (0xff ∷ (0 ∷ (0 ∷ (0 ∷ (0 ∷ (0 ∷ (0 ∷ (0 ∷ []))))))))))))))) }
    ensures put { (with_entry (3 ∷ (0 ∷ (4 ∷ (0 ∷ [])))) 9 ≡ Some (3 ∷ (9 ∷ (4 ∷ (0 ∷ []))))) × (with_entry (3 ∷ (4 ∷ [])) 9 ≡ None) }
{}

/// What a column holds is one map: it has one count and one value under a key.
pub fn content_is_one_map()
    ensures { (c : Column) (key : List ℕ) (one other : Counted) → IsColumn c → IsUnder c key one → IsUnder c key other → one ≡ other }
{}
