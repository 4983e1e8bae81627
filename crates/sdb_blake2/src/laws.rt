ghost use Rattle.std.specs.Prelude.{◌≡◌, ℕ, Bool, true, ◌+◌, ◌-◌, ◌*◌, ◌^◌, ◌<◌, ◌++◌, List, [], ◌∷◌, bit_xor, length, drop, replicate, codes, slice_index};
ghost use Rattle.std.specs.List.{list_all, range_with_len};
ghost use Rattle.sdb_blake2.specs.Blake2b.{H, compress, digest, final_state, first_state, initial_words, sigma, sigma_row, state_after, working_vector};
ghost use Rattle.sdb_blake2.specs.Constants.{are_root_fractions, first_primes, is_permutation};

/// BLAKE2b-256 of no bytes.
pub const EMPTY_256: [u8; 32] = [
    0x0e, 0x57, 0x51, 0xc0, 0x26, 0xe5, 0x43, 0xb2, 0xe8, 0xab, 0x2e, 0xb0, 0x60, 0x99, 0xda, 0xa1,
    0xd1, 0xe5, 0xdf, 0x47, 0x77, 0x8f, 0x77, 0x87, 0xfa, 0xab, 0x45, 0xcd, 0xf1, 0x2f, 0xe3, 0xa8,
];

/// BLAKE2b-256 of one byte 0.
pub const ZERO_256: [u8; 32] = [
    0x03, 0x17, 0x0a, 0x2e, 0x75, 0x97, 0xb7, 0xb7, 0xe3, 0xd8, 0x4c, 0x05, 0x39, 0x1d, 0x13, 0x9a,
    0x62, 0xb1, 0x57, 0xe7, 0x87, 0x86, 0xd8, 0xc0, 0x82, 0xf2, 0x9d, 0xcf, 0x4c, 0x11, 0x13, 0x14,
];

/// BLAKE2b-256 of the bytes 0 to 127, by Python's hashlib: a full block of sixteen different words.
pub const BLOCK_256: [u8; 32] = [
    0xc3, 0x58, 0x2f, 0x71, 0xeb, 0xb2, 0xbe, 0x66, 0xfa, 0x5d, 0xd7, 0x50, 0xf8, 0x0b, 0xaa, 0xe9,
    0x75, 0x54, 0xf3, 0xb0, 0x15, 0x66, 0x3c, 0x8b, 0xe3, 0x77, 0xcf, 0xcb, 0x24, 0x88, 0xc1, 0xd1,
];

/// BLAKE2b-512 of `abc`.
pub const ABC_512: [u8; 64] = [
    0xba, 0x80, 0xa5, 0x3f, 0x98, 0x1c, 0x4d, 0x0d, 0x6a, 0x27, 0x97, 0xb6, 0x9f, 0x12, 0xf6, 0xe9,
    0x4c, 0x21, 0x2f, 0x14, 0x68, 0x5a, 0xc4, 0xb7, 0x4b, 0x12, 0xbb, 0x6f, 0xdb, 0xff, 0xa2, 0xd1,
    0x7d, 0x87, 0xc5, 0x39, 0x2a, 0xab, 0x79, 0x2d, 0xc2, 0x52, 0xd5, 0xde, 0x45, 0x33, 0xcc, 0x95,
    0x18, 0xd3, 0x8a, 0xa8, 0xdb, 0xf1, 0x92, 0x5a, 0xb9, 0x23, 0x86, 0xed, 0xd4, 0x00, 0x99, 0x23,
];

/// The constants are those of RFC 7693: the initial words are the first 64 bits of the fractional
/// parts of the square roots of the first eight primes (2.6), the ten rows of the message schedule
/// are permutations, and rounds 10 and 11 take rows 0 and 1 again (2.7).
pub fn constants_are_standard()
    ensures initial_words { are_root_fractions first_primes initial_words ≡ true }
    ensures ten_rows { length sigma ≡ 10 }
    ensures permutations { list_all is_permutation sigma ≡ true }
    ensures round_10 { sigma_row 10 ≡ sigma_row 0 }
    ensures round_11 { sigma_row 11 ≡ sigma_row 1 }
{}

/// The counter of the last block is the message's length in bytes, without padding (3.3).
pub fn counter_counts_bytes()
    // The whole count goes into a working vector, not only its low bits (3.2).
    ensures all_bits { (h : List ℕ) (t : ℕ) (last : Bool) → length h ≡ 8 → t < 2 ^ 64
        → (slice_index (working_vector h t last) 12 ≡ bit_xor (slice_index initial_words 4) t)
        × (slice_index (working_vector h t last) 13 ≡ slice_index initial_words 5) }
    // An empty message is one block of zeros.
    ensures empty { (nn : ℕ) → final_state nn [] ≡ compress (first_state nn) (replicate 128 0) 0 true }
    // A full last block gets no further block.
    ensures full_last { (nn n : ℕ) (m : List ℕ) → length m ≡ 128 * (n + 1)
        → final_state nn m ≡ compress (state_after nn m n) (drop (128 * n) m) (128 * (n + 1)) true }
    // Another last block is padded with zeros, which the counter leaves out.
    ensures short_last { (nn n k : ℕ) (m : List ℕ) → 0 < k → k < 128 → length m ≡ 128 * n + k
        → final_state nn m ≡ compress (state_after nn m n)
        (drop (128 * n) m ++ replicate (128 - k) 0) (128 * n + k) true }
{}

/// Digests that the definition gives, by computing: BLAKE2b-256 of nothing, of one byte 0 and of the
/// bytes 0 to 127, and BLAKE2b-512 of `abc` (RFC 7693, appendix A).
pub fn known_digests()
    ensures nothing { H [] ≡ EMPTY_256 }
    ensures zero_byte { H (0 ∷ []) ≡ ZERO_256 }
    ensures full_block { H (range_with_len 0 128) ≡ BLOCK_256 }
    ensures abc { digest 64 (codes "abc") ≡ ABC_512 }
{}
