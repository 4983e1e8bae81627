ghost use Rattle.std.specs.Prelude.{◌≡◌, ◌+◌, ◌≤◌, ◌<◌, length};
ghost use Rattle.std.specs.Int.{w64, from_be_bytes};
ghost use Rattle.pdb_model.specs.Chunks.{bits_at, chunk_number, front_of};

/// The number of a key's chunk in an index of `bits` bits: the key's first bits, as a number. `bits` is at most 30.
pub fn chunk_of(bits: u8, key: &[u8; 32]) -> u64
    requires { bits ≤ 30 }
    ensures { result ≡ chunk_number bits key.now }
{
    key_bits(0, bits, key)
}

// `count` bits of a key as a number, after the first `from`
pub(crate) fn key_bits(from: u8, count: u8, key: &[u8; 32]) -> u64
    requires from { from ≤ 16 }
    requires count { count ≤ 30 }
    ensures { result ≡ bits_at from count key.now }
{
    if count == 0 {
        return 0;
    }
    let shift = 64 - (from + count);
    (front(&key[..8]) >> shift) % (1u64 << count)
}

// these bytes as a number, the first one highest
fn front(bytes: &[u8]) -> u64
    requires { length bytes.now ≡ 8 }
    ensures { result ≡ from_be_bytes w64 bytes.now }
{
    let [b0, b1, b2, b3, b4, b5, b6, b7] = bytes else {
        unreachable!()
    };
    u64::from_be_bytes([*b0, *b1, *b2, *b3, *b4, *b5, *b6, *b7])
}
