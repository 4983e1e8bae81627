ghost use Rattle.std.specs.Prelude.{◌≡◌, ◌+◌, ◌≤◌, ◌++◌, length, slice_range};
ghost use Rattle.std.specs.Int.{w64, to_le_bytes};
ghost use Rattle.arrayvec.specs.ArrayVec.{array_vec_len};
ghost use Rattle.pdb_model.specs.Gates.{checksum, sealed};

use arrayvec::ArrayVec;
use sdb_blake2::hash256;

/// The checksum of some bytes: the first 8 bytes of their hash.
pub(crate) fn checksum(bytes: &[u8]) -> [u8; 8]
    ensures { result ≡ checksum bytes.now }
{
    let [b0, b1, b2, b3, b4, b5, b6, b7, ..] = hash256(bytes);
    [b0, b1, b2, b3, b4, b5, b6, b7]
}

/// Adds bytes to a layout that has room for them.
pub(crate) fn add<const N: usize>(layout: &mut ArrayVec<u8, N>, bytes: &[u8])
    requires { array_vec_len layout.old + length bytes.now ≤ N }
    ensures items { layout.new.items ≡ layout.old.items ++ bytes.now }
    ensures len { array_vec_len layout.new ≡ array_vec_len layout.old + length bytes.now }
{
    let Ok(()) = layout.try_extend_from_slice(bytes) else {
        unreachable!()
    };
}

/// A layout that lacks its checksum alone, with it.
pub(crate) fn seal<const N: usize>(mut layout: ArrayVec<u8, N>) -> [u8; N]
    requires { array_vec_len layout + 8 ≡ N }
    ensures { result ≡ sealed layout.entry.items }
{
    let end = checksum(layout.as_slice());
    add(&mut layout, &end);
    let Ok(bytes) = layout.into_inner() else {
        unreachable!()
    };
    bytes
}

/// The number that 8 bytes at a place spell, low byte first.
pub(crate) fn number_at(bytes: &[u8], at: usize) -> u64
    requires { at + 8 ≤ length bytes.now }
    ensures { to_le_bytes w64 result ≡ slice_range bytes.now at (at + 8) }
{
    let [b0, b1, b2, b3, b4, b5, b6, b7] = &bytes[at..at + 8] else {
        unreachable!()
    };
    u64::from_le_bytes([*b0, *b1, *b2, *b3, *b4, *b5, *b6, *b7])
}
