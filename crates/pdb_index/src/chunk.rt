ghost use Rattle.std.specs.Prelude.{◌≡◌, ◌≢◌, ◌<◌, ◌↔◌, ℕ, List, All, Some, IfSome, MatchOption, slice_index, IsErr, OnOk, OnErr, length, slice_set};
ghost use Rattle.std.specs.Int.{w64, to_le_bytes};
ghost use Rattle.arrayvec.specs.ArrayVec.{array_vec_len};
ghost use Rattle.pdb_model.specs.Chunks.{IsChunk, chunk_bytes as spelled, empty_place, with_entry};

use arrayvec::ArrayVec;
use thiserror::Error;

/// The entries of an index chunk, 64 of them; 0 is an empty place.
pub type Chunk = ArrayVec<u64, 64>;

/// No place of the chunk is empty.
#[derive(Clone, Copy, Debug, PartialEq, Eq, Error)]
#[error("the index chunk is full")]
pub struct ChunkFull;

/// The entries of a chunk's bytes.
pub fn read_chunk(bytes: &[u8; 512]) -> Chunk
    ensures chunk { IsChunk result.items }
    ensures spelled { spelled result.items ≡ bytes.now }
    ensures only { (entries : List ℕ) → IsChunk entries → spelled entries ≡ bytes.now → result.items ≡ entries }
{
    let mut chunk = ArrayVec::new();
    for i in 0..64usize {
        chunk.push(read_entry(&bytes[8 * i..8 * i + 8]));
    }
    chunk
}

/// The bytes of a chunk, which has 64 entries.
pub fn chunk_bytes(c: &Chunk) -> [u8; 512]
    requires { array_vec_len c.now ≡ 64 }
    ensures { result ≡ spelled c.now.items }
{
    let mut bytes = [0u8; 512];
    for i in 0..64usize {
        bytes[8 * i..8 * i + 8].copy_from_slice(&c[i].to_le_bytes());
    }
    bytes
}

/// Puts an entry into the first empty place of a chunk, which has 64 entries. `ChunkFull` comes exactly where none of
/// them is 0, and changes nothing.
pub fn put(c: &mut Chunk, entry: u64) -> Result<(), ChunkFull>
    requires { array_vec_len c.old ≡ 64 }
    ensures ok { OnOk result (with_entry c.old.items entry ≡ Some c.new.items) }
    ensures full { IsErr result ↔ All (λ e. e ≢ 0) c.old.items }
    ensures err { OnErr result (c.new.items ≡ c.old.items) }
    ensures places { array_vec_len c.new ≡ 64 }
{
    match first_empty(c) {
        Some(place) => {
            set_place(c, place, entry);
            Ok(())
        }
        None => Err(ChunkFull),
    }
}

/// Empties a place of a chunk, which has 64 entries. `place` is below 64.
pub fn clear(c: &mut Chunk, place: usize)
    requires places { array_vec_len c.old ≡ 64 }
    requires place { place < 64 }
    ensures { c.new.items ≡ slice_set c.old.items place 0 }
{
    set_place(c, place, 0);
}

// the first empty place
fn first_empty(c: &Chunk) -> Option<usize>
    ensures place { result ≡ empty_place c.now.items }
    ensures within { IfSome result (λ place. place < array_vec_len c.now) }
    ensures full { MatchOption result (All (λ e. e ≢ 0) c.now.items) (λ place. slice_index c.now.items place ≡ 0) }
{
    c.as_slice().iter().position(|e| *e == 0)
}

// sets one place
fn set_place(c: &mut Chunk, place: usize, entry: u64)
    requires { place < array_vec_len c.old }
    ensures { c.new.items ≡ slice_set c.old.items place entry }
{
    c[place] = entry;
}

// the number that these bytes spell
fn read_entry(bytes: &[u8]) -> u64
    requires { length bytes.now ≡ 8 }
    ensures { to_le_bytes w64 result ≡ bytes.now }
{
    let [b0, b1, b2, b3, b4, b5, b6, b7] = bytes else {
        unreachable!()
    };
    u64::from_le_bytes([*b0, *b1, *b2, *b3, *b4, *b5, *b6, *b7])
}
