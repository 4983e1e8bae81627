//! Index chunks: where the values of a column's keys lie.
//!
//! A chunk is 64 entries of 8 bytes. An entry has 24 bits of its key, a tier and a slot, and entry 0 is an empty place.
//! Contracts see a chunk as the list of its entries and its bytes as the spelling of that list, so that what is read and
//! what is written are two sides of one equation. Which chunk a key belongs to are the key's first bits. No call takes
//! memory, and none reads the slot that an entry names: that, and which entry of those that match is the key's, is left to
//! the layers above.
//!
//! ```text
//! let mut chunk = read_chunk(&bytes);                   // of the chunk chunk_of(bits, &key)
//! put(&mut chunk, entry(base, &key, at))?;              // ChunkFull where no place is empty
//! draft.put(name, &chunk_bytes(&chunk))?;
//! ```
#![tactic(auto)]

mod chunk;
mod entries;
mod key_bits;
mod laws;

pub use chunk::{Chunk, ChunkFull, chunk_bytes, clear, put, read_chunk};
pub use entries::{address, entry, matches};
pub use key_bits::chunk_of;
pub use laws::{chunks_are_read_as_written, entries_give_their_parts_back};
