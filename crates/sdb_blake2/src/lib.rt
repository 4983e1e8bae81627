//! BLAKE2b without a key (RFC 7693), for digests of 1 to 64 bytes.
//!
//! A [`Blake2b`] takes a message piece by piece and gives its digest. Contracts see the message that
//! a hasher holds: `update` of a hasher that holds `m` leaves one that holds `m` and the new bytes
//! after it, and `finalize` gives the digest of what is held, so a digest doesn't depend on how the
//! message was cut into pieces. `H`, the digest of 32 bytes, is the hash that all other
//! definitions of the store name. No call takes memory, and none refuses.
#![tactic(auto)]

mod block;
mod hasher;
mod laws;

pub use hasher::{Blake2b, hash256};
pub use laws::{constants_are_standard, counter_counts_bytes, known_digests};
