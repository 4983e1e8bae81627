//! Tests of the crates that all others stand on: streams, values and keepers in memory, compact numbers, digests.
//!
//! A crate's tests are proved together with all of the crate once more, so that they stand here, by what they are tests of,
//! and call what is public. They say beside the proofs what no clause can: that known bytes, digests, answers and counts come
//! out, from standards, from other programs, or worked by hand.
#![tactic(auto)]

#[cfg(test)]
mod compact;
#[cfg(test)]
mod digests;
#[cfg(test)]
mod keeping;
#[cfg(test)]
mod streams;
#[cfg(test)]
mod values;
