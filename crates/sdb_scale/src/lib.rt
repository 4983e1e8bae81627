//! SCALE's compact numbers of one, two and four bytes, and byte strings after their compact length.
//!
//! A number below 2^30 has one spelling, in the shortest of three modes, which the two low bits of
//! its first byte name. The writers append it; the readers take it from the front of a slice and
//! give the value and the bytes after it, both borrowed from their input. They read a spelling exactly where one stands in front,
//! and else name the fault. Readers take no memory. SCALE's mode for larger numbers is left out: the
//! formats above have no such number.
#![tactic(auto)]

mod fault;
mod laws;
mod reading;
mod writing;

pub use fault::ScaleFault;
pub use laws::{no_spelling_begins_another, spelling_is_the_shortest};
pub use reading::{byte_string, compact};
pub use writing::{put_bytes, put_compact};
