//! Tests of a disk in memory, of records in bytes, and of recovery and redo over such a disk.
//!
//! They call what is public of these crates and say beside the proofs what no clause can: that known bytes are written, that
//! answers and counts come out, and that every image of every moment opens again. Expected values are worked by hand from
//! the layouts.
#![tactic(auto)]

#[cfg(test)]
mod crashes;
#[cfg(test)]
mod disks;
#[cfg(test)]
mod records;
#[cfg(test)]
mod refusals;
#[cfg(test)]
mod rings;
#[cfg(test)]
mod rounds;
