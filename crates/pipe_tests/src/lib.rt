//! Tests of the queue of commits, and of the pipeline over a disk in memory.
//!
//! They call what is public and say beside the proofs what no clause can: that a database answers the same from its queue, its
//! log and its tables, and which numbers, faults and bytes come out. Expected values are worked by hand.
#![tactic(auto)]

#[cfg(test)]
mod databases;
#[cfg(test)]
mod ends;
#[cfg(test)]
mod look_ups;
#[cfg(test)]
mod openings;
#[cfg(test)]
mod queues;
#[cfg(test)]
mod stages;
