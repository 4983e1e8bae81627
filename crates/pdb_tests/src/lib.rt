//! Tests of cells, of index entries, of values in their slots and of columns of them.
//!
//! A crate's tests are proved together with all of the crate once more, so that they stand here, and call what is
//! public. They say beside the proofs what no clause can: that known bytes, counts and faults
//! come out, worked by hand from the layouts.
#![tactic(auto)]

#[cfg(test)]
mod cells;
#[cfg(test)]
mod columns;
#[cfg(test)]
mod entries;
#[cfg(test)]
mod values;
