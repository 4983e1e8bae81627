//! Tests of the crates of the trie: readers and writers of nodes, roots, and jobs that are fed nodes.
//!
//! A crate's tests are proved together with all of the crate once more. These crates' proofs take long, so that their tests
//! stand here, by what they are tests of, and call what is public. They say beside the proofs what no clause can: that known
//! nodes, roots and keys come out, from the standard, from other programs, or worked by hand.
#![tactic(auto)]

#[cfg(test)]
mod changes;
#[cfg(test)]
mod codec;
#[cfg(test)]
mod example_nodes;
#[cfg(test)]
mod fetches;
#[cfg(test)]
mod reads;
#[cfg(test)]
mod roots;
#[cfg(test)]
mod searches;
#[cfg(test)]
mod walks;
