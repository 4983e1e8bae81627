//! Tests of the top call by whole scripts: what is written, the exit code, the marks, and which calls of the source and of
//! the disk are made.
//!
//! They stand apart from `sdb_serve`, since tests are proved with all of the crate that has them once more. They call
//! public words alone, so that they say what a program above the top call sees.
#![tactic(auto)]

#[cfg(test)]
mod disks;
#[cfg(test)]
mod runs;
#[cfg(test)]
mod tests;
