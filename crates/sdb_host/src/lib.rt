//! The outside: the files of a folder as a disk, standard input as a source, standard output as a sink.
//!
//! `HostDisk` keeps file N of a `Disk` in the file `sdb-N` of the working folder. What a file, a terminal or a pipe gives
//! can't be said in a contract, so the disk tells no content: contracts see its clock and its counts of reads and faults.
//! `Stdin` and `Stdout` are seen by their counts of faults and, where std's words tell it of a reader or a writer, by the
//! bytes that are left and those that were written. That a file reads as it was written, and that a sync makes it
//! outlast a crash, is trusted here, and nowhere else.
//!
//!     let mut disk = HostDisk::new(alloc, rt.clone()?);
//!     disk.write_at(0, 4096, &slot)?;
//!     disk.sync(0)?;
#![tactic(auto)]

mod disk;
mod files;
mod streams;

pub use disk::HostDisk;
pub use streams::{Stdin, Stdout};

#[cfg(test)]
mod tests;
