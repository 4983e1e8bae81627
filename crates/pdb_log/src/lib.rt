//! The log: records in a ring of four log files, and the gate that passes them.
//!
//! `append` writes a record after the last one of the current file, `flush` syncs the files with records that aren't synced,
//! `clean` moves the gate behind records whose cells are in their files and synced, and empties the files that it has passed.
//! Contracts see the log as a ledger, which records stand in which file and which of them are flushed, and as rows: what the
//! cells hold after each record. Each call keeps, at each moment of the disk's clock, that whatever a crash leaves recovers to
//! one of the rows, that of the last flushed record or a later one. Whether an earlier call failed, after which none may
//! be made, is left to the layer above, and so is which cells are written and when.
#![tactic(auto)]

mod fault;
mod log;
mod ring_file;

pub use fault::LogFault;
pub use log::{Log, LogPlace};

#[cfg(test)]
mod tests;
