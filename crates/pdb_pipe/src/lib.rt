//! The pipeline: a database of commits on a disk.
//!
//! A commit is accepted into a queue, logged as one record of the cells that it changes, flushed, enacted and cleaned, each
//! by a call of its own. A look-up tries the queue, which lends its bytes, and then the cells after all records. A contract sees
//! a `Database` by the list of commits for which it stands: `node` and `meta` give what these leave, wherever they have come, and
//! the answers of the stages are those of a `Pipeline`. After a write, cut or sync that failed a change is answered `Stopped`, and
//! look-ups stay right. An index has the bits of its base and doesn't grow: a commit without room in it stays in the queue. What
//! a crash leaves of the cells is promised by the layer below; that each row holds a list of commits is left to a later one.
//!
//! ```text
//! let mut database = Database::create(alloc, disk, 0)?;
//! let number = database.commit(ops)?;             // 1: accepted; node and meta see it from here on
//! database.log()?;                                // Commit(1): a record of the log
//! database.flush()?;                              // 1: from here on a crash loses it no more
//! while database.enact()?.is_some() {}            // its cells are in their files
//! database.clean()?;                              // 1: the log files are empty
//! ```
#![tactic(auto)]

mod database;
mod faults;
mod keeping;
mod looking;
mod planning;
mod staging;

pub use database::Database;
pub use pdb_redo::{CreateCause, CreateFault, OpenCause, OpenFault};
