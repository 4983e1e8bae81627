//! Redo: cells on a disk that survive a crash within any of its calls.
//!
//! Cells are changed by records: `append` logs the puts of one, `flush` makes it safe from a crash, `enact` writes its cells
//! to their files, and `clean` passes the enacted records by a gate and empties the log files. A contract sees a `Redo` by
//! rows: which cells there are at opening and after each record since. `read_cell` gives a cell of the last row, from the
//! newest record that puts it, else from its file. At each moment of each call whatever a crash leaves recovers to one of
//! the rows, that of the last flushed record or a later one. After a write, cut or sync that failed every call but
//! `read_cell` answers `Stopped`. What cells mean is left to the layers above.
//!
//! ```text
//! let mut redo = Redo::create(alloc, disk, 0)?;
//! let number = redo.append(alloc, 1, puts)?;      // logged
//! redo.flush()?;                                  // from here on a crash loses no record
//! while redo.enact()?.is_some() {}                // its cells are in their files
//! redo.clean()?;                                  // the log files are empty
//! ```
#![tactic(auto)]

mod backlog;
mod backlogs;
mod beginning;
mod creating;
mod fault;
mod heads;
mod opening;
mod places;
mod queue;
mod recorded;
mod redo_cells;
mod redo_log;
mod waiting;

pub use fault::{CreateCause, CreateFault, RedoFault};
pub use pdb_recover::{OpenCause, OpenFault};
pub use recorded::Recorded;
pub use redo_log::Redo;
