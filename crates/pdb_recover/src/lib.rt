//! Recovery: what a crash left on a disk is made whole again.
//!
//! A contract sees the files of a disk as they read: which gate slot is whole, which records recovery takes, and the cells
//! with these records laid over them, the row that `Laid` gives. `pending` only reads and says which puts there are.
//! `recover` syncs each file, writes those puts to their cells, passes the records by a new gate, and empties the log
//! files. At each moment of it whatever a crash leaves recovers to the same row, also where a call of the disk fails, so
//! that it may be tried again. A log file is scanned record by record; what is no record ends the scan, whatever its bytes,
//! and no length is believed before the bytes that it speaks of were seen to be puts. What the cells mean is left to the
//! layers above, but for the head cells, which are checked last.
//!
//! ```text
//! let recovered = recover(alloc, disk)?;            // gate in force, log files empty
//! let log = Log::begin(recovered.disk, gate);
//! ```
#![tactic(auto)]

mod cause;
mod clear;
mod cursor;
mod gates;
mod heads;
mod lay;
mod log_files;
mod pending_puts;
mod reading;
mod record_at;
mod recovery;
mod seeking;
mod settle;

pub use cause::{OpenCause, OpenFault};
pub use pending_puts::Pending;
pub use reading::pending;
pub use recovery::{Recovered, recover};
