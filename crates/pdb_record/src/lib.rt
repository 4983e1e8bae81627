//! Records of the log, and gate slots, in bytes.
//!
//! A record holds the cells that one commit puts. A contract sees it as a number, a number of commits and a list of puts,
//! and its bytes as one equation: header, puts and checksums. A log is read from its front, record by record: at each
//! place there is a record, whole, or the end of the log, or neither, and which of them is decided by the bytes alone.
//! A record that is found borrows its puts from the bytes that were scanned, so that reading takes no memory. Where
//! records are written, in which order they are taken and what their cells mean is left to the layers above.
//!
//! ```text
//! let record = encode(alloc, 1, 1, &puts)?;
//! let mut scanner = Scanner::new(record.as_slice(), 0);
//! while let Scan::Whole(found) = scanner.next() {
//!     let mut puts = found.puts();
//!     while let Some(put) = puts.next() { .. }      // put.name and put.bytes
//! }
//! ```
#![tactic(auto)]

mod counting;
mod encoding;
mod first_record;
mod gate;
mod heads;
mod layout;
mod put_refs;
mod record_ref;
mod repeats;
mod scanner;

pub use encoding::{body_len, encode};
pub use gate::{gate_bytes, read_gate};
pub use heads::{Head, header};
pub use pdb_model::GateSlot;
pub use put_refs::{PutRef, PutRefs, put_name};
pub use record_ref::RecordRef;
pub use scanner::{Scan, Scanner};
