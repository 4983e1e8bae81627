//! The cells in which a database keeps everything but its log: their names and sizes, the trait by which they are
//! read, and drafts of what is to be written.
//!
//! A contract sees cells as a function from a file and an index to bytes, where they are observable. Reading a cell
//! writes nothing: what is observable stays, and the counts of faults and of reads never fall. A draft keeps puts over
//! cells that it only reads: a cell reads as its last put, else as the cell below, and the puts come out each cell
//! once, in the order of first puts. A draft is cells again, so that what reads cells can read it. What the bytes of a
//! cell mean, and when a put reaches the disk, is left to the layers above.
//!
//! ```text
//! let mut draft = Draft::new(alloc, &mut cells);
//! let outcome = change(&mut draft);
//! let puts = draft.finish();       // on errors too: of the cells below a dropped draft nothing is known
//! outcome?;
//! ```
#![tactic(auto)]

mod cell_bytes;
mod cell_name;
mod cells;
mod draft;
mod laws;
mod memory;
mod put_set;
mod puts;

pub use cell_bytes::CellBytes;
pub use cell_name::{CellName, HEAD_FILE, SLOT_SIZES, size};
pub use cells::{CellFault, Cells};
pub use draft::{Draft, Over};
pub use laws::{a_put_replaces_the_earlier_one, cells_have_their_sizes, puts_are_laid_in_order};
pub use memory::MapCells;
pub use put_set::PutSet;
pub use puts::{Put, Puts};
pub use sdb_io::OutOfMemory;
