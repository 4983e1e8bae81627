//! Values in the slots of a column's tables, whole or in parts, with their keys and counts.
//!
//! A contract sees the cells as a function from a file and an index to bytes, and a table as a picture of them: what each
//! slot of a tier is, the free list in its order, and the end. A call on a draft says of each table that the cells spell
//! before it which table they spell after it, and that no other cell changed. Of any cells whatever it says which cell
//! breaks the rules where it answers `Damaged`: bytes from outside always end in an answer, also where parts run in a ring
//! or a length lies. The slots of a value in parts are taken head first, each the first free one or else the one past the
//! end, and are freed from the head to the last part. Which value belongs to which key is left to the layers above.
//!
//! ```text
//! let at = place(alloc, &mut draft, 0, &key, 1, &bytes)?;
//! let count = add_ref(alloc, &mut draft, 0, at)?;
//! let found = read_into(alloc, &mut draft, 0, at, &key, &mut out)?;
//! ```
#![tactic(auto)]

mod cells;
mod fault;
mod firsts;
mod heads;
mod parts;
mod placing;
mod reading;
mod refs;
mod removal;
mod slots;
mod tiers;
mod values;
mod writing;

pub use fault::ValueFault;
pub use heads::{TierEnds, ends_of, is_head, read_head};
pub use pdb_cells::OutOfMemory;
pub use pdb_model::Address;
pub use placing::place;
pub use refs::{add_ref, drop_ref, replace};
pub use values::{count, read_into};
