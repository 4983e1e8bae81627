//! A column of the database: a map from keys of 32 bytes to values, each with a count of its references.
//!
//! Column 0 has nodes by their hashes, with counts; column 1 has bytes by the hashes of plain keys. A contract sees a column
//! as the map that its cells hold: a head cell, an index of chunks, and tables of slots. [`get`] says what a key has in any
//! cells that hold a map, and [`plan`] leads from the maps that a draft holds to those after the operations, both columns at
//! once. Of any cells whatever both say which cell breaks the rules where they answer `Damaged`, and `plan` which chunk or
//! tier is full. The index doesn't grow yet: a head cell whose index grows, or has other bits than its base, is `Damaged`.
//! What a draft's puts come to on a disk is left to the layers above.
//!
//! ```text
//! let mut draft = Draft::new(alloc, &mut cells);
//! plan(alloc, &mut draft, &ops)?;                       // the draft is thrown away where it fails
//! let found = get(alloc, &mut draft, 0, &hash, &mut bytes)?;
//! let puts = draft.finish();
//! ```
#![tactic(auto)]

mod fault;
mod find;
mod insert;
mod key_chunk;
mod laws;
mod locate;
mod look_up;
mod planning;
mod remove;
mod steps;

pub use fault::{ColumnFault, PlanFault};
pub use laws::plain_keys_stand_as_their_hashes;
pub use look_up::get;
pub use planning::plan;
