//! A keeper of commits in memory.
//!
//! `MapKeeper` keeps the traits `Keeper` and `Stages` of `sdb_base` with two ordered maps and five numbers. A contract sees
//! the commits that it stands for, how far they have come, and which of its calls are to fail: a call that is to answers as
//! if the disk had failed, and changes nothing. It is for tests of what stands above a keeper, and shows in the plainest form
//! what the traits ask for.
//!
//! ```text
//! let mut keeper = MapKeeper::new(alloc);
//! keeper.fail_at(2)?;
//! let first = keeper.commit(ops)?;      // 1
//! let found = keeper.node(&hash)?;      // the node's bytes, if a reference to it was added
//! ```
#![tactic(auto)]

mod column;
mod columns;
mod map_keeper;
mod plan;
mod progress;

pub use map_keeper::MapKeeper;
