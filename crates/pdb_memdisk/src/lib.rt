//! A disk in memory that fails where it is told to, and lists what a crash might leave of it.
//!
//! A `MemDisk` keeps each write, cut and sync that was begun, with the clock after it. Contracts see its past as the files
//! at first with the kept calls up to a moment replayed. So it tells its content, and at each moment since it was made it
//! has exactly the images that the model of a disk gives it. The bytes that a read gives are kept beside the record, and an
//! invariant ties the two, so that no read replays it. A call fails where `fail_at` or `fuse` says so, at the clock's last
//! value, or for want of memory, and nowhere else; `is_complete` tells whether memory was found for every call.
//!
//! `images` lists some images, each as a disk of its own, from which a caller goes on as after a crash:
//!
//!     disk.write_at(0, 0, b"ab")?;
//!     let mut images = disk.images(alloc)?; // file 0 empty, with `ab`, with `a`, and empty once more
//!     while let Some(left) = images.pop() {
//!         recover(left)?;
//!     }
#![tactic(auto)]

mod contents;
mod disks;
mod images;
mod laws;
mod memory;
mod record;

pub use disks::Disks;
pub use laws::{known_outcomes, pending_steps_are_since_the_last_sync};
pub use memory::MemDisk;
