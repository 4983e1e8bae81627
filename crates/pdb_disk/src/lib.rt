//! A disk of numbered files with a clock, and what a crash at each moment may leave of it.
//!
//! Contracts see a disk by its past: for each moment up to now, and for each file, what a read gives, what it gave at
//! the last sync that succeeded, and the writes and cuts begun after that. An image is what a crash may leave: any
//! bytes where such a step covers, the kept ones elsewhere. The clock rises with each write, cut and sync, so a caller's
//! clause can speak of every moment inside its call: `Moments` says that something holds at all of them, and the lemmas
//! in `proofs/Calls` lead it from one call of a disk to the next. A disk that doesn't tell its content, as a real one,
//! promises its counts alone. That a real disk keeps this is left to whoever makes one.
#![tactic(auto)]

mod disk;
mod laws;

pub use disk::{Disk, DiskFault};
pub use laws::{
    each_call_has_moments, known_clocks, known_faults, known_images, known_steps, moments_compose,
    what_is_read_is_an_image,
};
