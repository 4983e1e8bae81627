use crate::status::Status;
use sdb_base::Items;

/// Where a run stood when a line `new` or `flush` was answered.
#[derive(Clone, Copy, Debug, PartialEq, Eq)]
pub struct Mark {
    /// The line's number, from 1.
    pub line: u64,
    /// The disk's clock at the answer.
    pub calls: u64,
    /// How many commits were accepted then.
    pub accepted: u64,
    /// How many commits outlast a crash from then on, which is what `flush` answers; 0 for `new`.
    pub flushed: u64,
}

/// The marks of a run, in the order of their lines.
pub type Marks = Items<Mark>;

/// How a run ended, with the disk that it was given.
#[derive(Drop)]
pub struct Outcome<D> {
    /// Why it ended.
    pub status: Status,
    /// The disk.
    pub disk: D,
    /// The marks of the lines that were answered.
    pub marks: Marks,
}
