use thiserror::Error;

/// How many commits have come how far through the pipeline of a database:
/// `cleaned <= enacted <= flushed <= logged <= accepted`.
#[derive(Clone, Copy, Debug, PartialEq, Eq)]
pub struct Numbers {
    /// Accepted by `commit`.
    pub accepted: u64,
    /// In records of the log.
    pub logged: u64,
    /// In records that a sync has kept.
    pub flushed: u64,
    /// Written to the tables.
    pub enacted: u64,
    /// In the tables for good, with their records gone from the log.
    pub cleaned: u64,
}

/// What logging the next commit came to.
#[derive(Clone, Copy, Debug, PartialEq, Eq)]
pub enum Logged {
    /// A record of this commit was appended.
    Commit(u64),
    /// The commit's column has no room in this chunk of its index; a record was appended that starts growth to so many
    /// bits.
    Started {
        /// The column.
        column: u8,
        /// The bits of the new index.
        bits: u8,
        /// The chunk without room.
        chunk: u64,
    },
    /// A record was appended that moves a batch of the older index, so many chunks of which are left.
    Moved {
        /// The column.
        column: u8,
        /// The bits of the new index.
        bits: u8,
        /// How many chunks are left to move.
        left: u64,
    },
    /// No commit waits to be logged.
    Idle,
}

/// What growing an index came to.
#[derive(Clone, Copy, Debug, PartialEq, Eq)]
pub enum Grown {
    /// A record was appended that moves a batch of the older index, so many chunks of which are left.
    Moved {
        /// The column.
        column: u8,
        /// The bits of the new index.
        bits: u8,
        /// How many chunks are left to move.
        left: u64,
    },
    /// No index grows.
    Idle,
}

/// What is counted up to 2^64 - 1, or to 2^62 bytes for a log file.
#[derive(Clone, Copy, Debug, PartialEq, Eq)]
pub enum Counter {
    /// Commits.
    Commits,
    /// Records of the log.
    Records,
    /// Gates.
    Gates,
    /// Bytes of a log file.
    LogBytes,
}

/// Why a call of a keeper wasn't answered.
#[derive(Clone, Copy, Debug, PartialEq, Eq, Error)]
pub enum KeepFault {
    /// There was no memory.
    #[error("out of memory")]
    OutOfMemory,
    /// The disk failed: its count of faults rose.
    #[error("the disk failed")]
    Disk,
    /// An earlier write, cut or sync failed, the call of this number.
    #[error("stopped by call {call}")]
    Stopped {
        /// The disk's clock after that call.
        call: u64,
    },
    /// A value that was handed in has so many bytes, more than may be.
    #[error("a value of {len} bytes is too long")]
    ValueTooLong {
        /// The length of the value.
        len: u64,
    },
    /// The largest index of a column has no room in this chunk.
    #[error("the index of column {column} is full")]
    IndexFull {
        /// The column.
        column: u8,
        /// The bits of the index.
        bits: u8,
        /// The chunk.
        chunk: u64,
    },
    /// A value table has no slot left.
    #[error("tier {tier} of column {column} is full")]
    TierFull {
        /// The column.
        column: u8,
        /// The tier.
        tier: u8,
    },
    /// This cell breaks the rules.
    #[error("cell {cell} of file {file} is damaged")]
    Damaged {
        /// The file.
        file: u16,
        /// The cell.
        cell: u64,
    },
    /// This counter is at its end.
    #[error("a counter is at its end")]
    NumbersEnd {
        /// The counter.
        which: Counter,
    },
}

/// A call of a keeper.
#[derive(Clone, Copy, Debug, PartialEq, Eq)]
pub enum KeeperCall {
    /// `Keeper::node`.
    Node,
    /// `Keeper::meta`.
    Meta,
    /// `Keeper::commit`.
    Commit,
    /// `Stages::log`.
    Log,
    /// `Stages::flush`.
    Flush,
    /// `Stages::enact`.
    Enact,
    /// `Stages::clean`.
    Clean,
    /// `Stages::grow`.
    Grow,
}

/// What a stage of the pipeline answered.
#[derive(Clone, Copy, Debug, PartialEq, Eq)]
pub enum StageAnswer {
    /// By `Stages::log`.
    Logged(Logged),
    /// By `Stages::flush`.
    Flushed(u64),
    /// By `Stages::enact`.
    Enacted(Option<u64>),
    /// By `Stages::clean`.
    Cleaned(u64),
    /// By `Stages::grow`.
    Grown(Grown),
}
