ghost use Rattle.std.specs.Prelude.{◌≡◌};

/// How a run ended.
#[derive(Clone, Copy, Debug, PartialEq, Eq)]
pub enum Status {
    /// 0: all lines were answered, and the source was read to its end.
    Done,
    /// 2: the words aren't the one word `script`.
    Usage,
    /// 3: a line isn't in the grammar, may not be where it is, is too long or isn't ended, or takes the script past
    /// 2^40 bytes.
    Script,
    /// 4: the source failed.
    SourceFault,
    /// 5: the sink failed.
    SinkFault,
    /// 6: the disk failed.
    DiskFault,
    /// 8: `new` was to make a database on a disk that has one.
    Occupied,
    /// 9: a cell of the database breaks the rules of its file, or what is kept under a hash is no node of a trie that hangs
    /// where it is wanted, or nothing is.
    Damaged,
    /// 10: the commit to be logged finds no room in an index.
    IndexFull,
    /// 11: there was no memory.
    NoMemory,
    /// 12: the commit to be logged finds no slot in a value table.
    TierFull,
    /// 13: a counter stands at its end.
    NumbersEnd,
}

impl Status {
    ghost use Rattle.sdb_serve.specs.Statuses.{status_code};

    /// The exit status of a process.
    pub fn code(self) -> u8
        ensures { result ≡ status_code self }
    {
        match self {
            Status::Done => 0,
            Status::Usage => 2,
            Status::Script => 3,
            Status::SourceFault => 4,
            Status::SinkFault => 5,
            Status::DiskFault => 6,
            Status::Occupied => 8,
            Status::Damaged => 9,
            Status::IndexFull => 10,
            Status::NoMemory => 11,
            Status::TierFull => 12,
            Status::NumbersEnd => 13,
        }
    }
}
