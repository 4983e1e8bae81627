ghost use Rattle.std.specs.Prelude.{◌≡◌, length};
ghost use Rattle.pdb_model.specs.Records.{Record, record_bytes};
ghost use Rattle.pdb_record.specs.Scans.{Leaves, ReadFrom, Shows};

use crate::encoding::AROUND_BODY;
use crate::put_refs::PutRefs;

/// A whole record, borrowed from the bytes that it was found in.
#[derive(Clone, Copy, Debug)]
pub struct RecordRef<'a> {
    pub(crate) number: u64,
    pub(crate) commits: u64,
    pub(crate) puts: u64,
    pub(crate) body: &'a [u8],
}

impl<'a> RecordRef<'a> {
    /// The record's number, from 1 on.
    pub fn number(&self) -> u64
        ensures { (x : Record) → Shows self.now x → result ≡ x.number }
    {
        self.number
    }

    /// The number of commits in all records up to and with this one.
    pub fn commits(&self) -> u64
        ensures { (x : Record) → Shows self.now x → result ≡ x.commits }
    {
        self.commits
    }

    /// How many bytes the record takes.
    pub fn len(&self) -> usize
        ensures { (x : Record) → Shows self.now x → result ≡ length (record_bytes x) }
    {
        AROUND_BODY + self.body.len()
    }

    /// How many puts the record has.
    pub fn put_count(&self) -> u64
        ensures { (x : Record) → Shows self.now x → result ≡ length x.puts }
    {
        self.puts
    }

    /// Its puts in their order, borrowed from the same bytes.
    pub fn puts(&self) -> PutRefs<'a>
        ensures left { (x : Record) → Shows self.now x → Leaves result x.puts }
        ensures place { ReadFrom result self.now }
    {
        PutRefs { left: self.body }
    }
}
