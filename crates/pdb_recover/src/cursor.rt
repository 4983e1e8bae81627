ghost use Rattle.std.specs.Prelude.{◌≤◌, ◌^◌};

use pdb_record::Head;

/// Where the scan of a log file has come to.
#[derive(Drop)]
pub(crate) struct Cursor {
    // the log file
    pub(crate) file: u16,
    // how many bytes of it the records before this place take
    pub(crate) at: u64,
    // the header there, where it goes on with the numbers
    pub(crate) head: Option<Head>,
    ghost within: { at ≤ 2 ^ 62 },
}
