use pdb_cells::Puts;

/// A record whose cells aren't written to their files yet.
#[derive(Debug, Drop)]
pub(crate) struct Waiting {
    pub(crate) number: u64,
    pub(crate) commits: u64,
    pub(crate) puts: Puts,
}

/// Where the newest bytes of a cell are: the number of a record, and the place among its puts. No record has number 0.
#[derive(Clone, Copy, Debug, PartialEq, Eq)]
pub(crate) struct Place {
    pub(crate) number: u64,
    pub(crate) at: usize,
}
