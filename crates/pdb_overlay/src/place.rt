/// Where an operation is: the number of its commit, and the place among that commit's operations.
#[derive(Clone, Copy, Debug, PartialEq, Eq)]
pub(crate) struct Place {
    pub(crate) number: u64,
    pub(crate) at: usize,
}
