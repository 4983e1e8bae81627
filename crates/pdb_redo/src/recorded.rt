/// How many commits are in records that were appended, flushed and enacted, those found at opening included.
#[derive(Clone, Copy, Debug, PartialEq, Eq)]
pub struct Recorded {
    /// Those up to and with the last record that was appended.
    pub appended: u64,
    /// Those up to and with the last record that is flushed.
    pub flushed: u64,
    /// Those up to and with the last record that is enacted.
    pub enacted: u64,
}
