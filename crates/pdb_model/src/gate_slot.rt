/// Which records are in the tables.
#[derive(Clone, Copy, Debug, PartialEq, Eq)]
pub struct GateSlot {
    /// Rises by one with each gate that is written. It says where the slot lies: at 0 where it is even, at 4,096 where
    /// it is odd.
    pub sequence: u64,
    /// Every record up to this number is in the tables.
    pub number: u64,
    /// The number of commits in those records.
    pub commits: u64,
}
