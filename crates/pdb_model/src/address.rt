/// Where a value lies in a column: its tier, 0 to 15, and its slot there, from 1 on. Of a value in parts it is the
/// slot of the head.
#[derive(Clone, Copy, Debug, PartialEq, Eq)]
pub struct Address {
    /// The tier.
    pub tier: u8,
    /// The slot.
    pub slot: u32,
}
