use pdb_cells::Puts;
use pdb_record::GateSlot;

/// What recovery would lay over the cells of a disk.
#[derive(Debug, Drop)]
pub struct Pending {
    /// The gate in force.
    pub gate: GateSlot,
    /// The number of the last record that recovery would take, or else the gate's.
    pub number: u64,
    /// The number of commits up to and with that record.
    pub commits: u64,
    /// The newest put of each cell of those records.
    pub puts: Puts,
}
