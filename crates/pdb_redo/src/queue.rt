use crate::waiting::{Place, Waiting};
use pdb_cells::CellName;
use std::collections::{HashMap, VecDeque};

/// Records, oldest first, and places of cells among their puts.
#[derive(Drop)]
pub(crate) struct Queue {
    pub(crate) records: VecDeque<Waiting>,
    pub(crate) places: HashMap<CellName, Place>,
}
