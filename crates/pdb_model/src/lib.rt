//! What the files of the database mean, as definitions.
//!
//! A database is files of cells, a log and two gate slots. The layouts stand in `specs/`, each as an equation of bytes:
//! `Heads` a column's head cell, `Chunks` an index chunk and its entries, `Tiers` and `Slots` the value tables, `Records`
//! the log's records, `Gates` the gate slots. Above them stand pictures, in which no byte occurs: `Tables` what each slot of
//! a table is, `Columns` a column's tables and indexes, each with its consistency and with the relation that cells spell it.
//! `Breaks` says which cells break the rules, in any bytes whatever. `Logs` says which records recovery finds in the files
//! of a disk as a crash may leave them, and `Recovery` what it makes of them, and when a disk is safe. The functions are
//! laws about the definitions, most of them worked values. How cells are read, planned and logged is left to the layers
//! above.
#![tactic(auto)]

mod address;
mod gate_slot;
mod laws;
mod recovery_laws;

pub use address::Address;
pub use gate_slot::GateSlot;
pub use laws::{
    content_is_one_map, known_chunks, known_entries, known_free_lists, known_parts, known_tiers,
};
pub use recovery_laws::{
    a_scan_follows_the_numbers, an_earlier_place_asks_less, empty_logs_leave_the_cells,
    known_cells_of_files, the_lower_file_counts, zeros_end_a_log,
};
