ghost use Rattle.std.specs.Prelude.{◌≡◌, ◌≤◌, ℕ, Some, length, slice_get};
ghost use Rattle.std.specs.HashMap.{get, spare};
ghost use Rattle.pdb_cells.specs.Puts.{same_cell};
ghost use Rattle.pdb_cells.specs.declared.CellName.{CellName};
ghost use Rattle.pdb_cells.specs.declared.Put.{Put};
ghost use Rattle.pdb_redo.specs.inner.Placing.{IsDroppedFrom, IsInRecord, IsSetIn};

use crate::waiting::Place;
use pdb_cells::{CellName, Put};
use std::collections::HashMap;

/// Sets the places of the puts of a record of this number. There is room for them, so that no memory is taken.
pub(crate) fn set_places(places: &mut HashMap<CellName, Place>, puts: &[Put], number: u64)
    requires { length puts.now ≤ spare places.old }
    ensures { (q : CellName) → IsSetIn puts.now number q (get same_cell places.old q) (get same_cell places.new q) }
{
    for (at, put) in puts.iter().enumerate() {
        let _ = places.insert(put.name, Place { number, at });
    }
}

/// Drops the place of a cell if it is in the record of this number.
fn drop_place(places: &mut HashMap<CellName, Place>, name: &CellName, number: u64)
    ensures drops { (q : CellName) → IsDroppedFrom number (get same_cell places.old q) (get same_cell places.new q) }
    ensures gone { IsInRecord (get same_cell places.new name.now) number → ⊥ }
{
    if let Some(place) = places.get(name) {
        if place.number == number {
            let _ = places.remove(name);
        }
    }
}

/// Drops the places of these puts that are in the record of this number.
pub(crate) fn drop_places(places: &mut HashMap<CellName, Place>, puts: &[Put], number: u64)
    ensures drops { (q : CellName) → IsDroppedFrom number (get same_cell places.old q) (get same_cell places.new q) }
    ensures gone { (i : ℕ) (p : Put) → slice_get puts.now i ≡ Some p → IsInRecord (get same_cell places.new p.name) number → ⊥ }
{
    for put in puts {
        drop_place(places, &put.name, number);
    }
}
