ghost use Rattle.std.specs.Prelude.{◌≡◌, List, ℕ, None, Some, OnOk};
ghost use Rattle.pdb_overlay.specs.inner.Placing.{Changes, HasSlotFor, KeepsRoom, SamePlaces, place_at};
ghost use Rattle.pdb_overlay.specs.inner.Slots.{without};

use crate::key_places::KeyPlaces;
use crate::place::Place;
use sdb_base::{Op, OutOfMemory};
use std::alloc::Global;

/// The places of the keys of both columns.
#[derive(Drop)]
pub(crate) struct Places {
    alloc: Global,
    nodes: KeyPlaces,
    plain: KeyPlaces,
}

impl Places {
    /// No places.
    pub(crate) fn new(alloc: Global) -> Places
        ensures { (column : ℕ) (key : List ℕ) → place_at result column key ≡ None }
    {
        Places {
            alloc,
            nodes: KeyPlaces::new(alloc),
            plain: KeyPlaces::new(alloc),
        }
    }

    /// The place under a key of a column.
    pub(crate) fn get(&self, column: u8, key: &[u8]) -> Option<Place>
        ensures { result ≡ place_at self.now column key.now }
    {
        if column == 0 {
            self.nodes.get(key)
        } else if column == 1 {
            self.plain.get(key)
        } else {
            None
        }
    }

    /// Makes room for the place of the operation.
    pub(crate) fn make_slot(&mut self, op: &Op) -> Result<(), OutOfMemory>
        ensures made { OnOk result (HasSlotFor self.new op.now) }
        ensures stay { KeepsRoom self.old self.new }
        ensures same { SamePlaces self.old self.new }
    {
        match op {
            Op::AddRef { key, .. } => self.nodes.make_slot(self.alloc, &key.0),
            Op::DropRef { .. } => Ok(()),
            Op::Put { key, .. } => self.plain.make_slot(self.alloc, key.as_slice()),
            Op::Erase { key } => self.plain.make_slot(self.alloc, key.as_slice()),
        }
    }

    /// Sets the place of the operation's key, for which there is room.
    pub(crate) fn set(&mut self, op: &Op, place: Place)
        requires { HasSlotFor self.old op.now }
        ensures holds { Changes (λ _. Some place) self.old op.now self.new }
        ensures stay { KeepsRoom self.old self.new }
    {
        match op {
            Op::AddRef { key, .. } => self.nodes.set(&key.0, place),
            Op::DropRef { .. } => {}
            Op::Put { key, .. } => self.plain.set(key.as_slice(), place),
            Op::Erase { key } => self.plain.set(key.as_slice(), place),
        }
    }

    /// Takes the place of the operation's key away where it is in the commit of this number.
    pub(crate) fn release(&mut self, op: &Op, number: u64)
        ensures { Changes (without number) self.old op.now self.new }
    {
        match op {
            Op::AddRef { key, .. } => self.nodes.release(&key.0, number),
            Op::DropRef { .. } => {}
            Op::Put { key, .. } => self.plain.release(key.as_slice(), number),
            Op::Erase { key } => self.plain.release(key.as_slice(), number),
        }
    }

    /// Takes the slot of the operation's key away where it is empty.
    pub(crate) fn tidy(&mut self, op: &Op)
        ensures { SamePlaces self.old self.new }
    {
        match op {
            Op::AddRef { key, .. } => self.nodes.tidy(&key.0),
            Op::DropRef { .. } => {}
            Op::Put { key, .. } => self.plain.tidy(key.as_slice()),
            Op::Erase { key } => self.plain.tidy(key.as_slice()),
        }
    }
}
