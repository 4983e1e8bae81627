ghost use Rattle.std.specs.Prelude.{◌≡◌, List, ℕ, None, Some, OnOk};
ghost use Rattle.pdb_overlay.specs.inner.Slots.{ChangesKey, HasSlot, HoldsSame, KeepsSlots, place_under, without};

use crate::place::Place;
use sdb_base::OutOfMemory;
use std::alloc::Global;
use std::collections::BTreeMap;

/// Places by key. A key may have a slot that is empty, so that filling it takes no memory.
#[derive(Drop)]
pub(crate) struct KeyPlaces {
    slots: BTreeMap<Vec<u8>, Option<Place>>,
}

impl KeyPlaces {
    /// No places.
    pub(crate) fn new(alloc: Global) -> KeyPlaces
        ensures { (q : List ℕ) → place_under result.slots q ≡ None }
    {
        KeyPlaces {
            slots: BTreeMap::new(alloc),
        }
    }

    /// The place under a key.
    pub(crate) fn get(&self, key: &[u8]) -> Option<Place>
        ensures { result ≡ place_under self.now.slots key.now }
    {
        match self.slots.get(key) {
            Some(slot) => *slot,
            None => None,
        }
    }

    /// Makes a slot for a key that has none.
    pub(crate) fn make_slot(&mut self, alloc: Global, key: &[u8]) -> Result<(), OutOfMemory>
        ensures made { OnOk result (HasSlot self.new.slots key.now) }
        ensures stay { KeepsSlots self.old.slots self.new.slots }
        ensures same { HoldsSame self.old.slots self.new.slots }
    {
        if !self.slots.contains_key(key) {
            self.slots.insert(Vec::from_slice(alloc, key)?, None)?;
        }
        Ok(())
    }

    /// Sets the place under a key that has a slot.
    pub(crate) fn set(&mut self, key: &[u8], place: Place)
        requires { HasSlot self.old.slots key.now }
        ensures holds { ChangesKey (λ _. Some place) self.old.slots key.now self.new.slots }
        ensures stay { KeepsSlots self.old.slots self.new.slots }
    {
        if let Some(slot) = self.slots.get_mut(key) {
            *slot = Some(place);
        }
    }

    /// Takes the place under a key away where it is in the commit of this number.
    pub(crate) fn release(&mut self, key: &[u8], number: u64)
        ensures { ChangesKey (without number) self.old.slots key.now self.new.slots }
    {
        if let Some(Some(place)) = self.slots.get(key) {
            if place.number == number {
                let _ = self.slots.remove(key);
            }
        }
    }

    /// Takes the slot of a key away where it is empty.
    pub(crate) fn tidy(&mut self, key: &[u8])
        ensures { HoldsSame self.old.slots self.new.slots }
    {
        if let Some(None) = self.slots.get(key) {
            let _ = self.slots.remove(key);
        }
    }
}
