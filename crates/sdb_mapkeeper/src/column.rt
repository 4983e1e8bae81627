ghost use Rattle.std.specs.Prelude.{◌≡◌, IsSome, None, Some, OnOk, option_copied};
ghost use Rattle.std.specs.BTreeMap.{get};
ghost use Rattle.std.specs.Option.{option_map};
ghost use Rattle.sdb_base.specs.Content.{Counted, with_reference, without_reference};
ghost use Rattle.sdb_mapkeeper.specs.Holding.{held_at, held_in};
ghost use Rattle.sdb_mapkeeper.specs.inner.Places.{HoldsAt, HoldsSame, KeepsPlaces};

use sdb_base::{Bytes, OutOfMemory, TryCopy};
use std::alloc::Global;
use std::collections::BTreeMap;

/// Bytes and how often they are referred to.
#[derive(Drop)]
pub(crate) struct Stored {
    count: u64,
    bytes: Bytes,
}

/// A column in memory: what is stored under each key. A key may have a place that is empty, so that storing under it
/// takes no memory.
#[derive(Drop)]
pub(crate) struct Column<K: Ord> {
    places: BTreeMap<K, Option<Stored>>,
}

impl<K: Ord + TryCopy> Column<K> {
    /// A column without keys.
    pub(crate) fn new(alloc: Global) -> Column<K>
        ensures { (q : K) → get K.cmp result.places q ≡ None }
    {
        Column {
            places: BTreeMap::new(alloc),
        }
    }

    /// The bytes under a key.
    pub(crate) fn get(&self, key: &K) -> Option<&Bytes>
        ensures { option_copied result
            ≡ option_map (λ (c : Counted). c.bytes) (held_at (get K.cmp self.now.places key.now)) }
    {
        match self.places.get(key) {
            Some(Some(stored)) => Some(&stored.bytes),
            _ => None,
        }
    }

    /// Makes a place for a key that has none.
    pub(crate) fn make_place(&mut self, alloc: Global, key: &K) -> Result<(), OutOfMemory>
        ensures made { OnOk result (IsSome (get K.cmp self.new.places key.now)) }
        ensures stay { KeepsPlaces K.cmp self.old.places self.new.places }
        ensures same { HoldsSame K.cmp self.old.places self.new.places }
    {
        if !self.places.contains_key(key) {
            self.places.insert(key.copy(alloc)?, None)?;
        }
        Ok(())
    }

    /// Adds a reference to a key that has a place.
    pub(crate) fn add(&mut self, key: &K, bytes: Bytes)
        requires { IsSome (get K.cmp self.old.places key.now) }
        ensures holds { HoldsAt K.cmp self.old.places key.now
            (with_reference bytes (held_at (get K.cmp self.old.places key.now))) self.new.places }
        ensures stay { KeepsPlaces K.cmp self.old.places self.new.places }
    {
        if let Some(place) = self.places.get_mut(key) {
            add_reference(place, bytes);
        }
    }

    /// Takes a reference from a key.
    pub(crate) fn release(&mut self, key: &K)
        ensures holds { HoldsAt K.cmp self.old.places key.now
            (without_reference (held_at (get K.cmp self.old.places key.now))) self.new.places }
        ensures stay { KeepsPlaces K.cmp self.old.places self.new.places }
    {
        if let Some(place) = self.places.get_mut(key) {
            drop_reference(place);
        }
    }

    /// Sets the bytes of a key that has a place.
    pub(crate) fn set(&mut self, key: &K, bytes: Bytes)
        requires { IsSome (get K.cmp self.old.places key.now) }
        ensures holds { HoldsAt K.cmp self.old.places key.now (Some (record { count = 1; bytes = bytes })) self.new.places }
        ensures stay { KeepsPlaces K.cmp self.old.places self.new.places }
    {
        if let Some(place) = self.places.get_mut(key) {
            *place = Some(Stored { count: 1, bytes });
        }
    }

    /// Takes what is stored under a key away.
    pub(crate) fn clear(&mut self, key: &K)
        ensures holds { HoldsAt K.cmp self.old.places key.now None self.new.places }
        ensures stay { KeepsPlaces K.cmp self.old.places self.new.places }
    {
        if let Some(place) = self.places.get_mut(key) {
            *place = None;
        }
    }

    /// Takes the place of a key away where it is empty.
    pub(crate) fn tidy(&mut self, key: &K)
        ensures { HoldsSame K.cmp self.old.places self.new.places }
    {
        if let Some(None) = self.places.get(key) {
            let _ = self.places.remove(key);
        }
    }
}

// One reference more: to these bytes where there were none.
fn add_reference(place: &mut Option<Stored>, bytes: Bytes)
    ensures { held_in place.new ≡ with_reference bytes (held_in place.old) }
{
    match place {
        Some(stored) => stored.count = stored.count.saturating_add(1),
        None => *place = Some(Stored { count: 1, bytes }),
    }
}

// One reference fewer, of which the last takes the bytes away. A count at its end stays.
fn drop_reference(place: &mut Option<Stored>)
    ensures { held_in place.new ≡ without_reference (held_in place.old) }
{
    let Some(stored) = place else { return };
    if stored.count == 1 {
        *place = None;
    } else if stored.count != u64::MAX {
        stored.count = stored.count.saturating_sub(1);
    }
}
