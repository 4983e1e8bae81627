ghost use Rattle.std.specs.Prelude.{◌≡◌, ◌<◌, [], ◌∷◌, ◌++◌, ◌↔◌, length, IsTrue, IfOk, OnOk, OnErr};
ghost use Rattle.sdb_base.specs.Nibbles.{nibbles_of};

use crate::OutOfMemory;
use crate::items::{Sequence, TryCopy};
use std::alloc::Global;

/// Items that are nibbles, each 0 to 15.
#[derive(Debug, Clone, Copy)]
pub struct NibbleString;

/// Nibbles, each 0 to 15: a key or a part of one, as tries go along it.
pub type Nibbles = Sequence<u8, NibbleString>;

impl Sequence<u8, NibbleString> {
    /// A key's nibbles, two for each byte, the high half first.
    pub fn of_key(alloc: Global, key: &[u8]) -> Result<Nibbles, OutOfMemory>
        ensures { IfOk result (λ n. n ≡ nibbles_of key.now) }
    {
        let mut items = Vec::new(alloc);
        for byte in key {
            items.push(*byte / 16)?;
            items.push(*byte % 16)?;
        }
        Ok(Sequence::from_vec(items))
    }

    /// The nibbles of `nibbles`, each of which is below 16 where they go along a key.
    pub fn from_slice(alloc: Global, nibbles: &[u8]) -> Result<Nibbles, OutOfMemory>
        ensures { IfOk result (λ n. n ≡ nibbles.now) }
    {
        Ok(Sequence::from_vec(Vec::from_slice(alloc, nibbles)?))
    }
}

impl TryCopy for Nibbles {
    fn copy(&self, alloc: Global) -> Result<Nibbles, OutOfMemory> {
        Nibbles::from_slice(alloc, self.as_slice())
    }
}
