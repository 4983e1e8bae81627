ghost use Rattle.std.specs.Prelude.{◌≡◌, IfOk};

use crate::OutOfMemory;
use crate::bytes::Bytes;
use crate::items::{Items, TryCopy};
use std::alloc::Global;

/// A key and its value.
#[derive(Debug, Drop)]
pub struct Pair {
    /// The key.
    pub key: Bytes,
    /// The value.
    pub value: Bytes,
}

/// Keys with their values, by rising key where a state gives them.
pub type Pairs = Items<Pair>;

impl TryCopy for Pair {
    fn copy(&self, alloc: Global) -> Result<Pair, OutOfMemory> {
        Ok(Pair {
            key: self.key.copy(alloc)?,
            value: self.value.copy(alloc)?,
        })
    }
}
