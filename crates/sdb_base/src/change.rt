ghost use Rattle.std.specs.Prelude.{◌≡◌, IfOk};

use crate::OutOfMemory;
use crate::bytes::Bytes;
use crate::items::{Items, TryCopy};
use std::alloc::Global;

/// A change of one key: it sets the key to a value, or deletes it where there is none.
#[derive(Debug, Drop)]
pub struct Change {
    /// The name of the child trie whose key is changed; no bytes are the main trie.
    pub trie: Bytes,
    /// The key, at most 1,024 bytes.
    pub key: Bytes,
    /// The value, at most 4,194,304 bytes, or none to delete.
    pub value: Option<Bytes>,
}

/// Changes, which apply in their order.
pub type Changes = Items<Change>;

impl TryCopy for Change {
    fn copy(&self, alloc: Global) -> Result<Change, OutOfMemory> {
        let value = match &self.value {
            None => None,
            Some(value) => Some(value.copy(alloc)?),
        };
        Ok(Change {
            trie: self.trie.copy(alloc)?,
            key: self.key.copy(alloc)?,
            value,
        })
    }
}
