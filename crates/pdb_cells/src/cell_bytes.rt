ghost use Rattle.std.specs.Prelude.{◌≡◌, [], ◌↔◌, length, IsTrue, IfOk};

use sdb_io::OutOfMemory;
use std::alloc::Global;
use std::marker::Model;

/// The bytes of a cell.
#[derive(Debug, Drop)]
pub struct CellBytes {
    items: Vec<u8>,
}

impl Model for CellBytes {
    ghost use Rattle.std.specs.Prelude.{List, ℕ};

    ghost Value = { List ℕ };

    ghost view = { λ b. b.items.items };
}

impl CellBytes {
    /// The bytes of `bytes`. `OutOfMemory` comes only for want of memory.
    pub fn from_slice(alloc: Global, bytes: &[u8]) -> Result<CellBytes, OutOfMemory>
        ensures { IfOk result (λ b. b ≡ bytes.now) }
    {
        Ok(CellBytes {
            items: Vec::from_slice(alloc, bytes)?,
        })
    }

    /// The bytes of `items`, without taking memory.
    pub fn from_vec(items: Vec<u8>) -> CellBytes
        ensures { result ≡ items.items }
    {
        CellBytes { items }
    }

    /// The bytes, without taking memory.
    pub fn into_vec(self) -> Vec<u8>
        ensures { result.items ≡ self }
    {
        let CellBytes { items } = self;
        items
    }

    /// The bytes in their order.
    pub fn as_slice(&self) -> &[u8]
        ensures { result.now ≡ self.now }
    {
        self.items.as_slice()
    }

    /// How many bytes there are.
    pub fn len(&self) -> usize
        ensures { result ≡ length self.now }
    {
        self.items.len()
    }

    /// Whether there is no byte.
    pub fn is_empty(&self) -> bool
        ensures { IsTrue result ↔ (self.now ≡ []) }
    {
        self.items.is_empty()
    }

    /// An equal value. `OutOfMemory` comes only for want of memory.
    pub fn copy(&self, alloc: Global) -> Result<CellBytes, OutOfMemory>
        ensures { IfOk result (λ b. b ≡ self.now) }
    {
        CellBytes::from_slice(alloc, self.as_slice())
    }
}
