ghost use Rattle.std.specs.Prelude.{◌≡◌, ◌↔◌, [], ◌∷◌, ◌++◌, length, IsTrue, IfOk, OnOk, OnErr};

use crate::cell_bytes::CellBytes;
use crate::cell_name::CellName;
use sdb_io::OutOfMemory;
use std::alloc::Global;
use std::marker::Model;

/// New bytes for a cell.
#[derive(Debug, Drop)]
pub struct Put {
    /// The cell.
    pub name: CellName,
    /// All its bytes, as many as the cell's size where the put is one of a draft.
    pub bytes: CellBytes,
}

impl Put {
    /// An equal value. `OutOfMemory` comes only for want of memory.
    pub fn copy(&self, alloc: Global) -> Result<Put, OutOfMemory>
        ensures { IfOk result (λ p. p ≡ self.now) }
    {
        Ok(Put {
            name: self.name,
            bytes: self.bytes.copy(alloc)?,
        })
    }
}

/// Puts, in the order in which they were pushed.
#[derive(Debug, Drop)]
pub struct Puts {
    items: Vec<Put>,
}

impl Model for Puts {
    ghost use Rattle.std.specs.Prelude.{List};
    ghost use Rattle.pdb_cells.specs.declared.puts.Put.{Put};

    ghost Value = { List Put };

    ghost view = { λ it. it.items.items };
}

impl Puts {
    /// No puts.
    pub fn new(alloc: Global) -> Puts
        ensures { result ≡ [] }
    {
        Puts {
            items: Vec::new(alloc),
        }
    }

    /// The puts of `items`, without taking memory.
    pub fn from_vec(items: Vec<Put>) -> Puts
        ensures { result ≡ items.items }
    {
        Puts { items }
    }

    /// The puts, without taking memory.
    pub fn into_vec(self) -> Vec<Put>
        ensures { result.items ≡ self }
    {
        let Puts { items } = self;
        items
    }

    /// Adds a put at the end. An `Err` changes nothing, and drops the put.
    pub fn push(&mut self, put: Put) -> Result<(), OutOfMemory>
        ensures ok { OnOk result (self.new ≡ self.old ++ put ∷ []) }
        ensures err { OnErr result (self.new ≡ self.old) }
    {
        self.items.push(put)?;
        Ok(())
    }

    /// The puts in their order.
    pub fn as_slice(&self) -> &[Put]
        ensures { result.now ≡ self.now }
    {
        self.items.as_slice()
    }

    /// How many puts there are.
    pub fn len(&self) -> usize
        ensures { result ≡ length self.now }
    {
        self.items.len()
    }

    /// Whether there is no put.
    pub fn is_empty(&self) -> bool
        ensures { IsTrue result ↔ (self.now ≡ []) }
    {
        self.items.is_empty()
    }

    /// An equal value. `OutOfMemory` comes only for want of memory.
    pub fn copy(&self, alloc: Global) -> Result<Puts, OutOfMemory>
        ensures { IfOk result (λ it. it ≡ self.now) }
    {
        let mut copied = Puts::new(alloc);
        for put in self.items.as_slice() {
            copied.push(put.copy(alloc)?)?;
        }
        Ok(copied)
    }
}
