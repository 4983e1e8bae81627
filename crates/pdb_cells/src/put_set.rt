ghost use Rattle.std.specs.Prelude.{◌≡◌, [], ℕ, ◌<◌, ◌^◌, All, List, length, Some, IfSome, OnOk, OnErr};
ghost use Rattle.std.specs.Option.{option_map};
ghost use Rattle.pdb_cells.specs.Puts.{IsWholeCell, NoCellTwice, last_put, puts_after};
ghost use Rattle.pdb_cells.specs.Sizes.{size_of};

use crate::cell_bytes::CellBytes;
use crate::cell_name::CellName;
use crate::puts::{Put, Puts};
use sdb_io::OutOfMemory;
use std::alloc::Global;
use std::collections::BTreeMap;
use std::marker::Model;

/// The puts of a draft, each cell once, in the order of first puts.
#[derive(Drop)]
pub struct PutSet {
    alloc: Global,
    puts: Vec<Put>,
    places: BTreeMap<CellName, usize>,
}

impl Model for PutSet {
    ghost use Rattle.std.specs.Prelude.{List};
    ghost use Rattle.pdb_cells.specs.declared.puts.Put.{Put};
    ghost use Rattle.pdb_cells.specs.inner.Places.{ArePlaced};

    ghost Value = { List Put };

    ghost view = { λ s. s.puts.items };

    ghost invariant = { λ s. ArePlaced s.puts.items s.places };
}

impl PutSet {
    /// No puts.
    pub fn new(alloc: Global) -> PutSet
        ensures { result ≡ [] }
    {
        PutSet {
            alloc,
            puts: Vec::new(alloc),
            places: BTreeMap::new(alloc),
        }
    }

    /// The bytes put into a cell.
    pub fn get(&self, name: &CellName) -> Option<&[u8]>
        ensures bytes { option_map (λ b. b.now) result ≡ last_put self.now name.now }
        ensures sized { IfSome result (λ b. size_of name.now.file ≡ Some (length b.now)) }
    {
        match self.places.get(name) {
            Some(place) => Some(self.puts[*place].bytes.as_slice()),
            None => None,
        }
    }

    /// Puts a cell. An `Err` changes nothing.
    pub fn put(&mut self, name: CellName, bytes: &[u8]) -> Result<(), OutOfMemory>
        requires sized { size_of name.file ≡ Some (length bytes.now) }
        requires index { name.index < 2 ^ 32 }
        ensures ok { OnOk result (self.new ≡ puts_after self.old (record { name = name; bytes = bytes.now })) }
        ensures err { OnErr result (self.new ≡ self.old) }
        ensures once { NoCellTwice self.old }
    {
        let bytes = CellBytes::from_slice(self.alloc, bytes)?;
        match self.places.get(&name) {
            Some(place) => self.puts[*place] = Put { name, bytes },
            None => {
                self.puts.reserve(1)?;
                self.places.insert(name, self.puts.len())?;
                self.puts.push_reserved(Put { name, bytes });
            }
        }
        Ok(())
    }

    /// The puts, without taking memory.
    pub fn into_puts(self) -> Puts
        ensures puts { result ≡ self }
        ensures once { NoCellTwice result }
        ensures whole { All IsWholeCell result }
    {
        let PutSet { puts, .. } = self;
        Puts::from_vec(puts)
    }
}
