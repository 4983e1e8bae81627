ghost use Rattle.std.specs.Prelude.{◌≡◌, ◌≤◌, ◌++◌, ◌∷◌, [], List, OnOk, slice_get};
ghost use Rattle.std.specs.Option.{option_map};
ghost use Rattle.pdb_cells.specs.Puts.{NoCellTwice};
ghost use Rattle.pdb_model.specs.Records.{Record};

use crate::backlog::Backlog;
use crate::places::{drop_places, set_places};
use crate::queue::Queue;
use crate::waiting::Waiting;
use pdb_cells::{CellName, Puts};
use sdb_base::OutOfMemory;
use std::alloc::Global;
use std::collections::{HashMap, VecDeque};

impl Backlog {
    ghost use Rattle.pdb_redo.specs.Places.{newest, record_of};
    ghost use Rattle.pdb_redo.specs.Backlogs.{HasPlaceFor, IsNextNumber, records_in};

    /// No records.
    pub(crate) fn new(alloc: Global) -> Backlog
        ensures { records_in result ≡ [] }
    {
        Backlog {
            queue: Queue {
                records: VecDeque::new(alloc),
                places: HashMap::new(alloc),
            },
        }
    }

    /// The newest bytes of a cell.
    pub(crate) fn get(&self, name: &CellName) -> Option<&[u8]>
        ensures { option_map (λ b. b.now) result ≡ newest (records_in self.now) name.now }
    {
        let place = self.queue.places.get(name)?;
        let first = self.queue.records.front()?;
        let record = self
            .queue
            .records
            .get((place.number - first.number) as usize)?;
        Some(record.puts.as_slice()[place.at].bytes.as_slice())
    }

    /// Makes room for a record of these puts. The records stay, also where there wasn't memory enough.
    pub(crate) fn make_room(&mut self, puts: &Puts) -> Result<(), OutOfMemory>
        ensures same { records_in self.new ≡ records_in self.old }
        ensures room { OnOk result (HasPlaceFor self.new puts.now) }
    {
        self.queue.records.reserve(1)?;
        self.queue.places.reserve(puts.len())?;
        Ok(())
    }

    /// Adds a record, for which there is room. It takes no memory.
    pub(crate) fn push(&mut self, waiting: Waiting)
        requires room { HasPlaceFor self.old waiting.puts }
        requires first { 1 ≤ waiting.number }
        requires next { IsNextNumber (records_in self.old) waiting.number }
        requires once { NoCellTwice waiting.puts }
        ensures { records_in self.new ≡ records_in self.old ++ record_of waiting ∷ [] }
    {
        set_places(
            &mut self.queue.places,
            waiting.puts.as_slice(),
            waiting.number,
        );
        self.queue.records.push_back_reserved(waiting);
    }

    /// The oldest record.
    pub(crate) fn first(&self) -> Option<&Waiting>
        ensures { option_map (λ w. record_of w.now) result ≡ slice_get (records_in self.now) 0 }
    {
        self.queue.records.front()
    }

    /// Drops the oldest record.
    pub(crate) fn pop(&mut self)
        ensures { (r : Record) (rs : List Record) → records_in self.old ≡ r ∷ rs → records_in self.new ≡ rs }
    {
        let Some(record) = self.queue.records.pop_front() else {
            return;
        };
        drop_places(
            &mut self.queue.places,
            record.puts.as_slice(),
            record.number,
        );
    }
}
