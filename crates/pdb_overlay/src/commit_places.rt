ghost use Rattle.std.specs.Prelude.{◌≡◌, List, ℕ, All, OnOk};
ghost use Rattle.pdb_overlay.specs.inner.Placing.{AreReleased, AreSet, HasSlotFor, SamePlaces};

use crate::place::Place;
use crate::places::Places;
use sdb_base::{Op, OutOfMemory};

impl Places {
    /// Makes room for the places of all operations. An `Err` leaves none.
    pub(crate) fn make_room(&mut self, ops: &[Op]) -> Result<(), OutOfMemory>
        ensures made { OnOk result (All (HasSlotFor self.new) ops.now) }
        ensures same { SamePlaces self.old self.new }
    {
        let outcome = self.make_slots(ops);
        if outcome.is_err() {
            self.tidy_all(ops);
        }
        outcome
    }

    // Makes room for the places of all operations.
    fn make_slots(&mut self, ops: &[Op]) -> Result<(), OutOfMemory>
        ensures made { OnOk result (All (HasSlotFor self.new) ops.now) }
        ensures same { SamePlaces self.old self.new }
    {
        for op in ops {
            self.make_slot(op)?;
        }
        Ok(())
    }

    // Takes the empty slots of the operations' keys away.
    fn tidy_all(&mut self, ops: &[Op])
        ensures { SamePlaces self.old self.new }
    {
        for op in ops {
            self.tidy(op);
        }
    }

    /// Sets the places of the operations of a commit of this number. There is room for them, so that no memory is taken.
    pub(crate) fn set_all(&mut self, ops: &[Op], number: u64)
        requires { All (HasSlotFor self.old) ops.now }
        ensures { AreSet number ops.now self.old self.new }
    {
        for (at, op) in ops.iter().enumerate() {
            self.set(op, Place { number, at });
        }
    }

    /// Takes the places of these operations' keys away that are in the commit of this number.
    pub(crate) fn release_all(&mut self, ops: &[Op], number: u64)
        ensures { AreReleased number ops.now self.old self.new }
    {
        for op in ops {
            self.release(op, number);
        }
    }
}
