ghost use Rattle.std.specs.Prelude.{◌≡◌, ◌≢◌, ◌++◌, ◌∷◌, [], List, OnOk, OnErr, slice_get};
ghost use Rattle.std.specs.Option.{option_map};
ghost use Rattle.sdb_base.specs.Keeping.{operations};
ghost use Rattle.sdb_base.specs.declared.op.Op.{Op};
ghost use Rattle.pdb_overlay.specs.Lending.{newest_said, said_in};

use crate::lent::Lent;
use crate::places::Places;
use sdb_base::{Ops, OutOfMemory};
use std::alloc::{AllocError, Global};
use std::collections::VecDeque;
use std::marker::Model;

/// Commits that wait to be logged, oldest first, with the newest operation of each key.
#[derive(Drop)]
pub struct Queue {
    commits: VecDeque<Ops>,
    // the number of the oldest commit; each other one's is one more than that before it
    first: u64,
    places: Places,
}

impl Model for Queue {
    ghost use Rattle.std.specs.Prelude.{List};
    ghost use Rattle.sdb_base.specs.declared.op.Op.{Op};
    ghost use Rattle.pdb_overlay.specs.inner.Placing.{AreFound};

    ghost Value = { List (List Op) };

    ghost view = { λ q. q.commits.items };

    ghost invariant = { λ q. AreFound q.first q.commits.items q.places };
}

impl Queue {
    /// An empty queue.
    pub fn new(alloc: Global) -> Queue
        ensures { result ≡ [] }
    {
        Queue {
            commits: VecDeque::new(alloc),
            first: 0,
            places: Places::new(alloc),
        }
    }

    /// Adds a commit at the end. An `Err` changes nothing, and drops the operations. It comes for want of memory, and where
    /// 2^64 - 1 commits were pushed.
    pub fn push(&mut self, ops: Ops) -> Result<(), OutOfMemory>
        ensures ok { OnOk result (self.new ≡ self.old ++ ops ∷ []) }
        ensures err { OnErr result (self.new ≡ self.old) }
    {
        let number = self.first + self.commits.len() as u64;
        if number == u64::MAX {
            return Err(AllocError);
        }
        self.commits.reserve(1)?;
        self.places.make_room(ops.as_slice())?;
        self.places.set_all(ops.as_slice(), number);
        self.commits.push_back_reserved(ops);
        Ok(())
    }

    /// The oldest commit; none exactly where the queue is empty.
    pub fn oldest(&self) -> Option<&Ops>
        ensures { option_map (λ o. o.now) result ≡ slice_get self.now 0 }
    {
        self.commits.front()
    }

    /// Drops the oldest commit. The queue isn't empty.
    pub fn pop(&mut self)
        requires { self.old ≢ [] }
        ensures { (ops : List Op) (rest : List (List Op)) → self.old ≡ ops ∷ rest → self.new ≡ rest }
    {
        let Some(ops) = self.commits.pop_front() else {
            return;
        };
        self.places.release_all(ops.as_slice(), self.first);
        self.first += 1;
    }

    /// What the newest operation that says something of a key of a column says of it: these bytes, that it was erased, or
    /// nothing where no operation of the queue says anything. An `AddRef` says the bytes of a key of column 0; a `DropRef`
    /// says nothing. A `Put` says the bytes of a key of column 1, and an `Erase` that it was erased. It takes no memory, and
    /// its time grows with the number of keys as that number's logarithm, and not with the number of commits.
    pub fn lend(&self, column: u8, key: &[u8]) -> Lent<'_>
        ensures { said_in result ≡ newest_said column key.now (operations self.now) }
    {
        let Some(place) = self.places.get(column, key) else {
            return Lent::Silent;
        };
        let Some(ops) = self.commits.get((place.number - self.first) as usize) else {
            return Lent::Silent;
        };
        Lent::of(&ops.as_slice()[place.at])
    }
}
