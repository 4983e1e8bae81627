use crate::queue::Queue;
use std::marker::Model;

/// Records that wait, oldest first, their numbers one after the other, and where the newest bytes of each of their cells
/// are.
#[derive(Drop)]
pub(crate) struct Backlog {
    pub(crate) queue: Queue,
}

impl Model for Backlog {
    ghost use Rattle.std.specs.Coded.{codes};
    ghost use Rattle.pdb_redo.specs.declared.queue.Queue.{Queue};
    ghost use Rattle.pdb_redo.specs.contracts.queue.Queue as q;

    ghost Value = { Queue };

    ghost coded = { Prim.hlevel (codes, q.the_row.coded) };

    ghost use Rattle.pdb_redo.specs.Places.{AreInPlaces};

    ghost view = { λ b. b.queue };

    ghost invariant = { λ b. AreInPlaces b.queue.records.items b.queue.places };
}
