ghost use Rattle.std.specs.Prelude.{◌≡◌, ◌≤◌, ◌+◌, ℕ, IfErr, IfOk, MatchResult, Some, length};
ghost use Rattle.std.specs.Option.{option_map};
ghost use Rattle.sdb_io.specs.Faults.{CountsFault};
ghost use Rattle.sdb_base.specs.Content.{Counted, meta_under, node_under};
ghost use Rattle.sdb_base.specs.Keeping.{Commits, IsCause, IsMetaAnswer, IsNodeAnswer, disk_failed, most_in_plain_key, operations};
ghost use Rattle.pdb_cells.specs.Content.{Content};
ghost use Rattle.pdb_column.specs.Holding.{HoldsColumn};
ghost use Rattle.pdb_column.specs.Maps.{ColumnMap};
ghost use Rattle.pdb_pipe.specs.Reads.{NamesDamage, most_reads, reads_for};

use crate::database::Database;
use crate::faults::of_look_up;
use pdb_cells::Cells;
use pdb_column::{get, plain_keys_stand_as_their_hashes};
use pdb_disk::Disk;
use pdb_overlay::Lent;
use sdb_base::{Bytes, KeepFault, NodeHash};
use sdb_blake2::hash256;
use std::alloc::Global;

/// The bytes under a key of 32 bytes in a column of these cells.
pub(crate) fn value_under<C: Cells>(
    alloc: Global,
    cells: &mut C,
    column: u8,
    key: &[u8; 32],
) -> Result<Option<Bytes>, KeepFault>
    requires { column ≤ 1 }
    ensures keeps { C.same cells.old cells.new }
    ensures counted { CountsFault (disk_failed result) (C.fault_count cells.old) (C.fault_count cells.new) }
    ensures reads { MatchResult result (λ r. C.read_count cells.new ≤ C.read_count cells.old + reads_for r)
        (λ e. C.read_count cells.new ≤ C.read_count cells.old + most_reads) }
    ensures most { C.read_count cells.new ≤ C.read_count cells.old + most_reads }
    ensures found { (c : Content) (base : ℕ) (content : ColumnMap) → C.seen cells.old ≡ Some c → HoldsColumn c column base content
        → IfOk result (λ r. r ≡ option_map (λ (h : Counted). h.bytes) (content key.now)) }
    ensures sound { (c : Content) (base : ℕ) (content : ColumnMap) → C.seen cells.old ≡ Some c → HoldsColumn c column base content
        → IfErr result (IsCause (λ e. ⊥)) }
    ensures cause { IfErr result (IsCause (NamesDamage (C.seen cells.old) column)) }
{
    let mut out = Vec::new(alloc);
    match get(alloc, cells, column, key, &mut out) {
        Ok(true) => Ok(Some(Bytes::from_vec(out))),
        Ok(false) => Ok(None),
        Err(fault) => Err(of_look_up(fault)),
    }
}

/// A copy of lent bytes.
fn copied(alloc: Global, bytes: &[u8]) -> Result<Option<Bytes>, KeepFault>
    ensures ok { IfOk result (λ r. r ≡ Some bytes.now) }
    ensures err { IfErr result (λ e. e ≡ KeepFault.OutOfMemory) }
{
    match Bytes::from_slice(alloc, bytes) {
        Ok(copy) => Ok(Some(copy)),
        Err(_) => Err(KeepFault::OutOfMemory),
    }
}

impl<D: Disk> Database<D> {
    ghost use Rattle.pdb_pipe.specs.Commits.{NodesAgree, HashesApart};
    ghost use Rattle.pdb_pipe.specs.Faults.{IsDamaged};
    ghost use Rattle.pdb_pipe.specs.Standing.{StandsFor};
    ghost use Rattle.pdb_pipe.specs.Keeping.{KeepsDatabase};

    /// The bytes of a node: those in the queue, else those of the cells after all records.
    pub(crate) fn find_node(&mut self, key: &NodeHash) -> Result<Option<Bytes>, KeepFault>
        ensures keeps { KeepsDatabase D.tells D.clock D.past D.fault_count self.old self.new }
        ensures answer { (commits : Commits) → StandsFor D.tells D.clock D.past self.old commits → NodesAgree commits key.now.0
            → IfOk result (IsNodeAnswer commits key.now.0 (node_under (operations commits) key.now.0)) }
        ensures counted { CountsFault (disk_failed result) (D.fault_count self.old.redo.log.disk) (D.fault_count self.new.redo.log.disk) }
        ensures damage { IfErr result (IsCause (IsDamaged D.tells D.clock D.past self.old 0)) }
        ensures reads { MatchResult result (λ r. self.new.redo.reads ≤ self.old.redo.reads + reads_for r)
            (λ e. self.new.redo.reads ≤ self.old.redo.reads + most_reads) }
        ensures most { self.new.redo.reads ≤ self.old.redo.reads + most_reads }
    {
        match self.queue.lend(0, &key.0) {
            Lent::Silent => value_under(self.alloc, &mut self.redo, 0, &key.0),
            Lent::Bytes(node) => copied(self.alloc, node),
            Lent::Erased => Ok(None),
        }
    }

    /// The bytes under a plain key: those in the queue, else those of the cells after all records.
    pub(crate) fn find_meta(&mut self, key: &[u8]) -> Result<Option<Bytes>, KeepFault>
        requires { length key.now ≤ most_in_plain_key }
        ensures keeps { KeepsDatabase D.tells D.clock D.past D.fault_count self.old self.new }
        ensures answer { (commits : Commits) → StandsFor D.tells D.clock D.past self.old commits → HashesApart commits key.now
            → IfOk result (IsMetaAnswer (meta_under (operations commits) key.now)) }
        ensures counted { CountsFault (disk_failed result) (D.fault_count self.old.redo.log.disk) (D.fault_count self.new.redo.log.disk) }
        ensures damage { IfErr result (IsCause (IsDamaged D.tells D.clock D.past self.old 1)) }
        ensures reads { MatchResult result (λ r. self.new.redo.reads ≤ self.old.redo.reads + reads_for r)
            (λ e. self.new.redo.reads ≤ self.old.redo.reads + most_reads) }
        ensures most { self.new.redo.reads ≤ self.old.redo.reads + most_reads }
    {
        plain_keys_stand_as_their_hashes();
        match self.queue.lend(1, key) {
            Lent::Silent => value_under(self.alloc, &mut self.redo, 1, &hash256(key)),
            Lent::Bytes(value) => copied(self.alloc, value),
            Lent::Erased => Ok(None),
        }
    }
}
