ghost use Rattle.std.specs.Prelude.{◌≡◌, None, All, IfOk, OnOk, OnErr, ℕ, List};
ghost use Rattle.std.specs.Option.{option_map};
ghost use Rattle.sdb_base.specs.Content.{Counted, meta_after, node_after};
ghost use Rattle.sdb_mapkeeper.specs.inner.Applying.{AreApplied, AreSame, HasPlace, PlacesStay, meta_in, node_in};

use crate::column::Column;
use sdb_base::{Bytes, NodeHash, Op, Ops, OutOfMemory, TryCopy};
use std::alloc::Global;
use std::mem;

/// The two columns in memory: nodes by their hashes, which are counted, and bytes by plain keys.
#[derive(Drop)]
pub(crate) struct Columns {
    alloc: Global,
    nodes: Column<NodeHash>,
    metas: Column<Bytes>,
}

impl Columns {
    /// Columns without keys.
    pub(crate) fn new(alloc: Global) -> Columns
        ensures nodes { (key : List ℕ) → node_in result key ≡ None }
        ensures metas { (key : List ℕ) → meta_in result key ≡ None }
    {
        Columns {
            alloc,
            nodes: Column::new(alloc),
            metas: Column::new(alloc),
        }
    }

    /// A copy of a node's bytes.
    pub(crate) fn node(&self, key: &NodeHash) -> Result<Option<Bytes>, OutOfMemory>
        ensures { IfOk result (λ r. r ≡ option_map (λ (c : Counted). c.bytes) (node_in self.now key.now.0)) }
    {
        match self.nodes.get(key) {
            Some(bytes) => Ok(Some(bytes.copy(self.alloc)?)),
            None => Ok(None),
        }
    }

    /// A copy of the bytes under a plain key.
    pub(crate) fn meta(&self, key: &[u8]) -> Result<Option<Bytes>, OutOfMemory>
        ensures { IfOk result (λ r. r ≡ option_map (λ (c : Counted). c.bytes) (meta_in self.now key.now)) }
    {
        let key = Bytes::from_slice(self.alloc, key)?;
        match self.metas.get(&key) {
            Some(bytes) => Ok(Some(bytes.copy(self.alloc)?)),
            None => Ok(None),
        }
    }

    /// Applies operations in their order. An `Err` changes nothing.
    pub(crate) fn change(&mut self, ops: Ops) -> Result<(), OutOfMemory>
        ensures ok { OnOk result (AreApplied self.old ops self.new) }
        ensures err { OnErr result (AreSame self.old self.new) }
    {
        let mut ops = ops.into_vec();
        let outcome = self.try_all(ops.as_mut_slice());
        self.tidy(ops.as_slice());
        outcome
    }

    // Applies operations in their order, and takes the bytes out of them. An `Err` changes nothing.
    fn try_all(&mut self, ops: &mut [Op]) -> Result<(), OutOfMemory>
        ensures ok { OnOk result (AreApplied self.old ops.old self.new) }
        ensures err { OnErr result (AreSame self.old self.new) }
    {
        self.make_places(ops)?;
        self.apply_all(ops);
        Ok(())
    }

    // Makes each place that the operations will need.
    fn make_places(&mut self, ops: &[Op]) -> Result<(), OutOfMemory>
        ensures made { OnOk result (All (HasPlace self.new) ops.now) }
        ensures same { AreSame self.old self.new }
    {
        for op in ops {
            self.make_place(op)?;
        }
        Ok(())
    }

    // Makes the place that the operation will need.
    fn make_place(&mut self, op: &Op) -> Result<(), OutOfMemory>
        ensures made { OnOk result (HasPlace self.new op.now) }
        ensures stay { PlacesStay self.old self.new }
        ensures same { AreSame self.old self.new }
    {
        match op {
            Op::AddRef { key, .. } => self.nodes.make_place(self.alloc, key),
            Op::Put { key, .. } => self.metas.make_place(self.alloc, key),
            Op::DropRef { .. } | Op::Erase { .. } => Ok(()),
        }
    }

    // Applies operations in their order, and takes the bytes out of them.
    fn apply_all(&mut self, ops: &mut [Op])
        requires { All (HasPlace self.old) ops.old }
        ensures { AreApplied self.old ops.old self.new }
    {
        for at in 0..ops.len() {
            self.apply(&mut ops[at]);
        }
    }

    // Applies an operation, and takes the bytes out of it.
    fn apply(&mut self, op: &mut Op)
        requires { HasPlace self.old op.old }
        ensures nodes { (key : List ℕ) → node_in self.new key ≡ node_after key (node_in self.old key) op.old }
        ensures metas { (key : List ℕ) → meta_in self.new key ≡ meta_after key (meta_in self.old key) op.old }
        ensures stay { PlacesStay self.old self.new }
    {
        match op {
            Op::AddRef { key, bytes } => {
                let bytes = mem::replace(bytes, Bytes::new(self.alloc));
                self.nodes.add(key, bytes);
            }
            Op::DropRef { key } => self.nodes.release(key),
            Op::Put { key, bytes } => {
                let bytes = mem::replace(bytes, Bytes::new(self.alloc));
                self.metas.set(key, bytes);
            }
            Op::Erase { key } => self.metas.clear(key),
        }
    }

    // Takes the empty places of the operations' keys away.
    fn tidy(&mut self, ops: &[Op])
        ensures { AreSame self.old self.new }
    {
        for op in ops {
            self.tidy_one(op);
        }
    }

    // Takes the place of the operation's key away where it is empty.
    fn tidy_one(&mut self, op: &Op)
        ensures { AreSame self.old self.new }
    {
        match op {
            Op::AddRef { key, .. } | Op::DropRef { key } => self.nodes.tidy(key),
            Op::Put { key, .. } | Op::Erase { key } => self.metas.tidy(key),
        }
    }
}
