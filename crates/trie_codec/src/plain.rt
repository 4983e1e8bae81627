ghost use Rattle.std.specs.Prelude.{◌≡◌, ◌<◌, None, replicate, slice_set};

use crate::merkle_value::MerkleValue;
use sdb_base::{Bytes, Nibbles};
use std::marker::Model;

/// The parts of a node.
#[derive(Debug, Drop)]
pub struct Plain {
    /// The partial key, at most 2,048 nibbles.
    pub partial: Nibbles,
    /// The value, fewer than 2^30 bytes.
    pub value: Option<Bytes>,
    /// The Merkle values of the children.
    pub children: ChildList,
}

/// The Merkle values of a node's sixteen children, each there or not.
#[derive(Debug, Drop)]
pub struct ChildList {
    items: [Option<MerkleValue>; 16],
}

impl Model for ChildList {
    ghost use Rattle.std.specs.Prelude.{List, ℕ, Option};

    ghost Value = { List (Option (List ℕ)) };

    ghost view = { λ c. c.items };
}

impl ChildList {
    /// No child.
    pub fn new() -> ChildList
        ensures { result ≡ replicate 16 None }
    {
        ChildList {
            items: [
                None, None, None, None, None, None, None, None, None, None, None, None, None, None,
                None, None,
            ],
        }
    }

    /// Sets child `i`, or takes it away.
    pub fn set(&mut self, i: u8, child: Option<MerkleValue>)
        requires { i < 16 }
        ensures { self.new ≡ slice_set self.old i child }
    {
        self.items[i as usize] = child;
    }

    /// The children in their order.
    pub fn as_slice(&self) -> &[Option<MerkleValue>]
        ensures { result.now ≡ self.now }
    {
        &self.items
    }
}
