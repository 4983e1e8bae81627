ghost use Rattle.std.specs.Prelude.{◌≡◌, ◌≤◌, length};

use arrayvec::ArrayVec;
use std::marker::Model;

/// A Merkle value: a node's bytes where these are fewer than 32, or else their hash. It has its place in itself and takes
/// no memory.
#[derive(Debug, Drop)]
pub struct MerkleValue {
    bytes: ArrayVec<u8, 32>,
}

impl Model for MerkleValue {
    ghost use Rattle.std.specs.Prelude.{List, ℕ};

    ghost Value = { List ℕ };

    ghost view = { λ v. v.bytes.items };
}

impl MerkleValue {
    /// The value of these bytes, of which there are at most 32.
    pub fn of(bytes: &[u8]) -> MerkleValue
        requires { length bytes.now ≤ 32 }
        ensures { result ≡ bytes.now }
    {
        let mut value = ArrayVec::new();
        let Ok(()) = value.try_extend_from_slice(bytes) else {
            unreachable!()
        };
        MerkleValue { bytes: value }
    }

    /// Its bytes.
    pub fn as_slice(&self) -> &[u8]
        ensures { result.now ≡ self.now }
    {
        self.bytes.as_slice()
    }
}
