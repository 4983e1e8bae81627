ghost use Rattle.std.specs.Prelude.{◌≡◌, [], ◌∷◌, ◌++◌, ◌↔◌, length, IsTrue, IfOk, OnOk, OnErr, Some};
ghost use Rattle.std.specs.Str.{bytes_eq};
ghost use Rattle.std.proofs.Common.{rules};
ghost use Rattle.std.specs.Cmp.{partial_order_from_own_ties};
ghost use Rattle.std.specs.Cmp.Rules.{comparing};
ghost use Rattle.std.specs.Cmp.Lexicographic.{slice_cmp};
ghost use Rattle.std.specs.Ordering.{nat_cmp, as_partial_cmp};

use crate::OutOfMemory;
use crate::items::{Sequence, TryCopy};
use std::alloc::{AllocError, Global};
use std::cmp::Ordering;

/// Items that are the bytes of a byte string.
#[derive(Debug, Clone, Copy)]
pub struct ByteString;

/// A byte string: a key, a value or a text. It is ordered as bytes are, shorter first where one begins the
/// other.
pub type Bytes = Sequence<u8, ByteString>;

impl Sequence<u8, ByteString> {
    /// The bytes of `bytes`.
    pub fn from_slice(alloc: Global, bytes: &[u8]) -> Result<Bytes, OutOfMemory>
        ensures { IfOk result (λ b. b ≡ bytes.now) }
    {
        Ok(Sequence::from_vec(Vec::from_slice(alloc, bytes)?))
    }
}

impl TryCopy for Bytes {
    fn copy(&self, alloc: Global) -> Result<Bytes, OutOfMemory> {
        Bytes::from_slice(alloc, self.as_slice())
    }
}

impl Clone for Bytes {
    ghost is_clone = { λ b c. c ≡ b };

    fn clone(&self) -> Result<Bytes, AllocError> {
        Ok(Sequence::from_vec(self.items.clone()?))
    }
}

impl PartialEq for Bytes {
    ghost eq = { bytes_eq };

    ghost laws = { Prim.search (comparing, rules) };

    fn eq(&self, other: &Bytes) -> bool {
        self.items.as_slice() == other.items.as_slice()
    }
}

impl Eq for Bytes {
    ghost laws = { Prim.search (comparing, rules) };
}

impl Ord for Bytes {
    ghost cmp = { slice_cmp nat_cmp };

    ghost total = { Prim.search (comparing, rules) };

    ghost matches_partial_cmp = { Prim.search (comparing, rules) };

    ghost matches_eq = { Prim.search (comparing, rules) };

    fn cmp(&self, other: &Bytes) -> Ordering {
        self.items.as_slice().cmp(other.items.as_slice())
    }
}

impl PartialOrd for Bytes {
    ghost partial_cmp = { as_partial_cmp (slice_cmp nat_cmp) };

    ghost laws = { partial_order_from_own_ties (Prim.search (comparing, rules)) (Prim.search (comparing, rules)) };

    fn partial_cmp(&self, other: &Bytes) -> Option<Ordering> {
        Some(self.cmp(other))
    }
}
