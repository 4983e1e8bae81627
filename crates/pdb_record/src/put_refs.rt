ghost use Rattle.std.specs.Prelude.{◌≡◌, ◌≤◌, ◌<◌, ◌^◌, ◌+◌, ◌++◌, ◌∷◌, [], ℕ, List, All, IfSome, IfNone, IsSomeAnd, MatchOption, drop, length, take};
ghost use Rattle.std.specs.Int.{w16, w64, to_le_bytes};
ghost use Rattle.pdb_cells.specs.Puts.{IsWholeCell};
ghost use Rattle.pdb_cells.specs.declared.Put.{Put};
ghost use Rattle.pdb_model.specs.Records.{body_bytes, put_bytes};
ghost use Rattle.pdb_record.specs.Scans.{IsFurther, IsNextOf, IsTaken, Leaves, put_of};

use crate::encoding::BEFORE_CELL;
use pdb_cells::{CellName, size};

// indexes of cells are below this number
const END_OF_INDEXES: u64 = 1 << 32;

/// A put of a record: a cell and its bytes, borrowed from the record's own.
#[derive(Clone, Copy, Debug)]
pub struct PutRef<'a> {
    /// The cell.
    pub name: CellName,
    /// Its bytes.
    pub bytes: &'a [u8],
}

/// The puts of a record that are still to come, in their order.
#[derive(Clone, Copy, Debug)]
pub struct PutRefs<'a> {
    pub(crate) left: &'a [u8],
}

impl<'a> PutRefs<'a> {
    /// The next put. None exactly where none is left.
    pub fn next(&mut self) -> Option<PutRef<'a>>
        ensures more { (p : Put) (ps : List Put) → Leaves self.old (p ∷ ps) → IsSomeAnd result (λ r. put_of r ≡ p) }
        ensures later { (p : Put) (ps : List Put) → Leaves self.old (p ∷ ps) → Leaves self.new ps }
        ensures end { Leaves self.old [] → result ≡ None }
        ensures stays { IfNone result (self.new ≡ self.old) }
        ensures only { IfSome result (λ r. IsTaken r self.old self.new) }
        ensures place { IfSome result (λ r. IsNextOf r self.old × IsFurther self.old self.new (10 + length r.bytes.now)) }
    {
        let put = first_put(self.left)?;
        self.left = &self.left[BEFORE_CELL + put.bytes.len()..];
        Some(put)
    }
}

/// The file and the index of a put, by its first 10 bytes.
pub fn put_name(bytes: &[u8; 10]) -> CellName
    ensures bytes { to_le_bytes w16 result.file ++ to_le_bytes w64 result.index ≡ bytes.now }
    ensures narrow { (result.file < 2 ^ 16) × (result.index < 2 ^ 64) }
{
    let [f0, f1, i0, i1, i2, i3, i4, i5, i6, i7] = *bytes;
    CellName {
        file: u16::from_le_bytes([f0, f1]),
        index: u64::from_le_bytes([i0, i1, i2, i3, i4, i5, i6, i7]),
    }
}

/// The put with which some bytes begin, if they begin with one of a whole cell.
pub(crate) fn first_put(bytes: &[u8]) -> Option<PutRef<'_>>
    ensures whole { (p : Put) (rest : List ℕ) → bytes.now ≡ put_bytes p ++ rest → IsWholeCell p → IsSomeAnd result (λ r. put_of r ≡ p) }
    ensures only { IfSome result (λ r. IsWholeCell (put_of r) × (bytes.now ≡ put_bytes (put_of r) ++ drop (10 + length r.bytes.now) bytes.now)) }
    ensures within { IfSome result (λ r. 10 + length r.bytes.now ≤ length bytes.now) }
    ensures place { IfSome result (λ r. r.bytes.ref_ptr ≡ (bytes.entry.ref_ptr.0, bytes.entry.ref_ptr.1 + 10)) }
{
    if bytes.len() < BEFORE_CELL {
        return None;
    }
    let name = put_name(&front(bytes));
    let Some(size) = size(name.file) else {
        return None;
    };
    if name.index >= END_OF_INDEXES || size > bytes.len() - BEFORE_CELL {
        return None;
    }
    Some(PutRef {
        name,
        bytes: &bytes[BEFORE_CELL..BEFORE_CELL + size],
    })
}

/// The first 10 of some bytes.
fn front(bytes: &[u8]) -> [u8; 10]
    requires { 10 ≤ length bytes.now }
    ensures { result ≡ take 10 bytes.now }
{
    let mut front = [0; 10];
    front.copy_from_slice(&bytes[..10]);
    front
}
