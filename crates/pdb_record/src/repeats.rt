ghost use Rattle.std.specs.Prelude.{◌≡◌, ◌≤◌, ◌<◌, ◌+◌, ℕ, List, [], MatchBool, length};
ghost use Rattle.std.specs.Bool.{OnTrue};
ghost use Rattle.std.specs.List.{insert};
ghost use Rattle.arrayvec.specs.ArrayVec.{array_vec_len};
ghost use Rattle.pdb_cells.specs.Puts.{NoCellTwice};
ghost use Rattle.pdb_cells.specs.declared.Put.{Put};
ghost use Rattle.pdb_record.specs.Scans.{Leaves};
ghost use Rattle.pdb_record.specs.inner.Blocks.{AreApart, Ascends, IsApart, Taken, key_of};

use crate::put_refs::PutRefs;
use arrayvec::ArrayVec;
use pdb_cells::CellName;

// so many names are kept at a time where the names of a body don't rise
const BLOCK: usize = 1024;

// the files and indexes of cells, in rising order
type Block = ArrayVec<(u16, u64), BLOCK>;

/// Whether no cell is put twice. It takes no memory. Names that rise are compared with the one before; otherwise each
/// block of names is kept in order, and each later name is looked up in it.
pub(crate) fn has_no_cell_twice(puts: PutRefs<'_>) -> bool
    ensures { (ps : List Put) → Leaves puts.entry ps → MatchBool result (NoCellTwice ps) (¬ NoCellTwice ps) }
{
    rises(puts) || differs(puts)
}

/// Whether each name is above the one before it.
fn rises(puts: PutRefs<'_>) -> bool
    ensures { (ps : List Put) → Leaves puts.entry ps → OnTrue result (NoCellTwice ps) }
{
    let mut left = puts;
    let Some(first) = left.next() else {
        return true;
    };
    let mut last = first.name;
    while let Some(put) = left.next() {
        if put.name <= last {
            return false;
        }
        last = put.name;
    }
    true
}

/// Whether no cell is put twice, whatever the order of the names.
fn differs(puts: PutRefs<'_>) -> bool
    ensures { (ps : List Put) → Leaves puts.entry ps → MatchBool result (NoCellTwice ps) (¬ NoCellTwice ps) }
{
    let mut left = puts;
    while !left.left.is_empty() {
        let mut block = Block::new();
        if !fill(&mut block, &mut left) || !are_new(block.as_slice(), left) {
            return false;
        }
    }
    true
}

/// Takes puts until the block is full or none is left. False where a cell is among them twice.
fn fill(block: &mut Block, puts: &mut PutRefs<'_>) -> bool
    requires { block.old.items ≡ [] }
    ensures ascends { Ascends block.new.items }
    ensures takes { (ps : List Put) → Leaves puts.old ps → MatchBool result (Taken ps block.new.items puts.new) (¬ NoCellTwice ps) }
    ensures less { OnTrue result (0 < length puts.old.left.now → length puts.new.left.now < length puts.old.left.now) }
{
    while !block.is_full() && !puts.left.is_empty() {
        let Some(put) = puts.next() else {
            return false;
        };
        if !add_name(block, put.name) {
            return false;
        }
    }
    true
}

/// Adds a name to a block in its place. False exactly where it is there, and nothing changes then.
fn add_name(block: &mut Block, name: CellName) -> bool
    requires room { array_vec_len block.old < 1024 }
    requires in_order { Ascends block.old.items }
    ensures ascends { Ascends block.new.items }
    ensures apart { MatchBool result (IsApart name block.old.items) (¬ IsApart name block.old.items) }
    ensures added { OnTrue result ((i : ℕ) × (block.new.items ≡ insert block.old.items i (key_of name))) }
    ensures len { OnTrue result (array_vec_len block.new ≡ array_vec_len block.old + 1) }
{
    let key = (name.file, name.index);
    match block.as_slice().binary_search(&key) {
        Ok(_) => false,
        Err(place) => {
            block.insert(place, key);
            true
        }
    }
}

/// Whether none of the puts has one of these names.
fn are_new(names: &[(u16, u64)], puts: PutRefs<'_>) -> bool
    requires { Ascends names.now }
    ensures { (ps : List Put) → Leaves puts.entry ps → MatchBool result (AreApart names.now ps) (¬ AreApart names.now ps) }
{
    let mut left = puts;
    while let Some(put) = left.next() {
        let key = (put.name.file, put.name.index);
        if names.binary_search(&key).is_ok() {
            return false;
        }
    }
    true
}
