ghost use Rattle.std.specs.Prelude.{◌≡◌, ◌+◌, ◌≤◌, ◌++◌, [], None, map, reverse, IfOk, OnErr, vec_len, vec_capacity};
ghost use Rattle.trie_read.specs.inner.Parts.{OfKey, in_order, next_piece, as_pieces};

use crate::parts::{Part, Stored};
use sdb_base::{Bytes, Items, Keys, OutOfMemory};
use std::alloc::{AllocError, Global};
use std::mem;

// Moves keys from the end of what is left to those found, up to a stored node.
fn take_keys(found: &mut Vec<Bytes>, later: &mut Vec<Part>) -> Option<Stored>
    requires { vec_len found.old + vec_len later.old ≤ vec_capacity found.old }
    ensures parts { in_order found.new.items result later.new.items ≡ in_order found.old.items None later.old.items }
    ensures last { result ≡ None → later.new.items ≡ [] }
{
    while let Some(part) = later.pop() {
        match part {
            Part::Key(key) => found.push_reserved(key),
            Part::Node(stored) => return Some(stored),
        }
    }
    None
}

// `go_on` in vectors, whose room is made before anything moves.
fn go_on_in(
    found: &mut Vec<Bytes>,
    later: &mut Vec<Part>,
    mut parts: Vec<Part>,
) -> Result<Option<Stored>, OutOfMemory>
    ensures parts { IfOk result (λ next. in_order found.new.items next later.new.items
        ≡ map OfKey found.old.items ++ (as_pieces parts.items ++ as_pieces (reverse later.old.items))) }
    ensures last { IfOk result (λ next. next ≡ None → later.new.items ≡ []) }
    ensures found { OnErr result (found.new.items ≡ found.old.items) }
    ensures later { OnErr result (later.new.items ≡ later.old.items) }
{
    let Some(most) = later.len().checked_add(parts.len()) else {
        return Err(AllocError);
    };
    found.reserve(most)?;
    parts.as_mut_slice().reverse();
    later.append(&mut parts)?;
    Ok(take_keys(found, later))
}

/// Puts parts before what is left, moves the keys that are then in front to those found, and gives the stored node that
/// comes next. An `Err` changes nothing.
pub(crate) fn go_on(
    alloc: Global,
    found: &mut Keys,
    later: &mut Items<Part>,
    parts: Vec<Part>,
) -> Result<Option<Stored>, OutOfMemory>
    ensures parts { IfOk result (λ next. in_order found.new next later.new
        ≡ map OfKey found.old ++ (as_pieces parts.items ++ as_pieces (reverse later.old))) }
    ensures last { IfOk result (λ next. next ≡ None → later.new ≡ []) }
    ensures found { OnErr result (found.new ≡ found.old) }
    ensures later { OnErr result (later.new ≡ later.old) }
{
    let mut keys = mem::replace(found, Keys::new(alloc)).into_vec();
    let mut rest = mem::replace(later, Items::new(alloc)).into_vec();
    let next = go_on_in(&mut keys, &mut rest, parts);
    *found = Keys::from_vec(keys);
    *later = Items::from_vec(rest);
    next
}
