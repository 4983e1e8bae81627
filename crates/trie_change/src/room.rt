ghost use Rattle.std.specs.Prelude.{◌≡◌, ◌≤◌, ℕ, [], IfOk, IfSome, vec_len, vec_capacity};
ghost use Rattle.trie_change.specs.inner.Room.{HasRoom};

use sdb_base::OutOfMemory;
use std::alloc::Global;

/// An empty vector with room for so many items, where one has it not. It has at least twice the room, so that what moves from
/// one into the next is linear in all.
pub(crate) fn larger<T>(
    alloc: Global,
    items: &Vec<T>,
    most: usize,
) -> Result<Option<Vec<T>>, OutOfMemory>
    ensures room { IfOk result (HasRoom items.now most) }
    ensures empty { IfOk result (λ larger. IfSome larger (λ v. v.items ≡ [])) }
{
    let room = items.capacity();
    if most <= room {
        return Ok(None);
    }
    let twice = room.saturating_mul(2);
    let larger = Vec::with_capacity(alloc, if twice < most { most } else { twice })?;
    Ok(Some(larger))
}

/// Moves items into a larger vector, where there is one.
pub(crate) fn move_over<T: Drop>(items: &mut Vec<T>, larger: Option<Vec<T>>)
    requires empty { IfSome larger (λ v. v.items ≡ []) }
    requires fits { IfSome larger (λ v. vec_len items.old ≤ vec_capacity v) }
    ensures items { items.new.items ≡ items.old.items }
    ensures len { vec_len items.new ≡ vec_len items.old }
    ensures room { (most : ℕ) → HasRoom items.old most larger → most ≤ vec_capacity items.new }
{
    let Some(mut larger) = larger else {
        return;
    };
    let _ = larger.append(items);
    *items = larger;
}
