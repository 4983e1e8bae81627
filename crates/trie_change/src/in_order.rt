ghost use Rattle.std.specs.Prelude.{◌≡◌, ◌+◌, ◌≤◌, ◌∷◌, ◌++◌, true, nat_eq, None, [], All, IfSome, vec_len, vec_capacity};
ghost use Rattle.std.specs.FinMap.{entries};
ghost use Rattle.std.specs.List.{AllByRecursion, starts_with};
ghost use Rattle.std.specs.Option.{option_copied};
ghost use Rattle.trie_model.specs.State.{State};
ghost use Rattle.trie_model.specs.Trie.{suffixes_of};
ghost use Rattle.trie_read.specs.Paths.{Hangs};
ghost use Rattle.trie_root.specs.Suffixes.{IsEntry};
ghost use Rattle.trie_change.specs.Frontier.{IsFrontier, IsHanging};
ghost use Rattle.trie_change.specs.inner.InOrder.{IsOff, IsRising, begins_one, hangs_between, in_place, item_goes_on};
ghost use Rattle.trie_change.specs.inner.Pieces.{IsAside, all_items, back_items, first_item, last_item, piece_path};

use crate::frontier::{Piece, Stub};
use crate::settings::{Setting, begins_a_key};

/// Where a node hangs or a key ends; of siblings, where the node above them ends.
pub(crate) fn path_of(piece: &Piece) -> &[u8]
    ensures { result.now ≡ piece_path piece.now }
{
    match piece {
        Piece::Entry(entry) => entry.path.as_slice(),
        Piece::Stub(stub) => stub.path.as_slice(),
        Piece::Siblings(siblings) => siblings.end.as_slice(),
    }
}

// Whether a path with one nibble more goes on with some nibbles.
#[tactic(auto, using(crate::proofs::ChildGoesOn::front_alone, crate::proofs::ChildGoesOn::last_nibble, crate::proofs::ChildGoesOn::other_front, crate::proofs::ChildGoesOn::too_long))]
fn child_goes_on(end: &[u8], nibble: u8, nibbles: &[u8]) -> bool
    ensures { result ≡ starts_with nat_eq (end.now ++ nibble ∷ []) nibbles.now }
{
    if nibbles.len() <= end.len() {
        return end.starts_with(nibbles);
    }
    if nibbles.len() > end.len() + 1 {
        return false;
    }
    if !nibbles.starts_with(end) {
        return false;
    }
    nibbles[end.len()] == nibble
}

// Whether the last item of a piece goes on with some nibbles.
fn last_goes_on_with(piece: Option<&Piece>, nibbles: &[u8]) -> bool
    ensures { result ≡ item_goes_on nibbles.now (last_item (option_copied piece.entry)) }
{
    match piece {
        Some(Piece::Siblings(siblings)) => match siblings.nodes.as_slice().last() {
            Some(last) => child_goes_on(siblings.end.as_slice(), last.nibble, nibbles),
            None => false,
        },
        Some(piece) => path_of(piece).starts_with(nibbles),
        None => false,
    }
}

// Whether the first item of a piece goes on with some nibbles.
fn first_goes_on_with(piece: Option<&Piece>, nibbles: &[u8]) -> bool
    ensures { result ≡ item_goes_on nibbles.now (first_item (option_copied piece.entry)) }
{
    match piece {
        Some(Piece::Siblings(siblings)) => match siblings.nodes.as_slice().first() {
            Some(first) => child_goes_on(siblings.end.as_slice(), first.nibble, nibbles),
            None => false,
        },
        Some(piece) => path_of(piece).starts_with(nibbles),
        None => false,
    }
}

// Whether a node hangs where a stub does between two pieces: where the last of the one or the first of the other goes on with
// the path up to its last nibble.
fn hangs(before: Option<&Piece>, path: &[u8], after: Option<&Piece>) -> bool
    ensures { result ≡ hangs_between (last_item (option_copied before.entry)) path.now (first_item (option_copied after.entry)) }
{
    if path.is_empty() {
        return true;
    }
    let above = &path[..path.len() - 1];
    last_goes_on_with(before, above) || first_goes_on_with(after, above)
}

/// Moves pieces up to the next stub whose path begins a key that is set, which is looked for from `at` on.
pub(crate) fn move_to_set(
    settings: &[Setting],
    at: &mut usize,
    found: &mut Vec<Piece>,
    later: &mut Vec<Piece>,
) -> Option<Stub>
    requires { vec_len found.old + vec_len later.old ≤ vec_capacity found.old }
    ensures items { in_place (all_items found.new.items) result (back_items later.new.items)
        ≡ in_place (all_items found.old.items) None (back_items later.old.items) }
    ensures last { result ≡ None → later.new.items ≡ [] }
    ensures off { IsRising settings.now → AllByRecursion (IsOff settings.now) (all_items found.old.items)
        → AllByRecursion (IsAside settings.now) later.old.items → AllByRecursion (IsOff settings.now) (all_items found.new.items) }
    ensures found_apart { AllByRecursion (IsAside settings.now) found.old.items → AllByRecursion (IsAside settings.now) later.old.items
        → AllByRecursion (IsAside settings.now) found.new.items }
    ensures later_apart { AllByRecursion (IsAside settings.now) later.old.items → AllByRecursion (IsAside settings.now) later.new.items }
    ensures wanted { IsRising settings.now → IfSome result (λ s. begins_one settings.now s.path.items ≡ true) }
    ensures room { vec_len found.new + vec_len later.new ≤ vec_len found.old + vec_len later.old }
    ensures capacity { vec_capacity found.new ≡ vec_capacity found.old }
    ensures later_capacity { vec_capacity later.new ≡ vec_capacity later.old }
{
    while let Some(piece) = later.pop() {
        match piece {
            Piece::Stub(stub) => {
                if begins_a_key(settings, at, stub.path.as_slice()) {
                    return Some(stub);
                }
                found.push_reserved(Piece::Stub(stub));
            }
            other => found.push_reserved(other),
        }
    }
    None
}

/// Moves pieces up to the next stub that hangs where the trie over all of them has no node. Siblings hang.
pub(crate) fn move_to_unhung(found: &mut Vec<Piece>, later: &mut Vec<Piece>) -> Option<Stub>
    requires { vec_len found.old + vec_len later.old ≤ vec_capacity found.old }
    ensures items { in_place (all_items found.new.items) result (back_items later.new.items)
        ≡ in_place (all_items found.old.items) None (back_items later.old.items) }
    ensures last { result ≡ None → later.new.items ≡ [] }
    ensures hanging { (m : State) → All IsEntry (entries m)
        → IsFrontier (suffixes_of m) (in_place (all_items found.old.items) None (back_items later.old.items))
        → AllByRecursion (IsHanging (suffixes_of m)) (all_items found.old.items)
        → AllByRecursion (IsHanging (suffixes_of m)) (all_items found.new.items) × IfSome result (λ s. Hangs (suffixes_of m) s.path.items → ⊥) }
    ensures room { vec_len found.new + vec_len later.new ≤ vec_len found.old + vec_len later.old }
{
    while let Some(piece) = later.pop() {
        match piece {
            Piece::Stub(stub) => {
                if !hangs(found.last(), stub.path.as_slice(), later.last()) {
                    return Some(stub);
                }
                found.push_reserved(Piece::Stub(stub));
            }
            other => found.push_reserved(other),
        }
    }
    None
}
