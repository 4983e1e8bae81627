ghost use Rattle.std.specs.Prelude.{nat_eq, ◌≡◌, ◌+◌, ◌<◌, ◌≤◌, ℕ, List, true, false, slice_index_or, [], ◌∷◌, ◌++◌, length, All, IfOk, IfSome, reverse, vec_len, vec_capacity};
ghost use Rattle.std.specs.Cmp.Lexicographic.{slice_cmp};
ghost use Rattle.std.specs.List.{AllByRecursion, AllWithin, starts_with};
ghost use Rattle.std.specs.Ordering.{is_lt, nat_cmp};
ghost use Rattle.std.specs.declared.cmp.Ordering.TheVariants.{Less};
ghost use Rattle.sdb_base.specs.Nibbles.{nibbles_of};
ghost use Rattle.trie_model.specs.Limits.{ChangesAreWithin, most_in_key, most_in_value};
ghost use Rattle.trie_change.specs.Changing.{IsLimitedSetting, settings_of};
ghost use Rattle.trie_change.specs.Frontier.{item_path};
ghost use Rattle.trie_change.specs.Item.{Item};
ghost use Rattle.trie_change.specs.inner.InOrder.{IsRising, begins_one, set_pairs};
ghost use Rattle.trie_change.specs.inner.LastSet.{set_all};
ghost use Rattle.trie_change.specs.inner.Merged.{HasBytes, IsBelowKey, IsMerged, IsMovedDown, set_item};
ghost use Rattle.trie_change.specs.inner.Pieces.{IsAside, IsBesideKey, all_items, back_items, piece_items};

use crate::frontier::{Entry, Path, Piece};
use crate::in_order::path_of;
use crate::nibbles::{nibbles_of_32, push_nibbles};
use sdb_base::{Bytes, Change, Changes, OutOfMemory};
use smallvec::SmallVec;
use std::alloc::Global;
use std::cmp::Ordering;
use std::collections::BTreeMap;

/// What a key is set to, None where it is deleted.
#[derive(Debug, Drop)]
pub(crate) struct Setting {
    /// The key in nibbles.
    pub(crate) path: Path,
    pub(crate) value: Option<Bytes>,
}

// A key in nibbles.
fn path_of_key(alloc: Global, key: &[u8]) -> Result<Path, OutOfMemory>
    ensures { IfOk result (λ p. p.items ≡ nibbles_of key.now) }
{
    if key.len() == 32 {
        return Ok(SmallVec::from_buf(alloc, nibbles_of_32(key)));
    }
    let mut path = SmallVec::new(alloc);
    push_nibbles(&mut path, key)?;
    Ok(path)
}

// What the items of a slice are. It runs nothing.
fn are_bytes(bytes: &[u8])
    ensures { All (λ b. b < 256) bytes.now }
{
    let _bytes = bytes;
}

// What a key is set to.
fn setting_of(alloc: Global, key: &[u8], value: Option<Bytes>) -> Result<Setting, OutOfMemory>
    requires key { length key.now ≤ most_in_key }
    requires value { IfSome value (λ v. length v ≤ most_in_value) }
    ensures path { IfOk result (λ s. s.path.items ≡ nibbles_of key.now) }
    ensures value { IfOk result (λ s. s.value ≡ value) }
    ensures limits { IfOk result IsLimitedSetting }
    ensures bytes { IfOk result HasBytes }
{
    are_bytes(key);
    let path = path_of_key(alloc, key)?;
    match value {
        None => Ok(Setting { path, value: None }),
        Some(value) => {
            are_bytes(value.as_slice());
            Ok(Setting {
                path,
                value: Some(value),
            })
        }
    }
}

// What each key is set to last.
fn last_of_each(
    alloc: Global,
    changes: Changes,
) -> Result<BTreeMap<Bytes, Option<Bytes>>, OutOfMemory>
    ensures { IfOk result (λ last. last.entries ≡ set_all [] changes) }
{
    let mut last = BTreeMap::new(alloc);
    for change in changes.into_vec() {
        let Change { key, value, .. } = change;
        last.insert(key, value)?;
    }
    Ok(last)
}

/// What changes set, by rising key: the last change of each key.
pub(crate) fn settings_of(alloc: Global, changes: Changes) -> Result<Vec<Setting>, OutOfMemory>
    requires { ChangesAreWithin changes }
    ensures settings { IfOk result (λ s. set_pairs s.items ≡ settings_of changes) }
    ensures limits { IfOk result (λ s. AllByRecursion IsLimitedSetting s.items) }
    ensures bytes { IfOk result (λ s. AllByRecursion HasBytes s.items) }
{
    let last = last_of_each(alloc, changes)?;
    let mut settings = Vec::with_capacity(alloc, last.len())?;
    for (key, value) in last {
        settings.push(setting_of(alloc, key.as_slice(), value)?)?;
    }
    Ok(settings)
}

// Whether a key comes before a path. Of most keys the first few nibbles tell it.
fn is_below(key: &[u8], path: &[u8]) -> bool
    ensures { result ≡ is_lt (slice_cmp nat_cmp key.now path.now) }
{
    let most = key.len().min(path.len());
    for i in 0..most {
        if key[i] != path[i] {
            return key[i] < path[i];
        }
    }
    key.len() < path.len()
}

// Whether a key begins with a path.
fn begins_with(key: &[u8], path: &[u8]) -> bool
    ensures { result ≡ starts_with nat_eq key.now path.now }
{
    if key.len() < path.len() {
        return false;
    }
    for i in 0..path.len() {
        if key[i] != path[i] {
            return false;
        }
    }
    true
}

// From which setting on none of these is below a path, at `at` or after it.
fn next_from(settings: &[Setting], at: usize, path: &[u8]) -> usize
    requires { at ≤ length settings.now }
    ensures from { at ≤ result }
    ensures bound { result ≤ length settings.now }
    ensures below { AllWithin (λ (s : Setting). is_lt (slice_cmp nat_cmp s.path.items path.now) ≡ true) settings.now at result }
    ensures stops { (s : Setting) → result < length settings.now
        → is_lt (slice_cmp nat_cmp (slice_index_or settings.now result s).path.items path.now) ≡ false }
{
    for i in at..settings.len() {
        if !is_below(settings[i].path.as_slice(), path) {
            return i;
        }
    }
    settings.len()
}

// From which setting on none is below a path. Where all before `at` are below it, few are looked at.
fn first_from(settings: &[Setting], at: usize, path: &[u8]) -> usize
    ensures bound { result ≤ length settings.now }
    ensures below { IsRising settings.now
        → AllWithin (λ (s : Setting). is_lt (slice_cmp nat_cmp s.path.items path.now) ≡ true) settings.now 0 result }
    ensures others { IsRising settings.now
        → AllWithin (λ (s : Setting). is_lt (slice_cmp nat_cmp s.path.items path.now) ≡ false) settings.now result (length settings.now) }
{
    if at == 0 {
        return next_from(settings, 0, path);
    }
    if at <= settings.len() {
        if is_below(settings[at - 1].path.as_slice(), path) {
            return next_from(settings, at, path);
        }
    }
    settings.partition_point(|setting| is_below(setting.path.as_slice(), path))
}

/// Whether a path begins a key that is set. Rising keys that begin with it lie together, after those below it; `at` is where
/// they were looked for last.
pub(crate) fn begins_a_key(settings: &[Setting], at: &mut usize, path: &[u8]) -> bool
    ensures { IsRising settings.now → result ≡ begins_one settings.now path.now }
{
    let first = first_from(settings, *at, path);
    *at = first;
    if first == settings.len() {
        return false;
    }
    begins_with(settings[first].path.as_slice(), path)
}

/// The nibbles with which keys that are set go on after a path; `at` is about where these keys are.
pub(crate) fn nibbles_set(settings: &[Setting], at: usize, end: &[u8]) -> [bool; 16]
    ensures { (n : ℕ) → IsRising settings.now → n < 16 → slice_index_or result n false ≡ begins_one settings.now (end.now ++ n ∷ []) }
{
    let mut set = [false; 16];
    let first = first_from(settings, at, end);
    for setting in &settings[first..] {
        let path = setting.path.as_slice();
        if !begins_with(path, end) {
            return set;
        }
        if let Some(nibble) = path.get(end.len()) {
            if *nibble < 16 {
                set[*nibble as usize] = true;
            }
        }
    }
    set
}

// How a path with one nibble more stands to a key.
fn child_order(end: &[u8], nibble: u8, key: &[u8]) -> Ordering
    ensures { result ≡ slice_cmp nat_cmp (end.now ++ nibble ∷ []) key.now }
{
    if key.len() > end.len() && key.starts_with(end) {
        match nibble.cmp(&key[end.len()]) {
            Ordering::Equal => {
                if key.len() == end.len() + 1 {
                    Ordering::Equal
                } else {
                    Ordering::Less
                }
            }
            other => other,
        }
    } else {
        match end.cmp(key) {
            Ordering::Equal => Ordering::Greater,
            other => other,
        }
    }
}

// How a piece stands to a key; of siblings the first one, and so all of them, between which there is no key that is set.
fn order(piece: &Piece, key: &[u8]) -> Ordering
    ensures all { IsBesideKey key.now piece.now
        → AllByRecursion (λ (i : Item). slice_cmp nat_cmp (item_path i) key.now ≡ result) (piece_items piece.now) }
    ensures some { result ≡ Less → piece_items piece.now ≡ [] → ⊥ }
{
    match piece {
        Piece::Siblings(siblings) => match siblings.nodes.as_slice().first() {
            Some(first) => child_order(siblings.end.as_slice(), first.nibble, key),
            None => Ordering::Greater,
        },
        one => path_of(one).cmp(key),
    }
}

// Moves the pieces above a key, and drops one of the key itself.
fn move_above(found: &mut Vec<Piece>, key: &[u8], later: &mut Vec<Piece>)
    requires { vec_len later.old + vec_len found.old ≤ vec_capacity later.old }
    ensures moved { AllByRecursion (IsBesideKey key.now) found.old.items
        → IsMovedDown key.now (all_items found.old.items) (back_items later.old.items) (all_items found.new.items) (back_items later.new.items) }
    ensures below { AllByRecursion (IsBesideKey key.now) found.old.items
        → (s : Setting) → s.path.items ≡ key.now → IsBelowKey s (reverse (all_items found.new.items)) }
    ensures apart { (settings : List Setting) → AllByRecursion (IsAside settings) found.old.items → AllByRecursion (IsAside settings) found.new.items }
    ensures room { vec_len later.new + vec_len found.new ≤ vec_len later.old + vec_len found.old }
    ensures capacity { vec_capacity later.new ≡ vec_capacity later.old }
    ensures found_capacity { vec_capacity found.new ≡ vec_capacity found.old }
{
    while let Some(piece) = found.pop() {
        match order(&piece, key) {
            Ordering::Less => {
                found.push_reserved(piece);
                return;
            }
            Ordering::Equal => {}
            Ordering::Greater => later.push_reserved(piece),
        }
    }
}

// Adds what a key is set to.
fn put_setting(setting: Setting, later: &mut Vec<Piece>)
    requires { vec_len later.old + 1 ≤ vec_capacity later.old }
    ensures items { back_items later.new.items ≡ back_items later.old.items ++ set_item setting setting.value }
    ensures room { vec_len later.new ≤ vec_len later.old + 1 }
    ensures capacity { vec_capacity later.new ≡ vec_capacity later.old }
{
    let Setting { path, value } = setting;
    if let Some(value) = value {
        later.push_reserved(Piece::Entry(Entry { path, value }));
    }
}

/// Moves all pieces, the last first.
pub(crate) fn move_all(found: &mut Vec<Piece>, later: &mut Vec<Piece>)
    requires { vec_len later.old + vec_len found.old ≤ vec_capacity later.old }
    ensures items { later.new.items ≡ later.old.items ++ reverse found.old.items }
    ensures len { vec_len later.new ≡ vec_len later.old + vec_len found.old }
    ensures none { found.new.items ≡ [] }
    ensures capacity { vec_capacity later.new ≡ vec_capacity later.old }
    ensures found_capacity { vec_capacity found.new ≡ vec_capacity found.old }
{
    while let Some(piece) = found.pop() {
        later.push_reserved(piece);
    }
}

/// Carries out what is set on rising pieces, of which siblings are apart from it. What comes of them goes to `later`, the last
/// first.
pub(crate) fn carry_out(settings: &mut Vec<Setting>, found: &mut Vec<Piece>, later: &mut Vec<Piece>)
    requires room { vec_len settings.old + vec_len found.old ≤ vec_capacity later.old }
    requires none { later.old.items ≡ [] }
    ensures merged { AllByRecursion (IsAside settings.old.items) found.old.items
        → IsMerged (reverse (all_items found.old.items)) (reverse settings.old.items) (back_items later.new.items) }
    ensures settings { settings.new.items ≡ [] }
    ensures found { found.new.items ≡ [] }
    ensures room { vec_len found.new + vec_len later.new ≤ vec_len settings.old + vec_len found.old }
    ensures found_capacity { vec_capacity found.new ≡ vec_capacity found.old }
{
    while let Some(setting) = settings.pop() {
        move_above(found, setting.path.as_slice(), later);
        put_setting(setting, later);
    }
    move_all(found, later);
}
