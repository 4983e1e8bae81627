ghost use Rattle.std.specs.Prelude.{◌≡◌, ◌++◌, ◌∷◌, [], map, IfOk, OnOk};
ghost use Rattle.std.specs.List.{list_any};
ghost use Rattle.pdb_memdisk.specs.Contents.{image_of, all_settled};
ghost use Rattle.pdb_memdisk.specs.Record.{replayed, step_of};
ghost use Rattle.pdb_memdisk.specs.Images.{pending, syncs, image_after, half, first_n, first_n_and_half, all_but_one, listed, keeps_of};
ghost use Rattle.pdb_memdisk.specs.inner.Steps.{kept_step, placed_all, seen_in};

use crate::contents::FileSet;
use crate::record::{Action, Call, Change};
use sdb_io::OutOfMemory;
use std::alloc::Global;

// Whether one of the calls synced a file.
fn is_synced(file: u16, calls: &[Call]) -> bool
    ensures { result ≡ list_any (syncs file) calls.now }
{
    calls.iter().any(|call| call.syncs(file))
}

// Does a call's change again, if it was done and synced by a later call.
fn settle(
    alloc: Global,
    files: &mut FileSet,
    call: &Call,
    later: &[Call],
) -> Result<(), OutOfMemory>
    ensures { OnOk result (image_of files.new ≡ kept_step (image_of files.old) call.now later.now) }
{
    if let Action::Changes(change) = &call.action {
        if call.done && is_synced(call.file, later) {
            files.apply(alloc, call.file, change)?;
        }
    }
    Ok(())
}

/// What each file read at its last sync: `base`, and all changes that were done and synced after it.
pub fn kept_files(alloc: Global, base: &FileSet, calls: &[Call]) -> Result<FileSet, OutOfMemory>
    ensures { IfOk result (λ s. image_of s ≡ keeps_of (replayed (all_settled (image_of base.now)) calls.now)) }
{
    let mut files = base.copy(alloc)?;
    for (n, call) in calls.iter().enumerate() {
        settle(alloc, &mut files, call, &calls[n + 1..])?;
    }
    Ok(files)
}

/// The changes whose file wasn't synced after them, in order of calls, each with its file.
pub fn pending_changes<'a>(
    alloc: Global,
    calls: &'a [Call],
) -> Result<Vec<(u16, &'a Change)>, OutOfMemory>
    ensures { IfOk result (λ v. placed_all v.items ≡ pending calls.now) }
{
    let mut changes = Vec::new(alloc);
    for (n, call) in calls.iter().enumerate() {
        if let Action::Changes(change) = &call.action {
            if !is_synced(call.file, &calls[n + 1..]) {
                changes.push((call.file, change))?;
            }
        }
    }
    Ok(changes)
}

// Makes all these changes.
fn apply_all(
    alloc: Global,
    files: &mut FileSet,
    changes: &[(u16, &Change)],
) -> Result<(), OutOfMemory>
    ensures { OnOk result (image_of files.new ≡ image_after (image_of files.old) (placed_all changes.now)) }
{
    for change in changes {
        files.apply(alloc, change.0, change.1)?;
    }
    Ok(())
}

// Adds the files with half of a write's bytes, rounded down; nothing for a cut.
fn add_half(
    alloc: Global,
    files: &FileSet,
    file: u16,
    change: &Change,
    sets: &mut Vec<FileSet>,
) -> Result<(), OutOfMemory>
    ensures { OnOk result (seen_in sets.new.items ≡ seen_in sets.old.items
        ++ map (image_after (image_of files.now)) (map (λ q. q ∷ []) (half (file, step_of change.now)))) }
{
    if let Change::Write(at, bytes) = change {
        let mut torn = files.copy(alloc)?;
        torn.write(alloc, file, *at, &bytes[..bytes.len() / 2])?;
        sets.push(torn)?;
    }
    Ok(())
}

// Adds, for each n, the files with the first n changes made.
fn add_first_n(
    alloc: Global,
    kept: &FileSet,
    changes: &[(u16, &Change)],
    sets: &mut Vec<FileSet>,
) -> Result<(), OutOfMemory>
    ensures { OnOk result (seen_in sets.new.items ≡ seen_in sets.old.items
        ++ map (image_after (image_of kept.now)) (first_n (placed_all changes.now))) }
{
    let mut files = kept.copy(alloc)?;
    for change in changes {
        sets.push(files.copy(alloc)?)?;
        files.apply(alloc, change.0, change.1)?;
    }
    sets.push(files)?;
    Ok(())
}

// Adds, for each n where the next change is a write, the files with the first n made and half of that write.
fn add_first_n_and_half(
    alloc: Global,
    kept: &FileSet,
    changes: &[(u16, &Change)],
    sets: &mut Vec<FileSet>,
) -> Result<(), OutOfMemory>
    ensures { OnOk result (seen_in sets.new.items ≡ seen_in sets.old.items
        ++ map (image_after (image_of kept.now)) (first_n_and_half (placed_all changes.now))) }
{
    let mut files = kept.copy(alloc)?;
    for change in changes {
        add_half(alloc, &files, change.0, change.1, sets)?;
        files.apply(alloc, change.0, change.1)?;
    }
    Ok(())
}

// Adds, for each n, the files with all changes made but the n-th.
fn add_all_but_one(
    alloc: Global,
    kept: &FileSet,
    changes: &[(u16, &Change)],
    sets: &mut Vec<FileSet>,
) -> Result<(), OutOfMemory>
    ensures { OnOk result (seen_in sets.new.items ≡ seen_in sets.old.items
        ++ map (image_after (image_of kept.now)) (all_but_one (placed_all changes.now))) }
{
    let mut files = kept.copy(alloc)?;
    for (n, change) in changes.iter().enumerate() {
        let mut others = files.copy(alloc)?;
        apply_all(alloc, &mut others, &changes[n + 1..])?;
        sets.push(others)?;
        files.apply(alloc, change.0, change.1)?;
    }
    Ok(())
}

/// All files that a crash is listed to leave, in the order of the three kinds.
pub fn listed_sets(
    alloc: Global,
    kept: &FileSet,
    changes: &[(u16, &Change)],
) -> Result<Vec<FileSet>, OutOfMemory>
    ensures { IfOk result (λ v. seen_in v.items ≡ listed (image_of kept.now) (placed_all changes.now)) }
{
    let mut sets = Vec::new(alloc);
    add_first_n(alloc, kept, changes, &mut sets)?;
    add_first_n_and_half(alloc, kept, changes, &mut sets)?;
    add_all_but_one(alloc, kept, changes, &mut sets)?;
    Ok(sets)
}
