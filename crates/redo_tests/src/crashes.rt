use crate::rounds::one_put;
use pdb_disk::Disk;
use pdb_memdisk::MemDisk;
use pdb_recover::{OpenCause, recover};
use pdb_redo::Redo;
use sdb_base::OutOfMemory;
use std::alloc::Global;
use std::test::*;

// What a round that was stopped left: its disk, and whether `create` and `flush` had answered.
#[derive(Drop)]
struct Stopped {
    disk: MemDisk,
    created: bool,
    flushed: bool,
}

// A round with one record whose disk fails after so many calls.
fn stopped_round(alloc: Global, calls: u64) -> Result<Stopped, OutOfMemory> {
    let puts = one_put(alloc, 0xab)?;
    let mut disk = MemDisk::new(alloc);
    disk.fuse(calls);
    Ok(match Redo::create(alloc, disk, 0) {
        Ok(mut redo) => {
            let _ = redo.append(alloc, 1, puts);
            let flushed = redo.flush().is_ok();
            let _ = redo.enact();
            let _ = redo.enact();
            let _ = redo.clean();
            Stopped {
                disk: redo.into_disk(),
                created: true,
                flushed,
            }
        }
        Err(e) => Stopped {
            disk: e.disk,
            created: false,
            flushed: false,
        },
    })
}

// The number of commits that recovery finds.
fn commits(alloc: Global, disk: MemDisk) -> Result<u64, OpenCause> {
    match recover(alloc, disk) {
        Ok(found) => Ok(found.commits),
        Err(e) => Err(e.fault),
    }
}

// Opens a disk whose calls fail after so many, and opens what is left again.
fn opened_twice(alloc: Global, mut disk: MemDisk, calls: u64) -> Result<u64, OpenCause> {
    disk.fuse(calls);
    let mut left = match Redo::open(alloc, disk) {
        Ok(redo) => redo.into_disk(),
        Err(e) => e.disk,
    };
    left.fuse(u64::MAX);
    commits(alloc, left)
}

// Whether what an opening found is what there may be: the record or none, the record alone where `flush` had answered, and
// no database only where `create` hadn't.
fn may_be(found: Result<u64, OpenCause>, created: bool, flushed: bool) -> bool {
    match found {
        Ok(commits) => commits == 1 || commits == 0 && !flushed,
        Err(cause) => cause == OpenCause::NoDatabase && !created,
    }
}

// The same files once more: a disk with nothing pending has itself as its one image.
fn copied(alloc: Global, disk: &MemDisk) -> Result<MemDisk, Fail> {
    match disk.images(alloc)?.pop() {
        Some(copy) => Ok(copy),
        None => Err(Fail::new("no image")),
    }
}

// Whether an image opens as it may, at once and after an opening that was stopped at any of its 70 calls.
fn opens(alloc: Global, image: &MemDisk, at: &Stopped) -> Result<bool, Fail> {
    for calls in 0..71 {
        let found = opened_twice(alloc, copied(alloc, image)?, calls);
        if !may_be(found, at.created, at.flushed) {
            return Ok(false);
        }
    }
    Ok(true)
}

// How many images there are of what a stopped round left, each of which opens as it may.
fn images_that_open(alloc: Global, at: &Stopped) -> Result<u64, Fail> {
    let mut left = at.disk.images(alloc)?;
    for images in 0..u64::MAX {
        let Some(image) = left.pop() else {
            return Ok(images);
        };
        if !opens(alloc, &image, at)? {
            return Err(Fail::new("an image doesn't open"));
        }
    }
    Ok(u64::MAX)
}

// Creating makes 91 calls, and the round 8: one each to append, flush and enact, 5 to clean.
#[test]
fn every_image_of_a_stopped_round_opens(rt: HostRuntime) -> Result<(), Fail> {
    let mut images = 0u64;
    for calls in 0..100 {
        let at = stopped_round(rt.alloc(), calls)?;
        assert_eq!(rt; (at.created, at.flushed), (calls >= 91, calls >= 93));
        images = images.saturating_add(images_that_open(rt.alloc(), &at)?);
    }
    assert!(rt; images > 200);
    Ok(())
}
