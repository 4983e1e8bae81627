use crate::databases::{byte_of, carry, commit, created, node_key, nodes, opened};
use pdb_disk::Disk;
use pdb_memdisk::MemDisk;
use pdb_pipe::{CreateCause, Database, OpenCause};
use sdb_base::{Keeper, Numbers};
use std::alloc::Global;
use std::test::*;

// The disk of a database with two commits, of a node each, which it carried through so many stages.
fn carried(alloc: Global, stages: u8) -> Result<MemDisk, Fail> {
    let mut database = created(alloc, MemDisk::new(alloc))?;
    for first in 1..3u8 {
        let _ = commit(&mut database, nodes(alloc, first, 1)?)?;
    }
    carry(&mut database, stages)?;
    Ok(database.into_disk())
}

// Each of the numbers begins with the commits that are found, wherever these had come.
#[test]
fn numbers_begin_with_the_commits_found(rt: HostRuntime) -> Result<(), Fail> {
    for (stages, found) in [(0u8, 0u64), (1, 2), (2, 2), (3, 2), (4, 2)] {
        let database = opened(rt.alloc(), carried(rt.alloc(), stages)?)?;
        let numbers = Numbers {
            accepted: found,
            logged: found,
            flushed: found,
            enacted: found,
            cleaned: found,
        };
        assert_eq!(rt; database.numbers(), numbers);
    }
    Ok(())
}

// A disk that holds two commits and was handed back by an opening, of whose calls this one and all later ones failed.
fn handed_back(alloc: Global, call: u64) -> Result<MemDisk, Fail> {
    let mut disk = carried(alloc, 2)?;
    disk.fuse(
        disk.calls()
            .saturating_add(disk.reads())
            .saturating_add(call),
    );
    match Database::open(alloc, disk) {
        Ok(_) => Err(Fail::new("opened")),
        Err(refused) => match refused.fault {
            OpenCause::Disk(_) => Ok(refused.disk),
            _ => Err(Fail::new("another cause")),
        },
    }
}

// The calls are the first and the last sync, and the first read of a gate. Once its calls don't fail, the disk is opened.
#[test]
fn a_refused_opening_hands_the_disk_back(rt: HostRuntime) -> Result<(), Fail> {
    for call in [0u64, 41, 42] {
        let mut disk = handed_back(rt.alloc(), call)?;
        disk.fuse(u64::MAX);
        let mut database = opened(rt.alloc(), disk)?;
        assert_eq!(rt; database.numbers().accepted, 2);
        assert_eq!(rt; byte_of(database.node(&node_key(2, 0)))?, Some(0));
    }
    Ok(())
}

// A disk with a database isn't made one anew, and is handed back.
#[test]
fn a_database_isnt_made_twice(rt: HostRuntime) -> Result<(), Fail> {
    let disk = created(rt.alloc(), MemDisk::new(rt.alloc()))?.into_disk();
    let calls = disk.calls();
    let Err(refused) = Database::create(rt.alloc(), disk, 4) else {
        return Err(Fail::new("made twice"));
    };
    assert_eq!(rt; refused.fault, CreateCause::Occupied);
    assert_eq!(rt; refused.disk.calls(), calls);
    Ok(())
}

// A disk without a gate has no database.
#[test]
fn an_empty_disk_isnt_opened(rt: HostRuntime) -> Result<(), Fail> {
    let Err(refused) = Database::open(rt.alloc(), MemDisk::new(rt.alloc())) else {
        return Err(Fail::new("opened"));
    };
    assert_eq!(rt; refused.fault, OpenCause::NoDatabase);
    Ok(())
}
