ghost use Rattle.std.specs.Prelude.{◌≡◌, ◌≤◌, ◌+◌, ◌<◌, ◌^◌, ◌-◌, length, is_err, IfErr, OnOk};
ghost use Rattle.sdb_io.specs.Faults.{CountsFault};

use crate::runs::{lines, on};
use pdb_disk::{Disk, DiskFault};
use pdb_memdisk::MemDisk;
use sdb_serve::{Mark, Outcome, Status};
use std::alloc::Global;
use std::test::*;

// A script, and its marks: the line, the disk's clock, the commits accepted, the commits flushed. `new` makes 89 writes, cuts and
// syncs, a record is one write, and flushing one log file is one sync.
const MARKED: [(&str, &str, &[(u64, u64, u64, u64)]); 5] = [
    ("", "", &[]),
    ("# c||new 3|", "new|", &[(3, 89, 0, 0)]),
    (
        "new 0|genesis 01 4|new 0|",
        "new|genesis|stop 3 line 3|",
        &[(1, 89, 0, 0)],
    ),
    (
        "new 0|genesis 01 4 aa=01|import 02 01 bb=02|log|flush|log|read 02 bb|import 03 01|flush|log|",
        "new|genesis|import 1|logged 1|flushed 1|logged 2|value 02|import 1|flushed 2|logged 3|",
        &[(1, 89, 0, 0), (5, 91, 2, 1), (9, 93, 3, 2)],
    ),
    // where nothing is logged, a flush has its mark too
    (
        "new 0|genesis 01 4|flush|",
        "new|genesis|flushed 0|",
        &[(1, 89, 0, 0), (3, 89, 1, 0)],
    ),
];

#[test]
fn marks_of_scripts(rt: HostRuntime) -> Result<(), Fail> {
    let alloc = rt.alloc();
    for (script, replies, marks) in MARKED {
        let (outcome, written) = on(alloc, &lines(alloc, script)?, MemDisk::new(alloc))?;
        assert_eq!(rt; written, lines(alloc, replies)?, "{script}");
        assert_eq!(rt; outcome.marks.len(), marks.len(), "{script}");
        for (mark, want) in outcome.marks.as_slice().iter().zip(marks) {
            let Mark {
                line,
                calls,
                accepted,
                flushed,
            } = *mark;
            assert_eq!(rt; (line, calls, accepted, flushed), *want, "{script}");
        }
    }
    Ok(())
}

// A second run finds the database of the first: it says so and makes no write, cut or sync.
#[test]
fn a_disk_with_a_database_is_left_as_it_is(rt: HostRuntime) -> Result<(), Fail> {
    let alloc = rt.alloc();
    let (first, _) = on(
        alloc,
        b"new 0\ngenesis 01 4 aa=01\nlog\n",
        MemDisk::new(alloc),
    )?;
    assert_eq!(rt; first.status, Status::Done);
    let calls = first.disk.calls();
    let (second, written) = on(alloc, b"\nnew 1\ngenesis 02 4\n", first.disk)?;
    let Outcome {
        status,
        disk,
        marks,
    } = second;
    assert_eq!(rt; status, Status::Occupied);
    assert_eq!(rt; written.as_slice(), b"stop 8\n".as_slice());
    assert_eq!(rt; disk.calls(), calls);
    assert_eq!(rt; marks.len(), 0);
    Ok(())
}

// The first block of a state with so many leaves under two digits and values of 33 bytes: a hashed node for each, for each first
// digit, and for the root.
fn wide(alloc: Global, leaves: u16) -> Result<Vec<u8>, Fail> {
    let mut script = Vec::from_slice(alloc, b"new 0\ngenesis 01 4")?;
    for leaf in 0..leaves {
        let change = format!(in alloc; " {leaf:02x}={leaf:066x}")?;
        script.extend_from_slice(change.as_bytes())?;
    }
    script.extend_from_slice(b"\nlog\nlog\nread 01 00\n")?;
    Ok(script)
}

// The nodes of the state, and what is written: an index of one chunk has room for 64.
const WIDE: [(u16, u8, &str); 2] = [
    (
        59,
        0,
        "new|genesis|logged 1|idle|value 000000000000000000000000000000000000000000000000000000000000000000|",
    ),
    (60, 10, "new|genesis|stop 10 0 0 0|"),
];

#[test]
fn a_commit_without_room_stops_a_run(rt: HostRuntime) -> Result<(), Fail> {
    let alloc = rt.alloc();
    for (leaves, code, replies) in WIDE {
        let (outcome, written) = on(alloc, &wide(alloc, leaves)?, MemDisk::new(alloc))?;
        assert_eq!(rt; written, lines(alloc, replies)?);
        assert_eq!(rt; outcome.status.code(), code);
    }
    Ok(())
}

// A disk whose file 16, the index of column 0, reads as bytes that are all 255.
#[derive(Drop)]
struct Garbled {
    inner: MemDisk,
}

impl Disk for Garbled {
    ghost use Rattle.std.specs.Prelude.{false, refl};
    ghost use Rattle.pdb_disk.specs.Files.{settled};
    ghost use Rattle.pdb_memdisk.specs.Memory.{clock_of, failed_by, reads_by};

    ghost tells = { λ d. false };

    ghost clock = { λ d. clock_of d.inner };

    ghost past = { λ d t j. settled (λ i. 0) };

    ghost fault_count = { λ d. failed_by d.inner };

    ghost read_count = { λ d. reads_by d.inner };

    ghost read_is_image = { λ d t told le j i spared. refl };

    fn read_at(&mut self, file: u16, at: u64, into: &mut [u8]) -> Result<(), DiskFault> {
        let read = self.inner.read_at(file, at, into);
        if file == 16 {
            into.fill(255);
        }
        read
    }

    fn write_at(&mut self, file: u16, at: u64, bytes: &[u8]) -> Result<(), DiskFault> {
        self.inner.write_at(file, at, bytes)
    }

    fn cut(&mut self, file: u16) -> Result<(), DiskFault> {
        self.inner.cut(file)
    }

    fn sync(&mut self, file: u16) -> Result<(), DiskFault> {
        self.inner.sync(file)
    }

    fn calls(&self) -> u64 {
        self.inner.calls()
    }

    fn reads(&self) -> u64 {
        self.inner.reads()
    }

    fn faults(&self) -> u64 {
        self.inner.faults()
    }
}

#[test]
fn a_damaged_cell_stops_a_run(rt: HostRuntime) -> Result<(), Fail> {
    let alloc = rt.alloc();
    let disk = Garbled {
        inner: MemDisk::new(alloc),
    };
    let (outcome, written) = on(alloc, b"new 0\ngenesis 01 4 aa=01\nread 01 aa\nlog\n", disk)?;
    assert_eq!(rt; outcome.status, Status::Damaged);
    assert_eq!(rt;
        written.as_slice(),
        b"new\ngenesis\nvalue 01\nstop 9 cell 16 0\n".as_slice()
    );
    Ok(())
}
