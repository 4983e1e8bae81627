ghost use Rattle.std.specs.Prelude.{◌≡◌, ◌++◌, ◌∷◌, [], map, IfOk, MatchOption};
ghost use Rattle.std.specs.List.{All};
ghost use Rattle.pdb_memdisk.specs.inner.Steps.{seen_in};

use crate::contents::FileSet;
use crate::memory::MemDisk;
use sdb_io::OutOfMemory;
use std::alloc::Global;
use std::marker::Model;

/// A list of disks, which are taken from its end.
#[derive(Drop)]
pub struct Disks {
    items: Vec<MemDisk>,
}

impl Model for Disks {
    ghost use Rattle.std.specs.Prelude.{List};
    ghost use Rattle.pdb_memdisk.specs.declared.memory.MemDisk.{MemDisk};

    ghost Value = { List MemDisk };

    ghost view = { λ s. s.items.items };
}

impl Disks {
    ghost use Rattle.pdb_memdisk.specs.Memory.{IsFresh, image_now};

    // Disks of these files.
    pub(crate) fn holding(alloc: Global, sets: Vec<FileSet>) -> Result<Disks, OutOfMemory>
        ensures fresh { IfOk result (All IsFresh) }
        ensures seen { IfOk result (λ ds. map image_now ds ≡ seen_in sets.items) }
    {
        let mut items = Vec::with_capacity(alloc, sets.len())?;
        for files in sets {
            items.push(MemDisk::holding(alloc, files)?)?;
        }
        Ok(Disks { items })
    }

    /// Takes the last disk; None where there is none.
    pub fn pop(&mut self) -> Option<MemDisk>
        ensures { MatchOption result ((self.old ≡ []) × (self.new ≡ [])) (λ last. self.old ≡ self.new ++ last ∷ []) }
    {
        self.items.pop()
    }
}
