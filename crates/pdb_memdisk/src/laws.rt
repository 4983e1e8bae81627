ghost use Rattle.std.specs.Prelude.{◌≡◌, ℕ, [], ◌∷◌};
ghost use Rattle.pdb_disk.specs.Files.{Step as step};
ghost use Rattle.pdb_memdisk.specs.Images.{steps_on, half, first_n, first_n_and_half, all_but_one};
ghost use Rattle.pdb_memdisk.specs.Memory.{now_of, pending_of};

use crate::memory::MemDisk;

/// The pending steps of a disk are, on each file, those since its last sync.
pub fn pending_steps_are_since_the_last_sync(_disk: &MemDisk)
    ensures { (j : ℕ) → steps_on j (pending_of _disk.now) ≡ (now_of _disk.now j).since }
{}

/// What a crash is listed to leave of a write of three bytes to file 4 and a cut of file 5: nothing, the write, or both;
/// the first byte of the write; the cut alone, or the write alone. Of a write of one byte the half is no byte.
pub fn known_outcomes()
    ensures first_n { first_n ((4, step.Write 9 (1 ∷ 2 ∷ 3 ∷ [])) ∷ (5, step.Cut) ∷ []) ≡ [] ∷ ((4, step.Write 9 (1 ∷ 2 ∷ 3 ∷ [])) ∷ [])
        ∷ ((4, step.Write 9 (1 ∷ 2 ∷ 3 ∷ [])) ∷ (5, step.Cut) ∷ []) ∷ [] }
    ensures first_n_and_half { first_n_and_half ((4, step.Write 9 (1 ∷ 2 ∷ 3 ∷ [])) ∷ (5, step.Cut) ∷ [])
        ≡ ((4, step.Write 9 (1 ∷ [])) ∷ []) ∷ [] }
    ensures after_the_cut { first_n_and_half ((5, step.Cut) ∷ (4, step.Write 9 (1 ∷ 2 ∷ 3 ∷ [])) ∷ [])
        ≡ ((5, step.Cut) ∷ (4, step.Write 9 (1 ∷ [])) ∷ []) ∷ [] }
    ensures all_but_one { all_but_one ((4, step.Write 9 (1 ∷ 2 ∷ 3 ∷ [])) ∷ (5, step.Cut) ∷ [])
        ≡ ((5, step.Cut) ∷ []) ∷ ((4, step.Write 9 (1 ∷ 2 ∷ 3 ∷ [])) ∷ []) ∷ [] }
    ensures one_byte { half (4, step.Write 9 (1 ∷ [])) ≡ (4, step.Write 9 []) ∷ [] }
    ensures on_one_file { steps_on 5 ((4, step.Write 9 (1 ∷ [])) ∷ (5, step.Cut) ∷ []) ≡ step.Cut ∷ [] }
{}
