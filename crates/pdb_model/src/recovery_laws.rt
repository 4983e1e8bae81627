ghost use Rattle.std.specs.Prelude.{◌≡◌, ◌≤◌, ◌+◌, ℕ, List, [], ◌∷◌, length, take};
ghost use Rattle.pdb_disk.specs.Files.{FileBytes, Files, Image};
ghost use Rattle.pdb_model.specs.Logs.{IsFound, IsGate, IsLogFile, IsScanned, StandsWhole, gate_file};
ghost use Rattle.pdb_model.specs.Records.{Record, record_bytes};
ghost use Rattle.pdb_model.specs.Recovery.{Laid, Row, Safe, cells_of_files, commits_after};
ghost use Rattle.pdb_model.specs.declared.gate_slot.GateSlot.{GateSlot};

/// A scan comes to no record of a file whose first byte is zero, whatever stands after it: a stale record behind zeros isn't
/// found.
pub fn zeros_end_a_log()
    ensures { (c : FileBytes) (r : Record) → c 0 ≡ 0 → IsScanned c r → ⊥ }
{}

/// A scan comes to the record at a file's front, and to one right after it that has the next number.
pub fn a_scan_follows_the_numbers()
    ensures first { (c : FileBytes) (r : Record) → StandsWhole c 0 r → IsScanned c r }
    ensures second { (c : FileBytes) (r s : Record) → StandsWhole c 0 r → StandsWhole c (length (record_bytes r)) s
        → s.number ≡ r.number + 1 → IsScanned c s }
{}

/// Of two log files with a record of one number the lower one's counts.
pub fn the_lower_file_counts()
    ensures counts { (x : Image) (r : Record) → IsScanned (x 1) r → IsFound x r }
    ensures no_other { (x : Image) (r s : Record) → IsScanned (x 1) r → s.number ≡ r.number → (found : IsFound x s) → found.file ≡ 1 }
{}

/// Where a gate is whole and each log file begins with a zero, recovery takes no record, and the cells are those of the files.
pub fn empty_logs_leave_the_cells()
    ensures { (x : Image) (g : GateSlot) → IsGate (x gate_file) g → ((j : ℕ) → IsLogFile j → x j 0 ≡ 0)
        → Laid x (record { cells = cells_of_files x; commits = g.commits }) }
{}

/// What is safe up to a place of the rows is safe up to each earlier one.
pub fn an_earlier_place_asks_less()
    ensures { (rows : List Row) (f g : ℕ) (fs : Files) → g ≤ f → Safe rows f fs → Safe rows g fs }
{}

/// Where cells lie in a file, and how many commits records make, computed.
pub fn known_cells_of_files()
    ensures begins { take 2 (cells_of_files (λ file i. i) 18 1) ≡ 64 ∷ (65 ∷ []) }
    ensures sized { (length (cells_of_files (λ file i. i) 18 1) ≡ 64) × (length (cells_of_files (λ file i. i) 9 0) ≡ 256) × (cells_of_files (λ file i. i) 1 0 ≡ []) }
    ensures commits { (commits_after 5 [] ≡ 5) × (commits_after 5 (record { number = 1; commits = 6; puts = [] } ∷ (record { number = 2; commits = 9; puts = [] } ∷ [])) ≡ 9) }
{}
