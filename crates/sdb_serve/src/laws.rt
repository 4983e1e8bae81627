ghost use Rattle.std.specs.Prelude.{◌≡◌, ◌↔◌, ℕ, List, [], ◌∷◌, ◌++◌, codes, Some, None, IsTrue};
ghost use Rattle.sdb_base.specs.Pipeline.{Pipeline, StepsUncrowded};
ghost use Rattle.sdb_base.specs.declared.NodeHash.{NodeHash};
ghost use Rattle.sdb_base.specs.declared.numbers.StageAnswer.{StageAnswer};
ghost use Rattle.sdb_model.specs.Clear.{Clear};
ghost use Rattle.sdb_base.specs.declared.Counter.{Counter};
ghost use Rattle.sdb_serve.specs.Given.{Given};
ghost use Rattle.sdb_serve.specs.Marks.{MarksRise};
ghost use Rattle.sdb_serve.specs.Runs.{IsFirstBad, IsRun, IsScript, Run, last_line, usage_line};
ghost use Rattle.sdb_serve.specs.Session.{SessionState, first_session, play_line, play_lines};
ghost use Rattle.sdb_serve.specs.StageLines.{IsInOrder, after_stage, stage_answered, stage_reply};
ghost use Rattle.sdb_serve.specs.Statuses.{status_code, status_of};

use crate::cause::Cause;

/// An input has one first bad line, or none where it is a script.
pub fn first_bad_line_is_one()
    ensures one { (g : Given) (input : List ℕ) (m n : ℕ) → IsFirstBad g input m → IsFirstBad g input n → m ≡ n }
    ensures none { (g : Given) (input : List ℕ) (n : ℕ) → IsScript g input → IsFirstBad g input n → ⊥ }
{}

/// Where the disk tells its content and no two different nodes of the states of a run's blocks have one hash, its replies are
/// those of the plain player of lines, and so is what is known after it.
pub fn a_clear_run_is_the_models()
    ensures { (g : Given) (r : Run) (input : List ℕ) → IsRun g r input → IsTrue g.told → Clear r.at.session.blocks
        → play_lines first_session r.lines ≡ Some (r.replies, r.at.session) }
{}

/// Where no more records are flushed than wait, and no more commits logged than were accepted, a stage line is answered as the
/// stage of a pipeline answers where no index is ever without room, and leaves what that leaves.
pub fn a_stage_has_one_answer()
    ensures { (p q : Pipeline) (answer : StageAnswer) → IsInOrder p → StepsUncrowded p answer q
        ↔ ((answer ≡ stage_reply p (stage_answered answer)) × (q ≡ after_stage p (stage_answered answer))) }
{}

/// So it is after each run.
pub fn commits_come_in_order()
    ensures { (g : Given) (r : Run) (input : List ℕ) → IsRun g r input → IsInOrder r.at.session.pipeline }
{}

/// The marks of a run are of rising lines, none beyond those that it has read; their clocks don't fall, none is above the disk's
/// clock then, and no mark has more flushed commits than accepted ones.
pub fn marks_rise()
    ensures { (g : Given) (r : Run) (input : List ℕ) → IsRun g r input → MarksRise 0 g.clock r.at.lines r.at.clock r.at.marks }
{}

/// A script may have 1,099,511,627,776 bytes: an empty line, of one byte, is answered where it is the last of them, and
/// not after it.
pub fn a_script_has_its_most_bytes()
    ensures last { (s : SessionState) → play_line (record s { read = 1099511627775 }) [] ≡ Some ([], record s { read = 1099511627776 }) }
    ensures one_more { (s : SessionState) → play_line (record s { read = 1099511627776 }) [] ≡ None }
{}

/// How a run ends for each cause, after 6 lines that were answered: its exit status and its last line.
pub fn known_ends()
    ensures end { (status_code (status_of Cause.End) ≡ 0) × (last_line Cause.End 6 ≡ []) }
    // "stop 3 line 7"
    ensures bad_line { (status_code (status_of Cause.BadLine) ≡ 3) × (last_line Cause.BadLine 6
        ≡ (115 ∷ 116 ∷ 111 ∷ 112 ∷ 32 ∷ 51 ∷ 32 ∷ 108 ∷ 105 ∷ 110 ∷ 101 ∷ 32 ∷ 55 ∷ 10 ∷ []) ∷ []) }
    // "stop 4", "stop 11" and "stop 2"
    ensures source { (status_code (status_of Cause.Source) ≡ 4) × (last_line Cause.Source 6
        ≡ (115 ∷ 116 ∷ 111 ∷ 112 ∷ 32 ∷ 52 ∷ 10 ∷ []) ∷ []) }
    ensures memory { (status_code (status_of Cause.Memory) ≡ 11) × (last_line Cause.Memory 6
        ≡ (115 ∷ 116 ∷ 111 ∷ 112 ∷ 32 ∷ 49 ∷ 49 ∷ 10 ∷ []) ∷ []) }
    // each digit is high in one byte and low in another
    ensures bad_node { (hash : NodeHash)
        → hash.0 ≡ 15 ∷ 30 ∷ 45 ∷ 60 ∷ 75 ∷ 90 ∷ 105 ∷ 120 ∷ 135 ∷ 150 ∷ 165 ∷ 180 ∷ 195 ∷ 210 ∷ 225 ∷ 240
        ∷ 0 ∷ 17 ∷ 34 ∷ 51 ∷ 68 ∷ 85 ∷ 102 ∷ 119 ∷ 136 ∷ 153 ∷ 170 ∷ 187 ∷ 204 ∷ 221 ∷ 238 ∷ 255 ∷ []
        → (status_code (status_of (Cause.BadNode hash)) ≡ 9) × (last_line (Cause.BadNode hash) 6
        ≡ (codes "stop 9 node 0f1e2d3c4b5a69788796a5b4c3d2e1f000112233445566778899aabbccddeeff" ++ 10 ∷ []) ∷ []) }
    // "stop 6" and "stop 8"
    ensures disk { (status_code (status_of Cause.Disk) ≡ 6) × (last_line Cause.Disk 6
        ≡ (115 ∷ 116 ∷ 111 ∷ 112 ∷ 32 ∷ 54 ∷ 10 ∷ []) ∷ []) }
    ensures occupied { (status_code (status_of Cause.Occupied) ≡ 8) × (last_line Cause.Occupied 6
        ≡ (115 ∷ 116 ∷ 111 ∷ 112 ∷ 32 ∷ 56 ∷ 10 ∷ []) ∷ []) }
    ensures bad_cell { (status_code (status_of (Cause.BadCell 23 4294967295)) ≡ 9)
        × (last_line (Cause.BadCell 23 4294967295) 6 ≡ (codes "stop 9 cell 23 4294967295" ++ 10 ∷ []) ∷ []) }
    ensures index_full { (status_code (status_of (Cause.IndexFull 1 16 65535)) ≡ 10)
        × (last_line (Cause.IndexFull 1 16 65535) 6 ≡ (codes "stop 10 1 16 65535" ++ 10 ∷ []) ∷ []) }
    ensures tier_full { (status_code (status_of (Cause.TierFull 0 15)) ≡ 12)
        × (last_line (Cause.TierFull 0 15) 6 ≡ (codes "stop 12 0 15" ++ 10 ∷ []) ∷ []) }
    ensures numbers_end { (status_code (status_of (Cause.NumbersEnd Counter.Gates)) ≡ 13)
        × (last_line (Cause.NumbersEnd Counter.Commits) 6 ≡ (codes "stop 13 commits" ++ 10 ∷ []) ∷ [])
        × (last_line (Cause.NumbersEnd Counter.Records) 6 ≡ (codes "stop 13 records" ++ 10 ∷ []) ∷ [])
        × (last_line (Cause.NumbersEnd Counter.Gates) 6 ≡ (codes "stop 13 gates" ++ 10 ∷ []) ∷ [])
        × (last_line (Cause.NumbersEnd Counter.LogBytes) 6 ≡ (codes "stop 13 log" ++ 10 ∷ []) ∷ []) }
    ensures usage { usage_line ≡ 115 ∷ 116 ∷ 111 ∷ 112 ∷ 32 ∷ 50 ∷ 10 ∷ [] }
{}
