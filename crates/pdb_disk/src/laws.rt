ghost use Rattle.std.specs.Prelude.{◌≡◌, ◌-◌, ◌^◌, ◌==◌, ℕ, Bool, IsTrue, [], ◌∷◌, if◌then◌else◌};
ghost use Rattle.pdb_disk.specs.Files.{FileBytes, FileState, Files, Step, Elapses, Begins, MayBegin, Settles, Spares, IsFileImage, IsImage, StandsAt, done, reads_of, settled};
ghost use Rattle.pdb_disk.specs.Files.{Step as step};
ghost use Rattle.pdb_disk.specs.Moments.{Moments};

/// A write of two bytes at place 3 changes the places 3 and 4 and no place beside them; a cut leaves zeros everywhere.
pub fn known_steps()
    ensures written { let c = done (λ i. 7) (step.Write 3 (1 ∷ 2 ∷ [])) in (c 2 ≡ 7) × (c 3 ≡ 1) × (c 4 ≡ 2) × (c 5 ≡ 7) }
    ensures beside { let s = step.Write 3 (1 ∷ 2 ∷ []) in Spares s 2 × Spares s 5 }
    ensures covered { let s = step.Write 3 (1 ∷ 2 ∷ []) in (¬ Spares s 3) × (¬ Spares s 4) }
    ensures nothing { let s = step.Write 3 [] in (i : ℕ) → Spares s i }
    ensures cut { (i : ℕ) → (done (λ j. 7) step.Cut i ≡ 0) × (¬ Spares step.Cut i) }
    ensures shown { StandsAt (done (λ i. 7) (step.Write 3 (1 ∷ 2 ∷ []))) 2 (7 ∷ 1 ∷ 2 ∷ 7 ∷ []) }
    ensures not_shown { ¬ StandsAt (done (λ i. 7) (step.Write 3 (1 ∷ 2 ∷ []))) 2 (1 ∷ []) }
{}

/// After a failed write of two bytes at place 3 to file 0, all files being sevens, a read gives any bytes at the places 3
/// and 4, so the written ones, one of them or none, and sevens elsewhere and in all other files.
pub fn known_faults()
    ensures torn { (x y : ℕ) → MayBegin 0 (step.Write 3 (1 ∷ 2 ∷ [])) (λ j. settled (λ i. 7))
        (λ j. if j == 0 then record {
          read = done (λ i. 7) (step.Write 3 (x ∷ y ∷ []));
          kept = λ i. 7;
          since = step.Write 3 (1 ∷ 2 ∷ []) ∷ [];
        }
        else settled (λ i. 7)) }
    ensures beside { (new : Files) → MayBegin 0 (step.Write 3 (1 ∷ 2 ∷ [])) (λ j. settled (λ i. 7)) new
        → ((new 0).read 2 ≡ 7) × ((new 0).read 5 ≡ 7) × ((new 1).read 3 ≡ 7) }
{}

/// At the clock's last value a call raises it no more and changes nothing; at the value before it still does.
pub fn known_clocks()
    ensures last { (now : ℕ) (past since : ℕ → Files) → Elapses (2 ^ 64 - 1) now past since
        → (now ≡ 2 ^ 64 - 1) × (since now ≡ past now) }
    ensures before_last { (now : ℕ) (past since : ℕ → Files) → Elapses (2 ^ 64 - 2) now past since → now ≡ 2 ^ 64 - 1 }
{}

/// What a crash may leave of a file of sevens after a write of two bytes at place 3: the bytes done, one of them, none or
/// others there, and sevens elsewhere. After a sync it leaves what is read.
pub fn known_images()
    ensures pending { (x y : ℕ) → IsFileImage (record { read = λ i. 7; kept = λ i. 7; since = step.Write 3 (1 ∷ 2 ∷ []) ∷ [] })
        (done (λ i. 7) (step.Write 3 (x ∷ y ∷ []))) }
    ensures beside { (c : FileBytes) → IsFileImage (record { read = λ i. 7; kept = λ i. 7; since = step.Write 3 (1 ∷ 2 ∷ []) ∷ [] }) c
        → (c 2 ≡ 7) × (c 5 ≡ 7) }
    ensures cut { (c d : FileBytes) → IsFileImage (record { read = c; kept = c; since = step.Cut ∷ [] }) d }
    ensures settled { (c d : FileBytes) → IsFileImage (settled c) d → (i : ℕ) → d i ≡ c i }
    ensures synced { (file : ℕ) (old new : Files) (c : FileBytes) → Settles file old new → IsFileImage (new file) c
        → (i : ℕ) → c i ≡ (old file).read i }
{}

/// A step that is begun, and a sync, keep it that what is read is what a crash may leave.
pub fn what_is_read_is_an_image()
    ensures begun { (file : ℕ) (s : Step) (old new : Files) → Begins file s old new
        → IsImage old (reads_of old) → IsImage new (reads_of new) }
    ensures synced { (file : ℕ) (old new : Files) → Settles file old new
        → IsImage old (reads_of old) → IsImage new (reads_of new) }
{}

/// What holds at every moment of each call holds at every moment of the calls together. It is stated for what a test
/// decides; the lemmas of the same names in `proofs/Calls` have it for any statement.
pub fn moments_compose()
    ensures no_call { (t : ℕ) (past : ℕ → Files) (p : Files → Bool) → IsTrue (p (past t))
        → Moments t t past past (λ fs. IsTrue (p fs)) }
    ensures one_call { (before now : ℕ) (past since : ℕ → Files) (p : Files → Bool) → Elapses before now past since
        → IsTrue (p (past before)) → IsTrue (p (since now)) → Moments before now past since (λ fs. IsTrue (p fs)) }
    ensures joined { (a b c : ℕ) (past mid since : ℕ → Files) (p : Files → Bool) → Moments a b past mid (λ fs. IsTrue (p fs))
        → Moments b c mid since (λ fs. IsTrue (p fs)) → Moments a c past since (λ fs. IsTrue (p fs)) }
    ensures at_end { (a b : ℕ) (past since : ℕ → Files) (p : Files → Bool) → Moments a b past since (λ fs. IsTrue (p fs))
        → IsTrue (p (since b)) }
    ensures weaker { (a b : ℕ) (past since : ℕ → Files) (p q : Files → Bool) → Moments a b past since (λ fs. IsTrue (p fs))
        → ((fs : Files) → IsTrue (p fs) → IsTrue (q fs)) → Moments a b past since (λ fs. IsTrue (q fs)) }
{}

/// What holds before a call, and of the files as the call leaves them, holds at every moment of it: after a write or a cut
/// that was answered or failed, a sync that was answered or failed, and a call that takes no time.
pub fn each_call_has_moments()
    ensures begun { (before now : ℕ) (past since : ℕ → Files) (p : Files → Bool) (file : ℕ) (s : Step)
        → Elapses before now past since → Begins file s (past before) (since now) → IsTrue (p (past before))
        → ((new : Files) → Begins file s (past before) new → IsTrue (p new)) → Moments before now past since (λ fs. IsTrue (p fs)) }
    ensures maybe_begun { (before now : ℕ) (past since : ℕ → Files) (p : Files → Bool) (file : ℕ) (s : Step)
        → Elapses before now past since → MayBegin file s (past before) (since now) → IsTrue (p (past before))
        → ((new : Files) → Begins file s (past before) new → IsTrue (p new)) → Moments before now past since (λ fs. IsTrue (p fs)) }
    ensures synced { (before now : ℕ) (past since : ℕ → Files) (p : Files → Bool) (file : ℕ)
        → Elapses before now past since → Settles file (past before) (since now) → IsTrue (p (past before))
        → ((new : Files) → Settles file (past before) new → IsTrue (p new)) → Moments before now past since (λ fs. IsTrue (p fs)) }
    ensures unsynced { (before now : ℕ) (past since : ℕ → Files) (p : Files → Bool) → Elapses before now past since
        → since now ≡ past before → IsTrue (p (past before)) → Moments before now past since (λ fs. IsTrue (p fs)) }
    ensures no_time { (before now : ℕ) (past since : ℕ → Files) (p : Files → Bool) → now ≡ before → since ≡ past
        → IsTrue (p (past before)) → Moments before now past since (λ fs. IsTrue (p fs)) }
{}
