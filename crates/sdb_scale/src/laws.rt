ghost use Rattle.std.specs.Prelude.{◌≡◌, ℕ, ◌^◌, ◌<◌, ◌≤◌, ◌++◌, List, length};
ghost use Rattle.sdb_scale.specs.Compact.{Spells, compact};

/// No spelling begins another, so what was written is read again, whatever follows it.
pub fn no_spelling_begins_another()
    ensures { (m n : ℕ) (x y : List ℕ) → m < 2 ^ 30 → n < 2 ^ 30 → compact m ++ x ≡ compact n ++ y
        → (m ≡ n) × (x ≡ y) }
{}

/// Of all ways to spell a number in the three modes, its spelling is the shortest, and no other is as
/// short.
pub fn spelling_is_the_shortest()
    ensures spells { (n : ℕ) → n < 2 ^ 30 → Spells (compact n) n }
    ensures shortest { (n : ℕ) (bytes : List ℕ) → Spells bytes n → length (compact n) ≤ length bytes }
    ensures only { (n : ℕ) (bytes : List ℕ) → Spells bytes n → length bytes ≡ length (compact n)
        → bytes ≡ compact n }
{}
