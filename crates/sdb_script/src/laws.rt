ghost use Rattle.std.specs.Prelude.{◌≡◌, ℕ, ◌<◌, ◌≤◌, ◌^◌, ◌++◌, List, [], ◌∷◌, Some, None, length, codes, map, replicate};
ghost use Rattle.std.specs.Fmt.{decimal};
ghost use Rattle.sdb_model.specs.declared.Task.TheVariants as tasks;
ghost use Rattle.sdb_script.specs.declared.line.Line.TheVariants as lines;
ghost use Rattle.sdb_script.specs.declared.line.Line.{Line};
ghost use Rattle.sdb_script.specs.declared.stage.Stage.TheVariants as stages;
ghost use Rattle.sdb_script.specs.Grammar.{line_of, most_in_line};
ghost use Rattle.sdb_script.specs.LineTexts.{line_text, IsWithin};
ghost use Rattle.sdb_script.specs.Numbers.{number_spelled};

/// Texts whose lines are known.
pub fn known_lines()
    ensures blank { map line_of ([] ∷ codes "# note" ∷ []) ≡ replicate 2 (Some lines.Blank) }
    ensures new { line_of (codes "new 0") ≡ Some (lines.New 0) }
    ensures genesis { line_of (codes "genesis 00Ff 4096") ≡ Some (lines.Genesis 4096 (record {
      id = record { 0 = replicate 30 0 ++ 0 ∷ 255 ∷ [] };
      parent = record { 0 = replicate 32 0 };
      changes = [];
      version = 0;
    })) }
    ensures import { line_of (codes "import 02 01 aa=01 bb! cc=-") ≡ Some (lines.Job (tasks.Import (record {
      id = record { 0 = replicate 31 0 ++ 2 ∷ [] };
      parent = record { 0 = replicate 31 0 ++ 1 ∷ [] };
      changes = record { trie = []; key = 170 ∷ []; value = Some (1 ∷ []) }
          ∷ record { trie = []; key = 187 ∷ []; value = None }
          ∷ record { trie = []; key = 204 ∷ []; value = Some [] }
          ∷ [];
      version = 0;
    }))) }
    ensures read { line_of (codes "read 01 aA")
        ≡ Some (lines.Job (tasks.Read (record { 0 = replicate 31 0 ++ 1 ∷ [] }) (170 ∷ []))) }
    ensures next { map line_of (codes "next 01 aA" ∷ codes "next 0a -" ∷ []) ≡
        Some (lines.Job (tasks.Next (record { 0 = replicate 31 0 ++ 1 ∷ [] }) (170 ∷ [])))
        ∷ Some (lines.Job (tasks.Next (record { 0 = replicate 31 0 ++ 10 ∷ [] }) []))
        ∷ [] }
    ensures list { map line_of (codes "list 01 00fF" ∷ codes "list 0a -" ∷ []) ≡
        Some (lines.Job (tasks.List (record { 0 = replicate 31 0 ++ 1 ∷ [] }) (0 ∷ 255 ∷ [])))
        ∷ Some (lines.Job (tasks.List (record { 0 = replicate 31 0 ++ 10 ∷ [] }) []))
        ∷ [] }
    ensures root { line_of (codes "root 0a")
        ≡ Some (lines.Job (tasks.Root (record { 0 = replicate 31 0 ++ 10 ∷ [] }))) }
    ensures stages { map line_of (codes "log" ∷ codes "flush" ∷ codes "enact" ∷ codes "clean" ∷ codes "grow" ∷ [])
        ≡ map (λ stage. Some (lines.Stage stage)) (stages.Log ∷ stages.Flush ∷ stages.Enact ∷ stages.Clean ∷ stages.Grow ∷ []) }
    ensures none { map line_of (
        codes "new 00" ∷ codes "new 17" ∷ codes "new" ∷ codes "new 1 " ∷ codes "New 1"
        ∷ codes "read 01 a" ∷ codes "read 01  aa" ∷ codes "read 01 aa " ∷ codes "read  aa" ∷ codes "read 1 aa"
        ∷ codes "import 02 01 aa=" ∷ codes "import 02 01 !" ∷ codes "import 02 01 =01" ∷ codes "import 02 01 aa!!"
        ∷ codes "genesis 01 0" ∷ codes "genesis 01 4097" ∷ codes "canon 01"
        ∷ codes "read 000000000000000000000000000000000000000000000000000000000000000001 aa"
        ∷ codes "next 01 a" ∷ codes "next 01 aaa" ∷ codes "next 01 aa bb" ∷ codes "next 01" ∷ codes "next - aa"
        ∷ codes "list 01 a" ∷ codes "list 01 aaa" ∷ codes "list 01 aa bb" ∷ codes "list 01" ∷ codes "list 01 "
        ∷ codes "lists 01 aa"
        ∷ codes "root" ∷ codes "root 01 aa" ∷ codes "root 1"
        ∷ codes "log " ∷ codes "Log" ∷ codes "logs" ∷ codes "log x" ∷ codes "flush log" ∷ codes " grow"
        ∷ []
        ) ≡ replicate 38 None }
{}

/// A number is spelled by its decimal digits and by no other word.
pub fn numbers_are_decimals()
    ensures read { (n : ℕ) → n < 2 ^ 64 → number_spelled (decimal n) ≡ Some n }
    ensures only { (w : List ℕ) (n : ℕ) → n < 2 ^ 64 → number_spelled w ≡ Some n → w ≡ decimal n }
{}

/// A text's line keeps the limits of the language.
pub fn lines_keep_the_limits()
    ensures { (text : List ℕ) (line : Line) → line_of text ≡ Some line → IsWithin line }
{}

/// Each line within the limits has a text, which is read as that line.
pub fn lines_are_read_as_written()
    ensures { (line : Line) → IsWithin line → length (line_text line) ≤ most_in_line
        → line_of (line_text line) ≡ Some line }
{}
