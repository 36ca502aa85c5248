// What holds of every input, on the contract of a function.
ghost use Rattle.std.specs.Prelude.{◌≡◌, ℕ, List};
ghost use Rattle.rule_lines.specs.Lines.{names_in, text_in, InputSays};

// Every input is names with spaces between them and, behind a line end, a text; and it is so in one way only.
pub fn inputs_say_one_thing()
    ensures says { (bytes : List ℕ) → InputSays bytes (names_in bytes) (text_in bytes) }
    ensures names { (bytes : List ℕ) (names : List (List ℕ)) (text : List ℕ) → InputSays bytes names text → names_in bytes ≡ names }
    ensures text { (bytes : List ℕ) (names : List (List ℕ)) (text : List ℕ) → InputSays bytes names text → text_in bytes ≡ text }
{}
