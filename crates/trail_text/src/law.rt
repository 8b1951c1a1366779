ghost use Rattle.std.specs.Prelude.{◌≡◌, ◌↔◌, ◌+◌, ◌++◌, ◌∷◌, [], IsTrue, List, None, Some};
ghost use Rattle.std.specs.Prelude.{is_some, length, ℕ};
ghost use Rattle.std.specs.List.{AllByRecursion};
ghost use Rattle.opening_lines.specs.declared.opening.Opening.{Opening};
ghost use Rattle.scm_lines.specs.Entries.{HasLine};
ghost use Rattle.scm_model.specs.Entries.{Entry};
ghost use Rattle.scm_replay.specs.Replay.{IsOneLine};
ghost use Rattle.scm_rules.specs.Histories.{Legal};
ghost use Rattle.trail_text.specs.Audits.{entries_told, reached};
ghost use Rattle.trail_text.specs.Histories.{BeginsTold, IsFirstWrong, IsStart, TellsLegal};
ghost use Rattle.trail_text.specs.Histories.{ended, first_of, told, told_lines};

/// Some lines begin the text of a legal history exactly if each of them may come after those before
/// it. So the first line that may not come is the first wrong one, whatever comes after it.
pub fn lines_are_judged()
    ensures right { (lines : List (List ℕ)) → BeginsTold lines ↔ IsTrue (is_some (reached lines)) }
    ensures wrong { (front rest : List (List ℕ)) (line : List ℕ)
        → IsTrue (is_some (reached front)) → reached (front ++ line ∷ []) ≡ None
        → IsFirstWrong (length front + 1) (front ++ line ∷ rest) }
    ensures fronts { (front rest : List (List ℕ))
        → IsTrue (is_some (reached (front ++ rest))) → IsTrue (is_some (reached front)) }
{}

/// Lines after which a text may end tell a legal history, with as many entries as are counted. No
/// other text tells one: its lines are such lines, and nothing comes after its last line feed.
pub fn texts_are_judged()
    ensures whole { (lines : List (List ℕ)) (entries : ℕ) → entries_told lines ≡ Some entries
        → (o : Opening) × (h : List Entry) × (length h ≡ entries) × TellsLegal o h (ended lines) }
    ensures counted { (lines : List (List ℕ)) (rest : List ℕ) (o : Opening) (h : List Entry)
        → AllByRecursion IsOneLine lines → IsOneLine rest → TellsLegal o h (ended lines ++ rest)
        → (rest ≡ []) × (entries_told lines ≡ Some (length h)) }
    ensures none_wrong { (lines : List (List ℕ)) (rest : List ℕ) (o : Opening) (h : List Entry)
        → (k : ℕ) → AllByRecursion IsOneLine lines → IsOneLine rest
        → TellsLegal o h (ended lines ++ rest) → IsFirstWrong k lines → ⊥ }
    ensures unfinished { (lines : List (List ℕ)) (o : Opening) (h : List Entry)
        → IsTrue (is_some (reached lines)) → entries_told lines ≡ None
        → TellsLegal o h (ended lines) → ⊥ }
{}

/// No line feed stands in a line of a history, and bytes are split in one way into such lines and
/// what comes after the last line feed.
pub fn texts_are_split()
    ensures one_line { (o : Opening) (h : List Entry) → AllByRecursion IsOneLine (told_lines o h) }
    ensures split { (lines others : List (List ℕ)) (rest other : List ℕ)
        → AllByRecursion IsOneLine lines → AllByRecursion IsOneLine others
        → IsOneLine rest → IsOneLine other → ended lines ++ rest ≡ ended others ++ other
        → (lines ≡ others) × (rest ≡ other) }
{}

/// The text of a legal history whose opening and entries have lines that can be read tells it, and
/// all its entries are counted.
pub fn histories_are_told()
    ensures exported { (o : Opening) (h : List Entry) → IsStart o → Legal o.limits (first_of o) h
        → AllByRecursion HasLine h → TellsLegal o h (told o h) }
    ensures count { (o : Opening) (h : List Entry) → IsStart o → Legal o.limits (first_of o) h
        → AllByRecursion HasLine h → entries_told (told_lines o h) ≡ Some (length h) }
{}
