ghost use Rattle.std.specs.Prelude.{◌≡◌, ◌+◌, ◌++◌, ◌≤◌, All, List, Some, length, ℕ};
ghost use Rattle.std.specs.List.{flat_map};
ghost use Rattle.scm_model.specs.Entries.{Entry};
ghost use Rattle.scm_model.specs.Texts.{text_of};
ghost use Rattle.scm_model.specs.declared.steps.Step.{Step};
ghost use Rattle.step_code.specs.Codes.{code_of};
ghost use Rattle.step_code.specs.Fits.{IsEntry};
ghost use Rattle.step_code.specs.Reading.{entry_at, items_at};
ghost use Rattle.step_code.specs.Sizes.{code_size};

/// What is written is read back, whatever comes after it, so joined codes are read back in order. A
/// code is as long as `code_length` says, and has at most 128 bytes more than its step's text.
pub fn codes_are_read()
    ensures entry { (entry : Entry) (rest : List ℕ) → IsEntry entry
        → entry_at (code_of entry ++ rest) ≡ Some (entry, rest) }
    ensures entries { (entries : List Entry) (rest : List ℕ) → All IsEntry entries
        → items_at entry_at (length entries) (flat_map code_of entries ++ rest)
        ≡ Some (entries, rest) }
    ensures size { (entry : Entry) → IsEntry entry → length (code_of entry) ≡ code_size entry.1 }
    ensures bound { (step : Step) → code_size step ≤ 128 + text_of step }
{}
