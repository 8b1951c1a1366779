ghost use Rattle.std.specs.Prelude.{List};
ghost use Rattle.opening_lines.specs.declared.opening.Opening.{Opening};
ghost use Rattle.scm_model.specs.Entries.{Entry};
ghost use Rattle.scm_rules.specs.Histories.{Legal};
ghost use Rattle.scm_rules.specs.Opening.{CanOpen};
ghost use Rattle.trail_export.specs.Readable.{IsReadable};
ghost use Rattle.trail_text.specs.Histories.{AreAuditable, TellsLegal, first_of, told};

/// What is written of a history tells that it is legal, from its opening on, if its lines can be
/// read.
pub fn an_export_is_legal()
    ensures { (o : Opening) (h : List Entry) → AreAuditable o.limits → CanOpen o.limits o.configs
        → Legal o.limits (first_of o) h → IsReadable o h → TellsLegal o h (told o h) }
{}
