ghost use Rattle.std.specs.Prelude.{◌≡◌, ◌<◌, ◌^◌, All, List, Some, ℕ};
ghost use Rattle.hex.specs.Hex.{IsBytes};
ghost use Rattle.scm_model.specs.declared.flat.Config.{Config};
ghost use Rattle.scm_model.specs.declared.flat.Limits.{Limits};
ghost use Rattle.service_record.specs.Spelling.{IsConfig, IsUnit, encoding};
ghost use Rattle.opening_lines.specs.Heads.{AreInRange, config_at, config_line, group_at};
ghost use Rattle.opening_lines.specs.Heads.{group_line, limits_at, limits_line, moment_at};
ghost use Rattle.opening_lines.specs.Heads.{moment_line};

/// The lines of limits, a moment, a listed group and a configuration are read as what they say.
pub fn heads_are_read()
    ensures limits { (l : Limits) → AreInRange l → limits_at (limits_line l) ≡ Some l }
    ensures moment { (moment : ℕ) → moment < 2 ^ 64
        → moment_at (moment_line moment) ≡ Some moment }
    ensures group { (group : List ℕ) → All IsUnit group
        → group_at (group_line group) ≡ Some group }
    ensures config { (config : Config) → IsConfig config → IsBytes (encoding config)
        → config_at (config_line config) ≡ Some config }
{}
