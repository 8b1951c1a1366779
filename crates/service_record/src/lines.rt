ghost use Rattle.std.specs.Prelude.{◌≡◌, ◌==◌, not, length, false};
ghost use Rattle.std.specs.Char.Utf16.{has_unpaired_surrogate, is_high_surrogate, is_low_surrogate};
ghost use Rattle.service_record.specs.Checks.{is_bad_line, is_longer};
ghost use Rattle.service_record.specs.Words.{first_word, has_word, word_from};

const SPACE: u16 = 32;

const QUOTE: u16 = 34;

#[tactic(auto, unfolding(crate::specs::Words::word_from))]
/// Whether the word that begins here has a unit.
fn is_word(units: &[u16]) -> bool
    ensures { result ≡ not (length (word_from false units.now) == 0) }
{
    let mut quoted = false;
    for unit in units {
        if *unit != QUOTE {
            return quoted || *unit != SPACE;
        }
        quoted = !quoted;
    }
    false
}

#[tactic(auto, unfolding(crate::specs::Words::first_word))]
/// Whether there is a first word, with more than quotes in it.
fn has_word(units: &[u16]) -> bool
    ensures { result ≡ has_word units.now }
{
    for i in 0..units.len() {
        if units[i] != SPACE {
            return is_word(&units[i..]);
        }
    }
    false
}

fn is_high(unit: u16) -> bool
    ensures { result ≡ is_high_surrogate unit }
{
    0xD800 <= unit && unit < 0xDC00
}

fn is_low(unit: u16) -> bool
    ensures { result ≡ is_low_surrogate unit }
{
    0xDC00 <= unit && unit < 0xE000
}

#[tactic(auto, unfolding(crate::proofs::Halves::is_unpaired))]
/// Whether the units are no well-formed UTF-16.
pub fn is_broken(units: &[u16]) -> bool
    ensures { result ≡ has_unpaired_surrogate units.now }
{
    let mut pending = false;
    for unit in units {
        if pending && !is_low(*unit) {
            return true;
        }
        if !pending && is_low(*unit) {
            return true;
        }
        pending = is_high(*unit);
    }
    pending
}

/// Whether a command line can't be run.
pub fn is_bad_line(units: &[u16]) -> bool
    ensures { result ≡ is_bad_line units.now }
{
    !has_word(units) || 2048 < units.len() || is_broken(units)
}
