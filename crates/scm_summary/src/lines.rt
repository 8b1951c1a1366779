ghost use Rattle.std.specs.Prelude.{◌≡◌, ◌++◌, OnOk};
ghost use Rattle.scm_summary.specs.Lines.{caller_line, callers_from, numbered};

use scm_text::{Items, OutOfMemory};

/// Appends a word, a number and a line feed.
pub fn add_numbered(text: &mut Items<u8>, word: &str, number: u64) -> Result<(), OutOfMemory>
    ensures { OnOk result (text.new ≡ text.old ++ numbered word.now number) }
{
    text.append(word.as_bytes())?;
    text.append_pair(itoa::Buffer::new().format(number).as_bytes(), b"\n")
}

/// Appends how many calls a caller made.
fn add_caller(text: &mut Items<u8>, caller: u64, calls: u64) -> Result<(), OutOfMemory>
    ensures { OnOk result (text.new ≡ text.old ++ caller_line caller calls) }
{
    text.append_pair(b"caller ", itoa::Buffer::new().format(caller).as_bytes())?;
    add_numbered(text, " calls ", calls)
}

/// Appends the calls of each caller. The first is caller 1.
pub fn add_callers(text: &mut Items<u8>, calls: &[u64]) -> Result<(), OutOfMemory>
    ensures { OnOk result (text.new ≡ text.old ++ callers_from 1 calls.now) }
{
    for (place, count) in calls.iter().enumerate() {
        add_caller(text, place as u64 + 1, *count)?;
    }
    Ok(())
}
