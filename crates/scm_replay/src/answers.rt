ghost use Rattle.std.specs.Prelude.{◌≡◌, OnOk};
ghost use Rattle.scm_replay.specs.Answers.{answer_line};

use super::outcome::Outcome;
use scm_lines::{put_line, put_number, put_order, put_told};
use scm_text::OutOfMemory;
use std::alloc::Global;

/// Puts the line that answers the line of this number in place of another. Its memory serves line
/// after line.
pub fn put_answer(
    alloc: Global,
    line: &mut Vec<u8>,
    number: u64,
    outcome: &Outcome,
) -> Result<(), OutOfMemory>
    ensures { OnOk result (line.new.items ≡ answer_line number outcome.now) }
{
    match outcome {
        Outcome::Answered(answer) => put_told(alloc, line, answer),
        Outcome::Handed { order, shared } => put_order(line, order, *shared),
        Outcome::InVain(missed) => put_line(line, missed.word(), b""),
        Outcome::TooMany => put_line(line, "toomany", b""),
        Outcome::Full => put_line(line, "full", b""),
        Outcome::Bad => put_number(line, "bad line ", number),
    }
}
