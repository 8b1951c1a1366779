ghost use Rattle.std.specs.Prelude.{◌≡◌, ◌≤◌, true, Err, IfErr, OnOk, Some};
ghost use Rattle.std.specs.List.{FoldsTo, list_any};
ghost use Rattle.demo_service.specs.Doing.{Does, DoesWord, IsFaultCaused, IsCausedAt, IsCausedIn};
ghost use Rattle.demo_service.specs.Doing.{WearsAt, WearsIn, WearsWord, is_unknown, point_at};
ghost use Rattle.demo_service.specs.declared.fault.DemoFault.TheVariants as faults;

use super::fault::DemoFault;
use super::reporting::report;
use super::sharing::share;
use super::waiting::wait;
use super::word::{Word, any_is_unknown, word_at};
use outside::{Sink, Source};
use scm_text::Text;
use std::alloc::Global;

/// Does a word.
fn do_word<I: Source, O: Sink>(
    alloc: Global,
    word: Word,
    input: &mut I,
    output: &mut O,
) -> Result<(), DemoFault>
    ensures does { OnOk result (DoesWord (point_at (I.left input.old) (O.held output.old))
        (Some word) (point_at (I.left input.new) (O.held output.new))) }
    ensures worn { result ≡ Err faults.Worn → WearsWord
        (point_at (I.left input.old) (O.held output.old)) (Some word)
        (point_at (I.left input.new) (O.held output.new)) }
    ensures cause { IfErr result (IsFaultCaused (I.faults input.old) (I.faults input.new)
        (O.faults output.old) (O.faults output.new)) }
    ensures input { I.faults input.old ≤ I.faults input.new }
    ensures output { O.faults output.old ≤ O.faults output.new }
{
    match word {
        Word::Report(state) => report(alloc, state, output),
        Word::Wait => wait(alloc, input, output),
        Word::Share => share(alloc, input, output),
    }
}

/// Does the word of a text, which is one.
fn do_text<I: Source, O: Sink>(
    alloc: Global,
    text: &Text,
    input: &mut I,
    output: &mut O,
) -> Result<(), DemoFault>
    ensures does { OnOk result (Does (point_at (I.left input.old) (O.held output.old)) text.now
        (point_at (I.left input.new) (O.held output.new))) }
    ensures worn { result ≡ Err faults.Worn → WearsAt
        (point_at (I.left input.old) (O.held output.old)) text.now
        (point_at (I.left input.new) (O.held output.new)) }
    ensures cause { IfErr result (IsCausedAt text.now (I.faults input.old) (I.faults input.new)
        (O.faults output.old) (O.faults output.new)) }
    ensures input { I.faults input.old ≤ I.faults input.new }
    ensures output { O.faults output.old ≤ O.faults output.new }
{
    match word_at(text.as_str()) {
        Some(word) => do_word(alloc, word, input, output),
        None => Err(DemoFault::Words),
    }
}

/// Does what the texts ask for, one after the other. Where one of them is no word, nothing is read
/// or written.
pub fn demo<I: Source, O: Sink>(
    alloc: Global,
    texts: &[Text],
    input: &mut I,
    output: &mut O,
) -> Result<(), DemoFault>
    ensures does { OnOk result (FoldsTo Does (point_at (I.left input.old) (O.held output.old))
        texts.now
        (point_at (I.left input.new) (O.held output.new))) }
    ensures worn { result ≡ Err faults.Worn → WearsIn
        (point_at (I.left input.old) (O.held output.old)) texts.now
        (point_at (I.left input.new) (O.held output.new)) }
    ensures cause { IfErr result (IsCausedIn texts.now (I.faults input.old) (I.faults input.new)
        (O.faults output.old) (O.faults output.new)) }
    ensures unknown { list_any is_unknown texts.now ≡ true → result ≡ Err faults.Words }
    ensures unread { list_any is_unknown texts.now ≡ true → input.new ≡ input.old }
    ensures unwritten { list_any is_unknown texts.now ≡ true → output.new ≡ output.old }
    ensures input { I.faults input.old ≤ I.faults input.new }
    ensures output { O.faults output.old ≤ O.faults output.new }
{
    if any_is_unknown(texts) {
        return Err(DemoFault::Words);
    }
    for text in texts {
        match do_text(alloc, text, input, output) {
            Ok(()) => {}
            Err(fault) => return Err(fault),
        }
    }
    Ok(())
}
