ghost use Rattle.std.specs.Prelude.{◌≡◌, ◌==◌, not, filter, length, ◌≤◌, IsOk, OnOk};
ghost use Rattle.std.specs.List.{list_any};
ghost use Rattle.ndr_body.specs.Reading.{Gives, number_at, text_at};
ghost use Rattle.scm_shapes.specs.Each.{each_at, put_each};
ghost use Rattle.scm_shapes.specs.Words.{pointing, words_of, pointed_at, listed_at, unlisted};
ghost use Rattle.scm_shapes.specs.Words.{argv_at, words_at, put_referents, put_list, put_words};

use crate::handle_body::{next_place, read_within};
use ndr_body::{BodyFault, NdrReader, NdrWriter};
use scm_model::codes::SC_MAX_ARGUMENTS;
use scm_text::{Items, OutOfMemory, WText};
use std::alloc::Global;

/// The words of a start, which are absent where one is.
type Words = Option<Items<WText>>;

/// So many numbers.
fn read_numbers(
    reader: &mut NdrReader,
    alloc: Global,
    count: usize,
) -> Result<Items<u32>, BodyFault>
    ensures value { Gives (λ v. (v, reader.new.place)) result
        (each_at number_at count reader.old.body reader.old.place) }
    ensures body { reader.new.body ≡ reader.old.body }
{
    let mut numbers = Items::new(alloc);
    for _ in 0..count {
        let number = reader.number()?;
        if numbers.push(number).is_err() {
            return Err(BodyFault::OutOfMemory);
        }
    }
    Ok(numbers)
}

/// So many strings.
fn read_texts(
    reader: &mut NdrReader,
    alloc: Global,
    count: usize,
) -> Result<Items<WText>, BodyFault>
    ensures value { Gives (λ v. (v, reader.new.place)) result
        (each_at text_at count reader.old.body reader.old.place) }
    ensures body { reader.new.body ≡ reader.old.body }
{
    let mut texts = Items::new(alloc);
    for _ in 0..count {
        let text = reader.text(alloc)?;
        if texts.push(text).is_err() {
            return Err(BodyFault::OutOfMemory);
        }
    }
    Ok(texts)
}

/// How many of the pointers aren't null.
fn pointing(pointers: &[u32]) -> usize
    ensures { result ≡ pointing pointers.now }
{
    pointers.iter().filter(|pointer| !(**pointer == 0)).count()
}

/// Whether one of the pointers is null.
fn has_null(pointers: &[u32]) -> bool
    ensures { result ≡ list_any (λ pointer. pointer == 0) pointers.now }
{
    pointers.iter().any(|pointer| *pointer == 0)
}

/// A pointer per word, and then the strings of those that aren't null. The words are absent if a
/// pointer is null.
#[tactic(auto, unfolding(crate::specs::Words::pointed_at, crate::specs::Records::record_at))]
fn read_pointed(reader: &mut NdrReader, alloc: Global, argc: u32) -> Result<Words, BodyFault>
    ensures value { Gives (λ v. (v, reader.new.place)) result
        (pointed_at argc reader.old.body reader.old.place) }
    ensures body { reader.new.body ≡ reader.old.body }
{
    let pointers = read_numbers(reader, alloc, argc as usize)?;
    let texts = read_texts(reader, alloc, pointing(pointers.as_slice()))?;
    if has_null(pointers.as_slice()) {
        Ok(None)
    } else {
        Ok(Some(texts))
    }
}

/// The count of the words again, and the words.
#[tactic(auto, unfolding(crate::specs::Words::listed_at))]
fn read_list(reader: &mut NdrReader, alloc: Global, argc: u32) -> Result<Words, BodyFault>
    ensures value { Gives (λ v. (v, reader.new.place)) result
        (listed_at argc reader.old.body reader.old.place) }
    ensures body { reader.new.body ≡ reader.old.body }
{
    let start = next_place(reader);
    let count = reader.number()?;
    if count == argc {
        read_pointed(reader, alloc, argc)
    } else {
        Err(BodyFault::BadCount(start))
    }
}

/// The words of a null `argv`.
fn unlisted(alloc: Global, argc: u32) -> Words
    ensures { result ≡ unlisted argc }
{
    if argc == 0 {
        Some(Items::new(alloc))
    } else {
        None
    }
}

/// `argv`: a pointer, and the list of words that it points to.
#[tactic(auto, unfolding(crate::specs::Words::argv_at))]
fn read_argv(reader: &mut NdrReader, alloc: Global, argc: u32) -> Result<Words, BodyFault>
    ensures value { Gives (λ v. (v, reader.new.place)) result
        (argv_at argc reader.old.body reader.old.place) }
    ensures body { reader.new.body ≡ reader.old.body }
{
    let pointer = reader.number()?;
    if pointer == 0 {
        Ok(unlisted(alloc, argc))
    } else {
        read_list(reader, alloc, argc)
    }
}

/// `argc` and `argv` of `RStartServiceW`. The words are absent where one of them is.
#[tactic(auto, unfolding(crate::specs::Words::words_at))]
pub fn read_words(reader: &mut NdrReader, alloc: Global) -> Result<Words, BodyFault>
    ensures value { Gives (λ v. (v, reader.new.place)) result
        (words_at reader.old.body reader.old.place) }
    ensures body { reader.new.body ≡ reader.old.body }
{
    let argc = read_within(reader, SC_MAX_ARGUMENTS)?;
    read_argv(reader, alloc, argc)
}

/// Referents for so many pointers.
fn put_referents(writer: &mut NdrWriter, count: usize) -> Result<(), OutOfMemory>
    ensures front { writer.new.front ≡ writer.old.front }
    ensures ok { OnOk result (writer.new.draft ≡ put_referents count writer.old.draft) }
    ensures space { writer.old.space ≤ writer.new.space }
    ensures enough { length (put_referents count writer.old.draft).bytes ≤ writer.old.space
        → IsOk result }
{
    for _ in 0..count {
        writer.referent()?;
    }
    Ok(())
}

/// The strings, one after the other.
fn put_each(writer: &mut NdrWriter, texts: &[WText]) -> Result<(), OutOfMemory>
    ensures front { writer.new.front ≡ writer.old.front }
    ensures ok { OnOk result (writer.new.draft ≡ put_each texts.now writer.old.draft) }
    ensures space { writer.old.space ≤ writer.new.space }
    ensures enough { length (put_each texts.now writer.old.draft).bytes ≤ writer.old.space
        → IsOk result }
{
    for text in texts {
        writer.text(text)?;
    }
    Ok(())
}

/// The list of at least one word, with its counts and pointers.
#[tactic(auto, using(crate::proofs::Widths::grows), unfolding(crate::specs::Words::put_list))]
fn put_list(writer: &mut NdrWriter, words: &[WText]) -> Result<(), OutOfMemory>
    ensures front { writer.new.front ≡ writer.old.front }
    ensures ok { OnOk result (writer.new.draft ≡ put_list words.now writer.old.draft) }
    ensures space { writer.old.space ≤ writer.new.space }
    ensures enough { length (put_list words.now writer.old.draft).bytes ≤ writer.old.space
        → IsOk result }
{
    writer.count(words.len())?;
    writer.referent()?;
    writer.count(words.len())?;
    put_referents(writer, words.len())?;
    put_each(writer, words)
}

/// `argc` and `argv` in the form that is written.
#[tactic(auto, using(crate::proofs::Widths::grows), unfolding(crate::specs::Words::put_words))]
pub fn put_words(writer: &mut NdrWriter, words: &Words) -> Result<(), OutOfMemory>
    ensures front { writer.new.front ≡ writer.old.front }
    ensures ok { OnOk result (writer.new.draft ≡ put_words words.now writer.old.draft) }
    ensures space { writer.old.space ≤ writer.new.space }
    ensures enough { length (put_words words.now writer.old.draft).bytes ≤ writer.old.space
        → IsOk result }
{
    let Some(words) = words else {
        writer.number(1)?;
        return writer.number(0);
    };
    if words.len() == 0 {
        writer.number(0)?;
        writer.number(0)
    } else {
        put_list(writer, words.as_slice())
    }
}
