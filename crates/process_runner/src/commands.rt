ghost use Rattle.std.specs.Prelude.{◌≡◌, ◌++◌, ℕ, List, [], ◌∷◌, false, IfOk, OnOk, map, true};
ghost use Rattle.process_runner.specs.Commands.{command_words, utf8_of};
ghost use Rattle.process_runner.specs.Splitting.{all_words, begun_word, words_after};
ghost use Rattle.service_record.specs.Words.{first_word, has_word};

use scm_text::{Items, OutOfMemory, Text, WText};
use std::alloc::Global;

const QUOTE: u16 = 34;

const SPACE: u16 = 32;

/// What units of UTF-16 spell.
pub fn text_of(alloc: Global, units: &[u16]) -> Result<Text, OutOfMemory>
    ensures { IfOk result (λ text. text ≡ utf8_of units.now) }
{
    match String::from_utf16_lossy(alloc, units) {
        Ok(text) => Ok(Text::from_string(text)),
        Err(_) => Err(OutOfMemory),
    }
}

/// A command line that is read in part.
#[derive(Drop)]
pub struct Splitting {
    /// The words that are read.
    done: Items<Text>,
    /// Whether a word has begun.
    begun: bool,
    /// The units of that word so far.
    word: Vec<u16>,
    /// Whether quotes are open.
    quoted: bool,
}

impl Splitting {
    fn new(alloc: Global) -> Self
        ensures { (line : List ℕ) →
            all_words result line ≡ map utf8_of (words_after false [] false line) }
    {
        Splitting {
            done: Items::new(alloc),
            begun: false,
            word: Vec::new(alloc),
            quoted: false,
        }
    }

    /// Keeps the word that has begun.
    fn keep_word(&mut self, alloc: Global) -> Result<(), OutOfMemory>
        ensures done { OnOk result
            (self.new.done ≡ self.old.done
            ++ map utf8_of (begun_word self.old.begun self.old.word.items)) }
        ensures quoted { self.new.quoted ≡ self.old.quoted }
    {
        if !self.begun {
            return Ok(());
        }
        let text = text_of(alloc, self.word.as_slice())?;
        match self.done.push(text) {
            Ok(()) => Ok(()),
            Err(_) => Err(OutOfMemory),
        }
    }

    /// Ends the word that has begun.
    fn end_word(&mut self, alloc: Global) -> Result<(), OutOfMemory>
        ensures done { OnOk result
            (self.new.done ≡ self.old.done
            ++ map utf8_of (begun_word self.old.begun self.old.word.items)) }
        ensures begun { OnOk result (self.new.begun ≡ false) }
        ensures word { OnOk result (self.new.word.items ≡ []) }
        ensures quoted { self.new.quoted ≡ self.old.quoted }
    {
        self.keep_word(alloc)?;
        self.begun = false;
        self.word.clear();
        Ok(())
    }

    /// Reads a unit.
    #[tactic(auto, unfolding(crate::specs::Splitting::words_after))]
    fn take(&mut self, alloc: Global, unit: u16) -> Result<(), OutOfMemory>
        ensures { OnOk result ((line : List ℕ) →
            all_words self.new line ≡ all_words self.old (unit ∷ line)) }
    {
        if unit == QUOTE {
            self.quoted = !self.quoted;
            self.begun = true;
            return Ok(());
        }
        if unit == SPACE && !self.quoted {
            return self.end_word(alloc);
        }
        self.begun = true;
        match self.word.push(unit) {
            Ok(()) => Ok(()),
            Err(_) => Err(OutOfMemory),
        }
    }
}

/// The words of a command line.
pub fn words_of(alloc: Global, line: &[u16]) -> Result<Items<Text>, OutOfMemory>
    ensures { IfOk result (λ words. words ≡ map utf8_of (command_words line.now)) }
{
    let mut splitting = Splitting::new(alloc);
    for unit in line {
        splitting.take(alloc, *unit)?;
    }
    splitting.keep_word(alloc)?;
    Ok(splitting.done)
}

fn add_text(alloc: Global, texts: &mut Items<Text>, units: &[u16]) -> Result<(), OutOfMemory>
    ensures { OnOk result (texts.new ≡ texts.old ++ utf8_of units.now ∷ []) }
{
    match texts.push(text_of(alloc, units)?) {
        Ok(()) => Ok(()),
        Err(_) => Err(OutOfMemory),
    }
}

/// Adds each of some texts in UTF-8.
fn add_texts(alloc: Global, texts: &mut Items<Text>, more: &[WText]) -> Result<(), OutOfMemory>
    ensures { OnOk result (texts.new ≡ texts.old ++ map utf8_of more.now) }
{
    for text in more {
        add_text(alloc, texts, text.units())?;
    }
    Ok(())
}

/// The words of the command line `path`, followed by `words`, each in UTF-8. A word of a command
/// line is a run of units between spaces that stand outside of double quotes, without its quotes;
/// quotes that aren't closed reach to the end. A surrogate without its partner, which no path of a
/// service has, becomes U+FFFD.
pub fn split_command(
    alloc: Global,
    path: &[u16],
    words: &Items<WText>,
) -> Result<Items<Text>, OutOfMemory>
    ensures { IfOk result (λ all.
        all ≡ map utf8_of (command_words path.now) ++ map utf8_of words.now) }
{
    let mut all = words_of(alloc, path)?;
    add_texts(alloc, &mut all, words.as_slice())?;
    Ok(all)
}

/// A path that a configuration may have names a program: its first word, which isn't empty, is the
/// first that is started.
pub fn paths_name_programs()
    ensures { (path : List ℕ) → has_word path ≡ true →
        (arguments : List (List ℕ)) × (command_words path ≡ first_word path ∷ arguments) }
{}
