ghost use Rattle.std.specs.Prelude.{◌≡◌, ◌≤◌, [], IfOk, IfSome, OnOk};
ghost use Rattle.number_lists.specs.Rising.{without_number};
ghost use Rattle.number_lists.specs.UnderName.{Changes, room};
ghost use Rattle.record_table.specs.Kept.{AreOf, EnterEach, HasTexts, KeepEach, KeepRooms, Keeps};
ghost use Rattle.record_table.specs.Kept.{LeaveEach, MoveEach, Moves};
ghost use Rattle.record_table.specs.Recorded.{spare_of};

use number_lists::NameIndex;
use scm_model::Config;
use scm_text::{OutOfMemory, WText, same};
use std::alloc::Global;

/// The texts by which a service is found.
#[derive(Drop)]
pub struct Spare {
    pub name: WText,
    pub display: WText,
    pub group: WText,
}

impl Spare {
    /// The texts of a configuration.
    pub fn of(config: &Config, alloc: Global) -> Result<Spare, OutOfMemory>
        ensures { IfOk result (λ spare. spare ≡ spare_of config.now) }
    {
        Ok(Spare {
            name: config.name.copy(alloc)?,
            display: config.display.copy(alloc)?,
            group: config.group.copy(alloc)?,
        })
    }
}

/// The numbers of services, rising, under their texts.
#[derive(Drop)]
pub struct KeptTexts {
    pub names: NameIndex,
    pub displays: NameIndex,
    pub groups: NameIndex,
}

impl KeptTexts {
    /// Lists without numbers, which take no memory.
    pub fn new(alloc: Global) -> Self
        ensures { AreOf result [] }
    {
        KeptTexts {
            names: NameIndex::new(alloc),
            displays: NameIndex::new(alloc),
            groups: NameIndex::new(alloc),
        }
    }
}

/// Takes a number out under a text, and forgets the text if no number is left under it.
fn unlist(lists: &mut NameIndex, text: &WText, number: u64)
    ensures { Changes lists.old lists.new text.now (λ numbers. without_number numbers number) }
{
    lists.remove(text, number);
    lists.tidy(text);
}

/// Moves a number from a text to another, under which there is room for it.
fn relist(lists: &mut NameIndex, before: &WText, after: &WText, number: u64)
    requires { 1 ≤ room lists.old after.now }
    ensures { Moves lists.old lists.new before.now after.now number }
{
    lists.remove(before, number);
    lists.add(after, number);
    lists.tidy(before);
}

/// Makes room for a number under each text of a row.
fn reserve_each(texts: &mut KeptTexts, alloc: Global, row: &Spare) -> Result<(), OutOfMemory>
    ensures numbers { KeepEach texts.old texts.new }
    ensures ok { OnOk result (HasTexts texts.new row.now) }
    ensures rooms { KeepRooms texts.old texts.new }
{
    texts.names.reserve(alloc, &row.name)?;
    texts.displays.reserve(alloc, &row.display)?;
    texts.groups.reserve(alloc, &row.group)
}

/// Forgets a text with no numbers under it, unless it is the same as one that is kept.
fn tidy_unless_same(lists: &mut NameIndex, text: &WText, kept: &WText)
    ensures numbers { Keeps lists.old lists.new }
    ensures room { room lists.old kept.now ≤ room lists.new kept.now }
{
    if !same(text, kept) {
        lists.tidy(text);
    }
}

/// Forgets those texts of a row under which no number is, but for those of one that is kept.
fn tidy_texts_but(texts: &mut KeptTexts, row: &Spare, kept: &Spare)
    ensures numbers { KeepEach texts.old texts.new }
    ensures kept { HasTexts texts.old kept.now → HasTexts texts.new kept.now }
{
    tidy_unless_same(&mut texts.names, &row.name, &kept.name);
    tidy_unless_same(&mut texts.displays, &row.display, &kept.display);
    tidy_unless_same(&mut texts.groups, &row.group, &kept.group);
}

/// Forgets those texts of a row under which no number is, but for those of one that may be kept.
fn tidy_texts_unless_kept(texts: &mut KeptTexts, row: &Spare, kept: &Option<Spare>)
    ensures numbers { KeepEach texts.old texts.new }
    ensures kept { IfSome kept.now (HasTexts texts.old) → IfSome kept.now (HasTexts texts.new) }
{
    match kept {
        Some(kept) => tidy_texts_but(texts, row, kept),
        None => tidy_texts(texts, row),
    }
}

/// Makes room for a number under each text of a row. The room for one that may be kept stays, and
/// where it fails, no text stays that has no number.
pub fn reserve_texts(
    texts: &mut KeptTexts,
    alloc: Global,
    row: &Spare,
    kept: &Option<Spare>,
) -> Result<(), OutOfMemory>
    ensures numbers { KeepEach texts.old texts.new }
    ensures ok { OnOk result (HasTexts texts.new row.now) }
    ensures kept { IfSome kept.now (HasTexts texts.old) → IfSome kept.now (HasTexts texts.new) }
{
    let made = reserve_each(texts, alloc, row);
    if made.is_err() {
        tidy_texts_unless_kept(texts, row, kept);
    }
    made
}

/// Lets the room for a row go, but for the texts of another.
pub fn exchange_room(texts: &mut KeptTexts, before: Option<Spare>, row: &Spare)
    ensures numbers { KeepEach texts.old texts.new }
    ensures kept { HasTexts texts.old row.now → HasTexts texts.new row.now }
{
    if let Some(before) = before {
        tidy_texts_but(texts, &before, row);
        drop(before);
    }
}

/// Lets the room for a row go.
pub fn forget_room(texts: &mut KeptTexts, spare: Option<Spare>)
    ensures { KeepEach texts.old texts.new }
{
    if let Some(spare) = spare {
        tidy_texts(texts, &spare);
        drop(spare);
    }
}

/// Forgets those texts of a row under which no number is.
fn tidy_texts(texts: &mut KeptTexts, row: &Spare)
    ensures { KeepEach texts.old texts.new }
{
    texts.names.tidy(&row.name);
    texts.displays.tidy(&row.display);
    texts.groups.tidy(&row.group);
}

/// Puts a number under each text of a row.
pub fn enter_texts(texts: &mut KeptTexts, row: &Spare, number: u64)
    requires { HasTexts texts.old row.now }
    ensures { EnterEach texts.old texts.new row.now number }
{
    texts.names.add(&row.name, number);
    texts.displays.add(&row.display, number);
    texts.groups.add(&row.group, number);
}

/// Takes a number out under each text of a configuration.
pub fn leave_texts(texts: &mut KeptTexts, config: &Config, number: u64)
    ensures { LeaveEach texts.old texts.new (spare_of config.now) number }
{
    unlist(&mut texts.names, &config.name, number);
    unlist(&mut texts.displays, &config.display, number);
    unlist(&mut texts.groups, &config.group, number);
}

/// Moves a number from each text of a configuration to that of a row.
pub fn move_texts(texts: &mut KeptTexts, before: &Config, after: &Spare, number: u64)
    requires { HasTexts texts.old after.now }
    ensures { MoveEach texts.old texts.new (spare_of before.now) after.now number }
{
    relist(&mut texts.names, &before.name, &after.name, number);
    relist(&mut texts.displays, &before.display, &after.display, number);
    relist(&mut texts.groups, &before.group, &after.group, number);
}
