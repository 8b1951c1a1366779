use crate::bytes::{CREATED, HEADER, HEADER_1, SWITCH};
use crate::values::keeper;
use record_journal::{Fate, JournalFault, MemoryKeeper, Restored, open_journal};
use scm_model::Form;
use scm_text::WText;
use std::alloc::{AllocError, Global};
use std::test::*;

/// What an opening results in.
#[derive(Clone, Copy)]
pub enum Answer {
    /// Services of these names, of one letter each, from so many bytes.
    Opens(&'static str, u64),
    /// The same, and what was read last is of form 1.
    OpensInForm1(&'static str, u64),
    DamagedAt(u64),
    Fails,
}

/// Whether a name is this letter.
fn is_letter(name: &WText, letter: u8) -> bool {
    name.units() == [u16::from(letter)].as_slice()
}

/// Whether services of these names alone are there, in order.
fn has_names(opened: &Restored, names: &str) -> bool {
    let letters = names.as_bytes();
    let configs = opened.configs.as_slice();
    for (config, letter) in configs.iter().zip(letters) {
        if !is_letter(&config.name, *letter) {
            return false;
        }
    }
    configs.len() == letters.len()
}

/// Whether services of these names alone were read of so many bytes, the last of them in this form.
fn stands_at(opened: &Restored, names: &str, kept: u64, form: Form) -> bool {
    let journal = &opened.journal;
    has_names(opened, names) && journal.good == kept && !journal.dirty && journal.form == form
}

/// Whether what was read is this.
fn is_opened(opened: &Restored, answer: Answer) -> bool {
    match answer {
        Answer::Opens(names, kept) => stands_at(opened, names, kept, Form::Second),
        Answer::OpensInForm1(names, kept) => stands_at(opened, names, kept, Form::First),
        Answer::DamagedAt(_) | Answer::Fails => false,
    }
}

fn is_refused(fault: JournalFault, answer: Answer) -> bool {
    match (fault, answer) {
        (JournalFault::Damaged(place), Answer::DamagedAt(at)) => place == at,
        (JournalFault::Failed, Answer::Fails) => true,
        _ => false,
    }
}

/// Whether an opening results in this.
fn comes_to(alloc: Global, keeper: &mut MemoryKeeper, answer: Answer) -> bool {
    match open_journal(alloc, keeper, Some("journal")) {
        Ok(opened) => {
            let is_opened = is_opened(&opened, answer);
            drop(opened);
            is_opened
        }
        Err(fault) => is_refused(fault, answer),
    }
}

/// Whether a keeper of these bytes whose calls come to these fates is opened to this, and so many
/// of its bytes are left.
pub fn opens(
    alloc: Global,
    bytes: &[u8],
    fates: &[Fate],
    answer: Answer,
    left: usize,
) -> Result<bool, AllocError> {
    let mut keeper = keeper(alloc, bytes, 0, fates)?;
    let comes = comes_to(alloc, &mut keeper, answer);
    let are_left = bytes.get(..left) == Some(keeper.bytes());
    drop(keeper);
    Ok(comes && are_left)
}

/// The same of the parts of a journal.
fn opens_parts(
    alloc: Global,
    parts: &[&[u8]],
    fates: &[Fate],
    answer: Answer,
    left: usize,
) -> Result<bool, AllocError> {
    let mut bytes = Vec::new(alloc);
    for part in parts {
        bytes.extend_from_slice(part)?;
    }
    opens(alloc, &bytes, fates, answer, left)
}

/// The service `A`, of 71 bytes.
const A: &[u8] = CREATED;

/// The same in form 1, of 66 bytes.
const OLD_A: &[u8] = &[
    1, 0x3D, 0, 0, 0, // a creation
    1, 0, 0, 0, 0x41, 0, // name
    1, 0, 0, 0, 0x41, 0, // display name
    0x10, 0, 0, 0, 3, 0, 0, 0, 1, 0, 0, 0, // type, start and error control
    2, 0, 0, 0, 0x2F, 0, 0x61, 0, // path
    0, 0, 0, 0, 0, 0, 0, 0, // group and tag
    0, 0, 0, 0, // needs
    0, 0, 0, 0, 0, 0, 0, 0, 0, 0, 0, 0, 0, 0, 0, 0, 0, // description, failures
];

/// The same with the display name `B`.
const B_SHOWN: &[u8] = &[
    2, 0x42, 0, 0, 0, // a change
    1, 0, 0, 0, 0x41, 0, // name
    1, 0, 0, 0, 0x42, 0, // display name
    0x10, 0, 0, 0, 3, 0, 0, 0, 1, 0, 0, 0, // type, start and error control
    2, 0, 0, 0, 0x2F, 0, 0x61, 0, // path
    0, 0, 0, 0, 0, 0, 0, 0, // group and tag
    0, 0, 0, 0, // needs
    0, 0, 0, 0, 0, 0, 0, 0, 0, 0, 0, 0, 0, 0, 0, 0, 0, // description, failures
    0, 0, 0, 0, 0, // a delayed start, triggers
];

/// The service `B`, which needs `A`, of 78 bytes.
const B: &[u8] = &[
    1, 0x49, 0, 0, 0, // a creation
    1, 0, 0, 0, 0x42, 0, // name
    1, 0, 0, 0, 0x42, 0, // display name
    0x10, 0, 0, 0, 3, 0, 0, 0, 1, 0, 0, 0, // type, start and error control
    2, 0, 0, 0, 0x2F, 0, 0x61, 0, // path
    0, 0, 0, 0, 0, 0, 0, 0, // group and tag
    1, 0, 0, 0, 0, 1, 0, 0, 0, 0x41, 0, // needs
    0, 0, 0, 0, 0, 0, 0, 0, 0, 0, 0, 0, 0, 0, 0, 0, 0, // description, failures
    0, 0, 0, 0, 0, // a delayed start, triggers
];

/// `A`, which needs `B` from then on.
const A_NEEDS_B: &[u8] = &[
    2, 0x49, 0, 0, 0, // a change
    1, 0, 0, 0, 0x41, 0, // name
    1, 0, 0, 0, 0x41, 0, // display name
    0x10, 0, 0, 0, 3, 0, 0, 0, 1, 0, 0, 0, // type, start and error control
    2, 0, 0, 0, 0x2F, 0, 0x61, 0, // path
    0, 0, 0, 0, 0, 0, 0, 0, // group and tag
    1, 0, 0, 0, 0, 1, 0, 0, 0, 0x42, 0, // needs
    0, 0, 0, 0, 0, 0, 0, 0, 0, 0, 0, 0, 0, 0, 0, 0, 0, // description, failures
    0, 0, 0, 0, 0, // a delayed start, triggers
];

/// `a` is removed, whose name is `A` too.
const NO_A: &[u8] = &[3, 6, 0, 0, 0, 1, 0, 0, 0, 0x61, 0];

const NO_DB: &[u8] = &[3, 8, 0, 0, 0, 2, 0, 0, 0, 0x44, 0, 0x62, 0];

/// What stands, what an opening results in, and how many bytes are left.
type Row = (&'static [&'static [u8]], Answer, usize);

const ROWS: [Row; 26] = [
    (&[], Answer::Opens("", 0), 0),
    (&[&[0x53, 0x43, 0x4D, 0x4A, 2, 0]], Answer::Opens("", 0), 0),
    (&[&[0x53, 0x43, 0x4D, 0x4A, 1, 0]], Answer::Opens("", 0), 0),
    (&[&[0x53, 0x43, 0x4D, 0x4B]], Answer::DamagedAt(0), 4),
    (
        &[&[0x53, 0x43, 0x4D, 0x4A, 3, 0, 0, 0]],
        Answer::DamagedAt(0),
        8,
    ),
    (&[HEADER], Answer::Opens("", 8), 8),
    (&[HEADER, NO_DB], Answer::DamagedAt(8), 21),
    (
        &[HEADER, &[3, 8, 0, 0, 0, 2, 0, 0, 0, 0x44, 0, 0x62]],
        Answer::Opens("", 8),
        8,
    ),
    (&[HEADER, A], Answer::Opens("A", 79), 79),
    (&[HEADER, A, NO_A], Answer::Opens("", 90), 90),
    (&[HEADER, A, NO_A, B], Answer::Opens("B", 168), 168),
    (&[HEADER, A, A], Answer::DamagedAt(79), 150),
    (&[HEADER, A, B, A_NEEDS_B], Answer::DamagedAt(157), 235),
    (&[HEADER, A_NEEDS_B], Answer::DamagedAt(8), 86),
    (&[HEADER, A, A_NEEDS_B], Answer::Opens("A", 157), 157),
    (&[HEADER, B, B_SHOWN], Answer::DamagedAt(86), 157),
    (&[HEADER, A, B_SHOWN, B], Answer::DamagedAt(150), 228),
    // a kind that there isn't is damage, however much of an entry follows it
    (&[HEADER, A, &[7, 0, 0, 0, 0]], Answer::DamagedAt(79), 84),
    (&[HEADER, A, &[7, 1, 0, 0, 0]], Answer::DamagedAt(79), 84),
    (&[HEADER, A, &[9]], Answer::DamagedAt(79), 80),
    (
        &[HEADER, A, &[9, 6, 0, 0, 0, 1, 0]],
        Answer::DamagedAt(79),
        86,
    ),
    (&[HEADER, A, &[0]], Answer::DamagedAt(79), 80),
    (
        &[HEADER, A, &[0, 6, 0, 0, 0, 1, 0]],
        Answer::DamagedAt(79),
        86,
    ),
    // a name that is whole is shorter than the entry says, or it isn't whole yet
    (
        &[HEADER, A, &[3, 7, 0, 0, 0, 1, 0, 0, 0, 0x61, 0]],
        Answer::DamagedAt(79),
        90,
    ),
    (
        &[HEADER, A, &[3, 7, 0, 0, 0, 1, 0, 0, 0, 0x61]],
        Answer::Opens("A", 79),
        79,
    ),
    // form 2 doesn't end
    (&[HEADER, A, SWITCH], Answer::DamagedAt(79), 84),
];

/// The same of journals that begin in form 1.
const OLD_ROWS: [Row; 13] = [
    (&[HEADER_1], Answer::OpensInForm1("", 8), 8),
    (&[HEADER_1, OLD_A], Answer::OpensInForm1("A", 74), 74),
    (&[HEADER_1, OLD_A, NO_A], Answer::OpensInForm1("", 85), 85),
    (&[HEADER_1, OLD_A, SWITCH], Answer::Opens("A", 79), 79),
    (&[HEADER_1, OLD_A, SWITCH, B], Answer::Opens("AB", 157), 157),
    // a part of what ends form 1, and a part of the entry after it
    (&[HEADER_1, OLD_A, &[4]], Answer::OpensInForm1("A", 74), 74),
    (
        &[HEADER_1, OLD_A, &[4, 0, 0, 0]],
        Answer::OpensInForm1("A", 74),
        74,
    ),
    (
        &[HEADER_1, OLD_A, SWITCH, &[3, 6, 0]],
        Answer::Opens("A", 79),
        79,
    ),
    // it has no body
    (
        &[HEADER_1, OLD_A, &[4, 1, 0, 0, 0, 0]],
        Answer::DamagedAt(74),
        80,
    ),
    (
        &[HEADER_1, OLD_A, &[4, 1, 0, 0, 0]],
        Answer::DamagedAt(74),
        79,
    ),
    // an entry of the other form, and a second end
    (&[HEADER_1, OLD_A, B], Answer::DamagedAt(74), 152),
    (&[HEADER, OLD_A], Answer::DamagedAt(8), 74),
    (
        &[HEADER_1, OLD_A, SWITCH, SWITCH],
        Answer::DamagedAt(79),
        84,
    ),
];

#[test]
fn a_journal_is_read_up_to_an_unfinished_entry_or_damage(rt: HostRuntime) -> Result<(), Fail> {
    for (place, (parts, answer, left)) in ROWS.iter().enumerate() {
        assert!(rt;
            opens_parts(rt.alloc(), parts, &[], *answer, *left)?,
            "row {place}"
        );
    }
    for (place, (parts, answer, left)) in OLD_ROWS.iter().enumerate() {
        assert!(rt;
            opens_parts(rt.alloc(), parts, &[], *answer, *left)?,
            "old row {place}"
        );
    }
    Ok(())
}

const FAILS_AT_0: Fate = Fate::Fails { done: 0 };

/// Which calls fail when `A` and a part of an entry stand, and how many bytes are left.
const FAULTS: [([Fate; 3], usize); 4] = [
    ([FAILS_AT_0, Fate::Succeeds, Fate::Succeeds], 80),
    ([Fate::Succeeds, FAILS_AT_0, Fate::Succeeds], 80),
    ([Fate::Succeeds, Fate::Succeeds, FAILS_AT_0], 80),
    (
        [Fate::Succeeds, Fate::Succeeds, Fate::Fails { done: 1 }],
        79,
    ),
];

#[test]
fn a_fault_of_the_keeper_is_told(rt: HostRuntime) -> Result<(), Fail> {
    for (fates, left) in &FAULTS {
        let parts: [&[u8]; 3] = [HEADER, A, &[1]];
        assert!(rt;
            opens_parts(rt.alloc(), &parts, fates, Answer::Fails, *left)?,
            "{left}"
        );
    }
    Ok(())
}
