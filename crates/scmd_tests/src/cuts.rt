// A journal that is cut at each length.
use record_journal::{MemoryKeeper, Restored, open_journal};
use scm_model::{Config, Form};
use scm_text::WText;
use std::alloc::Global;
use svcctl_words::put_hex;

/// What a journal begins with, of 8 bytes.
const HEADER: &str = "53434d4a02000000";

/// The creation of `A`, of 71 bytes.
const A: &str = "\
    0142000000010000004100010000004100100000000300000001000000020000002f0061000000000000\
    0000000000000000000000000000000000000000000000000000000000";

/// The same with the display name `B`, as a change.
const B_SHOWN: &str = "\
    0242000000010000004100010000004200100000000300000001000000020000002f0061000000000000\
    0000000000000000000000000000000000000000000000000000000000";

/// The creation of `B`, which needs `A`, of 78 bytes.
const B: &str = "\
    0149000000010000004200010000004200100000000300000001000000020000002f0061000000000000\
    000000010000000001000000410000000000000000000000000000000000000000000000";

/// `A`, which needs `B` from then on.
const A_NEEDS_B: &str = "\
    0249000000010000004100010000004100100000000300000001000000020000002f0061000000000000\
    000000010000000001000000420000000000000000000000000000000000000000000000";

/// `a` is removed, whose name is `A` too.
const NO_A: &str = "0306000000010000006100";

/// Twenty changes, the names of the services after each, and how many bytes the journal has then.
const CHANGES: [(&str, &str, usize); 20] = [
    (A, "A", 79),
    (A_NEEDS_B, "A", 157),
    (NO_A, "", 168),
    (A, "A", 239),
    (B_SHOWN, "A", 310),
    (NO_A, "", 321),
    (B, "B", 399),
    (A, "BA", 470),
    (NO_A, "B", 481),
    (A, "BA", 552),
    (NO_A, "B", 563),
    (A, "BA", 634),
    (NO_A, "B", 645),
    (A, "BA", 716),
    (NO_A, "B", 727),
    (A, "BA", 798),
    (NO_A, "B", 809),
    (A, "BA", 880),
    (NO_A, "B", 891),
    (A, "BA", 962),
];

/// Puts the header and the entries of the changes.
fn put_changes(bytes: &mut Vec<u8>) -> Option<()> {
    put_hex(bytes, HEADER)?;
    for (entry, _, _) in &CHANGES {
        put_hex(bytes, entry)?;
    }
    Some(())
}

/// The services of the changes that are whole in so many bytes, and how many bytes these take.
fn whole_in(size: usize) -> (&'static str, usize) {
    let mut whole = ("", if size < 8 { 0 } else { 8 });
    for (_, names, end) in &CHANGES {
        if *end <= size {
            whole = (names, *end);
        }
    }
    whole
}

/// Whether a name is this letter.
fn is_letter(name: &WText, letter: u8) -> bool {
    name.units() == [u16::from(letter)].as_slice()
}

/// Whether services of these names alone are there, in order.
fn have_names(configs: &[Config], names: &str) -> bool {
    let letters = names.as_bytes();
    for (config, letter) in configs.iter().zip(letters) {
        if !is_letter(&config.name, *letter) {
            return false;
        }
    }
    configs.len() == letters.len()
}

/// Whether services of these names alone were read of so many bytes.
fn is_read(opened: &Restored, names: &str, kept: usize) -> bool {
    let journal = &opened.journal;
    have_names(opened.configs.as_slice(), names)
        && journal.good == kept as u64
        && !journal.dirty
        && journal.form == Form::Second
}

/// Whether a journal is opened to these.
fn is_opened(alloc: Global, keeper: &mut MemoryKeeper, names: &str, kept: usize) -> bool {
    match open_journal(alloc, keeper, Some("journal")) {
        Ok(opened) => {
            let is_read = is_read(&opened, names, kept);
            drop(opened);
            is_read
        }
        Err(_) => false,
    }
}

/// Whether a front of a journal is opened to the changes that are whole in it, and these are left.
fn is_opened_to_whole(alloc: Global, front: &[u8]) -> bool {
    let (names, end) = whole_in(front.len());
    match Vec::from_slice(alloc, front) {
        Ok(stands) => {
            let mut keeper = MemoryKeeper::new(stands, Vec::new(alloc));
            let is_opened = is_opened(alloc, &mut keeper, names, end);
            let are_left = front.get(..end) == Some(keeper.bytes());
            drop(keeper);
            is_opened && are_left
        }
        Err(_) => false,
    }
}

/// Whether the front of this length is.
fn opens_at(alloc: Global, bytes: &[u8], size: usize) -> bool {
    match bytes.get(..size) {
        Some(front) => is_opened_to_whole(alloc, front),
        None => false,
    }
}

/// The first length of a front of a journal that isn't.
fn first_wrong_in(alloc: Global, bytes: &[u8]) -> Option<usize> {
    for size in 0..963 {
        if !opens_at(alloc, bytes, size) {
            return Some(size);
        }
    }
    None
}

/// The first length at which the journal of the changes, cut there, isn't opened to those that are
/// whole.
pub fn first_wrong_cut(alloc: Global) -> Option<usize> {
    let mut bytes = Vec::new(alloc);
    let are_put = put_changes(&mut bytes).is_some();
    let first = first_wrong_in(alloc, bytes.as_slice());
    drop(bytes);
    if are_put { first } else { Some(0) }
}
