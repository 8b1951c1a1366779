use outside::MemorySink;
use scm_model::{Kept, Request, Step};
use scm_text::{OutOfMemory, WText};
use scm_trail::{Note, Trail};
use std::alloc::Global;
use trail_log::record;

/// A step as a history keeps it.
fn note_of(alloc: Global, step: Step) -> Result<Note, OutOfMemory> {
    let note = Note::new(alloc, &step);
    drop(step);
    note
}

/// Appends an entry, with room that it makes.
fn add(trail: &mut Trail, moment: u64, note: Note) -> Result<(), OutOfMemory> {
    let Ok(text) = u64::try_from(note.text()) else {
        drop(note);
        return Err(OutOfMemory);
    };
    if let Err(why) = trail.reserve(1, text) {
        drop(note);
        return Err(why);
    }
    trail.push(moment, note);
    Ok(())
}

/// Appends so many entries without text. The moment of each is three times its caller's number.
fn fill(alloc: Global, trail: &mut Trail, count: u64) -> Result<(), OutOfMemory> {
    for caller in 0..count {
        let note = note_of(alloc, Step::Gone { caller })?;
        add(trail, caller.wrapping_mul(3), note)?;
    }
    Ok(())
}

/// What the tests tell steps by.
#[derive(Clone, Copy, PartialEq, Eq)]
enum Seen {
    /// This caller goes.
    Gone(u64),
    /// Caller 1 asks, in vain, for a handle of the service `ABC`.
    Asking,
    Other,
}

fn look(step: &Step) -> Seen {
    match step {
        Step::Gone { caller } => Seen::Gone(*caller),
        Step::Call {
            caller: 1,
            request: Request::OpenService {
                handle: 9,
                name,
                access: 4,
            },
            kept: Kept::Failed,
        } if name.units() == [65, 66, 67].as_slice() => Seen::Asking,
        _ => Seen::Other,
    }
}

/// The moment of an entry, and its step.
fn look_in(entry: (u64, Step)) -> (u64, Seen) {
    let (moment, step) = entry;
    let told = look(&step);
    drop(step);
    (moment, told)
}

/// The same of the entry at a place, where one is held.
fn look_at(trail: &Trail, place: u64) -> Option<(u64, Seen)> {
    if place < trail.past() || trail.len() <= place {
        return None;
    }
    match trail.entry(place) {
        Ok(entry) => Some(look_in(entry)),
        Err(OutOfMemory) => None,
    }
}

/// How many bytes the segments have together.
fn size(trail: &Trail) -> usize {
    let mut size = 0usize;
    for place in 0..trail.segments() {
        if let Some(bytes) = trail.segment(place) {
            size = size.wrapping_add(bytes.len());
        }
    }
    size
}

/// Whether 5000 entries of 17 bytes are there, each at its place, in two segments.
fn are_read_back(alloc: Global, trail: &mut Trail) -> bool {
    if fill(alloc, trail, 5000).is_err() || (trail.len(), trail.text()) != (5000, 0) {
        return false;
    }
    if (trail.segments(), size(trail)) != (2, 85_000) {
        return false;
    }
    for (place, moment) in [(0, 0), (3854, 11562), (3856, 11568), (4999, 14997)] {
        if look_at(trail, place) != Some((moment, Seen::Gone(place))) {
            return false;
        }
    }
    look_at(trail, 5000).is_none()
}

#[test]
fn entries_are_read_back_at_their_places(rt: HostRuntime) {
    let mut trail = Trail::new(rt.alloc());
    let are_read_back = are_read_back(rt.alloc(), &mut trail);
    drop(trail);
    assert!(rt; are_read_back);
}

/// A call for a handle of the service of this name.
fn asking(name: WText) -> Step {
    Step::Call {
        caller: 1,
        request: Request::OpenService {
            handle: 9,
            name,
            access: 4,
        },
        kept: Kept::NotAsked,
    }
}

/// Appends a launch that is taken, and such a call, which is told that it failed.
fn ask(alloc: Global, trail: &mut Trail) -> Result<(), OutOfMemory> {
    add(trail, 5, note_of(alloc, Step::LaunchTaken)?)?;
    let Ok(name) = WText::from_units(alloc, &[65, 66, 67]) else {
        return Err(OutOfMemory);
    };
    let mut note = note_of(alloc, asking(name))?;
    note.tell(Kept::Failed);
    add(trail, 7, note)
}

/// The codes of both: a moment of eight bytes and the step's byte, 3 and 1; then the caller, the
/// opnum 16, the handle, the name's count and units, the access and what became of the change.
const CODES: [u8; 51] = [
    5, 0, 0, 0, 0, 0, 0, 0, 3, 7, 0, 0, 0, 0, 0, 0, 0, 1, 1, 0, 0, 0, 0, 0, 0, 0, 16, 0, 9, 0, 0,
    0, 0, 0, 0, 0, 3, 0, 0, 0, 65, 0, 66, 0, 67, 0, 4, 0, 0, 0, 2,
];

#[test]
fn text_is_counted_and_copied(rt: HostRuntime) {
    let mut trail = Trail::new(rt.alloc());
    let is_told = ask(rt.alloc(), &mut trail).is_ok()
        && trail.text() == 6
        && trail.segment(0) == Some(CODES.as_slice())
        && trail.segment(1).is_none()
        && look_at(&trail, 1) == Some((7, Seen::Asking));
    drop(trail);
    assert!(rt; is_told);
}

/// Whether the first of two segments goes, and the second stays. Of 5000 entries of 17 bytes 3856
/// lie in the first: it has 65,664 bytes, and an entry is begun where 128 are left.
fn is_let_go(alloc: Global, trail: &mut Trail) -> bool {
    if fill(alloc, trail, 5000).is_err() || !trail.let_go() || trail.let_go() {
        return false;
    }
    if (trail.past(), trail.len(), trail.segments()) != (3856, 5000, 1) {
        return false;
    }
    for place in [3856, 4999] {
        if look_at(trail, place) != Some((place * 3, Seen::Gone(place))) {
            return false;
        }
    }
    look_at(trail, 3855).is_none() && add_text(alloc, trail).is_ok() && trail.text() == 6
}

/// Appends a call with six bytes of text.
fn add_text(alloc: Global, trail: &mut Trail) -> Result<(), OutOfMemory> {
    let Ok(name) = WText::from_units(alloc, &[65, 66, 67]) else {
        return Err(OutOfMemory);
    };
    add(trail, 7, note_of(alloc, asking(name))?)
}

#[test]
fn the_first_segment_goes_and_the_last_one_stays(rt: HostRuntime) {
    let mut trail = Trail::new(rt.alloc());
    let is_let_go = is_let_go(rt.alloc(), &mut trail);
    drop(trail);
    assert!(rt; is_let_go);
}

/// Whether 17 bytes are the code of the entry that `fill` makes of this caller: its moment, the
/// byte of a caller who goes, and the caller.
fn is_going(code: &[u8], caller: u64) -> bool {
    code.get(..8) == Some(caller.wrapping_mul(3).to_le_bytes().as_slice())
        && code.get(8) == Some(&11)
        && code.get(9..) == Some(caller.to_le_bytes().as_slice())
}

/// Whether the codes of so many such entries are all that there is.
fn are_goings(bytes: &[u8], count: u64) -> bool {
    let mut caller = 0u64;
    for code in bytes.chunks(17) {
        if !is_going(code, caller) {
            return false;
        }
        caller = caller.wrapping_add(1);
    }
    caller == count
}

/// Writes to the log until a write that doesn't fail, and says how many failed, three at most.
fn record_in_turns(trail: &mut Trail, sink: &mut MemorySink) -> u32 {
    let mut at = 0;
    if record(trail, &mut at, sink).is_ok() {
        return 0;
    }
    if record(trail, &mut at, sink).is_ok() {
        return 1;
    }
    if record(trail, &mut at, sink).is_ok() {
        return 2;
    }
    3
}

/// Whether a log that fails twice has all codes at the third try, in pieces of so many bytes.
fn is_recorded(alloc: Global, trail: &mut Trail, sink: &mut MemorySink) -> bool {
    fill(alloc, trail, 5000).is_ok()
        && record_in_turns(trail, sink) == 2
        && (trail.past(), trail.segments()) == (3856, 1)
        && are_goings(sink.bytes(), 5000)
}

/// The third write fails and the fifth; the fates of the writes are taken from the end.
fn failing_sink(alloc: Global, piece: usize) -> Option<MemorySink> {
    match Vec::from_array(alloc, [true, false, true, false, false]) {
        Ok(fails) => Some(MemorySink::in_pieces(alloc, piece, fails)),
        Err(_) => None,
    }
}

#[test]
fn a_log_that_fails_has_all_codes_in_the_end(rt: HostRuntime) {
    for piece in [1000, 16_384] {
        let Some(mut sink) = failing_sink(rt.alloc(), piece) else {
            continue;
        };
        let mut trail = Trail::new(rt.alloc());
        let is_recorded = is_recorded(rt.alloc(), &mut trail, &mut sink);
        drop(trail);
        drop(sink);
        assert!(rt; is_recorded);
    }
}
