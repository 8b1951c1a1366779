// The trail, and the segments that its bytes lie in.
ghost use Rattle.std.specs.Prelude.{◌≡◌, ◌+◌, ◌-◌, ◌<◌, ◌≤◌, ◌^◌, ◌++◌, ◌∷◌, [], All, IfOk};
ghost use Rattle.std.specs.Prelude.{IsOk, OnErr, OnOk, Some, drop, false, get_or, length, option_map};
ghost use Rattle.std.specs.Prelude.{slice_get};
ghost use Rattle.std.specs.List.{flat_map};
ghost use Rattle.scm_model.specs.Entries.{text_in};
ghost use Rattle.scm_model.specs.Texts.{text_of};
ghost use Rattle.step_code.specs.Codes.{code_of};
ghost use Rattle.scm_trail.specs.Segments.{AddsSegments, AreBytes, IsCoded, all_entries};
ghost use Rattle.scm_trail.specs.Segments.{bytes_for, first_codes, last_room, no_segment};
ghost use Rattle.scm_trail.specs.Trailed.{LetsGoIf, no_entries};

use crate::entries::Entries;
use crate::note::Note;
use crate::segment::Segment;
use scm_model::Step;
use scm_text::OutOfMemory;
use std::alloc::Global;
use std::marker::Model;

/// How many bytes a segment has beside those that are promised when it is made.
const SEGMENT: u64 = 65_536;

/// How many bytes the code of an entry has at most, without its text.
const MOST: u64 = 128;

/// The entries of a history: moments in milliseconds and steps, in order. The first of them may be
/// let go, a segment at a time. Contracts see those that are held, how many were let go, and how
/// many entries and how much text more find room.
///
/// Each entry is kept as its code, which `write_code` of `step_code` describes. Its note has the
/// code already, so `push` copies bytes alone. The codes lie in segments of 65,536 bytes and what
/// was promised beside them, one after another, each in one segment, so that no code is ever
/// moved. Where a segment is added, only their list may be copied.
pub struct Trail {
    segments: Vec<Segment>,
    /// The place of the segment that the last entry lies in.
    current: usize,
    /// How many entries were let go.
    past: u64,
    /// How many there were in all.
    len: u64,
    room: u64,
    text: u64,
    text_room: u64,
}

/// A drop of its own: a function that owns one drops it by a call, which is proved once.
impl Drop for Trail {
    fn drop(self) {
        let Trail {
            segments,
            current: _current,
            past: _past,
            len: _len,
            room: _room,
            text: _text,
            text_room: _text_room,
        } = self;
        drop(segments);
    }
}

impl Model for Trail {
    ghost use Rattle.std.specs.Prelude.{map};
    ghost use Rattle.scm_trail.specs.Trailed.{Trailed};
    ghost use Rattle.scm_trail.specs.Segments.{IsKept, all_entries};

    ghost Value = { Trailed };

    ghost view = { λ t. record {
      past = t.past;
      entries = all_entries t.segments.items;
      text = t.text;
      room = t.room;
      text_room = t.text_room;
      parts = map (λ s. s.entries) t.segments.items;
    } };

    ghost invariant = { λ t. IsKept t.segments.items t.current t.past t.len t.room
        t.text t.text_room };
}

/// How many bytes the codes of so many entries have at most, with so much text together, if these
/// can be counted.
fn bytes_for(entries: u64, text: u64) -> Result<u64, OutOfMemory>
    ensures { IfOk result (λ bytes. bytes ≡ bytes_for entries text) }
{
    let Some(codes) = entries.checked_mul(MOST) else {
        return Err(OutOfMemory);
    };
    let Some(bytes) = codes.checked_add(text) else {
        return Err(OutOfMemory);
    };
    Ok(bytes)
}

/// How much room the last segment has, 0 if there is none.
fn last_room(segments: &[Segment]) -> usize
    ensures { result ≡ last_room segments.now }
{
    if segments.is_empty() {
        return 0;
    }
    segments[segments.len() - 1].room()
}

/// Adds an empty segment, if the last one doesn't have so much room.
fn make_room(segments: &mut Vec<Segment>, bytes: u64) -> Result<(), OutOfMemory>
    ensures added { AddsSegments segments.old.items segments.new.items }
    ensures ok { OnOk result (bytes ≤ last_room segments.new.items) }
    ensures err { OnErr result (segments.new.items ≡ segments.old.items) }
{
    if bytes <= last_room(segments) as u64 {
        return Ok(());
    }
    let Some(size) = bytes.checked_add(SEGMENT) else {
        return Err(OutOfMemory);
    };
    let segment = Segment::with_room(*segments.allocator(), size as usize)?;
    if segments.push(segment).is_err() {
        return Err(OutOfMemory);
    }
    Ok(())
}

/// The first place from this one on whose segment has so much room.
fn place_with_room(segments: &[Segment], from: usize, bytes: usize) -> usize
    requires within { from < length segments.now }
    requires rest { all_entries (drop (from + 1) segments.now) ≡ [] }
    requires last { bytes ≤ last_room segments.now }
    ensures within { result < length segments.now }
    ensures rest { all_entries (drop (result + 1) segments.now) ≡ [] }
    ensures room { bytes ≤ (get_or segments.now result no_segment).room }
{
    let mut place = from;
    while segments[place].room() < bytes {
        place += 1;
    }
    place
}

/// The type of a slice of bytes says that each of its numbers is one.
fn are_bytes(bytes: &[u8])
    ensures { AreBytes bytes.now }
{}

/// The loop changes nothing: it shows of each segment that the codes of its entries are bytes,
/// since they lie in a slice of these.
fn are_coded(segments: &[Segment])
    ensures { All IsCoded (all_entries segments.now) }
{
    for segment in segments {
        are_bytes(segment.bytes());
    }
}

impl Trail {
    /// A trail of no entries and no room, which takes no memory.
    pub fn new(alloc: Global) -> Trail
        ensures { result ≡ no_entries }
    {
        Trail {
            segments: Vec::new(alloc),
            current: 0,
            past: 0,
            len: 0,
            room: 0,
            text: 0,
            text_room: 0,
        }
    }

    /// Makes room for some entries more, which may have this much text together. It takes no
    /// memory where there is such room. If there isn't, the last segment is to have 128 bytes for
    /// each entry, and those of the text; if it hasn't, one is added that has them and 65,536
    /// bytes beside, so room for a million entries is 128 MB in one piece. For 2^64 bytes, 2^64
    /// entries in all, or as much text, there is none.
    pub fn reserve(&mut self, entries: u64, text: u64) -> Result<(), OutOfMemory>
        ensures entries { self.new.entries ≡ self.old.entries }
        ensures past { self.new.past ≡ self.old.past }
        ensures text { self.new.text ≡ self.old.text }
        ensures first { length (first_codes self.old.parts) ≤ length (first_codes self.new.parts) }
        ensures room { self.old.room ≤ self.new.room }
        ensures text_room { self.old.text_room ≤ self.new.text_room }
        ensures ok { OnOk result ((entries ≤ self.new.room) × (text ≤ self.new.text_room)) }
        ensures err { OnErr result (self.new ≡ self.old) }
        ensures enough { entries ≤ self.old.room → text ≤ self.old.text_room → IsOk result }
    {
        if entries <= self.room && text <= self.text_room {
            return Ok(());
        }
        let room = self.room.max(entries);
        let text_room = self.text_room.max(text);
        if self.len.checked_add(room).is_none() || self.text.checked_add(text_room).is_none() {
            return Err(OutOfMemory);
        }
        let bytes = bytes_for(room, text_room)?;
        make_room(&mut self.segments, bytes)?;
        self.room = room;
        self.text_room = text_room;
        Ok(())
    }

    /// Appends an entry, and takes no memory.
    pub fn push(&mut self, moment: u64, step: Note)
        requires room { 1 ≤ self.old.room }
        requires text_room { text_of step ≤ self.old.text_room }
        ensures entries { self.new.entries ≡ self.old.entries ++ (moment, step) ∷ [] }
        ensures past { self.new.past ≡ self.old.past }
        ensures text { self.new.text ≡ self.old.text + text_of step }
        ensures first { length (first_codes self.old.parts) ≤ length (first_codes self.new.parts) }
        ensures room { self.old.room ≤ self.new.room + 1 }
        ensures text_room { self.old.text_room ≤ self.new.text_room + text_of step }
    {
        let from = self.current;
        let text = step.text() as u64;
        let bytes = (MOST + text) as usize;
        self.current = place_with_room(&self.segments, from, bytes);
        let segment = &mut self.segments[self.current];
        segment.push(moment, &step);
        drop(step);
        self.len += 1;
        self.room -= 1;
        self.text += text;
        self.text_room -= text;
    }

    /// How many entries were let go.
    pub fn past(&self) -> u64
        ensures { result ≡ self.now.past }
    {
        self.past
    }

    /// How many entries there are, those that were let go among them.
    pub fn len(&self) -> u64
        ensures { result ≡ self.now.past + length self.now.entries }
    {
        self.len
    }

    /// How much text the entries have together, as `Step::text` counts it, those that were let go
    /// among them.
    pub fn text(&self) -> u64
        ensures value { result ≡ self.now.text }
        ensures held { text_in self.now.entries ≤ result }
    {
        self.text
    }

    /// A copy of the entry at a place.
    pub fn entry(&self, place: u64) -> Result<(u64, Step), OutOfMemory>
        requires held { self.now.past ≤ place }
        requires within { place < self.now.past + length self.now.entries }
        ensures { IfOk result (λ entry.
            slice_get self.now.entries (place - self.now.past) ≡ Some entry) }
    {
        let mut entries = self.entries();
        entries.skip(place - self.past)?;
        let Some(entry) = entries.next()? else {
            unreachable!()
        };
        Ok(entry)
    }

    /// Lets the first segment go, if a later one has the last entry, and says whether it did. It
    /// takes no memory.
    pub fn let_go(&mut self) -> bool
        ensures goes { LetsGoIf result self.old self.new }
        ensures last { result ≡ false → flat_map (λ part. part) (drop 1 self.old.parts) ≡ [] }
    {
        if self.current == 0 {
            return false;
        }
        let front = self.segments.remove(0);
        self.past += front.count();
        drop(front);
        self.current -= 1;
        true
    }

    /// The entries that are held, in order, which are read back one by one.
    pub fn entries(&self) -> Entries<'_>
        ensures entries { result ≡ self.now.entries }
        ensures small { length self.now.entries < 2 ^ 64 }
        ensures coded { All IsCoded self.now.entries }
    {
        are_coded(&self.segments);
        Entries::of(*self.segments.allocator(), &self.segments)
    }

    /// How many segments there are. Joined, they are the codes of the entries, in order.
    pub fn segments(&self) -> usize
        ensures count { result ≡ length self.now.parts }
        ensures entries { flat_map (λ part. part) self.now.parts ≡ self.now.entries }
        ensures codes { flat_map (λ part. flat_map code_of part) self.now.parts
            ≡ flat_map code_of self.now.entries }
    {
        self.segments.len()
    }

    /// The bytes of a segment, which are the codes of its entries. `None` comes exactly if there is
    /// none at this place.
    pub fn segment(&self, place: usize) -> Option<&[u8]>
        ensures { option_map (λ bytes. bytes.now) result
            ≡ option_map (flat_map code_of) (slice_get self.now.parts place) }
    {
        match self.segments.get(place) {
            Some(segment) => Some(segment.bytes()),
            None => None,
        }
    }
}
