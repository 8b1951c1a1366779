ghost use Rattle.std.specs.Prelude.{◌+◌, ◌++◌, ◌<◌, ◌∷◌, ◌^◌, ◌≡◌, ◌≤◌, [], IfErr, IfOk, IfSome};
ghost use Rattle.std.specs.Prelude.{None, OnOk, drop, length};
ghost use Rattle.sec_desc.specs.Writing.{IsShort, IsValue, IsWritable, size_of_ace};
ghost use Rattle.sddl.specs.Reading.{IsAceRead, ReadsAs, ace_at, ace_within, bits_at, front_bit};
ghost use Rattle.sddl.specs.Reading.{head_at, kind_at, list_at, nothing, onto, part_at, rights_at};
ghost use Rattle.sddl.specs.Reading.{sddl_of, sid_at};
ghost use Rattle.sddl.specs.Tables.{access_rights, ace_flags, bit_named};
ghost use Rattle.sddl.specs.declared.fault.SddlFault.TheVariants as faults;

use crate::fault::SddlFault;
use crate::numbers::hex_at;
use crate::places::{after_byte, after_bytes, begins, has_byte};
use crate::sids::sid_at;
use crate::tables::{ACCESS_RIGHTS, ACE_FLAGS, Letters};
use scm_text::Items;
use sec_desc::{Ace, Descriptor, Sid, from_place};
use std::alloc::Global;
use std::mem::replace;

/// More entries don't fit into the size of a list.
const MAX_ENTRIES: usize = 4096;

/// How many bytes a list has at most.
const MAX_LIST_SIZE: usize = 65535;

// Bits.

/// The bit that two letters stand for.
fn bit_named(table: &[Letters], pair: [u8; 2]) -> Option<u32>
    ensures { result ≡ bit_named table.now pair }
{
    for letters in table {
        if letters.pair == pair {
            return Some(letters.bit);
        }
    }
    None
}

/// The bit of the two letters at a place.
fn front_bit(table: &[Letters], text: &[u8], place: usize) -> Option<u32>
    ensures value { result ≡ front_bit table.now (drop place text.now) }
    ensures within { IfSome result (λ _. place + 2 ≤ length text.now) }
{
    match from_place(text, place) {
        [first, second, ..] => bit_named(table, [*first, *second]),
        _ => None,
    }
}

/// The bits of the letters at a place, and where these end.
fn bits_at(table: &[Letters], text: &[u8], place: usize) -> (u32, usize)
    requires { place ≤ length text.now }
    ensures value { result ≡ bits_at table.now text.now place }
    ensures within { result.1 ≤ length text.now }
{
    let mut bits = 0;
    let mut at = place;
    while let Some(bit) = front_bit(table, text, at) {
        bits |= bit;
        at += 2;
    }
    (bits, at)
}

/// The flags at a place, and where they end.
fn flags_at(text: &[u8], place: usize) -> (u8, usize)
    requires { place ≤ length text.now }
    ensures value { result ≡ bits_at ace_flags text.now place }
    ensures within { result.1 ≤ length text.now }
{
    let (flags, end) = bits_at(&ACE_FLAGS, text, place);
    (flags as u8, end)
}

/// The letters of rights at a place, and where they end.
fn right_letters_at(text: &[u8], place: usize) -> (u32, usize)
    requires { place ≤ length text.now }
    ensures value { result ≡ bits_at access_rights text.now place }
    ensures within { result.1 ≤ length text.now }
{
    bits_at(&ACCESS_RIGHTS, text, place)
}

/// The rights at a place, and where they end.
#[tactic(auto, unfolding(crate::specs::Reading::rights_at))]
fn rights_at(text: &[u8], place: usize) -> Result<(u32, usize), SddlFault>
    requires { place ≤ length text.now }
    ensures read { ReadsAs (λ x. x) result (rights_at text.now place) }
    ensures within { IfOk result (λ x. x.1 ≤ length text.now) }
{
    if begins(text, place, b"0x") {
        let place = after_bytes(text, place, b"0x")?;
        hex_at(text, place)
    } else {
        Ok(right_letters_at(text, place))
    }
}

// Entries.

/// What stands before an entry's identity.
#[derive(Clone, Copy)]
struct Head {
    deny: bool,
    flags: u8,
    mask: u32,
}

/// Whether the entry whose type stands at a place denies, and where the type ends.
fn kind_at(text: &[u8], place: usize) -> Result<(bool, usize), SddlFault>
    requires { place ≤ length text.now }
    ensures read { ReadsAs (λ x. x) result (kind_at text.now place) }
    ensures within { IfOk result (λ x. x.1 ≤ length text.now) }
{
    if has_byte(text, place, b'A') {
        Ok((false, place + 1))
    } else if has_byte(text, place, b'D') {
        Ok((true, place + 1))
    } else {
        Err(SddlFault::Bad(place))
    }
}

/// The type, the flags and the rights of the entry at a place, and where its identity begins.
#[tactic(auto, unfolding(crate::specs::Reading::head_at))]
fn head_at(text: &[u8], place: usize) -> Result<(Head, usize), SddlFault>
    requires { place ≤ length text.now }
    ensures read { ReadsAs (λ x. x) result (head_at text.now place) }
    ensures within { IfOk result (λ x. x.1 ≤ length text.now) }
{
    let place = after_byte(text, place, b'(')?;
    let (deny, place) = kind_at(text, place)?;
    let place = after_byte(text, place, b';')?;
    let (flags, place) = flags_at(text, place);
    let place = after_byte(text, place, b';')?;
    let (mask, place) = rights_at(text, place)?;
    let place = after_bytes(text, place, b";;;")?;
    Ok((Head { deny, flags, mask }, place))
}

/// The entry at a place, and where it ends.
#[tactic(auto, unfolding(crate::specs::Reading::ace_at))]
fn ace_at(alloc: Global, text: &[u8], place: usize) -> Result<(Ace, usize), SddlFault>
    requires { place ≤ length text.now }
    ensures read { ReadsAs (λ x. x) result (ace_at text.now place) }
    ensures within { IfOk result (λ x. x.1 ≤ length text.now) }
    ensures short { IfOk result (λ x. IsShort x.0.sid) }
{
    let (head, place) = head_at(text, place)?;
    let (sid, place) = sid_at(alloc, text, place)?;
    let ace = Ace {
        deny: head.deny,
        flags: head.flags,
        mask: head.mask,
        sid,
    };
    match after_byte(text, place, b')') {
        Ok(end) => Ok((ace, end)),
        Err(fault) => {
            drop(ace);
            Err(fault)
        }
    }
}

/// How many bytes the entry has in a list.
fn size_of_ace(ace: &Ace) -> usize
    requires { IsShort ace.now.sid }
    ensures { result ≡ size_of_ace ace.now }
{
    16 + 4 * ace.sid.parts.len()
}

fn push_ace(aces: &mut Items<Ace>, ace: Ace) -> Result<(), SddlFault>
    ensures ok { OnOk result (aces.new ≡ aces.old ++ ace ∷ []) }
    ensures err { IfErr result (λ fault. fault ≡ faults.OutOfMemory) }
{
    match aces.push(ace) {
        Ok(()) => Ok(()),
        Err(failed) => {
            drop(failed);
            Err(SddlFault::OutOfMemory)
        }
    }
}

/// Appends the entry at a place to those that take a size, and answers the size with it and where
/// it ends.
#[tactic(auto, unfolding(crate::specs::Reading::ace_within))]
fn next_ace(
    aces: &mut Items<Ace>,
    alloc: Global,
    text: &[u8],
    place: usize,
    size: usize,
) -> Result<(usize, usize), SddlFault>
    requires within { place ≤ length text.now }
    requires small { size < 2 ^ 16 }
    ensures read { IsAceRead size aces.old aces.new result (ace_within size text.now place) }
    ensures within { IfOk result (λ x. (x.0 < 2 ^ 16) × (x.1 ≤ length text.now)) }
{
    let (ace, end) = ace_at(alloc, text, place)?;
    let size = size + size_of_ace(&ace);
    if MAX_LIST_SIZE < size {
        drop(ace);
        return Err(SddlFault::Bad(place));
    }
    match push_ace(aces, ace) {
        Ok(()) => Ok((size, end)),
        Err(fault) => Err(fault),
    }
}

/// Appends the entries at a place, and answers where they end.
#[tactic(auto, unfolding(crate::specs::Reading::aces_from))]
fn append_aces(
    aces: &mut Items<Ace>,
    alloc: Global,
    text: &[u8],
    place: usize,
) -> Result<usize, SddlFault>
    requires { place ≤ length text.now }
    ensures read { ReadsAs (λ end. (aces.new, end)) result
        (onto aces.old (list_at text.now place)) }
    ensures within { IfOk result (λ end. end ≤ length text.now) }
{
    let mut size = 8;
    let mut at = place;
    for _ in 0..MAX_ENTRIES {
        if !has_byte(text, at, b'(') {
            return Ok(at);
        }
        let (grown, end) = next_ace(aces, alloc, text, at, size)?;
        size = grown;
        at = end;
    }
    Ok(at)
}

/// The entries at a place, and where they end.
fn list_at(alloc: Global, text: &[u8], place: usize) -> Result<(Items<Ace>, usize), SddlFault>
    requires { place ≤ length text.now }
    ensures read { ReadsAs (λ x. x) result (list_at text.now place) }
    ensures within { IfOk result (λ x. x.1 ≤ length text.now) }
{
    let mut aces = Items::new(alloc);
    match append_aces(&mut aces, alloc, text, place) {
        Ok(end) => Ok((aces, end)),
        Err(fault) => {
            drop(aces);
            Err(fault)
        }
    }
}

// All of it.

/// Puts the identity after a letter and a colon in its place, if the letter is there, and answers
/// where it ends.
#[tactic(auto, unfolding(crate::specs::Reading::part_at))]
fn read_sid(
    to: &mut Option<Sid>,
    alloc: Global,
    letter: u8,
    text: &[u8],
    place: usize,
) -> Result<usize, SddlFault>
    requires within { place ≤ length text.now }
    requires empty { to.old ≡ None }
    ensures read { ReadsAs (λ end. (to.new, end)) result (part_at letter sid_at text.now place) }
    ensures within { IfOk result (λ end. end ≤ length text.now) }
{
    if !has_byte(text, place, letter) {
        return Ok(place);
    }
    let place = after_bytes(text, place, &[letter, b':'])?;
    let (sid, end) = sid_at(alloc, text, place)?;
    drop(replace(to, Some(sid)));
    Ok(end)
}

/// Puts the list after `D:` in its place, if the letter is there, and answers where it ends.
#[tactic(auto, unfolding(crate::specs::Reading::part_at))]
fn read_list(
    to: &mut Option<Items<Ace>>,
    alloc: Global,
    text: &[u8],
    place: usize,
) -> Result<usize, SddlFault>
    requires within { place ≤ length text.now }
    requires empty { to.old ≡ None }
    ensures read { ReadsAs (λ end. (to.new, end)) result (part_at 68 list_at text.now place) }
    ensures within { IfOk result (λ end. end ≤ length text.now) }
{
    if !has_byte(text, place, b'D') {
        return Ok(place);
    }
    let place = after_bytes(text, place, b"D:")?;
    let (list, end) = list_at(alloc, text, place)?;
    drop(replace(to, Some(list)));
    Ok(end)
}

/// Puts the parts of the descriptor that the text is in their places.
#[tactic(auto, unfolding(crate::specs::Reading::sddl_of))]
fn read_parts(to: &mut Descriptor, alloc: Global, text: &[u8]) -> Result<(), SddlFault>
    requires { to.old ≡ nothing }
    ensures { ReadsAs (λ done. to.new) result (sddl_of text.now) }
{
    let end = read_sid(&mut to.owner, alloc, b'O', text, 0)?;
    let end = read_sid(&mut to.group, alloc, b'G', text, end)?;
    let end = read_list(&mut to.list, alloc, text, end)?;
    if text.len() <= end {
        Ok(())
    } else {
        Err(SddlFault::Bad(end))
    }
}

fn sddl_of(alloc: Global, text: &[u8]) -> Result<Descriptor, SddlFault>
    ensures { ReadsAs (λ d. d) result (sddl_of text.now) }
{
    let mut descriptor = Descriptor {
        owner: None,
        group: None,
        list: None,
    };
    match read_parts(&mut descriptor, alloc, text) {
        Ok(()) => Ok(descriptor),
        Err(fault) => {
            drop(descriptor);
            Err(fault)
        }
    }
}

/// Reads the text of a descriptor (MS-DTYP, 2.5.1.1): `O:`, `G:` and `D:`, each there or not, in
/// this order. An identity is two letters or `S-1-` and its numbers; rights are letters or a
/// hexadecimal number after `0x`. Neither flags of the list, nor objects, nor an auditing list are
/// read.
pub fn read_sddl(alloc: Global, text: &str) -> Result<Descriptor, SddlFault>
    // What the text stands for, or the first item that is wrong; unless memory runs out.
    ensures read { ReadsAs (λ d. d) result (sddl_of text.now) }
    // What is read has a form in bytes.
    ensures writable { IfOk result (λ d. IsWritable d × IsValue d) }
{
    sddl_of(alloc, text.as_bytes())
}
