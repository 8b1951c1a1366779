ghost use Rattle.std.specs.Prelude.{◌+◌, ◌++◌, ◌∷◌, ◌≡◌, ◌≤◌, [], IfOk, OnErr, OnOk, drop};
ghost use Rattle.std.specs.Prelude.{◌<◌, false, find, length, take};
ghost use Rattle.std.specs.Fmt.{digit_glyph};
ghost use Rattle.std.specs.List.{flat_map};
ghost use Rattle.sec_desc.specs.Writing.{IsShort};
ghost use Rattle.sddl.specs.Reading.{IsItemRead, ReadsAs, authority_at, known_at, long_at};
ghost use Rattle.sddl.specs.Reading.{number_at, onto, pair_at, parts_from, sid_at, six_bytes_at};
ghost use Rattle.sddl.specs.Tables.{has_letters, has_parts, is_known, sid_of};
ghost use Rattle.sddl.specs.Writing.{authority_text, hex_byte, long_text, part_text, sid_text};

use crate::fault::SddlFault;
use crate::numbers::{digit_value, is_digit, number_at};
use crate::places::{after_bytes, begins, has_byte};
use crate::tables::{KNOWN_SIDS, KnownSid};
use scm_text::{Items, OutOfMemory};
use sec_desc::codes::SID_MAX_SUB_AUTHORITIES;
use sec_desc::{Sid, from_place};
use std::alloc::Global;

// Identities that have letters.

fn has_parts(known: &KnownSid, parts: &[u32]) -> bool
    ensures { result ≡ has_parts known.now parts.now }
{
    match parts {
        [first] => *first == known.first && known.second.is_none(),
        [first, second] => *first == known.first && known.second == Some(*second),
        _ => false,
    }
}

/// Whether the letters stand for this identity.
fn is_known(known: &KnownSid, sid: &Sid) -> bool
    ensures { result ≡ is_known sid.now known.now }
{
    sid.authority == [0, 0, 0, 0, 0, known.authority] && has_parts(known, sid.parts.as_slice())
}

fn find_sid(table: &[KnownSid], sid: &Sid) -> Option<KnownSid>
    ensures { result ≡ find (is_known sid.now) table.now }
{
    for known in table {
        if is_known(known, sid) {
            return Some(*known);
        }
    }
    None
}

fn find_letters(table: &[KnownSid], letters: &[u8]) -> Option<KnownSid>
    ensures { result ≡ find (has_letters letters.now) table.now }
{
    for known in table {
        if known.letters.as_slice() == letters {
            return Some(*known);
        }
    }
    None
}

fn push_part(parts: &mut Items<u32>, part: u32) -> Result<(), OutOfMemory>
    ensures ok { OnOk result (parts.new ≡ parts.old ++ part ∷ []) }
    ensures err { OnErr result (parts.new ≡ parts.old) }
{
    match parts.push(part) {
        Ok(()) => Ok(()),
        Err(_) => Err(OutOfMemory),
    }
}

/// The identity that letters stand for.
fn sid_of(alloc: Global, known: &KnownSid) -> Result<Sid, OutOfMemory>
    ensures { IfOk result (λ sid. sid ≡ sid_of known.now) }
{
    let mut parts = Items::new(alloc);
    let mut made = push_part(&mut parts, known.first);
    if let (Ok(()), Some(second)) = (made, known.second) {
        made = push_part(&mut parts, second);
    }
    if made.is_err() {
        drop(parts);
        return Err(OutOfMemory);
    }
    Ok(Sid {
        authority: [0, 0, 0, 0, 0, known.authority],
        parts,
    })
}

// Writing.

/// The hexadecimal digit of a value.
fn hex_digit(value: u8) -> u8
    requires { value < 16 }
    ensures { result ≡ digit_glyph false value }
{
    if value < 10 {
        b'0' + value
    } else {
        b'a' - 10 + value
    }
}

#[tactic(auto, unfolding(crate::specs::Writing::hex_byte))]
fn hex_byte(byte: u8) -> [u8; 2]
    ensures { result ≡ hex_byte byte }
{
    [hex_digit(byte / 16), hex_digit(byte % 16)]
}

fn put_hex_bytes(out: &mut Items<u8>, bytes: &[u8]) -> Result<(), OutOfMemory>
    ensures { OnOk result (out.new ≡ out.old ++ flat_map hex_byte bytes.now) }
{
    for byte in bytes {
        out.append(&hex_byte(*byte))?;
    }
    Ok(())
}

#[tactic(auto, unfolding(crate::specs::Writing::authority_text))]
fn put_authority(out: &mut Items<u8>, authority: &[u8; 6]) -> Result<(), OutOfMemory>
    ensures { OnOk result (out.new ≡ out.old ++ authority_text authority.now) }
{
    match *authority {
        [0, 0, a, b, c, d] => {
            let number = u32::from_be_bytes([a, b, c, d]);
            out.append(itoa::Buffer::new().format(number).as_bytes())
        }
        _ => {
            out.append(b"0x")?;
            put_hex_bytes(out, authority)
        }
    }
}

fn put_parts(out: &mut Items<u8>, parts: &[u32]) -> Result<(), OutOfMemory>
    ensures { OnOk result (out.new ≡ out.old ++ flat_map part_text parts.now) }
{
    for part in parts {
        out.append_pair(b"-", itoa::Buffer::new().format(*part).as_bytes())?;
    }
    Ok(())
}

#[tactic(auto, unfolding(crate::specs::Writing::long_text))]
fn put_long(out: &mut Items<u8>, sid: &Sid) -> Result<(), OutOfMemory>
    ensures { OnOk result (out.new ≡ out.old ++ long_text sid.now) }
{
    out.append(b"S-1-")?;
    put_authority(out, &sid.authority)?;
    put_parts(out, sid.parts.as_slice())
}

/// Appends an identity: two letters if there are some for it.
#[tactic(auto, unfolding(crate::specs::Writing::sid_text))]
pub fn put_sid(out: &mut Items<u8>, sid: &Sid) -> Result<(), OutOfMemory>
    ensures { OnOk result (out.new ≡ out.old ++ sid_text sid.now) }
{
    match find_sid(&KNOWN_SIDS, sid) {
        Some(known) => out.append(&known.letters),
        None => put_long(out, sid),
    }
}

// Reading.

/// The byte that two hexadecimal digits at a place write, and where they end.
#[tactic(auto, unfolding(crate::specs::Reading::pair_at))]
fn pair_at(text: &[u8], place: usize) -> Result<(u8, usize), SddlFault>
    requires { place ≤ length text.now }
    ensures read { ReadsAs (λ x. x) result (pair_at text.now place) }
    ensures within { IfOk result (λ x. x.1 ≤ length text.now) }
{
    match from_place(text, place) {
        [high, low, ..] if is_digit(16, *high) && is_digit(16, *low) => {
            Ok((digit_value(*high) * 16 + digit_value(*low), place + 2))
        }
        _ => Err(SddlFault::Bad(place)),
    }
}

/// The six bytes that twelve hexadecimal digits at a place write, and where they end.
#[tactic(auto, unfolding(crate::specs::Reading::six_bytes_at))]
fn six_bytes_at(text: &[u8], place: usize) -> Result<([u8; 6], usize), SddlFault>
    requires { place ≤ length text.now }
    ensures read { ReadsAs (λ x. x) result (six_bytes_at text.now place) }
    ensures within { IfOk result (λ x. x.1 ≤ length text.now) }
{
    let (a, at) = pair_at(text, place)?;
    let (b, at) = pair_at(text, at)?;
    let (c, at) = pair_at(text, at)?;
    let (d, at) = pair_at(text, at)?;
    let (e, at) = pair_at(text, at)?;
    let (f, at) = pair_at(text, at)?;
    Ok(([a, b, c, d, e, f], at))
}

/// The authority at a place, and where it ends.
#[tactic(auto, unfolding(crate::specs::Reading::authority_at))]
fn authority_at(text: &[u8], place: usize) -> Result<([u8; 6], usize), SddlFault>
    requires { place ≤ length text.now }
    ensures read { ReadsAs (λ x. x) result (authority_at text.now place) }
    ensures within { IfOk result (λ x. x.1 ≤ length text.now) }
{
    if begins(text, place, b"0x") {
        let place = after_bytes(text, place, b"0x")?;
        return six_bytes_at(text, place);
    }
    let (number, end) = number_at(text, place)?;
    let [a, b, c, d] = number.to_be_bytes();
    Ok(([0, 0, a, b, c, d], end))
}

/// Appends the part after the hyphen at a place, and answers where it ends.
fn next_part(parts: &mut Items<u32>, text: &[u8], place: usize) -> Result<usize, SddlFault>
    requires { place + 1 ≤ length text.now }
    ensures read { IsItemRead parts.old parts.new result (number_at text.now (place + 1)) }
    ensures within { IfOk result (λ end. end ≤ length text.now) }
{
    let (part, end) = number_at(text, place + 1)?;
    match push_part(parts, part) {
        Ok(()) => Ok(end),
        Err(_) => Err(SddlFault::OutOfMemory),
    }
}

/// Appends parts, each after a hyphen, and answers where they end.
#[tactic(auto, unfolding(crate::specs::Reading::parts_from))]
fn append_parts(parts: &mut Items<u32>, text: &[u8], place: usize) -> Result<usize, SddlFault>
    requires { place ≤ length text.now }
    ensures read { ReadsAs (λ end. (parts.new, end)) result
        (onto parts.old (parts_from 15 text.now place)) }
    ensures within { IfOk result (λ end. end ≤ length text.now) }
{
    let mut at = place;
    for _ in 0..SID_MAX_SUB_AUTHORITIES {
        if !has_byte(text, at, b'-') {
            return Ok(at);
        }
        at = next_part(parts, text, at)?;
    }
    if has_byte(text, at, b'-') {
        Err(SddlFault::Bad(at))
    } else {
        Ok(at)
    }
}

/// The identity after `S-1-`, and where it ends.
#[tactic(auto, unfolding(crate::specs::Reading::long_at))]
fn long_at(alloc: Global, text: &[u8], place: usize) -> Result<(Sid, usize), SddlFault>
    requires { place ≤ length text.now }
    ensures read { ReadsAs (λ x. x) result (long_at text.now place) }
    ensures within { IfOk result (λ x. x.1 ≤ length text.now) }
{
    let (authority, place) = authority_at(text, place)?;
    let mut parts = Items::new(alloc);
    match append_parts(&mut parts, text, place) {
        Ok(end) => Ok((Sid { authority, parts }, end)),
        Err(fault) => {
            drop(parts);
            Err(fault)
        }
    }
}

/// Two bytes at a place, fewer if the text ends.
fn two_at(text: &[u8], place: usize) -> &[u8]
    ensures value { result.now ≡ take 2 (drop place text.now) }
    ensures within { length result.now ≡ 2 → place + 2 ≤ length text.now }
{
    let rest = from_place(text, place);
    &rest[..rest.len().min(2)]
}

/// The identity that two letters at a place stand for, and where they end.
#[tactic(auto, unfolding(crate::specs::Reading::known_at))]
fn known_at(alloc: Global, text: &[u8], place: usize) -> Result<(Sid, usize), SddlFault>
    requires { place ≤ length text.now }
    ensures read { ReadsAs (λ x. x) result (known_at text.now place) }
    ensures within { IfOk result (λ x. x.1 ≤ length text.now) }
{
    let letters = two_at(text, place);
    let Some(known) = find_letters(&KNOWN_SIDS, letters) else {
        return Err(SddlFault::Bad(place));
    };
    match sid_of(alloc, &known) {
        Ok(sid) => Ok((sid, place + letters.len())),
        Err(_) => Err(SddlFault::OutOfMemory),
    }
}

/// The identity at a place, and where it ends.
#[tactic(auto, unfolding(crate::specs::Reading::sid_at))]
pub fn sid_at(alloc: Global, text: &[u8], place: usize) -> Result<(Sid, usize), SddlFault>
    requires { place ≤ length text.now }
    ensures read { ReadsAs (λ x. x) result (sid_at text.now place) }
    ensures within { IfOk result (λ x. x.1 ≤ length text.now) }
    ensures short { IfOk result (λ x. IsShort x.0) }
{
    if begins(text, place, b"S-1-") {
        let place = after_bytes(text, place, b"S-1-")?;
        long_at(alloc, text, place)
    } else {
        known_at(alloc, text, place)
    }
}
