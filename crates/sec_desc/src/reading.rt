ghost use Rattle.std.specs.Prelude.{◌≡◌, ◌++◌, ◌+◌, ◌<◌, ◌≤◌, ◌^◌, ◌∷◌, [], true, Ok, IfErr, IfOk};
ghost use Rattle.std.specs.Prelude.{OnErr, OnOk, drop, length};
ghost use Rattle.sec_desc.specs.declared.value.DescFault.TheVariants as faults;
ghost use Rattle.sec_desc.specs.declared.value.Descriptor.{Descriptor};
ghost use Rattle.sec_desc.specs.Described.{Describes};
ghost use Rattle.sec_desc.specs.Layout.{is_sid, sid_of};
ghost use Rattle.sec_desc.specs.Reading.{FailsAt, ReadsAs, ace_in, aces_in, acl_at, described};
ghost use Rattle.sec_desc.specs.Reading.{part_at};
ghost use Rattle.sec_desc.specs.Reading.{parts_of, sid_at, onto_front};
ghost use Rattle.sec_desc.specs.Writing.{IsValue, IsWritable};

use crate::layout::{Header, from_place, is_sid, read_ace_header, read_acl_header, read_header};
use crate::numbers::append_numbers;
use crate::value::{Ace, DescFault, Descriptor, Sid};
use scm_text::{Items, OutOfMemory};
use std::alloc::Global;
use std::mem::replace;

/// The identity that stands at the front of the bytes.
fn sid_of(alloc: Global, bytes: &[u8]) -> Result<Sid, OutOfMemory>
    requires { is_sid bytes.now ≡ true }
    ensures { IfOk result (λ sid. sid ≡ sid_of bytes.now) }
{
    let mut authority = [0; 6];
    authority.copy_from_slice(&bytes[2..8]);
    let mut parts = Items::new(alloc);
    if append_numbers(&mut parts, &bytes[8..], usize::from(bytes[1])).is_err() {
        drop(parts);
        return Err(OutOfMemory);
    }
    Ok(Sid { authority, parts })
}

/// The identity at a place.
#[tactic(auto, unfolding(crate::specs::Reading::sid_at))]
fn sid_at(alloc: Global, bytes: &[u8], place: usize) -> Result<Sid, DescFault>
    ensures { ReadsAs (λ sid. sid) result (sid_at bytes.now place) }
{
    let rest = from_place(bytes, place);
    if !is_sid(rest) {
        return Err(DescFault::Bad(place));
    }
    match sid_of(alloc, rest) {
        Ok(sid) => Ok(sid),
        Err(_) => Err(DescFault::OutOfMemory),
    }
}

/// The entry at the front of the bytes, which begin at a place, and how many bytes it has.
#[tactic(auto, unfolding(crate::specs::Reading::ace_in))]
fn ace_in(alloc: Global, place: usize, bytes: &[u8]) -> Result<(Ace, usize), DescFault>
    ensures read { ReadsAs (λ x. x) result (ace_in place bytes.now) }
    ensures within { IfOk result (λ x. x.1 ≤ length bytes.now) }
{
    let Some(header) = read_ace_header(bytes) else {
        return Err(DescFault::Bad(place));
    };
    match sid_of(alloc, &bytes[8..]) {
        Ok(sid) => Ok((
            Ace {
                deny: header.deny,
                flags: header.flags,
                mask: header.mask,
                sid,
            },
            header.size,
        )),
        Err(_) => Err(DescFault::OutOfMemory),
    }
}

fn push_ace(to: &mut Items<Ace>, ace: Ace) -> Result<(), DescFault>
    ensures ok { OnOk result (to.new ≡ to.old ++ ace ∷ []) }
    ensures err { OnErr result (to.new ≡ to.old) }
    ensures memory { IfErr result (λ e. e ≡ faults.OutOfMemory) }
{
    match to.push(ace) {
        Ok(()) => Ok(()),
        Err(failed) => {
            drop(failed);
            Err(DescFault::OutOfMemory)
        }
    }
}

/// Appends so many entries, which stand one after the other in bytes that begin at a place.
fn append_aces(
    to: &mut Items<Ace>,
    alloc: Global,
    count: u16,
    place: usize,
    bytes: &[u8],
) -> Result<(), DescFault>
    requires { place + length bytes.now < 2 ^ 64 }
    ensures ok { OnOk result (onto_front to.old (aces_in count place bytes.now) ≡ Ok to.new) }
    ensures err { IfErr result (λ fault. FailsAt fault (aces_in count place bytes.now)) }
{
    let mut rest = bytes;
    let mut at = place;
    for _ in 0..count {
        let (ace, size) = ace_in(alloc, at, rest)?;
        push_ace(to, ace)?;
        rest = from_place(rest, size);
        at += size;
    }
    Ok(())
}

/// The list at a place.
#[tactic(auto, unfolding(crate::specs::Reading::acl_at))]
fn acl_at(alloc: Global, bytes: &[u8], place: usize) -> Result<Items<Ace>, DescFault>
    ensures { ReadsAs (λ list. list) result (acl_at bytes.now place) }
{
    let list = from_place(bytes, place);
    let Some(header) = read_acl_header(list) else {
        return Err(DescFault::Bad(place));
    };
    let mut aces = Items::new(alloc);
    match append_aces(
        &mut aces,
        alloc,
        header.count,
        place + 8,
        &list[8..header.size],
    ) {
        Ok(()) => Ok(aces),
        Err(fault) => {
            drop(aces);
            Err(fault)
        }
    }
}

#[tactic(auto, unfolding(crate::specs::Reading::part_at))]
fn sid_part(alloc: Global, bytes: &[u8], offset: Option<usize>) -> Result<Option<Sid>, DescFault>
    ensures { ReadsAs (λ part. part) result (part_at sid_at bytes.now offset) }
{
    match offset {
        None => Ok(None),
        Some(place) => Ok(Some(sid_at(alloc, bytes, place)?)),
    }
}

#[tactic(auto, unfolding(crate::specs::Reading::part_at))]
fn acl_part(
    alloc: Global,
    bytes: &[u8],
    offset: Option<usize>,
) -> Result<Option<Items<Ace>>, DescFault>
    ensures { ReadsAs (λ part. part) result (part_at acl_at bytes.now offset) }
{
    match offset {
        None => Ok(None),
        Some(place) => Ok(Some(acl_at(alloc, bytes, place)?)),
    }
}

/// Puts in the place of each part what stands at its offset.
#[tactic(auto, unfolding(crate::specs::Reading::parts_of))]
fn read_parts(
    to: &mut Descriptor,
    alloc: Global,
    bytes: &[u8],
    header: &Header,
) -> Result<(), DescFault>
    ensures { ReadsAs (λ done. to.new) result (parts_of bytes.now header.now) }
{
    drop(replace(&mut to.owner, sid_part(alloc, bytes, header.owner)?));
    drop(replace(&mut to.group, sid_part(alloc, bytes, header.group)?));
    drop(replace(&mut to.list, acl_part(alloc, bytes, header.list)?));
    Ok(())
}

#[tactic(auto, unfolding(crate::specs::Reading::described, crate::specs::Reading::header_in))]
fn described(alloc: Global, bytes: &[u8]) -> Result<Descriptor, DescFault>
    ensures { ReadsAs (λ d. d) result (described bytes.now) }
{
    let Some(header) = read_header(bytes) else {
        return Err(DescFault::Bad(0));
    };
    let mut descriptor = Descriptor {
        owner: None,
        group: None,
        list: None,
    };
    match read_parts(&mut descriptor, alloc, bytes, &header) {
        Ok(()) => Ok(descriptor),
        Err(fault) => {
            drop(descriptor);
            Err(fault)
        }
    }
}

/// Reads a self-relative security descriptor (MS-DTYP, 2.4.6). Its parts may stand anywhere within
/// the bytes, also over one another. Unread are an auditing list, all bytes outside the parts,
/// reserved bytes but the one after the revision, and the control's other bits.
pub fn read_descriptor(alloc: Global, bytes: &[u8]) -> Result<Descriptor, DescFault>
    // What is read is described by these bytes.
    ensures found { IfOk result (λ d. Describes bytes.now d) }
    // What these bytes describe is read, unless memory runs out.
    ensures only { (d : Descriptor) → Describes bytes.now d → ReadsAs (λ x. x) result (Ok d) }
    // Which place it is.
    ensures place { ReadsAs (λ x. x) result (described bytes.now) }
    // What is read can be written.
    ensures writable { IfOk result (λ d. IsWritable d × IsValue d) }
{
    described(alloc, bytes)
}
