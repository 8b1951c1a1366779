ghost use Rattle.std.specs.Prelude.{◌≡◌, ◌++◌, ◌+◌, ◌<◌, ◌≤◌, ◌^◌, All, IfOk, IfSome, OnOk, length};
ghost use Rattle.std.specs.List.{flat_map};
ghost use Rattle.std.specs.Option.{option_copied};
ghost use Rattle.sec_desc.specs.declared.value.Ace.{Ace};
ghost use Rattle.sec_desc.specs.Numbers.{bytes_32};
ghost use Rattle.sec_desc.specs.Writing.{IsShort, IsWritable, IsWritableAcl, ace_bytes};
ghost use Rattle.sec_desc.specs.Writing.{ace_front as front_of_ace, acl_bytes};
ghost use Rattle.sec_desc.specs.Writing.{acl_front as front_of_acl, control_for, descriptor_bytes};
ghost use Rattle.sec_desc.specs.Writing.{header_for, offset_of, part_bytes, part_if, part_size};
ghost use Rattle.sec_desc.specs.Writing.{seen, sid_bytes, size_of_ace, size_of_aces, size_of_sid};
ghost use Rattle.sec_desc.specs.Writing.{packed};

use crate::codes::{
    ACCESS_ALLOWED_ACE_TYPE, ACCESS_DENIED_ACE_TYPE, ACL_REVISION, DACL_SECURITY_INFORMATION,
    GROUP_SECURITY_INFORMATION, OWNER_SECURITY_INFORMATION, SE_DACL_PRESENT, SE_SELF_RELATIVE,
    SECURITY_DESCRIPTOR_REVISION, SID_REVISION,
};
use crate::numbers::has_bits;
use crate::value::{Ace, Descriptor, Sid};
use scm_text::{Items, OutOfMemory};
use std::alloc::Global;

#[tactic(auto, unfolding(crate::specs::Numbers::bytes_32))]
fn put_numbers(out: &mut Items<u8>, numbers: &[u32]) -> Result<(), OutOfMemory>
    ensures { OnOk result (out.new ≡ out.old ++ flat_map bytes_32 numbers.now) }
{
    for number in numbers {
        out.append(&number.to_le_bytes())?;
    }
    Ok(())
}

// Identities.

fn size_of_sid(sid: &Sid) -> u32
    requires { IsShort sid.now }
    ensures { result ≡ size_of_sid sid.now }
{
    8 + 4 * sid.parts.len() as u32
}

#[tactic(auto, unfolding(crate::specs::Writing::sid_bytes))]
fn put_sid(out: &mut Items<u8>, sid: &Sid) -> Result<(), OutOfMemory>
    requires { IsShort sid.now }
    ensures { OnOk result (out.new ≡ out.old ++ sid_bytes sid.now) }
{
    out.append(&[SID_REVISION, sid.parts.len() as u8])?;
    out.append(&sid.authority)?;
    put_numbers(out, sid.parts.as_slice())
}

// Entries.

fn size_of_ace(ace: &Ace) -> u32
    requires { IsShort ace.now.sid }
    ensures { result ≡ size_of_ace ace.now }
{
    8 + size_of_sid(&ace.sid)
}

/// The fixed part of an entry of this size.
#[tactic(auto, unfolding(crate::specs::Writing::ace_front, crate::specs::Numbers::bytes_16, crate::specs::Numbers::bytes_32))]
fn ace_front(ace: &Ace, size: u16) -> [u8; 8]
    ensures { result ≡ front_of_ace ace.now size }
{
    let kind = if ace.deny {
        ACCESS_DENIED_ACE_TYPE
    } else {
        ACCESS_ALLOWED_ACE_TYPE
    };
    let [low, high] = size.to_le_bytes();
    let [first, second, third, fourth] = ace.mask.to_le_bytes();
    [kind, ace.flags, low, high, first, second, third, fourth]
}

fn put_ace(out: &mut Items<u8>, ace: &Ace) -> Result<(), OutOfMemory>
    requires { IsShort ace.now.sid }
    ensures { OnOk result (out.new ≡ out.old ++ ace_bytes ace.now) }
{
    out.append(&ace_front(ace, size_of_ace(ace) as u16))?;
    put_sid(out, &ace.sid)
}

fn put_aces(out: &mut Items<u8>, aces: &[Ace]) -> Result<(), OutOfMemory>
    requires { All (λ (ace : Ace). IsShort ace.sid) aces.now }
    ensures { OnOk result (out.new ≡ out.old ++ flat_map ace_bytes aces.now) }
{
    for ace in aces {
        put_ace(out, ace)?;
    }
    Ok(())
}

// Lists.

fn size_of_aces(aces: &[Ace]) -> u32
    requires short { All (λ (ace : Ace). IsShort ace.sid) aces.now }
    requires small { size_of_aces aces.now < 2 ^ 16 }
    ensures { result ≡ size_of_aces aces.now }
{
    let mut size = 0;
    for ace in aces {
        size += size_of_ace(ace);
    }
    size
}

/// The fixed part of a list of this size.
#[tactic(auto, unfolding(crate::specs::Writing::acl_front, crate::specs::Numbers::bytes_16))]
fn acl_front(size: u16, count: u16) -> [u8; 8]
    ensures { result ≡ front_of_acl size count }
{
    let [low, high] = size.to_le_bytes();
    let [count_low, count_high] = count.to_le_bytes();
    [ACL_REVISION, 0, low, high, count_low, count_high, 0, 0]
}

#[tactic(auto, using(crate::proofs::Sizes::few_aces))]
fn put_acl(out: &mut Items<u8>, aces: &Items<Ace>) -> Result<(), OutOfMemory>
    requires { IsWritableAcl aces.now }
    ensures { OnOk result (out.new ≡ out.old ++ acl_bytes aces.now) }
{
    let size = 8 + size_of_aces(aces.as_slice());
    out.append(&acl_front(size as u16, aces.len() as u16))?;
    put_aces(out, aces.as_slice())
}

// Parts of a descriptor, each there or not.

fn put_sid_part(out: &mut Items<u8>, part: Option<&Sid>) -> Result<(), OutOfMemory>
    requires { IfSome (option_copied part) IsShort }
    ensures { OnOk result (out.new ≡ out.old ++ part_bytes sid_bytes (option_copied part.entry)) }
{
    match part {
        None => Ok(()),
        Some(sid) => put_sid(out, sid),
    }
}

fn put_acl_part(out: &mut Items<u8>, part: Option<&Items<Ace>>) -> Result<(), OutOfMemory>
    requires { IfSome (option_copied part) IsWritableAcl }
    ensures { OnOk result (out.new ≡ out.old ++ part_bytes acl_bytes (option_copied part.entry)) }
{
    match part {
        None => Ok(()),
        Some(aces) => put_acl(out, aces),
    }
}

fn size_of_part(part: Option<&Sid>) -> u32
    requires { IfSome (option_copied part) IsShort }
    ensures value { result ≡ part_size size_of_sid (option_copied part.entry) }
    ensures small { result ≤ 68 }
{
    match part {
        None => 0,
        Some(sid) => size_of_sid(sid),
    }
}

/// The offset of a part that begins at a place, 0 if it isn't there.
fn offset_of<T>(place: u32, part: Option<&T>) -> u32
    ensures { result ≡ offset_of place (option_copied part.entry) }
{
    match part {
        None => 0,
        Some(_) => place,
    }
}

fn control_for(list: Option<&Items<Ace>>) -> u16
    ensures { result ≡ control_for (option_copied list.entry) }
{
    match list {
        None => SE_SELF_RELATIVE,
        Some(_) => SE_SELF_RELATIVE | SE_DACL_PRESENT,
    }
}

/// The parts of a descriptor that are written.
#[derive(Clone, Copy)]
struct Parts<'a> {
    owner: Option<&'a Sid>,
    group: Option<&'a Sid>,
    list: Option<&'a Items<Ace>>,
}

#[tactic(auto, unfolding(crate::specs::Writing::header_bytes, crate::specs::Numbers::bytes_16))]
fn put_header(out: &mut Items<u8>, parts: &Parts) -> Result<(), OutOfMemory>
    requires { IsWritable (seen parts.now) }
    ensures { OnOk result (out.new ≡ out.old ++ header_for (seen parts.now)) }
{
    let group_place = 20 + size_of_part(parts.owner);
    let list_place = group_place + size_of_part(parts.group);
    let [low, high] = control_for(parts.list).to_le_bytes();
    out.append(&[SECURITY_DESCRIPTOR_REVISION, 0, low, high])?;
    let offsets = [
        offset_of(20, parts.owner),
        offset_of(group_place, parts.group),
        0,
        offset_of(list_place, parts.list),
    ];
    put_numbers(out, &offsets)
}

#[tactic(auto, unfolding(crate::specs::Writing::packed))]
fn put_parts(out: &mut Items<u8>, parts: &Parts) -> Result<(), OutOfMemory>
    requires { IsWritable (seen parts.now) }
    ensures { OnOk result (out.new ≡ out.old ++ packed (seen parts.now)) }
{
    put_header(out, parts)?;
    put_sid_part(out, parts.owner)?;
    put_sid_part(out, parts.group)?;
    put_acl_part(out, parts.list)
}

/// A part, if it is asked for.
fn part_if<T>(asked: bool, part: &Option<T>) -> Option<&T>
    ensures { option_copied result ≡ part_if asked part.now }
{
    if asked { part.as_ref() } else { None }
}

/// Writes the parts of a descriptor that are asked for, a bit of `SECURITY_INFORMATION` each, in
/// self-relative form (MS-DTYP, 2.4.6): the header, then owner, group and list without gaps.
pub fn write_descriptor(
    alloc: Global,
    value: &Descriptor,
    parts: u32,
) -> Result<Items<u8>, OutOfMemory>
    requires { IsWritable value.now }
    ensures { IfOk result (λ bytes. bytes ≡ descriptor_bytes value.now parts) }
{
    let parts = Parts {
        owner: part_if(has_bits(parts, OWNER_SECURITY_INFORMATION), &value.owner),
        group: part_if(has_bits(parts, GROUP_SECURITY_INFORMATION), &value.group),
        list: part_if(has_bits(parts, DACL_SECURITY_INFORMATION), &value.list),
    };
    let mut out = Items::new(alloc);
    match put_parts(&mut out, &parts) {
        Ok(()) => Ok(out),
        Err(fault) => {
            drop(out);
            Err(fault)
        }
    }
}
