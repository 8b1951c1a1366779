ghost use Rattle.std.specs.Prelude.{◌++◌, ◌≡◌, IfOk, OnOk, codes, false, string_bytes};
ghost use Rattle.std.specs.Fmt.{digits};
ghost use Rattle.std.specs.List.{flat_map};
ghost use Rattle.sddl.specs.Tables.{access_rights};
ghost use Rattle.sddl.specs.Writing.{ace_text, head_text, kind_text, letters_text, part_if};
ghost use Rattle.sddl.specs.Writing.{rights_text, sddl_text, sid_text};

use crate::sids::put_sid;
use crate::tables::{ACCESS_RIGHTS, ACE_FLAGS, ALL_RIGHTS, Letters};
use scm_text::{Items, OutOfMemory};
use sec_desc::{Ace, Descriptor, Sid, has_bits};
use std::alloc::{AllocError, Global};

/// Appends the letters of the bits that have some.
#[tactic(auto, unfolding(crate::specs::Writing::letters_text))]
fn put_letters(out: &mut Items<u8>, table: &[Letters], bits: u32) -> Result<(), OutOfMemory>
    ensures { OnOk result (out.new ≡ out.old ++ letters_text table.now bits) }
{
    for letters in table {
        if has_bits(bits, letters.bit) {
            out.append(&letters.pair)?;
        }
    }
    Ok(())
}

fn hex_text(alloc: Global, number: u32) -> Result<String, AllocError>
    ensures { IfOk result (λ text. string_bytes text ≡ digits 16 false number) }
{
    format!(in alloc; "{number:x}")
}

/// Appends a number in hexadecimal.
fn put_hex(out: &mut Items<u8>, alloc: Global, number: u32) -> Result<(), OutOfMemory>
    ensures { OnOk result (out.new ≡ out.old ++ (codes "0x" ++ digits 16 false number)) }
{
    let Ok(text) = hex_text(alloc, number) else {
        return Err(OutOfMemory);
    };
    let put = out.append_pair(b"0x", text.as_bytes());
    drop(text);
    put
}

/// Appends the letters of rights.
fn put_right_letters(out: &mut Items<u8>, mask: u32) -> Result<(), OutOfMemory>
    ensures { OnOk result (out.new ≡ out.old ++ letters_text access_rights mask) }
{
    put_letters(out, &ACCESS_RIGHTS, mask)
}

/// Appends rights: letters, or a hexadecimal number if one has none.
#[tactic(auto, unfolding(crate::specs::Writing::rights_text))]
fn put_rights(out: &mut Items<u8>, alloc: Global, mask: u32) -> Result<(), OutOfMemory>
    ensures { OnOk result (out.new ≡ out.old ++ rights_text mask) }
{
    if has_bits(ALL_RIGHTS, mask) {
        put_right_letters(out, mask)
    } else {
        put_hex(out, alloc, mask)
    }
}

fn kind_text(deny: bool) -> &'static str
    ensures { result.now ≡ kind_text deny }
{
    if deny { "D" } else { "A" }
}

#[tactic(auto, unfolding(crate::specs::Writing::head_text))]
fn put_head(out: &mut Items<u8>, alloc: Global, ace: &Ace) -> Result<(), OutOfMemory>
    ensures { OnOk result (out.new ≡ out.old ++ head_text ace.now) }
{
    out.append(b"(")?;
    out.append_pair(kind_text(ace.deny).as_bytes(), b";")?;
    put_letters(out, &ACE_FLAGS, u32::from(ace.flags))?;
    out.append(b";")?;
    put_rights(out, alloc, ace.mask)?;
    out.append(b";;;")
}

#[tactic(auto, unfolding(crate::specs::Writing::ace_text))]
fn put_ace(out: &mut Items<u8>, alloc: Global, ace: &Ace) -> Result<(), OutOfMemory>
    ensures { OnOk result (out.new ≡ out.old ++ ace_text ace.now) }
{
    put_head(out, alloc, ace)?;
    put_sid(out, &ace.sid)?;
    out.append(b")")
}

fn put_aces(out: &mut Items<u8>, alloc: Global, aces: &[Ace]) -> Result<(), OutOfMemory>
    ensures { OnOk result (out.new ≡ out.old ++ flat_map ace_text aces.now) }
{
    for ace in aces {
        put_ace(out, alloc, ace)?;
    }
    Ok(())
}

/// Appends an identity after a label, if it is there.
fn put_sid_part(out: &mut Items<u8>, label: &str, part: &Option<Sid>) -> Result<(), OutOfMemory>
    ensures { OnOk result (out.new ≡ out.old ++ part_if label.now sid_text part.now) }
{
    match part {
        None => Ok(()),
        Some(sid) => {
            out.append(label.as_bytes())?;
            put_sid(out, sid)
        }
    }
}

/// Appends a list after its label, if it is there.
fn put_list_part(
    out: &mut Items<u8>,
    alloc: Global,
    part: &Option<Items<Ace>>,
) -> Result<(), OutOfMemory>
    ensures { OnOk result (out.new
        ≡ out.old ++ part_if (codes "D:") (flat_map ace_text) part.now) }
{
    match part {
        None => Ok(()),
        Some(aces) => {
            out.append(b"D:")?;
            put_aces(out, alloc, aces.as_slice())
        }
    }
}

#[tactic(auto, unfolding(crate::specs::Writing::sddl_text))]
fn put_descriptor(out: &mut Items<u8>, alloc: Global, value: &Descriptor) -> Result<(), OutOfMemory>
    ensures { OnOk result (out.new ≡ out.old ++ sddl_text value.now) }
{
    put_sid_part(out, "O:", &value.owner)?;
    put_sid_part(out, "G:", &value.group)?;
    put_list_part(out, alloc, &value.list)
}

/// Writes a descriptor as text (MS-DTYP, 2.5.1.1), in ASCII: `O:`, `G:` and `D:`, as far as the
/// parts are there. Rights and the identities that are the same on each machine stand in letters.
/// The flag 0x20 has no letters, and isn't written.
pub fn write_sddl(alloc: Global, value: &Descriptor) -> Result<Items<u8>, OutOfMemory>
    ensures { IfOk result (λ text. text ≡ sddl_text value.now) }
{
    let mut out = Items::new(alloc);
    match put_descriptor(&mut out, alloc, value) {
        Ok(()) => Ok(out),
        Err(fault) => {
            drop(out);
            Err(fault)
        }
    }
}
