ghost use Rattle.std.specs.Prelude.{◌≡◌, IfOk};
ghost use Rattle.sc_words.specs.Security.{bit_if, new_security, parts_of, right_of_parts};
ghost use Rattle.sc_words.specs.Security.{security_named};
ghost use Rattle.sec_desc.specs.Writing.{IsWritable};

use scm_text::{Items, OutOfMemory};
use sddl::{SddlFault, read_sddl};
use sec_desc::codes::{
    DACL_SECURITY_INFORMATION, GROUP_SECURITY_INFORMATION, OWNER_SECURITY_INFORMATION, WRITE_DAC,
    WRITE_OWNER,
};
use sec_desc::{Descriptor, has_bits, write_descriptor};
use std::alloc::Global;

/// What a service's security descriptor is to have.
pub struct NewSecurity {
    /// The parts that are set: `SECURITY_INFORMATION`, a bit each.
    pub parts: u32,
    /// A descriptor with these parts, self-relative.
    pub bytes: Items<u8>,
}

impl Drop for NewSecurity {
    fn drop(self) {
        let NewSecurity {
            parts: _parts,
            bytes,
        } = self;
        drop(bytes);
    }
}

/// A bit, if a part is there.
fn bit_if<T>(part: &Option<T>, bit: u32) -> u32
    ensures { result ≡ bit_if part.now bit }
{
    if part.is_some() { bit } else { 0 }
}

/// The parts that a descriptor has, a bit each.
fn parts_of(descriptor: &Descriptor) -> u32
    ensures { result ≡ parts_of descriptor.now }
{
    bit_if(&descriptor.owner, OWNER_SECURITY_INFORMATION)
        | bit_if(&descriptor.group, GROUP_SECURITY_INFORMATION)
        | bit_if(&descriptor.list, DACL_SECURITY_INFORMATION)
}

fn new_security(alloc: Global, descriptor: &Descriptor) -> Result<NewSecurity, OutOfMemory>
    requires { IsWritable descriptor.now }
    ensures { IfOk result (λ new. new ≡ new_security descriptor.now) }
{
    let parts = parts_of(descriptor);
    let bytes = write_descriptor(alloc, descriptor, parts)?;
    Ok(NewSecurity { parts, bytes })
}

/// What the word stands for: a descriptor as text (MS-DTYP, 2.5.1).
#[tactic(auto, unfolding(crate::specs::Security::security_named))]
pub fn security_named(alloc: Global, word: &str) -> Result<Option<NewSecurity>, OutOfMemory>
    ensures { IfOk result (λ new. new ≡ security_named word.now) }
{
    match read_sddl(alloc, word) {
        Ok(descriptor) => {
            let new = new_security(alloc, &descriptor);
            drop(descriptor);
            match new {
                Ok(new) => Ok(Some(new)),
                Err(fault) => Err(fault),
            }
        }
        Err(SddlFault::Bad(_)) => Ok(None),
        Err(SddlFault::OutOfMemory) => Err(OutOfMemory),
    }
}

/// The rights that setting these parts needs.
pub fn right_of_parts(parts: u32) -> u32
    ensures { result ≡ right_of_parts parts }
{
    let owner = has_bits(parts, OWNER_SECURITY_INFORMATION)
        || has_bits(parts, GROUP_SECURITY_INFORMATION);
    let list = has_bits(parts, DACL_SECURITY_INFORMATION);
    match (owner, list) {
        (true, true) => WRITE_OWNER + WRITE_DAC,
        (true, false) => WRITE_OWNER,
        (false, true) => WRITE_DAC,
        (false, false) => 0,
    }
}
