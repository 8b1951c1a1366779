ghost use Rattle.std.specs.Prelude.{◌≡◌, IfOk, IfSome, IsOk, Ok, if◌then◌else◌};
ghost use Rattle.sec_desc.specs.Reading.{described};
ghost use Rattle.sec_desc.specs.Writing.{IsWritable, IsWritten, descriptor_bytes};
ghost use Rattle.scm_rules.specs.Security.{are_no_parts, base, default_descriptor, descriptor_in};
ghost use Rattle.scm_rules.specs.Security.{new_security, replaced};

use scm_text::{Items, OutOfMemory};
use sec_desc::codes::{
    DACL_SECURITY_INFORMATION, GROUP_SECURITY_INFORMATION, OWNER_SECURITY_INFORMATION,
};
use sec_desc::{DescFault, Descriptor, has_bits, read_descriptor, write_descriptor};
use std::alloc::Global;
use std::mem::swap;

/// The descriptor of a service for which none was set, as bytes (MS-DTYP, 2.4.6): owner and group
/// are S-1-5-18, and the list allows S-1-5-32-544 0xF81FF and S-1-5-32-545 0x2008D.
const DEFAULT_DESCRIPTOR: [u8; 100] = [
    1, 0, 0x04, 0x80, 20, 0, 0, 0, 32, 0, 0, 0, 0, 0, 0, 0, 44, 0, 0, 0, 1, 1, 0, 0, 0, 0, 0, 5,
    18, 0, 0, 0, 1, 1, 0, 0, 0, 0, 0, 5, 18, 0, 0, 0, 2, 0, 56, 0, 2, 0, 0, 0, 0, 0, 24, 0, 0xFF,
    0x81, 0x0F, 0, 1, 2, 0, 0, 0, 0, 0, 5, 32, 0, 0, 0, 0x20, 2, 0, 0, 0, 0, 24, 0, 0x8D, 0, 2, 0,
    1, 2, 0, 0, 0, 0, 0, 5, 32, 0, 0, 0, 0x21, 2, 0, 0,
];

fn default_bytes() -> [u8; 100]
    ensures { result ≡ descriptor_bytes default_descriptor 7 }
{
    DEFAULT_DESCRIPTOR
}

/// The descriptor that bytes are, which are one.
fn read(bytes: &[u8], alloc: Global) -> Result<Descriptor, OutOfMemory>
    requires { IsOk (described bytes.now) }
    ensures { IfOk result (λ d. described bytes.now ≡ Ok d) }
{
    match read_descriptor(alloc, bytes) {
        Ok(descriptor) => Ok(descriptor),
        Err(DescFault::OutOfMemory) => Err(OutOfMemory),
        Err(DescFault::Bad(_)) => unreachable!(),
    }
}

/// The descriptor that a service's bytes stand for.
fn base(security: &[u8], alloc: Global) -> Result<Descriptor, OutOfMemory>
    requires { IsWritten security.now }
    ensures { IfOk result (λ d. d ≡ base security.now) }
{
    if security.is_empty() {
        let default = default_bytes();
        read(&default, alloc)
    } else {
        read(security, alloc)
    }
}

/// The written parts that are asked for of the descriptor that a service's bytes stand for.
pub fn base_bytes(security: &[u8], parts: u32, alloc: Global) -> Result<Items<u8>, OutOfMemory>
    requires { IsWritten security.now }
    ensures { IfOk result (λ bytes. bytes ≡ descriptor_bytes (base security.now) parts) }
{
    let descriptor = base(security, alloc)?;
    let bytes = write_descriptor(alloc, &descriptor, parts);
    drop(descriptor);
    bytes
}

/// The descriptor that bytes are, if they are one.
pub fn descriptor_in(bytes: &[u8], alloc: Global) -> Result<Option<Descriptor>, OutOfMemory>
    ensures given { IfOk result (λ given. given ≡ descriptor_in bytes.now) }
    ensures writable { IfOk result (λ given. IfSome given IsWritable) }
{
    match read_descriptor(alloc, bytes) {
        Ok(descriptor) => Ok(Some(descriptor)),
        Err(DescFault::Bad(_)) => Ok(None),
        Err(DescFault::OutOfMemory) => Err(OutOfMemory),
    }
}

/// Whether the parts that are asked for are none, or others than owner, group and list.
pub fn are_no_parts(parts: u32) -> bool
    ensures { result ≡ are_no_parts parts }
{
    parts == 0 || parts > 7
}

/// Exchanges two parts, if that is asked for.
fn swap_if<T>(asked: bool, old: &mut T, given: &mut T)
    ensures old { old.new ≡ (if asked then given.old else old.old) }
    ensures given { given.new ≡ (if asked then old.old else given.old) }
{
    if asked {
        swap(old, given);
    }
}

/// Exchanges the parts that are asked for of two descriptors.
fn swap_parts(parts: u32, old: &mut Descriptor, given: &mut Descriptor)
    ensures old { old.new ≡ replaced parts old.old given.old }
    ensures given { given.new ≡ replaced parts given.old old.old }
{
    swap_if(
        has_bits(parts, OWNER_SECURITY_INFORMATION),
        &mut old.owner,
        &mut given.owner,
    );
    swap_if(
        has_bits(parts, GROUP_SECURITY_INFORMATION),
        &mut old.group,
        &mut given.group,
    );
    swap_if(
        has_bits(parts, DACL_SECURITY_INFORMATION),
        &mut old.list,
        &mut given.list,
    );
}

/// All parts of the descriptor that a service gets in place of what it has. While they are written,
/// it has the parts of `given`, which gets them back.
#[tactic(auto, using(crate::proofs::Swapping::swapped_back))]
pub fn new_security(
    parts: u32,
    given: &mut Descriptor,
    security: &[u8],
    alloc: Global,
) -> Result<Items<u8>, OutOfMemory>
    requires written { IsWritten security.now }
    requires given { IsWritable given.old }
    ensures bytes { IfOk result (λ bytes. bytes ≡ new_security parts given.old security.now) }
    ensures given { given.new ≡ given.old }
{
    let mut descriptor = base(security, alloc)?;
    swap_parts(parts, &mut descriptor, given);
    let bytes = write_descriptor(alloc, &descriptor, 7);
    swap_parts(parts, &mut descriptor, given);
    drop(descriptor);
    bytes
}
