ghost use Rattle.std.specs.Prelude.{◌≡◌, ◌++◌, OnOk, codes};
ghost use Rattle.sc_lines.specs.Security.{security_text};
ghost use Rattle.sddl.specs.Writing.{sddl_text};

use super::lines::Appended;
use scm_text::{Items, OutOfMemory};
use sddl::write_sddl;
use sec_desc::{DescFault, Descriptor, read_descriptor};
use std::alloc::Global;

/// Appends a descriptor as text, in a line.
fn add_descriptor(text: &mut Items<u8>, alloc: Global, descriptor: &Descriptor) -> Appended
    ensures { OnOk result (text.new ≡ text.old ++ (sddl_text descriptor.now ++ codes "\n")) }
{
    match write_sddl(alloc, descriptor) {
        Ok(shown) => {
            let added = text.append_pair(shown.as_slice(), b"\n");
            drop(shown);
            added
        }
        Err(fault) => Err(fault),
    }
}

/// Appends the descriptor that the bytes are, as text in a line (MS-DTYP, 2.5.1), and nothing if
/// they aren't one.
pub fn add_security(text: &mut Items<u8>, alloc: Global, bytes: &[u8]) -> Appended
    ensures { OnOk result (text.new ≡ text.old ++ security_text bytes.now) }
{
    match read_descriptor(alloc, bytes) {
        Ok(descriptor) => {
            let added = add_descriptor(text, alloc, &descriptor);
            drop(descriptor);
            added
        }
        Err(DescFault::Bad(_)) => Ok(()),
        Err(DescFault::OutOfMemory) => Err(OutOfMemory),
    }
}
