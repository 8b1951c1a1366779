ghost use Rattle.std.specs.Prelude.{◌≡◌, true, IsOk};
ghost use Rattle.sec_desc.specs.Layout.{ace_header_of, ace_of, is_ace};
ghost use Rattle.sec_desc.specs.Reading.{aces_in};
ghost use Rattle.sec_desc.specs.Writing.{IsWritten};
ghost use Rattle.sec_check.specs.Allowed.{aces_of, decided_after, allowed_by, counts as ace_counts};
ghost use Rattle.sec_check.specs.Allowed.{list_of};
ghost use Rattle.sec_check.specs.Allowed.{maximum_by as maximum_of_list, maximum_for, with_ace};

use crate::identities::has_sid;
use scm_model::Principal;
use scm_model::codes::MAXIMUM_ALLOWED;
use sec_desc::codes::INHERIT_ONLY_ACE;
use sec_desc::{AceHeader, from_place, has_bits, read_ace_header, read_acl_header, read_header};

/// How far the entries so far have decided.
#[derive(Clone, Copy)]
struct Decided {
    /// The bits that are allowed.
    given: u32,
    /// The bits that are decided, allowed or denied.
    known: u32,
}

impl Decided {
    /// With an entry more, which decides those of its bits that no earlier entry had.
    fn after(self, entry: &AceHeader) -> Decided
        ensures { result ≡ decided_after self entry.now.deny entry.now.mask }
    {
        let given = if entry.deny {
            self.given
        } else {
            self.given | entry.mask & !self.known
        };
        Decided {
            given,
            known: self.known | entry.mask,
        }
    }
}

/// Whether the entry at the front of the bytes, which has this fixed part, counts.
fn counts(principal: Principal, bytes: &[u8], entry: &AceHeader) -> bool
    requires is { is_ace bytes.now ≡ true }
    requires fixed { entry.now ≡ ace_header_of bytes.now }
    ensures { result ≡ ace_counts principal (ace_of bytes.now) }
{
    entry.flags & INHERIT_ONLY_ACE == 0 && has_sid(principal, &bytes[8..])
}

/// With the entry at the front of the bytes, if it counts.
fn with_entry(so_far: Decided, principal: Principal, bytes: &[u8], entry: &AceHeader) -> Decided
    requires is { is_ace bytes.now ≡ true }
    requires fixed { entry.now ≡ ace_header_of bytes.now }
    ensures { result ≡ with_ace principal so_far (ace_of bytes.now) }
{
    if counts(principal, bytes, entry) {
        so_far.after(entry)
    } else {
        so_far
    }
}

/// Every bit that so many entries, one after the other, allow.
fn maximum(principal: Principal, entries: &[u8], count: u16) -> u32
    requires { IsOk (aces_in count 0 entries.now) }
    ensures { result ≡ maximum_for principal (aces_of (aces_in count 0 entries.now)) }
{
    let mut so_far = Decided { given: 0, known: 0 };
    let mut at = 0;
    for _ in 0..count {
        let rest = from_place(entries, at);
        let Some(entry) = read_ace_header(rest) else {
            unreachable!()
        };
        so_far = with_entry(so_far, principal, rest, &entry);
        at += entry.size;
    }
    so_far.given
}

/// Every bit that a written descriptor allows.
fn maximum_by(principal: Principal, security: &[u8]) -> u32
    requires { IsWritten security.now }
    ensures { result ≡ maximum_of_list (list_of security.now) principal }
{
    if security.is_empty() {
        return u32::MAX;
    }
    let Some(header) = read_header(security) else {
        unreachable!()
    };
    let Some(place) = header.list else {
        return u32::MAX;
    };
    let list = from_place(security, place);
    let Some(acl) = read_acl_header(list) else {
        unreachable!()
    };
    maximum(principal, &list[8..acl.size], acl.count)
}

/// What a written descriptor allows a principal of the rights that it asks for: all of them, or
/// none. With `MAXIMUM_ALLOWED` it returns every bit that is allowed, whatever else is asked for.
/// Generic rights have to be mapped before, and an entry's mask is compared bit by bit. No bytes
/// stand for a descriptor that isn't set, which allows everything. Entries are evaluated in order
/// (MS-DTYP, 2.5.3.2); ownership gives no rights. It takes no memory.
pub fn allowed(security: &[u8], principal: Principal, desired: u32) -> Option<u32>
    requires { IsWritten security.now }
    ensures { result ≡ allowed_by (list_of security.now) principal desired }
{
    let maximum = maximum_by(principal, security);
    if has_bits(desired, MAXIMUM_ALLOWED) {
        Some(maximum)
    } else if has_bits(maximum, desired) {
        Some(desired)
    } else {
        None
    }
}
