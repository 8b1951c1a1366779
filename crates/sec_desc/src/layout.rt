ghost use Rattle.std.specs.Prelude.{◌≡◌, None, Some, drop, if◌then◌else◌};
ghost use Rattle.sec_desc.specs.Layout.{ace_header_of, acl_header_of, descriptor_header, is_ace};
ghost use Rattle.sec_desc.specs.Layout.{is_acl};
ghost use Rattle.sec_desc.specs.Layout.{is_header, is_sid, list_offset, offset, sid_size};

use crate::codes::{
    ACCESS_DENIED_ACE_TYPE, ACL_REVISION, ACL_REVISION_DS, SE_DACL_PRESENT, SE_SELF_RELATIVE,
    SECURITY_DESCRIPTOR_REVISION, SID_MAX_SUB_AUTHORITIES, SID_REVISION,
};
use crate::numbers::{u16_at, u32_at};

/// Where the parts of a descriptor begin, in bytes from its start (MS-DTYP, 2.4.6).
#[derive(Clone, Copy)]
pub struct Header {
    pub owner: Option<usize>,
    pub group: Option<usize>,
    pub list: Option<usize>,
}

/// The fixed part of a list (MS-DTYP, 2.4.5).
#[derive(Clone, Copy)]
pub struct AclHeader {
    /// How many bytes the list has, these eight too.
    pub size: usize,
    /// How many entries.
    pub count: u16,
}

/// The fixed part of an entry (MS-DTYP, 2.4.4). Its identity stands after these eight bytes.
#[derive(Clone, Copy)]
pub struct AceHeader {
    pub deny: bool,
    pub flags: u8,
    pub mask: u32,
    /// How many bytes the entry has, these eight too.
    pub size: usize,
}

/// The bytes from a place on, none if it is past the end. It takes no memory.
pub fn from_place(bytes: &[u8], place: usize) -> &[u8]
    ensures { result.now ≡ drop place bytes.now }
{
    if place <= bytes.len() {
        &bytes[place..]
    } else {
        &[]
    }
}

fn offset(number: u32) -> Option<usize>
    ensures { result ≡ offset number }
{
    if number == 0 {
        None
    } else {
        Some(number as usize)
    }
}

fn list_offset(control: u16, number: u32) -> Option<usize>
    ensures { result ≡ list_offset control number }
{
    if control & SE_DACL_PRESENT == SE_DACL_PRESENT {
        offset(number)
    } else {
        None
    }
}

fn is_header(bytes: &[u8]) -> bool
    ensures { result ≡ is_header bytes.now }
{
    20 <= bytes.len()
        && bytes[0] == SECURITY_DESCRIPTOR_REVISION
        && bytes[1] == 0
        && u16_at(bytes, 2) & SE_SELF_RELATIVE == SE_SELF_RELATIVE
}

/// The fixed part of the descriptor at the front of the bytes. It takes no memory.
pub fn read_header(bytes: &[u8]) -> Option<Header>
    ensures { result ≡ (if is_header bytes.now then Some (descriptor_header bytes.now) else None) }
{
    if !is_header(bytes) {
        return None;
    }
    Some(Header {
        owner: offset(u32_at(bytes, 4)),
        group: offset(u32_at(bytes, 8)),
        list: list_offset(u16_at(bytes, 2), u32_at(bytes, 16)),
    })
}

/// How many bytes an identity of so many parts has.
pub fn sid_size(count: u8) -> usize
    ensures { result ≡ sid_size count }
{
    8 + 4 * usize::from(count)
}

/// Whether an identity stands at the front of the bytes.
pub fn is_sid(bytes: &[u8]) -> bool
    ensures { result ≡ is_sid bytes.now }
{
    8 <= bytes.len()
        && bytes[0] == SID_REVISION
        && bytes[1] <= SID_MAX_SUB_AUTHORITIES
        && sid_size(bytes[1]) <= bytes.len()
}

fn is_ace(bytes: &[u8]) -> bool
    ensures { result ≡ is_ace bytes.now }
{
    if bytes.len() < 8 || ACCESS_DENIED_ACE_TYPE < bytes[0] || !is_sid(&bytes[8..]) {
        return false;
    }
    let size = usize::from(u16_at(bytes, 2));
    8 + sid_size(bytes[9]) <= size && size <= bytes.len()
}

/// The fixed part of the entry at the front of the bytes, if one stands there with its identity.
/// It takes no memory.
pub fn read_ace_header(bytes: &[u8]) -> Option<AceHeader>
    ensures { result ≡ (if is_ace bytes.now then Some (ace_header_of bytes.now) else None) }
{
    if !is_ace(bytes) {
        return None;
    }
    Some(AceHeader {
        deny: bytes[0] == ACCESS_DENIED_ACE_TYPE,
        flags: bytes[1],
        mask: u32_at(bytes, 4),
        size: usize::from(u16_at(bytes, 2)),
    })
}

fn is_acl(bytes: &[u8]) -> bool
    ensures { result ≡ is_acl bytes.now }
{
    if bytes.len() < 8 || (bytes[0] != ACL_REVISION && bytes[0] != ACL_REVISION_DS) {
        return false;
    }
    let size = usize::from(u16_at(bytes, 2));
    8 <= size && size <= bytes.len()
}

/// The fixed part of the list at the front of the bytes, if one stands there; its entries are
/// unread. It takes no memory.
pub fn read_acl_header(bytes: &[u8]) -> Option<AclHeader>
    ensures { result ≡ (if is_acl bytes.now then Some (acl_header_of bytes.now) else None) }
{
    if !is_acl(bytes) {
        return None;
    }
    Some(AclHeader {
        size: usize::from(u16_at(bytes, 2)),
        count: u16_at(bytes, 4),
    })
}
