//! The numbers of descriptors, under their names in MS-DTYP and Win32's `winnt.h`.

/// The first byte of a descriptor.
pub const SECURITY_DESCRIPTOR_REVISION: u8 = 1;

// Bits of a descriptor's control (MS-DTYP, 2.4.6).

/// There is an access list.
pub const SE_DACL_PRESENT: u16 = 0x0004;
/// The parts stand at offsets from the descriptor's start.
pub const SE_SELF_RELATIVE: u16 = 0x8000;

/// The first byte of an identity (MS-DTYP, 2.4.2.2).
pub const SID_REVISION: u8 = 1;

pub const SID_MAX_SUB_AUTHORITIES: u8 = 15;

// The first byte of a list (MS-DTYP, 2.4.5).

pub const ACL_REVISION: u8 = 2;

pub const ACL_REVISION_DS: u8 = 4;

// Types of entries (MS-DTYP, 2.4.4.1).

pub const ACCESS_ALLOWED_ACE_TYPE: u8 = 0;

pub const ACCESS_DENIED_ACE_TYPE: u8 = 1;

// Flags of entries.

/// The entry is for what is made within the object, not for the object.
pub const INHERIT_ONLY_ACE: u8 = 0x08;

// Parts of a descriptor that a call asks for, a bit each (`SECURITY_INFORMATION`).

pub const OWNER_SECURITY_INFORMATION: u32 = 1;

pub const GROUP_SECURITY_INFORMATION: u32 = 2;

pub const DACL_SECURITY_INFORMATION: u32 = 4;

// Standard rights (MS-DTYP, 2.4.3).

/// To read the descriptor.
pub const READ_CONTROL: u32 = 0x2_0000;
/// To replace the descriptor's list.
pub const WRITE_DAC: u32 = 0x4_0000;
/// To replace the descriptor's owner and group.
pub const WRITE_OWNER: u32 = 0x8_0000;
