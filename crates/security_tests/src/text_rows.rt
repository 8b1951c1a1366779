//! The rows. Bytes are in hex, in groups of four. They were laid out by hand after MS-DTYP 2.4.2
//! (identities), 2.4.4 (entries), 2.4.5 (lists) and 2.4.6 (descriptors), or are what Samba 4.17
//! packs of the text, but for the list's revision. The letters are those of MS-DTYP 2.5.1.1.
use crate::descriptor_rows::NOTHING;

/// A text, and the bytes of the same descriptor.
pub type Same = (&'static str, &'static str);

/// A text that is no descriptor, and where the first item begins that is wrong.
pub type Bad = (&'static str, usize);

/// What `sc sdshow` prints of a service of Windows that has its first descriptor.
const SERVICE_TEXT: &str =
    "D:(A;;CCLCSWRPWPDTLOCRRC;;;SY)(A;;CCDCLCSWRPWPDTLOCRSDRCWDWO;;;BA)(A;;CCLCSWLOCRRC;;;IU)\
     (A;;CCLCSWLOCRRC;;;SU)";

const SERVICE: &str =
    "01000480 00000000 00000000 00000000 14000000 02005c00 04000000 00001400 fd010200 \
         01010000 00000005 12000000 00001800 ff010f00 01020000 00000005 20000000 20020000 \
         00001400 8d010200 01010000 00000005 04000000 00001400 8d010200 01010000 00000005 \
         06000000";

/// An owner, a group, and rights that have no letters beside rights that have.
const OWNED: &str =
    "01000480 14000000 20000000 00000000 2c000000 01010000 00000005 12000000 01010000 \
         00000005 12000000 02003800 02000000 00001800 ff810f00 01020000 00000005 20000000 \
         20020000 00001800 8d000200 01020000 00000005 20000000 21020000";

/// An entry that is inherited only, after one that denies.
const INHERITED: &str =
    "01000480 00000000 00000000 00000000 14000000 02003000 02000000 010b1400 00000010 \
         01010000 00000001 00000000 00001400 00000010 01010000 00000003 00000000";

/// An account of a domain: S-1-5-21-1004336348-1177238915-682003330-512.
const DOMAIN: &str =
    "01000080 14000000 00000000 00000000 00000000 01050000 00000005 15000000 dcf4dc3b \
         833d2b46 828ba628 00020000";

/// Written as they are read, both ways.
pub const SAME: [Same; 12] = [
    ("", NOTHING),
    (SERVICE_TEXT, SERVICE),
    ("O:SYG:SYD:(A;;0xf81ff;;;BA)(A;;CCLCSWLORC;;;BU)", OWNED),
    ("D:(D;OICIIO;GA;;;WD)(A;;GA;;;CO)", INHERITED),
    ("O:S-1-5-21-1004336348-1177238915-682003330-512", DOMAIN),
    // An empty list, which allows nothing.
    (
        "D:",
        "01000480 00000000 00000000 00000000 14000000 02000800 00000000",
    ),
    // No rights.
    (
        "D:(A;;;;;WD)",
        "01000480 00000000 00000000 00000000 14000000 02001c00 01000000 00001400 00000000 \
         01010000 00000001 00000000",
    ),
    // Every flag that has letters, and every generic right.
    (
        "D:(A;OICINPIOIDSAFA;GAGXGWGR;;;AU)",
        "01000480 00000000 00000000 00000000 14000000 02001c00 01000000 00df1400 000000f0 \
         01010000 00000005 0b000000",
    ),
    // The greatest mask, and one with a bit that no letters have.
    (
        "D:(A;;0xffffffff;;;AU)(D;;0x200;;;AU)",
        "01000480 00000000 00000000 00000000 14000000 02003000 02000000 00001400 ffffffff \
         01010000 00000005 0b000000 01001400 00020000 01010000 00000005 0b000000",
    ),
    // An owner with no parts and a group with fifteen.
    (
        "O:S-1-5G:S-1-5-1-2-3-4-5-6-7-8-9-10-11-12-13-14-15",
        "01000080 14000000 1c000000 00000000 00000000 01000000 00000005 010f0000 00000005 \
         01000000 02000000 03000000 04000000 05000000 06000000 07000000 08000000 09000000 \
         0a000000 0b000000 0c000000 0d000000 0e000000 0f000000",
    ),
    // The greatest authority in decimal, and the least in hexadecimal.
    (
        "O:S-1-4294967295-0G:S-1-0x000100000000-4294967295",
        "01000080 14000000 20000000 00000000 00000000 01010000 ffffffff 00000000 01010001 \
         00000000 ffffffff",
    ),
    // An authority in hexadecimal, before a list.
    (
        "O:S-1-0x123456789abcD:",
        "01000480 14000000 00000000 00000000 1c000000 01001234 56789abc 02000800 00000000",
    ),
];

/// Other texts of a descriptor: its bytes, and how it is written.
pub const OTHER: [(&str, &str, &str); 4] = [
    // Rights and an identity in numbers.
    (
        "D:(A;;0x20000000;;;S-1-1-0)",
        "01000480 00000000 00000000 00000000 14000000 02001c00 01000000 00001400 00000020 \
         01010000 00000001 00000000",
        "D:(A;;GX;;;WD)",
    ),
    // Letters twice, and in another order.
    (
        "D:(A;IOCIIO;GRGXGR;;;WD)",
        "01000480 00000000 00000000 00000000 14000000 02001c00 01000000 000a1400 000000a0 \
         01010000 00000001 00000000",
        "D:(A;CIIO;GXGR;;;WD)",
    ),
    // Capitals and zeros in front.
    (
        "D:(A;;0x00000ABC;;;WD)",
        "01000480 00000000 00000000 00000000 14000000 02001c00 01000000 00001400 bc0a0000 \
         01010000 00000001 00000000",
        "D:(A;;0xabc;;;WD)",
    ),
    // A small authority in hexadecimal.
    (
        "O:S-1-0x000000000005-18",
        "01000080 14000000 00000000 00000000 00000000 01010000 00000005 12000000",
        "O:SY",
    ),
];

pub const BAD: [Bad; 28] = [
    ("o:SY", 0),
    ("O", 1),
    ("O:", 2),
    ("O:sy", 2),
    ("O:QQ", 2),
    ("O:S-2-5-18", 2),
    ("O:S-1-", 6),
    ("O:S-1-05", 6),
    ("O:S-1-4294967296", 6),
    ("O:S-1-0x12345", 12),
    ("O:S-1-5-", 8),
    ("O:S-1-5-4294967296", 8),
    ("O:S-1-5-1-2-3-4-5-6-7-8-9-10-11-12-13-14-15-16", 43),
    // The order is owner, group, list.
    ("G:SYO:SY", 4),
    // Flags of the list, and an auditing list.
    ("D:P", 2),
    ("D:S:", 2),
    ("D:(", 3),
    ("D:(X;;GA;;;SY)", 3),
    ("D:(AU;SA;GA;;;WD)", 4),
    ("D:(A;ci;GA;;;SY)", 5),
    ("D:(A;C;GA;;;SY)", 5),
    ("D:(A;;ga;;;SY)", 6),
    ("D:(A;;GAX;;;SY)", 8),
    ("D:(A;;0x;;;SY)", 8),
    ("D:(A;;0x123456789;;;SY)", 8),
    ("D:(A;;GA;;SY)", 10),
    ("D:(A;;GA;;;SY", 13),
    ("D:(A;;GA;;;SY) ", 14),
];
