//! What is asked and what is answered. After `=` stand the status at the end, the arguments of the
//! run and the matter. A row has what it shows, the question and the answer; a word alone stands
//! for the rows of that name. All were written from the formats, and none by this program.
//!
//! A question is the name of a call and the items of its body, an answer the items of the reply's.
//! `pdu` begins a PDU by its kind, its flags and its call id, with its items after them, `hex` one
//! as it stands, and `fault` an answer by its status. In a replay a row may have several lines,
//! parted by `;`, with moment 0 where none is said, and items for the bodies of calls and replies.
//!
//! - `7`, `#1F`: a number of 32 bits, in decimal or hex
//! - `-`, `*`: no pointer, or the next one; what it leads to stands after it
//! - `h2`: the handle 2
//! - `'Data_base'`, `'a^256'`: the text "Data base", and one of 256 units
//! - `[A/+G]`: the names `A` and `+G` as bytes, with their count
//! - `x6100`, `x00^9`: bytes as they are
//!
//! are the items, with the names of `svcctl_words`. Their order is that of MS-SCMR:
//!
//! - `create`: manager, name, display name, rights, type, start, error, path, group, tag, needs and
//!   their size, account, password and its size; it returns a tag, a handle, a code
//! - `change`: service, type, start, error, path, group, tag, needs and their size, account,
//!   password and its size, display name; it returns a tag, a code
//! - `config`: service, size; it returns type, start, error, pointers to path and group, tag,
//!   pointers to needs, account and display name, these five texts, the size that is needed, a code
//! - `status`, `control`: service, and the control; they return type, state, accepted controls,
//!   exit code, the service's own, checkpoint, wait hint, a code
//! - `locked`: manager, size; it returns whether, the owner, how long, the size needed, a code
//! - `manager`: machine, database, rights. `open`: manager, name, rights. Both return a handle and
//!   a code
//! - `display`, `key`: manager, name, size; they return the other name, its size, a code
//! - `start`: service, count of words, words; it returns a code, as do `delete` and `set`
//! - `services`: manager, types, states, size, and where it begins; it returns a count of bytes and
//!   the bytes, the size that is needed, how many services these are, where the next page begins, a
//!   code. `dependents`: service, states, size; it returns the same without the beginning. In the
//!   bytes a service is where its name and its display name stand, and its status
//! - `process`: service, level, size; it returns a count of bytes and the bytes, the size that is
//!   needed, a code. The bytes are a status, the system's number of the process, and flags
//! - `level`: service, level, the same again, a pointer and what it leads to; it returns a code.
//!   `leveled`: service, level, size; it returns a count of bytes and the bytes, the size that is
//!   needed, a code. The bytes are laid out as `service_listing` says of each level
//! - `secured`: service, parts, size; it returns a count of bytes and the bytes, the size that is
//!   needed, a code. `secure`: service, parts, a count of bytes, the bytes, the count again; it
//!   returns a code. The bytes are a security descriptor of MS-DTYP, self-relative
//! - `watch`: manager or service, events; it returns a handle and a code. `event`: this handle; it
//!   returns the event, a status as in `process`, a name, a code

use svcctl_words::Table;

/// The smallest session, as it is sent and answered.
pub const SMALLEST_ASKED: &str = "
05000b03100000004800000001000000d016d01600000000010000000000010081bb7a364498f135ad3298f038001003
02000000045d888aeb1cc9119fe808002b10486002000000050000031000000024000000020000000c00000000000f00
00000000000000000000000005000003100000002c000000030000001400000000000000000000000100000000000000
0000000000000000
";

pub const SMALLEST_TOLD: &str = "
05000c03100000003800000001000000d016d01601000000010000000100000000000000045d888aeb1cc9119fe80800
2b1048600200000005000203100000003000000002000000180000000000000000000000010000000000000000000000
000000000000000005000203100000003000000003000000180000000000000000000000000000000000000000000000
0000000000000000
";

/// The same in words.
pub const SMALLEST: &str = "bind
the manager with no right | manager - - 0 | h1 0
its handle                | close h1      | h0 0
";

/// Bodies in words, and as they are sent: in hex, of which a line ends anywhere.
pub const BODIES: [(&str, &str); 4] = [
    (
        "h1 'Db' * 'Data_base' own '/a' plain",
        "
00000000010000000000000000000000000000000300000000000000030000004400620000000000000002000a000000
000000000a0000004400610074006100200062006100730065000000ff010f0010000000030000000100000003000000
00000000030000002f0061000000000000000000000000000000000000000000000000000000000000000000
",
    ),
    (
        "h1 'C' - own '/a' * 'G' - * [+G] 8 - - 0",
        "
00000000010000000000000000000000000000000200000000000000020000004300000000000000ff010f0010000000
03000000010000000300000000000000030000002f006100000000000000020002000000000000000200000047000000
0000000004000200080000002b0047000000000008000000000000000000000000000000
",
    ),
    (
        "h2 2 * 2 * * 'a' 'b_c'",
        "
000000000200000000000000000000000000000002000000000002000200000004000200080002000200000000000000
02000000610000000400000000000000040000006200200063000000
",
    ),
    (
        "16 3 1 * * 0 * * * '/a' '' 'B/' 'LocalSystem' 'A' 78 0",
        "
100000000300000001000000000002000400020000000000080002000c00020010000200030000000000000003000000
2f006100000000000100000000000000010000000000000003000000000000000300000042002f00000000000c000000
000000000c0000004c006f00630061006c00530079007300740065006d00000002000000000000000200000041000000
4e00000000000000
",
    ),
];

/// Rows by name.
pub const GROUPS: Table = &[
    (
        "bind",
        "| pdu 11 3 1 #16D016D0 0 1 x00000100 svcctl ndr \
         | pdu 12 3 1 #16D016D0 1 x01000000 1 0 ndr",
    ),
    (
        "triggers",
        "| pdu 11 3 1 #16D016D0 0 2 x00000100 svcctl ndr x01000100 triggers ndr |
 |  | pdu 12 3 1 #16D016D0 1 x01000000 2 0 ndr 0 ndr",
    ),
    (
        "manager",
        "the manager with all rights | manager - - #F003F | h1 0",
    ),
    (
        "user",
        "all rights of an administrator | manager - - #F003F             | h0 5
all that a user may have       | manager - - #2000000           | h1 0
which is not to create         | create h1 'A' - own '/a' plain | - h0 5
nor to lock                    | lock h1                        | h0 5
but to see who does            | locked h1 14                   | 0 * 0 '' 14 0
and which services there are   | services h1 #30 3 0 -          | 0 0 0 - 0
and to open them               | open h1 'A' 4                  | h0 1060",
    ),
    (
        "administrator",
        "| join admin; call 1 manager - - #F003F | caller 1; reply h1 0",
    ),
    (
        "none active, none stopped",
        "active                    | call 3 services h3 #30 1 0 - | reply 0 0 0 - 0
stopped                   | call 3 services h3 #30 2 0 - | reply 0 0 0 - 0
nothing is to be launched | take                         | empty",
    ),
    (
        "none active, one stopped",
        "active                    | call 3 services h3 #30 1 0 - | reply 0 0 0 - 0
stopped                   | call 3 services h3 #30 2 0 - | reply 0 44 0 - 234
nothing is to be launched | take                         | empty",
    ),
    (
        "none active, two stopped",
        "active                    | call 3 services h3 #30 1 0 - | reply 0 0 0 - 0
stopped                   | call 3 services h3 #30 2 0 - | reply 0 88 0 - 234
nothing is to be launched | take                         | empty",
    ),
    (
        "one active, one stopped",
        "active                    | call 3 services h3 #30 1 0 - | reply 0 44 0 - 234
stopped                   | call 3 services h3 #30 2 0 - | reply 0 44 0 - 234
nothing is to be launched | take                         | empty",
    ),
    (
        "one active, two stopped",
        "active                    | call 3 services h3 #30 1 0 - | reply 0 44 0 - 234
stopped                   | call 3 services h3 #30 2 0 - | reply 0 88 0 - 234
nothing is to be launched | take                         | empty",
    ),
    (
        "two active, one stopped",
        "active                    | call 3 services h3 #30 1 0 - | reply 0 88 0 - 234
stopped                   | call 3 services h3 #30 2 0 - | reply 0 44 0 - 234
nothing is to be launched | take                         | empty",
    ),
    (
        "three active, none stopped",
        "active                    | call 3 services h3 #30 1 0 - | reply 0 132 0 - 234
stopped                   | call 3 services h3 #30 2 0 - | reply 0 0 0 - 0
nothing is to be launched | take                         | empty",
    ),
    (
        "A",
        "| call 1 create h1 'A' - own '/bin/a' plain | reply - h2 0",
    ),
    (
        "runs",
        "A is started                | call 1 start h2 0 -     | plan 1
its process is launched     | take; launched 1 101    | launch 1; done
the start is answered       | end 1 1                 | reply 0
it runs, and accepts a stop | report 1 16 4 1 0 0 0 0 | done",
    ),
    (
        "hosted",
        "A has type 0x20      | call 1 create h1 'A' - #F01FF 32 3 1 '/bin/sh' plain | reply - h2 0
B has it and its path | call 1 create h1 'B' - #F01FF 32 3 1 '/bin/sh' plain | reply - h3 0
A is started          | call 1 start h2 0 -; take; launched 1 101 | plan 1; launch 1; done
                      | end 1 1                                   | reply 0
its process gets      | control 1; control 1                      | control 1 0; empty
A runs                | report 1 1 32 4 1 0 0 0 0                 | done
B is started at once  | call 1 start h3 0 -                       | reply 0
no launch is wanted   | take                                      | empty
A's process gets      | control 1; control 1                      | control 2 0; empty
B runs                | report 1 2 32 4 1 0 0 0 0                 | done",
    ),
    (
        "group",
        "three members     | call 1 create h1 'M1' - own '/bin/m1' * 'G' - - 0 - - 0 | reply - h2 0
                  | call 1 create h1 'M2' - own '/bin/m2' * 'G' - - 0 - - 0 | reply - h3 0
                  | call 1 create h1 'M3' - own '/bin/m3' * 'G' - - 0 - - 0 | reply - h4 0
T needs the group | call 1 create h1 'T' - own '/bin/t' - - * [+G] 8 - - 0  | reply - h5 0
                  | call 1 start h5 0 -                                     | plan 1
the first fails   | take; unlaunched 1 2                                    | launch 1; done
the second fails  | take; unlaunched 2 2                                    | launch 2; done",
    ),
];

/// Connections.
pub const PIPES: &str = "
= 0 pipe: an empty input
= 6 pipe: a part of a header
fourteen bytes | hex 05000b0310000000480000000100 |
= 6 pipe: a byte more of it
fifteen bytes | hex 05000b031000000048000000010000 |
= 7 pipe: a byte after the last context
 | pdu 11 3 1 #16D016D0 0 1 x00000100 svcctl ndr x00 |
= 7 pipe: a second bind
bind
 | pdu 11 3 1 #16D016D0 0 1 x00000100 svcctl ndr |
= 0 pipe: a bind with an authentication
no bind by this | hex 05000b031000000018000800010000000000000000000000 | pdu 13 3 1 x0000010500
= 0 pipe: a bind after it
 | hex 05000b031000000018000800010000000000000000000000 | pdu 13 3 1 x0000010500
bind
= 7 pipe: an alter_context without a bind
| pdu 14 3 2 #8980898 7 3 x00000100 ndr64 ndr x07000100 svcctl ndr x09000100 triggers ndr |
= 7 pipe: a request without a bind
 | manager - - 0 |
= 0 pipe: two contexts
                   | pdu 11 3 1 #16D016D0 0 2 x00000100 svcctl ndr64 x01000100 svcctl ndr |
                   |  | pdu 12 3 1 #16D016D0 1 x01000000 2 x02000200 nosyntax 0 ndr
0 was not accepted | manager - - 0                | fault #1C010003
1 was              | pdu 0 3 9 12 x01000f00 - - 0 | pdu 2 3 9 24 x01000000 h1 0
= 0 pipe: another context, and one less
bind
| pdu 14 3 2 #8980898 7 3 x00000100 ndr64 ndr x07000100 svcctl ndr x09000100 triggers ndr |
                             |  | pdu 15 3 2 #16D016D0 1 0 3 x02000100 nosyntax 0 ndr 0 ndr
0 is accepted no more        | manager - - 0                  | fault #1C010003
7 is                         | pdu 0 3 7 12 x07000f00 - - 0   | pdu 2 3 7 24 x07000000 h1 0
9 raises triggers            | pdu 0 3 8 16 x09000000 0 0 0 0 | pdu 2 3 8 4 x09000000 0
and has no other call        | pdu 0 3 9 16 x09000100 0 0 0 0 | pdu 3 3 9 0 9 #1C010002 0
= 0 pipe: a request in two fragments
bind
the front of a request | pdu 0 1 2 4 x00000f00 -   |
its back               | pdu 0 2 2 8 x00000f00 - 0 | pdu 2 3 2 24 0 h1 0
the next request       | close h1                  | h0 0
= 6 pipe: its front alone
bind
the front of a request | pdu 0 1 2 4 x00000f00 - |
= 7 pipe: its front, and the back of another call
bind
the front of a request | pdu 0 1 2 4 x00000f00 -   |
                       | pdu 0 2 9 8 x00000f00 - 0 |
= 7 pipe: its back alone
bind
 | pdu 0 2 2 8 x00000f00 - 0 |
= 0 pipe: a trigger is raised
triggers
                 | manager - - #F003F                          | h1 0
                 | create h1 'A' - own '/bin/a' plain          | - h2 0
nobody has it    | pdu 0 3 7 16 x01000000 xaa^16               | pdu 2 3 7 4 x01000000 0
A has it         | level h2 8 8 * 1 * - 1 20 1 * 0 - xaa^16    | 0
it is raised     | pdu 0 3 8 16 x01000000 xaa^16               | pdu 2 3 8 4 x01000000 0
so A is started  | status h2                                   | 16 2 0 0 0 0 0 0
a byte too few   | pdu 0 3 9 15 x01000000 xaa^15               | pdu 3 3 9 0 1 #6F7 0
a byte too many  | pdu 0 3 9 17 x01000000 xaa^17               | pdu 3 3 9 0 1 #6F7 0
no such method   | pdu 0 3 9 16 x01000100 xaa^16               | pdu 3 3 9 0 1 #1C010002 0
= 0 pipe --as user: a user raises no trigger
triggers
not even one that nobody has | pdu 0 3 7 16 x01000000 xaa^16 | pdu 2 3 7 4 x01000000 5
= 0 pipe --as user: the rights of a user at the manager
bind
all of them          | manager - - #2000000           | h1 0
to see services      | services h1 #30 3 0 -          | 0 0 0 - 0
to watch them        | watch h1 #180                  | h2 0
to see who locks     | locked h1 14                   | 0 * 0 '' 14 0
not to create        | create h1 'A' - own '/a' plain | - h0 5
not to lock          | lock h1                        | h0 5
all by name          | manager - - #20015             | h3 0
to connect           | manager - - 1                  | h4 0
to read rights       | manager - - #20000             | h5 0
not to create        | manager - - 2                  | h0 5
not to lock          | manager - - 8                  | h0 5
not to boot          | manager - - #20                | h0 5
not to delete        | manager - - #10000             | h0 5
nor to change rights | manager - - #40000             | h0 5
nor an owner         | manager - - #80000             | h0 5
= 0 pipe: faults
bind
a call that there is not        | 9                             | fault #1C010002
                                | manager - - 0                 | h1 0
a name whose last unit is not 0 | open h1 3 0 3 x440062000100 4 | fault #6F7
= 0 pipe: services, page by page
bind
manager
        | create h1 'A' - own '/bin/a' plain | - h2 0
        | create h1 'B' - own '/bin/b' plain | - h3 0
the first page  | services h1 #30 3 44 * 0 \
    | 44 36 40 16 1 0 1077 0 0 0 x4100000041000000 44 1 * 1 234
the second      | services h1 #30 3 44 * 1 | 44 36 40 16 1 0 1077 0 0 0 x4200000042000000 0 1 * 0 0
room for both   | services h1 #30 3 88 - \
    | 88 72 76 16 1 0 1077 0 0 0 80 84 16 1 0 1077 0 0 0 x41000000410000004200000042000000 0 2 - 0
a byte less     | services h1 #30 3 87 - \
    | 87 36 40 16 1 0 1077 0 0 0 x4100000041000000 x00^43 44 1 - 234
no room         | services h1 #30 3 0 * 0 | 0 88 0 * 0 234
of another type | services h1 #20 3 8 * 1 | 8 x00^8 0 0 * 0 0
none is active  | services h1 #10 1 8 - | 8 x00^8 0 0 - 0
of no type      | services h1 0 3 8 * 7 | 8 x00^8 0 0 * 7 87
in no state     | services h1 #10 4 8 - | 8 x00^8 0 0 - 87
of a service    | services h2 #10 3 8 - | 8 x00^8 0 0 - 6
the size is out of its range | services h1 #30 3 262145 - | fault #6F7
= 0 pipe: dependents, the last one first
bind
manager
        | create h1 'A' - own '/bin/a' plain | - h2 0
B needs A | create h1 'B' - own '/bin/b' - - * [A] 6 - - 0 | - h3 0
C needs B | create h1 'C' - own '/bin/c' - - * [B] 6 - - 0 | - h4 0
both            | dependents h2 3 88 \
    | 88 72 76 16 1 0 1077 0 0 0 80 84 16 1 0 1077 0 0 0 x43000000430000004200000042000000 0 2 0
a byte too few  | dependents h2 3 87 | 87 x00^87 88 0 234
no room         | dependents h2 3 0  | 0 88 0 234
none is active  | dependents h2 1 0  | 0 0 0 0
in no state     | dependents h2 0 8  | 8 x00^8 0 0 87
of C            | dependents h4 3 0  | 0 0 0 0
of the manager  | dependents h1 3 0  | 0 0 0 6
= 0 pipe: a status with its process
bind
manager
                    | create h1 'A' - own '/bin/a' plain | - h2 0
another level       | process h2 1 36 | 36 x00^36 0 124
a byte too few      | process h2 0 35 | 35 x00^35 36 122
no process          | process h2 0 36 | 36 16 1 0 1077 0 0 0 0 0 0 0
more room           | process h2 0 40 | 40 16 1 0 1077 0 0 0 0 0 x00^4 0 0
of the manager      | process h1 0 36 | 36 x00^36 0 6
out of its range    | process h2 0 8193 | fault #6F7
= 0 pipe: a security descriptor
bind
manager
                        | create h1 'A' - own '/bin/a' plain | - h2 0
the default list        | secured h2 4 76 \
    | 76 x01000480000000000000000000000000140000000200380002000000\
    00001800ff810f0001020000000000052000000020020000\
    000018008d00020001020000000000052000000021020000 0 0
a byte too few          | secured h2 4 75     | 75 x00^75 76 122
all parts               | secured h2 7 0      | 0 100 122
none                    | secured h2 0 4      | 4 x00^4 0 87
another                 | secured h2 8 4      | 4 x00^4 0 87
of the manager          | secured h1 4 4      | 4 x00^4 0 6
out of its range        | secured h2 4 262145 | fault #6F7
another list            | secure h2 4 72 x01000480000000000000000000000000140000000200340002000000\
    010018000400000001020000000000052000000021020000\
    00001400ff010f00010100000000000100000000 72 | 0
                        | secured h2 4 72 \
    | 72 x01000480000000000000000000000000140000000200340002000000\
    010018000400000001020000000000052000000021020000\
    00001400ff010f00010100000000000100000000 0 0
no descriptor           | secure h2 4 4 x01020304 4 | 87
no part                 | secure h2 0 4 x01020304 4 | 87
of the manager          | secure h1 4 4 x01020304 4 | 6
a count that differs    | secure h2 4 4 x01020304 5 | fault #6F7
a handle without rights | open h1 'A' #F        | h3 0
may not read it         | secured h3 4 4        | 4 x00^4 0 5
nor set it              | secure h3 4 4 x01020304 4 | 5
a handle that may read  | open h1 'A' #20000    | h4 0
                        | secured h4 4 0        | 0 72 122
may not set it          | secure h4 4 4 x01020304 4 | 5
of a marked service     | delete h2             | 0
it can be read          | secured h2 4 0        | 0 72 122
and not set             | secure h2 4 4 x01020304 4 | 1072
= 0 pipe: a description
bind
manager
                        | create h1 'A' - own '/bin/a' plain | - h2 0
none yet                | leveled h2 1 4             | 4 0 0 0
a text                  | level h2 1 1 * * 'Ab'      | 0
a byte too few          | leveled h2 1 9             | 9 x00^9 10 122
just enough             | leveled h2 1 10            | 10 4 x410062000000 0 0
an absent text          | level h2 1 1 * -           | 0
no description at all   | level h2 1 1 -             | 0
leave it                | leveled h2 1 12            | 12 4 x410062000000 x0000 0 0
2,049 units             | level h2 1 1 * * 'd^2049'  | 87
an empty text           | level h2 1 1 * * ''        | 0
deletes it              | leveled h2 1 4             | 4 0 0 0
2,048 units             | level h2 1 1 * * 'd^2048'  | 0
take so many bytes      | leveled h2 1 4101          | 4101 x00^4101 4102 122
two levels at once      | level h2 1 3 * 1           | fault #6F7
another level           | level h2 5 5 x0102         | 124
                        | leveled h2 5 4             | 4 x00^4 0 124
of the manager          | level h1 1 1 -             | 6
                        | leveled h1 1 4             | 4 x00^4 0 6
out of its range        | leveled h2 1 8193          | fault #6F7
a handle that may change | open h1 'A' 2             | h3 0
may not read            | leveled h3 1 4             | 4 x00^4 0 5
a handle that may read  | open h1 'A' 1              | h4 0
may not change          | level h4 5 5               | 5
a marked service        | delete h2                  | 0
has no other level      | level h2 5 5               | 1072
but may be read         | leveled h2 4 4             | 4 0 0 0
= 0 pipe: what is done after failures
bind
manager
                        | create h1 'A' - own '/bin/a' plain         | - h2 0
nothing yet             | leveled h2 2 20                            | 20 0 0 0 0 0 0 0
a restart and a command | level h2 2 2 * 60 - * 2 * '/r' 2 1 1000 3 5 | 0
a byte too few          | leveled h2 2 41                            | 41 x00^41 42 122
just enough             | leveled h2 2 42 | 42 60 0 36 2 20 1 1000 3 5 x2f0072000000 0 0
absent actions          | level h2 2 2 * 7 - - 0 -                   | 0
leave both              | leveled h2 2 42 | 42 60 0 36 2 20 1 1000 3 5 x2f0072000000 0 0
other actions           | level h2 2 2 * 8 - - 1 * 1 2 9             | 0
leave the command       | leveled h2 2 34 | 34 8 0 28 1 20 2 9 x2f0072000000 0 0
no actions and no command | level h2 2 2 * 7 - * 0 * '' 0            | 0
delete all              | leveled h2 2 20                            | 20 0 0 0 0 0 0 0
an action of no kind    | level h2 2 2 * 0 - - 1 * 1 4 0             | 87
a command without a word | level h2 2 2 * 0 - * 0 - '_'              | 87
64 actions              | level h2 2 2 * 0 - - 64 * 64 x0200000000000000^64 | 0
and one more            | level h2 2 2 * 0 - - 65 * 65 x0200000000000000^65 | 87
another count           | level h2 2 2 * 0 - - 1 * 2 2 0 2 0         | fault #6F7
a handle that may not start | open h1 'A' 2                          | h3 0
asks for no restart     | level h3 2 2 * 0 - - 2 * 2 2 0 1 0         | 5
and for a reboot        | level h3 2 2 * 0 - - 1 * 1 2 0             | 0
a stop with an error    | level h2 4 4 * 9                           | 0
is a failure            | leveled h2 4 4                             | 4 1 0 0
                        | level h2 4 4 * 0                           | 0
and is none             | leveled h2 4 4                             | 4 0 0 0
= 0 pipe: a delayed start
bind
manager
a start on demand       | create h1 'A' - own '/bin/a' plain      | - h2 0
is not delayed          | level h2 3 3 * 1                        | 87
                        | level h2 3 3 * 0                        | 0
an automatic start      | change h2 keep 2 keep - - - - 0 - - 0 - | - 0
is delayed              | level h2 3 3 * 9                        | 0
                        | leveled h2 3 4                          | 4 1 0 0
a byte too few          | leveled h2 3 3                          | 3 x00^3 4 122
on demand again         | change h2 keep 3 keep - - - - 0 - - 0 - | - 0
                        | leveled h2 3 4                          | 4 0 0 0
= 0 pipe: triggers
bind
manager
                        | create h1 'A' - own '/bin/a' plain | - h2 0
none yet                | leveled h2 8 4       | 4 0 0 0
one that stops          | level h2 8 8 * 1 * - 1 20 2 * 0 - x00112233445566778899aabbccddeeff | 0
a byte too few          | leveled h2 8 27      | 27 x00^27 28 122
just enough             | leveled h2 8 28      | 28 1 20 2 x00112233445566778899aabbccddeeff 0 0
of another type         | level h2 8 8 * 1 * - 1 19 2 * 0 - x00112233445566778899aabbccddeeff | 87
that does nothing       | level h2 8 8 * 1 * - 1 20 0 * 0 - x00112233445566778899aabbccddeeff | 87
with data               | level h2 8 8 * 1 * - 1 20 2 * 1 - x00112233445566778899aabbccddeeff | 87
without a subtype       | level h2 8 8 * 1 * - 1 20 2 - 0 - | 87
two, one without        \
    | level h2 8 8 * 2 * - 2 20 1 * 0 - 20 1 - 0 - x00112233445566778899aabbccddeeff | 87
no list                 | level h2 8 8 * 1 - - | fault #6F7
none of them is there   | leveled h2 8 28      | 28 1 20 2 x00112233445566778899aabbccddeeff 0 0
an empty list           | level h2 8 8 * 0 - - | 0
                        | leveled h2 8 4       | 4 0 0 0
= 0 pipe: what can be watched
bind
manager
                        | create h1 'A' - own '/bin/a' plain | - h2 0
the manager marks none  | watch h1 #200 | h0 87
a service creates none  | watch h2 #80  | h0 87
nothing                 | watch h2 0    | h0 87
a handle that there is not | watch h9 1 | h0 6
the present state       | watch h2 1    | h3 0
is notified at once     | event h3      | 1 16 1 0 1077 0 0 0 0 0 * 'A' 0
and once                | event h3      | 0 0 0 0 0 0 0 0 0 0 - 0
a creation              | watch h1 #80  | h4 0
no event yet            | event h4      | 0 0 0 0 0 0 0 0 0 0 - 0
B is created            | create h1 'B' - own '/bin/b' plain | - h5 0
                        | event h4      | #80 16 1 0 1077 0 0 0 0 0 * 'B' 0
a mark                  | watch h2 #200 | h6 0
A is marked             | delete h2     | 0
                        | event h6      | #200 16 1 0 1077 0 0 0 0 0 * 'A' 0
no service that leaves  | watch h2 1    | h0 1072
it is no handle of these | close h6     | h6 6
it leaves               | unwatch h6    | h0 0
and is there no more    | event h6      | 0 0 0 0 0 0 0 0 0 0 - 6
                        | unwatch h6    | h6 6
= 0 pipe: a handle that there is not
bind
                           | manager - - 0 | h1 0
a handle that there is not | close h7      | h7 6
= 0 pipe: a right that the manager has not
bind
a right that a manager has not   | manager - - #100000 | h0 5
so its first handle is not there | close h1            | h1 6
= 0 pipe: names that are free and not
bind
manager
a service is made           | create h1 'Spooler' - own '/bin/true' plain | - h2 0
a name is there in any case | create h1 'SPOOLER' - own '/bin/true' plain | - h0 1073
it was never started        | status h2                                   | 16 1 0 1077 0 0 0 0
it is marked                | delete h2                                   | 0
it is marked already        | delete h2                                   | 1072
a marked one has its name   | create h1 'SPOOLER' - own '/bin/true' plain | - h0 1072
its last handle closes      | close h2                                    | h0 0
and the name is free        | create h1 'SPOOLER' - own '/bin/true' plain | - h3 0
= 0 pipe: names of services
bind
manager
256 units | create h1 'a^256' - own '/bin/true' plain | - h2 0
257       | create h1 'a^257' - own '/bin/true' plain | - h0 123
a slash   | create h1 'a/b' - own '/bin/true' plain   | - h0 123
no unit   | create h1 '' - own '/bin/true' plain      | - h0 123
= 0 pipe: rights of a handle
bind
manager
                             | create h1 'Db' - own '/bin/true' plain | - h2 0
a handle with no rights      | open h1 'Db' 0                         | h3 0
tells no status              | status h3                              | 0 0 0 0 0 0 0 5
a service that there is not  | open h1 'Lan' 4                        | h0 1060
a handle that may not delete | delete h3                              | 5
= 0 pipe: sizes of a configuration
bind
manager
                  | create h1 'A' - own '/a' plain | - h2 0
a byte too little | config h2 73                   | 0 0 0 - - 0 - - - 74 122
just enough       | config h2 74 | 16 3 1 * * 0 * * * '/a' '' '' 'LocalSystem' 'A' 74 0
too great a size  | config h2 8193                 | fault #6F7
the manager's     | config h1 8192                 | 0 0 0 - - 0 - - - 0 6
                  | open h1 'a' #20004             | h3 0
without the right | config h3 8192                 | 0 0 0 - - 0 - - - 0 5
= 0 pipe: tags count within a group
bind
manager
the first of a group              | create h1 'A' - own '/a' * 'G' * 7 - 0 - - 0 | * 1 h2 0
the second, in any case           | create h1 'B' - own '/a' * 'g' * 7 - 0 - - 0 | * 2 h3 0
the first of another              | create h1 'C' - own '/a' * 'H' * 7 - 0 - - 0 | * 1 h4 0
without a group: the tag as asked | create h1 'D' - own '/a' - * 9 - 0 - - 0     | * 9 h0 87
none is asked for                 | create h1 'E' - own '/a' * 'G' - - 0 - - 0   | - h5 0
= 0 pipe: changes that are refused
bind
manager
                              | create h1 'A' - own '/a' plain           | - h2 0
                              | create h1 'B' * 'Bee' own '/a' plain     | - h3 0
a display name that is a name | change h3 kept nothing * 'a'             | - 1078
another's display name        | change h2 kept nothing * 'BEE'           | - 1078
an account                    | change h2 kept - - - - 0 * 'Guest' - 0 - | - 1057
a tag without a group         | change h2 kept - - * 4 - 0 - - 0 -       | * 4 87
a path without a word         | change h2 kept * '_' - - - 0 - - 0 -     | - 87
a display name of 257 units   | change h2 kept nothing * 'd^257'         | - 123
                              | open h1 'A' 1                            | h4 0
                              | delete h2                                | 0
a handle that may not change  | change h4 kept nothing * 'a'             | - 5
a service that is marked      | change h2 kept nothing * 'a'             | - 1072
a handle of the manager       | change h1 kept nothing -                 | - 6
= 0 pipe: changes that are seen
bind
manager
                       | create h1 'A' * 'Alpha' own '/a' plain | - h2 0
the first of the group | change h2 32 2 keep * '/b' * 'G' * 0 - 0 - - 0 * '' | * 1 0
its display name is A  | config h2 8192 | 32 2 1 * * 1 * * * '/b' 'G' '' 'LocalSystem' 'A' 76 0
the type in the status | status h2                              | 32 1 0 1077 0 0 0 0
LocalSystem            | change h2 keep keep 0 - - - - 0 * 'localsystem' - 0 * 'Aleph' | - 0
and no more            | config h2 84 | 32 2 0 * * 1 * * * '/b' 'G' '' 'LocalSystem' 'Aleph' 84 0
nothing is asked       | change h2 kept nothing -               | - 0
a byte too little      | config h2 83                           | 0 0 0 - - 0 - - - 84 122
= 0 pipe: names by names
bind
manager
                           | create h1 'Db' * 'Data_base' own '/a' plain | - h2 0
the size with the 0        | display h1 'db' 10                          | 'Data_base' 9 0
the size without it        | display h1 'Db' 9                           | '' 9 122
the other way, in any case | key h1 'DATA_BASE' 3                        | 'Db' 2 0
the size without the 0     | key h1 'Data_base' 2                        | '' 2 122
a display name is no name  | display h1 'Data_base' 64                   | '' 0 1060
a name is no display name  | key h1 'Db' 64                              | '' 0 1060
a handle of a service      | display h2 'Db' 64                          | '' 0 6
= 0 pipe: starts where no process is run
bind
manager
                        | create h1 'Db' - own '/a' plain | - h2 0
no process is run       | start h2 0 -                    | 1054
                        | status h2                       | 16 1 0 1054 0 0 0 0
with words              | start h2 2 * 2 * * 'a' 'b_c'    | 1054
                        | status h2                       | 16 1 0 1054 0 0 0 0
a word and no list      | start h2 1 -                    | 87
a word that is absent   | start h2 1 * 1 -                | 87
a handle of the manager | start h1 0 -                    | 6
= 0 pipe: starts with needs
bind
manager
                            | create h1 'A' - own '/a' - - * [B] 6 - - 0 | - h2 0
an absent need              | start h2 0 -                               | 1075
                            | create h1 'B' - #F01FF 16 4 1 '/a' plain   | - h3 0
it is disabled              | start h3 0 -                               | 1058
                            | change h3 keep 3 keep - - - - 0 - - 0 -    | - 0
a need that is not launched | start h2 0 -                               | 1068
was tried                   | status h3                                  | 16 1 0 1054 0 0 0 0
and what needs it was not   | status h2                                  | 16 1 0 1077 0 0 0 0
an empty list of needs      | change h2 kept - - - * [] 2 - - 0 -        | - 0
is launched itself          | start h2 0 -                               | 1054
                            | status h2                                  | 16 1 0 1054 0 0 0 0
= 0 pipe: the lock of the database
bind
manager
a byte too little                    | locked h1 13                    | 0 - 0 14 122
nobody holds the lock                | locked h1 14                    | 0 * 0 '' 14 0
it is taken                          | lock h1                         | h2 0
                                     | create h1 'Db' - own '/a' plain | - h3 0
no start while it is held            | start h3 0 -                    | 1055
it is taken once                     | lock h1                         | h0 1055
the manager's handle unlocks nothing | unlock h1                       | h1 1071
the lock's handle is not closed      | close h2                        | h2 6
a byte too little for the owner      | locked h1 23                    | 0 - 0 24 122
the owner, and seconds               | locked h1 24                    | 1 * 0 'admin' 24 0
it is free                           | unlock h2                       | h0 0
it is free already                   | unlock h2                       | h2 1071
                                     | locked h1 4096                  | 0 * 0 '' 14 0
a start again                        | start h3 0 -                    | 1054
a handle of a service                | locked h3 4096                  | 0 - 0 0 6
= 0 pipe: needs in a circle
bind
manager
a need to come  | create h1 'A' - own '/a' - - * [B] 6 - - 0         | - h2 0
                | create h1 'B' - own '/a' plain                     | - h3 0
a circle of two | change h3 kept - - - * [a] 6 - - 0 -               | - 1059
its own group   | create h1 'C' - own '/a' * 'G' - * [+G] 8 - - 0    | - h0 1059
an open name    | change h3 kept - - - * 2 x4100 2 - - 0 -           | - 87
half a unit     | change h3 kept - - - * 7 x41000000000000 7 - - 0 - | - 87
a service       | config h2 8192 | 16 3 1 * * 0 * * * '/a' '' 'B/' 'LocalSystem' 'A' 78 0
                | change h2 kept - - - * [C/+g] 12 - - 0 -           | - 0
and a group     | config h2 8192 | 16 3 1 * * 0 * * * '/a' '' 'C/+g/' 'LocalSystem' 'A' 84 0
no circle now   | change h3 kept - - - * [A] 6 - - 0 -               | - 0
= 0 pipe --as user: a user
bind
user
= 0 pipe --as=user: the words as one
bind
user
= 0 pipe --as=admin: an administrator
bind
manager
";

/// Replays.
pub const REPLAYS: &str = "
= 0 replay: the manager is opened and closed
with no right | join admin; call 1 manager - - 0 | caller 1; reply h1 0
              | call 1 close h1; gone 1          | reply h0 0; done
= 0 replay: the rights of a user at a service
administrator
A
runs
a user               | join user; call 2 manager - - #2000000 | caller 2; reply h3 0
with all rights      | call 2 open h3 'A' #2000000  | reply h4 0
to see its texts     | call 2 config h4 8192 \
    | reply 16 3 1 * * 0 * * * '/bin/a' '' '' 'LocalSystem' 'A' 82 0
its status           | call 2 status h4             | reply 16 4 1 0 0 0 0 0
what needs it        | call 2 dependents h4 3 0     | reply 0 0 0 0
to ask how it is     | call 2 control h4 4          | reply 16 4 1 0 0 0 0 0
not to change it     | call 2 change h4 keep 4 keep - - - - 0 - - 0 - | reply - 5
not to start it      | call 2 start h4 0 -          | reply 5
not to stop it       | call 2 control h4 1          | reply 0 0 0 0 0 0 0 5
not to pause it      | call 2 control h4 2          | reply 0 0 0 0 0 0 0 5
no code of its own   | call 2 control h4 128        | reply 0 0 0 0 0 0 0 5
not to delete it     | call 2 delete h4             | reply 5
not to report for it | call 2 set h4 16 4 1 0 0 0 0 | reply 5
all by name          | call 2 open h3 'A' #2008D    | reply h5 0
not to change it     | call 2 open h3 'A' 2         | reply h0 5
not to start it      | call 2 open h3 'A' #10       | reply h0 5
not to stop it       | call 2 open h3 'A' #20       | reply h0 5
not to pause it      | call 2 open h3 'A' #40       | reply h0 5
no code of its own   | call 2 open h3 'A' #100      | reply h0 5
not to report for it | call 2 open h3 'A' #8000     | reply h0 5
not to delete it     | call 2 open h3 'A' #10000    | reply h0 5
nor to change rights | call 2 open h3 'A' #40000    | reply h0 5
nor an owner         | call 2 open h3 'A' #80000    | reply h0 5
= 0 replay: the handles of another caller
administrator
A
another caller       | join admin; call 2 manager - - #F003F     | caller 2; reply h3 0
A's handle is caller 1's | call 2 status h2                      | reply 0 0 0 0 0 0 0 6
                     | call 2 delete h2                          | reply 6
                     | call 2 close h2                           | reply h2 6
the manager's too    | call 2 create h1 'B' - own '/bin/b' plain | reply - h0 6
both are as they were | call 1 status h2                         | reply 16 1 0 1077 0 0 0 0
                     | call 1 create h1 'B' - own '/bin/b' plain | reply - h4 0
= 0 replay: a control that there is not
administrator
A
 | call 1 control h2 5 | reply 0 0 0 0 0 0 0 87
= 0 replay: a pause that is not accepted
administrator
A
runs
 | call 1 control h2 2 | reply 16 4 1 0 0 0 0 1052
= 0 replay: sixteen controls wait
administrator
A
runs
so many wait   | 16 times call 1 control h2 4 | reply 16 4 1 0 0 0 0 0
and no more    | call 1 control h2 4          | reply 16 4 1 0 0 0 0 1061
they are taken | 16 times control 1           | control 4
and no more    | control 1                    | empty
= 0 replay: a process of a service that may share it
administrator
with type 0x20           | call 1 create h1 'Sh' - #F01FF 32 3 1 '/bin/sh' plain | reply - h2 0
it is started            | call 1 start h2 0 -           | plan 1
its process is launched  | take; launched 1 101; end 1 1 | launch 1; done; reply 0
it gets the service      | control 1; control 1          | control 1 0; empty
the service reports      | report 1 1 32 4 1 0 0 0 0     | done
it runs                  | call 1 status h2              | reply 32 4 1 0 0 0 0 0
there is no service 2    | report 1 2 32 4 1 0 0 0 0     | stale
= 0 replay: a stop of a service that may share its process
administrator
with type 0x20           | call 1 create h1 'Sh' - #F01FF 32 3 1 '/bin/sh' plain | reply - h2 0
                         | call 1 start h2 0 -                  | plan 1
                         | take; launched 1 101; end 1 1        | launch 1; done; reply 0
by no number             | report 1 32 4 1 0 0 0 0              | done
it is stopped            | call 1 control h2 1                  | reply 32 4 1 0 0 0 0 0
its start comes first    | control 1; control 1; control 1      | control 1 0; control 1 1; empty
a stop waits             | call 1 control h2 1                  | reply 32 4 1 0 0 0 0 0
until it has stopped     | report 1 1 32 1 0 0 0 0 0; control 1 | done; empty
= 0 replay: a service enters the process of another that has its path
administrator
hosted
both have one process   | call 1 process h2 0 36    | reply 36 32 4 1 0 0 0 0 101 0 0 0
                        | call 1 process h3 0 36    | reply 36 32 4 1 0 0 0 0 101 0 0 0
A stops                 | report 1 1 32 1 0 0 0 0 0 | done
one waits for its start | call 1 watch h2 2         | reply h4 0
it is started again     | call 1 start h2 0 -; take | reply 0; empty
in the same process     | control 1; control 1      | control 1 0; empty
it is notified          | call 1 event h4           | reply 2 32 2 0 0 0 0 0 101 0 * 'A' 0
                        | report 1 1 32 4 1 0 0 0 0 | done
A is in it              | call 1 process h2 0 36    | reply 36 32 4 1 0 0 0 0 101 0 0 0
= 0 replay: an end stops all services of a process
administrator
hosted
one waits for A's stop | call 1 watch h2 1 | reply h4 0
another for that of B  | call 1 watch h3 1 | reply h5 0
the process ends       | ended 1           | done
A is stopped           | call 1 status h2  | reply 32 1 0 1067 0 0 0 0
                       | call 1 event h4   | reply 1 32 1 0 1067 0 0 0 0 0 * 'A' 0
and so is B            | call 1 status h3  | reply 32 1 0 1067 0 0 0 0
                       | call 1 event h5   | reply 1 32 1 0 1067 0 0 0 0 0 * 'B' 0
it is listed no more   | control 1         | over
= 0 replay: nobody enters a process in which no service is left
administrator
hosted
A stops                | report 1 1 32 1 0 0 0 0 0 | done
B stops                | report 1 2 32 1 0 0 0 0 0 | done
A gets another process | call 1 start h2 0 -; take | plan 3; launch 2
the first one is there | control 1                 | empty
it ends                | ended 1                   | stale
A is still starting    | call 1 status h2          | reply 32 2 0 0 0 0 0 0
= 0 replay: a stop that waits goes with the service that has stopped
administrator
hosted
a stop waits for A  | call 1 control h2 1       | reply 32 4 1 0 0 0 0 0
which stops already | report 1 1 32 1 0 0 0 0 0 | done
and is started      | call 1 start h2 0 -       | reply 0
there is no stop    | control 1; control 1      | control 1 0; empty
= 0 replay: a service starts in a process that isn't launched yet
administrator
A has type 0x20    | call 1 create h1 'A' - #F01FF 32 3 1 '/bin/sh' plain | reply - h2 0
B has A's path     | call 1 create h1 'B' - #F01FF 32 3 1 '/bin/sh' plain | reply - h3 0
C has another      | call 1 create h1 'C' - #F01FF 32 3 1 '/bin/SH' plain | reply - h4 0
D has another type | call 1 create h1 'D' - own '/bin/sh' plain           | reply - h5 0
all are started    | call 1 start h2 0 -; call 1 start h3 0 -             | plan 1; plan 2
                   | call 1 start h4 0 -; call 1 start h5 0 -             | plan 3; plan 4
three launches     | take; take; take; take                 | launch 1; launch 2; launch 3; empty
B waits for A's    | end 1 2; launched 1 101                | again; done
which is for both  | end 1 1; end 1 2; end 1 3; end 1 4     | reply 0; reply 0; again; again
it gets both       | control 1; control 1; control 1        | control 1 0; control 2 0; empty
= 0 replay: a launch that fails ends each start of a service in its process
administrator
A has type 0x20 | call 1 create h1 'A' - #F01FF 32 3 1 '/bin/sh' plain | reply - h2 0
B has A's path  | call 1 create h1 'B' - #F01FF 32 3 1 '/bin/sh' plain | reply - h3 0
                | call 1 start h2 0 -; call 1 start h3 0 -             | plan 1; plan 2
its launch      | take; unlaunched 1 5                                 | launch 1; done
                | end 1 1; end 1 2                                     | reply 5; reply 5
                | call 1 status h2                                     | reply 32 1 0 5 0 0 0 0
                | call 1 status h3                                     | reply 32 1 0 5 0 0 0 0
= 0 replay: a start succeeds once the start of another enters its service
administrator
A has type 0x20     | call 1 create h1 'A' - #F01FF 32 3 1 '/bin/sh' plain | reply - h2 0
                    | call 1 create h1 'M' - own '/bin/m' plain            | reply - h3 0
B needs M           | call 1 create h1 'B' - #F01FF 32 3 1 '/bin/sh' - - * [M] 6 - - 0 \
    | reply - h4 0
T needs B           | call 1 create h1 'T' - own '/bin/t' - - * [B] 6 - - 0 | reply - h5 0
A is launched       | call 1 start h2 0 -; take; launched 1 101  | plan 1; launch 1; done
B waits for M       | call 1 start h4 0 -; end 1 2               | plan 2; again
it needs M no more  | call 1 change h4 kept - - - * [] 2 - - 0 - | reply - 0
and waits still     | end 1 2                                    | again
T is started, and B | call 1 start h5 0 -                        | plan 3
B has started       | end 1 2                                    | reply 0
in A's process      | control 1; control 1; control 1            | control 1 0; control 3 0; empty
= 0 replay: of two services of an ended process the marked one leaves
administrator
hosted
A is deleted     | call 1 delete h2; call 1 close h2 | reply 0; reply h0 0
it is there yet  | call 1 open h1 'A' 4              | reply h4 0
                 | call 1 close h4                   | reply h0 0
the process ends | ended 1                           | done
A is gone        | call 1 open h1 'A' 4              | reply h0 1060
B is stopped     | call 1 status h3                  | reply 32 1 0 1067 0 0 0 0
= 0 replay: no stop of a service that is needed
administrator
                       | call 1 create h1 'B' - own '/bin/b' plain     | reply - h2 0
A needs B              | call 1 create h1 'A' - own '/bin/a' - - * [B] 6 - - 0 | reply - h3 0
B is started first     | call 1 start h3 0 -                           | plan 1
B is launched and runs | take; launched 1 101; report 1 16 4 1 0 0 0 0 | launch 1; done; done
then A is launched     | take; launched 2 102; end 1 1                 | launch 2; done; reply 0
B is needed: no stop   | call 1 control h2 1                           | reply 0 0 0 0 0 0 0 1051
and none waits         | control 1                                     | empty
A's process ends       | ended 2                                       | done
B is stopped           | call 1 control h2 1                           | reply 16 4 1 0 0 0 0 0
                       | control 1; control 1                          | control 1; empty
A stopped with no stop | call 1 status h3                              | reply 16 1 0 1067 0 0 0 0
= 0 replay: a marked service leaves with its last handle
administrator
A
another caller       | join admin; call 2 manager - - #F003F | caller 2; reply h3 0
                     | call 2 open h3 'A' #F01FF             | reply h4 0
one waits for it     | call 1 watch h1 #180                  | reply h5 0
A is deleted         | call 1 delete h2; call 1 close h2     | reply 0; reply h0 0
and is listed        | call 1 services h1 #30 3 44 - \
    | reply 44 36 40 16 1 0 1077 0 0 0 x4100000041000000 0 1 - 0
                     | call 1 event h5 | reply 0 0 0 0 0 0 0 0 0 0 - 0
its last handle goes | gone 2          | done
and A with it        | call 1 services h1 #30 3 44 - | reply 44 x00^44 0 0 - 0
it is notified       | call 1 event h5 | reply #100 16 1 0 1077 0 0 0 0 0 * 'A' 0
= 0 replay: events of a service that runs
administrator
A
two wait for its start   | call 1 watch h2 #A; call 1 watch h2 #A | reply h3 0; reply h4 0
runs
one has it               | call 1 event h3 | reply 2 16 2 0 0 0 0 0 0 0 * 'A' 0
and nothing more         | call 1 event h3 | reply 0 0 0 0 0 0 0 0 0 0 - 0
the other has the first  | call 1 event h4 | reply 2 16 2 0 0 0 0 0 0 0 * 'A' 0
RUNNING is sent at once  | call 1 watch h2 8 | reply h5 0
                         | call 1 event h5   | reply 8 16 4 1 0 0 0 0 101 0 * 'A' 0
and once                 | call 1 event h5   | reply 0 0 0 0 0 0 0 0 0 0 - 0
its process is shown     | call 1 process h2 0 36 | reply 36 16 4 1 0 0 0 0 101 0 0 0
it is active             | call 1 services h1 #10 1 44 - \
    | reply 44 36 40 16 4 1 0 0 0 0 x4100000041000000 0 1 - 0
a pause and a stop       | call 1 watch h2 #44; call 1 watch h2 1 | reply h6 0; reply h7 0
the same state again     | report 1 16 4 3 0 0 0 0; call 1 event h6 \
    | done; reply 0 0 0 0 0 0 0 0 0 0 - 0
it pauses                | report 1 16 7 3 0 0 0 0; call 1 event h6 \
    | done; reply #40 16 7 3 0 0 0 0 101 0 * 'A' 0
its process ends         | ended 1; call 1 event h7 | done; reply 1 16 1 0 1067 0 0 0 0 0 * 'A' 0
= 0 replay: an old process stops no new run
administrator
A
runs
it stops                    | report 1 16 1 0 0 0 0 0                   | done
                            | call 1 status h2                          | reply 16 1 0 0 0 0 0 0
and runs by another process | call 1 start h2 0 -; take; launched 2 102 | plan 2; launch 2; done
                            | end 1 2                                   | reply 0
                            | report 2 16 4 1 0 0 0 0                   | done
the first one's end         | ended 1                                   | stale
changes nothing             | call 1 status h2                          | reply 16 4 1 0 0 0 0 0
the second one's            | report 2 16 4 3 0 0 0 0; ended 2          | done; done
stops it                    | call 1 status h2                          | reply 16 1 0 1067 0 0 0 0
                            | control 2                                 | over
= 0 replay: a stopping service does not run again
administrator
with the right to report | call 1 create h1 'A' - #F81FF 16 3 1 '/bin/a' plain | reply - h2 0
runs
it is stopping              | report 1 16 3 0 0 0 0 0      | done
and does not run again      | report 1 16 4 1 0 0 0 0      | refused 13
                            | call 1 status h2             | reply 16 3 0 0 0 0 0 0
by the call neither         | call 1 set h2 16 4 1 0 0 0 0 | reply 13
it stopped with an error    | call 1 set h2 16 1 0 5 0 0 0 | reply 0
                            | call 1 status h2             | reply 16 1 0 5 0 0 0 0
its process reports nothing | report 1 16 4 1 0 0 0 0      | stale
by the call neither         | call 1 set h2 16 4 1 0 0 0 0 | reply 13
nor gets a control          | call 1 control h2 1          | reply 16 1 0 5 0 0 0 1062
= 0 replay: a group with one running member is enough
administrator
group
one member runs  | take; launched 3 103; end 1 1                 | launch 3; done; again
so T is launched | report 3 16 4 0 0 0 0 0; take; launched 4 104 | done; launch 4; done
                 | end 1 1                                       | reply 0
= 0 replay: a group without one is not
administrator
group
the third fails      | take; unlaunched 3 2 | launch 3; done
so T is not launched | take; end 1 1        | empty; reply 1068
= 0 replay: a need that is deleted and made anew
administrator
                 | call 1 create h1 'D' - own '/bin/d' plain        | reply - h2 0
                 | call 1 create h1 'E' - own '/bin/e' plain        | reply - h3 0
T needs D, E     | call 1 create h1 'T' - own '/bin/t' - - * [D/E] 10 - - 0 | reply - h4 0
                 | call 1 close h2                                  | reply h0 0
another caller   | join admin; call 2 manager - - #F003F            | caller 2; reply h5 0
                 | call 2 open h5 'D' #F01FF                        | reply h6 0
T is started     | call 1 start h4 0 -; take; launched 1 101        | plan 1; launch 1; done
D is deleted     | call 2 delete h6; call 2 close h6                | reply 0; reply h0 0
and ends         | ended 1; take; launched 2 102                    | done; launch 2; done
D is gone        | call 2 open h5 'D' #F01FF                        | reply h0 1060
and is made anew | call 2 create h5 'D' - own '/bin/d' plain        | reply - h7 0
it is started    | call 2 start h7 0 -; take; launched 3 103        | plan 2; launch 3; done
                 | end 2 2                                          | reply 0
D and E run      | report 3 16 4 0 0 0 0 0; report 2 16 4 0 0 0 0 0 | done; done
so T is launched | take; launched 4 104; end 1 1                    | launch 4; done; reply 0
= 0 replay: a start waits for the lock of another
administrator
                    | call 1 create h1 'D' - own '/bin/d' plain | reply - h2 0
T needs D           | call 1 create h1 'T' - own '/bin/t' - - * [D] 6 - - 0 | reply - h3 0
another caller      | join admin; call 2 manager - - #F003F     | caller 2; reply h4 0
holds the lock      | call 2 lock h4                            | reply h5 0
no start            | call 1 start h3 0 -                       | reply 1055
no second lock      | call 1 lock h1                            | reply h0 1055
it is another's     | call 1 unlock h5                          | reply h5 1071
it is free          | call 2 unlock h5                          | reply h0 0
T is started        | call 1 start h3 0 -; take; launched 1 101 | plan 1; launch 1; done
it is taken again   | call 2 lock h4                            | reply h6 0
D runs, and T waits | report 1 16 4 0 0 0 0 0; take; end 1 1    | done; empty; again
its holder goes     | gone 2                                    | done
so T is launched    | take; launched 2 102; end 1 1             | launch 2; done; reply 0
= 0 replay: a change that can't be kept
administrator
a change that can't be kept | failcall 1 create h1 'A' - own '/bin/a' plain | reply - h0 1013
is not made                 | call 1 create h1 'A' - own '/bin/a' plain | reply - h2 0
no change                   | failcall 1 status h2                      | reply 16 1 0 1077 0 0 0 0
                            | failcall 1 level h2 4 4 * 0               | reply 0
                            | failcall 1 level h2 1 1 -                 | reply 0
a level that can't be kept  | failcall 1 level h2 1 1 * * 'a'           | reply 1013
is not there                | call 1 leveled h2 1 4                     | reply 4 0 0 0
nor is what is done         | failcall 1 level h2 2 2 * 9 - - 1 * 1 1 0 | reply 1013
                            | call 1 leveled h2 2 20                    | reply 20 0 0 0 0 0 0 0
                            | failcall 1 level h2 4 4 * 1               | reply 1013
                            | call 1 leveled h2 4 4                     | reply 4 0 0 0
nor are triggers            | failcall 1 level h2 8 8 * 1 * - 1 20 2 * 0 - xaa^16 | reply 1013
                            | call 1 leveled h2 8 4                     | reply 4 0 0 0
these are kept              | call 1 level h2 8 8 * 1 * - 1 20 2 * 0 - xaa^16 | reply 0
and the same are no change  | failcall 1 level h2 8 8 * 1 * - 1 20 2 * 0 - xaa^16 | reply 0
                            | call 1 leveled h2 8 28                    | reply 28 1 20 2 xaa^16 0 0
an automatic start          | call 1 change h2 keep 2 keep - - - - 0 - - 0 - | reply - 0
whose delay can't be kept   | failcall 1 level h2 3 3 * 1               | reply 1013
is not delayed              | call 1 leveled h2 3 4                     | reply 4 0 0 0
this time it is             | call 1 level h2 3 3 * 1; failcall 1 level h2 3 3 * 1 \
    | reply 0; reply 0
                            | call 1 leveled h2 3 4                     | reply 4 1 0 0
nothing is due              | tick                                      | idle
= 0 replay: a start is given up after two minutes
administrator
A
                   | 5 call 1 start h2 0 - | plan 1
before two minutes | 120004 tick           | idle
after them         | 120005 tick; end 1 1  | done; reply 1053
= 0 replay: failures count until a minute passes without one
administrator
A
after one second, then two | call 1 level h2 2 2 * 60 - - 2 * 2 1 1000 1 2000 | reply 0
runs
it fails at 0              | ended 1; call 1 status h2        | done; reply 16 1 0 1067 0 0 0 0
nothing is due yet         | 999 tick; take                   | idle; empty
a second later it starts   | 1000 tick; take; launched 2 102  | done; launch 2; done
and once                   | take; tick                       | empty; idle
it runs, and fails again   | report 2 16 4 0 0 0 0 0; 59000 ended 2 | done; done
for the second time        | 60999 tick                       | idle
two seconds later          | 61000 tick; take; launched 3 103 | done; launch 3; done
a minute later it fails    | 119000 ended 3                   | done
for the first time         | 119999 tick                      | idle
a second later             | 120000 tick; take                | done; launch 4
= 0 replay: the last action stands for all later failures
administrator
A
counted for ever           | call 1 level h2 2 2 * #FFFFFFFF - - 2 * 2 1 0 1 1000 | reply 0
runs
the first is undone at once | ended 1; tick; take; launched 2 102      | done; done; launch 2; done
the second a second later  | 5000000000000 ended 2; 5000000000999 tick | done; idle
                           | 5000000001000 tick; take; launched 3 103  | done; launch 3; done
the third too              | 9999999999000 ended 3; 9999999999999 tick | done; idle
                           | 10000000000000 tick; take; launched 4 104 | done; launch 4; done
not counted at all         | call 1 level h2 2 2 * 0 - - 2 * 2 1 0 1 1000 | reply 0
each is undone at once     | ended 4; tick; take; launched 5 105       | done; done; launch 5; done
                           | ended 5; tick; take                       | done; done; launch 6
= 0 replay: a stop with an error is a failure where it counts as one
administrator
with the right to report   | call 1 create h1 'A' - #F81FF 16 3 1 '/bin/a' plain | reply - h2 0
at once, then a second later | call 1 level h2 2 2 * 60 - - 2 * 2 1 0 1 1000 | reply 0
runs
it stops with an error     | report 1 16 1 0 7 0 0 0; tick    | done; idle
which counts from now on   | call 1 level h2 4 4 * 1          | reply 0
it is started again        | call 1 start h2 0 -; take; launched 2 102 | plan 2; launch 2; done
                           | end 1 2; report 2 16 4 1 0 0 0 0 | reply 0; done
and stops with an error    | report 2 16 1 0 7 0 0 0          | done
it starts unasked          | tick; call 1 start h2 0 -        | done; reply 1056
                           | take; launched 3 103             | launch 3; done
the second, by the call    | call 1 set h2 16 1 0 7 0 0 0; 999 tick | reply 0; idle
a second later             | 1000 tick; take; launched 4 104  | done; launch 4; done
an error of its own is none | report 4 16 1 0 0 7 0 0; 9000 tick | done; idle
two plans were unasked     | call 1 start h2 0 -              | plan 5
= 0 replay: what is no failure
administrator
A
a restart at once          | call 1 level h2 2 2 * 60 - - 1 * 1 1 0 | reply 0
a launch that fails        | call 1 start h2 0 -; take; unlaunched 1 2 | plan 1; launch 1; done
                           | end 1 1; tick                    | reply 2; idle
a stop                     | call 1 start h2 0 -; take; launched 2 102 | plan 2; launch 2; done
                           | end 1 2; report 2 16 1 0 7 0 0 0; tick | reply 0; done; idle
the end of an old process  | call 1 start h2 0 -; take; launched 3 103 | plan 3; launch 3; done
                           | end 1 3; ended 2; tick           | reply 0; stale; idle
but of this one            | ended 3; tick; take              | done; done; launch 4
= 0 replay: an action takes the place of the one before
administrator
A
ten seconds later, then one | call 1 level h2 2 2 * 60 - - 2 * 2 1 10000 1 1000 | reply 0
runs
it fails, and is started   | ended 1; call 1 start h2 0 -; take | done; plan 2; launch 2
                           | launched 2 102; end 1 2          | done; reply 0
it fails again             | ended 2; 999 tick                | done; idle
one second later           | 1000 tick; take; launched 3 103  | done; launch 3; done
and not ten                | 10000 tick                       | idle
= 0 replay: a failure after which nothing is done leaves what is due
administrator
A
ten seconds later, then none | call 1 level h2 2 2 * 60 - - 2 * 2 1 10000 0 0 | reply 0
runs
it fails, and is started   | ended 1; call 1 start h2 0 -; take | done; plan 2; launch 2
                           | launched 2 102; end 1 2          | done; reply 0
it fails again             | ended 2; 9999 tick               | done; idle
the first is still due     | 10000 tick; take; launched 3 103 | done; launch 3; done
five seconds later         | call 1 level h2 2 2 * 60 - - 1 * 1 1 5000; ended 3 | reply 0; done
it is started              | call 1 start h2 0 -; take; launched 4 104 | plan 4; launch 4; done
and fails without an action | call 1 level h2 2 2 * 0 - - 0 * 0; ended 4 | reply 0; done
the earlier is still due   | 14999 tick; 15000 tick; take     | idle; done; launch 5
= 0 replay: a restart is dropped where the service can't be started
administrator
A
a second later             | call 1 level h2 2 2 * 60 - - 1 * 1 1 1000 | reply 0
runs
it fails                   | ended 1                          | done
and is disabled            | call 1 change h2 keep 4 keep - - - - 0 - - 0 - | reply - 0
so it does not start       | 1000 tick; take; tick            | done; empty; idle
on demand again            | call 1 change h2 keep 3 keep - - - - 0 - - 0 - | reply - 0
                           | call 1 start h2 0 -; take; launched 2 102 | plan 2; launch 2; done
it fails, and is started   | ended 2; call 1 start h2 0 -; take | done; plan 3; launch 3
so it does not start twice | 2000 tick; take                  | done; empty
it fails, and is deleted   | launched 3 103; ended 3; call 1 delete h2 | done; done; reply 0
so it does not start       | 3000 tick; take                  | done; empty
B fails, and is gone       | call 1 create h1 'B' - own '/bin/b' plain | reply - h3 0
                           | call 1 level h3 2 2 * 60 - - 1 * 1 1 1000 | reply 0
                           | call 1 start h3 0 -; take; launched 4 104 | plan 4; launch 4; done
                           | ended 4; call 1 delete h3; call 1 close h3 | done; reply 0; reply h0 0
nothing is done            | 3999 tick; 4000 tick; take       | idle; done; empty
= 0 replay: a restart starts what is needed, and is given up after two minutes
administrator
                           | call 1 create h1 'D' - own '/bin/d' plain | reply - h2 0
T needs D                  | call 1 create h1 'T' - own '/bin/t' - - * [D] 6 - - 0 | reply - h3 0
T is started at once       | call 1 level h3 2 2 * 60 - - 1 * 1 1 0 | reply 0
                           | call 1 start h3 0 -; take; launched 1 101 | plan 1; launch 1; done
                           | report 1 16 4 0 0 0 0 0; take; launched 2 102 | done; launch 2; done
both end                   | end 1 1; ended 2; ended 1        | reply 0; done; done
D is launched first        | tick; take; launched 3 103; take | done; launch 3; done; empty
too late                   | 119999 tick; 120000 tick         | idle; done
no T                       | report 3 16 4 0 0 0 0 0; take    | done; empty
                           | call 1 status h3                 | reply 16 1 0 1067 0 0 0 0
= 0 replay: a restart goes on when everybody has gone
administrator
                           | call 1 create h1 'D' - own '/bin/d' plain | reply - h2 0
T needs D                  | call 1 create h1 'T' - own '/bin/t' - - * [D] 6 - - 0 | reply - h3 0
T is started at once       | call 1 level h3 2 2 * 60 - - 1 * 1 1 0 | reply 0
                           | call 1 start h3 0 -; take; launched 1 101 | plan 1; launch 1; done
                           | report 1 16 4 0 0 0 0 0; take; launched 2 102 | done; launch 2; done
both end                   | ended 2; ended 1                 | done; done
D is launched              | tick; take; launched 3 103       | done; launch 3; done
the caller goes            | gone 1                           | done
D runs, and T is launched  | report 3 16 4 0 0 0 0 0; take    | done; launch 4
= 0 replay: what is due is done by its moment, then by its number
administrator
                           | call 1 create h1 'A' - own '/bin/a' plain | reply - h2 0
                           | call 1 create h1 'B' - own '/bin/b' plain | reply - h3 0
A two seconds later        | call 1 level h2 2 2 * 60 - - 2 * 2 1 2000 1 1000 | reply 0
B a second later           | call 1 level h3 2 2 * 60 - - 1 * 1 1 1000 | reply 0
                           | call 1 start h2 0 -; take; launched 1 101 | plan 1; launch 1; done
                           | call 1 start h3 0 -; take; launched 2 102 | plan 2; launch 2; done
A fails before B           | ended 1; ended 2                 | done; done
one tick does both         | 5000 tick; take; launched 3 103  | done; launch 3; done
                           | take; launched 4 104; tick       | launch 4; done; idle
B before A                 | call 1 process h3 0 36           | reply 36 16 2 0 0 0 0 0 103 0 0 0
A fails before B again     | ended 4; ended 3                 | done; done
both a second later        | 6000 tick; take; launched 5 105  | done; launch 5; done
                           | take                             | launch 6
A before B                 | call 1 process h2 0 36           | reply 36 16 2 0 0 0 0 0 105 0 0 0
= 0 replay: a start that is given up before makes way for a restart
administrator
                           | call 1 create h1 'D' - own '/bin/d' plain | reply - h2 0
T needs D                  | call 1 create h1 'T' - own '/bin/t' - - * [D] 6 - - 0 | reply - h3 0
T is started much later    | call 1 level h3 2 2 * 60 - - 1 * 1 1 130000 | reply 0
                           | call 1 start h3 0 -; take; launched 1 101 | plan 1; launch 1; done
                           | report 1 16 4 0 0 0 0 0; take; launched 2 102 | done; launch 2; done
both end                   | end 1 1; ended 2; ended 1        | reply 0; done; done
T is started, and waits    | call 1 start h3 0 -; take; launched 3 103 | plan 2; launch 3; done
one tick does both         | 130000 tick; end 1 2             | done; reply 1053
D runs, and T is launched  | report 3 16 4 0 0 0 0 0; take    | done; launch 4
= 0 replay: at the last moment a start is given up as it begins
administrator
A
a restart a second later   | call 1 level h2 2 2 * 60 - - 1 * 1 1 1000 | reply 0
runs
it fails at the end of time | 18446744073709551615 ended 1    | done
one tick starts and ends it | tick; take; tick                | done; empty; idle
                           | call 1 status h2                 | reply 16 1 0 1067 0 0 0 0
so does the next           | call 1 start h2 0 -; tick; end 1 3 | plan 3; done; reply 1053
= 0 replay: a command is run after a failure, and reboots are none
administrator
A
half a second later        | call 1 level h2 2 2 * 60 - * 1 * '/bin/c' 1 3 500 | reply 0
runs
it fails                   | ended 1; 499 tick                | done; idle
the command is run         | 500 tick; take; launched 2 102   | done; launch 2; done
and is no process of A     | call 1 process h2 0 36           | reply 36 16 1 0 1067 0 0 0 0 0 0 0
it reports in vain         | report 2 16 4 1 0 0 0 0; control 2 | stale; empty
its end is no failure      | ended 2; 9000 tick; control 2    | stale; idle; over
A fails without a command  | call 1 level h2 2 2 * 60 - * 1 * '' 1 3 0 | reply 0
                           | call 1 start h2 0 -; take; launched 3 103 | plan 2; launch 3; done
nothing is run             | ended 3; tick; take; tick        | done; done; empty; idle
a reboot is only counted   | call 1 level h2 2 2 * 60 - - 1 * 1 2 0 | reply 0
                           | call 1 start h2 0 -; take; launched 4 104 | plan 3; launch 4; done
                           | ended 4; tick; take; tick        | done; done; empty; idle
a command that is not there | call 1 level h2 2 2 * 60 - * 1 * '/bin/c' 1 3 0 | reply 0
                           | call 1 start h2 0 -; take; launched 5 105 | plan 4; launch 5; done
                           | ended 5; tick; take; unlaunched 6 2 | done; done; launch 6; done
changes nothing            | control 6; call 1 status h2      | over; reply 16 1 0 1067 0 0 0 0
= 0 replay: a trigger starts a service once
administrator
                           | call 1 create h1 'D' - own '/bin/d' plain | reply - h2 0
T needs D                  | call 1 create h1 'T' - own '/bin/t' - - * [D] 6 - - 0 | reply - h3 0
nobody has the trigger     | raise 1 aaaaaaaaaaaaaaaaaaaaaaaaaaaaaaaa; take | reply 0; empty
T has it                   | call 1 level h3 8 8 * 1 * - 1 20 1 * 0 - xaa^16 | reply 0
another one                | raise 1 aaaaaaaaaaaaaaaaaaaaaaaaaaaaaaab; take | reply 0; empty
a user raises none         | join user; raise 2 aaaaaaaaaaaaaaaaaaaaaaaaaaaaaaaa | caller 2; reply 5
                           | take                             | empty
D is launched for T        | raise 1 aaaaaaaaaaaaaaaaaaaaaaaaaaaaaaaa | reply 0
                           | take; launched 1 101             | launch 1; done
once                       | raise 1 aaaaaaaaaaaaaaaaaaaaaaaaaaaaaaaa; take | reply 0; empty
D runs, and T is launched  | report 1 16 4 0 0 0 0 0; take    | done; launch 2
once                       | raise 1 aaaaaaaaaaaaaaaaaaaaaaaaaaaaaaaa; take | reply 0; empty
it stops                   | launched 2 102; report 2 16 1 0 0 0 0 0 | done; done
there was one plan         | call 1 start h3 0 -; take; launched 3 103 | plan 2; launch 3; done
it is disabled             | call 1 change h3 keep 4 keep - - - - 0 - - 0 - | reply - 0
and stops                  | report 3 16 1 0 0 0 0 0          | done
so it does not start       | raise 1 aaaaaaaaaaaaaaaaaaaaaaaaaaaaaaaa; take | reply 0; empty
= 0 replay: a security descriptor narrows what is granted
administrator
A
users are denied 4, and all else is allowed \
    | call 1 secure h2 4 72 x01000480000000000000000000000000140000000200340002000000\
    010018000400000001020000000000052000000021020000\
    00001400ff010f00010100000000000100000000 72 | reply 0
a user                    | join user; call 2 manager - - #2000000 | caller 2; reply h3 0
is denied 4               | call 2 open h3 'A' 4                   | reply h0 5
and 4 with 8              | call 2 open h3 'A' #C                  | reply h0 5
has 8 alone               | call 2 open h3 'A' 8                   | reply h4 0
and what is left of all   | call 2 open h3 'A' #2000000            | reply h5 0
so not the status         | call 2 status h5                       | reply 0 0 0 0 0 0 0 5
but the dependents        | call 2 dependents h5 3 0               | reply 0 0 0 0
no more than a user's     | call 2 open h3 'A' #10                 | reply h0 5
an administrator has all  | call 1 open h1 'A' #F01FF              | reply h6 0
= 0 replay: a trigger stops what may be stopped
administrator
A
the first trigger counts | call 1 level h2 8 8 * 2 * - 2 20 2 * 0 - 20 1 * 0 - xaa^32 | reply 0
A does not run             | raise 1 aaaaaaaaaaaaaaaaaaaaaaaaaaaaaaaa; take | reply 0; empty
runs
it gets a STOP             | raise 1 aaaaaaaaaaaaaaaaaaaaaaaaaaaaaaaa | reply 0
                           | control 1; control 1             | control 1; empty
it accepts none            | report 1 16 4 2 0 0 0 0          | done
so it gets none            | raise 1 aaaaaaaaaaaaaaaaaaaaaaaaaaaaaaaa | reply 0
                           | control 1                        | empty
B needs A                  | call 1 create h1 'B' - own '/bin/b' - - * [A] 6 - - 0 | reply - h3 0
                           | call 1 start h3 0 -; take; launched 2 102 | plan 2; launch 2; done
A accepts one again        | report 1 16 4 1 0 0 0 0          | done
B is about to run: none    | raise 1 aaaaaaaaaaaaaaaaaaaaaaaaaaaaaaaa | reply 0
                           | control 1                        | empty
= 0 replay: a trigger starts services in the order of their creation
administrator
                           | call 1 create h1 'B' - own '/bin/b' plain | reply - h2 0
                           | call 1 create h1 'A' - own '/bin/a' plain | reply - h3 0
                           | call 1 level h3 8 8 * 1 * - 1 20 1 * 0 - xaa^16 | reply 0
                           | call 1 level h2 8 8 * 1 * - 1 20 1 * 0 - xaa^16 | reply 0
                           | raise 1 aaaaaaaaaaaaaaaaaaaaaaaaaaaaaaaa | reply 0
both are launched          | take; launched 1 101; take       | launch 1; done; launch 2
B before A                 | call 1 process h2 0 36           | reply 36 16 2 0 0 0 0 0 101 0 0 0
                           | call 1 process h3 0 36           | reply 36 16 2 0 0 0 0 0 0 0 0 0
";

/// Jobs by their words, and words that are none.
pub const JOBS: &str = "
= 11 replay: nothing is read after a bad line
| join admin; ended 9; join admin | caller 1; bad line 2
= 11 replay: a raise of a caller that is not there
| join admin; raise 2 aaaaaaaaaaaaaaaaaaaaaaaaaaaaaaaa | caller 1; bad line 2
= 11 replay: a report of nine numbers
| join admin; report 1 1 32 4 1 0 0 0 0 0 | caller 1; bad line 2
= 11 replay: a raise of fifteen bytes
| join admin; raise 1 aaaaaaaaaaaaaaaaaaaaaaaaaaaaaa | caller 1; bad line 2
= 11 replay: a raise of seventeen
| join admin; raise 1 aaaaaaaaaaaaaaaaaaaaaaaaaaaaaaaaaa | caller 1; bad line 2
= 11 replay: a start that nobody asked for leaves when it is launched
administrator
A
at once | call 1 level h2 2 2 * 60 - - 1 * 1 1 0    | reply 0
runs
        | ended 1; tick; take; launched 2 102       | done; done; launch 2; done
        | end 1 2                                   | bad line 14
= 6 replay: a line without its line feed
| join admin           | caller 1
| hex 3020676f6e652031 |
= 0 audit: a legal history
| limits 1024 1024 64 64 128 16 16777216 268435456 |
| moment 0                                         |
| 0 join admin; = caller 1                         |
| 0 gone 1; = done                                 | legal 2
= 14 audit: another answer
| limits 1024 1024 64 64 128 16 16777216 268435456 |
| moment 0                                         |
| 0 join admin; = caller 2                         |
| 0 gone 1; = done                                 | line 4
= 14 audit: a caller who isn't there
| limits 1024 1024 64 64 128 16 16777216 268435456 |
| moment 0                                         |
| 0 join admin; = caller 1                         |
| 0 gone 2; = done                                 | line 5
= 0 audit: calls
| limits 1024 1024 64 64 128 16 16777216 268435456; moment 7 |
| 7 join admin; = caller 1                                   |
| 7 call 1 15 000000000000000000000000                       |
| = reply 000000000100000000000000000000000000000000000000   |
| 7 call 1 0 0000000001000000000000000000000000000000        |
| = reply 000000000000000000000000000000000000000000000000   |
| 7 gone 1; = done                                           | legal 4
= 14 audit: a number with a zero before it
| limits 1024 1024 64 64 128 16 16777216 268435456; moment 7 |
| 07 join admin                                              | line 3
= 0 audit: a moment before the last one
| limits 1024 1024 64 64 128 16 16777216 268435456; moment 7 |
| 6 join admin; = caller 1                                   | legal 1
= 0 audit: nothing happened
| limits 1 1 1 1 1 1 1 1; moment 18446744073709551615 | legal 0
= 0 audit: groups and services
| limits 1024 1024 64 64 128 16 16777216 268435456; moment 7; group 4100; group 62006300     |
| config 010000004100010000004100100000000300000001000000020000002f00610000000000\
000000000000000000000000000000000000000000000000000000000000                                |
| 7 join user; = caller 1                                                                   |
| 7 gone 1; = done                                                                          | legal 2
= 14 audit: a name twice
| limits 1024 1024 64 64 128 16 16777216 268435456; moment 7                                |
| config 010000004100010000004100100000000300000001000000020000002f00610000000000\
000000000000000000000000000000000000000000000000000000000000                                |
| config 010000004100010000004100100000000300000001000000020000002f00610000000000\
000000000000000000000000000000000000000000000000000000000000                                | line 4
= 14 audit: a greater limit than the program's
| limits 1025 1024 64 64 128 16 16777216 268435456 | line 1
= 14 audit: a failed append of a call that changes nothing
| limits 1024 1024 64 64 128 16 16777216 268435456 |
| moment 0                                         |
| 0 join admin; = caller 1                         |
| 0 failcall 1 15 000000000000000000000000         | line 5
= 14 audit: an order that nobody wanted
| limits 1024 1024 64 64 128 16 16777216 268435456 |
| moment 0                                         |
| 0 take                                           | line 3
= 6 audit: no moment
| limits 1024 1024 64 64 128 16 16777216 268435456 |
= 6 audit: no answer
| limits 1024 1024 64 64 128 16 16777216 268435456 |
| moment 0; 0 join admin                           |
= 6 audit: a line without its line feed
| limits 1024 1024 64 64 128 16 16777216 268435456 |
| moment 0                                         |
| hex 30                                           |
= 6 audit: nothing
= 5 audit journal: a word too many
= 5 audit --db journal: no option of an audit
= 0 generate 1: one service
|| steps 11; services 1; launches 1; running 0
= 0 generate 2: two, with their needs
|| steps 24; services 2; launches 3; running 0
= 0 generate 512: as many services as it makes at most
|| steps 22074; services 512; launches 4107; running 0
= 5 generate 0: too few
= 5 generate 513: too many
= 5 generate 02: no number
= 5 pip: no job
| hex 05 |
= 5 pipe pipe: a word too many
| hex 05 |
= 5 pipe --as: nobody
| hex 05 |
= 5 pipe --as root: a stranger
| hex 05 |
= 5 pipe --as=: nobody
| hex 05 |
= 5 pipe --as user --as=user: twice
| hex 05 |
= 0 serve --admin 135 --user 139: nobody comes
|| steps 0; services 0
= 0 serve --take-user=0 --user=65535 --take-admin 4294967295 --admin 1: in another order
|| steps 0; services 0
= 0 serve --groups A,B --admin 135 --user 139: groups that nobody has
|| steps 0; services 0
= 0 serve --admin 135 --groups=A --user 139: one group
|| steps 0; services 0
= 0 serve --admin 135 --user 139 --export: nothing happened
|| limits 1024 1024 64 64 128 16 16777216 268435456; moment 7; steps 0; services 0
= 0 serve --export --groups A,bc --admin=135 --user=139: groups
|| limits 1024 1024 64 64 128 16 16777216 268435456; moment 7; group 4100; group 62006300
|| steps 0; services 0
= 5 serve --admin 135 --user 139 --export=yes: it has no value
= 5 serve --admin 135 --user 139 --export yes: it has no value
= 5 serve --admin 135 --user 139 --export --export: twice
= 5 serve --admin 135 --user 139 --db --export: another option
= 5 serve --export: no port
= 5 pipe --export: no option of a pipe
= 5 replay --export: no option of a replay
= 5 generate 1 --export: a word too many
= 5 audit --export: a word too many
= 5 pipe --db: no file
= 5 pipe --db=: no file
= 5 pipe --db -a: another option
= 5 replay --db a --db=a: twice
= 5 serve --db a: no port
= 5 generate 1 --db a: a word too many
= 5 serve: no port
= 5 serve --admin 135 --take-user 1: one port
= 5 serve --admin 135 --user: no value
= 5 serve --admin 135 --user --take-user 1: no value
= 5 serve --admin 135 --user=: no value
= 5 serve --admin 135 --user 139=139: no number
= 5 serve --admin 135 --user 0139: no number
= 5 serve --admin 135 --user -1: no number
= 5 serve --admin 0 --user 139: no port has this number
= 5 serve --admin 135 --user 65536: no port has this number
= 5 serve --admin 135 --user 139 --take-admin 4294967296: too great a count
= 5 serve --admin 135 --user 139 --admin 135: twice
= 5 serve --admin 135 --user 139 --take-user=1 --take-user 1: twice
= 5 serve --admin 135 --user 139 139: a word too many
= 5 serve --admin 135 --user 139 --: a word too many
= 5 serve --admin 135 --user 139 --as admin: no option of a server
= 5 serve --Admin 135 --user 139: no option of a server
= 5 serve --admin 135 --user 139 --groups: no groups
= 5 serve --admin 135 --user 139 --groups=: no groups
= 5 serve --admin 135 --user 139 --groups -A: another option
= 5 serve --admin 135 --user 139 --groups A --groups=A: twice
= 5 pipe --groups A: no option of a pipe
= 5 replay --groups A: no option of a replay
= 5 generate 1 --groups A: a word too many
";

/// The first 1,024 bytes of a request, as many of it again, and one byte.
pub const FIRST_KILOBYTE: &str = "| pdu 0 1 2 1024 x00000f00 x00^1024 |\n";

pub const KILOBYTE: &str = "| pdu 0 0 2 1024 x00000f00 x00^1024 |\n";

pub const ONE_BYTE: &str = "| pdu 0 2 2 1 x00000f00 x00 |\n";
