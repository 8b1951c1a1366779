/// What `sc` is asked after the address, its words between `|`, what it prints, and its status.
pub struct Row {
    pub words: &'static str,
    pub text: &'static str,
    pub status: u8,
    /// Whether it is asked again until it prints that.
    pub again: bool,
}

/// The status of words that are no command.
const NO_COMMAND: u8 = 2;

impl Row {
    /// How many connections it takes to ask it once.
    pub fn dials(&self) -> usize {
        if self.status == NO_COMMAND { 0 } else { 1 }
    }
}

/// A journal of services that start by themselves: X without a group, Y with the second tag of G1,
/// Z with its first, and V with the first tag of G2.
pub const JOURNAL: &[u8] = &[
    0x53, 0x43, 0x4d, 0x4a, 1, 0, 0, 0, 1, 0x45, 0, 0, 0, 1, 0, 0, 0, 0x58, 0, 1, 0, 0, 0, 0x58, 0,
    0x10, 0, 0, 0, 2, 0, 0, 0, 1, 0, 0, 0, 6, 0, 0, 0, 0x2f, 0, 0x73, 0, 0x72, 0, 0x76, 0, 0x2f, 0,
    0x78, 0, 0, 0, 0, 0, 0, 0, 0, 0, 0, 0, 0, 0, 0, 0, 0, 0, 0, 0, 0, 0, 0, 0, 0, 0, 0, 0, 0, 0, 0,
    1, 0x49, 0, 0, 0, 1, 0, 0, 0, 0x59, 0, 1, 0, 0, 0, 0x59, 0, 0x10, 0, 0, 0, 2, 0, 0, 0, 1, 0, 0,
    0, 6, 0, 0, 0, 0x2f, 0, 0x73, 0, 0x72, 0, 0x76, 0, 0x2f, 0, 0x79, 0, 2, 0, 0, 0, 0x47, 0, 0x31,
    0, 2, 0, 0, 0, 0, 0, 0, 0, 0, 0, 0, 0, 0, 0, 0, 0, 0, 0, 0, 0, 0, 0, 0, 0, 0, 1, 0x49, 0, 0, 0,
    1, 0, 0, 0, 0x5a, 0, 1, 0, 0, 0, 0x5a, 0, 0x10, 0, 0, 0, 2, 0, 0, 0, 1, 0, 0, 0, 6, 0, 0, 0,
    0x2f, 0, 0x73, 0, 0x72, 0, 0x76, 0, 0x2f, 0, 0x7a, 0, 2, 0, 0, 0, 0x47, 0, 0x31, 0, 1, 0, 0, 0,
    0, 0, 0, 0, 0, 0, 0, 0, 0, 0, 0, 0, 0, 0, 0, 0, 0, 0, 0, 0, 0, 1, 0x49, 0, 0, 0, 1, 0, 0, 0,
    0x56, 0, 1, 0, 0, 0, 0x56, 0, 0x10, 0, 0, 0, 2, 0, 0, 0, 1, 0, 0, 0, 6, 0, 0, 0, 0x2f, 0, 0x73,
    0, 0x72, 0, 0x76, 0, 0x2f, 0, 0x76, 0, 2, 0, 0, 0, 0x47, 0, 0x32, 0, 1, 0, 0, 0, 0, 0, 0, 0, 0,
    0, 0, 0, 0, 0, 0, 0, 0, 0, 0, 0, 0, 0, 0, 0, 0,
];

/// The group that is listed.
pub const GROUPS: &str = "G1";

/// A child: its program, what it says first, and what it says when it was told to stop.
pub struct Child {
    pub program: &'static str,
    pub first: &'static [u8],
    pub last: &'static [u8],
}

/// A child that runs and accepts STOP.
const OBEYS: Child = Child {
    program: "",
    first: b"STATUS 16 4 1 0 0 0 0\n",
    last: b"STATUS 16 1 0 0 0 0 0\n",
};

/// The children in the order in which they are to be started: those of the listed group by their
/// tags, of another group and of none; then as they are asked for. The eighth ends at once.
pub const CHILDREN: &[Child] = &[
    Child {
        program: "/srv/z",
        ..OBEYS
    },
    Child {
        program: "/srv/y",
        ..OBEYS
    },
    Child {
        program: "/srv/v",
        ..OBEYS
    },
    Child {
        program: "/srv/x",
        ..OBEYS
    },
    Child {
        program: "/srv/db",
        ..OBEYS
    },
    Child {
        program: "/srv/lan",
        ..OBEYS
    },
    Child {
        program: "/bin/sh",
        ..OBEYS
    },
    Child {
        program: "/srv/mail",
        first: b"",
        last: b"",
    },
    Child {
        program: "/srv/mail",
        ..OBEYS
    },
];

/// The line that a child gets to stop.
pub const STOP: &[u8] = b"CONTROL 1\n";

const LAST_RUNNING: &str = "SERVICE_NAME: X\nTYPE: 16\nSTATE: 4 RUNNING\nACCEPTED: 1\n\
    WIN32_EXIT_CODE: 0\nSERVICE_EXIT_CODE: 0\nCHECKPOINT: 0\nWAIT_HINT: 0\n";

const RUNNING: &str = "SERVICE_NAME: Web\nTYPE: 16\nSTATE: 4 RUNNING\nACCEPTED: 1\n\
    WIN32_EXIT_CODE: 0\nSERVICE_EXIT_CODE: 0\nCHECKPOINT: 0\nWAIT_HINT: 0\n";

const STOPPED: &str = "SERVICE_NAME: Web\nTYPE: 16\nSTATE: 1 STOPPED\nACCEPTED: 0\n\
    WIN32_EXIT_CODE: 0\nSERVICE_EXIT_CODE: 0\nCHECKPOINT: 0\nWAIT_HINT: 0\n";

const MAIL_RUNNING: &str = "SERVICE_NAME: Mail\nTYPE: 16\nSTATE: 4 RUNNING\nACCEPTED: 1\n\
    WIN32_EXIT_CODE: 0\nSERVICE_EXIT_CODE: 0\nCHECKPOINT: 0\nWAIT_HINT: 0\n";

const MAIL_STOPPED: &str = "SERVICE_NAME: Mail\nTYPE: 16\nSTATE: 1 STOPPED\nACCEPTED: 0\n\
    WIN32_EXIT_CODE: 0\nSERVICE_EXIT_CODE: 0\nCHECKPOINT: 0\nWAIT_HINT: 0\n";

const WEB: &str = "create|Web|binPath=|/bin/sh /srv/web.sh|start=|auto|depend=|Db/+Net|\
    DisplayName=|Web server";

/// The usual session of an administrator, in order, after words that aren't a command and once the
/// services run that start by themselves; then what becomes of a delayed start, and of a service
/// that fails.
pub const ROWS: &[Row] = &[
    Row {
        words: "delete",
        text: "",
        status: NO_COMMAND,
        again: false,
    },
    Row {
        words: "query|X",
        text: LAST_RUNNING,
        status: 0,
        again: true,
    },
    Row {
        words: "create|Db|binPath=|/srv/db",
        text: "[SC] CreateService SUCCESS\n",
        status: 0,
        again: false,
    },
    Row {
        words: "description|Db|text",
        text: "[SC] ChangeServiceConfig2 SUCCESS\n",
        status: 0,
        again: false,
    },
    Row {
        words: "create|Lan|binPath=|/srv/lan|group=|Net",
        text: "[SC] CreateService SUCCESS\n",
        status: 0,
        again: false,
    },
    Row {
        words: WEB,
        text: "[SC] CreateService SUCCESS\n",
        status: 0,
        again: false,
    },
    Row {
        words: "failure|Web|reset=|60|actions=|restart/1000/restart/2000",
        text: "[SC] ChangeServiceConfig2 SUCCESS\n",
        status: 0,
        again: false,
    },
    Row {
        words: "start|Web",
        text: "[SC] StartService SUCCESS\n",
        status: 0,
        again: false,
    },
    Row {
        words: "query|Web",
        text: RUNNING,
        status: 0,
        again: true,
    },
    Row {
        words: "stop|Db",
        text: "[SC] ControlService FAILED 1051\n",
        status: 1,
        again: false,
    },
    Row {
        words: "stop|Web",
        text: RUNNING,
        status: 0,
        again: false,
    },
    Row {
        words: "query|Web",
        text: STOPPED,
        status: 0,
        again: true,
    },
    Row {
        words: "delete|Web",
        text: "[SC] DeleteService SUCCESS\n",
        status: 0,
        again: false,
    },
    Row {
        words: "query|Web",
        text: "[SC] OpenService FAILED 1060\n",
        status: 1,
        again: false,
    },
    // A delayed start.
    Row {
        words: "create|Late|binPath=|/srv/late|start=|delayed-auto",
        text: "[SC] CreateService SUCCESS\n",
        status: 0,
        again: false,
    },
    Row {
        words: "config|Late|start=|demand",
        text: "[SC] ChangeServiceConfig SUCCESS\n",
        status: 0,
        again: false,
    },
    Row {
        words: "config|Late|start=|delayed-auto",
        text: "[SC] ChangeServiceConfig SUCCESS\n",
        status: 0,
        again: false,
    },
    Row {
        words: "delete|Late",
        text: "[SC] DeleteService SUCCESS\n",
        status: 0,
        again: false,
    },
    // A service whose program ends at once, and is started again.
    Row {
        words: "create|Mail|binPath=|/srv/mail",
        text: "[SC] CreateService SUCCESS\n",
        status: 0,
        again: false,
    },
    Row {
        words: "failure|Mail|reset=|INFINITE|actions=|restart/0",
        text: "[SC] ChangeServiceConfig2 SUCCESS\n",
        status: 0,
        again: false,
    },
    Row {
        words: "start|Mail",
        text: "[SC] StartService SUCCESS\n",
        status: 0,
        again: false,
    },
    Row {
        words: "query|Mail",
        text: MAIL_RUNNING,
        status: 0,
        again: true,
    },
    Row {
        words: "stop|Mail",
        text: MAIL_RUNNING,
        status: 0,
        again: false,
    },
    Row {
        words: "query|Mail",
        text: MAIL_STOPPED,
        status: 0,
        again: true,
    },
    Row {
        words: "delete|Mail",
        text: "[SC] DeleteService SUCCESS\n",
        status: 0,
        again: false,
    },
];
