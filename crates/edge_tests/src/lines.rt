use child_link::{control_line, read_line_step};
use scm_model::{Order, Step};
use std::test::Fail;

/// The process whose lines are read.
const PROCESS: u64 = 7;

/// The service that a step of the process names, and the seven numbers of the status that it
/// reports.
fn reported(step: &Option<Step>) -> Option<(u64, [u32; 7])> {
    match step {
        Some(
            Step::Report {
                process,
                service,
                status: s,
            },
        ) if *process == PROCESS => Some((
            *service,
            [
                s.kind,
                s.state,
                s.accepted,
                s.win32,
                s.specific,
                s.checkpoint,
                s.hint,
            ],
        )),
        _ => None,
    }
}

/// The same of the step that a line is.
fn numbers_in(line: &str) -> Option<(u64, [u32; 7])> {
    let step = read_line_step(line.as_bytes(), PROCESS);
    let numbers = reported(&step);
    drop(step);
    numbers
}

#[test]
fn lines_are_reports_just_as_the_format_has_them(rt: HostRuntime) {
    let rows = [
        ("STATUS 16 4 1 0 0 0 0\n", Some((0, [16, 4, 1, 0, 0, 0, 0]))),
        (
            "STATUS 16 4 1 0 0 0 0\r\n",
            Some((0, [16, 4, 1, 0, 0, 0, 0])),
        ),
        (
            "STATUS 32 1 2047 1066 4294967295 6 7\n",
            Some((0, [32, 1, 2047, 1066, 4294967295, 6, 7])),
        ),
        (
            "STATUS 1 32 4 1 0 0 0 0\n",
            Some((1, [32, 4, 1, 0, 0, 0, 0])),
        ),
        (
            "STATUS 18446744073709551615 32 1 0 0 0 0 0\r\n",
            Some((18446744073709551615, [32, 1, 0, 0, 0, 0, 0])),
        ),
        (
            "STATUS 0 32 4 1 0 0 0 0\n",
            Some((0, [32, 4, 1, 0, 0, 0, 0])),
        ),
        ("STATUS 18446744073709551616 32 4 1 0 0 0 0\n", None),
        ("STATUS 01 32 4 1 0 0 0 0\n", None),
        ("STATUS 1 32 4 1 0 0 0 0 0\n", None),
        ("STATUS 1 4294967296 4 1 0 0 0 0\n", None),
        ("STATUS 16 4 1 0 0 0 0", None),
        ("STATUS 16 4 1 0 0 0 0\r", None),
        ("STATUS 16 4 1 0 0 0 0\r\r\n", None),
        ("STATUS 16 4 1 0 0 0 0\n\n", None),
        ("STATUS 16 04 1 0 0 0 0\n", None),
        ("STATUS 16 +4 1 0 0 0 0\n", None),
        ("STATUS 4294967296 4 1 0 0 0 0\n", None),
        ("STATUS 16 4 1 0 0 0\n", None),
        ("STATUS  16 4 1 0 0 0 0\n", None),
        ("STATUS 16 4 1 0 0 0 0 \n", None),
        (" STATUS 16 4 1 0 0 0 0\n", None),
        ("status 16 4 1 0 0 0 0\n", None),
        ("STATUS\n", None),
        ("\n", None),
        ("", None),
    ];
    for (line, want) in rows {
        assert_eq!(rt; numbers_in(line), want, "at {line}");
    }
}

#[test]
fn an_order_is_one_line(rt: HostRuntime) -> Result<(), Fail> {
    let rows = [
        (0, 1, false, "", "CONTROL 1\n"),
        (7, 128, false, "", "CONTROL 128\n"),
        (1, 1, true, "", "CONTROL 1 1\n"),
        (
            18446744073709551615,
            128,
            true,
            "",
            "CONTROL 18446744073709551615 128\n",
        ),
        (1, 0, true, "Sh", "START 1 Sh\n"),
        (2, 0, true, "a b~\u{7f}\u{e9}", "START 2 a b~??\n"),
    ];
    for (service, code, shared, name, want) in rows {
        let name: Vec<u16> = name.encode_utf16().collect(rt.alloc())?;
        let order = Order { service, code };
        let line = control_line(rt.alloc(), &order, shared, name.as_slice());
        drop(name);
        let line = line.ok().ok_or("memory")?;
        assert_eq!(rt; line.as_slice(), want.as_bytes());
    }
    Ok(())
}
