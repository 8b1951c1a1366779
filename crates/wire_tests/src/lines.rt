use scm_lines::{Line, put_entry, read_line};
use scm_model::{Kept, Step};
use scm_shapes::Values;
use scm_text::OutOfMemory;
use std::alloc::Global;
use std::test::Fail;

/// A line, and the line of the entry that it says.
const ROWS: [(&'static str, &'static str); 19] = [
    ("0 join admin", "0 join admin"),
    ("0 join user", "0 join user"),
    (
        "0 call 1 15 000000000000000000000000",
        "0 call 1 15 000000000000000000000000",
    ),
    // The referent of a text is written as 0x00020000.
    (
        "0 call 1 15 00000000010000000200000000000000020000004100000001000000",
        "0 call 1 15 00000000000002000200000000000000020000004100000001000000",
    ),
    (
        "0 call 1 0 0000000001000000000000000000000000000000",
        "0 call 1 0 0000000001000000000000000000000000000000",
    ),
    // A handle with attributes is none of the server's.
    (
        "0 call 1 0 0100000001000000000000000000000000000000",
        "0 call 1 0 0000000000000000000000000000000000000000",
    ),
    (
        "5 failcall 1 2 0000000003000000000000000000000000000000",
        "5 failcall 1 2 0000000003000000000000000000000000000000",
    ),
    ("0 end 1 2", "0 end 1 2"),
    ("0 take", "0 take"),
    ("3 launched 1 4294967295", "3 launched 1 4294967295"),
    ("0 unlaunched 1 2", "0 unlaunched 1 2"),
    ("0 report 1 16 4 1 0 0 0 0", "0 report 1 16 4 1 0 0 0 0"),
    ("0 report 1 2 32 4 1 0 0 0 0", "0 report 1 2 32 4 1 0 0 0 0"),
    // Service 0 is the one that the process was launched for, and isn't written.
    ("0 report 1 0 16 4 1 0 0 0 0", "0 report 1 16 4 1 0 0 0 0"),
    ("0 ended 1", "0 ended 1"),
    ("0 control 1", "0 control 1"),
    ("18446744073709551615 tick", "18446744073709551615 tick"),
    (
        "0 raise 1 000102030405060708090a0b0c0d0e0f",
        "0 raise 1 000102030405060708090a0b0c0d0e0f",
    ),
    (
        "0 nomem 18446744073709551615",
        "0 nomem 18446744073709551615",
    ),
];

/// Lets a call tell whether its change was kept.
fn keep(step: &mut Step, fails: bool) {
    if let Step::Call { kept, .. } = step {
        *kept = if fails { Kept::Failed } else { Kept::Kept };
    }
}

/// Puts the line of the entry that a line says in place of another, if it says one.
fn write_again(
    alloc: Global,
    text: &str,
    line: &mut Line,
    written: &mut Vec<u8>,
) -> Result<(), OutOfMemory> {
    let mut values = Values::new(alloc);
    let read = read_line(alloc, text.as_bytes(), &mut values, line);
    drop(values);
    if read? {
        keep(&mut line.step, line.fails);
        put_entry(alloc, written, line.moment, &line.step)
    } else {
        Ok(())
    }
}

fn is_written(alloc: Global, text: &str, want: &str) -> bool {
    let mut line = Line {
        moment: 0,
        step: Step::Tick,
        fails: false,
    };
    let mut written = Vec::new(alloc);
    let again = write_again(alloc, text, &mut line, &mut written);
    drop(line);
    again.is_ok() && written.as_slice() == want.as_bytes()
}

#[test]
fn the_line_of_an_entry_is_written_in_one_form(rt: HostRuntime) -> Result<(), Fail> {
    for (text, want) in ROWS {
        if !is_written(rt.alloc(), text, want) {
            return Err(text.into());
        }
    }
    Ok(())
}
