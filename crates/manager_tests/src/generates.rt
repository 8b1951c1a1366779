//! The summary of the stated list where it can't be printed. Whole ones stand among the rows of the
//! program.

use crate::limits::LIMITS;
use outside::MemorySink;
use scm_generate::{Generated, generate};
use std::alloc::Global;
use std::test::Fail;

/// Whether the list for one service ends so, with these bytes in a sink that takes ten at a time.
fn ends(alloc: Global, fails: Vec<bool>, how: Generated, bytes: &str) -> bool {
    let mut output = MemorySink::in_pieces(alloc, 10, fails);
    let ended = generate(alloc, LIMITS, 1, &mut output);
    let is_so = ended == how && output.bytes() == bytes.as_bytes();
    drop(output);
    is_so
}

#[test]
fn a_summary_that_the_sink_cuts_off(rt: HostRuntime) -> Result<(), Fail> {
    let alloc = rt.alloc();
    // The second write fails.
    let fails = vec![in alloc; true, false]?;
    assert!(rt; ends(alloc, fails, Generated::WriteFault, "steps 11\ns"));
    Ok(())
}
