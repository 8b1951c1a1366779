use record_journal::{Fate, Keeper, MemoryKeeper};
use std::alloc::AllocError;
use std::test::*;

/// A call of a keeper.
#[derive(Clone, Copy)]
enum Call {
    Open,
    OpenWithoutPath,
    Read,
    Append(&'static str),
    Cut(u64),
}

/// Makes a call, and says whether it succeeds.
fn succeeds(keeper: &mut MemoryKeeper, call: Call) -> bool {
    match call {
        Call::Open => keeper.open_at(Some("journal")).is_ok(),
        Call::OpenWithoutPath => keeper.open_at(None).is_ok(),
        Call::Read => keeper.read_all().is_ok(),
        Call::Append(text) => keeper.append(text.as_bytes()).is_ok(),
        Call::Cut(length) => keeper.cut(length).is_ok(),
    }
}

const FAILS: Fate = Fate::Fails { done: 2 };

/// A call, what becomes of it, and the bytes that the keeper then holds.
const CALLS: [(Call, Fate, &str); 10] = [
    (Call::Open, Fate::Succeeds, "abc"),
    (Call::OpenWithoutPath, FAILS, "abc"),
    (Call::Read, FAILS, "abc"),
    (Call::Read, Fate::Succeeds, "abc"),
    (Call::Append("xyz"), FAILS, "abcxy"),
    (Call::Cut(4), FAILS, "abcx"),
    (Call::Cut(3), Fate::Fails { done: 0 }, "abcx"),
    (Call::Cut(9), Fate::Succeeds, "abcx"),
    (Call::Append("!"), Fate::Succeeds, "abcx!"),
    (Call::OpenWithoutPath, Fate::Succeeds, ""),
];

/// The fates of the calls, as a keeper takes them.
fn list_fates(fates: &mut Vec<Fate>) -> Result<(), AllocError> {
    for (_, fate, _) in CALLS.iter().rev() {
        fates.push(*fate)?;
    }
    Ok(())
}

/// Whether each call ends as its fate says.
fn come_to_fates(keeper: &mut MemoryKeeper) -> bool {
    for (call, fate, bytes) in &CALLS {
        if succeeds(keeper, *call) != (*fate == Fate::Succeeds)
            || keeper.bytes() != bytes.as_bytes()
        {
            return false;
        }
    }
    true
}

/// Whether it was opened at the journal's path, and then without one.
fn has_paths(keeper: &MemoryKeeper) -> bool {
    match keeper.asked() {
        [Some(path), None] => path.as_str() == "journal",
        _ => false,
    }
}

#[test]
fn calls_come_to_their_fates_in_order(rt: HostRuntime) -> Result<(), Fail> {
    let mut fates = Vec::new(rt.alloc());
    list_fates(&mut fates)?;
    let mut keeper = MemoryKeeper::new(Vec::from_slice(rt.alloc(), b"abc")?, fates);
    let come_to_fates = come_to_fates(&mut keeper);
    let has_paths = has_paths(&keeper);
    drop(keeper);
    assert!(rt; come_to_fates && has_paths);
    Ok(())
}
