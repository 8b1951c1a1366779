//! Numbers that come under keys and leave.

use number_pairs::{NumberPairs, Pair};
use scm_text::OutOfMemory;
use std::test::Fail;

/// What becomes of a number under a key.
#[derive(Clone, Copy)]
enum Change {
    Comes(u64, u64),
    Leaves(u64, u64),
}

fn apply(pairs: &mut NumberPairs, change: Change) -> Result<(), OutOfMemory> {
    match change {
        Change::Comes(key, number) => {
            pairs.reserve(1)?;
            pairs.add(Pair { key, number });
        }
        Change::Leaves(key, number) => pairs.remove(Pair { key, number }),
    }
    Ok(())
}

/// A change, a key, and the numbers that are under it then.
const CHANGES: [(Change, u64, &'static [u64]); 9] = [
    (Change::Leaves(3, 9), 3, &[]),
    (Change::Comes(3, 9), 3, &[9]),
    (Change::Comes(3, 4), 3, &[4, 9]),
    (Change::Comes(3, 9), 3, &[4, 9]),
    (Change::Comes(0, 5), 3, &[4, 9]),
    (Change::Comes(u64::MAX, 7), u64::MAX, &[7]),
    (Change::Leaves(3, 5), 0, &[5]),
    (Change::Leaves(3, 4), 3, &[9]),
    (Change::Leaves(0, 5), 0, &[]),
];

fn are_numbers(pairs: &[Pair], want: &[u64]) -> bool {
    pairs.len() == want.len()
        && pairs
            .iter()
            .zip(want.iter())
            .all(|(pair, number)| pair.number == *number)
}

fn are_as_stated(pairs: &mut NumberPairs) -> Result<bool, OutOfMemory> {
    for (step, key, want) in CHANGES {
        apply(pairs, step)?;
        if !are_numbers(pairs.at(key), want) {
            return Ok(false);
        }
    }
    Ok(true)
}

#[test]
fn each_key_has_the_numbers_that_came_under_it(rt: HostRuntime) -> Result<(), Fail> {
    let mut pairs = NumberPairs::new(rt.alloc());
    let told = are_as_stated(&mut pairs);
    drop(pairs);
    match told {
        Ok(true) => Ok(()),
        Ok(false) => Err("other numbers are there".into()),
        Err(_) => Err("no memory".into()),
    }
}
