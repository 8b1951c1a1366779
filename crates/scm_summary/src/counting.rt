ghost use Rattle.std.specs.Prelude.{◌≡◌, ◌≤◌, [], length, IfOk, OnOk};
ghost use Rattle.scm_summary.specs.Calls.{calls_from, joined_in};
ghost use Rattle.scm_summary.specs.Counting.{CountsTo, HasRoomFor, IsZeros, Raises};
ghost use Rattle.scm_summary.specs.Counting.{caller_of, one_of};

use scm_text::OutOfMemory;
use scm_trail::Trail;
use std::alloc::Global;
use step_code::Front;

/// 1 where a caller joins.
fn one_joined(front: Front) -> u64
    ensures value { result ≡ one_of front }
    ensures small { result ≤ 1 }
{
    match front {
        Front::Joined => 1,
        _ => 0,
    }
}

/// The caller whose call or raise it is.
fn calling(front: Front) -> Option<u64>
    ensures { result ≡ caller_of front }
{
    match front {
        Front::Called { caller } => Some(caller),
        _ => None,
    }
}

/// How many callers joined.
fn joined_in(trail: &Trail) -> Result<u64, OutOfMemory>
    ensures { IfOk result (λ count. count ≡ joined_in trail.now.entries) }
{
    let mut entries = trail.entries();
    let mut count = 0;
    while let Some(front) = entries.next_front()? {
        count += one_joined(front);
    }
    Ok(count)
}

/// Counts of so many callers, each of them 0.
fn zeros(alloc: Global, count: u64) -> Result<Vec<u64>, OutOfMemory>
    ensures { IfOk result (λ counts. IsZeros count counts.items) }
{
    let mut counts = Vec::new(alloc);
    for _ in 0..count {
        let Ok(()) = counts.push(0) else {
            return Err(OutOfMemory);
        };
    }
    Ok(counts)
}

/// Counts a call of this caller, if it is one's. The first count is that of caller 1.
fn raise(counts: &mut [u64], caller: Option<u64>)
    requires { HasRoomFor counts.old caller }
    ensures { Raises counts.old caller counts.new }
{
    let Some(caller) = caller else {
        return;
    };
    if 1 <= caller && caller <= counts.len() as u64 {
        counts[(caller - 1) as usize] += 1;
    }
}

/// Counts the calls in a history, for counts that are each 0.
fn count_calls(counts: &mut [u64], trail: &Trail) -> Result<(), OutOfMemory>
    requires { IsZeros (length counts.old) counts.old }
    ensures { OnOk result (CountsTo trail.now.entries [] (length counts.old) counts.new) }
{
    let mut entries = trail.entries();
    while let Some(front) = entries.next_front()? {
        raise(counts, calling(front));
    }
    Ok(())
}

/// How many calls each caller made. The first of them is caller 1.
pub fn calls(alloc: Global, trail: &Trail) -> Result<Vec<u64>, OutOfMemory>
    ensures { IfOk result (λ counts. counts.items
        ≡ calls_from trail.now.entries 1 (joined_in trail.now.entries)) }
{
    let mut counts = zeros(alloc, joined_in(trail)?)?;
    match count_calls(&mut counts, trail) {
        Ok(()) => Ok(counts),
        Err(OutOfMemory) => {
            drop(counts);
            Err(OutOfMemory)
        }
    }
}
