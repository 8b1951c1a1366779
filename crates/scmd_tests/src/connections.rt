// The smallest session, which is cut anywhere, or of which a read or a write fails.
use scm_pipe::Served;
use std::alloc::{AllocError, Global};
use std::sync::Wait;
use test_books::{Talk, WHOLE, comes_to, comes_to_failing};

/// Where items of the session end, and how many bytes they are answered up to there.
const ENDS: [(usize, usize); 4] = [(0, 0), (72, 56), (108, 104), (152, 152)];

/// The front of this length of the session, which ends where an item does or within the next one.
fn front(length: usize) -> Option<Talk> {
    let mut row = Talk {
        session: WHOLE.session.get(..length)?,
        end: Served::Truncated,
        answered: 0,
        ..WHOLE
    };
    for (end, answered) in ENDS {
        if end <= length {
            row.answered = answered;
        }
        if end == length {
            row.end = Served::Ended;
        }
    }
    Some(row)
}

/// Whether the front of this length ends as its row says.
fn front_comes_to<R: Wait>(rt: &R, alloc: Global, length: usize) -> bool {
    match front(length) {
        Some(row) => comes_to(rt, alloc, &row),
        None => false,
    }
}

/// The first length of a front that doesn't come to its end.
pub fn first_wrong_front<R: Wait>(rt: &R, alloc: Global) -> Option<usize> {
    for length in 0..153 {
        if !front_comes_to(rt, alloc, length) {
            return Some(length);
        }
    }
    None
}

/// What becomes of calls, of which so many succeed and the next one fails.
fn failing_after(alloc: Global, calls: usize) -> Result<Vec<bool>, AllocError> {
    let mut fails = Vec::new(alloc);
    fails.push(true)?;
    for _ in 0..calls {
        fails.push(false)?;
    }
    Ok(fails)
}

/// Whether the session is answered up to this length where the read after it fails.
fn ends_at_read<R: Wait>(rt: &R, alloc: Global, length: usize) -> bool {
    let Some(front) = front(length) else {
        return false;
    };
    match failing_after(alloc, length) {
        Ok(reads) => {
            let row = Talk {
                session: WHOLE.session,
                end: Served::ReadFault,
                ..front
            };
            comes_to_failing(rt, alloc, &row, reads, Vec::new(alloc))
        }
        Err(_) => false,
    }
}

/// The first length after which a read that fails doesn't end the session so.
pub fn first_wrong_read<R: Wait>(rt: &R, alloc: Global) -> Option<usize> {
    for length in 0..153 {
        if !ends_at_read(rt, alloc, length) {
            return Some(length);
        }
    }
    None
}

/// Whether the session is answered so many bytes where the write after so many others fails.
fn ends_at_write<R: Wait>(rt: &R, alloc: Global, writes: usize, answered: usize) -> bool {
    match failing_after(alloc, writes) {
        Ok(writes) => {
            let row = Talk {
                end: Served::WriteFault,
                answered,
                ..WHOLE
            };
            comes_to_failing(rt, alloc, &row, Vec::new(alloc), writes)
        }
        Err(_) => false,
    }
}

/// The first number of writes after which one that fails doesn't end the session so.
pub fn first_wrong_write<R: Wait>(rt: &R, alloc: Global) -> Option<usize> {
    for (writes, answered) in [(0, 0), (1, 56), (2, 104)] {
        if !ends_at_write(rt, alloc, writes, answered) {
            return Some(writes);
        }
    }
    None
}
