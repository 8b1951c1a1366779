// Long talks of callers who share services.
ghost use Rattle.std.specs.Prelude.{◌≢◌};
ghost use Rattle.scm_book.specs.Passes.{IsOf};

use book_calls::{Asked, Site, Told, ask};
use scm_book::Pass;
use std::sync::Wait;

/// A call, and what it was told.
#[derive(Clone, Copy)]
pub struct Line {
    pub asked: Asked,
    pub told: Told,
}

/// The handles that a caller was told last, 0 for none.
#[derive(Clone, Copy)]
struct Hand {
    manager: u64,
    made: u64,
    opened: u64,
    lock: u64,
}

/// How many calls a round has.
const ROUND: u64 = 10;

impl Hand {
    const EMPTY: Hand = Hand {
        manager: 0,
        made: 0,
        opened: 0,
        lock: 0,
    };

    /// The call at a place of a round over a service.
    fn next(&self, place: u64, name: u16) -> Asked {
        let Hand {
            manager,
            made,
            opened,
            lock,
        } = *self;
        match place {
            0 => Asked::OpensManager,
            1 => Asked::Creates { manager, name },
            2 => Asked::Opens { manager, name },
            3 => Asked::Queries { handle: opened },
            4 => Asked::Locks { manager },
            5 => Asked::Closes { handle: made },
            6 => Asked::Unlocks { lock },
            7 => Asked::Deletes { handle: opened },
            8 => Asked::Closes { handle: opened },
            _ => Asked::Closes { handle: manager },
        }
    }

    /// Takes the number that the call at a place was told.
    fn hear(&mut self, place: u64, number: u64) {
        match place {
            0 => self.manager = number,
            1 => self.made = number,
            2 => self.opened = number,
            4 => self.lock = number,
            _ => {}
        }
    }
}

/// The service of a round: callers go over four, each from one of its own on.
fn service(mark: u64, round: u64) -> u16 {
    match mark.wrapping_add(round) % 4 {
        0 => 0x41,
        1 => 0x42,
        2 => 0x43,
        _ => 0x44,
    }
}

/// Makes the call at a place of a caller's talk, at the moment of its mark.
fn speak<R: Wait>(
    at: &Site<'_, R>,
    pass: &mut Pass,
    mark: u64,
    call: u64,
    hand: &mut Hand,
) -> Option<Line>
    requires book { IsOf at.now.book.now pass.old }
    requires caller { pass.old.caller ≢ 0 }
    ensures book { IsOf at.now.book.now pass.new }
    ensures caller { pass.new.caller ≢ 0 }
{
    let place = call % ROUND;
    let asked = hand.next(place, service(mark, call / ROUND));
    match ask(at.rt, at.alloc, at.book, pass, mark, asked) {
        Ok(told) => {
            hand.hear(place, told.number);
            Some(Line { asked, told })
        }
        Err(_) => None,
    }
}

/// Makes so many calls, and writes down what they were told. Whether there was memory and room for
/// all.
pub fn talk<R: Wait>(
    at: &Site<'_, R>,
    pass: &mut Pass,
    mark: u64,
    calls: u64,
    lines: &mut Vec<Line>,
) -> bool
    requires book { IsOf at.now.book.now pass.old }
    requires caller { pass.old.caller ≢ 0 }
    ensures { IsOf at.now.book.now pass.new }
{
    let mut hand = Hand::EMPTY;
    for call in 0..calls {
        let Some(line) = speak(at, pass, mark, call, &mut hand) else {
            return false;
        };
        if lines.push(line).is_err() {
            return false;
        }
    }
    true
}
