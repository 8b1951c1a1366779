// What is due, done time after time.
ghost use Rattle.std.specs.Prelude.{◌≡◌};
ghost use Rattle.scm_book.specs.Passes.{IsOf};
ghost use Rattle.scm_launcher.specs.Ticks.{IsTicksEnd, TicksOn, no_room};

use outside::Clock;
use process_runner::Quit;
use record_journal::Keeper;
use scm_book::{Book, MakeFault, Pass, Spent, TickEnd};
use std::sync::Wait;
use std::time::Duration;
use std::{thread, time};

/// How many milliseconds lie between two ticks.
const PAUSE: u64 = 50;

/// Whether the limits had no room for a tick.
fn is_full(end: TickEnd) -> bool
    ensures { result ≡ no_room end }
{
    matches!(end, TickEnd::Unmade(MakeFault::Full))
}

/// Ticks, and ticks again after each pause, until `quit` asks for the end or there is no room.
fn tick_until<R: Wait + time::Clock, K: Keeper, C: Clock, Q: Quit>(
    rt: &R,
    book: &Book<K>,
    pass: &mut Pass,
    clock: &C,
    quit: &Q,
)
    requires book { IsOf book.now pass.old }
    ensures book { IsOf book.now pass.new }
    ensures ticks { TicksOn (C.tells clock.now) book.now.opening pass.old pass.new }
    ensures ends { IsTicksEnd (Q.may_ask quit.now) book.now.opening pass.new }
{
    for _ in rt.forever() {
        let end = book.tick(rt, pass, clock.now());
        if is_full(end) {
            return;
        }
        if quit.asked() {
            return;
        }
        thread::sleep(rt, Duration::from_millis(PAUSE));
    }
    unreachable!()
}

/// Does what is due by a pass that is nobody's, at once and then every 50 ms, until `quit` asks for
/// the end or the limits have no room for a tick. After a tick that finds no memory it goes on with
/// the next. The pause is that of `rt`; `clock` tells the moments.
pub fn tick_all<R: Wait + time::Clock, K: Keeper, C: Clock, Q: Quit>(
    rt: &R,
    book: &Book<K>,
    pass: Pass,
    clock: &C,
    quit: &Q,
) -> Spent
    requires book { IsOf book.now pass }
    requires nobody { pass.caller ≡ 0 }
    ensures book { IsOf book.now result }
    ensures ticks { TicksOn (C.tells clock.now) book.now.opening pass result }
    ensures ends { IsTicksEnd (Q.may_ask quit.now) book.now.opening result }
{
    let mut pass = pass;
    tick_until(rt, book, &mut pass, clock, quit);
    book.gone(rt, pass, clock.now())
}
