//! The turn: it is taken, and waited for without burning a processor.
ghost use Rattle.std.specs.Prelude.{◌≡◌, ◌<◌, [], false};
ghost use Rattle.up_cell.specs.Plays.{Took};

use crate::boxed::Boxed;
use crate::rule::{Doze, Take, Turns};
use crate::view::View;
use atomic_table::Shared;
use std::snapshot::Snapshot;
use std::sync::Wait;
use std::thread::yield_now;
use up_ends::Grows;

// The words of the table: the count of entries; 1 while a seat has the turn; and how many sleep until the turn is given back.
pub(crate) const COUNT: usize = 0;

pub(crate) const TURN: usize = 1;

pub(crate) const SLEEPERS: usize = 2;

// How often the turn is tried for before the thread sleeps.
const TRIES: u32 = 64;

pub(crate) type Place<S> = atomic_table::Seat<
    Option<Boxed<S>>,
    View<<S as Grows>::Entry, <S as Grows>::Fixed>,
>;

pub(crate) type Board<S> = Shared<
    Option<Boxed<S>>,
    View<<S as Grows>::Entry, <S as Grows>::Fixed>,
    Snapshot<S>,
    Turns<S>,
>;

// Waits for the turn. The state is then out with the seat. Most turns are short, so it is tried for some times before the thread sleeps.
pub(crate) fn take_turn<S: Grows, R: Wait>(rt: &R, board: &Board<S>, place: &mut Place<S>)
    requires cell { place.old.table_id ≡ board.now.table_id }
    requires three { board.now.table_id.words ≡ 3 }
    requires idle { (place.old.me.1 ≡ []) × (place.old.me.0.turn ≡ false)
        × (0 < place.old.me.0.part) }
    ensures cell { (place.new.table_id ≡ place.old.table_id) × (place.new.id ≡ place.old.id) }
    ensures took { Took S.entries S.faults S.fixed place.old.me place.new.me }
{
    let mut tries = 0;
    for _ in rt.forever() {
        let found = board.compare_exchange::<Take<S>>(place, TURN, 0, 1);
        if found == 0 {
            return;
        }
        if tries < TRIES {
            tries += 1;
            yield_now();
        } else {
            sleep::<S, R>(rt, board, place);
        }
    }
    unreachable!()
}

// Sleeps until a turn is given back, unless the turn is free by now. Whoever gives it back afterwards finds the sleeper counted: it was
// counted before the word was looked at for the last time.
fn sleep<S: Grows, R: Wait>(rt: &R, board: &Board<S>, place: &mut Place<S>)
    requires cell { place.old.table_id ≡ board.now.table_id }
    requires three { board.now.table_id.words ≡ 3 }
    requires idle { place.old.me.1 ≡ [] }
    ensures cell { (place.new.table_id ≡ place.old.table_id) × (place.new.id ≡ place.old.id) }
    ensures same { place.new.me ≡ place.old.me }
{
    board.fetch_add::<Doze>(place, SLEEPERS, 1);
    board.park(rt, TURN, 1);
    board.fetch_sub::<Doze>(place, SLEEPERS, 1);
}

// Wakes one of those who sleep until the turn is given back. Where nobody sleeps it makes no system call.
pub(crate) fn wake<S: Grows>(board: &Board<S>)
    requires { board.now.table_id.words ≡ 3 }
{
    if board.peek(SLEEPERS) > 0 {
        board.wake_one(TURN);
    }
}
