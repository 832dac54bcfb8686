//! What is done with a cell.
ghost use Rattle.std.specs.Prelude.{◌≡◌, ◌≤◌, length, IfOk, Ok};
ghost use Rattle.up_cell.specs.Known.{HasEvery, both_of, first_of, looked_of, newcomer, second_of};
ghost use Rattle.up_cell.specs.Positions.{Rising};
ghost use Rattle.up_cell.specs.Turned.{IsLent, Turned};
ghost use Rattle.up_lists.specs.Begins.{Begins};

use crate::boxed::{Boxed, run};
use crate::cell::{Cell, Seat};
use crate::job::Job;
use crate::rule::{Both, Give, Halves, Look, Settle, Tell};
use crate::turn::{COUNT, TURN, take_turn, wake};
use atomic_table::{Refused, Table};
use std::alloc::{AllocError, Global};
use std::snapshot::Snapshot;
use std::sync::Wait;
use up_ends::Grows;

impl<S: Grows + Drop> Cell<S> {
    /// A cell of a state, and the seat that has seen all of its entries and has the whole share. An `Err` is want of memory; the state is
    /// then dropped.
    pub fn new(alloc: Global, state: S) -> Result<(Cell<S>, Seat<S>), AllocError>
        ensures { IfOk result (λ made. made.1
            ≡ newcomer made.0 (S.entries state) (S.fixed state)) }
    {
        let mut slots = Vec::with_capacity(alloc, 1)?;
        let count = state.length();
        let made = Snapshot::of(&state);
        slots.push_reserved(Some(Boxed::new(alloc, state)?));
        match Table::new(alloc, &[count, 0, 0], slots, &made) {
            Ok((table, place)) => Ok((Cell { table }, Seat { place })),
            Err(Refused { slots: _ }) => Err(AllocError),
        }
    }

    /// Loads the count of entries, which is at least what the seat has seen and has loaded. It takes no lock and waits for nobody.
    pub fn seen(&self, seat: &mut Seat<S>) -> u64
        requires { seat.old.cell ≡ self.now }
        ensures seat { seat.new ≡ looked_of seat.old result }
        ensures seen { length seat.old.seen ≤ result }
        ensures floor { seat.old.floor ≤ result }
        ensures every { HasEvery seat.new result }
        ensures rising { Rising seat.new.own }
    {
        self.table.shared.load::<Look>(&mut seat.place, COUNT)
    }

    /// Waits for the turn, and runs the job on the state. Nothing is said of how long it waits.
    pub fn lend<R: Wait, J: Job<S>>(&self, rt: &R, seat: &mut Seat<S>, job: &mut J)
        requires cell { seat.old.cell ≡ self.now }
        requires can { (state : S) → IsLent S.entries S.fixed seat.old state
            → J.can job.old state }
        ensures { Turned S.entries S.faults S.fixed J.did job.old job.new seat.old seat.new }
    {
        let board = &self.table.shared;
        let place = &mut seat.place;
        take_turn::<S, R>(rt, board, place);
        let Some(mut state) = board.exchange(place, 0, None) else {
            unreachable!()
        };
        run(job, &mut state);
        let count = state.length();
        let _none = board.exchange(place, 0, Some(state));
        board.store::<Tell<S>>(place, COUNT, count);
        board.store::<Give>(place, TURN, 0);
        wake::<S>(board);
    }

    /// A second seat, which has seen what the first has. Each has half of the share. It takes no memory and no lock, and is never refused.
    pub fn split(&self, seat: &mut Seat<S>) -> Result<Seat<S>, AllocError>
        requires { seat.old.cell ≡ self.now }
        ensures first { seat.new ≡ first_of seat.old }
        ensures second { result ≡ Ok (second_of seat.old) }
    {
        let place = self.table.shared.split_seat::<Halves>(&mut seat.place);
        Ok(Seat { place })
    }

    /// The seat takes in the other: it has then seen what either has, and has both shares. It takes no lock and waits for nobody.
    pub fn join(&self, seat: &mut Seat<S>, other: Seat<S>)
        requires first { seat.old.cell ≡ self.now }
        requires second { other.cell ≡ self.now }
        ensures joined { seat.new ≡ both_of seat.old other }
        ensures this { Begins seat.old.seen seat.new.seen }
        ensures that { Begins other.seen seat.new.seen }
        ensures rising { Rising seat.new.own }
    {
        let Seat { place: other } = other;
        let place = &mut seat.place;
        self.table.shared.join_seat::<Both>(place, other);
        self.table.shared.load::<Settle>(place, COUNT);
    }
}
