//! Four threads over one cell: each entry that a thread added is there at the end, once, and the count is that of all.
ghost use Rattle.std.specs.Prelude.{◌≡◌, ◌<◌, IfOk};

use std::alloc::AllocError;
use std::sync::Wait;
use std::test::Fail;
use std::thread::{Threads, join, join_mut};
use up_cell::{Cell, Job, Seat};
use up_ends::Grows;

// How often each thread takes the turn: 100,000 turns together.
const TURNS: u64 = 25_000;

/// Who added each entry.
#[derive(Drop)]
struct Adders {
    added_by: Vec<u64>,
}

impl Grows for Adders {
    type Entry = u64;

    type Fixed = ();

    ghost entries = { λ adders. adders.added_by.items };

    ghost faults = { λ adders. 0 };

    ghost fixed = { λ adders. tt };

    fn length(&self) -> u64 {
        self.added_by.len() as u64
    }
}

/// Adds an entry by its number.
#[derive(Drop)]
struct Add {
    by: u64,
    missed: u64,
}

impl Job<Adders> for Add {
    ghost can = { λ job state. Unit {0} };

    ghost did = { λ job state job_after after. Unit {0} };

    fn run(&mut self, state: &mut Adders) {
        if state.added_by.push(self.by).is_err() {
            self.missed = self.missed.saturating_add(1);
        }
    }
}

/// Counts the entries of a number.
#[derive(Drop)]
struct Count {
    by: u64,
    found: u64,
}

impl Job<Adders> for Count {
    ghost can = { λ job state. Unit {0} };

    ghost did = { λ job state job_after after. Unit {0} };

    fn run(&mut self, state: &mut Adders) {
        self.found = state.added_by.iter().filter(|by| **by == self.by).count() as u64;
    }
}

/// A thread's seat of a cell, and what it does in its turns.
#[derive(Drop)]
struct Caller<'a> {
    cell: &'a Cell<Adders>,
    seat: Seat<Adders>,
    job: Add,
    ghost sits: { seat.cell ≡ cell.now },
}

impl<'a> Caller<'a> {
    fn new(cell: &'a Cell<Adders>, seat: Seat<Adders>, by: u64) -> Caller<'a>
        requires { seat.cell ≡ cell.now }
        ensures { result.cell.now ≡ cell.now }
    {
        Caller {
            cell,
            seat,
            job: Add { by, missed: 0 },
        }
    }

    fn take_turns<R: Wait>(&mut self, rt: &R)
        ensures { self.new.cell ≡ self.old.cell }
    {
        for _ in 0..TURNS {
            self.cell.lend(rt, &mut self.seat, &mut self.job);
        }
    }

    // Takes in the seat of another, and what it missed.
    fn take_in(&mut self, other: Caller<'a>)
        requires { other.cell.now ≡ self.old.cell.now }
        ensures { self.new.cell ≡ self.old.cell }
    {
        self.job.missed = self.job.missed.saturating_add(other.job.missed);
        self.cell.join(&mut self.seat, other.seat);
    }

    // The count of entries.
    fn len(&mut self) -> u64 {
        self.cell.seen(&mut self.seat)
    }

    // The entries of a number.
    fn count<R: Wait>(&mut self, rt: &R, by: u64) -> u64 {
        let mut count = Count { by, found: 0 };
        self.cell.lend(rt, &mut self.seat, &mut count);
        count.found
    }
}

// Two callers, each in a thread of its own. They are one afterwards.
fn two_at_once<'a, R: Threads + Wait + Sync>(
    rt: &R,
    cell: &'a Cell<Adders>,
    mut seat: Seat<Adders>,
    by: u64,
) -> Result<Caller<'a>, AllocError>
    requires seat { seat.cell ≡ cell.now }
    requires by { by < 10 }
    ensures { IfOk result (λ caller. caller.cell.now ≡ cell.now) }
{
    let other = cell.split(&mut seat)?;
    let mut one = Caller::new(cell, seat, by);
    let mut other = Caller::new(cell, other, by + 1);
    join_mut(rt, &mut || one.take_turns(rt), &mut || other.take_turns(rt));
    one.take_in(other);
    Ok(one)
}

// Four callers, two by two.
fn four_at_once<'a, R: Threads + Wait + Sync>(
    rt: &R,
    cell: &'a Cell<Adders>,
    mut seat: Seat<Adders>,
) -> Result<Caller<'a>, AllocError>
    requires { seat.cell ≡ cell.now }
{
    let other = cell.split(&mut seat)?;
    let (one, other) = join(
        rt,
        || -> Result<Caller<'_>, AllocError>
            requires { seat.cell ≡ cell.now }
            ensures { IfOk result (λ caller. caller.cell.now ≡ cell.entry.now) }
        { two_at_once(rt, cell, seat, 0) },
        || -> Result<Caller<'_>, AllocError>
            requires { other.cell ≡ cell.now }
            ensures { IfOk result (λ caller. caller.cell.now ≡ cell.entry.now) }
        { two_at_once(rt, cell, other, 2) },
    );
    let mut one = one?;
    one.take_in(other?);
    Ok(one)
}

#[test]
fn four_threads_lose_no_entry(rt: HostRuntime) -> Result<(), Fail> {
    let added_by = Vec::with_capacity(rt.alloc(), 100_000)?;
    let (cell, seat) = Cell::new(rt.alloc(), Adders { added_by })?;
    let mut one = four_at_once(&rt, &cell, seat)?;
    assert_eq!(rt; one.job.missed, 0);
    for by in 0..4 {
        assert_eq!(rt; one.count(&rt, by), TURNS);
    }
    assert_eq!(rt; one.len(), 4 * TURNS);
    Ok(())
}
