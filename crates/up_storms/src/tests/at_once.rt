//! That the sessions of a storm run at once: a gate holds one of them, and sees another go on.
use crate::words_of;
use std::alloc::{AllocError, Global};
use std::hash::RandomState;
use std::sync::Wait;
use std::sync::atomic::{AtomicU64, Ordering};
use std::thread;
use std::thread::Threads;
use up_ends::{Gate, MemSink};
use up_lists::Items;
use up_storm::{Plan, storm_run, storm_within};

/// For how many turns a held call waits at most for another thread: some seconds on a machine that has nothing else to do.
const MANY_TURNS: u64 = 5_000_000;

/// For how many turns it waits where there is no other thread.
const FEW_TURNS: u64 = 1_000;

/// Holds the first call of session 0 until the first call of session 1 was left, or until the turns are used up.
#[derive(Drop)]
struct Held {
    turns: u64,
    left: AtomicU64,
    late: AtomicU64,
}

impl Gate for Held {
    fn enter(&self, worker: u64, call: u64) {
        if worker == 0 && call == 0 {
            self.hold();
        }
    }

    fn leave(&self, worker: u64, call: u64) {
        if worker == 1 && call == 0 {
            self.left.store(1, Ordering::SeqCst);
        }
    }
}

impl Held {
    fn new(turns: u64) -> Held {
        Held {
            turns,
            left: AtomicU64::new(0),
            late: AtomicU64::new(0),
        }
    }

    fn hold(&self) {
        for _turn in 0..self.turns {
            if self.left.load(Ordering::SeqCst) == 1 {
                return;
            }
            thread::yield_now();
        }
        self.late.store(1, Ordering::SeqCst);
    }

    /// Whether session 1 went on before the turns were used up.
    fn saw_the_other(&self) -> bool {
        self.late.load(Ordering::SeqCst) == 0
    }
}

// Whether session 1 goes on in a whole run while session 0 is held, and all ends well.
fn goes_on<R: Threads + Wait + Sync>(
    rt: &R,
    alloc: Global,
    random: RandomState,
) -> Result<bool, AllocError> {
    let gate = Held::new(MANY_TURNS);
    let words = words_of(alloc, "storm 5 2 3")?;
    let mut sink = MemSink::new(alloc, Items::new(alloc));
    let status = storm_run(rt, alloc, random, &words, &mut sink, &gate);
    Ok(status == 0 && gate.saw_the_other())
}

// The same where one thread runs all sessions.
fn goes_on_alone<R: Threads + Wait + Sync>(
    rt: &R,
    alloc: Global,
    random: RandomState,
) -> Result<bool, AllocError> {
    let gate = Held::new(FEW_TURNS);
    let plan = Plan {
        seed: 5,
        sessions: 2,
        requests: 3,
        full: false,
    };
    let text = storm_within(rt, alloc, random, plan, 1, &gate)?;
    drop(text);
    Ok(gate.saw_the_other())
}

#[test]
fn storm_at_once(rt: HostRuntime) {
    let random = RandomState::new(&rt).expect(&rt, "random bytes");
    let at_once = goes_on(&rt, rt.alloc(), random).expect(&rt, "memory");
    assert!(rt; at_once);
}

// The body that runs its sessions one after the other: one thread is all it has, and the gate's turns are used up.
#[test]
fn one_after_the_other_is_seen(rt: HostRuntime) {
    let random = RandomState::new(&rt).expect(&rt, "random bytes");
    let at_once = goes_on_alone(&rt, rt.alloc(), random).expect(&rt, "memory");
    assert!(rt; !at_once);
}
