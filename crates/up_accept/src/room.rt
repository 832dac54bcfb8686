//! How many connections are answered at once.
use std::sync::{Condvar, Mutex, Wait};

/// Room for so many connections at once, at least one.
#[derive(Drop)]
pub(crate) struct Room {
    most: u64,
    taken: Mutex<u64>,
    left: Condvar,
}

impl Room {
    pub fn new(most: u64) -> Room {
        Room {
            most: most.max(1),
            taken: Mutex::new(0),
            left: Condvar::new(),
        }
    }

    /// Takes a place, and waits for it where all are taken.
    pub fn enter<R: Wait>(&self, rt: &R) {
        let mut taken = self
            .left
            .wait_while(rt, self.taken.lock(rt), |taken| *taken >= self.most);
        *taken = taken.saturating_add(1);
    }

    /// Gives a place back.
    pub fn leave<R: Wait>(&self, rt: &R) {
        let mut taken = self.taken.lock(rt);
        *taken = taken.saturating_sub(1);
        drop(taken);
        self.left.notify_one();
    }
}
