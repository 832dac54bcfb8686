//! How many lines passed and failed.
use std::io;

/// How many answers were right, and how many lines were not.
#[derive(Clone, Copy, Debug)]
pub struct Tally {
    passed: u64,
    failed: u64,
}

impl Tally {
    pub fn new() -> Tally {
        Tally {
            passed: 0,
            failed: 0,
        }
    }

    pub fn pass(&mut self) {
        self.passed = self.passed.saturating_add(1);
    }

    pub fn fail(&mut self) {
        self.failed = self.failed.saturating_add(1);
    }

    pub fn print(&self, rt: &impl Print) -> io::Result<()> {
        println!(rt; "{} passed, {} failed", self.passed, self.failed)
    }
}
