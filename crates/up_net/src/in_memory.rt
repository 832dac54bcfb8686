//! What stands in memory for a machine: a program, a clock and a source of random bytes that always do the same.
ghost use Rattle.std.specs.Prelude.{◌≡◌, [], ◌∷◌, ◌++◌, map, IfOk, OnErr, OnOk, string_bytes};
ghost use Rattle.up_net.specs.InMemory.{RunsAlike};
ghost use Rattle.up_net.specs.Questions.{silent_run};

use crate::day_clock::DayClock;
use crate::programs::{Printed, ProgramRun, Programs};
use crate::random_bytes::RandomBytes;
use std::alloc::{AllocError, Global};
use std::io;
use std::marker::Model;
use std::time::Duration;
use up_bytes::{Bytes, copy_of};
use up_lists::Items;

/// A program in memory that always ends with the same status and prints the same. It tells its runs. A run that cannot be noted for
/// want of memory does not happen, and gives no status.
#[derive(Drop)]
pub struct SameProgram {
    alloc: Global,
    status: Option<i32>,
    printed: Bytes,
    runs: Vec<ProgramRun>,
}

impl Model for SameProgram {
    ghost use Rattle.up_net.specs.InMemory.{SameRuns};

    ghost Value = { SameRuns };

    ghost view = { λ program. record {
      status = program.status;
      printed = program.printed;
      runs = program.runs.items;
    } };
}

impl SameProgram {
    /// A program with this status, which prints this. It has not run yet.
    pub fn new(alloc: Global, status: Option<i32>, printed: Bytes) -> SameProgram
        ensures { result ≡ record { status = status; printed = printed; runs = [] } }
    {
        SameProgram {
            alloc,
            status,
            printed,
            runs: Vec::new(alloc),
        }
    }

    /// Its runs so far, in order.
    pub fn runs(&self) -> &[ProgramRun]
        ensures { result.now ≡ self.now.runs }
    {
        self.runs.as_slice()
    }

    // Notes a run with its status, and this as what it printed. An `Err` changes nothing.
    fn note(&mut self, program: &str, words: &[String], printed: Bytes) -> Result<(), AllocError>
        ensures noted { OnOk result (self.new ≡ record self.old {
          runs = self.old.runs ++ record {
            program = program.now;
            words = map string_bytes words.now;
            status = self.old.status;
            printed = printed;
          } ∷ [];
        }) }
        ensures untouched { OnErr result (self.new ≡ self.old) }
    {
        let program = copy_of(self.alloc, program.as_bytes())?;
        let words = words_of(self.alloc, words)?;
        let status = self.status;
        self.runs.push(ProgramRun {
            program,
            words,
            status,
            printed,
        })?;
        Ok(())
    }
}

/// The bytes of each word.
fn words_of(alloc: Global, words: &[String]) -> Result<Items<Bytes>, AllocError>
    ensures { IfOk result (λ copies. copies ≡ map string_bytes words.now) }
{
    let mut copies = Vec::new(alloc);
    for word in words {
        copies.push(copy_of(alloc, word.as_bytes())?)?;
    }
    Ok(Items::from_vec(copies))
}

impl Programs for SameProgram {
    ghost use Rattle.up_net.specs.InMemory.{RunsAlike};

    ghost runs = { RunsAlike };

    fn status(&mut self, program: &str, words: &[String]) -> Option<i32> {
        match self.note(program, words, Bytes::from_vec(Vec::new(self.alloc))) {
            Ok(()) => self.status,
            Err(_) => None,
        }
    }

    fn output(
        &mut self,
        alloc: Global,
        program: &str,
        words: &[String],
    ) -> Result<Printed, AllocError> {
        let bytes = copy_of(alloc, self.printed.as_slice())?;
        let noted = copy_of(self.alloc, self.printed.as_slice())?;
        self.note(program, words, noted)?;
        Ok(Printed {
            status: self.status,
            bytes,
        })
    }
}

/// A clock in memory that stands still, or cannot be read.
#[derive(Drop)]
pub struct StillClock {
    reading: Option<Duration>,
}

impl Model for StillClock {
    ghost use Rattle.std.specs.Prelude.{Option};
    ghost use Rattle.std.specs.declared.time.Duration.{Duration as Time};

    ghost Value = { Option Time };

    ghost view = { λ clock. clock.reading };
}

impl StillClock {
    /// A clock that always reads this.
    pub fn new(reading: Option<Duration>) -> StillClock
        ensures { result ≡ reading }
    {
        StillClock { reading }
    }
}

impl DayClock for StillClock {
    ghost use Rattle.up_net.specs.InMemory.{ReadsStill};

    ghost reads = { ReadsStill };

    fn since_1970(&mut self) -> Option<Duration> {
        self.reading
    }
}

/// A source in memory that gives one byte over and over, or always fails.
#[derive(Drop)]
pub struct SameBytes {
    byte: Option<u8>,
}

impl Model for SameBytes {
    ghost use Rattle.std.specs.Prelude.{ℕ, Option};

    ghost Value = { Option ℕ };

    ghost view = { λ source. source.byte };
}

impl SameBytes {
    /// A source of this byte; of none, and it always fails.
    pub fn new(byte: Option<u8>) -> SameBytes
        ensures { result ≡ byte }
    {
        SameBytes { byte }
    }
}

impl RandomBytes for SameBytes {
    ghost use Rattle.up_net.specs.InMemory.{GivesSame};

    ghost gives = { GivesSame };

    fn fill(&mut self, bytes: &mut [u8]) -> io::Result<()> {
        match self.byte {
            Some(byte) => {
                bytes.fill(byte);
                Ok(())
            }
            None => Err(io::Error::from(io::ErrorKind::Other)),
        }
    }
}
