//! The machine itself. What it does and reads is outside of every proof; here alone it is trusted to be what its traits say.
ghost use Rattle.std.specs.Prelude.{◌≡◌, ◌++◌, map, IfOk, OnOk, string_bytes};
ghost use Rattle.std.specs.Process.{command_args, command_program};

use crate::day_clock::DayClock;
use crate::programs::{Printed, Programs};
use crate::random_bytes::RandomBytes;
use std::alloc::{AllocError, Global};
use std::io;
use std::process::{Command, Processes, Stdio};
use std::random::RandomSource;
use std::time::{Clock, Duration};
use up_bytes::Bytes;

/// The machine that a runtime stands for: its programs, its clock and its random bytes. It tells nothing.
#[derive(Drop)]
pub struct Machine<R> {
    alloc: Global,
    rt: R,
}

impl<R> Machine<R> {
    /// The machine of this runtime.
    pub fn new(alloc: Global, rt: R) -> Self {
        Machine { alloc, rt }
    }
}

impl<R: Processes> Programs for Machine<R> {
    ghost use Rattle.up_net.specs.InMemory.{AnyRun};

    ghost runs = { AnyRun };

    fn status(&mut self, program: &str, words: &[String]) -> Option<i32> {
        let mut command = command_of(self.alloc, program, words).ok()?;
        command.stdin(Stdio::null()).stdout(Stdio::null());
        command.status(&self.rt).ok()?.code()
    }

    fn output(
        &mut self,
        alloc: Global,
        program: &str,
        words: &[String],
    ) -> Result<Printed, AllocError> {
        let mut command = command_of(alloc, program, words)?;
        command.stdin(Stdio::null()).stderr(Stdio::inherit());
        match command.output(&self.rt) {
            Ok(output) => Ok(Printed {
                status: output.status.code(),
                bytes: Bytes::from_vec(output.stdout),
            }),
            Err(error) if error.kind() == io::ErrorKind::OutOfMemory => Err(AllocError),
            Err(_) => Ok(Printed {
                status: None,
                bytes: Bytes::from_vec(Vec::new(alloc)),
            }),
        }
    }
}

impl<R: Clock> DayClock for Machine<R> {
    ghost use Rattle.up_net.specs.InMemory.{AnyReading};

    ghost reads = { AnyReading };

    fn since_1970(&mut self) -> Option<Duration> {
        self.rt.since_1970().ok()
    }
}

impl<R: RandomSource> RandomBytes for Machine<R> {
    ghost use Rattle.up_net.specs.InMemory.{AnyBytes};

    ghost gives = { AnyBytes };

    fn fill(&mut self, bytes: &mut [u8]) -> io::Result<()> {
        self.rt.fill_bytes(bytes)
    }
}

/// The command that runs a program with these words.
fn command_of(alloc: Global, program: &str, words: &[String]) -> Result<Command, AllocError>
    ensures program { IfOk result (λ command. command_program command ≡ program.now) }
    ensures words { IfOk result (λ command.
        command_args command ≡ map string_bytes words.now) }
{
    let mut command = Command::new(alloc, program)?;
    match give_words(&mut command, words) {
        Ok(()) => Ok(command),
        Err(fault) => {
            drop(command);
            Err(fault)
        }
    }
}

/// Gives a command these words, behind those that it has. For want of memory it may have a part of them.
fn give_words(command: &mut Command, words: &[String]) -> Result<(), AllocError>
    ensures program { OnOk result (command_program command.new ≡ command_program command.old) }
    ensures words { OnOk result (command_args command.new
        ≡ command_args command.old ++ map string_bytes words.now) }
{
    for word in words {
        command.arg(word.as_str())?;
    }
    Ok(())
}
