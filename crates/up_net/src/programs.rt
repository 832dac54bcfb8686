//! Programs that are run.
ghost use Rattle.std.specs.Prelude.{ℕ, ◌≡◌, List, Option, map, string_bytes, IfOk};
ghost use Rattle.up_net.specs.Questions.{silent_run};
ghost use Rattle.up_net.specs.declared.programs.ProgramRun.{ProgramRun as Run};

use std::alloc::{AllocError, Global};
use up_bytes::Bytes;
use up_lists::Items;

/// One run of a program.
#[derive(Debug, Drop)]
pub struct ProgramRun {
    /// The program's path or name.
    pub program: Bytes,
    /// The words behind it.
    pub words: Items<Bytes>,
    /// The status that came: none where the program could not be started, or where a signal ended it.
    pub status: Option<i32>,
    /// What it printed, where that is not dropped.
    pub printed: Bytes,
}

/// What a program that was run came to.
#[derive(Debug, Drop)]
pub struct Printed {
    /// The status that came, as that of a [`ProgramRun`].
    pub status: Option<i32>,
    /// What it printed.
    pub bytes: Bytes,
}

/// Who runs programs. Each call is one run, also where no status came. A program gets no input, and what it says on
/// standard error is shown.
pub trait Programs {
    /// Whether one run leads from one state to the other. Of programs on a machine nothing is told: any run may come.
    ghost runs: { Self → Run → Self → Type 0 };

    /// Runs a program with these words, drops what it prints, and waits for its end: the status that came. `None` also for
    /// want of memory.
    fn status(&mut self, program: &str, words: &[String]) -> Option<i32>
        ensures { runs self.old
            (silent_run program.now (map string_bytes words.now) result) self.new };

    /// Runs a program with these words, and waits for its end: the status that came, and what it printed. An `Err` is want of
    /// memory; it may have run.
    fn output(
        &mut self,
        alloc: Global,
        program: &str,
        words: &[String],
    ) -> Result<Printed, AllocError>
        ensures { IfOk result (λ came. runs self.old (record {
          program = program.now;
          words = map string_bytes words.now;
          status = came.status;
          printed = came.bytes;
        }) self.new) };
}
