//! What is done in a turn.
ghost use Rattle.std.specs.Prelude.{◌≡◌};
ghost use Rattle.up_ends.specs.Growing.{OnlyGrows};

use up_ends::Grows;

/// What is done to a state in one turn. Whatever it does, the state only grows.
pub trait Job<S: Grows> {
    /// Which states it may be run on.
    ghost can: { Self → S → Type 0 };

    /// What it did, of the job and the state before and after: its own promise.
    ghost did: { Self → S → Self → S → Type 0 };

    /// Runs on the state. All others wait until it returns, so it is to load nothing and to wait for nobody.
    fn run(&mut self, state: &mut S)
        requires { can self.old state.old }
        ensures grows { OnlyGrows S.entries S.faults S.fixed state.old state.new }
        ensures did { did self.old state.old self.new state.new };
}
