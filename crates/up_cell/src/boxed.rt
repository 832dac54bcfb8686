//! The state in a box of its own, so that a turn moves a pointer and not the state. Contracts see the state.
ghost use Rattle.std.specs.Prelude.{◌≡◌, IfOk, length};
ghost use Rattle.up_ends.specs.Growing.{OnlyGrows};

use crate::job::Job;
use std::alloc::{AllocError, Global};
use std::marker::Model;
use up_ends::Grows;

/// A state in a box.
#[derive(Drop)]
pub(crate) struct Boxed<S> {
    inner: Box<S>,
}

impl<S> Model for Boxed<S> {
    ghost Value = { S };

    ghost coded = { S.code };

    ghost view = { λ boxed. boxed.inner.value };
}

impl<S: Drop> Boxed<S> {
    /// A state in a box. An `Err` is want of memory; the state is then dropped.
    pub(crate) fn new(alloc: Global, state: S) -> Result<Boxed<S>, AllocError>
        ensures { IfOk result (λ boxed. boxed ≡ state) }
    {
        Ok(Boxed {
            inner: Box::new(alloc, state)?,
        })
    }
}

impl<S: Grows> Boxed<S> {
    /// The number of the state's entries.
    pub(crate) fn length(&self) -> u64
        ensures { result ≡ length (S.entries self.now) }
    {
        self.inner.length()
    }
}

/// Runs a job on the state.
pub(crate) fn run<S: Grows, J: Job<S>>(job: &mut J, state: &mut Boxed<S>)
    requires { J.can job.old state.old }
    ensures grows { OnlyGrows S.entries S.faults S.fixed state.old state.new }
    ensures did { J.did job.old state.old job.new state.new }
{
    job.run(&mut *state.inner);
}
