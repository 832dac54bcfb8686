//! What a topic is. A crate joins the others by a module that has one, its name in `files.rt`, and files of lines in `data/`.
use crate::answer::Answer;
use crate::fault::Fault;
use std::alloc::Global;

/// What the lines of a file are about, with all that they have named so far.
pub trait Topic {
    /// Does what a line says. What it answers is added to `answer`, which is empty; a line that asks nothing adds nothing.
    fn turn(&mut self, alloc: Global, line: &str, answer: &mut Answer) -> Result<(), Fault>;
}
