//! The lines of a file, each compared with its answer.
use crate::answer::Answer;
use crate::fault::Fault;
use crate::tally::Tally;
use crate::topic::Topic;
use std::alloc::{AllocError, Global};
use std::io;

/// A file of cases.
#[derive(Clone, Copy)]
pub struct File<'a> {
    pub name: &'a str,
    pub text: &'a str,
}

/// A line that says something, where it stands, and what it is to answer: nothing where this is empty.
#[derive(Clone, Copy)]
pub struct Case<'a> {
    pub file: &'a str,
    pub number: u64,
    pub question: &'a str,
    pub wanted: &'a str,
}

/// The case that a line is, or `None` where it says nothing.
pub fn case_of<'a>(file: &'a str, number: u64, line: &'a str) -> Option<Case<'a>> {
    if line.is_empty() || line.starts_with('#') {
        return None;
    }
    let (question, wanted) = line.split_once(" -> ").unwrap_or((line, ""));
    Some(Case {
        file,
        number,
        question,
        wanted,
    })
}

/// Runs all lines of a file about this topic.
pub fn run_lines<R: AllocGlobal + Print, T: Topic + Drop>(
    rt: &R,
    file: File<'_>,
    mut topic: T,
    tally: &mut Tally,
) -> io::Result<()> {
    let mut number: u64 = 0;
    for line in file.text.split('\n') {
        number = number.saturating_add(1);
        if let Some(case) = case_of(file.name, number, line) {
            run_case(rt, case, &mut topic, tally)?;
        }
    }
    Ok(())
}

// Runs a line, and compares what it answers with what it is to answer.
fn run_case<R: AllocGlobal + Print, T: Topic>(
    rt: &R,
    case: Case<'_>,
    topic: &mut T,
    tally: &mut Tally,
) -> io::Result<()> {
    let got = answer_to(rt.alloc(), topic, case.question)?;
    compare(rt, case, got.as_str(), tally)
}

// What a line answers.
fn answer_to<T: Topic>(alloc: Global, topic: &mut T, question: &str) -> Result<String, AllocError> {
    let mut answer = Answer::new(alloc);
    match topic.turn(alloc, question, &mut answer) {
        Ok(()) => answer.finish(),
        Err(Fault::BadLine) => "bad line".to_string(alloc),
        Err(Fault::OutOfMemory) => Err(AllocError),
    }
}

/// Compares what a line answers with what it is to answer.
pub fn compare(rt: &impl Print, case: Case<'_>, got: &str, tally: &mut Tally) -> io::Result<()> {
    if got != case.wanted {
        tally.fail();
        return print_difference(rt, case, got);
    }
    if !got.is_empty() {
        tally.pass();
    }
    Ok(())
}

// Says how a line differs from its answer.
fn print_difference(rt: &impl Print, case: Case<'_>, got: &str) -> io::Result<()> {
    let Case {
        file,
        number,
        question,
        wanted,
    } = case;
    println!(rt; "{file}:{number}: {question}\n  wanted: {wanted}\n  got:    {got}")
}
