//! Whole scripts. A script is written line by line, and a line that prints has what it prints behind it; of one that prints several
//! lines the further ones stand below. `end` runs what stands above it, and answers the status.
use crate::script_cases::ran::{Ran, run};
use crate::script_cases::script::{Command, Script};
use std::alloc::AllocError;
use std::hash::RandomState;
use std::io;
use up_case_lines::{Answer, Case, Fault, File, Tally, case_of, compare};
use up_refs::Reference;

/// How many bytes are shown as they are. Of more their number and their digest are shown.
const SHOWN: usize = 1000;

/// Runs all scripts of a file, which are of this command. Names are hashed with these keys.
pub fn run_scripts<R: AllocGlobal + Print>(
    rt: &R,
    file: File<'_>,
    command: Command,
    random: RandomState,
    tally: &mut Tally,
) -> io::Result<()> {
    let mut script = Script::new(rt.alloc(), command, random);
    let mut number: u64 = 0;
    for line in file.text.split('\n') {
        number = number.saturating_add(1);
        if let Some(case) = case_of(file.name, number, line) {
            script_line(rt, case, &mut script, tally)?;
        }
    }
    Ok(())
}

// Adds a line to the script, or runs it.
fn script_line<'a, R: AllocGlobal + Print>(
    rt: &R,
    case: Case<'a>,
    script: &mut Script<'a>,
    tally: &mut Tally,
) -> io::Result<()> {
    if case.question == "end" {
        end_script(rt, case, script, tally)?;
        *script = Script::new(rt.alloc(), script.command, script.random);
        return Ok(());
    }
    let added = script.add(rt.alloc(), case);
    note(rt, case, added, tally)
}

// Says that a line does not fit where it does not.
fn note(
    rt: &impl Print,
    case: Case<'_>,
    done: Result<(), Fault>,
    tally: &mut Tally,
) -> io::Result<()> {
    match done {
        Ok(()) => Ok(()),
        Err(Fault::BadLine) => compare(rt, case, "bad line", tally),
        Err(Fault::OutOfMemory) => Err(AllocError)?,
    }
}

// Runs a script, and compares what it prints with what its lines are to print.
fn end_script<R: AllocGlobal + Print>(
    rt: &R,
    case: Case<'_>,
    script: &mut Script<'_>,
    tally: &mut Tally,
) -> io::Result<()> {
    match run(rt.alloc(), script) {
        Ok(ran) => compare_all(rt, case, script, &ran, tally),
        Err(fault) => note(rt, case, Err(fault), tally),
    }
}

fn compare_all<R: AllocGlobal + Print>(
    rt: &R,
    case: Case<'_>,
    script: &Script<'_>,
    ran: &Ran,
    tally: &mut Tally,
) -> io::Result<()> {
    let rest = compare_lines(rt, &script.asked, ran.text.as_str(), tally)?;
    let mut answer = Answer::new(rt.alloc());
    add_end(ran, rest.as_bytes(), &mut answer);
    compare(rt, case, answer.finish()?.as_str(), tally)
}

// Compares what a script prints with what its lines are to print. What is left of the text then is returned.
fn compare_lines<'a>(
    rt: &impl Print,
    asked: &[Case<'_>],
    text: &'a str,
    tally: &mut Tally,
) -> io::Result<&'a str> {
    let mut rest = text;
    for case in asked {
        let (line, after) = rest.split_once('\n').unwrap_or((rest, ""));
        compare(rt, *case, line, tally)?;
        rest = after;
    }
    Ok(rest)
}

// Adds how a script ended: its status, which counts of faults are not 0, and what it printed besides.
fn add_end(ran: &Ran, rest: &[u8], answer: &mut Answer) {
    answer.word("status");
    answer.number(u64::from(ran.status));
    add_count("helper", ran.around.helper_faults, answer);
    add_count("peers", ran.around.peer_faults, answer);
    add_count("disks gone", ran.around.disks_gone, answer);
    if rest.len() > SHOWN {
        answer.word("and prints bytes");
        answer.number(rest.len() as u64);
        answer.digits(Reference::of(rest).bytes());
    } else if !rest.is_empty() {
        answer.word("and prints");
        answer.coded(rest);
    }
}

fn add_count(word: &str, count: u64, answer: &mut Answer) {
    if count != 0 {
        answer.word(word);
        answer.number(count);
    }
}
