//! Stored storms. Each line of standard input has the words of one, behind the number of a call of its sink that fails, from 0, or `-`.
//! Prints what each storm prints where its sink does not fail, and then its status.
//!
//! This program promises nothing: what a storm prints is the matter of `up_storm`. What is stored was made by `bench/storm`. Its tests
//! show what no clause can say: that the sessions of a storm run at once.
#![tactic(auto)]

#[cfg(test)]
mod tests;

use std::alloc::{AllocError, Global};
use std::hash::RandomState;
use std::io;
use std::sync::Wait;
use std::thread::Threads;
use up_ends::{MemSink, OpenGate, StdSink};
use up_lists::Items;
use up_storm::storm_run;

fn main(rt: HostRuntime) -> io::Result<()> {
    let random = RandomState::new(&rt)?;
    for line in rt.lines(rt.alloc()) {
        let status = run_line(&rt, rt, random, line?.as_str())?;
        println!(rt; "status {status}")?;
    }
    Ok(())
}

// Runs the storm of a line, and gives its status.
fn run_line<R: Threads + Wait + Sync>(
    threads: &R,
    rt: HostRuntime,
    random: RandomState,
    line: &str,
) -> Result<u8, AllocError> {
    let (fails, words) = line.split_once(' ').unwrap_or((line, ""));
    let words = words_of(rt.alloc(), words)?;
    Ok(match fails.parse::<u64>() {
        Ok(call) => run_failing(
            threads,
            rt.alloc(),
            random,
            &words,
            failing(rt.alloc(), call)?,
        ),
        Err(_) => run_printing(threads, rt, random, &words),
    })
}

// Runs a storm over standard output.
fn run_printing<R: Threads + Wait + Sync>(
    threads: &R,
    rt: HostRuntime,
    random: RandomState,
    words: &[String],
) -> u8 {
    let mut sink = StdSink::new(rt.stdout());
    storm_run(threads, rt.alloc(), random, words, &mut sink, &OpenGate)
}

// Runs a storm over a sink whose calls of these numbers fail.
fn run_failing<R: Threads + Wait + Sync>(
    threads: &R,
    alloc: Global,
    random: RandomState,
    words: &[String],
    calls: Items<u64>,
) -> u8 {
    let mut sink = MemSink::new(alloc, calls);
    storm_run(threads, alloc, random, words, &mut sink, &OpenGate)
}

fn failing(alloc: Global, call: u64) -> Result<Items<u64>, AllocError> {
    let mut calls = Items::new(alloc);
    calls.push(call)?;
    Ok(calls)
}

// The words of a text.
fn words_of(alloc: Global, text: &str) -> Result<Vec<String>, AllocError> {
    let mut words = Vec::new(alloc);
    for word in text.split(' ') {
        add_word(alloc, &mut words, word)?;
    }
    Ok(words)
}

fn add_word(alloc: Global, words: &mut Vec<String>, word: &str) -> Result<(), AllocError> {
    words.push(word.to_string(alloc)?)?;
    Ok(())
}
