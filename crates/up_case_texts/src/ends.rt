//! Sources and sinks, in memory and over the readers and writers of std: read to their ends and written whole; and a clock,
//! nonces and a verifier in memory. A line stands alone.
use crate::lists::{Part, list_of};
use std::alloc::{AllocError, Global};
use up_bytes::Bytes;
use up_case_lines::{Answer, Fault, Topic, Words, byte_of, bytes_of, number_of};
use up_ends::{
    Clock, END_OF_MOMENTS, Failed, FixedClock, FixedVerifier, ListNonces, MemSink, MemSource,
    Nonces, ReadFault, Sink, Source, StdSink, StdSource, Verdict, Verifier, read_all, write_all,
};
use up_lists::Items;

/// Lines about ends. They keep nothing.
#[derive(Clone, Copy)]
pub struct Ends;

impl Topic for Ends {
    fn turn(&mut self, alloc: Global, line: &str, answer: &mut Answer) -> Result<(), Fault> {
        let mut words = Words::new(line);
        match words.word()? {
            "reads" => reads_line(alloc, words, answer),
            "writes" => writes_line(alloc, words, answer, false),
            "all" => all_line(alloc, words, answer),
            "whole" => writes_line(alloc, words, answer, true),
            "copy" => copy_line(alloc, words, answer),
            "clock" => clock_line(words, answer),
            "nonces" => nonces_line(alloc, words, answer),
            "verdicts" => verdicts_line(alloc, words, answer),
            _ => Err(Fault::BadLine),
        }
    }
}

// `TEXT PIECES FAILS`: a source in memory of this text, that gives it in these pieces, and fails in these calls, from 0.
fn source_of(alloc: Global, mut words: Words<'_>) -> Result<MemSource, Fault> {
    let (text, pieces, fails) = words.three()?;
    let text = bytes_of(alloc, text)?;
    told_source(alloc, text, pieces, fails)
}

fn told_source(alloc: Global, text: Bytes, pieces: &str, fails: &str) -> Result<MemSource, Fault> {
    let pieces = list_of(alloc, pieces)?;
    let fails = list_of(alloc, fails)?;
    Ok(MemSource::new(text.into_vec(), pieces, fails))
}

// `reads SIZES TEXT PIECES FAILS`: what reads into buffers of these sizes give of a source in memory.
fn reads_line(alloc: Global, mut words: Words<'_>, answer: &mut Answer) -> Result<(), Fault> {
    let sizes: Items<u64> = list_of(alloc, words.word()?)?;
    let mut source = source_of(alloc, words)?;
    for size in sizes.as_slice() {
        add_read(alloc, &mut source, *size, answer)?;
    }
    Ok(())
}

fn add_read(
    alloc: Global,
    source: &mut MemSource,
    size: u64,
    answer: &mut Answer,
) -> Result<(), AllocError> {
    let mut buffer = vec![in alloc; 0u8; size as usize]?;
    match source.read(buffer.as_mut_slice()) {
        Ok(count) => answer.coded(&buffer[..count]),
        Err(Failed) => answer.word("fault"),
    }
    Ok(())
}

// `all LIMIT TEXT PIECES FAILS`: what is read of a source in memory to its end, of so many bytes at most.
fn all_line(alloc: Global, mut words: Words<'_>, answer: &mut Answer) -> Result<(), Fault> {
    let limit = words.number()?;
    let mut source = source_of(alloc, words)?;
    match read_all(alloc, &mut source, limit) {
        Ok(text) => {
            answer.coded(&text);
            Ok(())
        }
        Err(fault) => add_fault(fault, answer),
    }
}

fn add_fault(fault: ReadFault, answer: &mut Answer) -> Result<(), Fault> {
    match fault {
        ReadFault::TooLong => answer.word("too long"),
        ReadFault::Failed => answer.word("fault"),
        ReadFault::OutOfMemory => return Err(Fault::OutOfMemory),
    }
    Ok(())
}

// `writes FAILS PIECES`: what a sink in memory, of which these calls fail, answers to each piece, and last what it holds.
// `whole FAILS PIECES`: the same where each piece is written whole.
fn writes_line(
    alloc: Global,
    mut words: Words<'_>,
    answer: &mut Answer,
    is_whole: bool,
) -> Result<(), Fault> {
    let mut sink = MemSink::new(alloc, list_of(alloc, words.word()?)?);
    for piece in words.some()?.split(' ') {
        let piece = bytes_of(alloc, piece)?;
        add_write(&mut sink, piece.as_slice(), is_whole, answer);
    }
    answer.push(":");
    answer.coded(sink.bytes());
    Ok(())
}

fn add_write(sink: &mut MemSink, piece: &[u8], is_whole: bool, answer: &mut Answer) {
    let written = if is_whole {
        write_whole(sink, piece)
    } else {
        sink.write(piece)
    };
    match written {
        Ok(count) => answer.number(count as u64),
        Err(Failed) => answer.word("fault"),
    }
}

// Writes the whole piece, and says how long it is.
fn write_whole(sink: &mut MemSink, piece: &[u8]) -> Result<usize, Failed> {
    write_all(sink, piece)?;
    Ok(piece.len())
}

// `copy TEXT TEXT`: two texts, each read to its end from a reader of std and written whole to one writer: what that holds.
fn copy_line(alloc: Global, mut words: Words<'_>, answer: &mut Answer) -> Result<(), Fault> {
    let (first, second) = words.two()?;
    let mut copy = Vec::new(alloc);
    copy_text(alloc, bytes_of(alloc, first)?.as_slice(), &mut copy)?;
    copy_text(alloc, bytes_of(alloc, second)?.as_slice(), &mut copy)?;
    answer.coded(&copy);
    Ok(())
}

fn copy_text(alloc: Global, text: &[u8], copy: &mut Vec<u8>) -> Result<(), Fault> {
    let mut source = StdSource::new(text);
    match read_all(alloc, &mut source, 1_000) {
        Ok(read) => write_copy(&read, copy),
        Err(_) => Err(Fault::BadLine),
    }
}

fn write_copy(text: &[u8], copy: &mut Vec<u8>) -> Result<(), Fault> {
    let mut sink = StdSink::new(copy);
    match write_all(&mut sink, text) {
        Ok(()) => Ok(()),
        Err(Failed) => Err(Fault::BadLine),
    }
}

// `clock MOMENT N`: what a clock in memory answers N times.
fn clock_line(mut words: Words<'_>, answer: &mut Answer) -> Result<(), Fault> {
    let (now, count) = words.two_numbers()?;
    if now >= END_OF_MOMENTS {
        return Err(Fault::BadLine);
    }
    let mut clock = FixedClock::new(now);
    for _ in 0..count {
        answer.number(clock.now());
    }
    Ok(())
}

// `nonces LIST N`: the first and the last byte of each of N nonces, of which the first ones are told: each is 32 times a byte.
fn nonces_line(alloc: Global, mut words: Words<'_>, answer: &mut Answer) -> Result<(), Fault> {
    let first = list_of(alloc, words.word()?)?;
    let count = words.last_number()?;
    let mut nonces = ListNonces::new(first);
    for _ in 0..count {
        let nonce = nonces.next();
        answer.digits(&nonce[..1]);
        answer.digits(&nonce[31..]);
    }
    Ok(())
}

// A nonce is told by its byte.
impl Part for [u8; 32] {
    fn of_part(_alloc: Global, part: &str) -> Result<[u8; 32], Fault> {
        Ok([byte_of(part)?; 32])
    }
}

// `verdicts LIST AFTER N`: what a verifier in memory answers to N questions, and last how many it has judged, and its word for
// the last of these.
fn verdicts_line(alloc: Global, mut words: Words<'_>, answer: &mut Answer) -> Result<(), Fault> {
    let (first, after, count) = words.three()?;
    let count = number_of(count)?;
    let after = verdict_of(after)?;
    let first = list_of(alloc, first)?;
    let mut verifier = FixedVerifier::new(alloc, first, after);
    for n in 0..count {
        add_verdict(
            verifier.verdict(b"key", b"message", &n.to_be_bytes()),
            answer,
        );
    }
    add_judged(&verifier, answer);
    Ok(())
}

impl Part for Option<Verdict> {
    fn of_part(_alloc: Global, part: &str) -> Result<Option<Verdict>, Fault> {
        verdict_of(part)
    }
}

/// A verdict, or `None` for a verifier that fails.
pub fn verdict_of(word: &str) -> Result<Option<Verdict>, Fault> {
    match word {
        "yes" => Ok(Some(Verdict::Yes)),
        "no" => Ok(Some(Verdict::No)),
        "fault" => Ok(None),
        _ => Err(Fault::BadLine),
    }
}

fn add_verdict(verdict: Result<Verdict, Failed>, answer: &mut Answer) {
    match verdict {
        Ok(verdict) => answer.yes(verdict == Verdict::Yes),
        Err(Failed) => answer.word("fault"),
    }
}

fn add_judged(verifier: &FixedVerifier, answer: &mut Answer) {
    let judged = verifier.judged();
    answer.word("judged");
    answer.number(judged.len() as u64);
    if let Some(last) = judged.last() {
        answer.coded(last.key.as_slice());
        answer.coded(last.message.as_slice());
        answer.digits(last.signature.as_slice());
        answer.yes(last.verdict == Verdict::Yes);
    }
}
