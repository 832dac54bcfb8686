//! Streams of frames, cut in every way. A line stands alone.
ghost use Rattle.std.specs.Prelude.{◌≡◌};

use std::alloc::{AllocError, Global};
use up_case_lines::{Answer, Fault, Topic, Words, bytes_of_digits, number_of};
use up_frame::{FrameFault, Frames};

/// Lines about streams. They keep nothing.
#[derive(Clone, Copy)]
pub struct Streams;

impl Topic for Streams {
    fn turn(&mut self, alloc: Global, line: &str, answer: &mut Answer) -> Result<(), Fault> {
        let mut words = Words::new(line);
        match words.word()? {
            "frames" => frames_line(alloc, words, answer),
            "cuts" => cuts_line(alloc, words, answer),
            _ => Err(Fault::BadLine),
        }
    }
}

/// A stream, and how many bytes of it came so far.
#[derive(Drop)]
struct Stream {
    frames: Frames,
    fed: u64,
    ghost same: { frames.fed ≡ fed },
}

impl Stream {
    fn new(alloc: Global, limit: u64) -> Stream {
        Stream {
            frames: Frames::new(alloc, limit),
            fed: 0,
        }
    }

    // Feeds a piece. There is no memory for more than 2^64 bytes.
    fn feed(&mut self, piece: &[u8]) -> Result<(), FrameFault> {
        let Some(fed) = self.fed.checked_add(piece.len() as u64) else {
            return Err(FrameFault::OutOfMemory);
        };
        match self.frames.feed(piece) {
            Ok(()) => {
                self.fed = fed;
                Ok(())
            }
            Err(FrameFault::BadFrame(place)) => {
                self.fed = fed;
                Err(FrameFault::BadFrame(place))
            }
            Err(FrameFault::OutOfMemory) => Err(FrameFault::OutOfMemory),
        }
    }
}

// `frames LIMIT STEPS`: what comes of a stream whose frames have at most so many bytes, step by step: `feed:HEX`, `next` for
// the next frame, and `rest` for how many bytes are held beyond whole frames.
fn frames_line(alloc: Global, mut words: Words<'_>, answer: &mut Answer) -> Result<(), Fault> {
    let limit = words.number()?;
    let steps = words.some()?;
    let mut stream = Stream::new(alloc, limit);
    for step in steps.split(' ') {
        answer.part();
        take_step(alloc, &mut stream, step, answer)?;
    }
    Ok(())
}

fn take_step(
    alloc: Global,
    stream: &mut Stream,
    step: &str,
    answer: &mut Answer,
) -> Result<(), Fault> {
    match step {
        "next" => add_next(stream, answer),
        "rest" => answer.number(stream.frames.rest()),
        _ => {
            let digits = step.strip_prefix("feed:").ok_or(Fault::BadLine)?;
            let piece = bytes_of_digits(alloc, digits)?;
            add_fed(stream.feed(piece.as_slice()), answer);
        }
    }
    Ok(())
}

fn add_fed(outcome: Result<(), FrameFault>, answer: &mut Answer) {
    match outcome {
        Ok(()) => answer.word("ok"),
        Err(fault) => add_fault(fault, answer),
    }
}

fn add_fault(fault: FrameFault, answer: &mut Answer) {
    match fault {
        FrameFault::BadFrame(place) => {
            answer.word("bad");
            answer.number(place);
        }
        FrameFault::OutOfMemory => answer.word("out of memory"),
    }
}

fn add_next(stream: &mut Stream, answer: &mut Answer) {
    match stream.frames.next() {
        Some(frame) => answer.digits(frame.as_slice()),
        None => answer.word("none"),
    }
}

// `cuts LIMIT HEX`: the frames of a stream, and how many bytes are held beyond them, however it comes: in two pieces, cut at
// each place, and byte by byte. A word `differ` follows for each way that gives something else.
fn cuts_line(alloc: Global, mut words: Words<'_>, answer: &mut Answer) -> Result<(), Fault> {
    let limit = words.number()?;
    let bytes = bytes_of_digits(alloc, words.one()?)?;
    let bytes = bytes.as_slice();
    let whole = of_two(alloc, limit, bytes, bytes.len())?;
    answer.word(whole.as_str());
    for at in 0..bytes.len() {
        compare(&whole, &of_two(alloc, limit, bytes, at)?, answer);
    }
    compare(&whole, &of_bytes(alloc, limit, bytes)?, answer);
    Ok(())
}

fn compare(one: &String, other: &String, answer: &mut Answer) {
    if one.as_str() != other.as_str() {
        answer.word("differ");
    }
}

// What comes of two pieces, cut at a place.
fn of_two(alloc: Global, limit: u64, bytes: &[u8], at: usize) -> Result<String, AllocError> {
    let (front, back) = bytes.split_at(at.min(bytes.len()));
    let mut stream = Stream::new(alloc, limit);
    let mut answer = Answer::new(alloc);
    note(stream.feed(front), &mut answer);
    note(stream.feed(back), &mut answer);
    add_frames(&mut stream, bytes.len(), &mut answer);
    answer.finish()
}

// What comes of one byte at a time.
fn of_bytes(alloc: Global, limit: u64, bytes: &[u8]) -> Result<String, AllocError> {
    let mut stream = Stream::new(alloc, limit);
    let mut answer = Answer::new(alloc);
    for piece in bytes.chunks(1) {
        note(stream.feed(piece), &mut answer);
    }
    add_frames(&mut stream, bytes.len(), &mut answer);
    answer.finish()
}

// A piece that is not taken.
fn note(outcome: Result<(), FrameFault>, answer: &mut Answer) {
    if let Err(fault) = outcome {
        add_fault(fault, answer);
    }
}

// The frames that wait, of which there are no more than this, and how many bytes are held beyond them.
fn add_frames(stream: &mut Stream, most: usize, answer: &mut Answer) {
    for _ in 0..most {
        if let Some(frame) = stream.frames.next() {
            answer.digits(frame.as_slice());
        }
    }
    answer.word("rest");
    answer.number(stream.frames.rest());
}
