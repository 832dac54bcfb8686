//! Connections to a host: bytes in, bytes out. All is asked at the moment 86400, and each challenge is of zeros.
use std::alloc::{AllocError, Global};
use up_alone::talk_alone;
use up_case_lines::{Answer, Fault, Words, bytes_of_digits, number_of};
use up_disk::MemDisk;
use up_ends::{FixedClock, FixedVerifier, ListNonces, MemSink, MemSource, Sink, Source, Verdict};
use up_host::Host;
use up_lists::Items;
use up_peer::Peers;
use up_talk::TalkEnd;

/// How a connection is held: each verdict, at most how many bytes a read gives (0 for all), and which read and write fail.
#[derive(Clone, Copy)]
struct Plan {
    verdict: Option<Verdict>,
    piece: u64,
    read: Option<u64>,
    write: Option<u64>,
}

/// How a connection ended, and what was written.
#[derive(Drop)]
struct Spoken {
    end: TalkEnd,
    written: Vec<u8>,
}

/// `talk NAME VERDICT PIECE READ WRITE BYTES`: how the connection ends on which these bytes come, and what is written. A read gives
/// PIECE bytes at most, all for 0; the read and the write of these numbers fail, none for `-`.
pub fn talk_line(
    alloc: Global,
    host: &mut Host<MemDisk>,
    mut words: Words<'_>,
    answer: &mut Answer,
) -> Result<(), Fault> {
    let plan = plan_of(&mut words)?;
    let bytes = bytes_of_digits(alloc, words.one()?)?;
    let spoken = speak(alloc, host, plan, bytes.as_slice());
    drop(bytes);
    add_spoken(&spoken?, answer);
    Ok(())
}

fn plan_of(words: &mut Words<'_>) -> Result<Plan, Fault> {
    let verdict = verdict_of(words.word()?)?;
    let piece = words.number()?;
    let read = place_of(words.word()?)?;
    let write = place_of(words.word()?)?;
    Ok(Plan {
        verdict,
        piece,
        read,
        write,
    })
}

fn verdict_of(word: &str) -> Result<Option<Verdict>, Fault> {
    match word {
        "yes" => Ok(Some(Verdict::Yes)),
        "no" => Ok(Some(Verdict::No)),
        "fault" => Ok(None),
        _ => Err(Fault::BadLine),
    }
}

fn place_of(word: &str) -> Result<Option<u64>, Fault> {
    match word {
        "-" => Ok(None),
        _ => Ok(Some(number_of(word)?)),
    }
}

/// `prefixes NAME BYTES`: the same of each front of these bytes, whose user is judged Yes: how it ends, and how many bytes are
/// written. Fronts of which both are alike stand together; where it is cut behind all of its bytes, no number is said.
pub fn prefixes_line(
    alloc: Global,
    host: &mut Host<MemDisk>,
    mut words: Words<'_>,
    answer: &mut Answer,
) -> Result<(), Fault> {
    let bytes = bytes_of_digits(alloc, words.one()?)?;
    let added = add_prefixes(alloc, host, bytes.as_slice(), answer);
    drop(bytes);
    added
}

fn add_prefixes(
    alloc: Global,
    host: &mut Host<MemDisk>,
    bytes: &[u8],
    answer: &mut Answer,
) -> Result<(), Fault> {
    let mut runs = Runs::new();
    for len in 0..=bytes.len() {
        let spoken = speak(alloc, host, yes_to_all(0), &bytes[..len])?;
        runs.add(sum_of(&spoken, len as u64), answer);
        drop(spoken);
    }
    runs.end(answer);
    Ok(())
}

/// `failing NAME PIECE BYTES`: the same where each read fails in turn, then each write, and then the verdict.
pub fn failing_line(
    alloc: Global,
    host: &mut Host<MemDisk>,
    mut words: Words<'_>,
    answer: &mut Answer,
) -> Result<(), Fault> {
    let piece = words.number()?;
    let bytes = bytes_of_digits(alloc, words.one()?)?;
    let added = add_failing(alloc, host, piece, bytes.as_slice(), answer);
    drop(bytes);
    added
}

fn add_failing(
    alloc: Global,
    host: &mut Host<MemDisk>,
    piece: u64,
    bytes: &[u8],
    answer: &mut Answer,
) -> Result<(), Fault> {
    let plan = yes_to_all(piece);
    let mut runs = Runs::new();
    for n in 0..=bytes.len() as u64 {
        let spoken = speak(
            alloc,
            host,
            Plan {
                read: Some(n),
                ..plan
            },
            bytes,
        )?;
        runs.add(sum_of(&spoken, 0), answer);
        drop(spoken);
    }
    for n in 0..4 {
        let spoken = speak(
            alloc,
            host,
            Plan {
                write: Some(n),
                ..plan
            },
            bytes,
        )?;
        runs.add(sum_of(&spoken, 0), answer);
        drop(spoken);
    }
    let spoken = speak(
        alloc,
        host,
        Plan {
            verdict: None,
            ..plan
        },
        bytes,
    )?;
    runs.add(sum_of(&spoken, 0), answer);
    drop(spoken);
    runs.end(answer);
    Ok(())
}

/// `many NAME COUNT FROM MOST BYTES FRAME`: how a connection ends, and how many bytes are written, on which these bytes come and then so
/// many times that frame, in pieces of FROM bytes, or in one for 0; and then in pieces of each greater size up to MOST, where a word
/// `differ` follows for each that ends otherwise or writes something else.
pub fn many_line(
    alloc: Global,
    host: &mut Host<MemDisk>,
    mut words: Words<'_>,
    answer: &mut Answer,
) -> Result<(), Fault> {
    let count = words.number()?;
    let from = words.number()?;
    let most = words.number()?;
    let (first, frame) = words.two()?;
    let bytes = many(alloc, count, first, frame)?;
    let added = add_many(alloc, host, from, most, bytes.as_slice(), answer);
    drop(bytes);
    added
}

fn many(alloc: Global, count: u64, first: &str, frame: &str) -> Result<Vec<u8>, Fault> {
    let frame = bytes_of_digits(alloc, frame)?;
    let mut bytes = bytes_of_digits(alloc, first)?.into_vec();
    for _ in 0..count {
        bytes.extend_from_slice(frame.as_slice())?;
    }
    Ok(bytes)
}

fn add_many(
    alloc: Global,
    host: &mut Host<MemDisk>,
    from: u64,
    most: u64,
    bytes: &[u8],
    answer: &mut Answer,
) -> Result<(), Fault> {
    let first = speak(alloc, host, yes_to_all(from), bytes)?;
    add_sum(sum_of(&first, 0), answer);
    let compared = compare(
        alloc,
        host,
        from.saturating_add(1),
        most,
        bytes,
        &first,
        answer,
    );
    drop(first);
    compared
}

// The same in pieces of each of these sizes, beside what came of the first.
fn compare(
    alloc: Global,
    host: &mut Host<MemDisk>,
    from: u64,
    most: u64,
    bytes: &[u8],
    first: &Spoken,
    answer: &mut Answer,
) -> Result<(), Fault> {
    for piece in from..=most {
        let spoken = speak(alloc, host, yes_to_all(piece), bytes)?;
        if spoken.end != first.end || spoken.written.as_slice() != first.written.as_slice() {
            answer.word("differ");
        }
        drop(spoken);
    }
    Ok(())
}

// ---- one connection

fn yes_to_all(piece: u64) -> Plan {
    Plan {
        verdict: Some(Verdict::Yes),
        piece,
        read: None,
        write: None,
    }
}

// A connection on which these bytes come.
fn speak(
    alloc: Global,
    host: &mut Host<MemDisk>,
    plan: Plan,
    bytes: &[u8],
) -> Result<Spoken, AllocError> {
    let mut source = source_of(alloc, plan, bytes)?;
    let mut sink = MemSink::new(alloc, listed(alloc, plan.write)?);
    let end = talk(alloc, host, plan.verdict, &mut source, &mut sink);
    drop(source);
    let written = sink.bytes().to_vec(alloc);
    drop(sink);
    Ok(Spoken {
        end,
        written: written?,
    })
}

fn source_of(alloc: Global, plan: Plan, bytes: &[u8]) -> Result<MemSource, AllocError> {
    let pieces = pieces_of(alloc, plan.piece, bytes.len())?;
    let fails = listed(alloc, plan.read)?;
    Ok(MemSource::new(bytes.to_vec(alloc)?, pieces, fails))
}

// As many pieces of a size as so many bytes have, or none where reads give all.
fn pieces_of(alloc: Global, size: u64, count: usize) -> Result<Items<u64>, AllocError> {
    let mut pieces = Vec::new(alloc);
    if size > 0 {
        for _ in 0..=count as u64 / size {
            pieces.push(size)?;
        }
    }
    Ok(Items::from_vec(pieces))
}

fn listed(alloc: Global, place: Option<u64>) -> Result<Items<u64>, AllocError> {
    let mut places = Vec::new(alloc);
    if let Some(place) = place {
        places.push(place)?;
    }
    Ok(Items::from_vec(places))
}

/// A connection whose user is judged Yes, over any source and sink, of which nothing else is known.
pub fn yes_connection<S: Source, K: Sink>(
    alloc: Global,
    host: &mut Host<MemDisk>,
    source: &mut S,
    sink: &mut K,
) -> TalkEnd {
    talk(alloc, host, Some(Verdict::Yes), source, sink)
}

// The connection, of which nothing else is known.
fn talk<S: Source, K: Sink>(
    alloc: Global,
    host: &mut Host<MemDisk>,
    verdict: Option<Verdict>,
    source: &mut S,
    sink: &mut K,
) -> TalkEnd {
    let mut peers = Peers::new(alloc);
    let mut verifier = FixedVerifier::new(alloc, Items::new(alloc), verdict);
    let mut clock = FixedClock::new(86_400);
    let mut nonces = ListNonces::new(Items::new(alloc));
    talk_alone(
        alloc,
        host,
        &mut peers,
        source,
        sink,
        &mut verifier,
        &mut clock,
        &mut nonces,
    )
}

// ---- what is said of it

/// How it ended, and how many bytes were written.
#[derive(Clone, Copy, PartialEq, Eq)]
struct Sum {
    end: TalkEnd,
    written: u64,
}

// Where it was cut behind so many bytes, the number is left out.
fn sum_of(spoken: &Spoken, len: u64) -> Sum {
    let end = match spoken.end {
        TalkEnd::Cut(read) if read == len => TalkEnd::Cut(0),
        end => end,
    };
    Sum {
        end,
        written: spoken.written.len() as u64,
    }
}

fn add_spoken(spoken: &Spoken, answer: &mut Answer) {
    add_end(spoken.end, answer);
    answer.digits(spoken.written.as_slice());
}

fn add_sum(sum: Sum, answer: &mut Answer) {
    add_end(sum.end, answer);
    answer.number(sum.written);
}

/// Adds how it ended.
pub fn add_end(end: TalkEnd, answer: &mut Answer) {
    match end {
        TalkEnd::Ended => answer.word("ended"),
        TalkEnd::Cut(read) => add_placed("cut", read, answer),
        TalkEnd::BadFrame(place) => add_placed("bad", place, answer),
        TalkEnd::NotSigned => answer.word("notsigned"),
        TalkEnd::HelperFault => answer.word("helperfault"),
        TalkEnd::ReadFault => answer.word("readfault"),
        TalkEnd::WriteFault => answer.word("writefault"),
        TalkEnd::TurnsSpent => answer.word("turnsspent"),
        TalkEnd::OutOfMemory => answer.word("outofmemory"),
    }
}

fn add_placed(word: &str, place: u64, answer: &mut Answer) {
    answer.word(word);
    answer.number(place);
}

/// Sums that came one after the other, those alike together.
#[derive(Drop)]
struct Runs {
    now: Option<Sum>,
    count: u64,
}

impl Runs {
    fn new() -> Runs {
        Runs {
            now: None,
            count: 0,
        }
    }

    fn add(&mut self, sum: Sum, answer: &mut Answer) {
        if self.now == Some(sum) {
            self.count = self.count.saturating_add(1);
            return;
        }
        self.end(answer);
        self.now = Some(sum);
        self.count = 1;
    }

    fn end(&self, answer: &mut Answer) {
        if let Some(sum) = self.now {
            answer.part();
            answer.number(self.count);
            add_sum(sum, answer);
        }
    }
}
