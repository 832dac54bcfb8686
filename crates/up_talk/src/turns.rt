//! The turns of a connection: a read, and then all frames that are whole.
ghost use Rattle.std.specs.Prelude.{◌≡◌, ◌≤◌, ◌<◌, ◌+◌, ◌^◌, ℕ, List, Option, length, OnOk};
ghost use Rattle.up_bytes.specs.Forms.{IsBytes};
ghost use Rattle.up_frame.specs.Cutting.{IsWhole};
ghost use Rattle.up_frame.specs.Stream.{IsPartial};
ghost use Rattle.up_talk.specs.Around.{Ends, World};
ghost use Rattle.up_talk.specs.Completing.{Completes, IsInOrder, asks_all};
ghost use Rattle.up_talk.specs.Limits.{longest};
ghost use Rattle.up_talk.specs.Talks.{Talks};
ghost use Rattle.up_talk.specs.declared.message.FromClient.{FromClient};
ghost use Rattle.up_talk.specs.Turns.{GoesOn, IsEndOf, Talked, Talking, Turned, Waiting, around, end_at, ends, ends_at, parties, standing_at, world};

use crate::answers::Answers;
use crate::end::TalkEnd;
use crate::fault::{ReadWhy, Stop};
use crate::handling::handle;
use crate::incoming::Incoming;
use crate::outgoing::Outgoing;
use crate::reading::read_said;
use crate::stage::Stage;
use std::alloc::Global;
use up_ends::{Clock, Nonces, Sink, Source, Verifier};
use up_frame::Front;

/// How many reads that give a byte are made.
const MOST_TURNS: u64 = 1 << 40;

/// One connection with whoever answers.
pub fn talk_to<A: Answers, S: Source, K: Sink, V: Verifier, C: Clock, N: Nonces>(
    alloc: Global,
    answerer: &mut A,
    source: &mut S,
    sink: &mut K,
    verifier: &mut V,
    clock: &mut C,
    nonces: &mut N,
) -> TalkEnd
    ensures talks { Talks (parties A.Answers A.Answer.Fields V.Verifier C.Clock N.Nonces)
        (world (around answerer.old verifier.old clock.old nonces.old)
        (ends S.Source K.Sink source.old sink.old))
        (world (around answerer.new verifier.new clock.new nonces.new)
        (ends S.Source K.Sink source.new sink.new)) result }
    // A client that signs on, asks, and perhaps says Bye, all of it in order, whose user is known and judged Yes, gets all answers
    // where nothing fails, or there was no memory.
    ensures complete { (text signature : List ℕ) (questions : List A.Question)
        (last : List (FromClient A.Question))
        → IsInOrder (parties A.Answers A.Answer.Fields V.Verifier C.Clock N.Nonces)
        (world (around answerer.old verifier.old clock.old nonces.old)
        (ends S.Source K.Sink source.old sink.old))
        (world (around answerer.new verifier.new clock.new nonces.new)
        (ends S.Source K.Sink source.new sink.new)) text signature questions last
        → Completes (parties A.Answers A.Answer.Fields V.Verifier C.Clock N.Nonces)
        (world (around answerer.old verifier.old clock.old nonces.old)
        (ends S.Source K.Sink source.old sink.old))
        (world (around answerer.new verifier.new clock.new nonces.new)
        (ends S.Source K.Sink source.new sink.new))
        (asks_all text signature questions) result }
    ensures tie { A.tied answerer.old answerer.new }
{
    talk(alloc, answerer, source, sink, verifier, clock, nonces)
}

// The connection.
fn talk<A: Answers, S: Source, K: Sink, V: Verifier, C: Clock, N: Nonces>(
    alloc: Global,
    answerer: &mut A,
    source: &mut S,
    sink: &mut K,
    verifier: &mut V,
    clock: &mut C,
    nonces: &mut N,
) -> TalkEnd
    ensures { Talked (parties A.Answers A.Answer.Fields V.Verifier C.Clock N.Nonces)
        (world (around answerer.old verifier.old clock.old nonces.old)
        (ends S.Source K.Sink source.old sink.old))
        (world (around answerer.new verifier.new clock.new nonces.new)
        (ends S.Source K.Sink source.new sink.new)) result }
{
    let Ok(mut incoming) = Incoming::new(alloc) else {
        return TalkEnd::OutOfMemory;
    };
    let mut out = Outgoing::new(alloc);
    let mut stage = Stage::Unsaid;
    for _turn in 0..MOST_TURNS {
        match turn(
            alloc,
            answerer,
            source,
            sink,
            verifier,
            clock,
            nonces,
            &mut incoming,
            &mut stage,
            &mut out,
        ) {
            Ok(()) => {}
            Err(end) => return end,
        }
    }
    TalkEnd::TurnsSpent
}

// A read, and then all frames that are whole. What is made of them is written before the next read.
fn turn<A: Answers, S: Source, K: Sink, V: Verifier, C: Clock, N: Nonces>(
    alloc: Global,
    answerer: &mut A,
    source: &mut S,
    sink: &mut K,
    verifier: &mut V,
    clock: &mut C,
    nonces: &mut N,
    incoming: &mut Incoming,
    stage: &mut Stage,
    out: &mut Outgoing,
) -> Result<(), TalkEnd>
    requires count { incoming.old.handled + length incoming.old.bytes + 65536 < 2 ^ 64 }
    ensures turned { (a : World A V C N)
        → Waiting (parties A.Answers A.Answer.Fields V.Verifier C.Clock N.Nonces) a
        (world (around answerer.old verifier.old clock.old nonces.old)
        (ends S.Source K.Sink source.old sink.old))
        (standing_at stage.old) incoming.old out.old
        → Turned (parties A.Answers A.Answer.Fields V.Verifier C.Clock N.Nonces) a
        (world (around answerer.new verifier.new clock.new nonces.new)
        (ends S.Source K.Sink source.new sink.new))
        (standing_at stage.new) incoming.new out.new result }
    ensures more { OnOk result (incoming.old.handled + length incoming.old.bytes
        < incoming.new.handled + length incoming.new.bytes) }
    ensures most { OnOk result (incoming.new.handled + length incoming.new.bytes
        ≤ incoming.old.handled + length incoming.old.bytes + 65536) }
{
    match incoming.read(source) {
        Ok(0) => return Err(end_of(incoming)),
        Ok(_) => {}
        Err(ReadWhy::Failed) => return Err(TalkEnd::ReadFault),
        Err(ReadWhy::OutOfMemory) => return Err(TalkEnd::OutOfMemory),
    }
    let handled = handle_all(
        alloc, answerer, sink, verifier, clock, nonces, incoming, stage, out,
    );
    match out.flush(sink) {
        Ok(()) => handled,
        Err(_) => Err(TalkEnd::WriteFault),
    }
}

// The input has ended.
fn end_of(incoming: &Incoming) -> TalkEnd
    requires { incoming.now.handled + length incoming.now.bytes < 2 ^ 64 }
    ensures { IsEndOf incoming.now result }
{
    let len = incoming.len() as u64;
    if len == 0 {
        return TalkEnd::Ended;
    }
    TalkEnd::Cut(incoming.handled() + len)
}

// Handles all frames that are whole.
fn handle_all<A: Answers, K: Sink, V: Verifier, C: Clock, N: Nonces>(
    alloc: Global,
    answerer: &mut A,
    sink: &mut K,
    verifier: &mut V,
    clock: &mut C,
    nonces: &mut N,
    incoming: &mut Incoming,
    stage: &mut Stage,
    out: &mut Outgoing,
) -> Result<(), TalkEnd>
    requires count { incoming.old.handled + length incoming.old.bytes < 2 ^ 64 }
    ensures goes { (a : World A V C N) (left : Option (List ℕ)) (given faults : ℕ)
        → Talking (parties A.Answers A.Answer.Fields V.Verifier C.Clock N.Nonces) a
        (world (around answerer.old verifier.old clock.old nonces.old)
        (ends_at left given faults K.Sink sink.old))
        (standing_at stage.old) incoming.old out.old
        → GoesOn (parties A.Answers A.Answer.Fields V.Verifier C.Clock N.Nonces) a
        (world (around answerer.new verifier.new clock.new nonces.new)
        (ends_at left given faults K.Sink sink.new))
        (standing_at stage.new) incoming.new out.new result }
    ensures partial { OnOk result (IsPartial longest incoming.new.bytes) }
    ensures count { OnOk result (incoming.new.handled + length incoming.new.bytes
        ≡ incoming.old.handled + length incoming.old.bytes) }
{
    loop {
        let len = match incoming.front() {
            Front::Whole(len) => len,
            Front::Partial => return Ok(()),
            Front::Bad => return Err(TalkEnd::BadFrame(incoming.handled())),
        };
        match handle_front(
            alloc, answerer, verifier, clock, nonces, incoming, len, stage, out,
        ) {
            Ok(()) => {}
            Err(end) => return Err(end),
        }
        match out.flush_full(sink) {
            Ok(()) => {}
            Err(_) => return Err(TalkEnd::WriteFault),
        }
    }
}

// Handles the whole frame at the front.
fn handle_front<A: Answers, V: Verifier, C: Clock, N: Nonces>(
    alloc: Global,
    answerer: &mut A,
    verifier: &mut V,
    clock: &mut C,
    nonces: &mut N,
    incoming: &mut Incoming,
    len: usize,
    stage: &mut Stage,
    out: &mut Outgoing,
) -> Result<(), TalkEnd>
    requires count { incoming.old.handled + length incoming.old.bytes < 2 ^ 64 }
    requires bytes { IsBytes incoming.old.bytes }
    requires whole { IsWhole longest incoming.old.bytes len }
    ensures goes { (a : World A V C N) (at : Ends)
        → Talking (parties A.Answers A.Answer.Fields V.Verifier C.Clock N.Nonces) a
        (world (around answerer.old verifier.old clock.old nonces.old) at)
        (standing_at stage.old) incoming.old out.old
        → GoesOn (parties A.Answers A.Answer.Fields V.Verifier C.Clock N.Nonces) a
        (world (around answerer.new verifier.new clock.new nonces.new) at)
        (standing_at stage.new) incoming.new out.new result }
    ensures count { OnOk result (incoming.new.handled + length incoming.new.bytes
        ≡ incoming.old.handled + length incoming.old.bytes) }
    ensures less { OnOk result (length incoming.new.bytes < length incoming.old.bytes) }
{
    let said = match read_said::<A>(alloc, stage, incoming.payload(len)) {
        Ok(Some(said)) => said,
        Ok(None) => return Err(TalkEnd::BadFrame(incoming.handled())),
        Err(_) => return Err(TalkEnd::OutOfMemory),
    };
    match handle(alloc, answerer, verifier, clock, nonces, stage, said, out) {
        Ok(()) => {
            incoming.pass(len);
            Ok(())
        }
        Err(stop) => Err(end_by(stop, incoming.handled())),
    }
}

// How the connection ends at the frame at this place.
fn end_by(stop: Stop, place: u64) -> TalkEnd
    ensures { result ≡ end_at stop place }
{
    match stop {
        Stop::Unfit => TalkEnd::BadFrame(place),
        Stop::Bye => TalkEnd::Ended,
        Stop::NotSigned => TalkEnd::NotSigned,
        Stop::HelperFault => TalkEnd::HelperFault,
        Stop::OutOfMemory => TalkEnd::OutOfMemory,
    }
}
