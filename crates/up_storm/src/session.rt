//! One session of a storm.
ghost use Rattle.std.specs.Prelude.{◌≡◌, ◌≤◌, ◌<◌, ◌+◌, ◌^◌, ◌++◌, [], codes, decimal, false, IfOk, OnOk};
ghost use Rattle.up_command.specs.Printed.{numbered};
ghost use Rattle.up_shared.specs.Sharing.{AreSeats, SeatsLater};
ghost use Rattle.up_storm.specs.Asked.{line_of, request_of};
ghost use Rattle.up_storm.specs.Generator.{drawn_of, next_number};
ghost use Rattle.up_storm.specs.Sessions.{HasAsked, HasRun, IsAnswered, is_fault, said_of};
ghost use Rattle.up_storm.specs.Telling.{IsFew, call_text, counted, none_counted, told, total};

use crate::generator::{Draw, drawn_of, next_number};
use crate::requests::{push_line, request_of};
use crate::tally::Tally;
use std::alloc::{AllocError, Global};
use std::marker::Model;
use std::sync::Wait;
use up_bytes::Bytes;
use up_calls::Event;
use up_command::{say_numbered, say_reply};
use up_disk::Disk;
use up_ends::Gate;
use up_peer::Loader;
use up_shared::{Seats, Shared};
use up_sign::Session;
use up_wire::Reply;

/// One session: its seats at the shared host, who signed on, the number from which its next request is drawn, what it will print, and its
/// replies by their kinds.
#[derive(Drop)]
pub struct Worker<D: Disk + Drop, L: Loader + Drop> {
    alloc: Global,
    seats: Seats<D>,
    peers: L,
    session: Session,
    number: u64,
    text: Vec<u8>,
    tally: Tally,
    failed: bool,
}

/// What a session says once it has ended.
#[derive(Drop)]
pub struct Said {
    pub text: Bytes,
    pub tally: Tally,
}

impl<D: Disk + Drop, L: Loader + Drop> Model for Worker<D, L> {
    ghost use Rattle.up_storm.specs.Sessions.{Session as OneSession};

    ghost Value = { OneSession D L };

    ghost view = { λ worker. record {
      seats = worker.seats;
      peers = worker.peers;
      user = worker.session.user;
      number = worker.number;
      text = worker.text.items;
      tally = worker.tally;
      failed = worker.failed;
    } };
}

impl<D: Disk + Drop, L: Loader + Drop> Worker<D, L> {
    /// A session that has asked nothing yet.
    pub fn new(
        alloc: Global,
        seats: Seats<D>,
        peers: L,
        session: Session,
        number: u64,
    ) -> Worker<D, L>
        ensures { result ≡ record {
          seats = seats;
          peers = peers;
          user = session.user;
          number = number;
          text = [];
          tally = none_counted;
          failed = false;
        } }
    {
        Worker {
            alloc,
            seats,
            peers,
            session,
            number,
            text: Vec::new(alloc),
            tally: Tally::none(),
            failed: false,
        }
    }

    /// Whether a disk failed it, or memory was wanting.
    pub fn failed(&self) -> bool
        ensures { result ≡ self.now.failed }
    {
        self.failed
    }

    /// Its seats, and what it says.
    pub fn end(self) -> (Seats<D>, Said)
        ensures seats { result.0 ≡ self.seats }
        ensures said { result.1 ≡ said_of self }
    {
        let Worker {
            alloc: _,
            seats,
            peers: _,
            session: _,
            number: _,
            text,
            tally,
            failed: _,
        } = self;
        let text = Bytes::from_vec(text);
        (seats, Said { text, tally })
    }

    /// Asks so many requests as session `k`, one after the other, each between the gate's two calls. It stops where a disk fails, or
    /// memory is wanting.
    #[tactic(auto, using(crate::proofs::Running::running_none, crate::proofs::Running::running_next, crate::proofs::Running::running_all, up_shared::specs::Callers::seats_same, up_shared::specs::Callers::seats_trans))]
    pub fn run<R: Wait, G: Gate>(
        &mut self,
        rt: &R,
        shared: &Shared<D>,
        gate: &G,
        full: bool,
        k: u64,
        requests: u64,
    )
        requires sits { AreSeats shared.now self.old.seats }
        requires number { k + 2 < 2 ^ 64 }
        requires few { requests ≤ 2 ^ 16 }
        requires fresh { self.old.tally ≡ none_counted }
        ensures sits { AreSeats shared.now self.new.seats }
        ensures later { SeatsLater self.old.seats self.new.seats }
        ensures few { IsFew requests self.new.tally }
        ensures ran { self.new.failed ≡ false
            → HasRun L.Loader shared.now full k requests self.old self.new }
    {
        for call in 0..requests {
            gate.enter(k, call);
            let asked = self.ask(rt, shared, full, k);
            gate.leave(k, call);
            if asked.is_err() {
                self.failed = true;
                return;
            }
        }
    }

    // Asks the next request. An `Err` is a disk that failed, or want of memory.
    #[tactic(auto, using(crate::proofs::Asking::asked_noted))]
    fn ask<R: Wait>(
        &mut self,
        rt: &R,
        shared: &Shared<D>,
        full: bool,
        k: u64,
    ) -> Result<(), AllocError>
        requires sits { AreSeats shared.now self.old.seats }
        requires number { k + 2 < 2 ^ 64 }
        requires few { total self.old.tally < 2 ^ 32 }
        ensures sits { AreSeats shared.now self.new.seats }
        ensures later { SeatsLater self.old.seats self.new.seats }
        ensures asked { OnOk result
            (HasAsked L.Loader shared.now full k self.old self.new) }
        ensures failed { self.new.failed ≡ self.old.failed }
        ensures few { total self.new.tally ≤ total self.old.tally + 1 }
    {
        let number = next_number(self.number);
        let draw = drawn_of(number);
        let event = self.answer(rt, shared, k, draw)?;
        self.number = number;
        let noted = self.note(full, k, draw, &event);
        drop(event);
        noted
    }

    // The answer to what the session asks by a draw.
    #[tactic(auto, using(crate::proofs::Asking::answered, up_shared::specs::Callers::seats_same))]
    fn answer<R: Wait>(
        &mut self,
        rt: &R,
        shared: &Shared<D>,
        k: u64,
        draw: Draw,
    ) -> Result<Event, AllocError>
        requires sits { AreSeats shared.now self.old.seats }
        requires number { k + 2 < 2 ^ 64 }
        ensures sits { AreSeats shared.now self.new.seats }
        ensures later { SeatsLater self.old.seats self.new.seats }
        ensures answered { IfOk result (λ event. IsAnswered L.Loader shared.now
            self.old.seats self.old.peers
            (record { user = self.old.user; request = request_of k draw }) event
            self.new.seats self.new.peers) }
        ensures rest { self.new ≡ record self.old {
          seats = self.new.seats;
          peers = self.new.peers;
        } }
    {
        let request = request_of(self.alloc, k, draw)?;
        let event = shared.ask(
            rt,
            self.alloc,
            &mut self.seats,
            &mut self.peers,
            &self.session,
            &request,
            0,
        );
        drop(request);
        Ok(event)
    }

    // Notes what came of a request: for printing, and for the counts.
    fn note(&mut self, full: bool, k: u64, draw: Draw, event: &Event) -> Result<(), AllocError>
        requires number { k + 2 < 2 ^ 64 }
        requires few { total self.old.tally < 2 ^ 32 }
        ensures sound { OnOk result (is_fault event.now.reply ≡ false) }
        ensures text { OnOk result (self.new.text ≡ self.old.text ++ told full k draw event.now) }
        ensures tally { OnOk result (self.new.tally ≡ counted self.old.tally event.now.reply) }
        ensures few { total self.new.tally ≤ total self.old.tally + 1 }
        ensures seats { self.new.seats ≡ self.old.seats }
        ensures peers { self.new.peers ≡ self.old.peers }
        ensures user { self.new.user ≡ self.old.user }
        ensures number { self.new.number ≡ self.old.number }
        ensures failed { self.new.failed ≡ self.old.failed }
    {
        if is_fault(&event.reply) {
            return Err(AllocError);
        }
        self.tally.count(&event.reply);
        if full {
            say_call(self.alloc, &mut self.text, k, draw, event)?;
        }
        Ok(())
    }
}

/// Whether a disk failed, or memory was wanting.
pub(crate) fn is_fault(reply: &Reply) -> bool
    ensures { result ≡ is_fault reply.now }
{
    matches!(reply, Reply::Io | Reply::OutOfMemory)
}

// Adds what is printed of a request and its reply.
fn say_call(
    alloc: Global,
    out: &mut Vec<u8>,
    k: u64,
    draw: Draw,
    event: &Event,
) -> Result<(), AllocError>
    requires { k + 2 < 2 ^ 64 }
    ensures { OnOk result (out.new.items ≡ out.old.items ++ call_text k draw event.now) }
{
    say_line(alloc, out, k, draw)?;
    say_position(out, event.position)?;
    say_reply(alloc, out, k, &event.reply)
}

// Adds the line that asks a request.
fn say_line(alloc: Global, out: &mut Vec<u8>, k: u64, draw: Draw) -> Result<(), AllocError>
    requires { k + 2 < 2 ^ 64 }
    ensures { OnOk result (out.new.items
        ≡ out.old.items ++ numbered k (line_of k draw)) }
{
    let mut line = Vec::new(alloc);
    push_line(&mut line, k, draw)?;
    say_numbered(out, k, &line)
}

// Adds the position before the first line of a reply.
fn say_position(out: &mut Vec<u8>, position: u64) -> Result<(), AllocError>
    ensures { OnOk result (out.new.items
        ≡ out.old.items ++ (codes "@" ++ (decimal position ++ codes " "))) }
{
    let digits = position.to_string(*out.allocator())?;
    out.push(b'@')?;
    out.extend_from_slice(digits.as_bytes())?;
    out.push(b' ')?;
    Ok(())
}
