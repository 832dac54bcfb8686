//! A leader over a connection.
ghost use Rattle.std.specs.Prelude.{◌≡◌, ◌≤◌, length, IfOk};
ghost use Rattle.up_follow.specs.Feeds.{batch_limit};

use std::alloc::{AllocError, Global};
use std::marker::Model;
use std::net::{Net, TcpStream};
use std::process::Processes;
use std::time::Clock;
use up_bytes::{Bytes, FieldFault};
use up_feed_wire::{FeedAsk, FeedReply, read_feed_reply, write_feed_ask};
use up_follow::{Batch, Feed, FeedFault};
use up_names::User;
use up_net::{CallFault, Dialled, Waits};

/// How many records a leader gives at once, at most.
const MOST_RECORDS: u64 = 64;

/// A leader over a connection, which is pulled from as the owner of the tree. It connects and signs on at the first pull, and again at the
/// first pull behind one that failed. It tells nothing of the leader's log, and is seen as its count of failures.
///
/// A pull fails where the leader cannot be asked or does not sign the owner on, where it says that it has no such tree or no memory, and where
/// its message is none that may come, or has more than 64 records.
#[derive(Drop)]
pub struct SocketFeed<R: Net<Stream = TcpStream> + Processes + Clock + Copy> {
    server: Dialled<R>,
    faults: u64,
}

impl<R: Net<Stream = TcpStream> + Processes + Clock + Copy> Model for SocketFeed<R> {
    ghost use Rattle.std.specs.Prelude.{ℕ};

    ghost Value = { ℕ };

    ghost view = { λ feed. feed.faults };
}

impl<R: Net<Stream = TcpStream> + Processes + Clock + Copy> SocketFeed<R> {
    /// The leader at the address `NAME@HOST:PORT`, pulled from as this user, for whom the helper signs. Nothing is connected yet.
    pub fn new(
        alloc: Global,
        rt: R,
        address: &[u8],
        user: User,
        helper: String,
        waits: Waits,
    ) -> Result<Self, AllocError>
        ensures { IfOk result (λ feed. feed ≡ 0) }
    {
        let server = Dialled::new(alloc, rt, address, user, helper, waits)?;
        Ok(SocketFeed { server, faults: 0 })
    }

    // What the leader gives behind so many records. After a message that is none the connection is ended.
    fn heard(&mut self, alloc: Global, from: u64) -> Result<Batch, CallFault>
        ensures few { IfOk result (λ batch. length batch ≤ batch_limit) }
        ensures same { self.new ≡ self.old }
    {
        let asked = write_feed_ask(alloc, FeedAsk { from })?;
        let heard = self.server.exchange(asked.as_slice())?;
        let batch = batch_in(alloc, &heard);
        if batch == Err(CallFault::Failed) {
            self.server.hang_up();
        }
        batch
    }
}

// The records that a message brings. A message that brings none is a failure, and so is one that brings too many.
fn batch_in(alloc: Global, message: &Bytes) -> Result<Batch, CallFault>
    ensures { IfOk result (λ batch. length batch ≤ batch_limit) }
{
    match read_feed_reply(alloc, message.as_slice()) {
        Ok(FeedReply::Records(batch)) => few_of(batch),
        Ok(FeedReply::NoTree | FeedReply::OutOfMemory) => Err(CallFault::Failed),
        Err(FieldFault::OutOfMemory) => Err(CallFault::OutOfMemory),
        Err(_) => Err(CallFault::Failed),
    }
}

// These records, where they are not too many.
fn few_of(batch: Batch) -> Result<Batch, CallFault>
    ensures { IfOk result (λ given. length given ≤ batch_limit) }
{
    if batch.len() > MOST_RECORDS {
        drop(batch);
        return Err(CallFault::Failed);
    }
    Ok(batch)
}

impl<R: Net<Stream = TcpStream> + Processes + Clock + Copy> Feed for SocketFeed<R> {
    ghost use Rattle.std.specs.Prelude.{None};
    ghost use Rattle.up_net.specs.Sockets.{AnyTie, any_joined, any_same};

    ghost leader = { λ _. None };

    ghost faults = { λ feed. feed };

    ghost tied = { AnyTie };

    fn pull(&mut self, alloc: Global, from: u64) -> Result<Batch, FeedFault> {
        match self.heard(alloc, from) {
            Ok(batch) => Ok(batch),
            Err(CallFault::OutOfMemory) => Err(FeedFault::OutOfMemory),
            Err(_) => {
                self.faults = self.faults.saturating_add(1);
                Err(FeedFault::Failed)
            }
        }
    }

    ghost same = { any_same };

    ghost joined = { any_joined };
}
