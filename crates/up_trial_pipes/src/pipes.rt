//! The host, its client, and the pipes between them.
ghost use Rattle.std.specs.Prelude.{◌≡◌, true, length, IfOk};
ghost use Rattle.up_keys.specs.Records.{has_bounds};

use std::alloc::Global;
use std::fs::Files;
use std::hash::RandomState;
use std::io;
use std::io::{ErrorKind, PipeReader, PipeWriter, Read, Write, pipe};
use std::thread::{Threads, join};
use up_alone::talk_alone;
use up_bytes::copy_of;
use up_disk::{Disks, MemDisk};
use up_ends::{FixedClock, FixedVerifier, ListNonces, StdSink, StdSource, Verdict};
use up_host::Host;
use up_journal::Limits;
use up_keys::keeps_bounds;
use up_lists::Items;
use up_names::{User, parse_user};
use up_peer::Peers;
use up_talk::TalkEnd;
use up_wire::KeyRecord;

/// Limits to which the host's logs do not come.
const WIDE: Limits = Limits {
    records: 1 << 20,
    device: 1 << 30,
    largest: 1 << 17,
};

/// How often the client asks for each of its requests.
const ROUNDS: u64 = 100;

/// Hello of a user, and the challenge of 32 zeros; a proof, and Welcome.
const SIGN_ON: [(&[u8], &[u8]); 2] = [
    (
        b"\x00\x00\x00\x0F\x01\x0Dann@a.example",
        b"\x00\x00\x00\x21\x81\x00\x00\x00\x00\x00\x00\x00\x00\x00\x00\x00\x00\x00\x00\x00\x00\x00\x00\x00\x00\x00\x00\x00\x00\x00\x00\x00\x00\x00\x00\x00\x00",
    ),
    (b"\x00\x00\x00\x02\x02\x00", b"\x00\x00\x00\x01\x82"),
];

/// Lookups of a tree that the host does not have, and of a name that is none, with their replies.
const REQUESTS: [(&[u8], &[u8]); 2] = [
    (
        b"\x00\x00\x00\x10\x10\x0Eann@a.example/",
        b"\x00\x00\x00\x01\x02",
    ),
    (b"\x00\x00\x00\x02\x10\x00", b"\x00\x00\x00\x02\x01\x00"),
];

const BYE: &[u8] = b"\x00\x00\x00\x01\x03";

fn refused() -> io::Error {
    io::Error::from(ErrorKind::Other)
}

fn user_of(alloc: Global, name: &[u8]) -> io::Result<User> {
    match parse_user(alloc, name) {
        Ok(user) => Ok(user),
        Err(_) => Err(refused()),
    }
}

/// Empty disks, of a store and of keys.
fn empty_disks(alloc: Global) -> io::Result<Disks<MemDisk>>
    ensures { IfOk result (λ disks. length disks.disks ≡ 2) }
{
    let mut disks = Disks::new(alloc);
    disks.push(MemDisk::new(alloc, Items::new(alloc)))?;
    disks.push(MemDisk::new(alloc, Items::new(alloc)))?;
    Ok(disks)
}

/// A host without trees.
fn empty_host(alloc: Global, random: RandomState) -> io::Result<Host<MemDisk>> {
    let disks = empty_disks(alloc)?;
    match user_of(alloc, b"op@h.example") {
        Ok(operator) => open(alloc, random, operator, disks),
        Err(fault) => {
            drop(disks);
            Err(fault)
        }
    }
}

#[tactic(auto, using(crate::proofs::Owners::none_differ))]
fn open(
    alloc: Global,
    random: RandomState,
    operator: User,
    disks: Disks<MemDisk>,
) -> io::Result<Host<MemDisk>>
    requires { length disks.disks ≡ 2 }
{
    match Host::open(alloc, random, "h", operator, Items::new(alloc), disks, WIDE) {
        Ok(host) => Ok(host),
        Err(fault) => {
            drop(fault);
            Err(refused())
        }
    }
}

/// A user's record, with a key.
fn card_of(alloc: Global, name: &[u8]) -> io::Result<KeyRecord> {
    let user = user_of(alloc, name)?;
    match copy_of(alloc, b"key") {
        Ok(key) => Ok(KeyRecord {
            user,
            dirs: Items::new(alloc),
            stores: Items::new(alloc),
            key,
        }),
        Err(_) => {
            drop(user);
            Err(refused())
        }
    }
}

fn has_bounds(card: &KeyRecord) -> bool
    ensures { result ≡ has_bounds card.now }
{
    keeps_bounds(
        card.dirs.as_slice(),
        card.stores.as_slice(),
        card.key.as_slice(),
    )
}

fn enrol(host: &mut Host<MemDisk>, card: KeyRecord) -> io::Result<()> {
    if !has_bounds(&card) {
        drop(card);
        return Err(refused());
    }
    match host.enrol(card) {
        Ok(_) => Ok(()),
        Err(_) => Err(refused()),
    }
}

/// Answers who says what comes by one pipe by the other. The verifier says Yes.
fn serve(alloc: Global, mut host: Host<MemDisk>, hears: PipeReader, says: PipeWriter) -> TalkEnd {
    let mut source = StdSource::new(hears);
    let mut sink = StdSink::new(says);
    let mut peers = Peers::new(alloc);
    let mut verifier = FixedVerifier::new(alloc, Items::new(alloc), Some(Verdict::Yes));
    let mut clock = FixedClock::new(86_400);
    let mut nonces = ListNonces::new(Items::new(alloc));
    talk_alone(
        alloc,
        &mut host,
        &mut peers,
        &mut source,
        &mut sink,
        &mut verifier,
        &mut clock,
        &mut nonces,
    )
}

/// The two pipes of a client.
#[derive(Drop)]
struct Client {
    says: PipeWriter,
    hears: PipeReader,
}

impl Client {
    /// Says this, waits for as many bytes as an answer has, and tells whether they are that answer.
    fn is_answered(&mut self, said: &[u8], answer: &[u8]) -> io::Result<bool> {
        self.says.write_all(said)?;
        let mut byte = [0; 1];
        for wanted in answer.iter() {
            self.hears.read_exact(&mut byte)?;
            if byte[0] != *wanted {
                return Ok(false);
            }
        }
        Ok(true)
    }

    /// The same of one after the other.
    fn are_answered(&mut self, turns: &[(&[u8], &[u8])]) -> io::Result<bool> {
        for (said, answer) in turns.iter().copied() {
            if !self.is_answered(said, answer)? {
                return Ok(false);
            }
        }
        Ok(true)
    }

    /// Signs on, asks, and says Bye: whether each was answered as it should be.
    fn converse(&mut self) -> io::Result<bool> {
        if !self.are_answered(SIGN_ON.as_slice())? {
            return Ok(false);
        }
        for _ in 0..ROUNDS {
            if !self.are_answered(REQUESTS.as_slice())? {
                return Ok(false);
            }
        }
        self.says.write_all(BYE)?;
        Ok(true)
    }
}

fn converse(mut client: Client) -> io::Result<bool> {
    let answered = client.converse();
    drop(client);
    answered
}

/// The connection, with a thread for each of its ends.
fn talk(
    alloc: Global,
    files: &impl Files,
    threads: &impl Threads,
    host: Host<MemDisk>,
) -> io::Result<(TalkEnd, bool)> {
    let (asked, says) = pipe(files)?;
    let (hears, answers) = pipe(files)?;
    let client = Client { says, hears };
    let (end, answered) = join(
        threads,
        || serve(alloc, host, asked, answers),
        || converse(client),
    );
    Ok((end, answered?))
}

/// How the connection ended to a host that knows the user's key, and whether the client was answered as it should be.
pub fn talked(
    alloc: Global,
    files: &impl Files,
    threads: &impl Threads,
    random: RandomState,
) -> io::Result<(TalkEnd, bool)> {
    let mut host = empty_host(alloc, random)?;
    match card_of(alloc, b"ann@a.example") {
        Ok(card) => enrol(&mut host, card)?,
        Err(fault) => {
            drop(host);
            return Err(fault);
        }
    }
    talk(alloc, files, threads, host)
}
