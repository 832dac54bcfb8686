//! Commands of a store.
ghost use Rattle.std.specs.Prelude.{IfOk};
ghost use Rattle.up_store.specs.Answers.{IsAsked};

use super::on_disk::add_outcome;
use super::on_journal::add_open_fault;
use super::replies::add_reply;
use super::watched::Watched;
use super::{add_counted, so_many};
use std::alloc::Global;
use up_blocks::{BlockWhy, Blocks};
use up_bytes::Bytes;
use up_case_lines::{Answer, Fault, Words, bytes_of, number_of, user_of};
use up_journal::Limits;
use up_refs::Reference;
use up_store::store_step;
use up_wire::Request;

/// The greatest payload of a store's log.
pub const LARGEST: u64 = 1_048_577;

/// The limits with which images are opened.
const IMAGE_LIMITS: Limits = Limits {
    records: 1_000,
    device: 1 << 30,
    largest: LARGEST,
};

/// The most bytes of a block that a line asks for by their number.
const LONGEST: u64 = 1 << 21;

/// Does one command of a store, or answers `false` where it is none.
pub fn turn(
    alloc: Global,
    store: &mut Blocks<Watched>,
    mut words: Words<'_>,
    answer: &mut Answer,
) -> Result<bool, Fault> {
    match words.word()? {
        "get" => add_got(store.get(&reference_of(words)?), answer),
        "delete" => add_deleted(store.delete(&reference_of(words)?), answer),
        "step" => step_line(alloc, store, words, answer)?,
        "held" => add_held(store, answer),
        "resolve" => add_outcome(store.resolve(), answer),
        _ => return Ok(false),
    }
    Ok(true)
}

// The reference of which the last word is the text.
fn reference_of(mut words: Words<'_>) -> Result<Reference, Fault> {
    Reference::parse(words.one()?.as_bytes()).ok_or(Fault::BadLine)
}

// `get REF`: the bytes, or why not.
fn add_got(outcome: Result<Bytes, BlockWhy>, answer: &mut Answer) {
    match outcome {
        Ok(bytes) => answer.coded(bytes.as_slice()),
        Err(why) => add_why(why, answer),
    }
}

// `delete REF`: the position, or why not.
fn add_deleted(outcome: Result<u64, BlockWhy>, answer: &mut Answer) {
    match outcome {
        Ok(position) => add_counted("ok", position, answer),
        Err(why) => add_why(why, answer),
    }
}

fn add_why(why: BlockWhy, answer: &mut Answer) {
    match why {
        BlockWhy::NotExist => answer.word("notexist"),
        BlockWhy::Full(records) => add_counted("full", records, answer),
        BlockWhy::Fault => answer.word("fault"),
        BlockWhy::OutOfMemory => answer.word("out of memory"),
    }
}

// `step USER REQUEST WORD`: the reply to a user's request at the store of `op@s.example`.
fn step_line(
    alloc: Global,
    store: &mut Blocks<Watched>,
    mut words: Words<'_>,
    answer: &mut Answer,
) -> Result<(), Fault> {
    let (user, keyword, word) = words.three()?;
    let request = request_of(alloc, keyword, word)?;
    step_as(alloc, store, user, &request, answer)
}

fn step_as(
    alloc: Global,
    store: &mut Blocks<Watched>,
    user: &str,
    request: &Request,
    answer: &mut Answer,
) -> Result<(), Fault>
    requires { IsAsked request.now }
{
    let operator = user_of(alloc, "op@s.example")?;
    let user = user_of(alloc, user)?;
    let reply = store_step(store, &operator, &user, request);
    Ok(add_reply(alloc, reply, answer)?)
}

// `store BYTES`, `long N` of a block of N bytes `a`, `fetch REF`, `drop REF`.
fn request_of(alloc: Global, keyword: &str, word: &str) -> Result<Request, Fault>
    ensures { IfOk result IsAsked }
{
    match keyword {
        "store" => Ok(Request::StorePut(bytes_of(alloc, word)?)),
        "long" => Ok(Request::StorePut(so_many(alloc, b'a', number_of(word)?.min(LONGEST))?)),
        "fetch" => Ok(Request::Get(bytes_of(alloc, word)?)),
        "drop" => Ok(Request::StoreDelete(bytes_of(alloc, word)?)),
        _ => Err(Fault::BadLine),
    }
}

// How many records there are, and the references that are held, in order, each by its first four bytes.
fn add_held(store: &Blocks<Watched>, answer: &mut Answer) {
    add_counted("records", store.position(), answer);
    answer.push(",");
    add_counted("held", store.len(), answer);
    answer.push(":");
    for i in 0..store.len() {
        if let Some(reference) = store.reference(i) {
            answer.digits(&reference.bytes()[..4]);
        }
    }
}

/// Adds what a store over a disk holds, or why it is refused.
pub fn add_store(alloc: Global, disk: Watched, answer: &mut Answer) {
    match Blocks::open(alloc, disk, IMAGE_LIMITS) {
        Ok(store) => add_held(&store, answer),
        Err(fault) => add_open_fault(fault.why, answer),
    }
    answer.push(".");
}
