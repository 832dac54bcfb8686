//! What came of a request, in words.
use std::alloc::Global;
use up_bytes::Bytes;
use up_case_lines::{Answer, Fault, add_endpoint, add_members};
use up_dir::Fetched;
use up_entry::{Fetch, Location};
use up_host::Event;
use up_policy::{LoadAnswer, Loaded};
use up_text::reply_lines;
use up_wire::Reply;

/// How many names that were loaded are told one by one; of more, the first and the last.
const SHORT: u64 = 8;

/// Adds the lines of the reply, the position, what was loaded, and what was fetched.
pub fn add_event(alloc: Global, event: &Event, answer: &mut Answer) -> Result<(), Fault> {
    add_reply(alloc, &event.reply, answer)?;
    answer.part();
    answer.word("at");
    answer.number(event.position);
    add_loaded(&event.loaded, answer);
    add_fetched(alloc, &event.fetched, answer);
    Ok(())
}

/// Adds the lines of a reply.
pub fn add_reply(alloc: Global, reply: &Reply, answer: &mut Answer) -> Result<(), Fault> {
    if wants_memory(reply) {
        return Err(Fault::OutOfMemory);
    }
    let lines = reply_lines(alloc, reply)?;
    add_lines(alloc, lines.as_slice(), answer);
    drop(lines);
    Ok(())
}

fn wants_memory(reply: &Reply) -> bool {
    match reply {
        Reply::OutOfMemory => true,
        _ => false,
    }
}

fn add_lines(alloc: Global, lines: &[Bytes], answer: &mut Answer) {
    for (place, line) in lines.iter().enumerate() {
        if place > 0 {
            answer.part();
        }
        answer.begin();
        answer.made(String::from_utf8_lossy(alloc, line.as_slice()));
    }
}

fn add_loaded(loaded: &Loaded, answer: &mut Answer) {
    let count = loaded.len();
    if count > SHORT {
        answer.part();
        answer.word("loaded");
        answer.number(count);
        add_pair(loaded, 0, answer);
        add_pair(loaded, count - 1, answer);
        return;
    }
    for place in 0..count {
        add_pair(loaded, place, answer);
    }
}

// A name that was loaded, with its answer.
fn add_pair(loaded: &Loaded, place: u64, answer: &mut Answer) {
    let Some(name) = loaded.name(place) else {
        return;
    };
    answer.part();
    answer.word("loaded");
    answer.coded(name.as_str().as_bytes());
    match loaded.answer(name) {
        Some(given) => add_load(given, answer),
        None => answer.word("no answer"),
    }
}

fn add_load(given: &LoadAnswer, answer: &mut Answer) {
    match given {
        LoadAnswer::Text(text) => {
            answer.word("text");
            add_members(text, answer);
        }
        LoadAnswer::Missing => answer.word("missing"),
        LoadAnswer::BadText(line) => {
            answer.word("bad");
            answer.number(*line);
        }
        LoadAnswer::Failed => answer.word("failed"),
    }
}

fn add_fetched(alloc: Global, fetched: &Fetched, answer: &mut Answer) {
    for (location, fetch) in fetched.as_slice() {
        add_location(alloc, location, answer);
        add_fetch(fetch, answer);
    }
}

fn add_location(alloc: Global, location: &Location, answer: &mut Answer) {
    answer.part();
    answer.word("fetched");
    answer.begin();
    add_endpoint(&location.endpoint, answer);
    answer.begin();
    answer.made(location.reference.text(alloc));
}

fn add_fetch(fetch: &Fetch, answer: &mut Answer) {
    match fetch {
        Fetch::Got(bytes) => {
            answer.word("got");
            answer.coded(bytes.as_slice());
        }
        Fetch::Missing => answer.word("missing"),
        Fetch::Failed => answer.word("failed"),
    }
}
