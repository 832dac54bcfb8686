//! A reply of a store or a key server, in the words of a script.
use std::alloc::{AllocError, Global};
use up_bytes::Bytes;
use up_case_lines::Answer;
use up_entry::Endpoint;
use up_text::reply_lines;
use up_wire::{KeyRecord, Reply};

/// Adds the one line of a reply. Want of memory has none.
pub fn add_reply(alloc: Global, reply: Reply, answer: &mut Answer) -> Result<(), AllocError> {
    let lines = reply_lines(alloc, &reply);
    drop(reply);
    add_line(alloc, lines?.as_slice(), answer);
    Ok(())
}

fn add_line(alloc: Global, lines: &[Bytes], answer: &mut Answer) {
    match lines.first() {
        Some(line) => {
            answer.begin();
            answer.made(String::from_utf8_lossy(alloc, line.as_slice()));
        }
        None => answer.word("nomemory"),
    }
}

/// Adds a key record: the user, the directories, the stores and the key.
pub fn add_key(known: &KeyRecord, answer: &mut Answer) {
    answer.word("key");
    answer.coded(known.user.text().as_bytes());
    add_endpoints(known.dirs.as_slice(), answer);
    add_endpoints(known.stores.as_slice(), answer);
    answer.coded(known.key.as_slice());
}

// Addresses joined by commas, or `-`.
fn add_endpoints(endpoints: &[Endpoint], answer: &mut Answer) {
    answer.begin();
    if endpoints.is_empty() {
        answer.push("-");
    }
    for (n, endpoint) in endpoints.iter().enumerate() {
        answer.push(if n == 0 { "" } else { "," });
        match endpoint {
            Endpoint::Local => answer.push("local"),
            Endpoint::Address(address) => answer.field(address.as_slice()),
        }
    }
}
